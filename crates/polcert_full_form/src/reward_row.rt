//! A row of rewards that is written, read block by block.
ghost use Rattle.std.specs.Prelude.{◌≡◌, ◌+◌, ◌<◌, pos, get_or, length, true, ℕ, MatchOption};
ghost use Rattle.std.specs.List.{list_all};
ghost use Rattle.std.specs.Option.{ForSome};
ghost use Rattle.polcert_cells.specs.Elements.{most_elements};
ghost use Rattle.polcert_cells.specs.Meaning.{IsCount, states_of, actions_of};
ghost use Rattle.polcert_tables.specs.Contents.{meaning};
ghost use Rattle.polcert_format.specs.FullForm.{all_below, is_zero};
ghost use Rattle.polcert_full_form.specs.Steps.Printing.{IsFilled, IsPaidFrom};

use polcert_cells::Cells;
use polcert_tables::Model;

/// The rewards of an end state by observation, or, in an MDP, those of all end states.
#[derive(Drop)]
pub(crate) struct WrittenRewards<'a> {
    pub model: &'a Model,
    pub action: usize,
    pub start: usize,
    pub end: Option<usize>,
    ghost at_action: { action < actions_of (meaning model.now) },
    ghost at_start: { start < states_of (meaning model.now) },
    ghost at_end: { ForSome end (λ e. e < states_of (meaning model.now)) },
}

impl WrittenRewards<'_> {
    ghost use Rattle.polcert_full_form.specs.Steps.PrintedRows.{row_width, row_rewards};

    /// Returns how many columns the row has.
    pub(crate) fn columns(&self) -> usize
        ensures columns { result ≡ row_width self.now }
        ensures count { IsCount most_elements result }
    {
        match self.end {
            Some(_) => self.model.observations(),
            None => self.model.states(),
        }
    }

    /// Fills in the rewards from column `first` on, in millionths: as many as there is room for, or as there
    /// are.
    pub(crate) fn fill(&self, first: usize, block: &mut [i64])
        ensures { IsFilled (row_rewards self.now) (row_width self.now) first block.new }
    {
        match self.end {
            Some(end) => self
                .model
                .fill_rewards(self.action, self.start, end, first, block),
            None => self.fill_ends(first, block),
        }
    }

    /// Fills the block for an MDP, one end state after the other.
    fn fill_ends(&self, first: usize, block: &mut [i64])
        ensures { (i : ℕ) → i < length block.old → first + i < states_of (meaning self.now.model.now) →
            get_or block.new i (pos 0) ≡ (meaning self.now.model.now).r self.now.action self.now.start
            (first + i) 0 }
    {
        let left = self.model.states().saturating_sub(first);
        for i in 0..left.min(block.len()) {
            block[i] = self.model.r(self.action, self.start, first + i, 0);
        }
    }

    /// Returns the place of the first block with a non-zero reward, if there is one, and fills the block with
    /// it.
    pub(crate) fn first_paid(&self, block: &mut [i64]) -> Option<usize>
        requires room { 0 < length block.old }
        ensures paid { MatchOption result
            (all_below (row_width self.now) (λ c. is_zero (row_rewards self.now c)) ≡ true)
            (IsPaidFrom (row_rewards self.now) (row_width self.now)) }
        ensures filled { ForSome result
            (λ first. IsFilled (row_rewards self.now) (row_width self.now) first block.new) }
    {
        let columns = self.columns();
        let mut first = 0;
        while first < columns {
            self.fill(first, block);
            let size = (columns - first).min(block.len());
            if !are_zero(&block[..size]) {
                return Some(first);
            }
            first += size;
        }
        None
    }
}

/// Tests whether all rewards are 0.
fn are_zero(rewards: &[i64]) -> bool
    ensures { result ≡ list_all is_zero rewards.now }
{
    rewards.iter().all(|reward| *reward == 0)
}
