//! The bodies of entries of R, in one list of numbers.
ghost use Rattle.std.specs.Prelude.{◌≡◌, ◌<◌, ◌≤◌, ◌+◌, ◌++◌, ℕ, All, length, map, get_or, drop, pos, IfOk, OnOk, slice_get};
ghost use Rattle.std.specs.Prelude.{slice_index_or};
ghost use Rattle.std.specs.Option.{ForSome};
ghost use Rattle.polcert_cells.specs.Elements.{most_states, most_elements};
ghost use Rattle.polcert_rules.specs.Keys.{key_base};
ghost use Rattle.polcert_rules.specs.Steps.Rewards.{worth, AreBodiesOf};
ghost use Rattle.polcert_rules.specs.RewardAt.{cell_in};

use polcert_cells::{Entries, EntryBodies, RewardBody};
use std::alloc::{AllocError, Global};

/// The bodies of all entries, by their numbers, and the numbers of all bodies of R.
#[derive(Drop)]
pub(crate) struct RewardBodies {
    pub bodies: EntryBodies,
    pub numbers: Vec<i64>,
}

impl RewardBodies {
    /// Returns the bodies of these entries, which are given up: their numbers stay where they are.
    pub(crate) fn of(
        alloc: Global,
        costs: bool,
        entries: Entries,
    ) -> Result<RewardBodies, AllocError>
        ensures { IfOk result (λ kept. AreBodiesOf costs entries kept.numbers.items kept.bodies) }
    {
        let (bodies, written) = entries.into_rewards();
        let numbers = signed_rewards(alloc, costs, written)?;
        Ok(RewardBodies { bodies, numbers })
    }

    /// Returns the body of the entry of this number.
    pub(crate) fn find(&self, number: usize) -> Option<RewardBody>
        ensures { result ≡ slice_get self.now.bodies number }
    {
        self.bodies.find(number)
    }

    /// Returns the number of this cell of a body.
    pub(crate) fn number_at(&self, body: RewardBody, cell: usize) -> i64
        ensures { result ≡ get_or self.now.numbers.items (body.start + cell) (pos 0) }
    {
        match body.start.checked_add(cell) {
            Some(place) => self.numbers.get(place).copied().unwrap_or(0),
            None => 0,
        }
    }

    /// Returns this many numbers of a body, from a cell on. `None`: there are fewer numbers.
    pub(crate) fn numbers_from(&self, body: RewardBody, cell: usize, count: usize) -> Option<&[i64]>
        ensures size { ForSome result (λ list. length list.now ≡ count) }
        ensures numbers { ForSome result (λ list. (z : ℕ) → z < count →
            slice_index_or list.now z (pos 0)
            ≡ get_or self.now.numbers.items (body.start + (cell + z)) (pos 0)) }
    {
        let first = body.start.checked_add(cell)?;
        let end = first.checked_add(count)?;
        if self.numbers.len() < end {
            return None;
        }
        Some(&self.numbers.as_slice()[first..end])
    }
}

/// Returns the rewards that these written numbers stand for: minus the numbers if they are costs.
fn signed_rewards(alloc: Global, costs: bool, written: Vec<i64>) -> Result<Vec<i64>, AllocError>
    ensures { IfOk result (λ numbers. numbers.items ≡ map (worth costs) written.items) }
{
    if !costs {
        return Ok(written);
    }
    let mut numbers = Vec::with_capacity(alloc, written.len())?;
    add_numbers(&mut numbers, costs, written.as_slice())?;
    Ok(numbers)
}

/// Puts the rewards that these written numbers stand for after the others: minus the numbers if they are costs.
fn add_numbers(numbers: &mut Vec<i64>, costs: bool, written: &[i64]) -> Result<(), AllocError>
    ensures { OnOk result (numbers.new.items ≡ numbers.old.items ++ map (worth costs) written.now) }
{
    for h in written {
        numbers.push(reward_of(costs, *h))?;
    }
    Ok(())
}

/// Returns the reward of a number that is written as a reward, or as a cost. (No number that a text may have
/// is so large that its opposite would wrap.)
fn reward_of(costs: bool, h: i64) -> i64
    ensures { result ≡ worth costs h }
{
    if costs { h.wrapping_neg() } else { h }
}

/// Returns the number of a cell in a body, by the indices that are left for it, in a table with this many rows
/// and columns.
pub(crate) fn cell_in(rows: usize, columns: usize, left: &[usize]) -> usize
    requires rows { rows ≤ most_states }
    requires columns { columns ≤ most_elements }
    requires small { All (λ i. i < key_base) left.now }
    ensures { result ≡ cell_in rows columns left.now }
{
    match left {
        [matrix, row, column] => (*matrix * rows + *row) * columns + *column,
        [row, column] => *row * columns + *column,
        [column] => *column,
        _ => 0,
    }
}

/// Returns the indices after this many places.
pub(crate) fn indices_after(places: usize, indices: &[usize]) -> &[usize]
    ensures { result.now ≡ drop places indices.now }
{
    &indices[places.min(indices.len())..]
}
