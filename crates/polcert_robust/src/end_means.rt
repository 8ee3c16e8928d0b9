//! The least means at end states, which a node's start states share.
ghost use Rattle.std.specs.Prelude.{◌≡◌, ◌<◌, ◌≤◌, ℕ, IsFalse, IsTrue, false, length, slice_index_or};
ghost use Rattle.polcert_cells.specs.declared.elements.TheConstants.{MOST_STATES};
ghost use Rattle.polcert_robust.specs.Steps.Rewards.{HasSameRewards};

use polcert_cells::{Cells, MOST_STATES};

/// The least mean of what a step to an end state is worth.
#[derive(Clone, Copy)]
pub(crate) struct EndMean {
    pub mean: i128,
    /// Whether the mean is the same for each start state.
    pub is_kept: bool,
    /// The least observation that has no successor.
    pub missing: Option<usize>,
}

/// The least means at end states. A node's start states share those that are kept.
#[derive(Drop)]
pub(crate) struct EndMeans {
    pub means: [i128; MOST_STATES],
    /// Whether the mean there is the same for each start state.
    pub are_kept: [bool; MOST_STATES],
    /// Whether all start states have the same rewards: the means that are kept are then with them, or else without.
    pub have_rewards: bool,
    ghost room_for_means: { length means ≡ MOST_STATES },
    ghost room_for_marks: { length are_kept ≡ MOST_STATES },
}

impl EndMeans {
    ghost use Rattle.std.specs.Prelude.{ℕ, false, true, slice_index_or};
    ghost use Rattle.polcert_robust.specs.Steps.EndMeans.{IsNotedAt};

    pub(crate) fn new() -> Self {
        EndMeans {
            means: [0; MOST_STATES],
            are_kept: [false; MOST_STATES],
            have_rewards: false,
        }
    }

    /// Forgets the means that are kept, before those of a node. `have_rewards`: whether all start states have the same rewards.
    pub(crate) fn reset(&mut self, states: usize, have_rewards: bool)
        requires { states ≤ MOST_STATES }
        ensures none { (e : ℕ) → e < states → slice_index_or self.new.are_kept e false ≡ false }
        ensures rewards { self.new.have_rewards ≡ have_rewards }
    {
        clear_marks(&mut self.are_kept, states);
        self.have_rewards = have_rewards;
    }

    /// Returns whether the mean at end state `e` is kept, and includes the rewards: then nothing is to be computed there.
    pub(crate) fn is_full(&self, e: usize) -> bool
        requires { e < MOST_STATES }
        ensures kept { IsTrue result → slice_index_or self.now.are_kept e false ≡ true }
        ensures rewards { IsTrue result → self.now.have_rewards ≡ true }
    {
        if self.have_rewards {
            self.are_kept[e]
        } else {
            false
        }
    }

    /// Returns whether the mean at end state `e` is kept, but without the rewards: then that of the start state is to be added.
    pub(crate) fn lacks_reward(&self, e: usize) -> bool
        requires { e < MOST_STATES }
        ensures kept { IsTrue result → slice_index_or self.now.are_kept e false ≡ true }
        ensures rewards { IsTrue result → self.now.have_rewards ≡ false }
        ensures found { IsFalse result → self.now.have_rewards ≡ false
            → slice_index_or self.now.are_kept e false ≡ false }
    {
        if self.have_rewards {
            false
        } else {
            self.are_kept[e]
        }
    }

    /// Notes the mean at end state `e`, and whether other start states may use it.
    pub(crate) fn note(&mut self, e: usize, end: EndMean)
        requires { e < MOST_STATES }
        ensures { IsNotedAt e end self.old self.new }
    {
        self.means[e] = end.mean;
        self.are_kept[e] = end.is_kept;
    }
}

/// Takes the first marks away.
fn clear_marks(marks: &mut [bool], count: usize)
    requires { count ≤ length marks.old }
    ensures { (e : ℕ) → e < count → slice_index_or marks.new e false ≡ false }
{
    for e in 0..count {
        marks[e] = false;
    }
}

/// Returns whether action `a` is known to have the same rewards in all start states.
pub(crate) fn have_same_rewards<C: Cells>(cells: &C, a: usize) -> bool
    requires { a < (C.table cells.now).actions }
    ensures { IsTrue result → HasSameRewards (C.table cells.now) a }
{
    for s in 1..cells.states() {
        if !cells.has_same_rewards(a, s, 0) {
            return false;
        }
    }
    true
}
