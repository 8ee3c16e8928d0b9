//! What is known at once of the rewards of an action: which are the same for several end states, observations or start states.
ghost use Rattle.std.specs.Prelude.{◌≡◌, ◌<◌, ◌≤◌, ℕ, ℤ, length, true};
ghost use Rattle.std.specs.Option.{ForSome};
ghost use Rattle.polcert_cells.specs.CommonRewards.{AreEndRewards, IsCommonReward};
ghost use Rattle.polcert_cells.specs.declared.elements.TheConstants.{MOST_ACTIONS};
ghost use Rattle.polcert_robust.specs.declared.known_rewards.TheConstants.{ROOM};
ghost use Rattle.polcert_robust.specs.Steps.Rewards.{IsConstantReward, IsKnownReward};

use crate::end_means::have_same_rewards;
use polcert_cells::{Cells, CommonReward, MOST_ACTIONS, RewardCell};

/// How many pairs of an action and a start state have room for what is known of their rewards: those of the first actions.
const ROOM: usize = 10_000;

/// The most end states that are listed because their rewards differ from the common one.
pub(crate) const MOST_LISTED: usize = 64;

/// What is known of the rewards of actions, whatever the node: found on first use, and kept as far as there is room.
#[derive(Drop)]
pub(crate) struct KnownRewards {
    /// By action and start state, the reward if it is known to be the same for every end state and observation.
    constants: [i64; ROOM],
    /// By action and start state, whether it is.
    are_constant: [bool; ROOM],
    /// By action and start state, whether that was asked.
    are_rewards_asked: [bool; ROOM],
    /// By action, whether all start states are known to have the same rewards.
    are_same: [bool; MOST_ACTIONS],
    /// By action, whether that was asked.
    are_same_asked: [bool; MOST_ACTIONS],
    ghost room: { length constants ≡ ROOM },
    ghost room_for_marks: { length are_constant ≡ ROOM },
    ghost room_for_reward_questions: { length are_rewards_asked ≡ ROOM },
    ghost room_for_actions: { length are_same ≡ MOST_ACTIONS },
    ghost room_for_questions: { length are_same_asked ≡ MOST_ACTIONS },
}

impl KnownRewards {
    ghost use Rattle.std.specs.Prelude.{◌<◌, IsTrue};
    ghost use Rattle.std.specs.Option.{ForSome};
    ghost use Rattle.polcert_cells.specs.Tables.{CellTable};
    ghost use Rattle.polcert_robust.specs.Steps.KnownRewards.{AreKnownRewards};
    ghost use Rattle.polcert_robust.specs.Steps.Rewards.{HasSameRewards, IsConstantReward};

    pub(crate) fn new() -> Self
        ensures { (m : CellTable) → AreKnownRewards m result }
    {
        KnownRewards {
            constants: [0; ROOM],
            are_constant: [false; ROOM],
            are_rewards_asked: [false; ROOM],
            are_same: [false; MOST_ACTIONS],
            are_same_asked: [false; MOST_ACTIONS],
        }
    }

    /// Returns whether all start states are known at once to have the same rewards of action `a`.
    pub(crate) fn have_same_rewards<C: Cells>(&mut self, cells: &C, a: usize) -> bool
        requires action { a < (C.table cells.now).actions }
        requires kept { AreKnownRewards (C.table cells.now) self.old }
        ensures kept { AreKnownRewards (C.table cells.now) self.new }
        ensures same { IsTrue result → HasSameRewards (C.table cells.now) a }
    {
        if self.are_same_asked[a] {
            return self.are_same[a];
        }
        let are_same = have_same_rewards(cells, a);
        self.are_same_asked[a] = true;
        self.are_same[a] = are_same;
        are_same
    }

    /// Returns the reward of action `a` in state `s`, if it is known at once that it is the same for every end state and observation.
    /// `have_rewards`: whether all start states have the same rewards; then none is looked for.
    pub(crate) fn constant_reward<C: Cells>(
        &mut self,
        cells: &C,
        a: usize,
        s: usize,
        have_rewards: bool,
    ) -> Option<i64>
        requires action { a < (C.table cells.now).actions }
        requires start { s < (C.table cells.now).states }
        requires kept { AreKnownRewards (C.table cells.now) self.old }
        ensures kept { AreKnownRewards (C.table cells.now) self.new }
        ensures constant { ForSome result (IsConstantReward (C.table cells.now) a s) }
    {
        if have_rewards {
            return None;
        }
        let place = a * cells.states() + s;
        if place >= ROOM {
            return constant_reward_of(cells, a, s);
        }
        if self.are_rewards_asked[place] {
            return reward_of(self.are_constant[place], self.constants[place]);
        }
        let reward = constant_reward_of(cells, a, s);
        self.are_rewards_asked[place] = true;
        self.are_constant[place] = reward.is_some();
        self.constants[place] = number_of(reward);
        reward
    }
}

/// Returns the reward that all end states but those listed have when action `a` is taken in state `s`, if it is known at once. None is
/// looked for if all start states have the same rewards, or if `constant` is the reward.
// (Six parameters: an action and a state, what is known of their rewards, and room.)
pub(crate) fn list_end_rewards<C: Cells>(
    cells: &C,
    a: usize,
    s: usize,
    have_rewards: bool,
    constant: Option<i64>,
    listed: &mut [RewardCell],
) -> Option<CommonReward>
    requires action { a < (C.table cells.now).actions }
    requires start { s < (C.table cells.now).states }
    ensures { ForSome result (λ common. AreEndRewards (C.table cells.now) a s common listed.new) }
{
    if have_rewards {
        return None;
    }
    if constant.is_some() {
        return None;
    }
    cells.find_end_rewards(a, s, listed)
}

/// Returns the reward at end state `e`: that of the listed one, or the common one.
pub(crate) fn reward_among(common: CommonReward, listed: &[RewardCell], e: usize) -> i64
    requires room { common.exceptions ≤ length listed.now }
    ensures { (r : ℕ → ℤ) (count : ℕ) → e < count → IsCommonReward r count common listed.now → r e ≡ result }
{
    for k in 0..common.exceptions {
        if listed[k].observation == e {
            return listed[k].reward;
        }
    }
    common.reward
}

/// Returns the number as a reward, if it is noted as constant. `None`: unknown.
fn reward_of(is_constant: bool, number: i64) -> Option<i64>
    ensures { ForSome result (λ reward. (is_constant ≡ true) × (reward ≡ number)) }
{
    if is_constant { Some(number) } else { None }
}

/// Returns the reward as a number to keep: any number if there is none.
fn number_of(reward: Option<i64>) -> i64
    ensures { ForSome reward (λ number. result ≡ number) }
{
    match reward {
        Some(number) => number,
        None => 0,
    }
}

/// Returns the reward of action `a` in state `s`, if it is known at once that it is the same for every end state and observation.
fn constant_reward_of<C: Cells>(cells: &C, a: usize, s: usize) -> Option<i64>
    requires action { a < (C.table cells.now).actions }
    requires start { s < (C.table cells.now).states }
    ensures { ForSome result (IsConstantReward (C.table cells.now) a s) }
{
    match cells.find_row_rewards(a, s, &mut []) {
        Some(common) => Some(common.reward),
        None => match cells.find_end_rewards(a, s, &mut []) {
            Some(common) => Some(common.reward),
            None => None,
        },
    }
}

/// Returns the reward of action `a` in state `s` with end state `e`, if it is known at once that it is the same for every observation.
pub(crate) fn known_reward_of<C: Cells>(cells: &C, a: usize, s: usize, e: usize) -> Option<i64>
    requires action { a < (C.table cells.now).actions }
    requires start { s < (C.table cells.now).states }
    requires end { e < (C.table cells.now).states }
    ensures { ForSome result (IsKnownReward (C.table cells.now) a s e) }
{
    match cells.find_rewards(a, s, e, &mut []) {
        Some(row) => row.constant(),
        None => None,
    }
}
