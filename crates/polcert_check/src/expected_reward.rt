//! The reward that an action expects at a state, shared by start states that no reward tells apart.
ghost use Rattle.std.specs.Prelude.{◌≡◌, ℕ, ◌*◌, ◌^◌, ◌<◌, ◌≤◌, ℤ, pos, ◌*ℤ◌, unsigned_abs, length};
ghost use Rattle.std.specs.Prelude.{IsTrue, slice_index_or};
ghost use Rattle.polcert_check.specs.Steps.Exceptions.{AreExcepted, AreListedBut, AreBefore, row_weight};
ghost use Rattle.polcert_check.specs.Steps.Exceptions.{weighed_total};
ghost use Rattle.polcert_check.specs.Steps.Ranges.{most_sum};
ghost use Rattle.polcert_check.specs.Steps.Factored.{reward_at_end, factored_reward, AreKnown, AreAtEnds, IsEndRun};
ghost use Rattle.polcert_cells.specs.declared.elements.TheConstants.{MOST_STATES, MOST_OBSERVATIONS};
ghost use Rattle.polcert_cells.specs.CommonRewards.{cell_at, AreEndRewards, AreOrdered, IsCommonReward, IsRewardRow};
ghost use Rattle.std.specs.Option.{ForSome};

use crate::end_values::{next_end, next_observation};
use crate::even_rows::{sum_of_even, total_of, wide};
use crate::survey::Progress;
use polcert_cells::{
    BaseRewards, Cells, CommonReward, MOST_OBSERVATIONS, MOST_STATES, RewardCell, RewardRow, Row,
};

/// Reading the rewards of this many observations together takes about as long as asking for one.
const READ_PER_QUERY: usize = 64;

/// Returns a weight times a number.
pub fn weigh(weight: u64, number: i128) -> i128
    requires weight { weight < 2 ^ 63 }
    requires product { weight * unsigned_abs number ≤ most_sum }
    ensures { result ≡ pos weight *ℤ number }
{
    // (With a sign, since the product of two signed numbers of 64 bits is one multiplication.)
    let signed = weight as i64;
    (signed as i128) * number
}

/// Tests whether reading the rewards of all observations together is faster than asking for each one that has a weight at end state `e`.
fn has_many_observations<C: Cells>(cells: &C, a: usize, e: usize) -> bool
    requires action { a < (C.table cells.now).actions }
    requires end { e < (C.table cells.now).states }
{
    match cells.o_row(a, e) {
        Some(Row::Sparse(row)) => row.len() > cells.observations() / READ_PER_QUERY,
        Some(Row::Single(_)) => false,
        Some(Row::Filled(_) | Row::Scaled { .. } | Row::Even { .. }) | None => true,
    }
}

/// Returns the weighted sum of the rewards at end state `e`, where `reward_of` gives the reward of an observation.
#[inline(always)]
pub(crate) fn sum_over_observations<C: Cells, F: Fn(usize) -> i64>(
    cells: &C,
    a: usize,
    s: usize,
    e: usize,
    reward_of: F,
) -> i128
    requires action { a < (C.table cells.now).actions }
    requires start { s < (C.table cells.now).states }
    requires end { e < (C.table cells.now).states }
    requires callable { (z : ℕ) → z < (C.table cells.now).observations → F.pre reward_of z }
    requires reward { (z : ℕ) (h : _) → z < (C.table cells.now).observations
        → F.post reward_of z h → h ≡ (C.table cells.now).r a s e z }
    ensures { result ≡ reward_at_end (C.table cells.now) a s e }
{
    let mut sum: i128 = 0;
    let row = cells.o_row(a, e);
    let mut at = 0;
    while let Some(observation) = next_observation(cells, a, e, row, at) {
        let reward = reward_of(observation.column);
        sum += weigh(observation.weight, reward as i128);
        at = observation.next;
    }
    sum
}

/// Returns what `sum_over_observations` does, with the rewards read all together or asked for one by one, whichever is faster.
fn sum_rewards<C: Cells>(cells: &C, a: usize, s: usize, e: usize, buffer: &mut RewardBuffer) -> i128
    requires action { a < (C.table cells.now).actions }
    requires start { s < (C.table cells.now).states }
    requires end { e < (C.table cells.now).states }
    ensures { result ≡ reward_at_end (C.table cells.now) a s e }
{
    if has_many_observations(cells, a, e) {
        buffer.reward_at_end(cells, a, s, e)
    } else {
        sum_over_observations(cells, a, s, e, |z| cells.r(a, s, e, z))
    }
}

/// Returns the sum of weighted rewards, which most have in common: `weight_of` gives the weight of a number, and all weights sum to `scale`.
fn sum_excepted<F: Fn(usize) -> u64>(
    scale: u64,
    common: CommonReward,
    exceptions: &[RewardCell],
    weight_of: F,
) -> i128
    requires callable { (k : ℕ) → k < common.exceptions
        → F.pre weight_of (cell_at exceptions.now k).observation }
    requires rewards { (w : ℕ → ℕ) × (r : ℕ → ℤ) × (count : ℕ) × (b : ℕ)
        × AreExcepted (F.post weight_of) scale common exceptions.now w r count b }
    ensures { (w : ℕ → ℕ) (r : ℕ → ℤ) (count b : ℕ)
        → AreExcepted (F.post weight_of) scale common exceptions.now w r count b
        → result ≡ weighed_total w r count }
{
    let shared = weigh(scale, common.reward as i128);
    let mut sum = shared;
    for i in 0..common.exceptions {
        let cell = exceptions[i];
        let weight = weight_of(cell.observation);
        let difference = cell.reward as i128 - common.reward as i128;
        let part = weigh(weight, difference);
        sum += part;
    }
    sum
}

/// Returns the reward at end state `e`, of which these are the rewards of all observations.
fn sum_filled<C: Cells>(cells: &C, a: usize, s: usize, e: usize, rewards: &[i64]) -> i128
    requires action { a < (C.table cells.now).actions }
    requires start { s < (C.table cells.now).states }
    requires end { e < (C.table cells.now).states }
    requires room { (C.table cells.now).observations ≤ length rewards.now }
    requires rewards { (z : ℕ) → z < (C.table cells.now).observations →
        slice_index_or rewards.now z (pos 0) ≡ (C.table cells.now).r a s e z }
    ensures { result ≡ reward_at_end (C.table cells.now) a s e }
{
    match cells.o_row(a, e) {
        Some(
            Row::Even {
                weight,
                exceptions,
                ..
            },
        ) => sum_of_even(
            weight,
            exceptions,
            rewards,
            wide(total_of(rewards, cells.observations())),
        ),
        _ => sum_over_observations(cells, a, s, e, |z| rewards[z]),
    }
}

/// Fills in the rewards of a list, except those of its exceptions, which are given.
fn fill_listed(list: &[i64], count: usize, exceptions: &[RewardCell], rewards: &mut [i64])
    requires room { length list.now ≤ length rewards.old }
    requires exceptions { count ≤ length exceptions.now }
    requires within { (k : ℕ) → k < count → (cell_at exceptions.now k).observation < length list.now }
    ensures { (r : ℕ → ℤ) → AreListedBut list.now r count exceptions.now →
        (z : ℕ) → z < length list.now → slice_index_or rewards.new z (pos 0) ≡ r z }
{
    rewards[..list.len()].copy_from_slice(list);
    for k in 0..count {
        let cell = exceptions[k];
        rewards[cell.observation] = cell.reward;
    }
}

/// Returns the reward that action `a` expects at state `s`, summed over its end states: the general way, called if neither `sum_row` nor
/// `sum_ends` finds it.
fn sum_over_ends<C: Cells>(cells: &C, a: usize, s: usize, buffer: &mut RewardBuffer) -> i128
    requires action { a < (C.table cells.now).actions }
    requires start { s < (C.table cells.now).states }
    ensures { result ≡ factored_reward (C.table cells.now) a s }
{
    let mut sum: i128 = 0;
    let mut run = None;
    let row = cells.t_row(a, s);
    let mut at = 0;
    while let Some(end) = next_end(cells, a, s, row, at) {
        let here = buffer.run_at(cells, a, s, end.column, run);
        sum += weigh(end.weight, here.reward);
        run = Some(here);
        at = end.next;
    }
    sum
}

/// Returns the weight of the end state and the observation of this number, after action `a` in state `s`, on the scale of one step.
fn row_weight<C: Cells>(cells: &C, a: usize, s: usize, k: usize) -> u64
    requires action { a < (C.table cells.now).actions }
    requires start { s < (C.table cells.now).states }
    requires number { k < (C.table cells.now).states * (C.table cells.now).observations }
    ensures { result ≡ row_weight (C.table cells.now) a s k }
{
    let observations = cells.observations();
    let e = k / observations;
    cells.t(a, s, e) * cells.o(a, e, k % observations)
}

/// Returns how long the row of T at action `a` and state `s` is as it is kept: no fewer than its end states.
fn count_ends<C: Cells>(cells: &C, a: usize, s: usize) -> usize
    requires action { a < (C.table cells.now).actions }
    requires start { s < (C.table cells.now).states }
{
    match cells.t_row(a, s) {
        Some(Row::Sparse(row)) => row.len(),
        Some(Row::Filled(weights)) => weights.len(),
        Some(Row::Scaled { numbers, .. }) => numbers.len(),
        Some(Row::Single(_)) => 1,
        Some(Row::Even { columns, .. }) => columns,
        None => cells.states(),
    }
}

/// Returns the reward that action `a` expects at state `s`. `None`: too many end states and observations have another reward than the
/// common one, or it is not known at once.
fn sum_row<C: Cells>(cells: &C, a: usize, s: usize, exceptions: &mut [RewardCell]) -> Option<i128>
    requires action { a < (C.table cells.now).actions }
    requires start { s < (C.table cells.now).states }
    ensures { ForSome result (λ sum. sum ≡ factored_reward (C.table cells.now) a s) }
{
    let most = exceptions
        .len()
        .min(count_ends(cells, a, s).saturating_mul(EXCEPTIONS_PER_END));
    let few = &mut exceptions[..most];
    let common = cells.find_row_rewards(a, s, few)?;
    // (If all differ, the common one may be any number.)
    if common.reward.unsigned_abs() > LARGEST {
        return None;
    }
    let scale = cells.t_scale() * cells.o_scale();
    Some(sum_excepted(scale, common, few, |k| row_weight(cells, a, s, k)))
}

/// Returns what `sum_row` does, if the rewards of most end states are the same whatever is observed. `None`: too many differ, or they are
/// not known at once.
fn sum_ends<C: Cells>(cells: &C, a: usize, s: usize, exceptions: &mut [RewardCell]) -> Option<i128>
    requires action { a < (C.table cells.now).actions }
    requires start { s < (C.table cells.now).states }
    ensures { ForSome result (λ sum. sum ≡ factored_reward (C.table cells.now) a s) }
{
    let most = exceptions
        .len()
        .min(count_ends(cells, a, s).saturating_mul(EXCEPTIONS_PER_END));
    let few = &mut exceptions[..most];
    let common = cells.find_end_rewards(a, s, few)?;
    Some(sum_listed(cells, a, s, common, few))
}

/// Returns the reward that action `a` expects at state `s`, by the end states whose rewards differ from the common one.
fn sum_listed<C: Cells>(
    cells: &C,
    a: usize,
    s: usize,
    common: CommonReward,
    listed: &[RewardCell],
) -> i128
    requires action { a < (C.table cells.now).actions }
    requires start { s < (C.table cells.now).states }
    requires rewards { AreEndRewards (C.table cells.now) a s common listed.now }
    ensures { result ≡ factored_reward (C.table cells.now) a s }
{
    let scale = cells.o_scale();
    let mut sum: i128 = 0;
    let mut next = 0;
    let row = cells.t_row(a, s);
    let mut at = 0;
    while let Some(end) = next_end(cells, a, s, row, at) {
        next = skip_listed(common, listed, next, end.column);
        let reward = listed_reward(common, listed, next, end.column);
        let at_end = weigh(scale, reward as i128);
        sum += weigh(end.weight, at_end);
        at = end.next;
    }
    sum
}

/// Returns the place of the first listed end state from place `from` on that is not before end state `e`.
#[inline(always)]
fn skip_listed(common: CommonReward, listed: &[RewardCell], from: usize, e: usize) -> usize
    requires room { common.exceptions ≤ length listed.now }
    requires before { AreBefore listed.now from e }
    requires from { from ≤ common.exceptions }
    ensures before { AreBefore listed.now result e }
    ensures within { result ≤ common.exceptions }
    ensures reached { result < common.exceptions → e ≤ (cell_at listed.now result).observation }
{
    let mut place = from;
    while place < common.exceptions && listed[place].observation < e {
        place += 1;
    }
    place
}

/// Returns the reward at end state `e`: that of the listed one at this place, if it is that end state, or the common one.
#[inline(always)]
fn listed_reward(common: CommonReward, listed: &[RewardCell], place: usize, e: usize) -> i64
    requires room { common.exceptions ≤ length listed.now }
    requires before { AreBefore listed.now place e }
    requires reached { place < common.exceptions → e ≤ (cell_at listed.now place).observation }
    ensures { (r : ℕ → ℤ) (count : ℕ) → e < count → IsCommonReward r count common listed.now
        → AreOrdered common listed.now → result ≡ r e }
{
    if place < common.exceptions && listed[place].observation == e {
        listed[place].reward
    } else {
        common.reward
    }
}

/// Returns the reward that action `a` expects at state `s`, on the scale of the weights of one step.
pub fn expected_reward<C: Cells>(cells: &C, a: usize, s: usize, buffer: &mut RewardBuffer) -> i128
    requires action { a < (C.table cells.now).actions }
    requires start { s < (C.table cells.now).states }
    ensures { result ≡ factored_reward (C.table cells.now) a s }
{
    match sum_ends(cells, a, s, &mut buffer.exceptions) {
        Some(sum) => sum,
        None => match sum_row(cells, a, s, &mut buffer.exceptions) {
            Some(sum) => sum,
            None => sum_over_ends(cells, a, s, buffer),
        },
    }
}

/// The reward that an action expects at each state.
#[derive(Drop)]
pub(crate) struct Earnings {
    pub rewards: [i128; MOST_STATES],
    buffer: RewardBuffer,
    ghost room: { length rewards ≡ MOST_STATES },
}

impl Earnings {
    pub(crate) fn new() -> Self {
        Earnings {
            rewards: [0; MOST_STATES],
            buffer: RewardBuffer::new(),
        }
    }

    /// Forgets the rewards of the action before, and computes those of action `a` at the states that are known to have the same rewards
    /// (see `first_shared`). `at_ends` is a buffer for what these states share. Other states follow in `reward_at`.
    pub(crate) fn begin<C: Cells>(&mut self, cells: &C, a: usize, at_ends: &mut [i128])
        requires action { a < (C.table cells.now).actions }
        requires room { MOST_STATES ≤ length at_ends.old }
        ensures { AreKnown (factored_reward (C.table cells.now) a) (C.table cells.now).states
            self.new.rewards }
    {
        clear_numbers(&mut self.rewards, cells.states());
        if let Some(first) = first_shared(cells, a) {
            self.share(cells, a, first, at_ends);
        }
    }

    /// Computes the reward that action `a` expects at state `first`, and at those after it that are known to have the same rewards.
    fn share<C: Cells>(&mut self, cells: &C, a: usize, first: usize, at_ends: &mut [i128])
        requires action { a < (C.table cells.now).actions }
        requires first { first < (C.table cells.now).states }
        requires room { MOST_STATES ≤ length at_ends.old }
        requires known { AreKnown (factored_reward (C.table cells.now) a) (C.table cells.now).states
            self.old.rewards }
        ensures { AreKnown (factored_reward (C.table cells.now) a) (C.table cells.now).states
            self.new.rewards }
    {
        clear_numbers(at_ends, cells.states());
        for s in first..cells.states() {
            if cells.has_same_rewards(a, s, first) {
                find_at_ends(cells, a, s, &mut self.buffer, at_ends);
                self.rewards[s] = sum_at_ends(cells, a, s, at_ends);
            }
        }
    }

    /// Returns the reward that action `a` expects at state `s`, computed on first use, of which `progress` is notified.
    pub(crate) fn reward_at<C: Cells, W: Progress>(
        &mut self,
        cells: &C,
        a: usize,
        s: usize,
        progress: &mut W,
    ) -> i128
        requires action { a < (C.table cells.now).actions }
        requires start { s < (C.table cells.now).states }
        requires known { AreKnown (factored_reward (C.table cells.now) a) (C.table cells.now).states
            self.old.rewards }
        ensures reward { result ≡ factored_reward (C.table cells.now) a s }
        ensures known { AreKnown (factored_reward (C.table cells.now) a) (C.table cells.now).states
            self.new.rewards }
    {
        if self.rewards[s] == UNKNOWN {
            self.rewards[s] = expected_reward(cells, a, s, &mut self.buffer);
            progress.states_done(s + 1, cells.states());
        }
        self.rewards[s]
    }
}

/// The most exceptions of the reward that all end states of a start state have in common.
const MOST_IN_ROW: usize = 1_024;

/// And the most for each of its end states: adding them up takes about as long as asking for the rewards at one.
const EXCEPTIONS_PER_END: usize = 8;

/// No reward is larger, in millionths.
const LARGEST: u64 = 10_000_000_000_000;

/// The reward that an action expects at end state `end`, and that the end states before `until` have the same rewards.
#[derive(Clone, Copy)]
pub(crate) struct EndRun {
    pub end: usize,
    pub until: usize,
    pub reward: i128,
    /// Whether all observations have the same reward.
    pub is_constant: bool,
}

impl EndRun {
    /// Tests whether it is known at once that the action expects the same reward at end state `e`. `false`: unknown.
    fn reaches<C: Cells>(&self, cells: &C, a: usize, e: usize) -> bool
        requires action { a < (C.table cells.now).actions }
        requires end { e < (C.table cells.now).states }
        requires first { self.now.end < (C.table cells.now).states }
        ensures { IsTrue result → (s : ℕ) → s < (C.table cells.now).states →
            IsEndRun (C.table cells.now) a s self.now →
            self.now.reward ≡ reward_at_end (C.table cells.now) a s e }
    {
        let EndRun {
            end,
            until,
            is_constant,
            ..
        } = *self;
        if e < end {
            return false;
        }
        if e >= until {
            return false;
        }
        if is_constant {
            return true;
        }
        cells.has_same_observations(a, e, end)
    }
}

/// Buffers for the rewards of all observations, given an action, a start state and an end state.
#[derive(Drop)]
pub struct RewardBuffer {
    rewards: [i64; MOST_OBSERVATIONS],
    exceptions: [RewardCell; MOST_IN_ROW],
    ghost room: { length rewards ≡ MOST_OBSERVATIONS },
}

impl RewardBuffer {
    pub fn new() -> Self {
        RewardBuffer {
            rewards: [0; MOST_OBSERVATIONS],
            exceptions: [RewardCell {
                observation: 0,
                reward: 0,
            }; MOST_IN_ROW],
        }
    }

    /// Returns the reward that action `a` expects at start state `s` and end state `e` (without the weight of reaching `e`), and for which
    /// end states after it that holds too: `last`, the answer for the end state before, if it reaches `e`, else a new one.
    fn run_at<C: Cells>(
        &mut self,
        cells: &C,
        a: usize,
        s: usize,
        e: usize,
        last: Option<EndRun>,
    ) -> EndRun
        requires action { a < (C.table cells.now).actions }
        requires start { s < (C.table cells.now).states }
        requires end { e < (C.table cells.now).states }
        requires last { ForSome last (IsEndRun (C.table cells.now) a s) }
        ensures here { result.reward ≡ reward_at_end (C.table cells.now) a s e }
        ensures run { IsEndRun (C.table cells.now) a s result }
    {
        if let Some(run) = last {
            if run.reaches(cells, a, e) {
                return run;
            }
        }
        self.run_from(cells, a, s, e)
    }

    /// Returns the reward that action `a` expects at start state `s` and end state `e`, and for which end states after it that holds too,
    /// computed anew: called by `run_at` if the last answer doesn't reach `e`.
    fn run_from<C: Cells>(&mut self, cells: &C, a: usize, s: usize, e: usize) -> EndRun
        requires action { a < (C.table cells.now).actions }
        requires start { s < (C.table cells.now).states }
        requires end { e < (C.table cells.now).states }
        ensures here { result.reward ≡ reward_at_end (C.table cells.now) a s e }
        ensures run { IsEndRun (C.table cells.now) a s result }
    {
        match cells.find_rewards(a, s, e, &mut self.exceptions) {
            Some(row) => EndRun {
                end: e,
                until: row.until,
                reward: self.sum_of_row(cells, a, s, e, row),
                is_constant: row.constant().is_some(),
            },
            None => EndRun {
                end: e,
                until: cells.same_rewards_until(a, s, e),
                reward: sum_rewards(cells, a, s, e, self),
                is_constant: false,
            },
        }
    }

    /// Returns the reward that action `a` expects at start state `s` and end state `e`, by what `find_rewards` has found there.
    fn sum_of_row<C: Cells>(
        &mut self,
        cells: &C,
        a: usize,
        s: usize,
        e: usize,
        row: RewardRow<'_>,
    ) -> i128
        requires action { a < (C.table cells.now).actions }
        requires start { s < (C.table cells.now).states }
        requires end { e < (C.table cells.now).states }
        requires row { IsRewardRow ((C.table cells.now).r a s e) (C.table cells.now).observations row
            self.old.exceptions }
        ensures { result ≡ reward_at_end (C.table cells.now) a s e }
    {
        match row.base {
            BaseRewards::Common(reward) => {
                let common = CommonReward {
                    reward,
                    exceptions: row.exceptions,
                };
                sum_excepted(
                    cells.o_scale(),
                    common,
                    &self.exceptions,
                    |z| cells.o(a, e, z),
                )
            }
            BaseRewards::Listed(list) => {
                fill_listed(list, row.exceptions, &self.exceptions, &mut self.rewards);
                sum_filled(cells, a, s, e, &self.rewards)
            }
        }
    }

    /// Returns the weighted sum of the rewards at end state `e`, which are read all at once.
    pub(crate) fn reward_at_end<C: Cells>(
        &mut self,
        cells: &C,
        a: usize,
        s: usize,
        e: usize,
    ) -> i128
        requires action { a < (C.table cells.now).actions }
        requires start { s < (C.table cells.now).states }
        requires end { e < (C.table cells.now).states }
        ensures { result ≡ reward_at_end (C.table cells.now) a s e }
    {
        cells.fill_rewards(a, s, e, 0, &mut self.rewards);
        sum_filled(cells, a, s, e, &self.rewards)
    }
}

/// Stands for a number that is not computed yet.
pub(crate) const UNKNOWN: i128 = i128::MIN;

/// Marks the first `count` numbers as not computed yet.
pub(crate) fn clear_numbers(numbers: &mut [i128], count: usize)
    requires { count ≤ length numbers.old }
    ensures { (i : ℕ) → i < count → slice_index_or numbers.new i (pos 0) ≡ UNKNOWN }
{
    for i in 0..count {
        numbers[i] = UNKNOWN;
    }
}

/// Tests whether it is known at once that all rewards of action `a` in state `s` are the same, so that they are summed at once. `false`:
/// unknown.
fn is_constant<C: Cells>(cells: &C, a: usize, s: usize) -> bool
    requires action { a < (C.table cells.now).actions }
    requires start { s < (C.table cells.now).states }
{
    if cells.find_row_rewards(a, s, &mut []).is_some() {
        return true;
    }
    cells.find_end_rewards(a, s, &mut []).is_some()
}

/// Returns the first state whose rewards other states may be known to share, so that `share` pays. `None`: there is none, or all its
/// rewards are the same, which are summed at once.
pub(crate) fn first_shared<C: Cells>(cells: &C, a: usize) -> Option<usize>
    requires action { a < (C.table cells.now).actions }
    ensures { ForSome result (λ s. s < (C.table cells.now).states) }
{
    for s in 0..cells.states() {
        if cells.has_same_rewards(a, s, s) {
            return if is_constant(cells, a, s) {
                None
            } else {
                Some(s)
            };
        }
    }
    None
}

/// Computes the rewards that action `a` expects at the end states that it reaches from state `s`, those that `at_ends` doesn't have yet.
pub(crate) fn find_at_ends<C: Cells>(
    cells: &C,
    a: usize,
    s: usize,
    buffer: &mut RewardBuffer,
    at_ends: &mut [i128],
)
    requires action { a < (C.table cells.now).actions }
    requires start { s < (C.table cells.now).states }
    requires room { (C.table cells.now).states ≤ length at_ends.old }
    requires known { AreKnown (reward_at_end (C.table cells.now) a s) (C.table cells.now).states at_ends.old }
    ensures known { AreKnown (reward_at_end (C.table cells.now) a s) (C.table cells.now).states at_ends.new }
    ensures found { AreAtEnds (C.table cells.now) a s at_ends.new }
{
    let mut run = None;
    let row = cells.t_row(a, s);
    let mut at = 0;
    while let Some(end) = next_end(cells, a, s, row, at) {
        let e = end.column;
        if at_ends[e] == UNKNOWN {
            let here = buffer.run_at(cells, a, s, e, run);
            at_ends[e] = here.reward;
            run = Some(here);
        }
        at = end.next;
    }
}

/// Returns the reward at an end state that is reached from state `s`, which `find_at_ends` has computed.
fn at_end<C: Cells>(cells: &C, a: usize, s: usize, e: usize, at_ends: &[i128]) -> i128
    requires end { e < (C.table cells.now).states }
    requires follows { 0 < (C.table cells.now).t a s e }
    requires room { (C.table cells.now).states ≤ length at_ends.now }
    requires found { AreAtEnds (C.table cells.now) a s at_ends.now }
    ensures { result ≡ reward_at_end (C.table cells.now) a s e }
{
    at_ends[e]
}

/// Returns the reward that action `a` expects at state `s`: the sum over its end states of their weight times their reward in `at_ends`.
pub(crate) fn sum_at_ends<C: Cells>(cells: &C, a: usize, s: usize, at_ends: &[i128]) -> i128
    requires action { a < (C.table cells.now).actions }
    requires start { s < (C.table cells.now).states }
    requires room { (C.table cells.now).states ≤ length at_ends.now }
    requires found { AreAtEnds (C.table cells.now) a s at_ends.now }
    ensures { result ≡ factored_reward (C.table cells.now) a s }
{
    let mut sum: i128 = 0;
    let row = cells.t_row(a, s);
    let mut at = 0;
    while let Some(end) = next_end(cells, a, s, row, at) {
        sum += weigh(end.weight, at_end(cells, a, s, end.column, at_ends));
        at = end.next;
    }
    sum
}
