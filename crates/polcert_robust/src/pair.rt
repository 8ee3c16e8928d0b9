//! A node and a start state, and what backs the node's value there in the worst case.
ghost use Rattle.std.specs.Prelude.{◌≡◌, ◌+◌, ◌*◌, ◌<◌, ◌≤◌, ℕ, ℤ, pos, ◌+ℤ◌, ◌-ℤ◌, ◌*ℤ◌, ◌<ℤ◌, ◌≤ℤ◌, length, unsigned_abs, IsFalse, IsTrue, None, Some, true};
ghost use Rattle.std.specs.Option.{ForSome};
ghost use Rattle.polcert_text.specs.Numbers.{largest};
ghost use Rattle.polcert_cells.specs.CommonRewards.{AreEndRewards};
ghost use Rattle.polcert_check.specs.Horizon.{one};
ghost use Rattle.polcert_check.specs.Steps.Factored.{IsLeastOf, IsMinOption, IsMissedAt, Misses};
ghost use Rattle.polcert_check.specs.Steps.Values.{IsMissedBefore};
ghost use Rattle.polcert_robust.specs.Worst.{least_step_worth};
ghost use Rattle.polcert_robust.specs.Steps.EndMeans.{AreKept, AreReady, IsChangedAt, IsReadyAt, IsReadyMean, reward_part};
ghost use Rattle.polcert_robust.specs.Steps.Holding.{HoldsRow};
ghost use Rattle.polcert_robust.specs.Steps.Pairs.{IsEndMean, IsRobustPair, IsWorstBacking, cells_of, most_part, most_scales, most_worth, near_controller, near_table};
ghost use Rattle.polcert_robust.specs.Steps.Rewards.{HasSameRewards, IsConstantReward, IsKnownReward};
ghost use Rattle.polcert_robust.specs.Steps.Sides.{turned};

use crate::buffers::PairBuffers;
use crate::end_means::{EndMean, EndMeans};
use crate::known_rewards::{known_reward_of, reward_among};
use crate::level::{WorthRow, least_mean, weigh_number};
use crate::robust_input::RobustInput;
use polcert_cells::{Cells, CommonReward, RewardCell};
use polcert_check::Verdict;
use polcert_check::one_step::{next_end, next_observation};

/// The largest of what a step is worth, in millionths of millionths.
const MOST_WORTH: u128 = 21_000_000_000_000_000_000;

/// A node of the graph, and a state in which it acts.
#[derive(Drop)]
pub(crate) struct Pair<'a, C: Cells> {
    pub input: &'a RobustInput<'a, C>,
    pub n: usize,
    pub s: usize,
    /// The reward of every step, if it is known at once that it is the same for every end state and observation. (It is not asked for if it
    /// is the same for every start state too.)
    pub constant: Option<i64>,
    /// The reward of every end state that is not listed, whatever is observed, if it is known.
    pub common: Option<CommonReward>,
    pub listed: &'a [RewardCell],
    ghost node: { n < (near_controller input.now).nodes },
    ghost start: { s < (near_table input.now).states },
    ghost constant_everywhere: { ForSome constant (IsConstantReward (cells_of input.now)
        ((near_controller input.now).action n) s) },
    ghost listed_ends: { ForSome common (λ found. AreEndRewards (cells_of input.now)
        ((near_controller input.now).action n) s found listed.now) },
}

/// A least mean, and the least observation in it that has no successor.
#[derive(Clone, Copy)]
pub(crate) struct LeastMean {
    pub mean: i128,
    pub missing: Option<usize>,
}

/// How many weights above 0 of a row were gathered, and the least observation among them that has no successor.
#[derive(Clone, Copy)]
pub(crate) struct Gathered {
    pub count: usize,
    pub missing: Option<usize>,
}

/// Returns the lesser of two observations, the one that is there, or `None` if neither is.
fn min_missing(x: Option<usize>, y: Option<usize>) -> Option<usize>
    ensures { IsMinOption x y result }
{
    match (x, y) {
        (None, _) => y,
        (Some(_), None) => x,
        (Some(a), Some(b)) => if a <= b { x } else { y },
    }
}

/// Returns the least reward of a model near the text's, whose reward lies within this distance.
fn least_reward(reward: i64, by: u64) -> i128
    requires reward { unsigned_abs reward ≤ largest }
    requires by { by ≤ 1_000_000_000_000 }
    ensures is { result ≡ reward -ℤ pos by }
    ensures small { unsigned_abs result ≤ 11_000_000_000_000 }
{
    reward as i128 - by as i128
}

/// Returns what a step is worth at least, where this is its reward in the text and the value after it, turned to one side.
fn worth_of(reward: i64, by: u64, discount: u32, value: i64) -> i128
    requires reward { unsigned_abs reward ≤ largest }
    requires by { by ≤ 1_000_000_000_000 }
    requires discount { discount ≤ 1_000_000 }
    requires value { unsigned_abs value ≤ largest }
    ensures is { result ≡ pos one *ℤ (reward -ℤ pos by) +ℤ pos discount *ℤ value }
    ensures small { unsigned_abs result ≤ most_worth }
{
    let least = least_reward(reward, by);
    let earned = weigh_number(1_000_000, least);
    let later = weigh_number(discount as u64, value as i128);
    earned + later
}

/// An end state of a pair, and the reward there if it is known not to depend on the observation.
#[derive(Drop)]
struct PairEnd<'a, C: Cells> {
    pair: &'a Pair<'a, C>,
    e: usize,
    known: Option<i64>,
    ghost end: { e < (cells_of pair.now.input.now).states },
    ghost reward: { ForSome known (IsKnownReward (cells_of pair.now.input.now)
        ((near_controller pair.now.input.now).action pair.now.n) pair.now.s e) },
}

/// Returns the reward of a step of the pair to the end state with observation `z`.
fn end_reward<C: Cells>(end: &PairEnd<'_, C>, z: usize) -> i64
    requires observation { z < (cells_of end.now.pair.now.input.now).observations }
    ensures is { result ≡ (cells_of end.now.pair.now.input.now).r
        ((near_controller end.now.pair.now.input.now).action end.now.pair.now.n)
        end.now.pair.now.s end.now.e z }
    ensures small { unsigned_abs result ≤ largest }
{
    if let Some(reward) = end.known {
        return reward;
    }
    let a = end.pair.input.graph.action(end.pair.n);
    end.pair.input.cells.r(a, end.pair.s, end.e, z)
}

/// Returns what a step of the pair to the end state with observation `z` is worth at least.
fn worth_at<C: Cells>(end: &PairEnd<'_, C>, z: usize) -> LeastMean
    requires observation { z < (cells_of end.now.pair.now.input.now).observations }
    ensures is { result.mean ≡ least_step_worth (near_table end.now.pair.now.input.now)
        (near_controller end.now.pair.now.input.now) end.now.pair.now.n end.now.pair.now.s end.now.e z }
    ensures small { unsigned_abs result.mean ≤ most_worth }
    ensures missing { IsMissedAt (near_controller end.now.pair.now.input.now) end.now.pair.now.n z
        result.missing }
{
    let input = end.pair.input;
    let Some(next) = input.graph.next(end.pair.n, z) else {
        return LeastMean {
            mean: 0,
            missing: Some(z),
        };
    };
    let reward = input.side.turned(end_reward(end, z));
    let value = input.side.turned(input.vectors.at(next, end.e));
    LeastMean {
        mean: worth_of(reward, input.distance.r_by, input.cells.discount(), value),
        missing: None,
    }
}

/// Gathers the row of O at the end state: its weights above 0, and what a step with each observation is worth at least.
fn gather_observations<C: Cells>(
    end: &PairEnd<'_, C>,
    weights: &mut [u64],
    values: &mut [i128],
) -> Gathered
    requires weights { (cells_of end.now.pair.now.input.now).observations ≤ length weights.old }
    requires values { (cells_of end.now.pair.now.input.now).observations ≤ length values.old }
    ensures held { HoldsRow (λ z v. v ≡ least_step_worth (near_table end.now.pair.now.input.now)
        (near_controller end.now.pair.now.input.now) end.now.pair.now.n end.now.pair.now.s end.now.e z)
        ((cells_of end.now.pair.now.input.now).o
        ((near_controller end.now.pair.now.input.now).action end.now.pair.now.n) end.now.e)
        (cells_of end.now.pair.now.input.now).observations most_worth weights.new values.new result.count }
    ensures missing { IsLeastOf (Misses (near_controller end.now.pair.now.input.now) end.now.pair.now.n
        end.now.e (cells_of end.now.pair.now.input.now).observations) result.missing }
{
    let cells = end.pair.input.cells;
    let a = end.pair.input.graph.action(end.pair.n);
    let row = cells.o_row(a, end.e);
    let mut count = 0;
    let mut missing: Option<usize> = None;
    let mut at = 0;
    while let Some(observation) = next_observation(cells, a, end.e, row, at) {
        let part = worth_at(end, observation.column);
        weights[count] = observation.weight;
        values[count] = part.mean;
        count += 1;
        missing = min_missing(missing, part.missing);
        at = observation.next;
    }
    Gathered { count, missing }
}

/// Returns the least mean of what a step to the end state is worth, over the rows near that of O, times the scale of O.
fn end_mean<C: Cells>(end: &PairEnd<'_, C>, weights: &mut [u64], values: &mut [i128]) -> LeastMean
    requires weights { (cells_of end.now.pair.now.input.now).observations ≤ length weights.old }
    requires values { (cells_of end.now.pair.now.input.now).observations ≤ length values.old }
    ensures is { IsEndMean (near_table end.now.pair.now.input.now)
        (near_controller end.now.pair.now.input.now) end.now.pair.now.n end.now.pair.now.s end.now.e
        result.mean }
    ensures small { unsigned_abs result.mean ≤ (cells_of end.now.pair.now.input.now).o_scale * most_worth }
    ensures missing { IsLeastOf (Misses (near_controller end.now.pair.now.input.now) end.now.pair.now.n
        end.now.e (cells_of end.now.pair.now.input.now).observations) result.missing }
{
    let gathered = gather_observations(end, weights, values);
    let input = end.pair.input;
    let row = WorthRow {
        weights,
        values,
        count: gathered.count,
        by: input.distance.o_by,
        scale: input.cells.o_scale(),
        bound: MOST_WORTH,
    };
    LeastMean {
        mean: least_mean(&row),
        missing: gathered.missing,
    }
}

/// Returns the reward of a step of the pair to end state `e` from what the pair has noted: the same for every observation. `None`: unknown.
fn pair_reward<C: Cells>(pair: &Pair<'_, C>, e: usize) -> Option<i64>
    requires end { e < (cells_of pair.now.input.now).states }
    ensures { ForSome result (IsKnownReward (cells_of pair.now.input.now)
        ((near_controller pair.now.input.now).action pair.now.n) pair.now.s e) }
{
    if pair.constant.is_some() {
        return pair.constant;
    }
    match pair.common {
        Some(common) => Some(reward_among(common, pair.listed, e)),
        None => None,
    }
}

/// Returns the reward of a step of the pair to end state `e`, from the pair or from the model, if it is known at once that it does not
/// depend on the observation. `None`: unknown.
fn known_reward<C: Cells>(pair: &Pair<'_, C>, e: usize) -> Option<i64>
    requires end { e < (cells_of pair.now.input.now).states }
    ensures { ForSome result (IsKnownReward (cells_of pair.now.input.now)
        ((near_controller pair.now.input.now).action pair.now.n) pair.now.s e) }
{
    let reward = pair_reward(pair, e);
    if reward.is_some() {
        return reward;
    }
    let a = pair.input.graph.action(pair.n);
    known_reward_of(pair.input.cells, a, pair.s, e)
}

/// Returns what a reward that does not depend on the observation adds to the least mean at an end state.
fn reward_part<C: Cells>(pair: &Pair<'_, C>, reward: i64) -> i128
    requires reward { unsigned_abs reward ≤ largest }
    ensures is { result ≡ reward_part (near_table pair.now.input.now)
        (turned pair.now.input.now.side reward -ℤ pos pair.now.input.now.distance.r_by) }
    ensures small { unsigned_abs result ≤ most_part }
{
    let input = pair.input;
    let least = least_reward(input.side.turned(reward), input.distance.r_by);
    let earned = weigh_number(1_000_000, least);
    weigh_number(input.cells.o_scale(), earned)
}

/// Returns the least mean that was found in the form in which the node's other start states may use it: without its reward, unless all have
/// the same rewards (`have_rewards`). It is not kept if the reward depends on the observation.
fn kept_mean<C: Cells>(end: &PairEnd<'_, C>, have_rewards: bool, found: LeastMean) -> EndMean
    requires same { have_rewards ≡ true → HasSameRewards (cells_of end.now.pair.now.input.now)
        ((near_controller end.now.pair.now.input.now).action end.now.pair.now.n) }
    requires found { IsEndMean (near_table end.now.pair.now.input.now)
        (near_controller end.now.pair.now.input.now)
        end.now.pair.now.n end.now.pair.now.s end.now.e found.mean }
    requires small { unsigned_abs found.mean ≤ (cells_of end.now.pair.now.input.now).o_scale * most_worth }
    requires missing { IsLeastOf (Misses (near_controller end.now.pair.now.input.now) end.now.pair.now.n
        end.now.e (cells_of end.now.pair.now.input.now).observations) found.missing }
    ensures ready { IsReadyMean (near_table end.now.pair.now.input.now)
        (near_controller end.now.pair.now.input.now)
        end.now.pair.now.n end.now.pair.now.s end.now.e result.mean result.is_kept have_rewards }
    ensures missing { result.missing ≡ found.missing }
{
    if found.missing.is_some() {
        return EndMean {
            mean: found.mean,
            is_kept: false,
            missing: found.missing,
        };
    }
    if have_rewards {
        return EndMean {
            mean: found.mean,
            is_kept: true,
            missing: found.missing,
        };
    }
    if end.known.is_none() {
        return EndMean {
            mean: found.mean,
            is_kept: false,
            missing: found.missing,
        };
    }
    EndMean {
        mean: found.mean - reward_part(end.pair, end_reward(end, 0)),
        is_kept: true,
        missing: found.missing,
    }
}

/// Returns whether a kept mean without reward can be used at this start state: its reward is known.
fn is_usable(lacks_reward: bool, known: Option<i64>) -> bool
    ensures lacks { IsTrue result → lacks_reward ≡ true }
    ensures known { IsTrue result → (h : ℤ) × (known ≡ Some h) }
{
    match known {
        Some(_) => lacks_reward,
        None => false,
    }
}

/// Finds the least mean at end state `e`, unless it is kept. Returns the least observation there that has no successor.
fn find_end_mean<C: Cells>(pair: &Pair<'_, C>, e: usize, buffers: &mut PairBuffers) -> Option<usize>
    requires end { e < (cells_of pair.now.input.now).states }
    requires kept { AreKept (near_table pair.now.input.now) (near_controller pair.now.input.now)
        pair.now.n buffers.old.ends }
    ensures kept { AreKept (near_table pair.now.input.now) (near_controller pair.now.input.now)
        pair.now.n buffers.new.ends }
    ensures ready { IsReadyAt (near_table pair.now.input.now) (near_controller pair.now.input.now)
        pair.now.n pair.now.s e buffers.new.ends }
    ensures others { IsChangedAt e buffers.old.ends buffers.new.ends }
    ensures missing { IsLeastOf (Misses (near_controller pair.now.input.now) pair.now.n e
        (cells_of pair.now.input.now).observations) result }
{
    if buffers.ends.is_full(e) {
        return None;
    }
    let known = known_reward(pair, e);
    if is_usable(buffers.ends.lacks_reward(e), known) {
        return None;
    }
    let end = PairEnd { pair, e, known };
    let found = end_mean(&end, &mut buffers.weights, &mut buffers.values);
    let part = kept_mean(&end, buffers.ends.have_rewards, found);
    buffers.ends.note(e, part);
    part.missing
}

/// Finds the least means at the end states that the pair reaches. Returns the least observation there that has no successor.
fn find_end_means<C: Cells>(pair: &Pair<'_, C>, buffers: &mut PairBuffers) -> Option<usize>
    requires kept { AreKept (near_table pair.now.input.now) (near_controller pair.now.input.now)
        pair.now.n buffers.old.ends }
    ensures kept { AreKept (near_table pair.now.input.now) (near_controller pair.now.input.now)
        pair.now.n buffers.new.ends }
    ensures ready { AreReady (near_table pair.now.input.now) (near_controller pair.now.input.now)
        pair.now.n pair.now.s (cells_of pair.now.input.now).states buffers.new.ends }
    ensures missing { IsLeastOf (IsMissedBefore (near_controller pair.now.input.now) pair.now.n pair.now.s
        (cells_of pair.now.input.now).states) result }
{
    let cells = pair.input.cells;
    let a = pair.input.graph.action(pair.n);
    let row = cells.t_row(a, pair.s);
    let mut missing: Option<usize> = None;
    let mut at = 0;
    while let Some(end) = next_end(cells, a, pair.s, row, at) {
        let lacking = find_end_mean(pair, end.column, buffers);
        missing = min_missing(missing, lacking);
        at = end.next;
    }
    missing
}

/// Returns the least mean of what a step to end state `e` is worth: the kept one, with its reward added if it lacks that.
fn mean_at<C: Cells>(pair: &Pair<'_, C>, ends: &EndMeans, e: usize) -> i128
    requires end { e < (cells_of pair.now.input.now).states }
    requires ready { IsReadyAt (near_table pair.now.input.now) (near_controller pair.now.input.now)
        pair.now.n pair.now.s e ends.now }
    ensures is { IsEndMean (near_table pair.now.input.now) (near_controller pair.now.input.now)
        pair.now.n pair.now.s e result }
    ensures small { unsigned_abs result ≤ (cells_of pair.now.input.now).o_scale * most_worth }
{
    let mean = ends.means[e];
    if !ends.lacks_reward(e) {
        return mean;
    }
    let known = pair_reward(pair, e);
    let end = PairEnd { pair, e, known };
    mean + reward_part(pair, end_reward(&end, 0))
}

/// Gathers the row of T: its weights above 0, and the least mean of what a step to each end state is worth. Returns how many they are.
fn gather_ends<C: Cells>(
    pair: &Pair<'_, C>,
    ends: &EndMeans,
    weights: &mut [u64],
    values: &mut [i128],
) -> usize
    requires ready { AreReady (near_table pair.now.input.now) (near_controller pair.now.input.now)
        pair.now.n pair.now.s (cells_of pair.now.input.now).states ends.now }
    requires weights { (cells_of pair.now.input.now).states ≤ length weights.old }
    requires values { (cells_of pair.now.input.now).states ≤ length values.old }
    ensures held { HoldsRow (IsEndMean (near_table pair.now.input.now) (near_controller pair.now.input.now)
        pair.now.n pair.now.s)
        ((cells_of pair.now.input.now).t ((near_controller pair.now.input.now).action pair.now.n) pair.now.s)
        (cells_of pair.now.input.now).states ((cells_of pair.now.input.now).o_scale * most_worth)
        weights.new values.new result }
{
    let cells = pair.input.cells;
    let a = pair.input.graph.action(pair.n);
    let row = cells.t_row(a, pair.s);
    let mut count = 0;
    let mut at = 0;
    while let Some(end) = next_end(cells, a, pair.s, row, at) {
        weights[count] = end.weight;
        values[count] = mean_at(pair, ends, end.column);
        count += 1;
        at = end.next;
    }
    count
}

/// Returns what backs the value of the pair in the worst case: the least mean over the rows near that of T, times both scales.
fn worst_backing<C: Cells>(pair: &Pair<'_, C>, buffers: &mut PairBuffers) -> LeastMean
    requires kept { AreKept (near_table pair.now.input.now) (near_controller pair.now.input.now)
        pair.now.n buffers.old.ends }
    ensures is { IsWorstBacking (near_table pair.now.input.now) (near_controller pair.now.input.now)
        pair.now.n pair.now.s result.mean }
    ensures small { unsigned_abs result.mean ≤ (cells_of pair.now.input.now).t_scale
        * ((cells_of pair.now.input.now).o_scale * most_worth) }
    ensures missing { IsLeastOf (IsMissedBefore (near_controller pair.now.input.now) pair.now.n pair.now.s
        (cells_of pair.now.input.now).states) result.missing }
    ensures kept { AreKept (near_table pair.now.input.now) (near_controller pair.now.input.now)
        pair.now.n buffers.new.ends }
{
    let missing = find_end_means(pair, buffers);
    let count = gather_ends(
        pair,
        &buffers.ends,
        &mut buffers.weights,
        &mut buffers.values,
    );
    let cells = pair.input.cells;
    let row = WorthRow {
        weights: &buffers.weights,
        values: &buffers.values,
        count,
        by: pair.input.distance.t_by,
        scale: cells.t_scale(),
        bound: cells.o_scale() as u128 * MOST_WORTH,
    };
    LeastMean {
        mean: least_mean(&row),
        missing,
    }
}

/// Returns a value on the scale of the weights of one step times 1,000,000.
fn value_at_scale(step_scale: u64, value: i64) -> i128
    requires scale { step_scale ≤ most_scales }
    requires value { unsigned_abs value ≤ largest }
    ensures is { result ≡ pos (step_scale * one) *ℤ value }
    ensures small { unsigned_abs result ≤ most_scales * 1_000_000 * largest }
{
    let at_scale = weigh_number(step_scale, value as i128);
    weigh_number(1_000_000, at_scale)
}

/// Returns how far a value is above what backs it in the worst case.
fn amount_above(step_scale: u64, value: i64, backing: i128) -> i128
    requires scale { step_scale ≤ most_scales }
    requires value { unsigned_abs value ≤ largest }
    requires backing { unsigned_abs backing ≤ most_scales * most_worth }
    ensures { result ≡ pos (step_scale * one) *ℤ value -ℤ backing }
{
    value_at_scale(step_scale, value) - backing
}

/// Returns whether an amount is above 0.
fn is_shortfall(amount: i128) -> bool
    ensures above { IsTrue result → pos 0 <ℤ amount }
    ensures not_above { IsFalse result → amount ≤ℤ pos 0 }
{
    amount > 0
}

/// Returns the verdict on a pair, from what backs its value in the worst case.
fn verdict_of_backing<C: Cells>(pair: &Pair<'_, C>, backing: LeastMean) -> Verdict
    requires is { IsWorstBacking (near_table pair.now.input.now) (near_controller pair.now.input.now)
        pair.now.n pair.now.s backing.mean }
    requires small { unsigned_abs backing.mean ≤ (cells_of pair.now.input.now).t_scale
        * ((cells_of pair.now.input.now).o_scale * most_worth) }
    requires missing { IsLeastOf (IsMissedBefore (near_controller pair.now.input.now) pair.now.n pair.now.s
        (cells_of pair.now.input.now).states) backing.missing }
    ensures { IsRobustPair (near_table pair.now.input.now) (near_controller pair.now.input.now)
        pair.now.n pair.now.s result }
{
    if let Some(observation) = backing.missing {
        return Verdict::NoSuccessor {
            node: pair.n,
            state: pair.s,
            observation,
        };
    }
    let input = pair.input;
    let step_scale = input.cells.t_scale() * input.cells.o_scale();
    let value = input.side.turned(input.vectors.at(pair.n, pair.s));
    let amount = amount_above(step_scale, value, backing.mean);
    if is_shortfall(amount) {
        return Verdict::Short {
            node: pair.n,
            state: pair.s,
            amount,
        };
    }
    Verdict::Yes
}

/// Returns whether the pair passes in every model near the text's, or why not.
pub(crate) fn robust_pair_verdict<C: Cells>(
    pair: &Pair<'_, C>,
    buffers: &mut PairBuffers,
) -> Verdict
    requires kept { AreKept (near_table pair.now.input.now) (near_controller pair.now.input.now)
        pair.now.n buffers.old.ends }
    ensures verdict { IsRobustPair (near_table pair.now.input.now) (near_controller pair.now.input.now)
        pair.now.n pair.now.s result }
    ensures kept { AreKept (near_table pair.now.input.now) (near_controller pair.now.input.now)
        pair.now.n buffers.new.ends }
{
    let backing = worst_backing(pair, buffers);
    verdict_of_backing(pair, backing)
}
