//! How often a point can be taken out of a belief, and what is left of it.
ghost use Rattle.std.specs.Prelude.{◌≡◌, ◌⊎◌, ◌-◌, ◌*◌, ◌<◌, ◌≤◌, ℕ, length, slice_index};
ghost use Rattle.std.specs.Prelude.{slice_index_or, unsigned_abs, pos, ◌+◌, ◌+ℤ◌, ◌*ℤ◌, ◌^◌};
ghost use Rattle.polcert_cells.specs.Meaning.{sum_below};
ghost use Rattle.polcert_check.specs.Horizon.{total_below};
ghost use Rattle.polcert_points.specs.PointCheck.{IsMostTimes};
ghost use Rattle.polcert_points.specs.Steps.PointSums.{IsStepWithin, IsWithinRow};

use crate::belief_points::{BeliefPoints, next_state};
use polcert_cells::{Row, Step};

/// Returns `times`, or how often the weight fits into what a state has, if that is less.
fn fewer_times(times: u128, weight: u64, has: u128) -> u128
    requires times { times ≤ 5 * 10 ^ 24 }
    requires weight { weight ≤ 1000000 }
    requires some { 0 < weight }
    ensures fits { result * weight ≤ has }
    ensures fewer { result ≤ times }
    ensures most { (result ≡ times) ⊎ (has < (result + 1) * weight) }
{
    // (A division takes longer than a product.)
    if times * weight as u128 <= has {
        times
    } else {
        has / weight as u128
    }
}

/// Returns how often point `j` can be taken out of a belief.
pub fn most_times<P: BeliefPoints>(points: &P, j: usize, belief: &[u128]) -> u128
    requires point { j < (P.table points.now).points.count }
    requires states { length belief.now ≡ (P.table points.now).states }
    requires few { sum_below (slice_index belief.now) (P.table points.now).states ≤ 5 * 10 ^ 24 }
    ensures { IsMostTimes (P.table points.now).states (slice_index belief.now)
        ((P.table points.now).points.belief j) result }
{
    let point = points.weights(j);
    // (No weight of the belief is greater.)
    let mut times: u128 = 5_000_000_000_000_000_000_000_000;
    let mut at = 0;
    while let Some(state) = next_state(points, j, point, at) {
        times = fewer_times(times, state.weight, belief[state.column]);
        at = state.next;
    }
    times
}

/// Takes point `j` this many times out of a belief.
pub fn take_out<P: BeliefPoints>(points: &P, j: usize, times: u128, belief: &mut [u128])
    requires point { j < (P.table points.now).points.count }
    requires states { length belief.old ≡ (P.table points.now).states }
    requires fits { (s : ℕ) → s < (P.table points.now).states →
        times * (P.table points.now).points.belief j s ≤ slice_index belief.old s }
    ensures { (s : ℕ) → s < (P.table points.now).states →
        slice_index belief.new s ≡ slice_index belief.old s - times * (P.table points.now).points.belief j s }
{
    let point = points.weights(j);
    let mut at = 0;
    while let Some(state) = next_state(points, j, point, at) {
        belief[state.column] -= times * state.weight as u128;
        at = state.next;
    }
}

/// Returns the next state that a row names, from a place in it on. A belief within the row has no weight at the states between.
#[inline(always)]
fn next_within(_belief: &[u128], row: Row<'_>, at: usize) -> Option<Step>
    requires { IsWithinRow (length _belief.now) (slice_index _belief.now) row }
    ensures { IsStepWithin (length _belief.now) (slice_index _belief.now) row.entry at result }
{
    row.step(at)
}

/// Returns the sum over the states of the weight times the charge. The row names the states where the belief has weight. Charges are in
/// millionths.
pub fn charged(belief: &[u128], ends: Row<'_>, charges: &[i64]) -> i128
    requires same_length { length charges.now ≡ length belief.now }
    requires ends { IsWithinRow (length belief.now) (slice_index belief.now) ends }
    requires small { (s : ℕ) → s < length belief.now →
        unsigned_abs (slice_index_or charges.now s (pos 0)) ≤ 10 ^ 13 }
    requires few { sum_below (slice_index belief.now) (length belief.now) ≤ 5 * 10 ^ 24 }
    ensures { result ≡ total_below
        (λ s. pos (slice_index belief.now s) *ℤ slice_index_or charges.now s (pos 0)) (length belief.now) }
{
    let mut sum: i128 = 0;
    let mut at = 0;
    while let Some(end) = next_within(belief, ends, at) {
        let s = end.column;
        sum += belief[s] as i128 * charges[s] as i128;
        at = end.next;
    }
    sum
}

/// Returns what a belief is worth with one next action: a point of this mass and value, taken out `times` times, and what is left of it, at
/// the charges and at the states that the row names. No belief weighs more than the bound of `whole` says.
// (Six parameters: the point that is taken out, and what is left.)
pub fn covered(
    times: u128,
    mass: u64,
    value: i64,
    left: &[u128],
    ends: Row<'_>,
    charges: &[i64],
) -> i128
    requires same_length { length charges.now ≡ length left.now }
    requires ends { IsWithinRow (length left.now) (slice_index left.now) ends }
    requires small { (s : ℕ) → s < length left.now →
        unsigned_abs (slice_index_or charges.now s (pos 0)) ≤ 10 ^ 13 }
    requires value { unsigned_abs value ≤ 10 ^ 13 }
    requires whole { times * mass + sum_below (slice_index left.now) (length left.now) ≤ 5 * 10 ^ 24 }
    ensures value { result ≡ pos (times * mass) *ℤ value +ℤ total_below
        (λ s. pos (slice_index left.now s) *ℤ slice_index_or charges.now s (pos 0)) (length left.now) }
    ensures small { unsigned_abs result ≤ 5 * 10 ^ 37 }
{
    let weight = times * mass as u128;
    let rest = charged(left, ends, charges);
    weight as i128 * value as i128 + rest
}
