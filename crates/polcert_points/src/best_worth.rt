//! What a belief is worth at most, with the best next action.
ghost use Rattle.std.specs.Prelude.{◌≡◌, ◌<◌, ◌≤◌, ◌*◌, ◌^◌, ℕ, None, Some, length, pos, slice_index, unsigned_abs};
ghost use Rattle.polcert_text.specs.Numbers.{largest};
ghost use Rattle.polcert_cells.specs.Meaning.{sum_below};
ghost use Rattle.polcert_optimum.specs.Informed.{greatest_below};
ghost use Rattle.polcert_points.specs.Points.{Cover, best_worth};
ghost use Rattle.polcert_points.specs.PointCheck.{IsCoverBy};
ghost use Rattle.polcert_points.specs.PointTable.{charge_at};
ghost use Rattle.polcert_points.specs.Steps.PointSums.{IsTaken, IsWithinRow, left_worth};

use crate::belief_points::{BeliefPoints, next_state};
use crate::checked_points::CheckedPoints;
use crate::cover::{covered, most_times, take_out};
use polcert_cells::{Cells, Row};

/// The point that is taken out of a belief, if one is, how often, and its mass.
#[derive(Clone, Copy)]
pub(crate) struct Taken {
    pub point: Option<usize>,
    pub times: u128,
    pub mass: u64,
}

/// Returns the sum of the weights of point `i`.
pub fn mass_of<P: BeliefPoints>(points: &P, i: usize) -> u64
    requires { i < (P.table points.now).points.count }
    ensures { result ≡ sum_below ((P.table points.now).points.belief i) (P.table points.now).states }
{
    let point = points.weights(i);
    let mut sum: u64 = 0;
    let mut at = 0;
    while let Some(state) = next_state(points, i, point, at) {
        sum += state.weight;
        at = state.next;
    }
    sum
}

/// Returns the value of an action at the point that is taken, or 0 if none is.
fn taken_value<P: BeliefPoints>(points: &P, point: Option<usize>, action: usize) -> i64
    requires point { (j : ℕ) → point ≡ Some j → j < (P.table points.now).points.count }
    requires action { action < (P.table points.now).actions }
    ensures value { (j : ℕ) → point ≡ Some j → result ≡ (P.table points.now).points.value j action }
    ensures none { point ≡ None → result ≡ pos 0 }
    ensures small { unsigned_abs result ≤ largest }
{
    match point {
        Some(j) => points.value(j, action),
        None => 0,
    }
}

/// Returns what a belief is worth with one next action: the part in `taken` at the value of its point, the rest in `left` at the charges.
/// `ends` names the states where `left` has weight.
fn worth_with<C: Cells, P: BeliefPoints>(
    input: &CheckedPoints<'_, C, P>,
    taken: Taken,
    left: &[u128],
    ends: Row<'_>,
    action: usize,
) -> i128
    requires action { action < (C.table input.now.cells.now).actions }
    requires states { length left.now ≡ (C.table input.now.cells.now).states }
    requires ends { IsWithinRow (C.table input.now.cells.now).states (slice_index left.now) ends }
    requires taken { IsTaken (C.table input.now.cells.now) (P.table input.now.points.now) taken
        (slice_index left.now) }
    ensures { result ≡ left_worth (C.table input.now.cells.now)
        (charge_at (P.table input.now.points.now) input.now.charges.now)
        (P.table input.now.points.now).points taken.point taken.times (slice_index left.now) action }
{
    let value = taken_value(input.points, taken.point, action);
    covered(
        taken.times,
        taken.mass,
        value,
        left,
        ends,
        input.charges_of(action),
    )
}

/// Returns the greatest of what `worth_with` returns, over all next actions.
fn best_left<C: Cells, P: BeliefPoints>(
    input: &CheckedPoints<'_, C, P>,
    taken: Taken,
    left: &[u128],
    ends: Row<'_>,
) -> i128
    requires states { length left.now ≡ (C.table input.now.cells.now).states }
    requires ends { IsWithinRow (C.table input.now.cells.now).states (slice_index left.now) ends }
    requires taken { IsTaken (C.table input.now.cells.now) (P.table input.now.points.now) taken
        (slice_index left.now) }
    ensures { result ≡ greatest_below (left_worth (C.table input.now.cells.now)
        (charge_at (P.table input.now.points.now) input.now.charges.now)
        (P.table input.now.points.now).points taken.point taken.times (slice_index left.now))
        (C.table input.now.cells.now).actions }
{
    let mut best = worth_with(input, taken, left, ends, 0);
    for next in 1..input.cells.actions() {
        best = best.max(worth_with(input, taken, left, ends, next));
    }
    best
}

/// Returns what a belief is worth with the best next action, if point `j` is taken out of it as often as it fits. `belief` keeps what is
/// left.
fn best_with_point<C: Cells, P: BeliefPoints>(
    input: &CheckedPoints<'_, C, P>,
    j: usize,
    ends: Row<'_>,
    belief: &mut [u128],
) -> i128
    requires point { j < (P.table input.now.points.now).points.count }
    requires states { length belief.old ≡ (C.table input.now.cells.now).states }
    requires ends { IsWithinRow (C.table input.now.cells.now).states (slice_index belief.old) ends }
    requires few { sum_below (slice_index belief.old) (C.table input.now.cells.now).states ≤ 5 * 10 ^ 24 }
    ensures value { (cover : Cover) → IsCoverBy (C.table input.now.cells.now)
        (P.table input.now.points.now).points (slice_index belief.old) (Some j) cover →
        result ≡ best_worth (C.table input.now.cells.now)
        (charge_at (P.table input.now.points.now) input.now.charges.now)
        (P.table input.now.points.now).points (slice_index belief.old) cover }
    ensures less { (s : ℕ) → s < (C.table input.now.cells.now).states →
        slice_index belief.new s ≤ slice_index belief.old s }
{
    let times = most_times(input.points, j, belief);
    take_out(input.points, j, times, belief);
    let taken = Taken {
        point: Some(j),
        times,
        mass: mass_of(input.points, j),
    };
    best_left(input, taken, belief, ends)
}

/// Returns what a belief is worth with the best next action, covered by the named point, if one is named. The row names the states where
/// the belief has weight. `belief` keeps what the point doesn't cover.
pub(crate) fn best_worth<C: Cells, P: BeliefPoints>(
    input: &CheckedPoints<'_, C, P>,
    named: Option<usize>,
    ends: Row<'_>,
    belief: &mut [u128],
) -> i128
    requires named { (j : ℕ) → named ≡ Some j → j < (P.table input.now.points.now).points.count }
    requires states { length belief.old ≡ (C.table input.now.cells.now).states }
    requires ends { IsWithinRow (C.table input.now.cells.now).states (slice_index belief.old) ends }
    requires few { sum_below (slice_index belief.old) (C.table input.now.cells.now).states ≤ 5 * 10 ^ 24 }
    ensures value { (cover : Cover) → IsCoverBy (C.table input.now.cells.now)
        (P.table input.now.points.now).points (slice_index belief.old) named cover →
        result ≡ best_worth (C.table input.now.cells.now)
        (charge_at (P.table input.now.points.now) input.now.charges.now)
        (P.table input.now.points.now).points (slice_index belief.old) cover }
    ensures less { (s : ℕ) → s < (C.table input.now.cells.now).states →
        slice_index belief.new s ≤ slice_index belief.old s }
{
    match named {
        Some(j) => best_with_point(input, j, ends, belief),
        None => best_left(
            input,
            Taken {
                point: None,
                times: 0,
                mass: 0,
            },
            belief,
            ends,
        ),
    }
}
