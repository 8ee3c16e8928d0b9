//! The belief after an action and an observation.
ghost use Rattle.std.specs.Prelude.{◌≡◌, ◌+◌, ◌*◌, ◌^◌, ◌<◌, ◌≤◌, ℕ, Some, length, slice_index, take};
ghost use Rattle.polcert_cells.specs.BorrowedRows.{IsRowOf, IsStep};
ghost use Rattle.polcert_cells.specs.Sparse.{IsRow};
ghost use Rattle.polcert_points.specs.Belief.{Belief, updated_belief};
ghost use Rattle.polcert_points.specs.Steps.PointSums.{AreArrivals, arrival};

use crate::belief_points::{BeliefPoints, next_state};
use crate::checked_points::CheckedPoints;
use polcert_cells::{Cell, Cells, Row, Step};
use polcert_check::one_step::next_end;

/// Sets every weight to 0.
fn clear(weights: &mut [u64])
    ensures { (s : ℕ) → s < length weights.old → slice_index weights.new s ≡ 0 }
{
    for s in 0..weights.len() {
        weights[s] = 0;
    }
}

/// Sets every weight of a belief to 0.
pub(crate) fn clear_belief(belief: &mut [u128])
    ensures { (s : ℕ) → s < length belief.old → slice_index belief.new s ≡ 0 }
{
    for s in 0..belief.len() {
        belief[s] = 0;
    }
}

/// Adds to each end state its weight in the row of T at action `a` and state `s`, this many times.
fn add_row<C: Cells>(cells: &C, a: usize, s: usize, times: u64, arrivals: &mut [u64])
    requires action { a < (C.table cells.now).actions }
    requires state { s < (C.table cells.now).states }
    requires room { length arrivals.old ≡ (C.table cells.now).states }
    requires small { (e : ℕ) → e < (C.table cells.now).states →
        slice_index arrivals.old e + times * (C.table cells.now).t a s e ≤ 10 ^ 16 }
    ensures { (e : ℕ) → e < (C.table cells.now).states →
        slice_index arrivals.new e ≡ slice_index arrivals.old e + times * (C.table cells.now).t a s e }
{
    let row = cells.t_row(a, s);
    let mut at = 0;
    while let Some(end) = next_end(cells, a, s, row, at) {
        arrivals[end.column] += times * end.weight;
        at = end.next;
    }
}

/// Fills in the weight with which each end state is reached from point `i` by action `a`, whatever is observed. The beliefs after the
/// action are made from it.
pub(crate) fn fill_arrivals<C: Cells, P: BeliefPoints>(
    input: &CheckedPoints<'_, C, P>,
    i: usize,
    a: usize,
    arrivals: &mut [u64],
)
    requires point { i < (P.table input.now.points.now).points.count }
    requires action { a < (C.table input.now.cells.now).actions }
    requires room { length arrivals.old ≡ (C.table input.now.cells.now).states }
    ensures { AreArrivals (C.table input.now.cells.now) ((P.table input.now.points.now).points.belief i) a
        arrivals.new }
{
    clear(arrivals);
    let point = input.points.weights(i);
    let mut at = 0;
    while let Some(start) = next_state(input.points, i, point, at) {
        add_row(input.cells, a, start.column, start.weight, arrivals);
        at = start.next;
    }
}

/// Writes a state and its weight at this place of a list, if the weight is above 0. Returns the place for the next.
fn add_cell(cells: &mut [Cell], place: usize, state: usize, weight: u64) -> usize
    requires room { place < length cells.old }
    ensures row { (b : Belief) → weight ≡ b state → IsRow state b (take place cells.old) →
        IsRow (state + 1) b (take result cells.new) }
    ensures within { result ≤ place + 1 }
{
    if weight == 0 {
        return place;
    }
    cells[place] = Cell {
        column: state,
        weight,
    };
    place + 1
}

/// Lists the states of a weight above 0 with their weights, in order. Returns how many there are.
pub(crate) fn list_cells(weights: &[u64], cells: &mut [Cell]) -> usize
    requires room { length weights.now ≤ length cells.old }
    ensures row { IsRow (length weights.now) (slice_index weights.now) (take result cells.new) }
    ensures within { result ≤ length weights.now }
{
    let mut place = 0;
    for s in 0..weights.len() {
        place = add_cell(cells, place, s, weights[s]);
    }
    place
}

/// Returns the next end state that is reached from point `i` by action `a`, from a place in the row of arrivals on.
#[inline(always)]
fn next_arrival<C: Cells, P: BeliefPoints>(
    _input: &CheckedPoints<'_, C, P>,
    i: usize,
    a: usize,
    ends: Row<'_>,
    at: usize,
) -> Option<Step>
    requires ends { IsRowOf
        (arrival (C.table _input.now.cells.now) ((P.table _input.now.points.now).points.belief i) a)
        (C.table _input.now.cells.now).states ends }
    ensures { IsStep
        (arrival (C.table _input.now.cells.now) ((P.table _input.now.points.now).points.belief i) a)
        (C.table _input.now.cells.now).states (Some ends.entry) at result }
{
    ends.step(at)
}

/// Fills in the belief after action `a` at point `i` and an observation, and returns its greatest weight. `ends` is the row of arrivals,
/// which names the end states that are reached; the caller has set `belief` to 0 at all others.
// (Six parameters: three numbers that say which belief it is, and the buffers that it is read from and filled into.)
pub(crate) fn fill_after<C: Cells, P: BeliefPoints>(
    input: &CheckedPoints<'_, C, P>,
    i: usize,
    a: usize,
    observation: usize,
    ends: Row<'_>,
    belief: &mut [u128],
) -> u128
    requires action { a < (C.table input.now.cells.now).actions }
    requires observation { observation < (C.table input.now.cells.now).observations }
    requires ends { IsRowOf
        (arrival (C.table input.now.cells.now) ((P.table input.now.points.now).points.belief i) a)
        (C.table input.now.cells.now).states ends }
    requires room { length belief.old ≡ (C.table input.now.cells.now).states }
    requires others { (e : ℕ) → e < (C.table input.now.cells.now).states →
        arrival (C.table input.now.cells.now) ((P.table input.now.points.now).points.belief i) a e ≡ 0 →
        slice_index belief.old e ≡ 0 }
    ensures belief { (e : ℕ) → e < (C.table input.now.cells.now).states →
        slice_index belief.new e ≡ updated_belief (C.table input.now.cells.now)
        ((P.table input.now.points.now).points.belief i) a observation e }
    ensures greatest { (e : ℕ) → e < (C.table input.now.cells.now).states →
        slice_index belief.new e ≤ result }
{
    let mut greatest: u128 = 0;
    let mut at = 0;
    while let Some(end) = next_arrival(input, i, a, ends, at) {
        let weight = end.weight as u128 * input.cells.o(a, end.column, observation) as u128;
        belief[end.column] = weight;
        greatest = greatest.max(weight);
        at = end.next;
    }
    greatest
}
