//! What policies earn at most from a model's start, by points.
ghost use Rattle.std.specs.Prelude.{◌≡◌, ◌<◌, ◌≤◌, ◌*◌, ◌^◌, ℕ, Some, length, slice_index, unsigned_abs};
ghost use Rattle.polcert_text.specs.Numbers.{largest};
ghost use Rattle.polcert_model.specs.Contents.{meaning};
ghost use Rattle.polcert_cells.specs.Meaning.{start_weight, states_of};
ghost use Rattle.polcert_cells.specs.BorrowedRows.{IsRowOf, IsStep};
ghost use Rattle.polcert_cells.specs.Tables.{table_of};
ghost use Rattle.polcert_policy.specs.Vectors.{value_of};
ghost use Rattle.polcert_check.specs.StartWorth.{IsCeilQuotient, IsFloorQuotient};
ghost use Rattle.polcert_optimum.specs.Informed.{AreInformed};
ghost use Rattle.polcert_optimum.specs.InformedCheck.{FitActions};
ghost use Rattle.polcert_points.specs.Points.{Cover, best_worth};
ghost use Rattle.polcert_points.specs.PointStart.{PointsBoundFromStart};
ghost use Rattle.polcert_points.specs.PointCheck.{IsCoverBy};
ghost use Rattle.polcert_points.specs.PointTable.{FitPoints, charge_at};
ghost use Rattle.polcert_points.specs.PointVerdict.{IsPointVerdict};
ghost use Rattle.polcert_points.specs.PointStartMost.{HasPointCertificate, IsPointStartMost, IsStartMostBy, scaled_start};
ghost use Rattle.polcert_points.specs.Steps.PointSums.{IsLeastWorth};
ghost use Rattle.polcert_points.specs.declared.point_verdict.PointVerdict.TheVariants.{Yes};

use crate::belief::{clear_belief, list_cells};
use crate::belief_points::BeliefPoints;
use crate::best_worth::best_worth;
use crate::cell_list::CellList;
use crate::charges::fill_charges;
use crate::checked_points::CheckedPoints;
use polcert_cells::{Cell, MOST_STATES, Row, Step};
use polcert_model::Model;
use polcert_policy::Vectors;

/// Fills in the weight of each state in a model's start.
fn fill_start(model: &Model, start: &mut [u64])
    requires { length start.old ≡ states_of (meaning model.now) }
    ensures { (s : ℕ) → s < states_of (meaning model.now) →
        slice_index start.new s ≡ start_weight (meaning model.now) s }
{
    for s in 0..start.len() {
        start[s] = model.start_weight(s);
    }
}

/// Returns the next state of positive weight in a model's start, from a place in its row on.
#[inline(always)]
fn next_start(_model: &Model, start: Row<'_>, at: usize) -> Option<Step>
    requires { IsRowOf (start_weight (meaning _model.now)) (states_of (meaning _model.now)) start }
    ensures { IsStep (start_weight (meaning _model.now)) (states_of (meaning _model.now))
        (Some start.entry) at result }
{
    start.step(at)
}

/// Fills in a model's start at the states of its row, each share times a large constant, so that points can be taken out of it finely. The
/// caller has set `belief` to 0 at the other states.
fn fill_scaled(model: &Model, start: Row<'_>, belief: &mut [u128])
    requires start { IsRowOf (start_weight (meaning model.now)) (states_of (meaning model.now)) start }
    requires room { length belief.old ≡ states_of (meaning model.now) }
    requires others { (s : ℕ) → s < states_of (meaning model.now) → start_weight (meaning model.now) s ≡ 0 →
        slice_index belief.old s ≡ 0 }
    ensures { (s : ℕ) → s < states_of (meaning model.now) →
        slice_index belief.new s ≡ scaled_start (meaning model.now) s }
{
    let mut at = 0;
    while let Some(state) = next_start(model, start, at) {
        belief[state.column] = 1_000_000_000_000 * state.weight as u128;
        at = state.next;
    }
}

/// Returns what the start, as `fill_scaled` scales it, is worth with the best next action, covered by the named point, if one is named.
/// `belief` is a buffer: the caller has set it to 0 outside of the start, and it is 0 there again afterwards.
fn worth_covered<P: BeliefPoints>(
    input: &CheckedPoints<'_, Model, P>,
    named: Option<usize>,
    start: Row<'_>,
    belief: &mut [u128],
) -> i128
    requires named { (j : ℕ) → named ≡ Some j → j < (P.table input.now.points.now).points.count }
    requires start { IsRowOf (start_weight (meaning input.now.cells.now))
        (states_of (meaning input.now.cells.now)) start }
    requires room { length belief.old ≡ states_of (meaning input.now.cells.now) }
    requires others { (s : ℕ) → s < states_of (meaning input.now.cells.now) →
        start_weight (meaning input.now.cells.now) s ≡ 0 → slice_index belief.old s ≡ 0 }
    ensures value { (cover : Cover) → IsCoverBy (table_of (meaning input.now.cells.now))
        (P.table input.now.points.now).points (scaled_start (meaning input.now.cells.now)) named cover →
        result ≡ best_worth (table_of (meaning input.now.cells.now))
        (charge_at (P.table input.now.points.now) input.now.charges.now)
        (P.table input.now.points.now).points (scaled_start (meaning input.now.cells.now)) cover }
    ensures others { (s : ℕ) → s < states_of (meaning input.now.cells.now) →
        start_weight (meaning input.now.cells.now) s ≡ 0 → slice_index belief.new s ≡ 0 }
{
    fill_scaled(input.cells, start, belief);
    best_worth(input, named, start, belief)
}

/// Returns the least that the start, as `fill_scaled` scales it, is worth with the best next action, covered by one point or by none.
/// `belief` is a buffer, which the caller has set to 0 outside of the start.
fn least_worth<P: BeliefPoints>(
    input: &CheckedPoints<'_, Model, P>,
    start: Row<'_>,
    belief: &mut [u128],
) -> i128
    requires start { IsRowOf (start_weight (meaning input.now.cells.now))
        (states_of (meaning input.now.cells.now)) start }
    requires room { length belief.old ≡ states_of (meaning input.now.cells.now) }
    requires others { (s : ℕ) → s < states_of (meaning input.now.cells.now) →
        start_weight (meaning input.now.cells.now) s ≡ 0 → slice_index belief.old s ≡ 0 }
    ensures { IsLeastWorth (table_of (meaning input.now.cells.now))
        (charge_at (P.table input.now.points.now) input.now.charges.now)
        (P.table input.now.points.now).points (scaled_start (meaning input.now.cells.now))
        (P.table input.now.points.now).points.count result }
{
    let mut least = worth_covered(input, None, start, belief);
    for j in 0..input.points.count() {
        least = least.min(worth_covered(input, Some(j), start, belief));
    }
    least
}

/// Returns a quotient, rounded down.
fn quotient_down(sum: i128, total: u64) -> i64
    requires some { 0 < total }
    requires few { total ≤ 10 ^ 18 }
    requires small { unsigned_abs sum ≤ total * largest }
    ensures floor { IsFloorQuotient sum total result }
    ensures small { unsigned_abs result ≤ largest }
{
    sum.div_euclid(total as i128) as i64
}

/// Returns a quotient, rounded up.
fn ceil_mean_of_worths(sum: i128, total: u64) -> i64
    requires some { 0 < total }
    requires few { total ≤ 10 ^ 18 }
    requires small { unsigned_abs sum ≤ total * largest }
    ensures { IsCeilQuotient sum total result }
{
    -quotient_down(-sum, total)
}

/// Returns the least that the start is worth, covered by one point or by none, in millionths, rounded up. The others are buffers.
fn most_with<P: BeliefPoints>(
    input: &CheckedPoints<'_, Model, P>,
    start: &mut [u64],
    cells: &mut [Cell],
    belief: &mut [u128],
) -> i64
    requires start { length start.old ≡ states_of (meaning input.now.cells.now) }
    requires cells { length cells.old ≡ states_of (meaning input.now.cells.now) }
    requires belief { length belief.old ≡ states_of (meaning input.now.cells.now) }
    ensures { IsStartMostBy (meaning input.now.cells.now)
        (charge_at (P.table input.now.points.now) input.now.charges.now)
        (P.table input.now.points.now).points result }
{
    let model = input.cells;
    fill_start(model, start);
    let count = list_cells(start, cells);
    clear_belief(belief);
    let least = least_worth(input, Row::Sparse(&cells[..count]), belief);
    ceil_mean_of_worths(least, 1_000_000_000_000 * model.start_total())
}

/// Returns what policies that see the observations alone earn at most from a model's start, in millionths, rounded up, if the vectors
/// are informed and the points pass `check_points`. Each point is tried as the cover of the start, and so is none; it is the least bound.
///
/// `charges` is a buffer with room for each action and state. It takes no other memory.
// (Not inlined: its buffers would be room on the stack for all that is above it.)
#[inline(never)]
pub fn most_from_points<P: BeliefPoints>(
    model: &Model,
    vectors: &Vectors,
    points: &P,
    charges: &mut [i64],
) -> i64
    requires vectors { FitActions (table_of (meaning model.now)) vectors.now }
    requires points { FitPoints (table_of (meaning model.now)) (P.table points.now) }
    requires room { length charges.old ≡
        (table_of (meaning model.now)).actions * (table_of (meaning model.now)).states }

    // The least that the start is worth, covered by one point or by none, rounded up.
    ensures most { IsPointStartMost (meaning model.now) (value_of vectors.now) (P.table points.now) result }

    // If the points pass, there is a certificate.
    ensures certificate { AreInformed (table_of (meaning model.now)) (value_of vectors.now) →
        IsPointVerdict (table_of (meaning model.now)) (value_of vectors.now) (P.table points.now) Yes →
        HasPointCertificate (meaning model.now) (value_of vectors.now) (P.table points.now) result }

    // And no policy that sees the observations alone earns more, for every number of steps.
    ensures promise { AreInformed (table_of (meaning model.now)) (value_of vectors.now) →
        IsPointVerdict (table_of (meaning model.now)) (value_of vectors.now) (P.table points.now) Yes →
        PointsBoundFromStart (meaning model.now) (value_of vectors.now) (P.table points.now).points result }
{
    let _vectors = vectors.nodes();
    fill_charges(vectors, points, charges);
    let input = CheckedPoints {
        cells: model,
        points,
        charges,
    };
    let states = model.states();
    let mut start = [0; MOST_STATES];
    let mut cells = CellList::new();
    let mut belief = [0; MOST_STATES];
    most_with(
        &input,
        &mut start[..states],
        &mut cells.cells[..states],
        &mut belief[..states],
    )
}
