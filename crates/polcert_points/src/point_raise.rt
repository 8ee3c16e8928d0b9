//! The least constant by which the values of points are raised so that they pass.
ghost use Rattle.std.specs.Prelude.{◌≡◌, ◌<◌, ◌≤◌, ◌*◌, ℕ, length, IsTrue, IsFalse, IfNone, IfSome};
ghost use Rattle.polcert_policy.specs.Points.{point_count};
ghost use Rattle.polcert_policy.specs.Vectors.{value_of};
ghost use Rattle.polcert_optimum.specs.InformedCheck.{FitActions};
ghost use Rattle.polcert_points.specs.PointTable.{FitPoints, table_of_set};
ghost use Rattle.polcert_points_form.specs.RaisedSet.{CanRaisePoints, HasAllValues};
ghost use Rattle.polcert_points.specs.RaisedPoints.{IsLeastPointRaise, IsNoPointRaise, PassRaised};

use crate::point_verdict::{PointVerdict, check_points};
use crate::raised_points::RaisedPoints;
use polcert_cells::Cells;
use polcert_points_form::room_above;
use polcert_policy::{PointSet, Vectors};

/// Returns whether points pass that are raised by this constant. If they don't, they pass raised by none that is less. `charges` is a buffer.
fn pass_raised<C: Cells>(
    cells: &C,
    vectors: &Vectors,
    points: &PointSet,
    by: u64,
    charges: &mut [i64],
) -> bool
    requires vectors { FitActions (C.table cells.now) vectors.now }
    requires points { FitPoints (C.table cells.now) (table_of_set points.now) }
    requires all_values { HasAllValues points.now }
    requires small { by ≤ 20_000_000_000_000 }
    requires room { CanRaisePoints points.now by }
    requires buffer { length charges.old ≡ (C.table cells.now).actions * (C.table cells.now).states }
    ensures passes { IsTrue result → PassRaised (C.table cells.now) (value_of vectors.now) points.now by }
    ensures fails { IsFalse result → (d : ℕ) → d ≤ by →
        PassRaised (C.table cells.now) (value_of vectors.now) points.now d → ⊥ }
    ensures some { IsFalse result → 0 < point_count points.now }
{
    let _count = points.count();
    let raised = RaisedPoints::new(points, by);
    match check_points(cells, vectors, &raised, charges) {
        PointVerdict::Yes => true,
        PointVerdict::Exceeded { .. } => false,
    }
}

/// Returns the constant to be tried between these: twice the lower at most, since most constants are small.
fn probe(least: u64, passing: u64) -> u64
    requires between { least < passing }
    requires small { passing ≤ 20_000_000_000_000 }
    ensures from { least ≤ result }
    ensures below { result < passing }
{
    (least + (passing - least) / 2).min(2 * least)
}

/// Returns the least constant by which points pass that pass raised by `most`. `charges` is a buffer.
fn least_passing_raise<C: Cells>(
    cells: &C,
    vectors: &Vectors,
    points: &PointSet,
    most: u64,
    charges: &mut [i64],
) -> u64
    requires vectors { FitActions (C.table cells.now) vectors.now }
    requires points { FitPoints (C.table cells.now) (table_of_set points.now) }
    requires all_values { HasAllValues points.now }
    requires small { most ≤ 20_000_000_000_000 }
    requires room { CanRaisePoints points.now most }
    requires passes { PassRaised (C.table cells.now) (value_of vectors.now) points.now most }
    requires buffer { length charges.old ≡ (C.table cells.now).actions * (C.table cells.now).states }
    ensures least { IsLeastPointRaise (C.table cells.now) (value_of vectors.now) points.now result }
    ensures small { result ≤ most }
{
    let _count = points.count();
    let mut least = 0;
    let mut passing = most;
    while least < passing {
        let by = probe(least, passing);
        if pass_raised(cells, vectors, points, by, charges) {
            passing = by;
        } else {
            least = by + 1;
        }
    }
    passing
}

/// Returns the least constant, in millionths, by which all values of points are raised so that they pass `check_points` with these
/// vectors, and every value is at most 10,000,000 in size; or `None` if no such constant makes them pass.
///
/// The points are checked once for each constant that is tried, at most some 90 times. `charges` is a buffer with room for each action and
/// state. It takes no other memory.
pub fn least_point_raise<C: Cells>(
    cells: &C,
    vectors: &Vectors,
    points: &PointSet,
    charges: &mut [i64],
) -> Option<u64>
    requires vectors { FitActions (C.table cells.now) vectors.now }
    requires points { FitPoints (C.table cells.now) (table_of_set points.now) }
    requires all_values { HasAllValues points.now }
    requires buffer { length charges.old ≡ (C.table cells.now).actions * (C.table cells.now).states }
    ensures least { IfSome result
        (IsLeastPointRaise (C.table cells.now) (value_of vectors.now) points.now) }
    ensures small { IfSome result (λ by. by ≤ 20_000_000_000_000) }
    ensures none { IfNone result
        (IsNoPointRaise (C.table cells.now) (value_of vectors.now) points.now) }
{
    let _count = points.count();
    let most = room_above(points);
    if pass_raised(cells, vectors, points, most, charges) {
        Some(least_passing_raise(cells, vectors, points, most, charges))
    } else {
        None
    }
}
