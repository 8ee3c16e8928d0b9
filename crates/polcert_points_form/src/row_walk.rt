//! A walk over all columns of a row of weights, with the weights that are 0.
ghost use Rattle.std.specs.Prelude.{◌≡◌, ◌+◌, ◌<◌, ℕ};
ghost use Rattle.polcert_cells.specs.BorrowedRows.{IsRowOf};
ghost use Rattle.polcert_cells.specs.declared.cells.Row.{Row};
ghost use Rattle.polcert_policy.specs.Points.{point_count, point_weight};
ghost use Rattle.polcert_points_form.specs.Steps.RowWalk.{IsStepFrom};

use polcert_cells::{Row, Step};
use polcert_policy::PointSet;

/// Returns the first weight above 0 of the row of point `i`, with its column. `None`: it has none.
pub(crate) fn first_step(_points: &PointSet, i: usize, row: Row<'_>) -> Option<Step>
    requires point { i < point_count _points.now }
    requires row { IsRowOf (point_weight _points.now i) _points.now.states row }
    ensures { IsStepFrom (point_weight _points.now i) _points.now.states row.entry 0 result }
{
    row.step(0)
}

/// Returns the weight at a column: that of `next`, the next step from there on, if it is at this column, else 0.
pub(crate) fn weight_here(next: Option<Step>, column: usize) -> u64
    ensures { (f : ℕ → ℕ) (count : ℕ) (row : Row) → column < count → IsStepFrom f count row column next →
        result ≡ f column }
{
    match next {
        None => 0,
        Some(step) => {
            if step.column == column {
                step.weight
            } else {
                0
            }
        }
    }
}

/// Returns the next step after a column, in the row of point `i`: `next` itself unless it is at this column.
pub(crate) fn next_step(
    _points: &PointSet,
    i: usize,
    row: Row<'_>,
    next: Option<Step>,
    column: usize,
) -> Option<Step>
    requires point { i < point_count _points.now }
    requires row { IsRowOf (point_weight _points.now i) _points.now.states row }
    requires next { IsStepFrom (point_weight _points.now i) _points.now.states row column next }
    ensures { IsStepFrom (point_weight _points.now i) _points.now.states row.entry (column + 1) result }
{
    match next {
        None => None,
        Some(step) => {
            if step.column == column {
                row.step(step.next)
            } else {
                Some(step)
            }
        }
    }
}
