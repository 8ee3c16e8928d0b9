//! What a check asks of belief points.
ghost use Rattle.std.specs.Prelude.{◌≡◌, ◌<◌, Some};
ghost use Rattle.polcert_cells.specs.BorrowedRows.{IsRowOf, IsStep};
ghost use Rattle.polcert_points.specs.PointTable.{PointTable, IsProperPointTable};

use polcert_cells::{Row, Step};

/// Belief points, each with a value for each action, as a check reads them.
///
/// Points, states, actions and observations go by their numbers, from 0. Weights and values are in millionths. The weights of a point
/// sum to at least 1 and at most 1,000,000.
pub trait BeliefPoints {
    // What the readers answer.
    ghost table: { Self → PointTable };

    /// Returns the number of points.
    fn count(&self) -> usize
        ensures { result ≡ (table self.now).points.count };

    /// Returns the number of states that the points are for.
    fn states(&self) -> usize
        ensures { result ≡ (table self.now).states };

    /// Returns the number of actions that the points are for.
    fn actions(&self) -> usize
        ensures { result ≡ (table self.now).actions };

    /// Returns the number of observations that the points are for.
    fn observations(&self) -> usize
        ensures { result ≡ (table self.now).observations };

    /// Returns the weights of the states at point `i`.
    fn weights(&self, i: usize) -> Row<'_>
        requires { i < (table self.now).points.count }
        ensures { IsRowOf ((table self.now).points.belief i) (table self.now).states result };

    /// Returns the value of action `a` at point `i`: at most 10,000,000 in size.
    fn value(&self, i: usize, a: usize) -> i64
        requires point { i < (table self.now).points.count }
        requires action { a < (table self.now).actions }
        ensures { result ≡ (table self.now).points.value i a };

    /// Returns the point that is named to cover the belief after action `a` and observation `z` at point `i`, if one is.
    fn next(&self, i: usize, a: usize, z: usize) -> Option<usize>
        requires point { i < (table self.now).points.count }
        requires action { a < (table self.now).actions }
        requires observation { z < (table self.now).observations }
        ensures { result ≡ (table self.now).next i a z };

    // Weights and values lie within their limits, and each named point is one of the points.
    ghost is_proper: { (x : Self) → IsProperPointTable (table x) };
}

/// Returns the next state of positive weight at point `i`, from a place in its row on.
#[inline(always)]
pub(crate) fn next_state<P: BeliefPoints>(
    _points: &P,
    i: usize,
    row: Row<'_>,
    at: usize,
) -> Option<Step>
    requires point { i < (P.table _points.now).points.count }
    requires row { IsRowOf ((P.table _points.now).points.belief i) (P.table _points.now).states row }
    ensures { IsStep ((P.table _points.now).points.belief i) (P.table _points.now).states (Some row.entry) at
        result }
{
    row.step(at)
}
