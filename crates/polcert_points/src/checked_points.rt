//! What a check of points reads.
ghost use Rattle.std.specs.Prelude.{◌≡◌, ◌*◌, length};
ghost use Rattle.polcert_points.specs.PointTable.{FitPoints};
ghost use Rattle.polcert_points.specs.Steps.PointSums.{AreSmallCharges};

use crate::belief_points::BeliefPoints;
use polcert_cells::Cells;

/// A model's cells, points for them, and the charges of all actions, action by action.
#[derive(Drop)]
pub(crate) struct CheckedPoints<'a, C: Cells, P: BeliefPoints> {
    pub cells: &'a C,
    pub points: &'a P,
    pub charges: &'a [i64],
    ghost fit: { FitPoints (C.table cells.now) (P.table points.now) },
    ghost room: { length charges.now ≡ (P.table points.now).actions * (P.table points.now).states },
    ghost small: { AreSmallCharges (P.table points.now) charges.now },
}

impl<C: Cells, P: BeliefPoints> CheckedPoints<'_, C, P> {
    ghost use Rattle.std.specs.Prelude.{◌≡◌, ◌<◌, ◌≤◌, ℕ, length, pos, slice_index_or, unsigned_abs};
    ghost use Rattle.polcert_text.specs.Numbers.{largest};
    ghost use Rattle.polcert_points.specs.PointTable.{charge_at};

    /// Returns the charges of an action.
    pub(crate) fn charges_of(&self, action: usize) -> &[i64]
        requires { action < (C.table self.now.cells.now).actions }
        ensures states { length result.now ≡ (C.table self.now.cells.now).states }
        ensures charges { (s : ℕ) → s < (C.table self.now.cells.now).states →
            slice_index_or result.now s (pos 0) ≡
            charge_at (P.table self.now.points.now) self.now.charges.now action s }
        ensures small { (s : ℕ) → s < (C.table self.now.cells.now).states →
            unsigned_abs (slice_index_or result.now s (pos 0)) ≤ largest }
    {
        let states = self.points.states();
        &self.charges[action * states..(action + 1) * states]
    }
}
