//! What follows an action at a point.
ghost use Rattle.std.specs.Prelude.{◌≡◌, ◌<◌, ℕ, length, slice_index};
ghost use Rattle.polcert_cells.specs.BorrowedRows.{IsRowOf};
ghost use Rattle.polcert_check.specs.Horizon.{total_below};
ghost use Rattle.polcert_points.specs.Belief.{updated_belief};
ghost use Rattle.polcert_points.specs.Points.{Cover, best_worth};
ghost use Rattle.polcert_points.specs.PointCheck.{IsCoverBy};
ghost use Rattle.polcert_points.specs.PointTable.{charge_at};
ghost use Rattle.polcert_points.specs.Steps.PointSums.{arrival};

use crate::belief::fill_after;
use crate::belief_points::BeliefPoints;
use crate::best_worth::best_worth;
use crate::checked_points::CheckedPoints;
use polcert_cells::{Cells, Row};

/// Returns what the belief after action `a` at point `i` and observation `z` is worth with the best next action. `ends` is the row of
/// arrivals. `belief` is a buffer: the caller has set it to 0 at the other end states, and it is 0 there again afterwards.
// (Six parameters: three numbers that say which belief it is, and the buffers that it is read from and filled into.)
fn worth_after<C: Cells, P: BeliefPoints>(
    input: &CheckedPoints<'_, C, P>,
    i: usize,
    a: usize,
    z: usize,
    ends: Row<'_>,
    belief: &mut [u128],
) -> i128
    requires point { i < (P.table input.now.points.now).points.count }
    requires action { a < (C.table input.now.cells.now).actions }
    requires observation { z < (C.table input.now.cells.now).observations }
    requires ends { IsRowOf
        (arrival (C.table input.now.cells.now) ((P.table input.now.points.now).points.belief i) a)
        (C.table input.now.cells.now).states ends }
    requires room { length belief.old ≡ (C.table input.now.cells.now).states }
    requires others { (e : ℕ) → e < (C.table input.now.cells.now).states →
        arrival (C.table input.now.cells.now) ((P.table input.now.points.now).points.belief i) a e ≡ 0 →
        slice_index belief.old e ≡ 0 }
    ensures value { (cover : Cover) →
        IsCoverBy (C.table input.now.cells.now) (P.table input.now.points.now).points
        (updated_belief (C.table input.now.cells.now) ((P.table input.now.points.now).points.belief i) a z)
        ((P.table input.now.points.now).next i a z) cover →
        result ≡ best_worth (C.table input.now.cells.now)
        (charge_at (P.table input.now.points.now) input.now.charges.now)
        (P.table input.now.points.now).points
        (updated_belief (C.table input.now.cells.now) ((P.table input.now.points.now).points.belief i) a z)
        cover }
    ensures others { (e : ℕ) → e < (C.table input.now.cells.now).states →
        arrival (C.table input.now.cells.now) ((P.table input.now.points.now).points.belief i) a e ≡ 0 →
        slice_index belief.new e ≡ 0 }
{
    let greatest = fill_after(input, i, a, z, ends, belief);
    // (No end state that is reached gives the observation.)
    if greatest == 0 {
        return 0;
    }
    best_worth(input, input.points.next(i, a, z), ends, belief)
}

/// Returns what follows action `a` at point `i`: the sum over the observations of what the belief after it is worth with the best next
/// action. `ends` is the row of arrivals. `belief` is a buffer, which the caller has set to 0 at the other end states.
pub(crate) fn following_worth<C: Cells, P: BeliefPoints>(
    input: &CheckedPoints<'_, C, P>,
    i: usize,
    a: usize,
    ends: Row<'_>,
    belief: &mut [u128],
) -> i128
    requires point { i < (P.table input.now.points.now).points.count }
    requires action { a < (C.table input.now.cells.now).actions }
    requires ends { IsRowOf
        (arrival (C.table input.now.cells.now) ((P.table input.now.points.now).points.belief i) a)
        (C.table input.now.cells.now).states ends }
    requires room { length belief.old ≡ (C.table input.now.cells.now).states }
    requires others { (e : ℕ) → e < (C.table input.now.cells.now).states →
        arrival (C.table input.now.cells.now) ((P.table input.now.points.now).points.belief i) a e ≡ 0 →
        slice_index belief.old e ≡ 0 }
    ensures { (covers : ℕ → Cover) → ((z : ℕ) → z < (C.table input.now.cells.now).observations →
        IsCoverBy (C.table input.now.cells.now) (P.table input.now.points.now).points
        (updated_belief (C.table input.now.cells.now) ((P.table input.now.points.now).points.belief i) a z)
        ((P.table input.now.points.now).next i a z) (covers z)) →
        result ≡ total_below (λ z. best_worth (C.table input.now.cells.now)
        (charge_at (P.table input.now.points.now) input.now.charges.now)
        (P.table input.now.points.now).points
        (updated_belief (C.table input.now.cells.now) ((P.table input.now.points.now).points.belief i) a z)
        (covers z)) (C.table input.now.cells.now).observations }
{
    let mut sum: i128 = 0;
    for z in 0..input.cells.observations() {
        sum += worth_after(input, i, a, z, ends, belief);
    }
    sum
}
