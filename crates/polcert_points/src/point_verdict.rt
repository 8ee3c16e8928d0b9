//! The check of belief points, and what it finds.
ghost use Rattle.std.specs.Prelude.{◌≡◌, ◌↔◌, ◌*◌, pos, ◌<ℤ◌, ◌≤ℤ◌, length, IsTrue, IsFalse};
ghost use Rattle.polcert_policy.specs.Vectors.{value_of};
ghost use Rattle.polcert_optimum.specs.InformedCheck.{FitActions};
ghost use Rattle.polcert_points.specs.Points.{Covers};
ghost use Rattle.polcert_points.specs.PointCheck.{AreCoversBy};
ghost use Rattle.polcert_points.specs.PointTable.{FitPoints, charge_at};
ghost use Rattle.polcert_points.specs.PointVerdict.{IsPointVerdict, IsVerdictWith, MeetsPointPromise};

use crate::belief_points::BeliefPoints;
use crate::cell_list::CellList;
use crate::charges::fill_charges;
use crate::checked_points::CheckedPoints;
use polcert_cells::{Cell, Cells, MOST_STATES};
use polcert_check::one_step::RewardBuffer;
use polcert_check::{NoProgress, Progress};
use polcert_policy::Vectors;

/// The verdict on points: yes, or the first point and action where the inequality fails, by point and then by action.
#[derive(Clone, Copy, Debug, PartialEq, Eq)]
pub enum PointVerdict {
    /// The value of each action at each point is at least its backup.
    Yes,
    /// The backup of this action is above its value at this point, by this amount: in millionths, on the scale of the weights of one step
    /// times the mass of the point, rounded up.
    Exceeded {
        point: usize,
        action: usize,
        amount: i128,
    },
}

/// Returns whether the points are for as many states, actions and observations as the model has. The check requires this; the runs have it
/// from reading.
pub fn fit_points<C: Cells, P: BeliefPoints>(cells: &C, points: &P) -> bool
    ensures { IsTrue result ↔ FitPoints (C.table cells.now) (P.table points.now) }
{
    let states = points.states() == cells.states();
    let actions = points.actions() == cells.actions();
    let observations = points.observations() == cells.observations();
    states && actions && observations
}

/// Returns whether an excess is above 0.
fn is_above(amount: i128) -> bool
    ensures above { IsTrue result → pos 0 <ℤ amount }
    ensures not_above { IsFalse result → amount ≤ℤ pos 0 }
{
    amount > 0
}

/// Returns the verdict on points whose charges are known, with buffers for weights of end states. `progress` is notified of each point that
/// passes.
fn first_point_excess<C: Cells, P: BeliefPoints, W: Progress>(
    input: &CheckedPoints<'_, C, P>,
    arrivals: &mut [u64],
    ends: &mut [Cell],
    belief: &mut [u128],
    progress: &mut W,
) -> PointVerdict
    requires arrivals { length arrivals.old ≡ (C.table input.now.cells.now).states }
    requires ends { length ends.old ≡ (C.table input.now.cells.now).states }
    requires belief { length belief.old ≡ (C.table input.now.cells.now).states }
    ensures { (covers : Covers) → AreCoversBy (C.table input.now.cells.now)
        (P.table input.now.points.now).points (P.table input.now.points.now).next covers →
        IsVerdictWith (C.table input.now.cells.now)
        (charge_at (P.table input.now.points.now) input.now.charges.now)
        (P.table input.now.points.now).points covers result }
{
    let mut rewards = RewardBuffer::new();
    for point in 0..input.points.count() {
        for action in 0..input.cells.actions() {
            let amount = input.point_excess(point, action, arrivals, ends, belief, &mut rewards);
            if is_above(amount) {
                return PointVerdict::Exceeded {
                    point,
                    action,
                    amount,
                };
            }
        }
        progress.node_done();
    }
    PointVerdict::Yes
}

/// Returns the verdict on points whose charges are known. `progress` is notified as by `check_points_watched`.
// (Not inlined: its buffers would be room on the stack for all that is above it.)
#[inline(never)]
fn verdict_of<C: Cells, P: BeliefPoints, W: Progress>(
    input: &CheckedPoints<'_, C, P>,
    progress: &mut W,
) -> PointVerdict
    ensures { (covers : Covers) → AreCoversBy (C.table input.now.cells.now)
        (P.table input.now.points.now).points (P.table input.now.points.now).next covers →
        IsVerdictWith (C.table input.now.cells.now)
        (charge_at (P.table input.now.points.now) input.now.charges.now)
        (P.table input.now.points.now).points covers result }
{
    let states = input.cells.states();
    let mut arrivals = [0; MOST_STATES];
    let mut ends = CellList::new();
    let mut belief = [0; MOST_STATES];
    progress.begin(input.points.count());
    let verdict = first_point_excess(
        input,
        &mut arrivals[..states],
        &mut ends.cells[..states],
        &mut belief[..states],
        progress,
    );
    progress.end();
    verdict
}

/// Returns whether the value of each action at each point is at least its backup, else the first point and action where it is less. What
/// no named point covers is charged by the vectors and by the points that are one state alone; with a yes, and if the vectors are
/// informed, no policy that sees the observations alone earns more at a point than the value of its first action.
///
/// `charges` is a buffer with room for each action and state. It takes no other memory.
pub fn check_points<C: Cells, P: BeliefPoints>(
    cells: &C,
    vectors: &Vectors,
    points: &P,
    charges: &mut [i64],
) -> PointVerdict
    requires vectors { FitActions (C.table cells.now) vectors.now }
    requires points { FitPoints (C.table cells.now) (P.table points.now) }
    requires room { length charges.old ≡ (C.table cells.now).actions * (C.table cells.now).states }

    // Yes if the inequality holds at every point and action, else the first of both where it fails, and by
    // how much.
    ensures verdict { IsPointVerdict (C.table cells.now) (value_of vectors.now) (P.table points.now) result }

    // A yes bounds every policy that sees the observations alone, for every number of steps.
    ensures promise { MeetsPointPromise (C.table cells.now) (value_of vectors.now) (P.table points.now)
        result }
{
    check_points_watched(cells, vectors, points, charges, &mut NoProgress)
}

/// Checks as `check_points`, and notifies `progress` of each point that passes, as of a node.
pub fn check_points_watched<C: Cells, P: BeliefPoints, W: Progress>(
    cells: &C,
    vectors: &Vectors,
    points: &P,
    charges: &mut [i64],
    progress: &mut W,
) -> PointVerdict
    requires vectors { FitActions (C.table cells.now) vectors.now }
    requires points { FitPoints (C.table cells.now) (P.table points.now) }
    requires room { length charges.old ≡ (C.table cells.now).actions * (C.table cells.now).states }
    ensures verdict { IsPointVerdict (C.table cells.now) (value_of vectors.now) (P.table points.now) result }
    ensures promise { MeetsPointPromise (C.table cells.now) (value_of vectors.now) (P.table points.now)
        result }
{
    let _vectors = vectors.nodes();
    fill_charges(vectors, points, charges);
    let input = CheckedPoints {
        cells,
        points,
        charges,
    };
    verdict_of(&input, progress)
}
