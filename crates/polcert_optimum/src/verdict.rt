//! The check of one vector for each action, and what it finds.
ghost use Rattle.std.specs.Prelude.{◌↔◌, pos, ◌<ℤ◌, ◌≤ℤ◌, IsTrue, IsFalse};
ghost use Rattle.polcert_policy.specs.Vectors.{value_of};
ghost use Rattle.polcert_optimum.specs.InformedCheck.{FitActions, IsInformedVerdict, NamesSmallExcess, MeetsInformedPromise};

use crate::excess::Buffers;
use crate::pair::ActionState;
use polcert_cells::Cells;
use polcert_check::{NoProgress, Progress};
use polcert_policy::Vectors;

/// The verdict on vectors, one for each action: yes, or the first action and state where the informed inequality fails, by action and
/// then by state.
#[derive(Clone, Copy, Debug, PartialEq, Eq)]
pub enum InformedVerdict {
    /// The vector of each action is at least its informed backup at every state.
    Yes,
    /// The informed backup is above the vector of this action at this state, by this amount: in millionths, on the scale of the
    /// weights of one step times 1,000,000.
    Exceeded {
        action: usize,
        state: usize,
        amount: i128,
    },
}

/// Returns whether there is a vector for each action of the model, with a value for each state. The check requires this; the runs have it
/// from reading.
pub fn fit_actions<C: Cells>(cells: &C, vectors: &Vectors) -> bool
    ensures { IsTrue result ↔ FitActions (C.table cells.now) vectors.now }
{
    vectors.nodes() == cells.actions() && vectors.states() == cells.states()
}

/// Returns whether an excess is above 0.
fn is_above(amount: i128) -> bool
    ensures above { IsTrue result → pos 0 <ℤ amount }
    ensures not_above { IsFalse result → amount ≤ℤ pos 0 }
{
    amount > 0
}

/// Returns whether the vector of each action is at least its informed backup at every state, so that no policy that sees the
/// observations alone earns more than the vector of its first action says; else the first action and state where it is less. It takes no
/// memory. For each action and state, unless the state before has the same row of T, or the action before the same rows, it walks the row
/// of T, and for each end state the row of O if they do not all show the same, once for each action that can follow.
pub fn check_informed<C: Cells>(cells: &C, vectors: &Vectors) -> InformedVerdict
    requires { FitActions (C.table cells.now) vectors.now }

    // Yes if the informed inequality holds everywhere, else the first action and state where it fails, and
    // by how much.
    ensures verdict { IsInformedVerdict (C.table cells.now) (value_of vectors.now) result }

    // A yes bounds every policy that sees the observations alone, with the vectors at the end, for every
    // number of steps; a no says that the vectors don't.
    ensures promise { MeetsInformedPromise (C.table cells.now) (value_of vectors.now) result }

    // How large an amount can be.
    ensures small { NamesSmallExcess (C.table cells.now) result }
{
    check_informed_watched(cells, vectors, &mut NoProgress)
}

/// Checks as `check_informed`, and notifies `progress` of each action that passes, as of a node, and of its states.
pub fn check_informed_watched<C: Cells, W: Progress>(
    cells: &C,
    vectors: &Vectors,
    progress: &mut W,
) -> InformedVerdict
    requires { FitActions (C.table cells.now) vectors.now }
    ensures verdict { IsInformedVerdict (C.table cells.now) (value_of vectors.now) result }
    ensures promise { MeetsInformedPromise (C.table cells.now) (value_of vectors.now) result }
    ensures small { NamesSmallExcess (C.table cells.now) result }
{
    progress.begin(cells.actions());
    let verdict = first_excess(cells, vectors, progress);
    progress.end();
    verdict
}

/// Returns the verdict. `progress` is notified as by `check_informed_watched`.
// (Not inlined: its buffers would be room on the stack for all that is above it.)
#[inline(never)]
fn first_excess<C: Cells, W: Progress>(
    cells: &C,
    vectors: &Vectors,
    progress: &mut W,
) -> InformedVerdict
    requires { FitActions (C.table cells.now) vectors.now }
    ensures verdict { IsInformedVerdict (C.table cells.now) (value_of vectors.now) result }
    ensures promise { MeetsInformedPromise (C.table cells.now) (value_of vectors.now) result }
    ensures small { NamesSmallExcess (C.table cells.now) result }
{
    let _vectors = vectors.nodes();
    let mut buffers = Buffers::new();
    for action in 0..cells.actions() {
        for state in 0..cells.states() {
            let pair = ActionState {
                cells,
                vectors,
                action,
                state,
            };
            let amount = buffers.excess(&pair);
            if is_above(amount) {
                return InformedVerdict::Exceeded {
                    action,
                    state,
                    amount,
                };
            }
            progress.states_done(state + 1, cells.states());
        }
        progress.node_done();
    }
    InformedVerdict::Yes
}
