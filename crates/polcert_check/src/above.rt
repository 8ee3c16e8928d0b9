//! The verdict from above: whether the vectors bound what a policy graph earns from above.
ghost use Rattle.std.specs.Prelude.{◌≡◌};
ghost use Rattle.polcert_check.specs.Horizon.{Fits, controller_of};
ghost use Rattle.polcert_check.specs.Above.{MeetsHorizonAbove, IsAboveVerdict, NamesSmallAmountAbove, BoundEveryLowerVector};
ghost use Rattle.polcert_check.specs.Steps.Mirrored.{above_of};
ghost use Rattle.polcert_check.specs.declared.above.AboveVerdict.TheVariants.{Yes};

use crate::check_input::CheckInput;
use crate::findings::{Mode, Side};
use crate::survey::{NoProgress, Progress, Verdict, survey};
use polcert_model::Cells;
use polcert_policy::{Graph, Vectors};

/// What a check from above finds: yes, or the first pair of a node and a state that doesn't pass, by node and then by state.
#[derive(Clone, Copy, Debug, PartialEq, Eq)]
pub enum AboveVerdict {
    /// Every value bounds what the next step comes to, from every node and state.
    Yes,
    /// The next step comes to more than the value of this node at this state, by this amount: in millionths, on the scale of the
    /// weights of one step times 1,000,000.
    Long {
        node: usize,
        state: usize,
        amount: i128,
    },
    /// This observation can be received at this node and state, and the node has no successor for it. It is the least such
    /// observation.
    NoSuccessor {
        node: usize,
        state: usize,
        observation: usize,
    },
}

/// Returns the finding as a verdict from above: the walk, which both checks share, names a value that is too low `Short`.
fn above_of(verdict: Verdict) -> AboveVerdict
    ensures { result ≡ above_of verdict }
{
    match verdict {
        Verdict::Yes => AboveVerdict::Yes,
        Verdict::Short {
            node,
            state,
            amount,
        } => AboveVerdict::Long {
            node,
            state,
            amount,
        },
        Verdict::NoSuccessor {
            node,
            state,
            observation,
        } => AboveVerdict::NoSuccessor {
            node,
            state,
            observation,
        },
    }
}

/// Checks that the next step comes to at most each value, so that the graph earns no more than the values say for every number of steps.
/// Returns the first pair of a node and a state that fails, if one does. (The programs call `check_above_watched`.)
pub fn check_above<C: Cells>(cells: &C, graph: &Graph, vectors: &Vectors) -> AboveVerdict
    requires fits { Fits (C.table cells.now) graph.now vectors.now }

    // Yes where every pair passes, else the first that doesn't, and why.
    ensures verdict { IsAboveVerdict (controller_of (C.table cells.now) graph.now vectors.now) result }

    // The promise from above for every horizon, or that one step breaks it.
    ensures horizon { MeetsHorizonAbove (controller_of (C.table cells.now) graph.now vectors.now) result }

    // How large an amount can be.
    ensures small { NamesSmallAmountAbove (controller_of (C.table cells.now) graph.now vectors.now) result }

    // If the discount is below 1, vectors that pass from below are nowhere above these.
    ensures interval { (result ≡ Yes) → BoundEveryLowerVector (C.table cells.now) graph.now vectors.now }
{
    check_above_watched(cells, graph, vectors, &mut NoProgress)
}

/// Checks as `check_above`, and notifies `progress` of each node when all of its pairs have passed.
pub fn check_above_watched<C: Cells, W: Progress>(
    cells: &C,
    graph: &Graph,
    vectors: &Vectors,
    progress: &mut W,
) -> AboveVerdict
    requires fits { Fits (C.table cells.now) graph.now vectors.now }
    ensures verdict { IsAboveVerdict (controller_of (C.table cells.now) graph.now vectors.now) result }
    ensures horizon { MeetsHorizonAbove (controller_of (C.table cells.now) graph.now vectors.now) result }
    ensures small { NamesSmallAmountAbove (controller_of (C.table cells.now) graph.now vectors.now) result }
    ensures interval { (result ≡ Yes) → BoundEveryLowerVector (C.table cells.now) graph.now vectors.now }
{
    let input = CheckInput::new(Side::Above, cells, graph, vectors);
    above_of(survey(&input, Mode::Check, progress).first)
}
