//! The check of upper bounds in every model near the text's.
ghost use Rattle.std.specs.Prelude.{◌≡◌, ◌↔◌};
ghost use Rattle.polcert_check.specs.Horizon.{Fits, controller_of};
ghost use Rattle.polcert_check.specs.declared.above.AboveVerdict.TheVariants.{Yes};
ghost use Rattle.polcert_robust.specs.Intervals.{around};
ghost use Rattle.polcert_robust.specs.RobustAbove.{IsRobustAboveVerdict, MeetsHorizonAboveInEveryModel, PassesAboveInEveryModel, below_of};

use crate::buffers::PairBuffers;
use crate::distance::Distance;
use crate::robust_input::RobustInput;
use crate::side::Side;
use crate::walk::first_robust_failure;
use polcert_cells::Cells;
use polcert_check::{AboveVerdict, NoProgress, Progress, Verdict};
use polcert_policy::{Graph, Vectors};

/// Returns the finding as a verdict from above: the walk, which both checks share, names a value that is too low `Short`.
fn above_from_below(verdict: Verdict) -> AboveVerdict
    ensures { below_of result ≡ verdict }
{
    match verdict {
        Verdict::Yes => AboveVerdict::Yes,
        Verdict::Short {
            node,
            state,
            amount,
        } => AboveVerdict::Long {
            node,
            state,
            amount,
        },
        Verdict::NoSuccessor {
            node,
            state,
            observation,
        } => AboveVerdict::NoSuccessor {
            node,
            state,
            observation,
        },
    }
}

/// Checks that the next step comes to at most each value in every model near the text's: each probability above 0 and each reward within
/// its distance. Returns the first pair of a node and a state that fails, if one does. (The programs call `check_robust_above_watched`.)
///
/// What `check_robust` says of these models and of amounts holds here too. It takes no memory.
pub fn check_robust_above<C: Cells>(
    cells: &C,
    graph: &Graph,
    vectors: &Vectors,
    distance: Distance,
) -> AboveVerdict
    requires fits { Fits (C.table cells.now) graph.now vectors.now }

    // Yes if every pair is robust from above, else the first that is not, and why.
    ensures verdict { IsRobustAboveVerdict
        (around (C.table cells.now) distance.t_by distance.o_by distance.r_by)
        (controller_of (C.table cells.now) graph.now vectors.now) result }

    // Yes exactly if these vectors pass from above in every model that lies within.
    ensures exact { (result ≡ Yes) ↔ PassesAboveInEveryModel
        (around (C.table cells.now) distance.t_by distance.o_by distance.r_by)
        (controller_of (C.table cells.now) graph.now vectors.now) }

    // The promise from above for every horizon in every such model, or that one step breaks it in one.
    ensures horizon { MeetsHorizonAboveInEveryModel
        (around (C.table cells.now) distance.t_by distance.o_by distance.r_by)
        (controller_of (C.table cells.now) graph.now vectors.now) result }
{
    check_robust_above_watched(cells, graph, vectors, distance, &mut NoProgress)
}

/// Checks as `check_robust_above`, and notifies `progress` of each node when all of its pairs have passed.
// (Not inlined, so that its buffers are off the stack after the call.)
#[inline(never)]
pub fn check_robust_above_watched<C: Cells, W: Progress>(
    cells: &C,
    graph: &Graph,
    vectors: &Vectors,
    distance: Distance,
    progress: &mut W,
) -> AboveVerdict
    requires fits { Fits (C.table cells.now) graph.now vectors.now }
    ensures verdict { IsRobustAboveVerdict
        (around (C.table cells.now) distance.t_by distance.o_by distance.r_by)
        (controller_of (C.table cells.now) graph.now vectors.now) result }
    ensures exact { (result ≡ Yes) ↔ PassesAboveInEveryModel
        (around (C.table cells.now) distance.t_by distance.o_by distance.r_by)
        (controller_of (C.table cells.now) graph.now vectors.now) }
    ensures horizon { MeetsHorizonAboveInEveryModel
        (around (C.table cells.now) distance.t_by distance.o_by distance.r_by)
        (controller_of (C.table cells.now) graph.now vectors.now) result }
{
    let nodes = graph.nodes();
    let vector_count = vectors.nodes();
    prove!(nodes == vector_count);
    let input = RobustInput {
        cells,
        graph,
        vectors,
        distance,
        side: Side::Above,
    };
    above_from_below(first_robust_failure(&input, &mut PairBuffers::new(), progress))
}
