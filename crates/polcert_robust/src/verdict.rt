//! The check of vectors in every model near the text's.
ghost use Rattle.std.specs.Prelude.{◌≡◌, ◌↔◌, length};
ghost use Rattle.polcert_cells.specs.declared.elements.TheConstants.{MOST_OBSERVATIONS, MOST_STATES};
ghost use Rattle.polcert_check.specs.Horizon.{Fits, controller_of};
ghost use Rattle.polcert_check.specs.declared.survey.Verdict.TheVariants.{Yes};
ghost use Rattle.polcert_robust.specs.Intervals.{around};
ghost use Rattle.polcert_robust.specs.RobustVerdict.{IsRobustVerdict, MeetsHorizonInEveryModel, PassesInEveryModel};

use crate::buffers::PairBuffers;
use crate::distance::Distance;
use crate::robust_input::RobustInput;
use crate::side::Side;
use crate::walk::first_robust_failure;
use polcert_cells::Cells;
use polcert_check::{NoProgress, Progress, Verdict};
use polcert_policy::{Graph, Vectors};

/// Checks that the backup of one step reaches each value in every model near the text's: each probability above 0 and each reward within
/// its distance. Returns the first pair of a node and a state that fails, if one does. (The programs call `check_robust_watched`.)
///
/// A probability of 0 stays 0, the discount is known, and the graph is fixed. The amount by which a pair is short is that under its worst
/// rows, on the scale of `polcert_check::Verdict`. It takes no memory.
pub fn check_robust<C: Cells>(
    cells: &C,
    graph: &Graph,
    vectors: &Vectors,
    distance: Distance,
) -> Verdict
    requires fits { Fits (C.table cells.now) graph.now vectors.now }

    // Yes if every pair is robust, else the first that is not, and why.
    ensures verdict { IsRobustVerdict (around (C.table cells.now) distance.t_by distance.o_by distance.r_by)
        (controller_of (C.table cells.now) graph.now vectors.now) result }

    // Yes exactly if these vectors pass in every model that lies within.
    ensures exact { (result ≡ Yes) ↔ PassesInEveryModel
        (around (C.table cells.now) distance.t_by distance.o_by distance.r_by)
        (controller_of (C.table cells.now) graph.now vectors.now) }

    // The promise for every horizon in every such model, or that one step breaks it in one of them.
    ensures horizon { MeetsHorizonInEveryModel
        (around (C.table cells.now) distance.t_by distance.o_by distance.r_by)
        (controller_of (C.table cells.now) graph.now vectors.now) result }
{
    check_robust_watched(cells, graph, vectors, distance, &mut NoProgress)
}

/// Checks as `check_robust`, and notifies `progress` of each node when all of its pairs have passed.
// (Not inlined, so that its buffers are off the stack after the call.)
#[inline(never)]
pub fn check_robust_watched<C: Cells, W: Progress>(
    cells: &C,
    graph: &Graph,
    vectors: &Vectors,
    distance: Distance,
    progress: &mut W,
) -> Verdict
    requires fits { Fits (C.table cells.now) graph.now vectors.now }
    ensures verdict { IsRobustVerdict (around (C.table cells.now) distance.t_by distance.o_by distance.r_by)
        (controller_of (C.table cells.now) graph.now vectors.now) result }
    ensures exact { (result ≡ Yes) ↔ PassesInEveryModel
        (around (C.table cells.now) distance.t_by distance.o_by distance.r_by)
        (controller_of (C.table cells.now) graph.now vectors.now) }
    ensures horizon { MeetsHorizonInEveryModel
        (around (C.table cells.now) distance.t_by distance.o_by distance.r_by)
        (controller_of (C.table cells.now) graph.now vectors.now) result }
{
    let nodes = graph.nodes();
    let vector_count = vectors.nodes();
    prove!(nodes == vector_count);
    let input = RobustInput {
        cells,
        graph,
        vectors,
        distance,
        side: Side::Below,
    };
    first_robust_failure(&input, &mut PairBuffers::new(), progress)
}
