//! The least constant by which upper bounds pass in every model near the text's.
ghost use Rattle.std.specs.Prelude.{◌≡◌, IfErr, IfOk};
ghost use Rattle.polcert_check.specs.Horizon.{Fits, controller_of};
ghost use Rattle.polcert_check.specs.Steps.Mirrored.{raise_of};
ghost use Rattle.polcert_robust.specs.Intervals.{around};
ghost use Rattle.polcert_robust.specs.RobustRaise.{IsLeastRaising, IsLeastRobustRaise, IsNotRaisedRobustly, IsRaisedRobustly};
ghost use Rattle.polcert_robust.specs.RobustRaise.{RefusesToRaiseRobustly};

use crate::distance::Distance;
use crate::robust_input::RobustInput;
use crate::robust_lower::least_robust_of;
use crate::side::Side;
use polcert_cells::Cells;
use polcert_check::{LowerFault, Progress, RaiseFault};
use polcert_policy::{Graph, Vectors};
use std::alloc::Global;

/// Returns the same reason as a refusal to raise: the search for the constant, which both sides share, gives refusals to lower.
fn robust_raise_fault(fault: LowerFault) -> RaiseFault
    ensures { result ≡ raise_of fault }
{
    match fault {
        LowerFault::NoConstant {
            node,
            state,
            amount,
        } => RaiseFault::NoConstant {
            node,
            state,
            amount,
        },
        LowerFault::OutOfRange => RaiseFault::OutOfRange,
        LowerFault::NoSuccessor {
            node,
            state,
            observation,
        } => RaiseFault::NoSuccessor {
            node,
            state,
            observation,
        },
        LowerFault::Memory => RaiseFault::Memory,
    }
}

/// Returns the least constant, in millionths, by which all vectors can be raised so that they pass from above in every model near the
/// text's.
///
/// # Errors
///
/// If an observation that may be received has no successor, if the discount is 1 and a value is too low, and if the least constant takes a
/// value out of range. It takes no memory.
pub fn least_robust_raise<C: Cells, W: Progress>(
    cells: &C,
    graph: &Graph,
    vectors: &Vectors,
    distance: Distance,
    progress: &mut W,
) -> Result<i64, RaiseFault>
    requires fits { Fits (C.table cells.now) graph.now vectors.now }

    // The least constant by which every pair is robust from above, which leaves every value in range.
    ensures least { IfOk result (IsLeastRobustRaise
        (around (C.table cells.now) distance.t_by distance.o_by distance.r_by)
        (controller_of (C.table cells.now) graph.now vectors.now) vectors.now) }

    // It is the least by which they pass from above in every model that lies within.
    ensures exact { IfOk result (IsLeastRaising
        (around (C.table cells.now) distance.t_by distance.o_by distance.r_by)
        (controller_of (C.table cells.now) graph.now vectors.now) vectors.now) }

    // Why there is none.
    ensures refused { IfErr result (IsNotRaisedRobustly
        (around (C.table cells.now) distance.t_by distance.o_by distance.r_by)
        (controller_of (C.table cells.now) graph.now vectors.now) vectors.now) }
{
    let nodes = graph.nodes();
    let vector_count = vectors.nodes();
    prove!(nodes == vector_count);
    let input = RobustInput {
        cells,
        graph,
        vectors,
        distance,
        side: Side::Above,
    };
    match least_robust_of(&input, progress) {
        Ok(by) => Ok(by),
        Err(fault) => Err(robust_raise_fault(fault)),
    }
}

/// Returns the least constant as `least_robust_raise`, and the vectors raised by it.
///
/// # Errors
///
/// If there is no such constant, as `least_robust_raise` says, and if memory ran out.
// (Six parameters: those of `least_robust_raise`, and the allocator.)
pub fn raised_robustly<C: Cells, W: Progress>(
    alloc: Global,
    cells: &C,
    graph: &Graph,
    vectors: &Vectors,
    distance: Distance,
    progress: &mut W,
) -> Result<(i64, Vectors), RaiseFault>
    requires fits { Fits (C.table cells.now) graph.now vectors.now }

    // The least constant by which they pass from above in every model that lies within, and the raised
    // vectors.
    ensures raised { IfOk result (IsRaisedRobustly
        (around (C.table cells.now) distance.t_by distance.o_by distance.r_by)
        (C.table cells.now) graph.now vectors.now) }

    // Out of memory is answered only if there is such a constant.
    ensures not_raised { IfErr result (RefusesToRaiseRobustly
        (around (C.table cells.now) distance.t_by distance.o_by distance.r_by)
        (controller_of (C.table cells.now) graph.now vectors.now) vectors.now) }
{
    let nodes = graph.nodes();
    let vector_count = vectors.nodes();
    prove!(nodes == vector_count);
    let by = least_robust_raise(cells, graph, vectors, distance, progress)?;
    let raised = vectors.shifted(alloc, by)?;
    Ok((by, raised))
}
