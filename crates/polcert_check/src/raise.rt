//! The least constant by which all vectors can be raised to pass from above.
ghost use Rattle.std.specs.Prelude.{◌≡◌, IfOk, IfErr};
ghost use Rattle.polcert_check.specs.Horizon.{Fits, controller_of};
ghost use Rattle.polcert_check.specs.Raise.{IsLeastRaise, IsNotRaised, RefusesSmallRaise, IsRaised, RefusesToRaise};
ghost use Rattle.polcert_check.specs.Steps.Leasts.{IsRaiseAnswer};
ghost use Rattle.polcert_check.specs.Steps.Mirrored.{raise_of};

use crate::check_input::CheckInput;
use crate::fault::{LowerFault, RaiseFault};
use crate::findings::Side;
use crate::lower::least_of;
use crate::survey::{NoProgress, Progress};
use polcert_model::Cells;
use polcert_policy::{Graph, Vectors};
use std::alloc::Global;

/// Returns the same reason as a refusal to raise: the search for the constant, which both sides share, gives refusals to lower.
fn raise_of(fault: LowerFault) -> RaiseFault
    ensures { result ≡ raise_of fault }
{
    match fault {
        LowerFault::NoConstant {
            node,
            state,
            amount,
        } => RaiseFault::NoConstant {
            node,
            state,
            amount,
        },
        LowerFault::OutOfRange => RaiseFault::OutOfRange,
        LowerFault::NoSuccessor {
            node,
            state,
            observation,
        } => RaiseFault::NoSuccessor {
            node,
            state,
            observation,
        },
        LowerFault::Memory => RaiseFault::Memory,
    }
}

/// Returns the least constant, in millionths, by which all vectors can be raised so that they pass the check from above. (The programs call
/// `raised_watched`.)
///
/// # Errors
///
/// If an observation that can be received has no successor, if the discount is 1 and a value is too low, and if the
/// least constant takes a value out of range. It takes no memory.
pub fn least_raise<C: Cells>(cells: &C, graph: &Graph, vectors: &Vectors) -> Result<i64, RaiseFault>
    requires fits { Fits (C.table cells.now) graph.now vectors.now }
    ensures least { IfOk result
        (IsLeastRaise (controller_of (C.table cells.now) graph.now vectors.now) vectors.now) }
    ensures refused { IfErr result
        (IsNotRaised (controller_of (C.table cells.now) graph.now vectors.now) vectors.now) }
    ensures small { IfErr result
        (RefusesSmallRaise (controller_of (C.table cells.now) graph.now vectors.now)) }
{
    least_raise_watched(cells, graph, vectors, &mut NoProgress)
}

/// Returns what `least_raise` does, and notifies `progress` of each node once.
fn least_raise_watched<C: Cells, W: Progress>(
    cells: &C,
    graph: &Graph,
    vectors: &Vectors,
    progress: &mut W,
) -> Result<i64, RaiseFault>
    requires { Fits (C.table cells.now) graph.now vectors.now }
    ensures { IsRaiseAnswer (controller_of (C.table cells.now) graph.now vectors.now) vectors.now result }
{
    let input = CheckInput::new(Side::Above, cells, graph, vectors);
    match least_of(&input, progress) {
        Ok(by) => Ok(by),
        Err(fault) => Err(raise_of(fault)),
    }
}

/// Returns the least constant, in millionths, by which all vectors can be raised so that they pass the check from above, and the vectors
/// raised by it. (The programs call `raised_watched`.)
///
/// # Errors
///
/// If there is no such constant, as `least_raise` says, and if memory ran out.
pub fn raised<C: Cells>(
    alloc: Global,
    cells: &C,
    graph: &Graph,
    vectors: &Vectors,
) -> Result<(i64, Vectors), RaiseFault>
    requires fits { Fits (C.table cells.now) graph.now vectors.now }

    // The least constant, and with the raised vectors every pair passes from above.
    ensures raised { IfOk result (IsRaised (C.table cells.now) graph.now vectors.now) }

    // Out of memory is answered only if there is such a constant.
    ensures not_raised { IfErr result (RefusesToRaise (C.table cells.now) graph.now vectors.now) }
{
    raised_watched(alloc, cells, graph, vectors, &mut NoProgress)
}

/// Raises as `raised`, and notifies `progress` of each node once.
pub fn raised_watched<C: Cells, W: Progress>(
    alloc: Global,
    cells: &C,
    graph: &Graph,
    vectors: &Vectors,
    progress: &mut W,
) -> Result<(i64, Vectors), RaiseFault>
    requires fits { Fits (C.table cells.now) graph.now vectors.now }
    ensures raised { IfOk result (IsRaised (C.table cells.now) graph.now vectors.now) }
    ensures not_raised { IfErr result (RefusesToRaise (C.table cells.now) graph.now vectors.now) }
{
    let nodes = graph.nodes();
    let vector_count = vectors.nodes();
    prove!(nodes == vector_count);
    let by = least_raise_watched(cells, graph, vectors, progress)?;
    let raised = vectors.shifted(alloc, by)?;
    Ok((by, raised))
}
