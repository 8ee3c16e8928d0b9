//! The least constant by which vectors pass in every model near the text's.
ghost use Rattle.std.specs.Prelude.{◌≡◌, ◌+◌, ◌*◌, ◌<◌, ◌≤◌, ℕ, pos, neg_ℤ, ◌+ℤ◌, ◌↔◌, IsTrue, IfErr, IfOk};
ghost use Rattle.polcert_policy.specs.Vectors.{IsInRange};
ghost use Rattle.polcert_check.specs.Horizon.{Fits, controller_of, one};
ghost use Rattle.polcert_check.specs.Steps.Findings.{IsLowerRefusal};
ghost use Rattle.polcert_check.specs.declared.survey.Verdict.TheVariants.{Yes};
ghost use Rattle.polcert_robust.specs.Intervals.{around};
ghost use Rattle.polcert_robust.specs.RobustLower.{IsLeastLowering, IsLeastRobust, IsLeastRobustConstant, IsLoweredRobustly};
ghost use Rattle.polcert_robust.specs.RobustLower.{IsNotLoweredRobustly, IsNotMendedRobustly, NoneMayLack, RefusesToLowerRobustly};
ghost use Rattle.polcert_robust.specs.Steps.Moves.{CanMoveBy, IsLeastRobustMove};
ghost use Rattle.polcert_robust.specs.Steps.Pairs.{cells_of, near_controller, near_table};
ghost use Rattle.polcert_robust.specs.Steps.Sides.{turned};
ghost use Rattle.polcert_robust.specs.Steps.Surveys.{IsSurveyedBefore};

use crate::buffers::PairBuffers;
use crate::distance::Distance;
use crate::findings::RobustFindings;
use crate::robust_input::RobustInput;
use crate::side::Side;
use crate::survey::survey_robust;
use polcert_cells::Cells;
use polcert_check::one_step::ceil_quotient;
use polcert_check::{LowerFault, Progress, Verdict};
use polcert_policy::{Graph, Vectors};
use std::alloc::Global;

/// Tests whether the value less `by` is in range.
fn is_lowered_in_range(value: i64, by: u128) -> bool
    requires { IsInRange value }
    ensures { IsTrue result ↔ IsInRange (value +ℤ neg_ℤ (pos by)) }
{
    (value as i128 + 10_000_000_000_000) as u128 >= by
}

/// Tests whether the value less `by` (from above: the value plus `by`) is in range.
fn is_moved_in_range(side: Side, value: i64, by: u128) -> bool
    requires { IsInRange value }
    ensures { IsTrue result ↔ IsInRange (turned side value +ℤ neg_ℤ (pos by)) }
{
    is_lowered_in_range(side.turned(value), by)
}

/// Tests whether every value less `by` (from above: every value plus `by`) is in range.
fn stays_in_range_moved(side: Side, vectors: &Vectors, by: u128) -> bool
    ensures { IsTrue result ↔ CanMoveBy side vectors.now by }
{
    for n in 0..vectors.nodes() {
        for s in 0..vectors.states() {
            if !is_moved_in_range(side, vectors.at(n, s), by) {
                return false;
            }
        }
    }
    true
}

/// Returns the least constant for a discount below 1, which the caller has tested, whether or not it leaves the values in range.
fn least_robust_below_one<C: Cells>(input: &RobustInput<'_, C>, findings: RobustFindings) -> u128
    requires found { IsSurveyedBefore (near_table input.now) (near_controller input.now)
        (near_controller input.now).nodes 0 findings }
    requires discount { (cells_of input.now).discount < one }
    ensures { IsLeastRobust (near_table input.now) (near_controller input.now) result }
{
    let cells = input.cells;
    let scale = (cells.t_scale() * cells.o_scale()) as u128;
    ceil_quotient(
        findings.worst,
        scale * (1_000_000 - cells.discount()) as u128,
    )
}

/// Returns the reason why vectors with this verdict are not lowered if the discount is 1.
fn refuse_undiscounted(verdict: Verdict) -> Result<(), LowerFault>
    ensures passes { IfOk result (λ _. verdict ≡ Yes) }
    ensures refused { IfErr result (IsLowerRefusal verdict) }
{
    match verdict {
        Verdict::Yes => Ok(()),
        Verdict::Short {
            node,
            state,
            amount,
        } => Err(LowerFault::NoConstant {
            node,
            state,
            amount,
        }),
        Verdict::NoSuccessor {
            node,
            state,
            observation,
        } => Err(LowerFault::NoSuccessor {
            node,
            state,
            observation,
        }),
    }
}

/// Returns the least constant by which the vectors pass, whether or not it leaves the values in range.
fn least_passing_robustly<C: Cells>(
    input: &RobustInput<'_, C>,
    findings: RobustFindings,
) -> Result<u128, LowerFault>
    requires found { IsSurveyedBefore (near_table input.now) (near_controller input.now)
        (near_controller input.now).nodes 0 findings }
    ensures least { IfOk result (IsLeastRobust (near_table input.now) (near_controller input.now)) }
    ensures none { IfOk result (λ _. NoneMayLack (near_table input.now) (near_controller input.now)) }
    ensures refused { IfErr result (IsNotMendedRobustly (near_table input.now) (near_controller input.now)
        (CanMoveBy input.now.side input.now.vectors.now)) }
{
    if input.cells.discount() < 1_000_000 {
        return Ok(least_robust_below_one(input, findings));
    }
    refuse_undiscounted(findings.first)?;
    Ok(0)
}

/// Returns the least constant, in millionths, by which all values are to be moved so that they pass (lowered, or from above raised), and
/// notifies `progress` of each node once.
#[inline(never)]
pub(crate) fn least_robust_of<C: Cells, W: Progress>(
    input: &RobustInput<'_, C>,
    progress: &mut W,
) -> Result<i64, LowerFault>
    ensures least { IfOk result (IsLeastRobustMove (near_table input.now) (near_controller input.now)
        (CanMoveBy input.now.side input.now.vectors.now)) }
    ensures refused { IfErr result (IsNotMendedRobustly (near_table input.now) (near_controller input.now)
        (CanMoveBy input.now.side input.now.vectors.now)) }
{
    let findings = survey_robust(input, &mut PairBuffers::new(), progress)?;
    let by = least_passing_robustly(input, findings)?;
    if stays_in_range_moved(input.side, input.vectors, by) {
        Ok(by as i64)
    } else {
        Err(LowerFault::OutOfRange)
    }
}

/// Returns the least constant, in millionths, by which all vectors can be lowered so that they pass in every model near the text's.
///
/// # Errors
///
/// If an observation that may be received has no successor, if the discount is 1 and a value is short, and if the least constant takes a
/// value out of range. It takes no memory.
pub fn least_robust_constant<C: Cells, W: Progress>(
    cells: &C,
    graph: &Graph,
    vectors: &Vectors,
    distance: Distance,
    progress: &mut W,
) -> Result<i64, LowerFault>
    requires fits { Fits (C.table cells.now) graph.now vectors.now }

    // The least constant by which every pair is robust, which leaves every value in range.
    ensures least { IfOk result (IsLeastRobustConstant
        (around (C.table cells.now) distance.t_by distance.o_by distance.r_by)
        (controller_of (C.table cells.now) graph.now vectors.now) vectors.now) }

    // It is the least by which they pass in every model that lies within.
    ensures exact { IfOk result (IsLeastLowering
        (around (C.table cells.now) distance.t_by distance.o_by distance.r_by)
        (controller_of (C.table cells.now) graph.now vectors.now) vectors.now) }

    // Why there is none.
    ensures refused { IfErr result (IsNotLoweredRobustly
        (around (C.table cells.now) distance.t_by distance.o_by distance.r_by)
        (controller_of (C.table cells.now) graph.now vectors.now) vectors.now) }
{
    let nodes = graph.nodes();
    let vector_count = vectors.nodes();
    prove!(nodes == vector_count);
    let input = RobustInput {
        cells,
        graph,
        vectors,
        distance,
        side: Side::Below,
    };
    least_robust_of(&input, progress)
}

/// Returns the least constant as `least_robust_constant`, and the vectors lowered by it.
///
/// # Errors
///
/// If there is no such constant, as `least_robust_constant` says, and if memory ran out.
// (Six parameters: those of `least_robust_constant`, and the allocator.)
pub fn lowered_robustly<C: Cells, W: Progress>(
    alloc: Global,
    cells: &C,
    graph: &Graph,
    vectors: &Vectors,
    distance: Distance,
    progress: &mut W,
) -> Result<(i64, Vectors), LowerFault>
    requires fits { Fits (C.table cells.now) graph.now vectors.now }

    // The least constant by which they pass in every model that lies within, and the lowered vectors.
    ensures lowered { IfOk result (IsLoweredRobustly
        (around (C.table cells.now) distance.t_by distance.o_by distance.r_by)
        (C.table cells.now) graph.now vectors.now) }

    // Out of memory is answered only if there is such a constant.
    ensures not_lowered { IfErr result (RefusesToLowerRobustly
        (around (C.table cells.now) distance.t_by distance.o_by distance.r_by)
        (controller_of (C.table cells.now) graph.now vectors.now) vectors.now) }
{
    let nodes = graph.nodes();
    let vector_count = vectors.nodes();
    prove!(nodes == vector_count);
    let by = least_robust_constant(cells, graph, vectors, distance, progress)?;
    let lowered = vectors.shifted(alloc, -by)?;
    Ok((by, lowered))
}
