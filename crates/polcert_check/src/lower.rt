//! The least constant by which all vectors can be lowered to pass.
ghost use Rattle.std.specs.Prelude.{◌≡◌, ◌<◌, ◌≤◌, pos, neg_ℤ, ◌+ℤ◌, ◌↔◌, IsTrue, IfOk, IfErr};
ghost use Rattle.polcert_policy.specs.Vectors.{IsInRange};
ghost use Rattle.polcert_check.specs.Steps.CheckInput.{checked_controller};
ghost use Rattle.polcert_check.specs.Horizon.{Fits, controller_of, one};
ghost use Rattle.polcert_check.specs.Lower.{NoneLacks, IsLeast, IsLeastConstant, IsNotMended, IsNotLowered, RefusesSmallAmount, IsLowered, RefusesToLower};
ghost use Rattle.polcert_check.specs.Steps.Leasts.{IsLowerAnswer};
ghost use Rattle.polcert_check.specs.Steps.Mirrored.{CanMove, IsLeastMove};
ghost use Rattle.polcert_check.specs.Steps.Findings.{IsFound, IsPair, IsLowerRefusal, IsWorstOf};
ghost use Rattle.polcert_check.specs.declared.findings.Mode.TheVariants.{Lowering};
ghost use Rattle.polcert_check.specs.declared.survey.Verdict.TheVariants.{Yes};

use crate::check_input::CheckInput;
use crate::fault::LowerFault;
use crate::findings::{Findings, Mode, Side};
use crate::shortfall::ceil_quotient;
use crate::survey::{NoProgress, Progress, Verdict, survey};
use polcert_model::Cells;
use polcert_policy::{Graph, Vectors};
use std::alloc::Global;

/// Tests whether the value less `by` is in range.
fn is_low_enough(value: i64, by: u128) -> bool
    requires { IsInRange value }
    ensures { IsTrue result ↔ IsInRange (value +ℤ neg_ℤ (pos by)) }
{
    (value as i128 + 10_000_000_000_000) as u128 >= by
}

/// Tests whether every value less `by` (from above: every value plus `by`) is in range.
fn stays_in_range(side: Side, vectors: &Vectors, by: u128) -> bool
    ensures { IsTrue result ↔ CanMove side vectors.now by }
{
    for n in 0..vectors.nodes() {
        for s in 0..vectors.states() {
            if !is_low_enough(side.signed_value(vectors.at(n, s)), by) {
                return false;
            }
        }
    }
    true
}

/// Returns the least constant for a discount below 1, which the caller has tested, whether or not it leaves the values in range.
fn candidate<C: Cells>(input: &CheckInput<'_, C>, worst: u128) -> u128
    requires none { NoneLacks (checked_controller input.now) }
    requires worst { IsWorstOf (checked_controller input.now) (IsPair (checked_controller input.now)) worst }
    requires discount { (checked_controller input.now).cells.discount < one }
    ensures { IsLeast (checked_controller input.now) result }
{
    let cells = input.cells;
    let scale = (cells.t_scale() * cells.o_scale()) as u128;
    ceil_quotient(worst, scale * (1_000_000 - cells.discount()) as u128)
}

/// Returns an error that says why no lowering mends this finding, if it is a no.
fn refused(verdict: Verdict) -> Result<(), LowerFault>
    ensures passes { IfOk result (λ _. verdict ≡ Yes) }
    ensures refused { IfErr result (IsLowerRefusal verdict) }
{
    match verdict {
        Verdict::Yes => Ok(()),
        Verdict::Short {
            node,
            state,
            amount,
        } => Err(LowerFault::NoConstant {
            node,
            state,
            amount,
        }),
        Verdict::NoSuccessor {
            node,
            state,
            observation,
        } => Err(LowerFault::NoSuccessor {
            node,
            state,
            observation,
        }),
    }
}

/// Returns the least constant by which the vectors pass, whether or not it leaves the values in range.
fn least_passing<C: Cells>(
    input: &CheckInput<'_, C>,
    findings: Findings,
) -> Result<u128, LowerFault>
    requires mode { findings.mode ≡ Lowering }
    requires found { IsFound (checked_controller input.now) (IsPair (checked_controller input.now)) findings }
    ensures least { IfOk result (IsLeast (checked_controller input.now)) }
    ensures none { IfOk result (λ _. NoneLacks (checked_controller input.now)) }
    ensures refused { IfErr result
        (IsNotMended (checked_controller input.now) (CanMove input.now.side input.now.vectors.now)) }
{
    refused(findings.first)?;
    if input.cells.discount() < 1_000_000 {
        return Ok(candidate(input, findings.worst));
    }
    refused(findings.short)?;
    Ok(0)
}

/// Returns the least constant, in millionths, by which all vectors can be lowered so that they pass the check. (The programs call
/// `lowered_watched`.)
///
/// # Errors
///
/// If an observation that can be received has no successor, if the discount is 1 and a value is short, and if the
/// least constant takes a value out of range. It takes no memory.
pub fn least_constant<C: Cells>(
    cells: &C,
    graph: &Graph,
    vectors: &Vectors,
) -> Result<i64, LowerFault>
    requires fits { Fits (C.table cells.now) graph.now vectors.now }
    ensures least { IfOk result
        (IsLeastConstant (controller_of (C.table cells.now) graph.now vectors.now) vectors.now) }
    ensures refused { IfErr result
        (IsNotLowered (controller_of (C.table cells.now) graph.now vectors.now) vectors.now) }
    ensures small { IfErr result
        (RefusesSmallAmount (controller_of (C.table cells.now) graph.now vectors.now)) }
{
    least_lowering_watched(cells, graph, vectors, &mut NoProgress)
}

/// Returns the least constant, in millionths, by which all values are to be moved so that they pass (lowered, or from above raised), and
/// notifies `progress` of each node once.
pub(crate) fn least_of<C: Cells, W: Progress>(
    input: &CheckInput<'_, C>,
    progress: &mut W,
) -> Result<i64, LowerFault>
    ensures least { IfOk result
        (IsLeastMove (checked_controller input.now) (CanMove input.now.side input.now.vectors.now)) }
    ensures refused { IfErr result
        (IsNotMended (checked_controller input.now) (CanMove input.now.side input.now.vectors.now)) }
    ensures small { IfErr result (RefusesSmallAmount (checked_controller input.now)) }
{
    let findings = survey(input, Mode::Lowering, progress);
    let by = least_passing(input, findings)?;
    if stays_in_range(input.side, input.vectors, by) {
        Ok(by as i64)
    } else {
        Err(LowerFault::OutOfRange)
    }
}

/// Returns what `least_constant` does, and notifies `progress` of each node once.
fn least_lowering_watched<C: Cells, W: Progress>(
    cells: &C,
    graph: &Graph,
    vectors: &Vectors,
    progress: &mut W,
) -> Result<i64, LowerFault>
    requires { Fits (C.table cells.now) graph.now vectors.now }
    ensures { IsLowerAnswer (controller_of (C.table cells.now) graph.now vectors.now) vectors.now result }
{
    least_of(
        &CheckInput::new(Side::Below, cells, graph, vectors),
        progress,
    )
}

/// Returns the least constant, in millionths, by which all vectors can be lowered so that they pass the check, and the vectors lowered by
/// it. (The programs call `lowered_watched`.)
///
/// # Errors
///
/// If there is no such constant, as `least_constant` says, and if memory ran out.
pub fn lowered<C: Cells>(
    alloc: Global,
    cells: &C,
    graph: &Graph,
    vectors: &Vectors,
) -> Result<(i64, Vectors), LowerFault>
    requires fits { Fits (C.table cells.now) graph.now vectors.now }

    // The least constant, and with the lowered vectors every pair passes.
    ensures lowered { IfOk result (IsLowered (C.table cells.now) graph.now vectors.now) }

    // Out of memory is answered only if there is such a constant.
    ensures not_lowered { IfErr result (RefusesToLower (C.table cells.now) graph.now vectors.now) }
{
    lowered_watched(alloc, cells, graph, vectors, &mut NoProgress)
}

/// Lowers as `lowered`, and notifies `progress` of each node once.
pub fn lowered_watched<C: Cells, W: Progress>(
    alloc: Global,
    cells: &C,
    graph: &Graph,
    vectors: &Vectors,
    progress: &mut W,
) -> Result<(i64, Vectors), LowerFault>
    requires fits { Fits (C.table cells.now) graph.now vectors.now }
    ensures lowered { IfOk result (IsLowered (C.table cells.now) graph.now vectors.now) }
    ensures not_lowered { IfErr result (RefusesToLower (C.table cells.now) graph.now vectors.now) }
{
    let nodes = graph.nodes();
    let vector_count = vectors.nodes();
    prove!(nodes == vector_count);
    let by = least_lowering_watched(cells, graph, vectors, progress)?;
    let lowered = vectors.shifted(alloc, -by)?;
    Ok((by, lowered))
}
