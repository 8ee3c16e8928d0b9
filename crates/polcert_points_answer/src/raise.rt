//! The run that raises points, so that they pass with raised vectors.
ghost use Rattle.std.specs.Prelude.{◌≡◌, ◌≢◌, ◌≤◌, ℤ, IfOk, IfErr, IsErrOf};
ghost use Rattle.polcert_cells.specs.Tables.{table_of};
ghost use Rattle.polcert_model.specs.Contents.{meaning};
ghost use Rattle.polcert_policy.specs.Vectors.{shifted_by, value_of};
ghost use Rattle.polcert_check.specs.declared.fault.RaiseFault.{RaiseFault};
ghost use Rattle.polcert_optimum.specs.InformedCheck.{FitActions};
ghost use Rattle.polcert_optimum.specs.InformedRaise.{IsRaiseConstant};
ghost use Rattle.polcert_text.specs.Sink.{WritesText};
ghost use Rattle.polcert_points_form.specs.FullForm.{points_text};
ghost use Rattle.polcert_points_form.specs.RaisedSet.{CanRaisePoints, HasAllValues, raised_set};
ghost use Rattle.polcert_points.specs.PointTable.{FitPoints, table_of_set};
ghost use Rattle.polcert_points.specs.RaisedPoints.{IsLeastPointRaise};
ghost use Rattle.polcert_answer.specs.Run.{WritesAnswer, IsNamedRightly, text_of};
ghost use Rattle.polcert_bound_answer.specs.Raise.{IsWhyNotBoundRaised, raise_fault};
ghost use Rattle.polcert_points_answer.specs.Run.{StopsPointsRightly};
ghost use Rattle.polcert_points_answer.specs.Raise.{ArePointsNotRaisable, HasRaisedPoints, IsPointRaiseFault, IsWhyPointsNotRaised};
ghost use Rattle.polcert_points_answer.specs.Steps.Raising.{ArePointsRaised, IsNoRoomForPoints, IsPointRaiseWriteFault};

use crate::answer::room_for_charges;
use crate::inputs::{PointInputs, read_point_inputs};
use polcert_answer::RunFault;
use polcert_check::RaiseFault;
use polcert_optimum::{InformedRaiseFault, least_informed_raise};
use polcert_points::least_point_raise;
use polcert_points_form::write_raised_points;
use polcert_policy::{PointSet, Vectors};
use polcert_text::{BufferedSink, Sink, SinkFailed, Source};
use std::alloc::{AllocError, Global};

/// Reads a model, vectors, one for each of its actions, each value rounded up, and belief points from three sources. Raises the vectors by
/// the least constant by which they pass, and the points by the least constant by which they pass with the raised vectors; writes the raised
/// points in full form, and nothing else, and returns their constant, in millionths. Nothing is written before all texts are accepted and
/// the constant is known.
///
/// # Errors
///
/// `Text` if a text is refused or memory runs out, `ReadModel`, `ReadVectors` or `ReadPoints` if a read of that source failed, `Write` if a
/// write failed, and `Raise` if the vectors can't be raised to pass (its node stands for the action), if no constant makes the points pass
/// with every value in range (`OutOfRange`), or if memory ran out for either.
// (Five parameters: each of the devices is of a type of its own.)
pub fn run_point_raise<M: Source, V: Source, P: Source, W: Sink>(
    alloc: Global,
    model: &mut M,
    vectors: &mut V,
    points: &mut P,
    sink: &mut W,
) -> Result<u64, RunFault>
    // The sink took exactly the raised points in full form, or if a write failed, a beginning of them. With the
    // vectors that a raise of these alone prints, the answer is yes, and the headline holds: unless the points
    // are longer than a text may be. So it is with the vectors as they are, if they pass.
    ensures raised { WritesAnswer W.writes (HasRaisedPoints (text_of M.reads model.old model.new)
        (text_of V.reads vectors.old vectors.new) (text_of P.reads points.old points.new))
        result sink.old sink.new }

    // So it fits in 64 bits with a sign.
    ensures small { IfOk result (λ by. by ≤ 20_000_000_000_000) }

    // Raising is refused only if all texts are accepted, for a right reason.
    ensures not_raised { (fault : _) → IsErrOf result (RunFault.Raise fault)
        → ArePointsNotRaisable (text_of M.reads model.old model.new)
        (text_of V.reads vectors.old vectors.new) (text_of P.reads points.old points.new) fault }

    // The first text that is none of its kind is refused, for a right reason. An I/O error is reported
    // exactly if one occurred. Each source is read to its end before the next. With any other fault than that
    // of a write nothing was written.
    ensures stops { StopsPointsRightly result
        M.reads M.failures model.old model.new
        V.reads V.failures vectors.old vectors.new
        P.reads P.failures points.old points.new
        W.failures sink.old sink.new }

    // No fault of another kind is answered.
    ensures of_a_raise { IfErr result IsPointRaiseFault }
{
    let read = read_point_inputs(alloc, model, vectors, points)?;
    write_raised(alloc, &read, sink)
}

/// Raises the points of what three texts denote, writes them, and returns their constant.
fn write_raised<W: Sink>(alloc: Global, read: &PointInputs, sink: &mut W) -> Result<u64, RunFault>
    requires vectors { FitActions (table_of (meaning read.now.bound.model)) read.now.bound.vectors }
    requires points { FitPoints (table_of (meaning read.now.bound.model)) (table_of_set read.now.points) }
    requires all_values { HasAllValues read.now.points }
    ensures raised { WritesAnswer W.writes (ArePointsRaised (meaning read.now.bound.model)
        read.now.bound.vectors read.now.points) result sink.old sink.new }
    ensures small { IfOk result (λ by. by ≤ 20_000_000_000_000) }
    ensures not_raised { (fault : RaiseFault) → IsErrOf result (RunFault.Raise fault)
        → IsWhyPointsNotRaised (table_of (meaning read.now.bound.model)) read.now.bound.vectors
        read.now.points fault }
    ensures write { IsNamedRightly (IsErrOf result RunFault.Write)
        (W.failures sink.old) (W.failures sink.new) }
    ensures untouched { (fault : RunFault) → IsErrOf result fault
        → fault ≢ RunFault.Write → sink.new ≡ sink.old }
    ensures of_writing { IfErr result IsPointRaiseWriteFault }
{
    let vectors = match raised_vectors(alloc, read) {
        Ok(vectors) => vectors,
        Err(fault) => return Err(RunFault::Raise(fault)),
    };
    let by = match constant_of_points(alloc, read, &vectors) {
        Ok(by) => by,
        Err(fault) => return Err(RunFault::Raise(fault)),
    };
    match write_buffered(&read.points, by, sink) {
        Ok(()) => Ok(by),
        Err(_) => Err(RunFault::Write),
    }
}

/// Returns the vectors raised by the least constant by which they pass.
fn raised_vectors(alloc: Global, read: &PointInputs) -> Result<Vectors, RaiseFault>
    requires { FitActions (table_of (meaning read.now.bound.model)) read.now.bound.vectors }
    ensures raised { IfOk result (λ raised. (up : ℤ)
        × IsRaiseConstant (table_of (meaning read.now.bound.model)) read.now.bound.vectors up
        × (raised ≡ shifted_by read.now.bound.vectors up)) }
    ensures refused { IfErr result
        (IsWhyNotBoundRaised (table_of (meaning read.now.bound.model)) read.now.bound.vectors) }
{
    let bound = &read.bound;
    let by = match least_informed_raise(&bound.model, &bound.vectors) {
        Ok(by) => by,
        Err(fault) => return Err(raise_fault_of(fault)),
    };
    match bound.vectors.shifted(alloc, by) {
        Ok(raised) => Ok(raised),
        Err(AllocError) => Err(RaiseFault::Memory),
    }
}

/// Returns the least constant by which the points pass with these vectors.
fn constant_of_points(
    alloc: Global,
    read: &PointInputs,
    vectors: &Vectors,
) -> Result<u64, RaiseFault>
    requires vectors { FitActions (table_of (meaning read.now.bound.model)) vectors.now }
    requires points { FitPoints (table_of (meaning read.now.bound.model)) (table_of_set read.now.points) }
    requires all_values { HasAllValues read.now.points }
    ensures least { IfOk result (IsLeastPointRaise (table_of (meaning read.now.bound.model))
        (value_of vectors.now) read.now.points) }
    ensures small { IfOk result (λ by. by ≤ 20_000_000_000_000) }
    ensures refused { IfErr result (IsNoRoomForPoints (table_of (meaning read.now.bound.model))
        (value_of vectors.now) read.now.points) }
{
    let mut charges = match room_for_charges(alloc, read) {
        Ok(charges) => charges,
        Err(AllocError) => return Err(RaiseFault::Memory),
    };
    match least_point_raise(&read.bound.model, vectors, &read.points, &mut charges) {
        Some(by) => Ok(by),
        None => Err(RaiseFault::OutOfRange),
    }
}

/// Writes the points, each value raised, through a buffer.
fn write_buffered<W: Sink>(points: &PointSet, by: u64, sink: &mut W) -> Result<(), SinkFailed>
    requires all_values { HasAllValues points.now }
    requires small { by ≤ 20_000_000_000_000 }
    requires room { CanRaisePoints points.now by }
    ensures { WritesText W.writes W.failures sink.old (points_text (raised_set points.now by)) result
        sink.new }
{
    let mut buffered = BufferedSink::new(sink);
    write_raised_points(points, by, &mut buffered)?;
    buffered.flush()
}

/// Returns the fault of a run: the action stands as the node that takes it, in the graph whose node `a` takes action `a`.
fn raise_fault_of(fault: InformedRaiseFault) -> RaiseFault
    ensures { result ≡ raise_fault fault }
{
    match fault {
        InformedRaiseFault::NoConstant {
            action,
            state,
            amount,
        } => RaiseFault::NoConstant {
            node: action,
            state,
            amount,
        },
        InformedRaiseFault::OutOfRange => RaiseFault::OutOfRange,
    }
}
