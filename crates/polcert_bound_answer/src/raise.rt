//! The run that raises vectors, one for each action of a model, so that they pass.
ghost use Rattle.std.specs.Prelude.{◌≡◌, ◌≢◌, IfOk, IfErr, IsErrOf};
ghost use Rattle.polcert_cells.specs.Meaning.{actions_of};
ghost use Rattle.polcert_cells.specs.Tables.{table_of};
ghost use Rattle.polcert_model.specs.Contents.{meaning};
ghost use Rattle.polcert_policy.specs.ActionVectors.{action_graph};
ghost use Rattle.polcert_policy.specs.Vectors.{shifted_by, value_of};
ghost use Rattle.polcert_check.specs.declared.fault.RaiseFault.{RaiseFault};
ghost use Rattle.polcert_optimum.specs.Informed.{AreInformed};
ghost use Rattle.polcert_optimum.specs.InformedCheck.{FitActions};
ghost use Rattle.polcert_optimum.specs.InformedRaise.{IsRaiseConstant};
ghost use Rattle.polcert_answer.specs.Run.{WritesAnswer, IsNamedRightly, text_of};
ghost use Rattle.polcert_bound_answer.specs.Run.{StopsBoundRightly};
ghost use Rattle.polcert_bound_answer.specs.Raise.{HasRaisedBound, IsBoundNotRaisable, IsBoundRaiseFault, IsWhyNotBoundRaised, raise_fault};
ghost use Rattle.polcert_bound_answer.specs.Steps.Reading.{IsBoundWriteFault};
ghost use Rattle.polcert_bound_answer.specs.Steps.Raising.{AreBoundRaised};

use crate::inputs::{BoundInputs, read_bound_inputs};
use polcert_answer::{RunFault, write_full_vectors};
use polcert_check::RaiseFault;
use polcert_optimum::{InformedRaiseFault, least_informed_raise};
use polcert_policy::{Graph, Vectors};
use polcert_text::{Sink, Source};
use std::alloc::{AllocError, Global};

/// Reads a model and vectors, one for each of its actions, each value rounded up, from two sources, raises the vectors by the least
/// constant, in millionths, by which they pass the check, writes them in full form, and nothing else, and returns the constant. Nothing is
/// written before both texts are accepted and the constant is known.
///
/// # Errors
///
/// `Text` if a text is refused or memory runs out, `ReadModel` or `ReadVectors` if a read of that source failed, `Write` if a write failed,
/// and `Raise` if the vectors can't be raised to pass: its node stands for the action.
pub fn run_bound_raise<M: Source, V: Source, W: Sink>(
    alloc: Global,
    model: &mut M,
    vectors: &mut V,
    sink: &mut W,
) -> Result<i64, RunFault>
    // The sink took exactly the raised vectors in full form, or if a write failed, a beginning of them. The answer to the model's text and
    // this text is yes, and the headline holds of them.
    ensures raised { WritesAnswer W.writes (HasRaisedBound (text_of M.reads model.old model.new)
        (text_of V.reads vectors.old vectors.new)) result sink.old sink.new }

    // Raising is refused only if both texts are accepted, for a right reason.
    ensures not_raised { (fault : _) → IsErrOf result (RunFault.Raise fault)
        → IsBoundNotRaisable (text_of M.reads model.old model.new)
        (text_of V.reads vectors.old vectors.new) fault }

    // The first text that is none of its kind is refused, for a right reason. An I/O error is reported
    // exactly if one occurred. The model is read to its end first. With any other fault than that of a write
    // nothing was written.
    ensures stops { StopsBoundRightly result
        M.reads M.failures model.old model.new
        V.reads V.failures vectors.old vectors.new
        W.failures sink.old sink.new }

    // No fault of another kind is answered.
    ensures of_a_raise { IfErr result IsBoundRaiseFault }
{
    let given = read_bound_inputs(alloc, model, vectors)?;
    write_raised_vectors(alloc, &given, sink)
}

/// Raises the vectors of what two texts denote, writes them in full form, and returns the constant.
fn write_raised_vectors<W: Sink>(
    alloc: Global,
    given: &BoundInputs,
    sink: &mut W,
) -> Result<i64, RunFault>
    requires fit { FitActions (table_of (meaning given.now.model)) given.now.vectors }
    ensures raised { WritesAnswer W.writes (AreBoundRaised (meaning given.now.model) given.now.vectors)
        result sink.old sink.new }
    ensures not_raised { (fault : RaiseFault) → IsErrOf result (RunFault.Raise fault)
        → IsWhyNotBoundRaised (table_of (meaning given.now.model)) given.now.vectors fault }
    ensures write { IsNamedRightly (IsErrOf result RunFault.Write)
        (W.failures sink.old) (W.failures sink.new) }
    ensures untouched { (fault : RunFault) → IsErrOf result fault
        → fault ≢ RunFault.Write → sink.new ≡ sink.old }
    ensures of_writing { IfErr result IsBoundWriteFault }
{
    let by = match least_informed_raise(&given.model, &given.vectors) {
        Ok(by) => by,
        Err(fault) => return Err(RunFault::Raise(raise_fault_of(fault))),
    };
    let raised = match raised_for_writing(alloc, given, by) {
        Ok(raised) => raised,
        Err(_) => return Err(RunFault::Raise(RaiseFault::Memory)),
    };
    match write_full_vectors(&raised.graph, &raised.vectors, sink) {
        Ok(()) => Ok(by),
        Err(_) => Err(RunFault::Write),
    }
}

/// Raised vectors, and the graph for which they are written: its node `a` takes action `a`.
struct RaisedVectors {
    vectors: Vectors,
    graph: Graph,
}

// (Written by hand so that callers prove one drop.)
impl Drop for RaisedVectors {
    fn drop(self) {
        let RaisedVectors {
            vectors: _,
            graph: _,
        } = self;
    }
}

/// Returns the vectors raised by `by`, with the graph that they are written with.
fn raised_for_writing(
    alloc: Global,
    given: &BoundInputs,
    by: i64,
) -> Result<RaisedVectors, AllocError>
    requires fit { FitActions (table_of (meaning given.now.model)) given.now.vectors }
    requires constant { IsRaiseConstant (table_of (meaning given.now.model)) given.now.vectors by }
    ensures shifted { IfOk result (λ raised. raised.vectors ≡ shifted_by given.now.vectors by) }
    ensures informed { IfOk result (λ raised.
        AreInformed (table_of (meaning given.now.model)) (value_of raised.vectors)) }
    ensures graph { IfOk result (λ raised.
        raised.graph ≡ action_graph (actions_of (meaning given.now.model))) }
{
    let vectors = given.vectors.shifted(alloc, by)?;
    let graph = Graph::of_actions(alloc, given.model.actions())?;
    Ok(RaisedVectors { vectors, graph })
}

/// Returns the fault of a run: the action stands as the node that takes it, in the graph whose node `a` takes action `a`.
fn raise_fault_of(fault: InformedRaiseFault) -> RaiseFault
    ensures { result ≡ raise_fault fault }
{
    match fault {
        InformedRaiseFault::NoConstant {
            action,
            state,
            amount,
        } => RaiseFault::NoConstant {
            node: action,
            state,
            amount,
        },
        InformedRaiseFault::OutOfRange => RaiseFault::OutOfRange,
    }
}
