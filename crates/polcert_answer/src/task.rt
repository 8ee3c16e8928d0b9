//! The tasks over a model, a policy graph and its vectors: to check, or to move, from either side.
ghost use Rattle.std.specs.Prelude.{◌≡◌};
ghost use Rattle.polcert_answer.specs.Side.{below, above, IsCheckRun, IsMoveRun};
ghost use Rattle.polcert_answer.specs.Task.{HasRun, outcome_status};
ghost use Rattle.polcert_answer.specs.Status.{status, verdict_status, above_verdict_status};

use crate::fault::{Fault, RunFault};
use crate::runs::{
    run_check_above_watched, run_check_watched, run_lower_watched, run_raise_watched,
};
use polcert_check::{AboveVerdict, LowerFault, Progress, RaiseFault, Verdict};
use polcert_model::ModelFault;
use polcert_policy::{GraphFault, PointFault, VectorFault};
use polcert_text::{Sink, Source};
use std::alloc::Global;

/// What is done with a model, a policy graph and its vectors.
#[derive(Clone, Copy, Debug, PartialEq, Eq)]
pub enum Task {
    /// Check that the vectors are a lower bound on what the controller earns.
    Check,
    /// Check that the vectors, rounded up, are an upper bound.
    CheckAbove,
    /// Lower the vectors by the least constant by which they pass the check.
    Lower,
    /// Raise the vectors by the least constant by which they pass the check from above.
    Raise,
}

/// What a task came to.
#[derive(Clone, Copy, Debug, PartialEq, Eq)]
pub enum Outcome {
    /// The verdict of a check.
    Checked(Verdict),
    /// The verdict of a check from above.
    CheckedAbove(AboveVerdict),
    /// The constant, in millionths, by which the vectors were lowered.
    Lowered(i64),
    /// The constant, in millionths, by which the vectors were raised.
    Raised(i64),
}

/// Does the task with the texts of three sources, writes its line or its vectors to the sink, and returns its
/// outcome. What it promises is what the run of the task promises: `run_check`, `run_check_above`,
/// `run_lower` or `run_raise`. `progress` is notified of each node.
///
/// # Errors
///
/// Those of the task's run.
// (Seven parameters: each of the devices is of a type of its own.)
pub fn run_task<M: Source, G: Source, V: Source, W: Sink, O: Progress>(
    alloc: Global,
    task: Task,
    model: &mut M,
    graph: &mut G,
    vectors: &mut V,
    sink: &mut W,
    progress: &mut O,
) -> Result<Outcome, RunFault>
    ensures check { task ≡ Task.Check → HasRun Outcome.Checked (IsCheckRun below
        M.reads M.failures model.old model.new
        G.reads G.failures graph.old graph.new
        V.reads V.failures vectors.old vectors.new
        W.writes W.failures sink.old sink.new) result }
    ensures check_above { task ≡ Task.CheckAbove → HasRun Outcome.CheckedAbove (IsCheckRun above
        M.reads M.failures model.old model.new
        G.reads G.failures graph.old graph.new
        V.reads V.failures vectors.old vectors.new
        W.writes W.failures sink.old sink.new) result }
    ensures lower { task ≡ Task.Lower → HasRun Outcome.Lowered (IsMoveRun below
        M.reads M.failures model.old model.new
        G.reads G.failures graph.old graph.new
        V.reads V.failures vectors.old vectors.new
        W.writes W.failures sink.old sink.new) result }
    ensures raise { task ≡ Task.Raise → HasRun Outcome.Raised (IsMoveRun above
        M.reads M.failures model.old model.new
        G.reads G.failures graph.old graph.new
        V.reads V.failures vectors.old vectors.new
        W.writes W.failures sink.old sink.new) result }
{
    match task {
        Task::Check => {
            match run_check_watched(alloc, model, graph, vectors, sink, progress) {
                Ok(verdict) => Ok(Outcome::Checked(verdict)),
                Err(fault) => Err(fault),
            }
        }
        Task::CheckAbove => {
            match run_check_above_watched(alloc, model, graph, vectors, sink, progress) {
                Ok(verdict) => Ok(Outcome::CheckedAbove(verdict)),
                Err(fault) => Err(fault),
            }
        }
        Task::Lower => {
            match run_lower_watched(alloc, model, graph, vectors, sink, progress) {
                Ok(by) => Ok(Outcome::Lowered(by)),
                Err(fault) => Err(fault),
            }
        }
        Task::Raise => {
            match run_raise_watched(alloc, model, graph, vectors, sink, progress) {
                Ok(by) => Ok(Outcome::Raised(by)),
                Err(fault) => Err(fault),
            }
        }
    }
}

/// Returns the exit status for an outcome: that of a verdict, and 0 if vectors were lowered or raised.
pub fn status_of_outcome(outcome: Outcome) -> u8
    ensures { result ≡ outcome_status outcome }
{
    match outcome {
        Outcome::Checked(verdict) => status_of_verdict(verdict),
        Outcome::CheckedAbove(verdict) => status_of_above_verdict(verdict),
        Outcome::Lowered(_) | Outcome::Raised(_) => 0,
    }
}

/// Returns the exit status for a fault: 4 if memory ran out, 3 if a device failed, 2 for a refused text or a
/// model too large to print, and 1 if the vectors can't be lowered, or raised, to pass.
pub fn status_of(fault: &RunFault) -> u8
    ensures { result ≡ status fault.now }
{
    match fault {
        RunFault::Text(
            Fault::Model(ModelFault::Memory)
            | Fault::Graph(GraphFault::Memory)
            | Fault::Vectors(VectorFault::Memory)
            | Fault::Points(PointFault::Memory),
        )
        | RunFault::Lower(LowerFault::Memory)
        | RunFault::Raise(RaiseFault::Memory) => 4,
        RunFault::Text(_) => 2,
        RunFault::TooLargeToPrint => 2,
        RunFault::ReadModel
        | RunFault::ReadGraph
        | RunFault::ReadVectors
        | RunFault::ReadPoints
        | RunFault::Write => 3,
        RunFault::Lower(_) | RunFault::Raise(_) => 1,
    }
}

/// Returns the exit status for a verdict: 0 for a yes, and 1 for a no.
pub fn status_of_verdict(verdict: Verdict) -> u8
    ensures { result ≡ verdict_status verdict }
{
    match verdict {
        Verdict::Yes => 0,
        _ => 1,
    }
}

/// Returns the exit status for a verdict from above: 0 for a yes, and 1 for a no.
pub fn status_of_above_verdict(verdict: AboveVerdict) -> u8
    ensures { result ≡ above_verdict_status verdict }
{
    match verdict {
        AboveVerdict::Yes => 0,
        AboveVerdict::Long { .. } | AboveVerdict::NoSuccessor { .. } => 1,
    }
}
