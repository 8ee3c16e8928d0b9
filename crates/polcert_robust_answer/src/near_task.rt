//! Tasks over three texts in every model near the first's.
ghost use Rattle.std.specs.Prelude.{◌≡◌};
ghost use Rattle.polcert_answer.specs.Task.{HasRun};
ghost use Rattle.polcert_robust_answer.specs.Moves.{IsNearMoveRun, near_lowering, near_raising};
ghost use Rattle.polcert_robust_answer.specs.Near.{near_above, near_below};
ghost use Rattle.polcert_robust_answer.specs.Run.{IsNearCheckRun};

use crate::move_runs::{run_near_lower, run_near_raise};
use crate::runs::{run_near_check, run_near_check_above};
use crate::within::Within;
use polcert_answer::{Outcome, RunFault, Task};
use polcert_check::Progress;
use polcert_text::{Sink, Source};
use std::alloc::Global;

/// Does the task in every model within the distance with the texts of three sources, writes its line or its vectors to the sink, and
/// returns its outcome. What it promises is what the run of the task promises: `run_near_check`, `run_near_check_above`, `run_near_lower`
/// or `run_near_raise`. `progress` is notified of each node.
///
/// # Errors
///
/// Those of the task's run.
// (Eight parameters: each of the devices is of a type of its own.)
pub fn run_near_task<M: Source, G: Source, V: Source, W: Sink, O: Progress>(
    alloc: Global,
    task: Task,
    within: &Within<'_>,
    model: &mut M,
    graph: &mut G,
    vectors: &mut V,
    sink: &mut W,
    progress: &mut O,
) -> Result<Outcome, RunFault>
    ensures check { task ≡ Task.Check → HasRun Outcome.Checked
        (IsNearCheckRun near_below within.now
        M.reads M.failures model.old model.new
        G.reads G.failures graph.old graph.new
        V.reads V.failures vectors.old vectors.new
        W.writes W.failures sink.old sink.new) result }
    ensures check_above { task ≡ Task.CheckAbove → HasRun Outcome.CheckedAbove
        (IsNearCheckRun near_above within.now
        M.reads M.failures model.old model.new
        G.reads G.failures graph.old graph.new
        V.reads V.failures vectors.old vectors.new
        W.writes W.failures sink.old sink.new) result }
    ensures lower { task ≡ Task.Lower → HasRun Outcome.Lowered
        (IsNearMoveRun near_lowering within.now
        M.reads M.failures model.old model.new
        G.reads G.failures graph.old graph.new
        V.reads V.failures vectors.old vectors.new
        W.writes W.failures sink.old sink.new) result }
    ensures raise { task ≡ Task.Raise → HasRun Outcome.Raised
        (IsNearMoveRun near_raising within.now
        M.reads M.failures model.old model.new
        G.reads G.failures graph.old graph.new
        V.reads V.failures vectors.old vectors.new
        W.writes W.failures sink.old sink.new) result }
{
    match task {
        Task::Check => {
            match run_near_check(alloc, within, model, graph, vectors, sink, progress) {
                Ok(verdict) => Ok(Outcome::Checked(verdict)),
                Err(fault) => Err(fault),
            }
        }
        Task::CheckAbove => {
            match run_near_check_above(alloc, within, model, graph, vectors, sink, progress) {
                Ok(verdict) => Ok(Outcome::CheckedAbove(verdict)),
                Err(fault) => Err(fault),
            }
        }
        Task::Lower => {
            match run_near_lower(alloc, within, model, graph, vectors, sink, progress) {
                Ok(by) => Ok(Outcome::Lowered(by)),
                Err(fault) => Err(fault),
            }
        }
        Task::Raise => {
            match run_near_raise(alloc, within, model, graph, vectors, sink, progress) {
                Ok(by) => Ok(Outcome::Raised(by)),
                Err(fault) => Err(fault),
            }
        }
    }
}
