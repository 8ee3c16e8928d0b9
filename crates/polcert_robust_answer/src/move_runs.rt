//! The runs that lower and raise vectors, from three sources to a sink.
ghost use Rattle.std.specs.Prelude.{◌≡◌, ◌≢◌, IfErr, IsErrOf};
ghost use Rattle.polcert_model.specs.Contents.{meaning};
ghost use Rattle.polcert_answer.specs.Run.{IsNamedRightly, WritesAnswer};
ghost use Rattle.polcert_answer.specs.Steps.Reading.{IsNoReadFault};
ghost use Rattle.polcert_robust_answer.specs.Moves.{IsNearMoveRun, near_lowering, near_raising};
ghost use Rattle.polcert_robust_answer.specs.Steps.Moving.{AreWrittenNear, IsReasonNear};
ghost use Rattle.polcert_robust_answer.specs.Steps.Nearby.{FitNear};

use crate::inputs::{NearInputs, read_near_inputs};
use crate::moves::{NearLowering, NearMover, NearRaising};
use crate::within::Within;
use polcert_answer::{RunFault, write_full_vectors};
use polcert_check::Progress;
use polcert_text::{Sink, Source};
use std::alloc::Global;

/// Reads a model, a policy graph and the graph's vectors from three sources, lowers the vectors by the least constant, in millionths, by
/// which they pass in every model within the distance of the text's, writes them in full form, and nothing else, and returns the constant.
/// Nothing is written before all three texts are accepted and the constant is known. `progress` is notified of each node.
///
/// A probability of 0 stays 0, the discount is known, and the graph is fixed.
///
/// # Errors
///
/// `Text` if a text is refused or memory runs out while reading it, `ReadModel`, `ReadGraph` or `ReadVectors` if a read of that source
/// failed, `Write` if a write failed, and `Lower` if the vectors cannot be lowered to pass, or memory runs out for the lowered ones.
// (Seven parameters: each of the devices is of a type of its own.)
pub fn run_near_lower<M: Source, G: Source, V: Source, W: Sink, O: Progress>(
    alloc: Global,
    within: &Within<'_>,
    model: &mut M,
    graph: &mut G,
    vectors: &mut V,
    sink: &mut W,
    progress: &mut O,
) -> Result<i64, RunFault>
    ensures { IsNearMoveRun near_lowering within.now
        M.reads M.failures model.old model.new
        G.reads G.failures graph.old graph.new
        V.reads V.failures vectors.old vectors.new
        W.writes W.failures sink.old sink.new result }
{
    near_move_run::<NearLowering, M, G, V, W, O>(
        alloc, within, model, graph, vectors, sink, progress,
    )
}

/// Does the same as `run_near_lower` from above: each value of the vectors is rounded up, and they are raised by the least constant by
/// which they pass from above in every such model.
///
/// # Errors
///
/// Those of `run_near_lower`, with `Raise` in place of `Lower`.
// (Seven parameters: each of the devices is of a type of its own.)
pub fn run_near_raise<M: Source, G: Source, V: Source, W: Sink, O: Progress>(
    alloc: Global,
    within: &Within<'_>,
    model: &mut M,
    graph: &mut G,
    vectors: &mut V,
    sink: &mut W,
    progress: &mut O,
) -> Result<i64, RunFault>
    ensures { IsNearMoveRun near_raising within.now
        M.reads M.failures model.old model.new
        G.reads G.failures graph.old graph.new
        V.reads V.failures vectors.old vectors.new
        W.writes W.failures sink.old sink.new result }
{
    near_move_run::<NearRaising, M, G, V, W, O>(
        alloc, within, model, graph, vectors, sink, progress,
    )
}

/// Reads the texts of three sources, moves the vectors that they denote by the least constant by which they pass in every model within,
/// writes them in full form, and returns the constant.
// (Seven parameters: each of the devices is of a type of its own.)
fn near_move_run<B: NearMover, M: Source, G: Source, V: Source, W: Sink, O: Progress>(
    alloc: Global,
    within: &Within<'_>,
    model: &mut M,
    graph: &mut G,
    vectors: &mut V,
    sink: &mut W,
    progress: &mut O,
) -> Result<i64, RunFault>
    ensures { IsNearMoveRun B.move_near within.now
        M.reads M.failures model.old model.new
        G.reads G.failures graph.old graph.new
        V.reads V.failures vectors.old vectors.new
        W.writes W.failures sink.old sink.new result }
{
    B::laws();
    let read = read_near_inputs(alloc, B::rounding(), model, graph, vectors)?;
    write_moved_near::<B, W, O>(alloc, &read, within, sink, progress)
}

/// Moves the vectors of what three texts denote, writes them in full form, and returns the constant.
fn write_moved_near<B: NearMover, W: Sink, O: Progress>(
    alloc: Global,
    given: &NearInputs,
    within: &Within<'_>,
    sink: &mut W,
    progress: &mut O,
) -> Result<i64, RunFault>
    requires { FitNear given.now }
    ensures moved { WritesAnswer W.writes (AreWrittenNear B.move_near within.now (meaning given.now.model)
        given.now.graph given.now.vectors) result sink.old sink.new }
    ensures not_moved { (fault : _) → IsErrOf result (B.move_near.run_fault fault)
        → IsReasonNear B.move_near within.now (meaning given.now.model)
        given.now.graph given.now.vectors fault }
    ensures write { IsNamedRightly (IsErrOf result RunFault.Write)
        (W.failures sink.old) (W.failures sink.new) }
    ensures untouched { (fault : RunFault) → IsErrOf result fault
        → fault ≢ RunFault.Write → sink.new ≡ sink.old }
    ensures no_read { IfErr result IsNoReadFault }
    ensures of_a_move { IfErr result B.move_near.IsRunFault }
{
    B::laws();
    let (by, moved) = match B::moved::<O>(alloc, given, within, progress) {
        Ok(found) => found,
        Err(fault) => return Err(B::run_fault(fault)),
    };
    match write_full_vectors(&given.graph, &moved, sink) {
        Ok(()) => Ok(by),
        Err(_) => Err(RunFault::Write),
    }
}
