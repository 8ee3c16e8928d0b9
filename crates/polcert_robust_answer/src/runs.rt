//! The runs that check, from three sources to a sink.
ghost use Rattle.std.specs.Prelude.{◌≡◌, ℕ, List, Ok, IfErr, IsErrOf};
ghost use Rattle.polcert_text.specs.Sink.{Takes};
ghost use Rattle.polcert_check.specs.declared.survey.Verdict.TheVariants.{Yes};
ghost use Rattle.polcert_model.specs.Contents.{meaning};
ghost use Rattle.polcert_answer.specs.Run.{HoldsOfTexts, IsNamedRightly, WritesAnswer, text_of};
ghost use Rattle.polcert_robust_answer.specs.Near.{HasStartNear, IsCertifiedNear, near_above, near_below};
ghost use Rattle.polcert_robust_answer.specs.Run.{IsNearCheckRun};
ghost use Rattle.polcert_robust_answer.specs.Steps.Nearby.{FitNear, IsNearAnswer};

use crate::inputs::{NearInputs, read_near_inputs};
use crate::lines::write_near_verdict;
use crate::near::{NearBound, NearLower, NearUpper};
use crate::within::Within;
use polcert_answer::RunFault;
use polcert_check::{AboveVerdict, Progress, Verdict};
use polcert_text::{Rounding, Sink, Source};
use std::alloc::Global;

/// Reads a model, a policy graph and the graph's vectors from three sources, checks whether the vectors are a lower bound on what the graph
/// earns in every model within the distance of the text's, writes the line of the verdict, and nothing else, and returns the verdict.
/// Nothing is written before all three texts are accepted and the verdict is known. `progress` is notified of each node.
///
/// A probability of 0 stays 0, the discount is known, and the graph is fixed.
///
/// # Errors
///
/// `Text` if a text is refused or memory runs out while reading it, `ReadModel`, `ReadGraph` or `ReadVectors` if a read of that source
/// failed, `Write` if a write failed.
// (Seven parameters: each of the devices is of a type of its own.)
pub fn run_near_check<M: Source, G: Source, V: Source, W: Sink, O: Progress>(
    alloc: Global,
    within: &Within<'_>,
    model: &mut M,
    graph: &mut G,
    vectors: &mut V,
    sink: &mut W,
    progress: &mut O,
) -> Result<Verdict, RunFault>
    // A yes promises every number of steps in every model within the distances.
    ensures promise { result ≡ Ok Yes → HoldsOfTexts Rounding.Down
        (text_of M.reads model.old model.new) (text_of G.reads graph.old graph.new)
        (text_of V.reads vectors.old vectors.new) (IsCertifiedNear within.now) }

    // And what the written line says of the worst start within is promised in each of them.
    ensures start_promise { result ≡ Ok Yes → (line : List ℕ) × HoldsOfTexts Rounding.Down
        (text_of M.reads model.old model.new) (text_of G.reads graph.old graph.new)
        (text_of V.reads vectors.old vectors.new) (HasStartNear within.now line)
        × Takes W.writes sink.old line sink.new }

    // All that a check of every model near promises.
    ensures run { IsNearCheckRun near_below within.now
        M.reads M.failures model.old model.new
        G.reads G.failures graph.old graph.new
        V.reads V.failures vectors.old vectors.new
        W.writes W.failures sink.old sink.new result }
{
    near_run::<NearLower, M, G, V, W, O>(alloc, within, model, graph, vectors, sink, progress)
}

/// Does the same as `run_near_check` from above: each value of the vectors is rounded up, and a yes says that they are an upper bound in
/// every such model.
///
/// # Errors
///
/// Those of `run_near_check`.
// (Seven parameters: each of the devices is of a type of its own.)
pub fn run_near_check_above<M: Source, G: Source, V: Source, W: Sink, O: Progress>(
    alloc: Global,
    within: &Within<'_>,
    model: &mut M,
    graph: &mut G,
    vectors: &mut V,
    sink: &mut W,
    progress: &mut O,
) -> Result<AboveVerdict, RunFault>
    ensures { IsNearCheckRun near_above within.now
        M.reads M.failures model.old model.new
        G.reads G.failures graph.old graph.new
        V.reads V.failures vectors.old vectors.new
        W.writes W.failures sink.old sink.new result }
{
    near_run::<NearUpper, M, G, V, W, O>(alloc, within, model, graph, vectors, sink, progress)
}

/// Reads the texts of three sources, checks what they denote, writes the line of the verdict, and returns the verdict.
// (Seven parameters: each of the devices is of a type of its own.)
fn near_run<B: NearBound, M: Source, G: Source, V: Source, W: Sink, O: Progress>(
    alloc: Global,
    within: &Within<'_>,
    model: &mut M,
    graph: &mut G,
    vectors: &mut V,
    sink: &mut W,
    progress: &mut O,
) -> Result<B::Verdict, RunFault>
    ensures { IsNearCheckRun B.side within.now
        M.reads M.failures model.old model.new
        G.reads G.failures graph.old graph.new
        V.reads V.failures vectors.old vectors.new
        W.writes W.failures sink.old sink.new result }
{
    B::laws();
    let read = read_near_inputs(alloc, B::rounding(), model, graph, vectors)?;
    write_near_answer::<B, W, O>(&read, within, sink, progress)
}

/// Checks what three texts denote, writes the line of the verdict, and returns the verdict.
fn write_near_answer<B: NearBound, W: Sink, O: Progress>(
    given: &NearInputs,
    within: &Within<'_>,
    sink: &mut W,
    progress: &mut O,
) -> Result<B::Verdict, RunFault>
    requires { FitNear given.now }
    ensures answered { WritesAnswer W.writes (IsNearAnswer B.side within.now (meaning given.now.model)
        given.now.graph given.now.vectors) result sink.old sink.new }
    ensures write { IsNamedRightly (IsErrOf result RunFault.Write)
        (W.failures sink.old) (W.failures sink.new) }
    ensures of_write { IfErr result (λ fault. fault ≡ RunFault.Write) }
{
    let verdict = B::check::<O>(given, within, progress);
    match write_near_verdict(within, B::line(given, within, verdict), sink) {
        Ok(()) => Ok(verdict),
        Err(_) => Err(RunFault::Write),
    }
}
