//! Runs from sources to sinks, for bounds of either kind.
ghost use Rattle.std.specs.Prelude.{◌≡◌, ◌≢◌, ℕ, List, Ok, OnOk, IfOk, IfErr, IsErrOf};
ghost use Rattle.polcert_text.specs.Device.{HasFailed};
ghost use Rattle.polcert_text.specs.Sink.{Takes, WritesText};
ghost use Rattle.polcert_text.specs.Source.{EachTextThatFits, IsText};
ghost use Rattle.polcert_model.specs.Refusals.{SaysOfText};
ghost use Rattle.polcert_check.specs.declared.survey.Verdict.TheVariants.{Yes};
ghost use Rattle.polcert_answer.specs.Answer.{IsModelRefused, IsModelFault, HasGraph, IsFault, IsGraphRefused};
ghost use Rattle.polcert_answer.specs.Answer.{AreRoundedVectorsRefused};
ghost use Rattle.polcert_answer.specs.Run.{WritesAnswer, SumsUp, BeginsToSumUp, Prints, BeginsToPrint};
ghost use Rattle.polcert_answer.specs.Run.{IsTooLargeToPrint, IsModelRunFault, IsPrintRunFault};
ghost use Rattle.polcert_answer.specs.Run.{IsNamedRightly, StopsRightly, IsCheckRunFault, IsLowerRunFault};
ghost use Rattle.polcert_answer.specs.Run.{text_of, HoldsOfTexts, HavePromise, HasStartPromise};
ghost use Rattle.polcert_answer.specs.Run.{IsRaiseRunFault, HavePromiseAbove, HasStartPromiseAbove};
ghost use Rattle.polcert_answer.specs.Run.{IsModelReadFault, RefusesRightly, NamesSourcesRightly};
ghost use Rattle.polcert_answer.specs.Run.{ReadsInOrder};
ghost use Rattle.polcert_answer.specs.Side.{below, HasVerdict, HasHorizon, HasMoved, IsNotMovable};
ghost use Rattle.polcert_answer.specs.Side.{IsCheckRun, IsMoveRun, above};
ghost use Rattle.polcert_model.specs.Contents.{meaning};
ghost use Rattle.polcert_answer.specs.Steps.Reading.{IsAnswerLine, AreWrittenMoved, FitGiven};
ghost use Rattle.polcert_answer.specs.Steps.Reading.{controller_given, IsNoReadFault, AreDenoted};
ghost use Rattle.polcert_answer.specs.Steps.Reading.{IsGraphReadFault, IsVectorsReadFault, IsReadFault};
ghost use Rattle.polcert_model.specs.Printable.{IsPrintable};
ghost use Rattle.polcert_model.specs.FullForm.{full_form};
ghost use Rattle.polcert_policy.specs.FullForm.{vectors_text};
ghost use Rattle.polcert_policy.specs.Graphs.{nodes};
ghost use Rattle.polcert_policy.specs.VectorText.{IsRoundedVectorsText};
ghost use Rattle.polcert_model.specs.Text.{IsModelText};
ghost use Rattle.polcert_cells.specs.Meaning.{states_of, actions_of, observations_of};
ghost use Rattle.polcert_policy.specs.GraphText.{IsGraphText};

use crate::bound::{Bound, Lower, Upper};
use crate::fault::{Fault, RunFault};
use crate::lines::{write_summary, write_verdict};
use polcert_check::{AboveVerdict, NoProgress, Progress, Verdict};
use polcert_model::{Model, read_model_from, write_model};
use polcert_policy::{Graph, Vectors, read_graph_from, read_rounded_vectors_from, write_vectors};
use polcert_text::{BufferedSink, Rounding, Sink, SinkFailed, SliceSource, Source, SourceFault};
use std::alloc::Global;

/// Reads a model from the source, and writes the line that sums it up, and nothing else. Nothing is written
/// before the whole text is accepted.
///
/// # Errors
///
/// `Text` if the text is refused or memory runs out while reading it, `ReadModel` if a read failed,
/// `Write` if a write failed.
pub fn run_model<S: Source, W: Sink>(
    alloc: Global,
    source: &mut S,
    sink: &mut W,
) -> Result<(), RunFault>
    // The sink took exactly the line of the model that the text of the source denotes.
    ensures summed_up { OnOk result (SumsUp S.reads W.writes source.old source.new sink.old sink.new) }

    // No text that fits what was read is a model's, and the fault is a right refusal of each of them. (Want
    // of memory says nothing about the text.)
    ensures refused { (fault : _) → IsErrOf result (RunFault.Text (Fault.Model fault))
        → SaysOfText fault
        → EachTextThatFits S.reads source.old source.new (IsModelRefused fault) }

    // A device is named only if it failed in this call.
    ensures read { IsErrOf result RunFault.ReadModel
        → HasFailed (S.failures source.old) (S.failures source.new) }
    ensures write { IsErrOf result RunFault.Write → HasFailed (W.failures sink.old) (W.failures sink.new) }

    // And no failure of a device is passed over.
    ensures no_read_failed { (result ≢ Err RunFault.ReadModel)
        → S.failures source.new ≡ S.failures source.old }
    ensures no_write_failed { (result ≢ Err RunFault.Write) → W.failures sink.new ≡ W.failures sink.old }

    // If a write failed, what was written before is a beginning of the line.
    ensures begun { IsErrOf result RunFault.Write
        → BeginsToSumUp S.reads W.writes source.old source.new sink.old sink.new }

    // With any other fault nothing was written. Nothing but these faults is answered.
    ensures untouched { (fault : RunFault) → IsErrOf result fault
        → fault ≢ RunFault.Write → sink.new ≡ sink.old }
    ensures of_a_model { IfErr result IsModelRunFault }
{
    let model = model_of_run(alloc, source)?;
    match write_summary(&model, sink) {
        Ok(()) => Ok(()),
        Err(_) => Err(RunFault::Write),
    }
}

/// Reads a model from the source, and writes it in full form, and nothing else. Nothing is written before
/// the whole text is accepted, nor of a model that is too large to print.
///
/// # Errors
///
/// `Text` if the text is refused or memory runs out while reading it, `ReadModel` if a read failed,
/// `TooLargeToPrint` where the model is too large to print, `Write` if a write failed.
pub fn run_print<S: Source, W: Sink>(
    alloc: Global,
    source: &mut S,
    sink: &mut W,
) -> Result<(), RunFault>
    // The sink took exactly the full form of the model that the text of the source denotes, which isn't too
    // large.
    ensures printed { OnOk result (Prints S.reads W.writes source.old source.new sink.old sink.new) }

    // Or the model that the text of the source denotes is too large, and nothing was written.
    ensures too_large { IsErrOf result RunFault.TooLargeToPrint
        → IsTooLargeToPrint S.reads W.writes source.old source.new sink.old sink.new }

    // No text that fits what was read is a model's, and the fault is a right refusal of each of them.
    ensures refused { (fault : _) → IsErrOf result (RunFault.Text (Fault.Model fault))
        → EachTextThatFits S.reads source.old source.new (λ text. IsModelFault text fault) }

    // A device is named only if it failed in this call, and no failure of one is passed over.
    ensures read { IsNamedRightly (IsErrOf result RunFault.ReadModel)
        (S.failures source.old) (S.failures source.new) }
    ensures write { IsNamedRightly (IsErrOf result RunFault.Write)
        (W.failures sink.old) (W.failures sink.new) }

    // If a write failed, what was written before is a beginning of the full form.
    ensures begun { IsErrOf result RunFault.Write
        → BeginsToPrint S.reads W.writes source.old source.new sink.old sink.new }

    // With any other fault nothing was written. Nothing but these faults is answered.
    ensures untouched { (fault : RunFault) → IsErrOf result fault
        → fault ≢ RunFault.Write → sink.new ≡ sink.old }
    ensures of_a_model { IfErr result IsPrintRunFault }
{
    let accepted = model_of_run(alloc, source)?;
    if !accepted.printable() {
        return Err(RunFault::TooLargeToPrint);
    }
    match write_full_form(&accepted, sink) {
        Ok(()) => Ok(()),
        Err(_) => Err(RunFault::Write),
    }
}

/// Reads a model, a policy graph and the graph's vectors from three sources, checks them, writes the line of the verdict, and nothing else,
/// and answers the verdict. Nothing is written before all three texts are accepted and the verdict is known. The program calls `run_task`.
///
/// # Errors
///
/// `Text` if a text is refused or memory runs out while reading it, `ReadModel`, `ReadGraph` or
/// `ReadVectors` if a read of that source failed, `Write` if a write failed.
pub fn run_check<M: Source, G: Source, V: Source, W: Sink>(
    alloc: Global,
    model: &mut M,
    graph: &mut G,
    vectors: &mut V,
    sink: &mut W,
) -> Result<Verdict, RunFault>
    // The sink took exactly the line of the answer to the texts of the three sources; or if a write
    // failed, a beginning of the line.
    ensures answered { WritesAnswer W.writes (λ verdict line. HoldsOfTexts Rounding.Down
        (text_of M.reads model.old model.new) (text_of G.reads graph.old graph.new)
        (text_of V.reads vectors.old vectors.new) (HasVerdict below verdict line)) result sink.old sink.new }

    // The headline: a yes is a certificate of the texts that were read, for every number of steps, every
    // node and every state; and for the rewards alone, without the vectors at the end.
    ensures promise { result ≡ Ok Yes → HoldsOfTexts Rounding.Down
        (text_of M.reads model.old model.new) (text_of G.reads graph.old graph.new)
        (text_of V.reads vectors.old vectors.new) HavePromise }

    // And what the written line says of the start is promised, for every number of steps.
    ensures start_promise { result ≡ Ok Yes → (line : List ℕ) × HoldsOfTexts Rounding.Down
        (text_of M.reads model.old model.new) (text_of G.reads graph.old graph.new)
        (text_of V.reads vectors.old vectors.new) (HasStartPromise line)
        × Takes W.writes sink.old line sink.new }

    // A no refutes the promise of one step at the pair that it names, and a missing successor is reached by a
    // run of one step of positive probability.
    ensures horizon { IfOk result (λ verdict. HoldsOfTexts Rounding.Down
        (text_of M.reads model.old model.new) (text_of G.reads graph.old graph.new)
        (text_of V.reads vectors.old vectors.new) (HasHorizon below verdict)) }

    // The first text that is none of its kind is refused, for a right reason. A device is named only where
    // it failed in this call, and no failure of one is passed over. Each source is read to its end before
    // the next. With any other fault than that of a write nothing was written.
    ensures stops { StopsRightly Rounding.Down result
        M.reads M.failures model.old model.new
        G.reads G.failures graph.old graph.new
        V.reads V.failures vectors.old vectors.new
        W.failures sink.old sink.new }

    // Nothing but the faults of a check is answered.
    ensures of_a_check { IfErr result IsCheckRunFault }
{
    check_run::<Lower, M, G, V, W, NoProgress>(alloc, model, graph, vectors, sink, &mut NoProgress)
}

/// Does the same as `run_check`, and notifies `progress` of each node when all of its pairs have passed.
/// What it promises is every clause of `run_check`.
// (Six parameters: each device has a type of its own, and callers hold them apart.)
pub fn run_check_watched<M: Source, G: Source, V: Source, W: Sink, O: Progress>(
    alloc: Global,
    model: &mut M,
    graph: &mut G,
    vectors: &mut V,
    sink: &mut W,
    progress: &mut O,
) -> Result<Verdict, RunFault>
    ensures { IsCheckRun below
        M.reads M.failures model.old model.new
        G.reads G.failures graph.old graph.new
        V.reads V.failures vectors.old vectors.new
        W.writes W.failures sink.old sink.new result }
{
    check_run::<Lower, M, G, V, W, O>(alloc, model, graph, vectors, sink, progress)
}

/// Reads a model, a policy graph and the graph's vectors from three sources, lowers the vectors by the least constant, in millionths, by
/// which they pass the check, writes them in full form, and nothing else, and answers the constant. Nothing is written before all three
/// texts are accepted and the constant is known. The program calls `run_task`.
///
/// # Errors
///
/// `Text` if a text is refused or memory runs out while reading it, `ReadModel`, `ReadGraph` or
/// `ReadVectors` if a read of that source failed, `Write` if a write failed, and `Lower` where the
/// vectors can't be lowered to pass.
pub fn run_lower<M: Source, G: Source, V: Source, W: Sink>(
    alloc: Global,
    model: &mut M,
    graph: &mut G,
    vectors: &mut V,
    sink: &mut W,
) -> Result<i64, RunFault>
    // The sink took exactly the lowered vectors in full form, or if a write failed, a beginning of them.
    // The answer to the model's text, the graph's text and this text is yes, and the headline holds of them.
    ensures lowered { WritesAnswer W.writes (λ by text. HoldsOfTexts Rounding.Down
        (text_of M.reads model.old model.new) (text_of G.reads graph.old graph.new)
        (text_of V.reads vectors.old vectors.new) (HasMoved below by text)) result sink.old sink.new }

    // Lowering is refused only if all three texts are accepted, for a right reason.
    ensures not_lowered { (fault : _) → IsErrOf result (RunFault.Lower fault) → HoldsOfTexts Rounding.Down
        (text_of M.reads model.old model.new) (text_of G.reads graph.old graph.new)
        (text_of V.reads vectors.old vectors.new) (IsNotMovable below fault) }

    // The first text that is none of its kind is refused, for a right reason. A device is named only where
    // it failed in this call, and no failure of one is passed over. Each source is read to its end before
    // the next. With any other fault than that of a write nothing was written.
    ensures stops { StopsRightly Rounding.Down result
        M.reads M.failures model.old model.new
        G.reads G.failures graph.old graph.new
        V.reads V.failures vectors.old vectors.new
        W.failures sink.old sink.new }

    // Nothing but the faults of a lowering is answered.
    ensures of_a_lowering { IfErr result IsLowerRunFault }
{
    move_run::<Lower, M, G, V, W, NoProgress>(alloc, model, graph, vectors, sink, &mut NoProgress)
}

/// Does the same as `run_lower`, and notifies `progress` of each node once. Its contract has every clause of
/// `run_lower`.
// (Six parameters: each device has a type of its own, and callers hold them apart.)
pub fn run_lower_watched<M: Source, G: Source, V: Source, W: Sink, O: Progress>(
    alloc: Global,
    model: &mut M,
    graph: &mut G,
    vectors: &mut V,
    sink: &mut W,
    progress: &mut O,
) -> Result<i64, RunFault>
    ensures { IsMoveRun below
        M.reads M.failures model.old model.new
        G.reads G.failures graph.old graph.new
        V.reads V.failures vectors.old vectors.new
        W.writes W.failures sink.old sink.new result }
{
    move_run::<Lower, M, G, V, W, O>(alloc, model, graph, vectors, sink, progress)
}

/// Reads a model, a policy graph and the graph's vectors, each value rounded up, from three sources, checks whether they bound what the
/// graph earns from above, writes the line of the verdict, and nothing else, and answers the verdict. Nothing is written before all three
/// texts are accepted and the verdict is known. The program calls `run_task`.
///
/// # Errors
///
/// `Text` if a text is refused or memory runs out while reading it, `ReadModel`, `ReadGraph` or
/// `ReadVectors` if a read of that source failed, `Write` if a write failed.
pub fn run_check_above<M: Source, G: Source, V: Source, W: Sink>(
    alloc: Global,
    model: &mut M,
    graph: &mut G,
    vectors: &mut V,
    sink: &mut W,
) -> Result<AboveVerdict, RunFault>
    // The sink took exactly the line of the answer from above to the texts of the three sources; or if a
    // write failed, a beginning of the line.
    ensures answered { WritesAnswer W.writes (λ verdict line. HoldsOfTexts Rounding.Up
        (text_of M.reads model.old model.new) (text_of G.reads graph.old graph.new)
        (text_of V.reads vectors.old vectors.new) (HasVerdict above verdict line)) result sink.old sink.new }

    // The headline from above: a yes bounds what the texts that were read denote, for every number of
    // steps, every node and every state; and for the rewards alone, without the vectors at the end.
    ensures promise { result ≡ Ok AboveVerdict.Yes → HoldsOfTexts Rounding.Up
        (text_of M.reads model.old model.new) (text_of G.reads graph.old graph.new)
        (text_of V.reads vectors.old vectors.new) HavePromiseAbove }

    // And what the written line says of the start is promised, from every node and for every number of steps.
    ensures start_promise { result ≡ Ok AboveVerdict.Yes → (line : List ℕ) × HoldsOfTexts Rounding.Up
        (text_of M.reads model.old model.new) (text_of G.reads graph.old graph.new)
        (text_of V.reads vectors.old vectors.new) (HasStartPromiseAbove line)
        × Takes W.writes sink.old line sink.new }

    // A no refutes the promise of one step at the pair that it names, and a missing successor is reached by a
    // run of one step of positive probability.
    ensures horizon { IfOk result (λ verdict. HoldsOfTexts Rounding.Up
        (text_of M.reads model.old model.new) (text_of G.reads graph.old graph.new)
        (text_of V.reads vectors.old vectors.new) (HasHorizon above verdict)) }

    // The first text that is none of its kind is refused, for a right reason. A device is named only where
    // it failed in this call, and no failure of one is passed over. Each source is read to its end before
    // the next. With any other fault than that of a write nothing was written.
    ensures stops { StopsRightly Rounding.Up result
        M.reads M.failures model.old model.new
        G.reads G.failures graph.old graph.new
        V.reads V.failures vectors.old vectors.new
        W.failures sink.old sink.new }

    // Nothing but the faults of a check is answered.
    ensures of_a_check { IfErr result IsCheckRunFault }
{
    check_run::<Upper, M, G, V, W, NoProgress>(alloc, model, graph, vectors, sink, &mut NoProgress)
}

/// Does the same as `run_check_above`, and notifies `progress` of each node when all of its pairs have passed.
/// What it promises is every clause of `run_check_above`.
// (Six parameters: each device has a type of its own, and callers hold them apart.)
pub fn run_check_above_watched<M: Source, G: Source, V: Source, W: Sink, O: Progress>(
    alloc: Global,
    model: &mut M,
    graph: &mut G,
    vectors: &mut V,
    sink: &mut W,
    progress: &mut O,
) -> Result<AboveVerdict, RunFault>
    ensures { IsCheckRun above
        M.reads M.failures model.old model.new
        G.reads G.failures graph.old graph.new
        V.reads V.failures vectors.old vectors.new
        W.writes W.failures sink.old sink.new result }
{
    check_run::<Upper, M, G, V, W, O>(alloc, model, graph, vectors, sink, progress)
}

/// Reads a model, a policy graph and the graph's vectors, each value rounded up, from three sources, raises the vectors by the least
/// constant, in millionths, by which they pass the check from above, writes them in full form, and nothing else, and answers the constant.
/// Nothing is written before all texts are accepted and the constant is known. The program calls `run_task`.
///
/// # Errors
///
/// `Text` if a text is refused or memory runs out while reading it, `ReadModel`, `ReadGraph` or
/// `ReadVectors` if a read of that source failed, `Write` if a write failed, and `Raise` where the
/// vectors can't be raised to pass from above.
pub fn run_raise<M: Source, G: Source, V: Source, W: Sink>(
    alloc: Global,
    model: &mut M,
    graph: &mut G,
    vectors: &mut V,
    sink: &mut W,
) -> Result<i64, RunFault>
    // The sink took exactly the raised vectors in full form, or if a write failed, a beginning of them.
    // The answer from above to the model's text, the graph's text and this text is yes, and the headline
    // from above holds of them.
    ensures raised { WritesAnswer W.writes (λ by text. HoldsOfTexts Rounding.Up
        (text_of M.reads model.old model.new) (text_of G.reads graph.old graph.new)
        (text_of V.reads vectors.old vectors.new) (HasMoved above by text)) result sink.old sink.new }

    // Raising is refused only if all three texts are accepted, for a right reason.
    ensures not_raised { (fault : _) → IsErrOf result (RunFault.Raise fault) → HoldsOfTexts Rounding.Up
        (text_of M.reads model.old model.new) (text_of G.reads graph.old graph.new)
        (text_of V.reads vectors.old vectors.new) (IsNotMovable above fault) }

    // The first text that is none of its kind is refused, for a right reason. A device is named only where
    // it failed in this call, and no failure of one is passed over. Each source is read to its end before
    // the next. With any other fault than that of a write nothing was written.
    ensures stops { StopsRightly Rounding.Up result
        M.reads M.failures model.old model.new
        G.reads G.failures graph.old graph.new
        V.reads V.failures vectors.old vectors.new
        W.failures sink.old sink.new }

    // Nothing but the faults of a raise is answered.
    ensures of_a_raise { IfErr result IsRaiseRunFault }
{
    move_run::<Upper, M, G, V, W, NoProgress>(alloc, model, graph, vectors, sink, &mut NoProgress)
}

/// Does the same as `run_raise`, and notifies `progress` of each node once. Its contract has every clause of
/// `run_raise`.
// (Six parameters: each device has a type of its own, and callers hold them apart.)
pub fn run_raise_watched<M: Source, G: Source, V: Source, W: Sink, O: Progress>(
    alloc: Global,
    model: &mut M,
    graph: &mut G,
    vectors: &mut V,
    sink: &mut W,
    progress: &mut O,
) -> Result<i64, RunFault>
    ensures { IsMoveRun above
        M.reads M.failures model.old model.new
        G.reads G.failures graph.old graph.new
        V.reads V.failures vectors.old vectors.new
        W.writes W.failures sink.old sink.new result }
{
    move_run::<Upper, M, G, V, W, O>(alloc, model, graph, vectors, sink, progress)
}

/// Reads the texts of three sources, checks what they denote, writes the line of the verdict, and returns the
/// verdict.
// (Six parameters: each device has a type of its own.)
pub fn check_run<B: Bound, M: Source, G: Source, V: Source, W: Sink, O: Progress>(
    alloc: Global,
    model: &mut M,
    graph: &mut G,
    vectors: &mut V,
    sink: &mut W,
    progress: &mut O,
) -> Result<B::Verdict, RunFault>
    ensures { IsCheckRun B.side
        M.reads M.failures model.old model.new
        G.reads G.failures graph.old graph.new
        V.reads V.failures vectors.old vectors.new
        W.writes W.failures sink.old sink.new result }
{
    B::laws();
    let read = read_inputs(alloc, B::rounding(), model, graph, vectors)?;
    write_answer::<B, W, O>(&read, sink, progress)
}

/// Checks what three texts denote, writes the line of the verdict, and returns the verdict.
fn write_answer<B: Bound, W: Sink, O: Progress>(
    given: &Inputs,
    sink: &mut W,
    progress: &mut O,
) -> Result<B::Verdict, RunFault>
    requires { FitGiven given.now }
    ensures answered { WritesAnswer W.writes (IsAnswerLine B.side (meaning given.now.model)
        given.now.graph given.now.vectors) result sink.old sink.new }
    ensures write { IsNamedRightly (IsErrOf result RunFault.Write)
        (W.failures sink.old) (W.failures sink.new) }
    ensures of_write { IfErr result (λ fault. fault ≡ RunFault.Write) }
{
    let verdict = B::check::<O>(given, progress);
    match write_verdict(B::line(given, verdict), sink) {
        Ok(()) => Ok(verdict),
        Err(_) => Err(RunFault::Write),
    }
}

/// Reads the texts of three sources, moves the vectors that they denote by the least constant by which they
/// pass, writes them in full form, and returns the constant.
// (Six parameters: each device has a type of its own.)
pub fn move_run<B: Bound, M: Source, G: Source, V: Source, W: Sink, O: Progress>(
    alloc: Global,
    model: &mut M,
    graph: &mut G,
    vectors: &mut V,
    sink: &mut W,
    progress: &mut O,
) -> Result<i64, RunFault>
    ensures { IsMoveRun B.side
        M.reads M.failures model.old model.new
        G.reads G.failures graph.old graph.new
        V.reads V.failures vectors.old vectors.new
        W.writes W.failures sink.old sink.new result }
{
    B::laws();
    let given = read_inputs(alloc, B::rounding(), model, graph, vectors)?;
    write_moved::<B, W, O>(alloc, &given, sink, progress)
}

/// Moves the vectors of what three texts denote, writes them in full form, and returns the constant.
fn write_moved<B: Bound, W: Sink, O: Progress>(
    alloc: Global,
    given: &Inputs,
    sink: &mut W,
    progress: &mut O,
) -> Result<i64, RunFault>
    requires { FitGiven given.now }
    ensures moved { WritesAnswer W.writes (AreWrittenMoved B.side (meaning given.now.model)
        given.now.graph given.now.vectors) result sink.old sink.new }
    ensures not_moved { (fault : _) → IsErrOf result (B.side.run_fault fault)
        → B.side.IsReason (controller_given given.now) given.now.vectors fault }
    ensures write { IsNamedRightly (IsErrOf result RunFault.Write)
        (W.failures sink.old) (W.failures sink.new) }
    ensures untouched { (fault : RunFault) → IsErrOf result fault
        → fault ≢ RunFault.Write → sink.new ≡ sink.old }
    ensures no_read { IfErr result IsNoReadFault }
    ensures of_a_move { IfErr result B.side.IsRunFault }
{
    B::laws();
    let (by, moved) = match B::moved::<O>(alloc, given, progress) {
        Ok(found) => found,
        Err(fault) => return Err(B::run_fault(fault)),
    };
    match write_full_vectors(&given.graph, &moved, sink) {
        Ok(()) => Ok(by),
        Err(_) => Err(RunFault::Write),
    }
}

/// Writes a model in full form, through a buffer.
pub fn write_full_form<W: Sink>(model: &Model, sink: &mut W) -> Result<(), SinkFailed>
    requires printable { IsPrintable (meaning model.now).preamble }
    ensures { WritesText W.writes W.failures sink.old (full_form (meaning model.now)) result sink.new }
{
    let mut buffered = BufferedSink::new(sink);
    write_model(model, &mut buffered)?;
    buffered.flush()
}

/// Writes the vectors of a graph in full form, through a buffer.
pub fn write_full_vectors<W: Sink>(
    graph: &Graph,
    vectors: &Vectors,
    sink: &mut W,
) -> Result<(), SinkFailed>
    requires { nodes graph.now ≡ vectors.now.nodes }
    ensures written { WritesText W.writes W.failures sink.old
        (vectors_text graph.now vectors.now) result sink.new }

    // Read with the same graph and number of states, the text gives the same vectors, whichever way values
    // are rounded.
    ensures reads_back { (rounding : Rounding)
        → IsRoundedVectorsText rounding graph.now vectors.now.states
        (vectors_text graph.now vectors.now) vectors.now }
{
    let mut buffered = BufferedSink::new(sink);
    write_vectors(graph, vectors, &mut buffered)?;
    buffered.flush()
}

/// A model, a policy graph for it, and the graph's vectors.
pub struct Inputs {
    pub model: Model,
    pub graph: Graph,
    pub vectors: Vectors,
}

// (Written by hand so that callers prove one drop.)
impl Drop for Inputs {
    fn drop(self) {
        let Inputs {
            model: _,
            graph: _,
            vectors: _,
        } = self;
    }
}

/// Reads the model of a source. A refusal becomes the fault of a run.
pub fn model_of_run<S: Source>(alloc: Global, source: &mut S) -> Result<Model, RunFault>
    ensures accepted { IfOk result (λ m. (text : List ℕ)
        × IsText S.reads source.old text source.new
        × IsModelText text (meaning m)) }
    ensures refused { (fault : _) → IsErrOf result (RunFault.Text (Fault.Model fault))
        → EachTextThatFits S.reads source.old source.new (λ text. IsModelFault text fault) }
    ensures read { IsNamedRightly (IsErrOf result RunFault.ReadModel)
        (S.failures source.old) (S.failures source.new) }
    ensures of_a_model { IfErr result IsModelReadFault }
{
    match read_model_from(alloc, source) {
        Ok(model) => Ok(model),
        Err(SourceFault::Device) => Err(RunFault::ReadModel),
        Err(SourceFault::Refused(fault)) => Err(RunFault::Text(Fault::Model(fault))),
    }
}

/// Reads the policy graph of a source, for the model. A refusal becomes the fault of a run.
fn graph_of_run<S: Source>(alloc: Global, model: &Model, source: &mut S) -> Result<Graph, RunFault>
    ensures accepted { IfOk result (λ g. (text : List ℕ)
        × IsText S.reads source.old text source.new
        × IsGraphText (actions_of (meaning model.now)) (observations_of (meaning model.now)) text g) }
    ensures refused { (fault : _) → IsErrOf result (RunFault.Text (Fault.Graph fault))
        → (first : List ℕ) → IsModelText first (meaning model.now)
        → EachTextThatFits S.reads source.old source.new (IsGraphRefused first fault) }
    ensures read { IsNamedRightly (IsErrOf result RunFault.ReadGraph)
        (S.failures source.old) (S.failures source.new) }
    ensures of_a_graph { IfErr result IsGraphReadFault }
{
    match read_graph_from(alloc, source, model.actions(), model.observations()) {
        Ok(graph) => Ok(graph),
        Err(SourceFault::Device) => Err(RunFault::ReadGraph),
        Err(SourceFault::Refused(fault)) => Err(RunFault::Text(Fault::Graph(fault))),
    }
}

/// Reads the vectors of the graph from a source, each value rounded this way. A refusal becomes the fault of
/// a run.
fn vectors_of_run<S: Source>(
    alloc: Global,
    rounding: Rounding,
    model: &Model,
    graph: &Graph,
    source: &mut S,
) -> Result<Vectors, RunFault>
    ensures accepted { IfOk result (λ v. (text : List ℕ)
        × IsText S.reads source.old text source.new
        × IsRoundedVectorsText rounding graph.now (states_of (meaning model.now)) text v) }
    ensures refused { (fault : _) → IsErrOf result (RunFault.Text (Fault.Vectors fault))
        → (first second : List ℕ) → HasGraph first second (meaning model.now) graph.now
        → EachTextThatFits S.reads source.old source.new
        (AreRoundedVectorsRefused rounding first second fault) }
    ensures read { IsNamedRightly (IsErrOf result RunFault.ReadVectors)
        (S.failures source.old) (S.failures source.new) }
    ensures of_vectors { IfErr result IsVectorsReadFault }
{
    match read_rounded_vectors_from(alloc, rounding, source, graph, model.states()) {
        Ok(vectors) => Ok(vectors),
        Err(SourceFault::Device) => Err(RunFault::ReadVectors),
        Err(SourceFault::Refused(fault)) => Err(RunFault::Text(Fault::Vectors(fault))),
    }
}

/// Reads the inputs from three sources, each to its end before the next, with each value of a vector rounded
/// this way.
pub fn read_inputs<M: Source, G: Source, V: Source>(
    alloc: Global,
    rounding: Rounding,
    model: &mut M,
    graph: &mut G,
    vectors: &mut V,
) -> Result<Inputs, RunFault>
    ensures accepted { IfOk result (λ c. AreDenoted rounding
        (text_of M.reads model.old model.new)
        (text_of G.reads graph.old graph.new)
        (text_of V.reads vectors.old vectors.new)
        (meaning c.model) c.graph c.vectors) }
    ensures refused { RefusesRightly rounding result
        M.reads model.old model.new
        G.reads graph.old graph.new
        V.reads vectors.old vectors.new }
    ensures read { NamesSourcesRightly result
        M.failures model.old model.new
        G.failures graph.old graph.new
        V.failures vectors.old vectors.new }
    ensures in_order { IfErr result (λ fault.
        ReadsInOrder fault graph.old graph.new vectors.old vectors.new) }
    ensures of_reading { IfErr result IsReadFault }
{
    let model = model_of_run(alloc, model)?;
    let graph = graph_of_run(alloc, &model, graph)?;
    let vectors = vectors_of_run(alloc, rounding, &model, &graph, vectors)?;
    Ok(Inputs {
        model,
        graph,
        vectors,
    })
}

/// Reads the inputs from three slices, with each value of a vector rounded this way.
pub fn read_texts(
    alloc: Global,
    rounding: Rounding,
    model: &[u8],
    graph: &[u8],
    vectors: &[u8],
) -> Result<Inputs, Fault>
    ensures graph_accepted { IfOk result (λ c. HasGraph model.now graph.now (meaning c.model) c.graph) }
    ensures vectors_accepted { IfOk result (λ c.
        IsRoundedVectorsText rounding c.graph (states_of (meaning c.model)) vectors.now c.vectors) }
    ensures refused { IfErr result (IsFault rounding model.now graph.now vectors.now) }
{
    let mut model = SliceSource::new(model);
    let mut graph = SliceSource::new(graph);
    let mut vectors = SliceSource::new(vectors);
    match read_inputs(alloc, rounding, &mut model, &mut graph, &mut vectors) {
        Ok(inputs) => Ok(inputs),
        Err(RunFault::Text(fault)) => Err(fault),
        Err(_) => unreachable!(),
    }
}
