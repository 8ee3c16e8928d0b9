//! The run that checks, from two sources to a sink.
ghost use Rattle.std.specs.Prelude.{◌≡◌, ℕ, List, Ok, IfOk, IfErr, IsErrOf};
ghost use Rattle.polcert_text.specs.Sink.{Takes};
ghost use Rattle.polcert_cells.specs.Tables.{table_of};
ghost use Rattle.polcert_model.specs.Contents.{meaning};
ghost use Rattle.polcert_optimum.specs.InformedCheck.{FitActions};
ghost use Rattle.polcert_answer.specs.Run.{WritesAnswer, IsNamedRightly, text_of};
ghost use Rattle.polcert_bound_answer.specs.Run.{HasBoundVerdict, HasBoundPromise, HasBoundStartPromise, HasBoundHorizon, IsBoundCheckFault, StopsBoundRightly};
ghost use Rattle.polcert_bound_answer.specs.Steps.Reading.{IsBoundAnswerLine};

use crate::inputs::{BoundInputs, read_bound_inputs};
use crate::lines::{line_of_verdict, write_bound_verdict};
use polcert_answer::RunFault;
use polcert_check::Progress;
use polcert_optimum::{InformedVerdict, check_informed_watched};
use polcert_text::{Sink, Source};
use std::alloc::Global;

/// Reads a model and vectors, one for each of its actions, each value rounded up, from two sources, checks whether they bound every policy
/// that sees the observations alone, writes the line of the verdict, and nothing else, and returns the verdict. Nothing is written before
/// both texts are accepted and the verdict is known. `progress` is notified of each action of the model that passes, as of a node, and of
/// its states.
///
/// # Errors
///
/// `Text` if a text is refused or memory runs out, `ReadModel` or `ReadVectors` if a read of that source failed, `Write` if a write failed.
pub fn run_bound_check<M: Source, V: Source, W: Sink, O: Progress>(
    alloc: Global,
    model: &mut M,
    vectors: &mut V,
    sink: &mut W,
    progress: &mut O,
) -> Result<InformedVerdict, RunFault>
    // The sink took exactly the line of the answer to the texts of the two sources; or if a write failed, a beginning of the line.
    ensures answered { WritesAnswer W.writes (HasBoundVerdict (text_of M.reads model.old model.new)
        (text_of V.reads vectors.old vectors.new)) result sink.old sink.new }

    // The headline: a yes bounds every policy of the texts that were read, with the vectors at the end, for
    // every number of steps, from every state and from the start.
    ensures promise { result ≡ Ok InformedVerdict.Yes → HasBoundPromise (text_of M.reads model.old model.new)
        (text_of V.reads vectors.old vectors.new) }

    // And the number on the written line is promised from the start.
    ensures start_promise { result ≡ Ok InformedVerdict.Yes → (line : List ℕ)
        × HasBoundStartPromise (text_of M.reads model.old model.new)
        (text_of V.reads vectors.old vectors.new) line
        × Takes W.writes sink.old line sink.new }

    // A no says that the vectors don't bound every policy with the vectors at the end.
    ensures horizon { IfOk result (HasBoundHorizon (text_of M.reads model.old model.new)
        (text_of V.reads vectors.old vectors.new)) }

    // The first text that is none of its kind is refused, for a right reason. An I/O error is reported
    // exactly if one occurred. The model is read to its end first. With any other fault than that of a write
    // nothing was written.
    ensures stops { StopsBoundRightly result
        M.reads M.failures model.old model.new
        V.reads V.failures vectors.old vectors.new
        W.failures sink.old sink.new }

    // No fault of another kind is answered.
    ensures of_a_check { IfErr result IsBoundCheckFault }
{
    let read = read_bound_inputs(alloc, model, vectors)?;
    write_bound_answer(&read, sink, progress)
}

/// Checks what two texts denote, writes the line of the verdict, and returns the verdict.
fn write_bound_answer<W: Sink, O: Progress>(
    read: &BoundInputs,
    sink: &mut W,
    progress: &mut O,
) -> Result<InformedVerdict, RunFault>
    requires fit { FitActions (table_of (meaning read.now.model)) read.now.vectors }
    ensures answered { WritesAnswer W.writes (IsBoundAnswerLine (meaning read.now.model) read.now.vectors)
        result sink.old sink.new }
    ensures write { IsNamedRightly (IsErrOf result RunFault.Write)
        (W.failures sink.old) (W.failures sink.new) }
    ensures of_write { IfErr result (λ fault. fault ≡ RunFault.Write) }
{
    let verdict = check_informed_watched(&read.model, &read.vectors, progress);
    let line = line_of_verdict(&read.model, &read.vectors, verdict);
    match write_bound_verdict(line, sink) {
        Ok(()) => Ok(verdict),
        Err(_) => Err(RunFault::Write),
    }
}
