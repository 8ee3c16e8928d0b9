//! The run that checks, from three sources to a sink.
ghost use Rattle.std.specs.Prelude.{◌≡◌, ◌≢◌, ℕ, List, Ok, IfErr, IsErrOf};
ghost use Rattle.polcert_text.specs.Sink.{Takes};
ghost use Rattle.polcert_cells.specs.Tables.{table_of};
ghost use Rattle.polcert_model.specs.Contents.{meaning};
ghost use Rattle.polcert_optimum.specs.InformedCheck.{FitActions};
ghost use Rattle.polcert_points.specs.PointTable.{FitPoints, table_of_set};
ghost use Rattle.polcert_answer.specs.Run.{WritesAnswer, IsNamedRightly, text_of};
ghost use Rattle.polcert_points_answer.specs.Run.{HasPointBoundVerdict, HasPointPromise, HasPointStartPromise, IsPointCheckFault, StopsPointsRightly};
ghost use Rattle.polcert_points_answer.specs.Steps.Reading.{IsPointAnswerLine, IsPointWriteFault};

use crate::answer::{room_for_charges, verdict_on};
use crate::inputs::{PointInputs, read_point_inputs};
use crate::lines::{line_of_point_verdict, write_point_verdict};
use crate::verdict::PointBoundVerdict;
use polcert_answer::{Fault, RunFault};
use polcert_check::Progress;
use polcert_policy::PointFault;
use polcert_text::{Sink, Source};
use std::alloc::{AllocError, Global};

/// Reads a model, vectors, one for each of its actions, each value rounded up, and belief points from three sources, checks whether they
/// bound every policy that sees the observations alone, writes the line of the verdict, and nothing else, and returns the verdict. Nothing
/// is written before all texts are accepted and the verdict is known. `progress` is notified of each point that passes, as of a node.
///
/// # Errors
///
/// `Text` if a text is refused or memory runs out, `ReadModel`, `ReadVectors` or `ReadPoints` if a read of that source failed, `Write` if a
/// write failed.
// (Six parameters: each of the devices is of a type of its own.)
pub fn run_point_check<M: Source, V: Source, P: Source, W: Sink, O: Progress>(
    alloc: Global,
    model: &mut M,
    vectors: &mut V,
    points: &mut P,
    sink: &mut W,
    progress: &mut O,
) -> Result<PointBoundVerdict, RunFault>
    // The sink took exactly the line of the answer to the texts of the three sources; or if a write failed,
    // a beginning of the line.
    ensures answered { WritesAnswer W.writes (HasPointBoundVerdict (text_of M.reads model.old model.new)
        (text_of V.reads vectors.old vectors.new) (text_of P.reads points.old points.new))
        result sink.old sink.new }

    // The headline: a yes bounds every policy of the texts that were read, for every number of steps, at each
    // point and from the start.
    ensures promise { result ≡ Ok PointBoundVerdict.Yes →
        HasPointPromise (text_of M.reads model.old model.new)
        (text_of V.reads vectors.old vectors.new) (text_of P.reads points.old points.new) }

    // And the number on the written line is promised from the start.
    ensures start_promise { result ≡ Ok PointBoundVerdict.Yes → (line : List ℕ)
        × HasPointStartPromise (text_of M.reads model.old model.new)
        (text_of V.reads vectors.old vectors.new) (text_of P.reads points.old points.new) line
        × Takes W.writes sink.old line sink.new }

    // The first text that is none of its kind is refused, for a right reason. An I/O error is reported
    // exactly if one occurred. Each source is read to its end before the next. With any other fault than that
    // of a write nothing was written.
    ensures stops { StopsPointsRightly result
        M.reads M.failures model.old model.new
        V.reads V.failures vectors.old vectors.new
        P.reads P.failures points.old points.new
        W.failures sink.old sink.new }

    // No fault of another kind is answered.
    ensures of_a_check { IfErr result IsPointCheckFault }
{
    let read = read_point_inputs(alloc, model, vectors, points)?;
    write_point_answer(alloc, &read, sink, progress)
}

/// Checks what three texts denote, writes the line of the verdict, and returns the verdict.
fn write_point_answer<W: Sink, O: Progress>(
    alloc: Global,
    read: &PointInputs,
    sink: &mut W,
    progress: &mut O,
) -> Result<PointBoundVerdict, RunFault>
    requires vectors { FitActions (table_of (meaning read.now.bound.model)) read.now.bound.vectors }
    requires points { FitPoints (table_of (meaning read.now.bound.model)) (table_of_set read.now.points) }
    ensures answered { WritesAnswer W.writes (IsPointAnswerLine (meaning read.now.bound.model)
        read.now.bound.vectors (table_of_set read.now.points)) result sink.old sink.new }
    ensures write { IsNamedRightly (IsErrOf result RunFault.Write)
        (W.failures sink.old) (W.failures sink.new) }
    ensures untouched { (fault : RunFault) → IsErrOf result fault
        → fault ≢ RunFault.Write → sink.new ≡ sink.old }
    ensures of_writing { IfErr result IsPointWriteFault }
{
    let mut charges = match room_for_charges(alloc, read) {
        Ok(charges) => charges,
        Err(AllocError) => return Err(RunFault::Text(Fault::Points(PointFault::Memory))),
    };
    let verdict = verdict_on(read, &mut charges, progress);
    let line = line_of_point_verdict(read, verdict, &mut charges);
    match write_point_verdict(line, sink) {
        Ok(()) => Ok(verdict),
        Err(_) => Err(RunFault::Write),
    }
}
