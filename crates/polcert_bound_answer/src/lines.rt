//! The line of a verdict on vectors of the actions: what it says, and how it is written.
ghost use Rattle.polcert_text.specs.Sink.{WritesText};
ghost use Rattle.polcert_model.specs.Contents.{meaning};
ghost use Rattle.polcert_cells.specs.Tables.{table_of};
ghost use Rattle.polcert_policy.specs.Vectors.{value_of};
ghost use Rattle.polcert_optimum.specs.InformedCheck.{FitActions, IsInformedVerdict, NamesSmallExcess};
ghost use Rattle.polcert_bound_answer.specs.Lines.{bound_line, exceeded_line, bound_line_text, IsBoundLine};

use polcert_answer::write_count;
use polcert_check::millionths_short;
use polcert_model::Model;
use polcert_optimum::{InformedVerdict, bound_most_from_start};
use polcert_policy::Vectors;
use polcert_text::{BufferedSink, Sink, SinkFailed, write_all, write_scaled};

/// What the line of a verdict says.
#[derive(Clone, Copy, Debug, PartialEq, Eq)]
pub enum BoundLine {
    /// A yes: what no policy earns more than from the start, in millionths.
    AtMost {
        most: i64,
    },
    /// A no: the action and the state, and by how many millionths the informed backup is above the vector.
    Exceeded {
        action: usize,
        state: usize,
        by: i64,
    },
}

/// Returns what the line of a verdict on the model and its vectors says.
pub fn line_of_verdict(model: &Model, vectors: &Vectors, verdict: InformedVerdict) -> BoundLine
    requires fit { FitActions (table_of (meaning model.now)) vectors.now }
    requires verdict { IsInformedVerdict (table_of (meaning model.now)) (value_of vectors.now) verdict }
    requires small { NamesSmallExcess (table_of (meaning model.now)) verdict }
    ensures { IsBoundLine (meaning model.now) vectors.now verdict (bound_line_text result) }
{
    match verdict {
        InformedVerdict::Yes => {
            let most = bound_most_from_start(model, vectors);
            BoundLine::AtMost { most }
        }
        InformedVerdict::Exceeded {
            action,
            state,
            amount,
        } => {
            let by = millionths_short(model, amount);
            BoundLine::Exceeded { action, state, by }
        }
    }
}

/// Writes the line of a verdict, through a buffer.
pub fn write_bound_verdict<W: Sink>(line: BoundLine, sink: &mut W) -> Result<(), SinkFailed>
    ensures { WritesText W.writes W.failures sink.old (bound_line_text line) result sink.new }
{
    let mut buffered = BufferedSink::new(sink);
    write_bound_line(line, &mut buffered)?;
    buffered.flush()
}

/// Writes the line of a verdict, piece by piece.
fn write_bound_line<W: Sink>(line: BoundLine, sink: &mut W) -> Result<(), SinkFailed>
    ensures { WritesText W.writes W.failures sink.old (bound_line_text line) result sink.new }
{
    match line {
        BoundLine::AtMost { most } => write_at_most(most, sink),
        BoundLine::Exceeded { action, state, by } => write_exceeded(action, state, by, sink),
    }
}

/// Writes a yes: what no policy earns more than, in millionths.
fn write_at_most<W: Sink>(most: i64, sink: &mut W) -> Result<(), SinkFailed>
    ensures { WritesText W.writes W.failures sink.old (bound_line most) result sink.new }
{
    write_all(sink, b"yes: every policy, at most ")?;
    write_scaled(most, sink)?;
    write_all(sink, b"\n")
}

/// Writes a no: the action, the state, and by how much the vector is exceeded there, in millionths.
fn write_exceeded<W: Sink>(
    action: usize,
    state: usize,
    by: i64,
    sink: &mut W,
) -> Result<(), SinkFailed>
    ensures { WritesText W.writes W.failures sink.old (exceeded_line action state by) result sink.new }
{
    write_all(sink, b"no: action ")?;
    write_count(action, b", state ", sink)?;
    write_count(state, b", exceeded by ", sink)?;
    write_scaled(by, sink)?;
    write_all(sink, b"\n")
}
