//! The line of a verdict on vectors of the actions and belief points: what it says, and how it is written.
ghost use Rattle.std.specs.Prelude.{◌≡◌, ◌*◌, ◌<◌, ◌≤◌, pos, ◌<ℤ◌, length, unsigned_abs};
ghost use Rattle.polcert_text.specs.Sink.{WritesText};
ghost use Rattle.polcert_cells.specs.Tables.{table_of};
ghost use Rattle.polcert_check.specs.StartWorth.{IsCeilQuotient};
ghost use Rattle.polcert_optimum.specs.Policy.{step_scale};
ghost use Rattle.polcert_points.specs.Belief.{mass};
ghost use Rattle.polcert_model.specs.Contents.{meaning};
ghost use Rattle.polcert_policy.specs.Vectors.{value_of};
ghost use Rattle.polcert_optimum.specs.InformedCheck.{FitActions};
ghost use Rattle.polcert_points.specs.PointTable.{FitPoints, table_of_set};
ghost use Rattle.polcert_points_answer.specs.Answer.{IsPointBoundVerdict};
ghost use Rattle.polcert_points_answer.specs.Headline.{IsPointBoundMost};
ghost use Rattle.polcert_points_answer.specs.Lines.{IsPointBoundLine, point_line_text, point_exceeded_line};
ghost use Rattle.polcert_points_answer.specs.Steps.Reading.{NamesSmallPointAmount, most_point_excess};

use crate::inputs::PointInputs;
use crate::verdict::PointBoundVerdict;
use polcert_answer::write_count;
use polcert_bound_answer::{BoundLine, write_bound_verdict};
use polcert_check::millionths_short;
use polcert_check::one_step::small_quotient;
use polcert_optimum::bound_most_from_start;
use polcert_points::{ReadPoints, mass_of, most_from_points};
use polcert_text::{BufferedSink, Sink, SinkFailed, write_all, write_scaled};

/// What the line of a verdict says.
#[derive(Clone, Copy, Debug, PartialEq, Eq)]
pub enum PointBoundLine {
    /// A yes, or vectors that are exceeded: what the line of a check of vectors alone says.
    Bound(BoundLine),
    /// A no: the point and the action, and by how many millionths the backup is above the value.
    PointExceeded {
        point: usize,
        action: usize,
        by: i64,
    },
}

/// Returns what no policy of the model earns more than from its start, in millionths, rounded up: in an MDP what the vectors say alone.
fn most_of_yes(read: &PointInputs, charges: &mut [i64]) -> i64
    requires vectors { FitActions (table_of (meaning read.now.bound.model)) read.now.bound.vectors }
    requires points { FitPoints (table_of (meaning read.now.bound.model)) (table_of_set read.now.points) }
    requires room { length charges.old ≡
        (table_of (meaning read.now.bound.model)).actions * (table_of (meaning read.now.bound.model)).states }
    ensures { IsPointBoundMost (meaning read.now.bound.model) read.now.bound.vectors
        (table_of_set read.now.points) result }
{
    let bound = &read.bound;
    if bound.model.is_mdp() {
        bound_most_from_start(&bound.model, &bound.vectors)
    } else {
        let points = ReadPoints::of(&read.points);
        most_from_points(&bound.model, &bound.vectors, &points, charges)
    }
}

/// Returns by how many millionths the backup of an action at a point is above its value, rounded up, so that it is never 0.
fn millionths_above(read: &PointInputs, point: usize, amount: i128) -> i64
    requires points { FitPoints (table_of (meaning read.now.bound.model)) (table_of_set read.now.points) }
    requires point { point < (table_of_set read.now.points).points.count }
    requires above { pos 0 <ℤ amount }
    requires small { unsigned_abs amount ≤ most_point_excess (table_of (meaning read.now.bound.model))
        (table_of_set read.now.points) point }
    ensures { IsCeilQuotient amount (step_scale (table_of (meaning read.now.bound.model))
        * mass (table_of (meaning read.now.bound.model))
        ((table_of_set read.now.points).points.belief point)) result }
{
    let model = &read.bound.model;
    let mass = mass_of(&ReadPoints::of(&read.points), point);
    let scale = (model.t_scale() * model.o_scale()) as u128 * mass as u128;
    small_quotient(amount.unsigned_abs(), scale)
}

/// Returns what the line of a verdict says. `charges` is a buffer with room for each action and state.
pub(crate) fn line_of_point_verdict(
    read: &PointInputs,
    verdict: PointBoundVerdict,
    charges: &mut [i64],
) -> PointBoundLine
    requires vectors { FitActions (table_of (meaning read.now.bound.model)) read.now.bound.vectors }
    requires points { FitPoints (table_of (meaning read.now.bound.model)) (table_of_set read.now.points) }
    requires room { length charges.old ≡
        (table_of (meaning read.now.bound.model)).actions * (table_of (meaning read.now.bound.model)).states }
    requires verdict { IsPointBoundVerdict (table_of (meaning read.now.bound.model))
        (value_of read.now.bound.vectors) (table_of_set read.now.points) verdict }
    requires small { NamesSmallPointAmount (table_of (meaning read.now.bound.model))
        (table_of_set read.now.points) verdict }
    ensures { IsPointBoundLine (meaning read.now.bound.model) read.now.bound.vectors
        (table_of_set read.now.points) verdict (point_line_text result) }
{
    match verdict {
        PointBoundVerdict::Yes => {
            let most = most_of_yes(read, charges);
            PointBoundLine::Bound(BoundLine::AtMost { most })
        }
        PointBoundVerdict::VectorExceeded {
            action,
            state,
            amount,
        } => {
            let by = millionths_short(&read.bound.model, amount);
            PointBoundLine::Bound(BoundLine::Exceeded { action, state, by })
        }
        PointBoundVerdict::PointExceeded {
            point,
            action,
            amount,
        } => {
            let by = millionths_above(read, point, amount);
            PointBoundLine::PointExceeded { point, action, by }
        }
    }
}

/// Writes the line of a verdict, through a buffer.
pub(crate) fn write_point_verdict<W: Sink>(
    line: PointBoundLine,
    sink: &mut W,
) -> Result<(), SinkFailed>
    ensures { WritesText W.writes W.failures sink.old (point_line_text line) result sink.new }
{
    let mut buffered = BufferedSink::new(sink);
    write_point_line(line, &mut buffered)?;
    buffered.flush()
}

/// Writes the line of a verdict, piece by piece.
fn write_point_line<W: Sink>(line: PointBoundLine, sink: &mut W) -> Result<(), SinkFailed>
    ensures { WritesText W.writes W.failures sink.old (point_line_text line) result sink.new }
{
    match line {
        PointBoundLine::Bound(line) => write_bound_verdict(line, sink),
        PointBoundLine::PointExceeded { point, action, by } => {
            write_point_exceeded(point, action, by, sink)
        }
    }
}

/// Writes a no: the point, the action, and by how much the value is exceeded there, in millionths.
fn write_point_exceeded<W: Sink>(
    point: usize,
    action: usize,
    by: i64,
    sink: &mut W,
) -> Result<(), SinkFailed>
    ensures { WritesText W.writes W.failures sink.old (point_exceeded_line point action by) result sink.new }
{
    write_all(sink, b"no: point ")?;
    write_count(point, b", action ", sink)?;
    write_count(action, b", exceeded by ", sink)?;
    write_scaled(by, sink)?;
    write_all(sink, b"\n")
}
