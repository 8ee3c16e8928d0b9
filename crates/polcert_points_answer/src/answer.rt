//! The answer to three texts in memory, a model, one vector for each of its actions and belief points; and the verdict on what they denote.
ghost use Rattle.std.specs.Prelude.{◌≡◌, ◌*◌, length, IfOk, Ok};
ghost use Rattle.polcert_cells.specs.Tables.{table_of};
ghost use Rattle.polcert_model.specs.Contents.{meaning};
ghost use Rattle.polcert_policy.specs.Vectors.{value_of};
ghost use Rattle.polcert_optimum.specs.Informed.{AreInformed};
ghost use Rattle.polcert_optimum.specs.InformedCheck.{FitActions};
ghost use Rattle.polcert_points.specs.PointTable.{FitPoints, table_of_set};
ghost use Rattle.polcert_points_answer.specs.Answer.{IsPointBoundAnswer, IsPointBoundVerdict};
ghost use Rattle.polcert_points_answer.specs.Headline.{IsCertifiedByPoints};
ghost use Rattle.polcert_points_answer.specs.Steps.Reading.{NamesSmallPointAmount};

use crate::inputs::{PointInputs, read_point_texts};
use crate::verdict::PointBoundVerdict;
use polcert_answer::Fault;
use polcert_check::{NoProgress, Progress};
use polcert_optimum::{InformedVerdict, check_informed};
use polcert_points::{PointVerdict, ReadPoints, check_points_watched};
use polcert_policy::PointFault;
use std::alloc::{AllocError, Global};

/// Returns a buffer for the charge of each action at each state.
pub(crate) fn room_for_charges(alloc: Global, read: &PointInputs) -> Result<Vec<i64>, AllocError>
    ensures { IfOk result (λ charges. length charges.items ≡
        (table_of (meaning read.now.bound.model)).actions
        * (table_of (meaning read.now.bound.model)).states) }
{
    let model = &read.bound.model;
    vec![in alloc; 0; model.actions() * model.states()]
}

/// Returns the verdict on what three texts denote. `charges` is a buffer with room for each action and state.
pub(crate) fn verdict_on<O: Progress>(
    read: &PointInputs,
    charges: &mut [i64],
    progress: &mut O,
) -> PointBoundVerdict
    requires vectors { FitActions (table_of (meaning read.now.bound.model)) read.now.bound.vectors }
    requires points { FitPoints (table_of (meaning read.now.bound.model)) (table_of_set read.now.points) }
    requires room { length charges.old ≡
        (table_of (meaning read.now.bound.model)).actions * (table_of (meaning read.now.bound.model)).states }
    ensures verdict { IsPointBoundVerdict (table_of (meaning read.now.bound.model))
        (value_of read.now.bound.vectors) (table_of_set read.now.points) result }
    ensures small { NamesSmallPointAmount (table_of (meaning read.now.bound.model))
        (table_of_set read.now.points) result }
{
    let bound = &read.bound;
    match check_informed(&bound.model, &bound.vectors) {
        InformedVerdict::Yes => verdict_on_points(read, charges, progress),
        InformedVerdict::Exceeded {
            action,
            state,
            amount,
        } => PointBoundVerdict::VectorExceeded {
            action,
            state,
            amount,
        },
    }
}

/// Returns the verdict on what three texts denote whose vectors are informed.
fn verdict_on_points<O: Progress>(
    read: &PointInputs,
    charges: &mut [i64],
    progress: &mut O,
) -> PointBoundVerdict
    requires vectors { FitActions (table_of (meaning read.now.bound.model)) read.now.bound.vectors }
    requires points { FitPoints (table_of (meaning read.now.bound.model)) (table_of_set read.now.points) }
    requires room { length charges.old ≡
        (table_of (meaning read.now.bound.model)).actions * (table_of (meaning read.now.bound.model)).states }
    requires informed { AreInformed (table_of (meaning read.now.bound.model))
        (value_of read.now.bound.vectors) }
    ensures verdict { IsPointBoundVerdict (table_of (meaning read.now.bound.model))
        (value_of read.now.bound.vectors) (table_of_set read.now.points) result }
    ensures small { NamesSmallPointAmount (table_of (meaning read.now.bound.model))
        (table_of_set read.now.points) result }
{
    let bound = &read.bound;
    let points = ReadPoints::of(&read.points);
    let _vectors = bound.vectors.nodes();
    match check_points_watched(&bound.model, &bound.vectors, &points, charges, progress) {
        PointVerdict::Yes => PointBoundVerdict::Yes,
        PointVerdict::Exceeded {
            point,
            action,
            amount,
        } => PointBoundVerdict::PointExceeded {
            point,
            action,
            amount,
        },
    }
}

/// Returns the answer to the texts of a model, of vectors, one for each action of the model, each value rounded up, and of belief points:
/// whether vectors and points bound what every policy earns that sees the observations alone. For callers with texts in memory; the program
/// calls `run_point_check`.
///
/// # Errors
///
/// The first text that is none of its kind, with the reason and the place; or out of memory. It is never `Graph`.
pub fn check_point_texts(
    alloc: Global,
    model: &[u8],
    vectors: &[u8],
    points: &[u8],
) -> Result<PointBoundVerdict, Fault>
    // The verdict on what the texts denote, or a right refusal of the first that denotes nothing.
    ensures answer { IsPointBoundAnswer model.now vectors.now points.now result }

    // The headline: a yes bounds every policy, for every number of steps, at each point and from the start.
    ensures promise { result ≡ Ok PointBoundVerdict.Yes →
        IsCertifiedByPoints model.now vectors.now points.now }
{
    let read = read_point_texts(alloc, model, vectors, points)?;
    match room_for_charges(alloc, &read) {
        Ok(mut charges) => Ok(verdict_on(&read, &mut charges, &mut NoProgress)),
        Err(AllocError) => Err(Fault::Points(PointFault::Memory)),
    }
}
