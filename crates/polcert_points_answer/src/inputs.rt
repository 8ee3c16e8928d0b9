//! The model, the vectors and the points that three texts denote, whether they are in memory or come from sources.
ghost use Rattle.std.specs.Prelude.{ℕ, List, IfOk, IfErr, IsErrOf};
ghost use Rattle.polcert_text.specs.Source.{IsText, EachTextThatFits};
ghost use Rattle.polcert_cells.specs.Meaning.{states_of, actions_of, observations_of};
ghost use Rattle.polcert_model.specs.Contents.{meaning};
ghost use Rattle.polcert_policy.specs.PointText.{IsPointsText};
ghost use Rattle.polcert_policy.specs.Vectors.{PolicyVectors};
ghost use Rattle.polcert_answer.specs.Run.{text_of, IsNamedRightly};
ghost use Rattle.polcert_points_answer.specs.Answer.{ArePointsRefused, HasVectors, IsPointBoundFault};
ghost use Rattle.polcert_points_answer.specs.Run.{NamesPointSourcesRightly, ReadsPointsLast, RefusesPointsRightly};
ghost use Rattle.polcert_points_answer.specs.Steps.Reading.{ArePointsDenoted, IsPointReadFault, IsPointsReadFault};

use polcert_answer::{Fault, RunFault};
use polcert_bound_answer::{BoundInputs, read_bound_inputs};
use polcert_model::Model;
use polcert_policy::{PointSet, read_points_from};
use polcert_text::{SliceSource, Source, SourceFault};
use std::alloc::Global;

/// A model, one vector for each of its actions, and points.
pub struct PointInputs {
    pub bound: BoundInputs,
    pub points: PointSet,
}

// (Written by hand so that callers prove one drop.)
impl Drop for PointInputs {
    fn drop(self) {
        let PointInputs {
            bound: _,
            points: _,
        } = self;
    }
}

/// Returns the points for the model whose text the source gives, or the fault of a run.
fn points_of_run<S: Source>(
    alloc: Global,
    model: &Model,
    source: &mut S,
) -> Result<PointSet, RunFault>
    ensures accepted { IfOk result (λ p. (text : List ℕ)
        × IsText S.reads source.old text source.new
        × IsPointsText (states_of (meaning model.now)) (actions_of (meaning model.now))
        (observations_of (meaning model.now)) text p) }
    ensures refused { (fault : _) → IsErrOf result (RunFault.Text (Fault.Points fault))
        → (first second : List ℕ) (v : PolicyVectors) → HasVectors first second (meaning model.now) v
        → EachTextThatFits S.reads source.old source.new (ArePointsRefused first second fault) }
    ensures read { IsNamedRightly (IsErrOf result RunFault.ReadPoints)
        (S.failures source.old) (S.failures source.new) }
    ensures of_points { IfErr result IsPointsReadFault }
{
    let states = model.states();
    match read_points_from(alloc, source, states, model.actions(), model.observations()) {
        Ok(points) => Ok(points),
        Err(SourceFault::Device) => Err(RunFault::ReadPoints),
        Err(SourceFault::Refused(fault)) => Err(RunFault::Text(Fault::Points(fault))),
    }
}

/// Returns what the texts of three sources denote. Each source is read to its end before the next.
pub fn read_point_inputs<M: Source, V: Source, P: Source>(
    alloc: Global,
    model: &mut M,
    vectors: &mut V,
    points: &mut P,
) -> Result<PointInputs, RunFault>
    ensures accepted { IfOk result (λ c. ArePointsDenoted
        (text_of M.reads model.old model.new)
        (text_of V.reads vectors.old vectors.new)
        (text_of P.reads points.old points.new)
        (meaning c.bound.model) c.bound.vectors c.points) }
    ensures refused { RefusesPointsRightly result
        M.reads model.old model.new
        V.reads vectors.old vectors.new
        P.reads points.old points.new }
    ensures read { NamesPointSourcesRightly result
        M.failures model.old model.new
        V.failures vectors.old vectors.new
        P.failures points.old points.new }
    ensures in_order { IfErr result (λ fault.
        ReadsPointsLast fault vectors.old vectors.new points.old points.new) }
    ensures of_reading { IfErr result IsPointReadFault }
{
    let bound = read_bound_inputs(alloc, model, vectors)?;
    let points = points_of_run(alloc, &bound.model, points)?;
    Ok(PointInputs { bound, points })
}

/// Returns what three texts denote.
pub fn read_point_texts(
    alloc: Global,
    model: &[u8],
    vectors: &[u8],
    points: &[u8],
) -> Result<PointInputs, Fault>
    ensures vectors_accepted { IfOk result (λ c.
        HasVectors model.now vectors.now (meaning c.bound.model) c.bound.vectors) }
    ensures points_accepted { IfOk result (λ c.
        IsPointsText (states_of (meaning c.bound.model)) (actions_of (meaning c.bound.model))
        (observations_of (meaning c.bound.model)) points.now c.points) }
    ensures refused { IfErr result (IsPointBoundFault model.now vectors.now points.now) }
{
    let mut model = SliceSource::new(model);
    let mut vectors = SliceSource::new(vectors);
    let mut points = SliceSource::new(points);
    match read_point_inputs(alloc, &mut model, &mut vectors, &mut points) {
        Ok(inputs) => Ok(inputs),
        Err(RunFault::Text(fault)) => Err(fault),
        Err(_) => unreachable!(),
    }
}
