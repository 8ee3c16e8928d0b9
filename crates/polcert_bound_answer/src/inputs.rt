//! The model and the vectors that two texts denote, whether they are in memory or come from sources.
ghost use Rattle.std.specs.Prelude.{ℕ, List, IfOk, IfErr, IsErrOf};
ghost use Rattle.polcert_text.specs.Source.{IsText, EachTextThatFits};
ghost use Rattle.polcert_model.specs.Contents.{meaning};
ghost use Rattle.polcert_model.specs.Text.{IsModelText};
ghost use Rattle.polcert_cells.specs.Meaning.{states_of, actions_of};
ghost use Rattle.polcert_policy.specs.ActionVectors.{IsActionVectorsText};
ghost use Rattle.polcert_answer.specs.Run.{text_of, IsNamedRightly};
ghost use Rattle.polcert_answer.specs.Steps.Reading.{IsVectorsReadFault};
ghost use Rattle.polcert_bound_answer.specs.Answer.{AreActionVectorsRefused, IsBoundFault};
ghost use Rattle.polcert_bound_answer.specs.Run.{RefusesBoundRightly, NamesBoundSourcesRightly, ReadsModelFirst};
ghost use Rattle.polcert_bound_answer.specs.Inputs.{AreBoundDenoted, IsBoundReadFault};

use polcert_answer::{Fault, RunFault, model_of_run};
use polcert_model::Model;
use polcert_policy::{Vectors, read_action_vectors_from};
use polcert_text::{SliceSource, Source, SourceFault};
use std::alloc::Global;

/// A model, and one vector for each of its actions.
pub struct BoundInputs {
    pub model: Model,
    pub vectors: Vectors,
}

// (Written by hand so that callers prove one drop.)
impl Drop for BoundInputs {
    fn drop(self) {
        let BoundInputs {
            model: _,
            vectors: _,
        } = self;
    }
}

/// Returns the vectors, one for each action of the model, whose text the source gives, or the fault of a run.
fn action_vectors_of_run<S: Source>(
    alloc: Global,
    model: &Model,
    source: &mut S,
) -> Result<Vectors, RunFault>
    ensures accepted { IfOk result (λ v. (text : List ℕ)
        × IsText S.reads source.old text source.new
        × IsActionVectorsText (actions_of (meaning model.now)) (states_of (meaning model.now)) text v) }
    ensures refused { (fault : _) → IsErrOf result (RunFault.Text (Fault.Vectors fault))
        → (first : List ℕ) → IsModelText first (meaning model.now)
        → EachTextThatFits S.reads source.old source.new (AreActionVectorsRefused first fault) }
    ensures read { IsNamedRightly (IsErrOf result RunFault.ReadVectors)
        (S.failures source.old) (S.failures source.new) }
    ensures of_vectors { IfErr result IsVectorsReadFault }
{
    match read_action_vectors_from(alloc, source, model.actions(), model.states()) {
        Ok(vectors) => Ok(vectors),
        Err(SourceFault::Device) => Err(RunFault::ReadVectors),
        Err(SourceFault::Refused(fault)) => Err(RunFault::Text(Fault::Vectors(fault))),
    }
}

/// Returns what the texts of two sources denote. The model's source is read to its end first.
pub fn read_bound_inputs<M: Source, V: Source>(
    alloc: Global,
    model: &mut M,
    vectors: &mut V,
) -> Result<BoundInputs, RunFault>
    ensures accepted { IfOk result (λ c. AreBoundDenoted
        (text_of M.reads model.old model.new)
        (text_of V.reads vectors.old vectors.new)
        (meaning c.model) c.vectors) }
    ensures refused { RefusesBoundRightly result
        M.reads model.old model.new
        V.reads vectors.old vectors.new }
    ensures read { NamesBoundSourcesRightly result
        M.failures model.old model.new
        V.failures vectors.old vectors.new }
    ensures in_order { IfErr result (λ fault. ReadsModelFirst fault vectors.old vectors.new) }
    ensures of_reading { IfErr result IsBoundReadFault }
{
    let model = model_of_run(alloc, model)?;
    let vectors = action_vectors_of_run(alloc, &model, vectors)?;
    Ok(BoundInputs { model, vectors })
}

/// Returns what two texts denote.
pub fn read_bound_texts(alloc: Global, model: &[u8], vectors: &[u8]) -> Result<BoundInputs, Fault>
    ensures model_accepted { IfOk result (λ c. IsModelText model.now (meaning c.model)) }
    ensures vectors_accepted { IfOk result (λ c.
        IsActionVectorsText (actions_of (meaning c.model)) (states_of (meaning c.model))
        vectors.now c.vectors) }
    ensures refused { IfErr result (IsBoundFault model.now vectors.now) }
{
    let mut model = SliceSource::new(model);
    let mut vectors = SliceSource::new(vectors);
    match read_bound_inputs(alloc, &mut model, &mut vectors) {
        Ok(inputs) => Ok(inputs),
        Err(RunFault::Text(fault)) => Err(fault),
        Err(_) => unreachable!(),
    }
}
