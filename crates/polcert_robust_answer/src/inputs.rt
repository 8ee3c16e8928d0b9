//! The model, the graph and the vectors that the texts of three sources denote.
ghost use Rattle.std.specs.Prelude.{ℕ, List, IfOk, IfErr, IsErrOf};
ghost use Rattle.polcert_text.specs.Source.{EachTextThatFits, IsText};
ghost use Rattle.polcert_cells.specs.Meaning.{actions_of, observations_of, states_of};
ghost use Rattle.polcert_model.specs.Contents.{meaning};
ghost use Rattle.polcert_model.specs.Text.{IsModelText};
ghost use Rattle.polcert_policy.specs.GraphText.{IsGraphText};
ghost use Rattle.polcert_policy.specs.VectorText.{IsRoundedVectorsText};
ghost use Rattle.polcert_answer.specs.Answer.{AreRoundedVectorsRefused, HasGraph, IsGraphRefused};
ghost use Rattle.polcert_answer.specs.Run.{IsNamedRightly, NamesSourcesRightly, ReadsInOrder, RefusesRightly, text_of};
ghost use Rattle.polcert_answer.specs.Steps.Reading.{AreDenoted, IsGraphReadFault, IsReadFault, IsVectorsReadFault};

use polcert_answer::{Fault, RunFault, model_of_run};
use polcert_model::Model;
use polcert_policy::{Graph, Vectors, read_graph_from, read_rounded_vectors_from};
use polcert_text::{Rounding, Source, SourceFault};
use std::alloc::Global;

/// A model, a policy graph for it, and the graph's vectors.
pub(crate) struct NearInputs {
    pub model: Model,
    pub graph: Graph,
    pub vectors: Vectors,
}

// (Written by hand so that callers prove one drop.)
impl Drop for NearInputs {
    fn drop(self) {
        let NearInputs {
            model: _,
            graph: _,
            vectors: _,
        } = self;
    }
}

/// Reads the policy graph of a source, for the model. A refusal becomes the fault of a run.
fn read_near_graph<S: Source>(
    alloc: Global,
    model: &Model,
    source: &mut S,
) -> Result<Graph, RunFault>
    ensures accepted { IfOk result (λ g. (text : List ℕ)
        × IsText S.reads source.old text source.new
        × IsGraphText (actions_of (meaning model.now)) (observations_of (meaning model.now)) text g) }
    ensures refused { (fault : _) → IsErrOf result (RunFault.Text (Fault.Graph fault))
        → (first : List ℕ) → IsModelText first (meaning model.now)
        → EachTextThatFits S.reads source.old source.new (IsGraphRefused first fault) }
    ensures read { IsNamedRightly (IsErrOf result RunFault.ReadGraph)
        (S.failures source.old) (S.failures source.new) }
    ensures of_a_graph { IfErr result IsGraphReadFault }
{
    match read_graph_from(alloc, source, model.actions(), model.observations()) {
        Ok(graph) => Ok(graph),
        Err(SourceFault::Device) => Err(RunFault::ReadGraph),
        Err(SourceFault::Refused(fault)) => Err(RunFault::Text(Fault::Graph(fault))),
    }
}

/// Reads the vectors of the graph from a source, each value rounded this way. A refusal becomes the fault of a run.
fn read_near_vectors<S: Source>(
    alloc: Global,
    rounding: Rounding,
    model: &Model,
    graph: &Graph,
    source: &mut S,
) -> Result<Vectors, RunFault>
    ensures accepted { IfOk result (λ v. (text : List ℕ)
        × IsText S.reads source.old text source.new
        × IsRoundedVectorsText rounding graph.now (states_of (meaning model.now)) text v) }
    ensures refused { (fault : _) → IsErrOf result (RunFault.Text (Fault.Vectors fault))
        → (first second : List ℕ) → HasGraph first second (meaning model.now) graph.now
        → EachTextThatFits S.reads source.old source.new
        (AreRoundedVectorsRefused rounding first second fault) }
    ensures read { IsNamedRightly (IsErrOf result RunFault.ReadVectors)
        (S.failures source.old) (S.failures source.new) }
    ensures of_vectors { IfErr result IsVectorsReadFault }
{
    match read_rounded_vectors_from(alloc, rounding, source, graph, model.states()) {
        Ok(vectors) => Ok(vectors),
        Err(SourceFault::Device) => Err(RunFault::ReadVectors),
        Err(SourceFault::Refused(fault)) => Err(RunFault::Text(Fault::Vectors(fault))),
    }
}

/// Reads the inputs from three sources, each to its end before the next, with each value of a vector rounded this way.
pub(crate) fn read_near_inputs<M: Source, G: Source, V: Source>(
    alloc: Global,
    rounding: Rounding,
    model: &mut M,
    graph: &mut G,
    vectors: &mut V,
) -> Result<NearInputs, RunFault>
    ensures accepted { IfOk result (λ c. AreDenoted rounding
        (text_of M.reads model.old model.new)
        (text_of G.reads graph.old graph.new)
        (text_of V.reads vectors.old vectors.new)
        (meaning c.model) c.graph c.vectors) }
    ensures refused { RefusesRightly rounding result
        M.reads model.old model.new
        G.reads graph.old graph.new
        V.reads vectors.old vectors.new }
    ensures read { NamesSourcesRightly result
        M.failures model.old model.new
        G.failures graph.old graph.new
        V.failures vectors.old vectors.new }
    ensures in_order { IfErr result (λ fault.
        ReadsInOrder fault graph.old graph.new vectors.old vectors.new) }
    ensures of_reading { IfErr result IsReadFault }
{
    let model = model_of_run(alloc, model)?;
    let graph = read_near_graph(alloc, &model, graph)?;
    let vectors = read_near_vectors(alloc, rounding, &model, &graph, vectors)?;
    Ok(NearInputs {
        model,
        graph,
        vectors,
    })
}
