//! Reads vectors of which there is one for each action of a model.
ghost use Rattle.std.specs.Prelude.{◌≡◌, ◌≤◌, IfOk, IfErr, MatchResult};
ghost use Rattle.polcert_text.specs.ReadTexts.{ReadsText};
ghost use Rattle.polcert_cells.specs.Elements.{most_actions, most_states};
ghost use Rattle.polcert_policy.specs.ActionVectors.{action_graph, IsActionVectorsText, IsNoActionVectorsText, IsActionVectorsRefusal, IsRefusedActionVectorsText};

use crate::fault::VectorFault;
use crate::graph::{Graph, Successor, push};
use crate::vectors::{Vectors, read_rounded_vectors, read_rounded_vectors_from};
use polcert_text::{Rounding, Source, SourceFault};
use std::alloc::{AllocError, Global};

impl Graph {
    /// Returns the graph whose node `a` takes action `a`, so that one vector for each action can be read and written as vectors of a graph.
    /// It has one observation, for which no node has a successor.
    ///
    /// # Errors
    ///
    /// If memory runs out.
    pub fn of_actions(alloc: Global, actions: usize) -> Result<Graph, AllocError>
        requires some_actions { 1 ≤ actions }
        requires few_actions { actions ≤ most_actions }
        ensures { IfOk result (λ graph. graph ≡ action_graph actions) }
    {
        let mut chosen = Vec::with_capacity(alloc, actions)?;
        let mut successors = Vec::with_capacity(alloc, actions)?;
        for action in 0..actions {
            push(&mut chosen, action)?;
            push(&mut successors, Successor::of(None))?;
        }
        Ok(Graph::new(actions, 1, chosen, successors))
    }
}

/// Reads one vector for each action of a model, in the order of the actions: for each the action's number and then a number for each state.
/// Each value is rounded up to whole millionths, so that the vectors stay bounds from above. `actions` and `states` are the model's counts.
/// For texts in memory: the programs call `read_action_vectors_from`.
///
/// # Errors
///
/// Those of `read_vectors`, for the graph whose node `a` takes action `a`.
pub fn read_action_vectors(
    alloc: Global,
    text: &[u8],
    actions: usize,
    states: usize,
) -> Result<Vectors, VectorFault>
    requires some_actions { 1 ≤ actions }
    requires few_actions { actions ≤ most_actions }
    requires some_states { 1 ≤ states }
    requires few_states { states ≤ most_states }
    ensures accepted { MatchResult result
        (IsActionVectorsText actions states text.now)
        (IsNoActionVectorsText actions states text.now) }
    ensures refused { IfErr result (IsActionVectorsRefusal actions states text.now) }
{
    let graph = Graph::of_actions(alloc, actions)?;
    read_rounded_vectors(alloc, Rounding::Up, text, &graph, states)
}

/// Reads one vector for each action of a model, as `read_action_vectors` does, from the text that the source gives, to its true end.
/// Nothing of the text is kept but the vectors.
///
/// # Errors
///
/// `Device` if a read failed, and else what `read_action_vectors` refuses. A text that is refused before its source fails is
/// refused.
pub fn read_action_vectors_from<S: Source>(
    alloc: Global,
    source: &mut S,
    actions: usize,
    states: usize,
) -> Result<Vectors, SourceFault<VectorFault>>
    requires some_actions { 1 ≤ actions }
    requires few_actions { actions ≤ most_actions }
    requires some_states { 1 ≤ states }
    requires few_states { states ≤ most_states }
    ensures read { ReadsText S.reads S.failures source.old source.new
        (IsActionVectorsText actions states) (IsRefusedActionVectorsText actions states) result }
{
    match Graph::of_actions(alloc, actions) {
        Ok(graph) => read_rounded_vectors_from(alloc, Rounding::Up, source, &graph, states),
        Err(_) => Err(SourceFault::Refused(VectorFault::Memory)),
    }
}
