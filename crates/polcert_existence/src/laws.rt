//! That every text has an answer: laws of the definitions, each the contract of a function with nothing to do. Nothing calls them: they are
//! for readers, and for proofs to cite.
ghost use Rattle.std.specs.Prelude.{◌≤◌, ℕ, List};
ghost use Rattle.polcert_cells.specs.Elements.{most_actions, most_states};
ghost use Rattle.polcert_policy.specs.Graphs.{PolicyGraph, IsProperGraph};
ghost use Rattle.polcert_existence.specs.Answers.{HasModelAnswer, HasGraphAnswer, HasVectorsAnswer, HasActionVectorsAnswer};

use polcert_text::Rounding;

/// Every text is a model's, or has a right refusal other than out of memory.
pub fn every_text_is_a_model_or_refused()
    ensures { (text : List ℕ) → HasModelAnswer text }
{}

/// Every text is a graph's, or has a right refusal other than out of memory.
pub fn every_text_is_a_graph_or_refused()
    ensures { (actions observations : ℕ) (text : List ℕ) → 1 ≤ actions → 1 ≤ observations →
        HasGraphAnswer actions observations text }
{}

/// Every text is vectors of a given graph, with each value rounded down or up, or has a right refusal other than out of memory.
pub fn every_text_is_vectors_or_refused()
    ensures { (rounding : Rounding) (graph : PolicyGraph) (states : ℕ) (text : List ℕ) →
        IsProperGraph graph → 1 ≤ states → states ≤ most_states →
        HasVectorsAnswer rounding graph states text }
{}

/// Every text is one vector for each action, or has a right refusal other than out of memory.
pub fn every_text_is_action_vectors_or_refused()
    ensures { (actions states : ℕ) (text : List ℕ) →
        1 ≤ actions → actions ≤ most_actions → 1 ≤ states → states ≤ most_states →
        HasActionVectorsAnswer actions states text }
{}
