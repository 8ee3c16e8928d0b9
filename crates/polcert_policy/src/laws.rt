//! Laws of the definitions, each the contract of a function with nothing to do. Nothing calls them: they are for readers, and for proofs to
//! cite.
ghost use Rattle.std.specs.Prelude.{◌≡◌, ◌≢◌, ◌<◌, ◌≤◌, ◌++◌, ℕ, List};
ghost use Rattle.polcert_policy.specs.Graphs.{PolicyGraph, AreGraphTokens, IsLooseGraph, IsProperGraph, HasNodesOnly, nodes, action_of, most_nodes};
ghost use Rattle.polcert_cells.specs.Elements.{most_states, most_actions, most_observations};
ghost use Rattle.polcert_policy.specs.GraphText.{IsGraphText, IsGraphRefusal};
ghost use Rattle.polcert_policy.specs.Vectors.{PolicyVectors, AreVectorTokens, IsRoundedVectors, AreProperVectors, IsInRange, value_of};
ghost use Rattle.polcert_text.specs.Cut.{Lexeme};
ghost use Rattle.polcert_policy.specs.VectorText.{IsVectorsText, IsVectorsRefusal, IsRoundedVectorsText, IsRoundedVectorsRefusal};
ghost use Rattle.polcert_policy.specs.ActionVectors.{action_graph, IsActionVectorsText};
ghost use Rattle.polcert_policy.specs.FullForm.{vectors_text};
ghost use Rattle.polcert_policy.specs.Points.{PointValues, AreProperPoints};
ghost use Rattle.polcert_policy.specs.PointText.{ArePointTokens, BeginPoints, IsPointsText, IsPointsRefusal};
ghost use Rattle.polcert_policy.specs.PointFields.{AreFieldTokens};

use crate::{GraphFault, PointFault, VectorFault};
use polcert_text::Rounding;

/// A text is at most one graph.
pub fn one_graph()
    ensures { (actions observations : ℕ) (text : List ℕ) (g h : PolicyGraph) →
        IsGraphText actions observations text g → IsGraphText actions observations text h → g ≡ h }
{}

/// Tokens are a graph, field after field, exactly if they are one by the index of each token and each successor is a node.
pub fn graphs_by_index()
    ensures indexed { (actions observations : ℕ) (tokens : List Lexeme) (g : PolicyGraph) →
        AreGraphTokens actions observations tokens g →
        IsLooseGraph actions observations tokens g × HasNodesOnly g }
    ensures flat { (actions observations : ℕ) (tokens : List Lexeme) (g : PolicyGraph) →
        IsLooseGraph actions observations tokens g → HasNodesOnly g →
        AreGraphTokens actions observations tokens g }
{}

/// A text is refused as a graph for at most one reason, and at one place, out of memory aside.
pub fn one_graph_refusal()
    ensures { (actions observations : ℕ) (text : List ℕ) (f g : GraphFault) →
        f ≢ GraphFault.Memory → g ≢ GraphFault.Memory →
        IsGraphRefusal actions observations text f → IsGraphRefusal actions observations text g → f ≡ g }
{}

/// The graph that a text denotes is within its limits: it has 1 to 10,000 nodes, each takes an action below the count that
/// the text was read for, and each successor is a node.
pub fn graph_within_limits()
    ensures counts { (actions observations : ℕ) (text : List ℕ) (g : PolicyGraph) →
        IsGraphText actions observations text g → (g.actions ≡ actions) × (g.observations ≡ observations) }
    ensures nodes { (actions observations : ℕ) (text : List ℕ) (g : PolicyGraph) →
        IsGraphText actions observations text g → (1 ≤ nodes g) × (nodes g ≤ most_nodes) }
    ensures actions { (actions observations : ℕ) (text : List ℕ) (g : PolicyGraph) →
        IsGraphText actions observations text g → (n : ℕ) → n < nodes g → action_of g n < actions }
    ensures successors { (actions observations : ℕ) (text : List ℕ) (g : PolicyGraph) →
        IsGraphText actions observations text g → HasNodesOnly g }

    // So, if the counts are within theirs, it is what is true of every graph.
    ensures proper { (actions observations : ℕ) (text : List ℕ) (g : PolicyGraph) →
        actions ≤ most_actions → 1 ≤ observations → observations ≤ most_observations →
        IsGraphText actions observations text g → IsProperGraph g }
{}

/// A text is at most one list of vectors of a graph, rounded down or up.
pub fn one_vectors()
    ensures down { (graph : PolicyGraph) (states : ℕ) (text : List ℕ) (v w : PolicyVectors) →
        IsVectorsText graph states text v → IsVectorsText graph states text w → v ≡ w }
    ensures either_way { (rounding : Rounding) (graph : PolicyGraph) (states : ℕ) (text : List ℕ)
        (v w : PolicyVectors) →
        IsRoundedVectorsText rounding graph states text v → IsRoundedVectorsText rounding graph states text w
        → v ≡ w }
{}

/// Tokens are vectors of a graph, field after field, exactly if they are by the index of each number.
pub fn vectors_by_index()
    ensures indexed { (rounding : Rounding) (graph : PolicyGraph) (states : ℕ) (tokens : List Lexeme)
        (v : PolicyVectors) →
        AreVectorTokens rounding graph states tokens v → IsRoundedVectors rounding graph states tokens v }
    ensures flat { (rounding : Rounding) (graph : PolicyGraph) (states : ℕ) (tokens : List Lexeme)
        (v : PolicyVectors) →
        IsRoundedVectors rounding graph states tokens v → AreVectorTokens rounding graph states tokens v }
{}

/// A text is refused as vectors of a graph for at most one reason, and at one place, out of memory aside.
pub fn one_vectors_refusal()
    ensures down { (graph : PolicyGraph) (states : ℕ) (text : List ℕ) (f g : VectorFault) →
        f ≢ VectorFault.Memory → g ≢ VectorFault.Memory →
        IsVectorsRefusal graph states text f → IsVectorsRefusal graph states text g → f ≡ g }
    ensures either_way { (rounding : Rounding) (graph : PolicyGraph) (states : ℕ) (text : List ℕ)
        (f g : VectorFault) →
        f ≢ VectorFault.Memory → g ≢ VectorFault.Memory →
        IsRoundedVectorsRefusal rounding graph states text f
        → IsRoundedVectorsRefusal rounding graph states text g → f ≡ g }
{}

/// The vectors that a text denotes are within their limits: there is one for each node of the graph, each has a value for
/// each state that the text was read for, and each value is at most 10,000,000 in size.
pub fn vectors_within_limits()
    ensures counts { (graph : PolicyGraph) (states : ℕ) (text : List ℕ) (v : PolicyVectors) →
        IsVectorsText graph states text v → (v.nodes ≡ nodes graph) × (v.states ≡ states) }
    ensures values { (graph : PolicyGraph) (states : ℕ) (text : List ℕ) (v : PolicyVectors) →
        IsVectorsText graph states text v → (n s : ℕ) → n < nodes graph → s < states
        → IsInRange (value_of v n s) }

    // So, if the counts are within theirs, they are what is true of all vectors.
    ensures proper { (graph : PolicyGraph) (states : ℕ) (text : List ℕ) (v : PolicyVectors) →
        1 ≤ nodes graph → nodes graph ≤ most_nodes → 1 ≤ states → states ≤ most_states →
        IsVectorsText graph states text v → AreProperVectors v }

    // So are those whose values are rounded up.
    ensures either_way { (rounding : Rounding) (graph : PolicyGraph) (states : ℕ) (text : List ℕ)
        (v : PolicyVectors) →
        1 ≤ nodes graph → nodes graph ≤ most_nodes → 1 ≤ states → states ≤ most_states →
        IsRoundedVectorsText rounding graph states text v →
        (v.nodes ≡ nodes graph) × (v.states ≡ states) × AreProperVectors v }
{}

/// The graph of actions has a node for each action, which takes it, and is what is true of every graph.
pub fn action_graph_has_every_action()
    ensures nodes { (actions : ℕ) → nodes (action_graph actions) ≡ actions }
    ensures actions { (actions a : ℕ) → a < actions → action_of (action_graph actions) a ≡ a }
    ensures proper { (actions : ℕ) → 1 ≤ actions → actions ≤ most_actions →
        IsProperGraph (action_graph actions) }
{}

/// The vectors of actions that a text denotes are within their limits: there is one for each action that the text was read
/// for, each has a value for each state, and each value is at most 10,000,000 in size.
pub fn action_vectors_within_limits()
    ensures counts { (actions states : ℕ) (text : List ℕ) (v : PolicyVectors) →
        IsActionVectorsText actions states text v → (v.nodes ≡ actions) × (v.states ≡ states) }
    ensures proper { (actions states : ℕ) (text : List ℕ) (v : PolicyVectors) →
        1 ≤ actions → actions ≤ most_actions → 1 ≤ states → states ≤ most_states →
        IsActionVectorsText actions states text v → AreProperVectors v }
{}

/// The full form of vectors, read with their graph and number of states, is accepted and gives the vectors back.
pub fn vectors_read_back()
    ensures down { (graph : PolicyGraph) (v : PolicyVectors) → IsProperGraph graph → AreProperVectors v →
        v.nodes ≡ nodes graph → IsVectorsText graph v.states (vectors_text graph v) v }
    ensures either_way { (rounding : Rounding) (graph : PolicyGraph) (v : PolicyVectors) →
        IsProperGraph graph → AreProperVectors v →
        v.nodes ≡ nodes graph → IsRoundedVectorsText rounding graph v.states (vectors_text graph v) v }
{}

/// A text is at most one list of belief points.
pub fn one_points()
    ensures { (states actions observations : ℕ) (text : List ℕ) (p q : PointValues) →
        1 ≤ states → 1 ≤ actions → 1 ≤ observations →
        IsPointsText states actions observations text p → IsPointsText states actions observations text q →
        p ≡ q }
{}

/// A text is refused as belief points for at most one reason, and at one place, out of memory aside.
pub fn one_points_refusal()
    ensures { (states actions observations : ℕ) (text : List ℕ) (f g : PointFault) →
        f ≢ PointFault.Memory → g ≢ PointFault.Memory →
        IsPointsRefusal states actions observations text f →
        IsPointsRefusal states actions observations text g → f ≡ g }
{}

/// Tokens are read as belief points exactly if they are their fields, one after another.
pub fn points_by_fields()
    ensures read { (states actions observations : ℕ) (tokens : List Lexeme) (p : PointValues) →
        1 ≤ states → 1 ≤ actions → 1 ≤ observations →
        ArePointTokens states actions observations tokens p →
        AreFieldTokens states actions observations tokens p }
    ensures fields { (states actions observations : ℕ) (tokens : List Lexeme) (p : PointValues) →
        1 ≤ states → 1 ≤ actions → 1 ≤ observations →
        AreFieldTokens states actions observations tokens p →
        ArePointTokens states actions observations tokens p }

    // So tokens that no fields of points begin with are those that a refusal is for.
    ensures fronts { (states actions observations : ℕ) (front more : List Lexeme) (p : PointValues) →
        1 ≤ states → 1 ≤ actions → 1 ≤ observations →
        AreFieldTokens states actions observations (front ++ more) p →
        BeginPoints states actions observations front }
{}

/// The points that a text denotes are within their limits, if the counts that the text was read for are.
pub fn points_within_limits()
    ensures counts { (states actions observations : ℕ) (text : List ℕ) (p : PointValues) →
        IsPointsText states actions observations text p →
        (p.states ≡ states) × (p.actions ≡ actions) × (p.observations ≡ observations) }
    ensures proper { (states actions observations : ℕ) (text : List ℕ) (p : PointValues) →
        1 ≤ states → states ≤ most_states → 1 ≤ actions → actions ≤ most_actions →
        1 ≤ observations → observations ≤ most_observations →
        IsPointsText states actions observations text p → AreProperPoints p }
{}
