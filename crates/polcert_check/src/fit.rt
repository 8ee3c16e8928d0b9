//! Whether a graph and its vectors are for a model.
ghost use Rattle.std.specs.Prelude.{◌↔◌, IsTrue};
ghost use Rattle.polcert_check.specs.Horizon.{Fits};

use polcert_model::Cells;
use polcert_policy::{Graph, Vectors};

/// Tests whether the graph and the vectors are for this model: the graph was read for the model's counts of actions and observations, and
/// each of its nodes has a vector with a value for each of the model's states. Every check requires this; the runs have it from reading.
pub fn fits<C: Cells>(cells: &C, graph: &Graph, vectors: &Vectors) -> bool
    ensures { IsTrue result ↔ Fits (C.table cells.now) graph.now vectors.now }
{
    graph.actions() == cells.actions()
        && graph.observations() == cells.observations()
        && vectors.nodes() == graph.nodes()
        && vectors.states() == cells.states()
}
