//! What a check of every model near one is given.
ghost use Rattle.polcert_policy.specs.Graphs.{IsProperGraph};
ghost use Rattle.polcert_policy.specs.Vectors.{AreProperVectors};
ghost use Rattle.polcert_check.specs.Horizon.{Fits};

use crate::distance::Distance;
use crate::side::Side;
use polcert_cells::Cells;
use polcert_policy::{Graph, Vectors};

/// A model's cells, a policy graph and its vectors, which fit, the distance, and from which side the values are bounds.
#[derive(Drop)]
pub(crate) struct RobustInput<'a, C: Cells> {
    pub cells: &'a C,
    pub graph: &'a Graph,
    pub vectors: &'a Vectors,
    pub distance: Distance,
    pub side: Side,
    ghost fits: { Fits (C.table cells.now) graph.now vectors.now },
    ghost is_proper_graph: { IsProperGraph graph.now },
    ghost are_proper: { AreProperVectors vectors.now },
}
