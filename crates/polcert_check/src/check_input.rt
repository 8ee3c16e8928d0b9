//! The three parts of a certificate, which belong together.
ghost use Rattle.std.specs.Prelude.{◌≡◌, ◌*◌};
ghost use Rattle.polcert_policy.specs.Graphs.{IsProperGraph};
ghost use Rattle.polcert_policy.specs.Vectors.{AreProperVectors};
ghost use Rattle.polcert_check.specs.Horizon.{Fits, controller_of};
ghost use Rattle.polcert_check.specs.Steps.Ranges.{IsController, ValuesAreWithin};

use crate::findings::Side;
use polcert_model::Cells;
use polcert_policy::{Graph, Successor, Vectors};

/// A model's cells, a policy graph and its vectors, which fit, and from which side the values are bounds.
#[derive(Drop)]
pub(crate) struct CheckInput<'a, C: Cells> {
    pub cells: &'a C,
    pub graph: &'a Graph,
    pub vectors: &'a Vectors,
    pub side: Side,
    /// The graph's successors and the vectors' values, each as one slice: a loop that writes elsewhere need not look these up again.
    pub successor_list: &'a [Successor],
    pub value_list: &'a [i64],
    pub observations: usize,
    pub states: usize,
    /// What the weights of all steps from a node and a state sum to; kept, with the discount, so that no pair computes it anew.
    pub step_scale: u64,
    pub discount: u32,
    ghost fits: { Fits (C.table cells.now) graph.now vectors.now },
    ghost proper: { IsController (controller_of (C.table cells.now) graph.now vectors.now) },
    ghost values: { ValuesAreWithin (controller_of (C.table cells.now) graph.now vectors.now) },
    ghost is_proper_graph: { IsProperGraph graph.now },
    ghost are_proper: { AreProperVectors vectors.now },
    ghost are_successors: { successor_list.now ≡ graph.now.successors },
    ghost are_values: { value_list.now ≡ vectors.now.values },
    ghost is_observations: { observations ≡ (C.table cells.now).observations },
    ghost is_states: { states ≡ (C.table cells.now).states },
    ghost is_step_scale: { step_scale ≡ (C.table cells.now).t_scale * (C.table cells.now).o_scale },
    ghost is_discount: { discount ≡ (C.table cells.now).discount },
}

impl<'a, C: Cells> CheckInput<'a, C> {
    ghost use Rattle.polcert_check.specs.Steps.CheckInput.{input_controller, checked_controller};
    ghost use Rattle.polcert_check.specs.Steps.Mirrored.{sided};

    /// Joins parts that fit, whose values are bounds from this side.
    pub(crate) fn new(side: Side, cells: &'a C, graph: &'a Graph, vectors: &'a Vectors) -> Self
        requires { Fits (C.table cells.now) graph.now vectors.now }
        ensures controller { input_controller result
            ≡ controller_of (C.table cells.now) graph.now vectors.now }
        ensures checked_controller { checked_controller result ≡ sided side
            (controller_of (C.table cells.now) graph.now vectors.now) }
        ensures side { result.side ≡ side }
        ensures vectors { result.vectors.now ≡ vectors.now }
    {
        let nodes = graph.nodes();
        let vector_count = vectors.nodes();
        prove!(nodes == vector_count);
        let step_scale = cells.t_scale() * cells.o_scale();
        let discount = cells.discount();
        CheckInput {
            cells,
            graph,
            vectors,
            side,
            successor_list: graph.successors(),
            value_list: vectors.values(),
            observations: cells.observations(),
            states: cells.states(),
            step_scale,
            discount,
        }
    }
}
