//! Calls of the libraries: texts read, tables filled, vectors shifted, lowered and raised.
ghost use Rattle.std.specs.Prelude.{IsTrue, negsuc};
ghost use Rattle.polcert_policy.specs.Vectors.{CanShift};

use crate::ended::{Ended, Want};
use crate::texts::{COST, NAMED};
use polcert_check::{
    AboveVerdict, LowerFault, RaiseFault, Verdict, check, check_above, fits, lowered, raised,
};
use polcert_model::{Cells, Kind, Model, ModelFault, dense_of, read_model};
use polcert_policy::{
    Graph, GraphFault, PointFault, PointSet, VectorFault, Vectors, read_action_vectors,
    read_action_vectors_from, read_graph, read_graph_from, read_points, read_points_from,
    read_vectors, read_vectors_from, read_vectors_up,
};
use polcert_testing::{LISTENING, TIGER};
use polcert_text::{ReadFault, SliceSource, SourceFault, read_all};
use std::alloc::{AllocError, Global};

/// A text longer than what is first made room for.
pub fn source(alloc: Global) -> Ended {
    let text = [b'x'; 20_000];
    match read_all(alloc, &mut SliceSource::new(&text), 100_000) {
        Ok(bytes) => Ended::done(bytes.as_slice() == text.as_slice()),
        Err(fault) => Ended::memory(Want::Plain, fault == ReadFault::Memory),
    }
}

/// Whether a model has what NAMED says.
fn is_named(model: &Model) -> bool {
    model.states() == 2 && model.start_weight(1) == 1 && model.name_of(Kind::State, 1) == Some("b")
}

pub fn model(alloc: Global) -> Ended {
    match read_model(alloc, NAMED) {
        Ok(model) => Ended::done(is_named(&model)),
        Err(fault) => Ended::memory(Want::Model, fault == ModelFault::Memory),
    }
}

/// The cells of the model in filled tables.
fn filled(alloc: Global, model: &Model) -> Ended {
    if !model.printable() {
        return Ended::Wrong;
    }
    match dense_of(alloc, model) {
        Ok(dense) => Ended::done(Cells::r(&dense, 0, 0, 0, 0) == -1_000_000),
        Err(AllocError) => Ended::Memory(Want::Plain),
    }
}

pub fn tables(alloc: Global) -> Ended {
    match read_model(alloc, TIGER) {
        Ok(model) => filled(alloc, &model),
        Err(fault) => Ended::memory(Want::Model, fault == ModelFault::Memory),
    }
}

/// Whether a graph is that of LISTENING.
fn leads_to_itself(graph: &Graph) -> bool {
    if graph.nodes() == 1 && graph.observations() == 2 {
        [graph.next(0, 0), graph.next(0, 1)] == [Some(0), Some(0)]
    } else {
        false
    }
}

pub fn graph(alloc: Global) -> Ended {
    match read_graph(alloc, LISTENING, 3, 2) {
        Ok(graph) => Ended::done(leads_to_itself(&graph)),
        Err(fault) => Ended::memory(Want::Graph, fault == GraphFault::Memory),
    }
}

pub fn graph_from(alloc: Global) -> Ended {
    match read_graph_from(alloc, &mut SliceSource::new(LISTENING), 3, 2) {
        Ok(graph) => Ended::done(leads_to_itself(&graph)),
        Err(fault) => {
            Ended::memory(
                Want::Graph,
                fault == SourceFault::Refused(GraphFault::Memory),
            )
        }
    }
}

/// Whether the vectors are one vector of these two values.
fn has_values(vectors: &Vectors, values: [i64; 2]) -> bool {
    if vectors.nodes() == 1 && vectors.states() == 2 {
        [vectors.at(0, 0), vectors.at(0, 1)] == values
    } else {
        false
    }
}

/// Vectors for the graph.
fn vectors_for(alloc: Global, graph: &Graph) -> Ended {
    match read_vectors(alloc, b"0 -20 5", graph, 2) {
        Ok(vectors) => Ended::done(has_values(&vectors, [-20_000_000, 5_000_000])),
        Err(fault) => Ended::memory(Want::Vectors, fault == VectorFault::Memory),
    }
}

/// A graph, and vectors for it.
pub fn vectors(alloc: Global) -> Ended {
    match read_graph(alloc, LISTENING, 3, 2) {
        Ok(graph) => vectors_for(alloc, &graph),
        Err(fault) => Ended::memory(Want::Graph, fault == GraphFault::Memory),
    }
}

/// Vectors of a source, for the graph.
fn vectors_from_for(alloc: Global, graph: &Graph) -> Ended {
    match read_vectors_from(alloc, &mut SliceSource::new(b"0 -20 5"), graph, 2) {
        Ok(vectors) => Ended::done(has_values(&vectors, [-20_000_000, 5_000_000])),
        Err(fault) => {
            Ended::memory(
                Want::Vectors,
                fault == SourceFault::Refused(VectorFault::Memory),
            )
        }
    }
}

/// A graph, and vectors of a source for it.
pub fn vectors_from(alloc: Global) -> Ended {
    match read_graph(alloc, LISTENING, 3, 2) {
        Ok(graph) => vectors_from_for(alloc, &graph),
        Err(fault) => Ended::memory(Want::Graph, fault == GraphFault::Memory),
    }
}

/// Vectors for the graph, rounded up.
fn vectors_up_for(alloc: Global, graph: &Graph) -> Ended {
    match read_vectors_up(alloc, b"0 -20.0000001 4.9999999", graph, 2) {
        Ok(vectors) => Ended::done(has_values(&vectors, [-20_000_000, 5_000_000])),
        Err(fault) => Ended::memory(Want::Vectors, fault == VectorFault::Memory),
    }
}

/// A graph, and vectors for it, rounded up.
pub fn vectors_up(alloc: Global) -> Ended {
    match read_graph(alloc, LISTENING, 3, 2) {
        Ok(graph) => vectors_up_for(alloc, &graph),
        Err(fault) => Ended::memory(Want::Graph, fault == GraphFault::Memory),
    }
}

/// The vector of one action, rounded up.
pub fn action_vectors(alloc: Global) -> Ended {
    match read_action_vectors(alloc, b"0 -20.0000001 4.9999999", 1, 2) {
        Ok(vectors) => Ended::done(has_values(&vectors, [-20_000_000, 5_000_000])),
        Err(fault) => Ended::memory(Want::Vectors, fault == VectorFault::Memory),
    }
}

/// The same of a source.
pub fn action_vectors_from(alloc: Global) -> Ended {
    let mut source = SliceSource::new(b"0 -20.0000001 4.9999999");
    match read_action_vectors_from(alloc, &mut source, 1, 2) {
        Ok(vectors) => Ended::done(has_values(&vectors, [-20_000_000, 5_000_000])),
        Err(fault) => {
            Ended::memory(
                Want::Vectors,
                fault == SourceFault::Refused(VectorFault::Memory),
            )
        }
    }
}

/// Two points over two states, one action and one observation.
const POINTS: &[u8] = b"0 0.5 0.5 1 1 1 1 0 2 -";

/// Whether the points are those of POINTS.
fn are_points(points: &PointSet) -> bool {
    if points.count() == 2 && points.actions() == 1 && points.observations() == 1 {
        let values = [points.value(0, 0), points.value(1, 0)];
        let names = [points.next(0, 0, 0), points.next(1, 0, 0)];
        values == [1_000_000, 2_000_000] && names == [Some(1), None]
    } else {
        false
    }
}

pub fn points(alloc: Global) -> Ended {
    match read_points(alloc, POINTS, 2, 1, 1) {
        Ok(points) => Ended::done(are_points(&points)),
        Err(fault) => Ended::memory(Want::Points, fault == PointFault::Memory),
    }
}

/// The same of a source.
pub fn points_from(alloc: Global) -> Ended {
    match read_points_from(alloc, &mut SliceSource::new(POINTS), 2, 1, 1) {
        Ok(points) => Ended::done(are_points(&points)),
        Err(fault) => {
            Ended::memory(
                Want::Points,
                fault == SourceFault::Refused(PointFault::Memory),
            )
        }
    }
}

/// Whether these are one vector of two values that may be lowered by a millionth.
fn can_lower(vectors: &Vectors) -> bool
    ensures { IsTrue result → CanShift vectors.now (negsuc 0) }
{
    if vectors.nodes() != 1 {
        return false;
    }
    if vectors.states() != 2 {
        return false;
    }
    let first = vectors.at(0, 0);
    let second = vectors.at(0, 1);
    if first <= -10_000_000_000_000 {
        return false;
    }
    if second <= -10_000_000_000_000 {
        return false;
    }
    true
}

/// Vectors that are shifted by a millionth.
fn shifting_of(alloc: Global, vectors: &Vectors) -> Ended {
    if !can_lower(vectors) {
        return Ended::Wrong;
    }
    match vectors.shifted(alloc, -1) {
        Ok(shifted) => Ended::done(has_values(&shifted, [-20_000_001, 4_999_999])),
        Err(AllocError) => Ended::Memory(Want::Plain),
    }
}

/// Vectors for the graph, and the same shifted.
fn shifting_for(alloc: Global, graph: &Graph) -> Ended {
    match read_vectors(alloc, b"0 -20 5", graph, 2) {
        Ok(vectors) => shifting_of(alloc, &vectors),
        Err(fault) => Ended::memory(Want::Vectors, fault == VectorFault::Memory),
    }
}

/// A graph, vectors for it, and the same shifted.
pub fn shifting(alloc: Global) -> Ended {
    match read_graph(alloc, LISTENING, 3, 2) {
        Ok(graph) => shifting_for(alloc, &graph),
        Err(fault) => Ended::memory(Want::Graph, fault == GraphFault::Memory),
    }
}

/// Whether the constant is 4, and the lowered vectors are backed.
fn is_lowered(model: &Model, graph: &Graph, constant: i64, vectors: &Vectors) -> bool {
    constant == 4_000_000
        && fits(model, graph, vectors)
        && check(model, graph, vectors) == Verdict::Yes
}

/// Vectors that are lowered, of a model and a graph that they fit.
fn lowering_of(alloc: Global, model: &Model, graph: &Graph, vectors: &Vectors) -> Ended {
    if !fits(model, graph, vectors) {
        return Ended::Wrong;
    }
    match lowered(alloc, model, graph, vectors) {
        Ok((constant, vectors)) => Ended::done(is_lowered(model, graph, constant, &vectors)),
        Err(fault) => Ended::memory(Want::Lower, fault == LowerFault::Memory),
    }
}

/// A value of 2, where -2 is backed.
fn lowering_for(alloc: Global, model: &Model, graph: &Graph) -> Ended {
    match read_vectors(alloc, b"0 2", graph, 1) {
        Ok(vectors) => lowering_of(alloc, model, graph, &vectors),
        Err(fault) => Ended::memory(Want::Vectors, fault == VectorFault::Memory),
    }
}

/// One node, that leads to itself.
fn lowering_on(alloc: Global, model: &Model) -> Ended {
    match read_graph(alloc, b"0 0 0", 1, 1) {
        Ok(graph) => lowering_for(alloc, model, &graph),
        Err(fault) => Ended::memory(Want::Graph, fault == GraphFault::Memory),
    }
}

pub fn lowering(alloc: Global) -> Ended {
    match read_model(alloc, COST) {
        Ok(model) => lowering_on(alloc, &model),
        Err(fault) => Ended::memory(Want::Model, fault == ModelFault::Memory),
    }
}

/// Whether the constant is 3, and the raised vectors are not exceeded.
fn is_raised(model: &Model, graph: &Graph, constant: i64, vectors: &Vectors) -> bool {
    constant == 3_000_000
        && fits(model, graph, vectors)
        && check_above(model, graph, vectors) == AboveVerdict::Yes
}

/// Vectors that are raised, of a model and a graph that they fit.
fn raising_of(alloc: Global, model: &Model, graph: &Graph, vectors: &Vectors) -> Ended {
    if !fits(model, graph, vectors) {
        return Ended::Wrong;
    }
    match raised(alloc, model, graph, vectors) {
        Ok((constant, vectors)) => Ended::done(is_raised(model, graph, constant, &vectors)),
        Err(fault) => Ended::memory(Want::Raise, fault == RaiseFault::Memory),
    }
}

/// A value of -5, where the next step comes to -3.5.
fn raising_for(alloc: Global, model: &Model, graph: &Graph) -> Ended {
    match read_vectors_up(alloc, b"0 -5", graph, 1) {
        Ok(vectors) => raising_of(alloc, model, graph, &vectors),
        Err(fault) => Ended::memory(Want::Vectors, fault == VectorFault::Memory),
    }
}

/// One node, that leads to itself.
fn raising_on(alloc: Global, model: &Model) -> Ended {
    match read_graph(alloc, b"0 0 0", 1, 1) {
        Ok(graph) => raising_for(alloc, model, &graph),
        Err(fault) => Ended::memory(Want::Graph, fault == GraphFault::Memory),
    }
}

pub fn raising(alloc: Global) -> Ended {
    match read_model(alloc, COST) {
        Ok(model) => raising_on(alloc, &model),
        Err(fault) => Ended::memory(Want::Model, fault == ModelFault::Memory),
    }
}
