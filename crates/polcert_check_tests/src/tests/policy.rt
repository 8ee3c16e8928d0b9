ghost use Rattle.std.specs.Prelude.{IsTrue, negsuc};
ghost use Rattle.polcert_policy.specs.Vectors.{CanShift};

mod actions;
mod points;
mod raised_points;
mod sources;

use polcert_policy::{
    Graph, GraphFault, VectorFault, Vectors, read_graph, read_vectors, read_vectors_up,
    write_vectors,
};
use polcert_testing::expect_eq;
use polcert_text::{NumberFault, SliceSink, TokenFault};
use std::alloc::{AllocError, Global};

/// How the text is refused as a graph of three actions and two observations.
fn graph_fault(alloc: Global, text: &[u8]) -> Option<GraphFault> {
    read_graph(alloc, text, 3, 2).err()
}

/// A value of the vectors, if there are such a node and state.
fn value_at(vectors: &Vectors, node: usize, state: usize) -> Option<i64> {
    if node < vectors.nodes() && state < vectors.states() {
        Some(vectors.at(node, state))
    } else {
        None
    }
}

/// The successor of a node after an observation, if there are these.
fn next_of(graph: &Graph, node: usize, observation: usize) -> Option<Option<usize>> {
    if node < graph.nodes() && observation < graph.observations() {
        Some(graph.next(node, observation))
    } else {
        None
    }
}

/// The action of a node, if there is this node.
fn action_of(graph: &Graph, node: usize) -> Option<usize> {
    if node < graph.nodes() {
        Some(graph.action(node))
    } else {
        None
    }
}

/// The two values of the first of so many vectors over two states.
fn two_values(vectors: &Vectors, nodes: usize) -> Option<[i64; 2]> {
    if vectors.nodes() == nodes && vectors.states() == 2 {
        Some([value_at(vectors, 0, 0)?, value_at(vectors, 0, 1)?])
    } else {
        None
    }
}

/// The two values that the text has for the first node of a graph over two states, or how it is refused.
type Found = Result<Option<[i64; 2]>, VectorFault>;

/// What the text is as such vectors, whose values are rounded down.
fn read_down(alloc: Global, text: &[u8], graph: &Graph) -> Found {
    match read_vectors(alloc, text, graph, 2) {
        Ok(vectors) => Ok(two_values(&vectors, graph.nodes())),
        Err(fault) => Err(fault),
    }
}

/// The same of values rounded up.
fn read_up(alloc: Global, text: &[u8], graph: &Graph) -> Found {
    match read_vectors_up(alloc, text, graph, 2) {
        Ok(vectors) => Ok(two_values(&vectors, graph.nodes())),
        Err(fault) => Err(fault),
    }
}

/// Both, for a graph of one node of action 0.
fn read_both(alloc: Global, text: &[u8]) -> Option<[Found; 2]> {
    let graph = read_graph(alloc, b"0 0 0 0", 3, 2).ok()?;
    Some([read_down(alloc, text, &graph), read_up(alloc, text, &graph)])
}

/// Whether writing the vectors to the sink ends so, and this stands in it then.
fn is_written(
    graph: &Graph,
    vectors: &Vectors,
    sink: &mut SliceSink<'_>,
    ends_well: bool,
    want: &[u8],
) -> bool {
    if graph.nodes() == vectors.nodes() {
        write_vectors(graph, vectors, sink).is_ok() == ends_well && sink.written() == want
    } else {
        false
    }
}

/// A graph text of this many nodes, each of which leads to node 0.
fn nodes_text(alloc: Global, count: usize) -> Result<String, AllocError> {
    let mut text = String::new(alloc);
    for node in 0..count {
        text.push_str(format!(in alloc; "{node} 0 0 ")?.as_str())?;
    }
    Ok(text)
}

/// Texts, and how they are refused, if they are. (More are cases of the program.)
const GRAPHS: &[(&[u8], Option<GraphFault>)] = &[
    (
        b"0 0 0 1",
        Some(GraphFault::SuccessorOutOfRange {
            node: 0,
            observation: 1,
        }),
    ),
    (
        b"0 0 0 0 1 0 0 3 2 0 1 99999999999999999999",
        Some(GraphFault::SuccessorOutOfRange {
            node: 1,
            observation: 1,
        }),
    ),
    (b"0 0 0 0 2", Some(GraphFault::NodeOutOfOrder(8))),
    (b" # nothing\n", Some(GraphFault::NoNodes(11))),
    (b"0 0 0 0 1\n", Some(GraphFault::Truncated(10))),
    (b"0 0 0 -0x", Some(GraphFault::Token(TokenFault::Glued(7)))),
    (b"0 0 0 x", Some(GraphFault::BadShape(6))),
    (b"0 0 0 1.5", Some(GraphFault::BadShape(6))),
    (b"0 0 0 +", Some(GraphFault::BadShape(6))),
    (b"0 0 0 0 - 0", Some(GraphFault::BadShape(8))),
    (b"0 0 0 -0", Some(GraphFault::BadShape(6))),
    (b"0 0 - x", Some(GraphFault::BadShape(6))),
    (b"0 X 0 0", Some(GraphFault::BadShape(2))),
    (b"0 0 0 -", None),
    (b"0 0 0 X", None),
    (b"0 0 - 0", None),
    (b"0 0 - # none\n0 # trailing", None),
    (b"0\n0\n0\n0", None),
    (b"00 0 000 - \n", None),
];

/// The action of a node and its successors after two observations.
type Node = (Option<usize>, [Option<Option<usize>>; 2]);

fn node_of(graph: &Graph, node: usize) -> Node {
    let next = [next_of(graph, node, 0), next_of(graph, node, 1)];
    (action_of(graph, node), next)
}

/// The counts of nodes, actions and observations of a graph, and its first two nodes.
fn read_nodes(alloc: Global, text: &[u8]) -> Option<([usize; 3], [Node; 2])> {
    let graph = read_graph(alloc, text, 3, 2).ok()?;
    let counts = [graph.nodes(), graph.actions(), graph.observations()];
    Some((counts, [node_of(&graph, 0), node_of(&graph, 1)]))
}

/// The length of the text of this many nodes, and how it is refused.
fn fault_of_nodes(alloc: Global, count: usize) -> Option<(usize, Option<GraphFault>)> {
    let text = nodes_text(alloc, count).ok()?;
    Some((text.len(), read_graph(alloc, text.as_bytes(), 1, 1).err()))
}

#[test]
fn graphs(rt: HostRuntime) {
    for &(text, fault) in GRAPHS {
        expect_eq!(rt; graph_fault(rt.alloc(), text), fault, text);
    }
    let nodes = [
        (Some(2), [Some(None), Some(None)]),
        (Some(0), [Some(Some(0)), Some(Some(1))]),
    ];
    expect_eq!(rt;
        read_nodes(rt.alloc(), b"0 2 - X\n1 0 0 001 # end"),
        Some(([2, 3, 2], nodes))
    );
    for (count, len, fault) in [
        (10_000, 88_890, None),
        (10_001, 88_900, Some(GraphFault::TooManyNodes(88_890))),
    ] {
        expect_eq!(rt; fault_of_nodes(rt.alloc(), count), Some((len, fault)));
    }
}

/// Texts that are refused as vectors over two states. (More are cases of the program.)
const REFUSED_VECTORS: &[(&[u8], VectorFault)] = &[
    (b"0 -20 -", VectorFault::Truncated(7)),
    (b"0 1.3333333", VectorFault::Truncated(11)),
    (b"0 -20 -20 x", VectorFault::WrongVectorCount(10)),
    (b"\n", VectorFault::WrongVectorCount(1)),
    (b"- 0 -20 -20", VectorFault::BadShape(0)),
    (b"0.0 -20 -20", VectorFault::BadShape(0)),
    (b"0 -20 - x", VectorFault::BadShape(6)),
    (b"0 -20 - + 5", VectorFault::BadShape(6)),
    (b"0 -20 -;", VectorFault::Token(TokenFault::BadByte(7))),
    (
        b"0 -20 1e401",
        VectorFault::Number {
            fault: NumberFault::TooLong,
            place: 6,
        },
    ),
    (
        b"0 1 -10000000.0000001",
        VectorFault::Number {
            fault: NumberFault::TooLarge,
            place: 4,
        },
    ),
];

#[test]
fn refused_vectors(rt: HostRuntime) {
    for &(text, fault) in REFUSED_VECTORS {
        expect_eq!(rt; read_both(rt.alloc(), text), Some([Err(fault); 2]), text);
    }
}

/// Texts of vectors over two states, and their values rounded down and up.
const ACCEPTED_VECTORS: &[(&[u8], [i64; 2], [i64; 2])] = &[
    (
        b"0 - 20 + 5",
        [-20_000_000, 5_000_000],
        [-20_000_000, 5_000_000],
    ),
    (
        b"0 1.3333333 0.6666667",
        [1_333_333, 666_666],
        [1_333_334, 666_667],
    ),
    (
        b"0 -19.9999999999999964 -1.9999999",
        [-20_000_000, -2_000_000],
        [-19_999_999, -1_999_999],
    ),
    (
        b"0\n19.3713683559737184225468809 19.3713683559737184225468809 \n\n",
        [19_371_368, 19_371_368],
        [19_371_369, 19_371_369],
    ),
    (
        b"0 # listen\n-1e-25 - # minus\n 0.0000000000000000000000001",
        [-1, -1],
        [0, 0],
    ),
    (b"0 -1e-25 1e-25", [-1, 0], [0, 1]),
    (
        b"0 10000000 -10000000",
        [10_000_000_000_000, -10_000_000_000_000],
        [10_000_000_000_000, -10_000_000_000_000],
    ),
    (b"00 -0.0 .5", [0, 500_000], [0, 500_000]),
];

#[test]
fn accepted_vectors(rt: HostRuntime) {
    for &(text, down, up) in ACCEPTED_VECTORS {
        expect_eq!(rt; read_both(rt.alloc(), text), Some([Ok(Some(down)), Ok(Some(up))]), text);
    }
}

/// Whether the vectors of a graph of two nodes are written as this text.
fn writes(alloc: Global, text: &[u8], want: &[u8]) -> Option<bool> {
    let graph = read_graph(alloc, b"0 0 0 - 1 2 - -", 3, 2).ok()?;
    let vectors = read_vectors(alloc, text, &graph, 2).ok()?;
    let mut buffer = [0u8; 64];
    let mut sink = SliceSink::new(&mut buffer);
    Some(is_written(&graph, &vectors, &mut sink, true, want))
}

const WRITTEN: &[(&[u8], &[u8])] = &[
    (
        b"0 - 20 + 5 2 .5 0.0000019",
        b"0\n-20 5\n\n2\n0.5 0.000001\n\n",
    ),
    (
        b"0 1e7 -1e7 2 0 -0.25",
        b"0\n10000000 -10000000\n\n2\n0 -0.25\n\n",
    ),
];

/// Whether these are one vector of two values that may be lowered by a millionth.
fn can_lower(vectors: &Vectors) -> bool
    ensures { IsTrue result → CanShift vectors.now (negsuc 0) }
{
    if vectors.nodes() != 1 {
        return false;
    }
    if vectors.states() != 2 {
        return false;
    }
    let first = vectors.at(0, 0);
    let second = vectors.at(0, 1);
    if first <= -10_000_000_000_000 {
        return false;
    }
    if second <= -10_000_000_000_000 {
        return false;
    }
    true
}

/// The values less a millionth, and the values as they are.
fn lowered_values(alloc: Global, vectors: &Vectors) -> Option<[[i64; 2]; 2]> {
    if can_lower(vectors) {
        let lowered = vectors.shifted(alloc, -1).ok()?;
        Some([two_values(&lowered, 1)?, two_values(vectors, 1)?])
    } else {
        None
    }
}

/// The same of a text of vectors.
fn lowered_text(alloc: Global, text: &[u8]) -> Option<[[i64; 2]; 2]> {
    let graph = read_graph(alloc, b"0 0 0 0", 3, 2).ok()?;
    let vectors = read_vectors(alloc, text, &graph, 2).ok()?;
    lowered_values(alloc, &vectors)
}

#[test]
fn shifted_vectors(rt: HostRuntime) {
    let want = [[-20_000_000, 4_999_999], [-19_999_999, 5_000_000]];
    expect_eq!(rt; lowered_text(rt.alloc(), b"0 -19.999999 5"), Some(want));
}

/// Whether writing the vectors to a sink of five bytes fails after these.
fn fails_after(alloc: Global, text: &[u8], front: &[u8]) -> Option<bool> {
    let graph = read_graph(alloc, b"0 0 0 0", 3, 2).ok()?;
    let vectors = read_vectors(alloc, text, &graph, 2).ok()?;
    let mut buffer = [0u8; 5];
    let mut sink = SliceSink::new(&mut buffer);
    Some(is_written(&graph, &vectors, &mut sink, false, front))
}

#[test]
fn written_vectors(rt: HostRuntime) {
    for &(text, want) in WRITTEN {
        expect_eq!(rt; writes(rt.alloc(), text, want), Some(true), text);
    }
    expect_eq!(rt; fails_after(rt.alloc(), b"0 -20 5", b"0\n-20"), Some(true));
}
