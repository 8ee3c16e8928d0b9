//! Policy files that come from a source, in any pieces.

use super::{action_of, next_of, read_down, read_up, two_values};
use polcert_policy::{
    Graph, GraphFault, VectorFault, read_graph, read_graph_from, read_vectors_from,
    read_vectors_up_from,
};
use polcert_testing::{Pieces, expect_eq};
use polcert_text::{SourceFault, TokenFault};
use std::alloc::Global;

/// 27 bytes.
const GRAPH: &[u8] = b"0 1 1 - # the first\n1 0 0 X";

/// 19 bytes.
const VECTORS: &[u8] = b"1\n-1.5 2\n\n0\n0 0.25\n";

/// The count of nodes, and the action and the successors of the first.
type Node = (usize, Option<usize>, [Option<Option<usize>>; 2]);

fn node_of(graph: &Graph) -> Node {
    let next = [next_of(graph, 0, 0), next_of(graph, 0, 1)];
    (graph.nodes(), action_of(graph, 0), next)
}

/// The first node of the graph over two actions and two observations, or how the text is refused, and how often its source
/// failed and was read.
fn first_node(
    alloc: Global,
    mut source: Pieces<'_>,
) -> (Result<Node, SourceFault<GraphFault>>, (u64, u64)) {
    let found = match read_graph_from(alloc, &mut source, 2, 2) {
        Ok(graph) => Ok(node_of(&graph)),
        Err(fault) => Err(fault),
    };
    (found, (source.failures, source.reads))
}

/// The values of the first vector of those of `GRAPH` over two states, or how the text is refused.
type Values = Result<Option<[i64; 2]>, SourceFault<VectorFault>>;

/// Such values, and how often the source failed and was read.
fn first_values(alloc: Global, mut source: Pieces<'_>) -> Option<(Values, (u64, u64))> {
    let graph = read_graph(alloc, GRAPH, 2, 2).ok()?;
    let found = match read_vectors_from(alloc, &mut source, &graph, 2) {
        Ok(vectors) => Ok(two_values(&vectors, graph.nodes())),
        Err(fault) => Err(fault),
    };
    Some((found, (source.failures, source.reads)))
}

/// The same where values are rounded up.
fn first_values_up(alloc: Global, mut source: Pieces<'_>) -> Option<(Values, (u64, u64))> {
    let graph = read_graph(alloc, GRAPH, 2, 2).ok()?;
    let found = match read_vectors_up_from(alloc, &mut source, &graph, 2) {
        Ok(vectors) => Ok(two_values(&vectors, graph.nodes())),
        Err(fault) => Err(fault),
    };
    Some((found, (source.failures, source.reads)))
}

/// The sizes of pieces, and the reads of GRAPH and of VECTORS.
const READS: &[(usize, u64, u64)] = &[
    (1, 28, 20),
    (2, 15, 11),
    (3, 10, 8),
    (399, 2, 2),
    (400, 2, 2),
    (401, 2, 2),
    (4095, 2, 2),
    (4096, 2, 2),
    (4097, 2, 2),
];

/// Each byte is read once, and after the last a read finds the end.
#[test]
fn the_same_in_any_pieces(rt: HostRuntime) {
    let node = (2, Some(1), [Some(Some(1)), Some(None)]);
    for &(most, graph_reads, vector_reads) in READS {
        let found = first_node(rt.alloc(), Pieces::new(GRAPH, most, false));
        expect_eq!(rt; found, (Ok(node), (0, graph_reads)));
        let found = first_values(rt.alloc(), Pieces::new(VECTORS, most, false));
        expect_eq!(rt; found, Some((Ok(Some([-1_500_000, 2_000_000])), (0, vector_reads))));
    }
}

const GLUED: SourceFault<GraphFault> = SourceFault::Refused(GraphFault::Token(TokenFault::Glued(
    2,
)));

const EARLY: SourceFault<GraphFault> = SourceFault::Refused(GraphFault::Truncated(6));

/// Texts of graphs, whether their source fails after them, and the fault, failures and reads, in pieces of one byte and whole.
const FAILED_GRAPHS: &[(&[u8], bool, SourceFault<GraphFault>, u64, u64, u64)] = &[
    (b"0 1x 1 -", true, GLUED, 0, 4, 1),
    (GRAPH, true, SourceFault::Device, 1, 28, 2),
    (b"0 1 1\n", false, EARLY, 0, 7, 2),
];

const MISMATCH: SourceFault<VectorFault> = SourceFault::Refused(VectorFault::ActionMismatch(0));

/// The same of texts of vectors, whose source fails.
const FAILED_VECTORS: &[(&[u8], SourceFault<VectorFault>, u64, u64, u64)] = &[
    (b"1 2", SourceFault::Device, 1, 4, 2),
    (b"0 2", MISMATCH, 0, 2, 1),
];

/// A text that is refused is read no further than to the token that is wrong, and a source that failed is not read again.
#[test]
fn refused_or_failed(rt: HostRuntime) {
    for &(text, fails, fault, failures, single_reads, whole_reads) in FAILED_GRAPHS {
        for (most, reads) in [(1usize, single_reads), (4096, whole_reads)] {
            let found = first_node(rt.alloc(), Pieces::new(text, most, fails));
            expect_eq!(rt; found, (Err(fault), (failures, reads)));
        }
    }
    for &(text, fault, failures, single_reads, whole_reads) in FAILED_VECTORS {
        for (most, reads) in [(1usize, single_reads), (4096, whole_reads)] {
            let found = first_values(rt.alloc(), Pieces::new(text, most, true));
            expect_eq!(rt; found, Some((Err(fault), (failures, reads))));
        }
    }
}

/// A source whose values are rounded up is read as one whose values are rounded down is.
#[test]
fn rounded_up_in_any_pieces(rt: HostRuntime) {
    let text = b"1 -1.5000009 0 0 0 0".as_slice();
    for (most, reads) in [(1usize, 21u64), (3, 8), (4096, 2)] {
        let found = [
            first_values(rt.alloc(), Pieces::new(text, most, false)),
            first_values_up(rt.alloc(), Pieces::new(text, most, false)),
            first_values_up(rt.alloc(), Pieces::new(text, most, true)),
        ];
        let want = [
            Some((Ok(Some([-1_500_001, 0])), (0, reads))),
            Some((Ok(Some([-1_500_000, 0])), (0, reads))),
            Some((Err(SourceFault::Device), (1, reads))),
        ];
        expect_eq!(rt; found, want);
    }
}

/// The first node of the graph that the slice is, or how it is refused.
fn slice_node(alloc: Global, text: &[u8]) -> Result<Node, SourceFault<GraphFault>> {
    match read_graph(alloc, text, 2, 2) {
        Ok(graph) => Ok(node_of(&graph)),
        Err(fault) => Err(SourceFault::Refused(fault)),
    }
}

/// Whether a source gives what a slice gives.
fn is_same(source: Values, slice: Result<Option<[i64; 2]>, VectorFault>) -> bool {
    match slice {
        Ok(values) => source == Ok(values),
        Err(fault) => source == Err(SourceFault::Refused(fault)),
    }
}

/// Whether the text is read in pieces of this size as its slice is, rounded down and up.
fn is_alike(alloc: Global, text: &[u8], most: usize) -> Option<bool> {
    let graph = read_graph(alloc, GRAPH, 2, 2).ok()?;
    let (down, _) = first_values(alloc, Pieces::new(text, most, false))?;
    let (up, _) = first_values_up(alloc, Pieces::new(text, most, false))?;
    let is_down = is_same(down, read_down(alloc, text, &graph));
    Some(is_down && is_same(up, read_up(alloc, text, &graph)))
}

/// What reading a graph over two actions and two observations answers where it is cut at any length is that of its slice, in pieces
/// of any size.
#[test]
fn cut_anywhere(rt: HostRuntime) {
    for len in 0..=GRAPH.len() {
        let (front, _) = GRAPH.split_at(len);
        let slice = slice_node(rt.alloc(), front);
        for most in [1usize, 3, 4096] {
            let (found, (failures, _)) = first_node(rt.alloc(), Pieces::new(front, most, false));
            expect_eq!(rt; (found, failures), (slice, 0), len);
        }
    }
    for len in 0..=VECTORS.len() {
        let (front, _) = VECTORS.split_at(len);
        for most in [1usize, 3, 4096] {
            expect_eq!(rt;
                is_alike(rt.alloc(), front, most),
                Some(true),
                len);
        }
    }
}

const WHOLE_IN_THE_BUFFER: &[&[u8]] = &[
    b"1 -12.3456789012345678901 0 0 0 0",
    b"1 12.3456780000000000000 0 0 0 0",
    b"1\n12.3456780000000000001\n0\n0 0 0\n",
    b"1 -0.0000001 0 0 0 0",
    b"1 -7 0 0 0 0",
    b"1  2.5 0 0 0 0",
    b"1 - 2.5 0 0 0 0",
    b"1 -2.\t0 0 0 0",
    b"1 +2.5e-3 0 0 0 0",
    b"1 -9999999.9999999 0 0 0 0",
    b"1 9999999 0 0 0 0",
    b"1 10000000 0 0 0 0",
    b"1 -10000000.0000001 0 0 0 0",
    b"1 123456789012.5 0 0 0 0",
    b"1 0.1234567x 0 0 0 0",
    b"1 0.1.2 0 0 0 0",
    b"1 --1 0 0 0 0",
    b"1 1 0 1 0 0",
    b"1 1 0 0 0 0 0",
];

/// Values that stand whole in the buffer, which are taken together, are read and refused as they are token by token.
#[test]
fn values_whole_in_the_buffer(rt: HostRuntime) {
    for text in WHOLE_IN_THE_BUFFER {
        for most in [1usize, 7, 4096] {
            expect_eq!(rt; is_alike(rt.alloc(), text, most), Some(true), text);
        }
    }
}
