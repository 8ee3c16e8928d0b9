//! Vectors of which there is one for each action, from slices and from sources.

use super::{action_of, is_written, value_at};
use polcert_policy::{Graph, VectorFault, Vectors, read_action_vectors, read_action_vectors_from};
use polcert_testing::{Pieces, expect_eq};
use polcert_text::{NumberFault, SliceSink, SourceFault, TokenFault};
use std::alloc::Global;

/// Two actions and two states, 30 bytes.
const VECTORS: &[u8] = b"0\n1.5 -2.25\n\n1 # last\n- 3 +.5\n";

/// The four values of two actions at two states, in order of the actions.
type Values = [i64; 4];

fn values_of(vectors: &Vectors) -> Option<Values> {
    if vectors.nodes() == 2 && vectors.states() == 2 {
        let first = [value_at(vectors, 0, 0)?, value_at(vectors, 0, 1)?];
        let second = [value_at(vectors, 1, 0)?, value_at(vectors, 1, 1)?];
        Some([first[0], first[1], second[0], second[1]])
    } else {
        None
    }
}

/// The values that the text has for two actions and two states, or how it is refused.
fn read(alloc: Global, text: &[u8]) -> Result<Option<Values>, VectorFault> {
    match read_action_vectors(alloc, text, 2, 2) {
        Ok(vectors) => Ok(values_of(&vectors)),
        Err(fault) => Err(fault),
    }
}

/// The same of a source in pieces, and how often it failed and was read.
fn read_from(
    alloc: Global,
    mut source: Pieces<'_>,
) -> (Result<Option<Values>, SourceFault<VectorFault>>, (u64, u64)) {
    let found = match read_action_vectors_from(alloc, &mut source, 2, 2) {
        Ok(vectors) => Ok(values_of(&vectors)),
        Err(fault) => Err(fault),
    };
    (found, (source.failures, source.reads))
}

/// Texts, and what is read of them, or how they are refused.
const READ: &[(&[u8], Result<Option<Values>, VectorFault>)] = &[
    (
        b"0 1 2 1 3 4",
        Ok(Some([1_000_000, 2_000_000, 3_000_000, 4_000_000])),
    ),
    (
        VECTORS,
        Ok(Some([1_500_000, -2_250_000, -3_000_000, 500_000])),
    ),
    (
        b"0 1.3333333 -1.9999999\n01 1e-25 -1e-25",
        Ok(Some([1_333_334, -1_999_999, 1, 0])),
    ),
    (
        b"0 10000000 -10000000 1 0 0 # no more",
        Ok(Some([10_000_000_000_000, -10_000_000_000_000, 0, 0])),
    ),
    (
        b"0 1 2 1 3 ;",
        Err(VectorFault::Token(TokenFault::BadByte(10))),
    ),
    (
        b"0 1 2 1 3 4x",
        Err(VectorFault::Token(TokenFault::Glued(10))),
    ),
    (
        b"0 1 2 1 3 1e8",
        Err(VectorFault::Number {
            fault: NumberFault::TooLarge,
            place: 10,
        }),
    ),
    (
        b"0 1 -10000000.0000001 1 3 4",
        Err(VectorFault::Number {
            fault: NumberFault::TooLarge,
            place: 4,
        }),
    ),
    (b"listen 1 2 1 3 4", Err(VectorFault::BadShape(0))),
    (b"0 1 2 -1 3 4", Err(VectorFault::BadShape(6))),
    (b"0 1 x 1 3 4", Err(VectorFault::BadShape(4))),
    (b"1 3 4 0 1 2", Err(VectorFault::ActionMismatch(0))),
    (b"0 1 2 0 1 2", Err(VectorFault::ActionMismatch(6))),
    (b"0 1 2 2 3 4", Err(VectorFault::ActionMismatch(6))),
    (b"0 1 2 1 3", Err(VectorFault::Truncated(9))),
    (b"0 1 2 1\n", Err(VectorFault::Truncated(8))),
    (b"", Err(VectorFault::WrongVectorCount(0))),
    (b"0 1 2", Err(VectorFault::WrongVectorCount(5))),
    (b"0 1 2 1 3 4 2 5 6", Err(VectorFault::WrongVectorCount(12))),
    (b"0 1 2 1 3 4 x", Err(VectorFault::WrongVectorCount(12))),
];

#[test]
fn action_vectors(rt: HostRuntime) {
    for &(text, want) in READ {
        expect_eq!(rt; read(rt.alloc(), text), want, text);
    }
}

/// Whether the text is read in pieces of this size as it is whole, and no read fails.
fn is_alike(alloc: Global, text: &[u8], most: usize) -> bool {
    let slice = match read(alloc, text) {
        Ok(values) => Ok(values),
        Err(fault) => Err(SourceFault::Refused(fault)),
    };
    let (found, (failures, _)) = read_from(alloc, Pieces::new(text, most, false));
    found == slice && failures == 0
}

const MISMATCH: SourceFault<VectorFault> = SourceFault::Refused(VectorFault::ActionMismatch(0));

/// Texts, and the fault, failures and reads where their source fails after them, in pieces of one byte and whole.
const FAILED: &[(&[u8], SourceFault<VectorFault>, u64, u64, u64)] = &[
    (b"0 1 2 1 3", SourceFault::Device, 1, 10, 2),
    (VECTORS, SourceFault::Device, 1, 31, 2),
    (b"", SourceFault::Device, 1, 1, 1),
    (b"1 2", MISMATCH, 0, 2, 1),
];

/// In pieces of any size, and cut at any length, a source is read as a slice is. A read that fails midway, or at the end, is named, and the
/// source isn't read again; a text that is refused before is refused.
#[test]
fn action_vectors_in_pieces(rt: HostRuntime) {
    for len in 0..=VECTORS.len() {
        let (front, _) = VECTORS.split_at(len);
        for most in [1usize, 3, 4096] {
            expect_eq!(rt; is_alike(rt.alloc(), front, most), true, len);
        }
    }
    for &(text, fault, failures, single_reads, whole_reads) in FAILED {
        for (most, reads) in [(1usize, single_reads), (4096, whole_reads)] {
            let found = read_from(rt.alloc(), Pieces::new(text, most, true));
            expect_eq!(rt; found, (Err(fault), (failures, reads)));
        }
    }
}

/// The counts of the graph of this many actions, and the action of its node 999.
fn graph_of(alloc: Global) -> Option<([usize; 3], Option<usize>)> {
    let graph = Graph::of_actions(alloc, 1000).ok()?;
    let counts = [graph.nodes(), graph.actions(), graph.observations()];
    Some((counts, action_of(&graph, 999)))
}

/// Whether VECTORS is written as this text.
fn writes(alloc: Global, want: &[u8]) -> Option<bool> {
    let graph = Graph::of_actions(alloc, 2).ok()?;
    let vectors = read_action_vectors(alloc, VECTORS, 2, 2).ok()?;
    let mut buffer = [0u8; 64];
    let mut sink = SliceSink::new(&mut buffer);
    Some(is_written(&graph, &vectors, &mut sink, true, want))
}

/// As many actions as a model may have: each has a node that takes it.
#[test]
fn graphs_of_actions(rt: HostRuntime) {
    expect_eq!(rt; graph_of(rt.alloc()), Some(([1000, 1000, 1], Some(999))));
    let want = b"0\n1.5 -2.25\n\n1\n-3 0.5\n\n".as_slice();
    expect_eq!(rt; writes(rt.alloc(), want), Some(true));
}
