ghost use Rattle.polcert_check_tests.specs.Worked.Examples.{even_table, even_is_proper, even_is_within};

use polcert_check::{
    AboveVerdict, LowerFault, RaiseFault, Verdict, amount_short, check, check_above, fits, lowered,
    raised,
};
use polcert_model::Cells;
use polcert_policy::{Graph, Vectors, read_graph, read_vectors};
use polcert_testing::expect_eq;
use std::alloc::Global;

mod model;
mod optimum;
mod policy;
mod worked;

/// Two states, each as likely as the other after every step; one action; two observations, of which the first always
/// comes; a reward of -1; the discount is 1/2, or 1.
#[derive(Clone, Copy)]
struct Even {
    undiscounted: bool,
}

impl Cells for Even {
    ghost table = { λ m. even_table m.undiscounted };

    ghost is_proper = { λ m. even_is_proper m.undiscounted };

    ghost is_within_limits = { λ m. even_is_within m.undiscounted };

    fn states(&self) -> usize {
        2
    }

    fn actions(&self) -> usize {
        1
    }

    fn observations(&self) -> usize {
        2
    }

    fn discount(&self) -> u32 {
        if self.undiscounted {
            1_000_000
        } else {
            500_000
        }
    }

    fn t_scale(&self) -> u64 {
        2_000_000
    }

    fn o_scale(&self) -> u64 {
        2_000_000
    }

    fn t(&self, _a: usize, _s: usize, _e: usize) -> u64 {
        1_000_000
    }

    fn o(&self, _a: usize, _e: usize, z: usize) -> u64 {
        if z == 0 { 2_000_000 } else { 0 }
    }

    fn r(&self, _a: usize, _s: usize, _e: usize, _z: usize) -> i64 {
        -1_000_000
    }
}

const HALF: Even = Even {
    undiscounted: false,
};

const WHOLE: Even = Even { undiscounted: true };

/// The least constant, and the verdict on the vectors lowered by it.
fn lowering(
    alloc: Global,
    model: &Even,
    graph: &Graph,
    vectors: &Vectors,
) -> Option<Result<(i64, Verdict), LowerFault>> {
    if !fits(model, graph, vectors) {
        return None;
    }
    match lowered(alloc, model, graph, vectors) {
        Ok((constant, vectors)) => Some(Ok((constant, check(model, graph, &vectors)))),
        Err(fault) => Some(Err(fault)),
    }
}

/// The least constant, and the verdict from above on the vectors raised by it.
fn raising(
    alloc: Global,
    model: &Even,
    graph: &Graph,
    vectors: &Vectors,
) -> Option<Result<(i64, AboveVerdict), RaiseFault>> {
    if !fits(model, graph, vectors) {
        return None;
    }
    match raised(alloc, model, graph, vectors) {
        Ok((constant, vectors)) => Some(Ok((constant, check_above(model, graph, &vectors)))),
        Err(fault) => Some(Err(fault)),
    }
}

/// The verdict, and what lowers and raises the vectors.
type Found = (
    Verdict,
    Result<(i64, Verdict), LowerFault>,
    Result<(i64, AboveVerdict), RaiseFault>,
);

/// What is found, if the texts of a graph and of vectors of two values are read and fit.
fn found(alloc: Global, model: &Even, graph: &[u8], vectors: &[u8]) -> Option<Found> {
    let graph = read_graph(alloc, graph, 1, 2).ok()?;
    let vectors = read_vectors(alloc, vectors, &graph, 2).ok()?;
    found_in(alloc, model, &graph, &vectors)
}

/// The same of a graph and vectors.
fn found_in(alloc: Global, model: &Even, graph: &Graph, vectors: &Vectors) -> Option<Found> {
    let lowering = lowering(alloc, model, graph, vectors)?;
    let raising = raising(alloc, model, graph, vectors)?;
    if !fits(model, graph, vectors) {
        return None;
    }
    Some((check(model, graph, vectors), lowering, raising))
}

/// Models, graphs and vectors, and what is found.
const FOUND: &[(Even, &[u8], &[u8], Found)] = &[
    (
        HALF,
        b"0 0 0 -",
        b"0 -2 -2",
        (
            Verdict::Yes,
            Ok((0, Verdict::Yes)),
            Ok((0, AboveVerdict::Yes)),
        ),
    ),
    (
        HALF,
        b"0 0 0 -",
        b"0 -2 -1.999999",
        (
            Verdict::Short {
                node: 0,
                state: 1,
                amount: 3_000_000_000_000_000_000,
            },
            Ok((2, Verdict::Yes)),
            Ok((1, AboveVerdict::Yes)),
        ),
    ),
    (
        HALF,
        b"0 0 0 -",
        b"0 -3 2",
        (
            Verdict::Short {
                node: 0,
                state: 1,
                amount: 13_000_000_000_000_000_000_000_000,
            },
            Ok((6_500_000, Verdict::Yes)),
            Ok((3_500_000, AboveVerdict::Yes)),
        ),
    ),
    (
        HALF,
        b"0 0 1 - 1 0 0 -",
        b"0 -2 -2 0 -2 2",
        (
            Verdict::Short {
                node: 1,
                state: 1,
                amount: 16_000_000_000_000_000_000_000_000,
            },
            Ok((8_000_000, Verdict::Yes)),
            Ok((2_000_000, AboveVerdict::Yes)),
        ),
    ),
    (
        HALF,
        b"0 0 0 - 1 0 - 0",
        b"0 -2 -2 0 2 2",
        (
            Verdict::NoSuccessor {
                node: 1,
                state: 0,
                observation: 0,
            },
            Err(LowerFault::NoSuccessor {
                node: 1,
                state: 0,
                observation: 0,
            }),
            Err(RaiseFault::NoSuccessor {
                node: 1,
                state: 0,
                observation: 0,
            }),
        ),
    ),
    (
        HALF,
        b"0 0 0 -",
        b"0 2 2",
        (
            Verdict::Short {
                node: 0,
                state: 0,
                amount: 8_000_000_000_000_000_000_000_000,
            },
            Ok((4_000_000, Verdict::Yes)),
            Ok((0, AboveVerdict::Yes)),
        ),
    ),
    (
        HALF,
        b"0 0 0 -",
        b"0 -5 -5",
        (
            Verdict::Yes,
            Ok((0, Verdict::Yes)),
            Ok((3_000_000, AboveVerdict::Yes)),
        ),
    ),
    (
        HALF,
        b"0 0 - -",
        b"0 2 2",
        (
            Verdict::NoSuccessor {
                node: 0,
                state: 0,
                observation: 0,
            },
            Err(LowerFault::NoSuccessor {
                node: 0,
                state: 0,
                observation: 0,
            }),
            Err(RaiseFault::NoSuccessor {
                node: 0,
                state: 0,
                observation: 0,
            }),
        ),
    ),
    (
        HALF,
        b"0 0 0 -",
        b"0 -1e7 1e7",
        (
            Verdict::Short {
                node: 0,
                state: 1,
                amount: 40_000_004_000_000_000_000_000_000_000_000,
            },
            Err(LowerFault::OutOfRange),
            Err(RaiseFault::OutOfRange),
        ),
    ),
    (
        WHOLE,
        b"0 0 0 -",
        b"0 2 2",
        (
            Verdict::Short {
                node: 0,
                state: 0,
                amount: 4_000_000_000_000_000_000_000_000,
            },
            Err(LowerFault::NoConstant {
                node: 0,
                state: 0,
                amount: 4_000_000_000_000_000_000_000_000,
            }),
            Ok((0, AboveVerdict::Yes)),
        ),
    ),
];

#[test]
fn verdicts_and_constants(rt: HostRuntime) {
    for &(model, graph, vectors, want) in FOUND {
        expect_eq!(rt; found(rt.alloc(), &model, graph, vectors), Some(want), vectors);
    }
}

/// By how much the two states of the only node are short, if the parts fit.
fn amounts(graph: &Graph, vectors: &Vectors) -> Option<[i128; 2]> {
    if !fits(&HALF, graph, vectors) {
        return None;
    }
    if graph.nodes() != 1 {
        return None;
    }
    Some([
        amount_short(&HALF, graph, vectors, 0, 0),
        amount_short(&HALF, graph, vectors, 0, 1),
    ])
}

/// The same of texts.
fn amounts_of(alloc: Global, graph: &[u8], vectors: &[u8]) -> Option<[i128; 2]> {
    let graph = read_graph(alloc, graph, 1, 2).ok()?;
    let vectors = read_vectors(alloc, vectors, &graph, 2).ok()?;
    amounts(&graph, &vectors)
}

#[test]
fn shortfalls(rt: HostRuntime) {
    expect_eq!(rt;
        amounts_of(rt.alloc(), b"0 0 0 -", b"0 -3 2"),
        Some([
            -7_000_000_000_000_000_000_000_000,
            13_000_000_000_000_000_000_000_000,
        ])
    );
}

/// Whether HALF fits a graph of these actions and observations, and vectors of two nodes and these states, if the texts are read.
fn is_fit(alloc: Global, graph: &[u8], vectors: &[u8], counts: [usize; 3]) -> Option<bool> {
    let [actions, observations, states] = counts;
    if actions == 0 || actions > 2 || observations == 0 || observations > 2 {
        return None;
    }
    if states == 0 || states > 2 {
        return None;
    }
    let graph = read_graph(alloc, graph, actions, observations).ok()?;
    let two_nodes = read_graph(alloc, TWO_NODES, 1, 2).ok()?;
    let vectors = read_vectors(alloc, vectors, &two_nodes, states).ok()?;
    Some(fits(&HALF, &graph, &vectors))
}

const TWO_NODES: &[u8] = b"0 0 0 - 1 0 0 -";

/// Graphs, vectors of two nodes, the counts of actions, observations and states, and whether they fit.
const FITS: &[(&[u8], &[u8], [usize; 3], bool)] = &[
    (TWO_NODES, b"0 -2 -2 0 -2 -2", [1, 2, 2], true),
    (b"0 0 0 -", b"0 -2 -2 0 -2 -2", [1, 2, 2], false),
    (TWO_NODES, b"0 -2 -2 0 -2 -2", [2, 2, 2], false),
    (b"0 0 0 1 0 0", b"0 -2 -2 0 -2 -2", [1, 1, 2], false),
    (TWO_NODES, b"0 -2 0 -2", [1, 2, 1], false),
];

#[test]
fn parts_that_do_not_fit(rt: HostRuntime) {
    for &(graph, vectors, counts, want) in FITS {
        expect_eq!(rt; is_fit(rt.alloc(), graph, vectors, counts), Some(want), counts);
    }
}
