//! Worked rows, from texts to verdicts and constants, over a model and over its tables, filled.
use polcert_cells::Cells;
use polcert_check::{
    AboveVerdict, LowerFault, RaiseFault, Verdict, check, check_above, fits, least_constant,
    least_raise, start_most, start_worth,
};
use polcert_model::{DenseModel, Model, dense_of, read_model};
use polcert_policy::{Graph, Vectors, read_graph, read_vectors};
use polcert_testing::{ALWAYS_FIRST, COST, NUMBERED_MDP, TIGER, TWO_STATES, expect_eq};
use std::alloc::{AllocError, Global};

/// A model, a graph and vectors, read one after another.
#[derive(Drop)]
struct Parts {
    model: Model,
    graph: Graph,
    vectors: Vectors,
}

/// The parts, if the texts are read.
fn read_parts(alloc: Global, model: &[u8], graph: &[u8], vectors: &[u8]) -> Option<Parts> {
    let model = read_model(alloc, model).ok()?;
    let graph = read_graph(alloc, graph, model.actions(), model.observations()).ok()?;
    let vectors = read_vectors(alloc, vectors, &graph, model.states()).ok()?;
    Some(Parts {
        model,
        graph,
        vectors,
    })
}

/// The verdict from below and the least constant that lowers the vectors.
type Below = (Verdict, Result<i64, LowerFault>);

/// The verdict from above and the least constant that raises the vectors.
type Above = (AboveVerdict, Result<i64, RaiseFault>);

/// Both, if the parts fit.
fn found_over<C: Cells>(cells: &C, graph: &Graph, vectors: &Vectors) -> Option<(Below, Above)> {
    if fits(cells, graph, vectors) {
        let below = (
            check(cells, graph, vectors),
            least_constant(cells, graph, vectors),
        );
        let above = (
            check_above(cells, graph, vectors),
            least_raise(cells, graph, vectors),
        );
        Some((below, above))
    } else {
        None
    }
}

/// The verdict from below alone.
fn verdict_over<C: Cells>(cells: &C, graph: &Graph, vectors: &Vectors) -> Option<Verdict> {
    if fits(cells, graph, vectors) {
        Some(check(cells, graph, vectors))
    } else {
        None
    }
}

impl Parts {
    /// The model's tables, filled.
    fn filled(&self, alloc: Global) -> Option<DenseModel> {
        if self.model.printable() {
            dense_of(alloc, &self.model).ok()
        } else {
            None
        }
    }

    /// What is found over the model's tables, filled.
    fn found_over_filled(&self, alloc: Global) -> Option<(Below, Above)> {
        let dense = self.filled(alloc)?;
        found_over(&dense, &self.graph, &self.vectors)
    }

    /// The verdict alone.
    fn verdict_over_filled(&self, alloc: Global) -> Option<Verdict> {
        let dense = self.filled(alloc)?;
        verdict_over(&dense, &self.graph, &self.vectors)
    }

    /// What is found over the model.
    fn found(&self) -> Option<(Below, Above)> {
        found_over(&self.model, &self.graph, &self.vectors)
    }

    /// The best node from the start and its worth, and what no node is worth more than there.
    fn worth(&self) -> Option<((usize, i64), i64)> {
        if fits(&self.model, &self.graph, &self.vectors) {
            Some((
                start_worth(&self.model, &self.graph, &self.vectors),
                start_most(&self.model, &self.graph, &self.vectors),
            ))
        } else {
            None
        }
    }
}

/// What is found over a model, and over its tables, filled, if the texts are read and fit.
fn found(
    alloc: Global,
    model: &[u8],
    graph: &[u8],
    vectors: &[u8],
) -> Option<[Option<(Below, Above)>; 2]> {
    let parts = read_parts(alloc, model, graph, vectors)?;
    Some([parts.found(), parts.found_over_filled(alloc)])
}

/// What passes needs no constant.
const PASSES_BELOW: Below = (Verdict::Yes, Ok(0));

const PASSES_ABOVE: Above = (AboveVerdict::Yes, Ok(0));

/// At node 0 and state 0 observation 1 has no successor.
const LACKS: (Below, Above) = (
    (
        Verdict::NoSuccessor {
            node: 0,
            state: 0,
            observation: 1,
        },
        Err(LowerFault::NoSuccessor {
            node: 0,
            state: 0,
            observation: 1,
        }),
    ),
    (
        AboveVerdict::NoSuccessor {
            node: 0,
            state: 0,
            observation: 1,
        },
        Err(RaiseFault::NoSuccessor {
            node: 0,
            state: 0,
            observation: 1,
        }),
    ),
);

/// At node 1 and state 1 observation 1 has none.
const LACKS_LATER: (Below, Above) = (
    (
        Verdict::NoSuccessor {
            node: 1,
            state: 1,
            observation: 1,
        },
        Err(LowerFault::NoSuccessor {
            node: 1,
            state: 1,
            observation: 1,
        }),
    ),
    (
        AboveVerdict::NoSuccessor {
            node: 1,
            state: 1,
            observation: 1,
        },
        Err(RaiseFault::NoSuccessor {
            node: 1,
            state: 1,
            observation: 1,
        }),
    ),
);

const LOSS: &[u8] =
    b"discount: 1 values: reward states: 1 actions: 1 observations: 1 T: 0 identity O: 0 uniform R: 0 : 0 : 0 : 0 -1";

const GAIN: &[u8] =
    b"discount: 1 values: reward states: 1 actions: 1 observations: 1 T: 0 identity O: 0 uniform R: 0 : 0 : 0 : 0 1";

const GREAT_LOSS: &[u8] =
    b"discount: 0.999999 values: reward states: 1 actions: 1 observations: 1 T: 0 identity O: 0 uniform R: 0 : 0 : 0 : 0 -10000000";

const GREAT_GAIN: &[u8] =
    b"discount: 0.999999 values: reward states: 1 actions: 1 observations: 1 T: 0 identity O: 0 uniform R: 0 : 0 : 0 : 0 10000000";

/// Two observations, of which either comes.
const EITHER: &[u8] =
    b"discount: 0.5 values: reward states: 1 actions: 1 observations: 2 T: 0 identity O: 0 0.5 0.5";

/// The first action leads to the first state from both, and the second stays; each state has an observation of its own.
const ONE_WAY: &[u8] =
    b"discount: 0.5 values: reward states: 2 actions: 2 observations: 2 T: 0 1 0 1 0 T: 1 identity O: * 1 0 0 1";

/// The texts of a model, a graph and vectors, and what is found.
const FOUND: &[(&[u8], &[u8], &[u8], (Below, Above))] = &[
    (
        TIGER,
        b"0 0 0 0",
        b"0 -20 -20",
        (PASSES_BELOW, PASSES_ABOVE),
    ),
    (
        TIGER,
        b"0 0 0 0",
        b"0 -19.999999 -19.999999",
        (
            (
                Verdict::Short {
                    node: 0,
                    state: 0,
                    amount: 200_000_000_000_000_000,
                },
                Ok(1),
            ),
            PASSES_ABOVE,
        ),
    ),
    (
        TIGER,
        b"0 0 0 0",
        b"0 -20.000001 -20.000001",
        (
            PASSES_BELOW,
            (
                AboveVerdict::Long {
                    node: 0,
                    state: 0,
                    amount: 200_000_000_000_000_000,
                },
                Ok(1),
            ),
        ),
    ),
    (
        LOSS,
        b"0 0 0",
        b"0 5",
        (
            (
                Verdict::Short {
                    node: 0,
                    state: 0,
                    amount: 1_000_000_000_000_000_000_000_000,
                },
                Err(LowerFault::NoConstant {
                    node: 0,
                    state: 0,
                    amount: 1_000_000_000_000_000_000_000_000,
                }),
            ),
            PASSES_ABOVE,
        ),
    ),
    (
        GAIN,
        b"0 0 0",
        b"0 5",
        (
            PASSES_BELOW,
            (
                AboveVerdict::Long {
                    node: 0,
                    state: 0,
                    amount: 1_000_000_000_000_000_000_000_000,
                },
                Err(RaiseFault::NoConstant {
                    node: 0,
                    state: 0,
                    amount: 1_000_000_000_000_000_000_000_000,
                }),
            ),
        ),
    ),
    (
        COST,
        b"0 0 0",
        b"0 2",
        (
            (
                Verdict::Short {
                    node: 0,
                    state: 0,
                    amount: 2_000_000_000_000_000_000_000_000,
                },
                Ok(4_000_000),
            ),
            PASSES_ABOVE,
        ),
    ),
    (
        COST,
        b"0 0 0",
        b"0 -6",
        (
            PASSES_BELOW,
            (
                AboveVerdict::Long {
                    node: 0,
                    state: 0,
                    amount: 2_000_000_000_000_000_000_000_000,
                },
                Ok(4_000_000),
            ),
        ),
    ),
    (
        GREAT_LOSS,
        b"0 0 0",
        b"0 0",
        (
            (
                Verdict::Short {
                    node: 0,
                    state: 0,
                    amount: 10_000_000_000_000_000_000_000_000_000_000,
                },
                Err(LowerFault::OutOfRange),
            ),
            PASSES_ABOVE,
        ),
    ),
    (
        GREAT_GAIN,
        b"0 0 0",
        b"0 0",
        (
            PASSES_BELOW,
            (
                AboveVerdict::Long {
                    node: 0,
                    state: 0,
                    amount: 10_000_000_000_000_000_000_000_000_000_000,
                },
                Err(RaiseFault::OutOfRange),
            ),
        ),
    ),
    (
        NUMBERED_MDP,
        b"0 0 0 0",
        b"0 1.333334 0.666667",
        (
            (
                Verdict::Short {
                    node: 0,
                    state: 0,
                    amount: 2_000_000_000_000_000_000,
                },
                Ok(1),
            ),
            PASSES_ABOVE,
        ),
    ),
    (
        NUMBERED_MDP,
        b"0 0 0 0",
        b"0 1.333333 0.666666",
        (
            PASSES_BELOW,
            (
                AboveVerdict::Long {
                    node: 0,
                    state: 1,
                    amount: 2_000_000_000_000_000_000,
                },
                Ok(1),
            ),
        ),
    ),
    // each node is for one state, and the end state says which comes next
    (
        NUMBERED_MDP,
        b"0 0 0 1 1 0 0 1",
        b"0 1.333333 -1000 0 -1000 0.666666",
        (
            PASSES_BELOW,
            (
                AboveVerdict::Long {
                    node: 0,
                    state: 1,
                    amount: 4_002_666_666_000_000_000_000_000_000,
                },
                Ok(2_002_666_666),
            ),
        ),
    ),
    (
        NUMBERED_MDP,
        b"0 0 0 - 1 0 0 -",
        b"0 1.333333 -1000 0 -1000 0.666666",
        LACKS,
    ),
    (
        ALWAYS_FIRST,
        b"0 0 0 -",
        b"0 0",
        (PASSES_BELOW, PASSES_ABOVE),
    ),
    (EITHER, b"0 0 0 -", b"0 0", LACKS),
    // short too, but the missing successor comes first
    (EITHER, b"0 0 0 -", b"0 5", LACKS),
    // long too
    (EITHER, b"0 0 0 -", b"0 -5", LACKS),
    // the first action never reaches the state that has the missing observation, the second does
    (ONE_WAY, b"0 0 0 -", b"0 0 0", (PASSES_BELOW, PASSES_ABOVE)),
    (ONE_WAY, b"0 0 0 - 1 1 0 -", b"0 0 0 1 0 0", LACKS_LATER),
];

#[test]
fn verdicts_and_constants(rt: HostRuntime) {
    for &(model, graph, vectors, want) in FOUND {
        expect_eq!(rt;
            found(rt.alloc(), model, graph, vectors),
            Some([Some(want); 2]),
            vectors);
    }
}

/// A model in which a value of 10,000,000 everywhere is backed by rewards and values of -10,000,000. Its filled tables take 134 MB.
const LARGE: &[u8] =
    b"discount: 1 values: reward states: 256 actions: 1 observations: 256 T: 0 uniform O: 0 uniform R: * : * : * : * -10000000";

/// Adds the part to the text this many times.
fn push_times(text: &mut Vec<u8>, part: &[u8], count: usize) -> Result<(), AllocError> {
    for _ in 0..count {
        text.extend_from_slice(part)?;
    }
    Ok(())
}

/// A graph of two nodes, of which the second follows both at each of this many observations.
fn last_follows(alloc: Global, observations: usize) -> Result<Vec<u8>, AllocError> {
    let mut graph = Vec::new(alloc);
    graph.extend_from_slice(b"0 0")?;
    push_times(&mut graph, b" 1", observations)?;
    graph.extend_from_slice(b" 1 0")?;
    push_times(&mut graph, b" 1", observations)?;
    Ok(graph)
}

/// The vectors of two nodes over this many states: 10,000,000 everywhere, and -10,000,000.
fn high_and_low(alloc: Global, states: usize) -> Result<Vec<u8>, AllocError> {
    let mut vectors = Vec::new(alloc);
    vectors.extend_from_slice(b"0")?;
    push_times(&mut vectors, b" 10000000", states)?;
    vectors.extend_from_slice(b" 0")?;
    push_times(&mut vectors, b" -10000000", states)?;
    Ok(vectors)
}

/// The verdict over the filled tables of LARGE on such vectors.
fn verdict_on_large(alloc: Global) -> Option<Verdict> {
    let graph = last_follows(alloc, 256).ok()?;
    let vectors = high_and_low(alloc, 256).ok()?;
    read_parts(alloc, LARGE, graph.as_slice(), vectors.as_slice())?.verdict_over_filled(alloc)
}

#[test]
fn a_large_amount_over_filled_tables(rt: HostRuntime) {
    let want = Verdict::Short {
        node: 0,
        state: 0,
        amount: 1_966_080_000_000_000_000_000_000_000_000_000_000,
    };
    expect_eq!(rt; verdict_on_large(rt.alloc()), Some(want));
}

/// The best node from the start and its worth, and what no node is worth more than there, if the texts are read and fit.
fn worth(alloc: Global, model: &[u8], graph: &[u8], vectors: &[u8]) -> Option<((usize, i64), i64)> {
    read_parts(alloc, model, graph, vectors)?.worth()
}

const THREE_STARTS: &[u8] =
    b"discount: 1 values: reward states: 3 actions: 1 observations: 1 start: 0.25 0 0.75 T: 0 identity O: 0 uniform";

/// The texts of a model, a graph and vectors; the best node from the start and its worth there, and the most. (The vectors need not pass.)
const WORTHS: &[(&[u8], &[u8], &[u8], ((usize, i64), i64))] = &[
    (
        TIGER,
        b"0 0 0 0 1 0 1 1",
        b"0 -20 -20 0 -20 -20",
        ((0, -20_000_000), -20_000_000),
    ),
    (
        TIGER,
        b"0 0 0 0 1 0 1 1",
        b"0 -20 -20 0 -19 -20",
        ((1, -19_500_000), -19_500_000),
    ),
    (
        TWO_STATES,
        b"0 0 0",
        b"0 -0.000001 -0.000002",
        ((0, -2), -1),
    ),
    (
        THREE_STARTS,
        b"0 0 0 1 0 1",
        b"0 4 9 0 0 1 -9 2",
        ((1, 1_750_000), 1_750_000),
    ),
];

#[test]
fn worths_from_the_start(rt: HostRuntime) {
    for &(model, graph, vectors, want) in WORTHS {
        expect_eq!(rt; worth(rt.alloc(), model, graph, vectors), Some(want), vectors);
    }
}
