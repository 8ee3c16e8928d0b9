//! The check of vectors in every model near one. The values are computed by hand.

use polcert_check::{AboveVerdict, LowerFault, NoProgress, RaiseFault, Verdict, fits};
use polcert_model::{Model, read_model};
use polcert_policy::{Graph, Vectors, read_graph, read_vectors};
use polcert_robust::{
    Distance, Spread, check_robust, check_robust_above, least_robust_constant, least_robust_raise,
    lowered_robustly, raised_robustly,
};
use std::alloc::Global;

/// Two states, each as likely as the other after every step, and the end state is observed. To end in state 0 earns 2.
const COIN: &[u8] = b"discount: 0.5
values: reward
states: 2
actions: toss
observations: 2
T: toss
0.5 0.5
0.5 0.5
O: toss
1 0
0 1
R: toss : * : 0 : * 2
";

/// The text's own model alone.
const NONE: Distance = Distance {
    t_by: Spread {
        parts: 0,
        percent: 0,
    },
    o_by: Spread {
        parts: 0,
        percent: 0,
    },
    r_by: 0,
};

/// Probabilities of end states within a tenth.
const TENTH: Distance = Distance {
    t_by: Spread {
        parts: 200_000,
        percent: 0,
    },
    o_by: Spread {
        parts: 0,
        percent: 0,
    },
    r_by: 0,
};

/// Probabilities of end states within 20 percent of themselves.
const FIFTH: Distance = Distance {
    t_by: Spread {
        parts: 0,
        percent: 20_000_000,
    },
    o_by: Spread {
        parts: 0,
        percent: 0,
    },
    r_by: 0,
};

/// Probabilities of end states within three quarters.
const FAR_ENDS: Distance = Distance {
    t_by: Spread {
        parts: 1_500_000,
        percent: 0,
    },
    o_by: Spread {
        parts: 0,
        percent: 0,
    },
    r_by: 0,
};

/// Probabilities of observations within one.
const FAR_OBSERVATIONS: Distance = Distance {
    t_by: Spread {
        parts: 0,
        percent: 0,
    },
    o_by: Spread {
        parts: 2_000_000,
        percent: 0,
    },
    r_by: 0,
};

/// Rewards within a tenth.
const REWARDS: Distance = Distance {
    t_by: Spread {
        parts: 0,
        percent: 0,
    },
    o_by: Spread {
        parts: 0,
        percent: 0,
    },
    r_by: 100_000,
};

/// The verdict, if the parts fit.
fn verdict(model: &Model, graph: &Graph, vectors: &Vectors, distance: Distance) -> Option<Verdict> {
    if fits(model, graph, vectors) {
        Some(check_robust(model, graph, vectors, distance))
    } else {
        None
    }
}

/// The verdict on the texts of a graph and of vectors for the coin, if they are read.
fn verdict_of(alloc: Global, graph: &[u8], vectors: &[u8], distance: Distance) -> Option<Verdict> {
    let model = read_model(alloc, COIN).ok()?;
    let graph = read_graph(alloc, graph, 1, 2).ok()?;
    let vectors = read_vectors(alloc, vectors, &graph, 2).ok()?;
    verdict(&model, &graph, &vectors, distance)
}

/// The first state of the only node is short by this amount.
fn short(amount: i128) -> Verdict {
    Verdict::Short {
        node: 0,
        state: 0,
        amount,
    }
}

/// A millionth, on the scale of the weights of one step of two states and two observations, times 1,000,000.
const MILLIONTH: i128 = 4_000_000_000_000_000_000;

/// The verdict on upper bounds, if the parts fit.
fn above_verdict(
    model: &Model,
    graph: &Graph,
    vectors: &Vectors,
    distance: Distance,
) -> Option<AboveVerdict> {
    if fits(model, graph, vectors) {
        Some(check_robust_above(model, graph, vectors, distance))
    } else {
        None
    }
}

/// The same of texts for the coin.
fn above_verdict_of(
    alloc: Global,
    graph: &[u8],
    vectors: &[u8],
    distance: Distance,
) -> Option<AboveVerdict> {
    let model = read_model(alloc, COIN).ok()?;
    let graph = read_graph(alloc, graph, 1, 2).ok()?;
    let vectors = read_vectors(alloc, vectors, &graph, 2).ok()?;
    above_verdict(&model, &graph, &vectors, distance)
}

/// State 0 is reached with 0.4 at least: 0.4 * 2 + 0.5 * 1.6 is 1.6. With 0.6 at most: 0.6 * 2 + 0.5 * 2.4 is 2.4.
#[test]
fn within_a_tenth(rt: HostRuntime) {
    for (vectors, want) in [
        (b"0 1.6 1.6".as_slice(), Verdict::Yes),
        (b"0 1.600001 1.600001", short(MILLIONTH / 2)),
        (b"0 2 2", short(200_000 * MILLIONTH)),
    ] {
        let found = verdict_of(rt.alloc(), b"0 0 0 0", vectors, TENTH);
        assert_eq!(rt; found, Some(want));
    }
    for (vectors, want) in [
        (b"0 2.4 2.4".as_slice(), AboveVerdict::Yes),
        (
            b"0 2.399999 2.399999",
            AboveVerdict::Long {
                node: 0,
                state: 0,
                amount: MILLIONTH / 2,
            },
        ),
    ] {
        let found = above_verdict_of(rt.alloc(), b"0 0 0 0", vectors, TENTH);
        assert_eq!(rt; found, Some(want));
    }
}

/// A fifth of a half is a tenth, so that the rows above hold.
#[test]
fn within_twenty_percent(rt: HostRuntime) {
    for (vectors, want) in [
        (b"0 1.6 1.6".as_slice(), Verdict::Yes),
        (b"0 1.600001 1.600001", short(MILLIONTH / 2)),
    ] {
        let found = verdict_of(rt.alloc(), b"0 0 0 0", vectors, FIFTH);
        assert_eq!(rt; found, Some(want));
    }
    let found = above_verdict_of(rt.alloc(), b"0 0 0 0", b"0 2.4 2.4", FIFTH);
    assert_eq!(rt; found, Some(AboveVerdict::Yes));
}

/// In the text's own model the value is 2. If a probability may lie more than itself away, state 0 need not be reached. A certain observation
/// stays certain, and what is not observed is not, however far; a reward is a tenth less.
#[test]
fn at_other_distances(rt: HostRuntime) {
    for (distance, vectors, want) in [
        (NONE, b"0 2 2".as_slice(), Verdict::Yes),
        (NONE, b"0 2.000001 2.000001", short(MILLIONTH / 2)),
        (FAR_ENDS, b"0 0 0", Verdict::Yes),
        (FAR_ENDS, b"0 0.000002 0.000002", short(MILLIONTH)),
        (FAR_OBSERVATIONS, b"0 2 2", Verdict::Yes),
        (REWARDS, b"0 1.8 1.8", Verdict::Yes),
        (
            REWARDS,
            b"0 1.8 1.800002",
            Verdict::Short {
                node: 0,
                state: 1,
                amount: MILLIONTH + MILLIONTH / 2,
            },
        ),
    ] {
        let found = verdict_of(rt.alloc(), b"0 0 0 0", vectors, distance);
        assert_eq!(rt; found, Some(want));
    }
}

/// The second observation has no successor, and may be received.
#[test]
fn without_a_successor(rt: HostRuntime) {
    let found = verdict_of(rt.alloc(), b"0 0 0 -", b"0 0 0", TENTH);
    assert_eq!(rt;
        found,
        Some(Verdict::NoSuccessor {
            node: 0,
            state: 0,
            observation: 1
        })
    );
}

/// The least constant, if the parts fit.
fn constant(
    model: &Model,
    graph: &Graph,
    vectors: &Vectors,
    distance: Distance,
) -> Option<Result<i64, LowerFault>> {
    if fits(model, graph, vectors) {
        Some(least_robust_constant(model, graph, vectors, distance, &mut NoProgress))
    } else {
        None
    }
}

/// The same of texts for the coin.
fn constant_of(
    alloc: Global,
    graph: &[u8],
    vectors: &[u8],
    distance: Distance,
) -> Option<Result<i64, LowerFault>> {
    let model = read_model(alloc, COIN).ok()?;
    let graph = read_graph(alloc, graph, 1, 2).ok()?;
    let vectors = read_vectors(alloc, vectors, &graph, 2).ok()?;
    constant(&model, &graph, &vectors, distance)
}

/// Lowered by c, the value 2 - c is to be at most 0.4 * 2 + 0.5 * (2 - c): c is at least 0.4.
#[test]
fn lowered(rt: HostRuntime) {
    for (vectors, distance, want) in [
        (b"0 2 2".as_slice(), TENTH, 400_000),
        (b"0 1.6 1.6", TENTH, 0),
        (b"0 2 2", NONE, 0),
        (b"0 2.000001 2.000001", NONE, 1),
    ] {
        let found = constant_of(rt.alloc(), b"0 0 0 0", vectors, distance);
        assert_eq!(rt; found, Some(Ok(want)));
    }
    let found = constant_of(rt.alloc(), b"0 0 0 -", b"0 0 0", TENTH);
    assert_eq!(rt;
        found,
        Some(Err(LowerFault::NoSuccessor {
            node: 0,
            state: 0,
            observation: 1
        }))
    );
}

/// The least raise, if the parts fit.
fn raise(
    model: &Model,
    graph: &Graph,
    vectors: &Vectors,
    distance: Distance,
) -> Option<Result<i64, RaiseFault>> {
    if fits(model, graph, vectors) {
        Some(least_robust_raise(model, graph, vectors, distance, &mut NoProgress))
    } else {
        None
    }
}

/// The same of texts for the coin.
fn raise_of(
    alloc: Global,
    graph: &[u8],
    vectors: &[u8],
    distance: Distance,
) -> Option<Result<i64, RaiseFault>> {
    let model = read_model(alloc, COIN).ok()?;
    let graph = read_graph(alloc, graph, 1, 2).ok()?;
    let vectors = read_vectors(alloc, vectors, &graph, 2).ok()?;
    raise(&model, &graph, &vectors, distance)
}

/// Raised by c, the value 2 + c is to be at least 0.6 * 2 + 0.5 * (2 + c): c is at least 0.4. A reward is a tenth more.
#[test]
fn raised(rt: HostRuntime) {
    for (vectors, distance, want) in [
        (b"0 2 2".as_slice(), TENTH, 400_000),
        (b"0 2.4 2.4", TENTH, 0),
        (b"0 2 2", NONE, 0),
        (b"0 1.999999 1.999999", NONE, 1),
        (b"0 2 2", REWARDS, 200_000),
    ] {
        let found = raise_of(rt.alloc(), b"0 0 0 0", vectors, distance);
        assert_eq!(rt; found, Some(Ok(want)));
    }
    let found = raise_of(rt.alloc(), b"0 0 0 -", b"0 0 0", TENTH);
    assert_eq!(rt;
        found,
        Some(Err(RaiseFault::NoSuccessor {
            node: 0,
            state: 0,
            observation: 1
        }))
    );
}

/// The constant and the value of the first state, if the parts fit and the vectors are moved from this side.
fn moved(
    alloc: Global,
    model: &Model,
    graph: &Graph,
    vectors: &Vectors,
    is_above: bool,
) -> Option<(i64, i64)> {
    if !fits(model, graph, vectors) {
        return None;
    }
    let (by, moved) = if is_above {
        raised_robustly(alloc, model, graph, vectors, TENTH, &mut NoProgress).ok()?
    } else {
        lowered_robustly(alloc, model, graph, vectors, TENTH, &mut NoProgress).ok()?
    };
    Some((by, *moved.values().first()?))
}

/// The same of vectors for the coin.
fn moved_of(alloc: Global, vectors: &[u8], is_above: bool) -> Option<(i64, i64)> {
    let model = read_model(alloc, COIN).ok()?;
    let graph = read_graph(alloc, b"0 0 0 0", 1, 2).ok()?;
    let vectors = read_vectors(alloc, vectors, &graph, 2).ok()?;
    moved(alloc, &model, &graph, &vectors, is_above)
}

#[test]
fn moved_vectors(rt: HostRuntime) {
    for (is_above, want) in [(false, (400_000, 1_600_000)), (true, (400_000, 2_400_000))] {
        assert_eq!(rt; moved_of(rt.alloc(), b"0 2 2", is_above), Some(want));
    }
}
