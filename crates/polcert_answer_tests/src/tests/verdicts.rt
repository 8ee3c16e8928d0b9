//! Worked rows: what texts in memory answer, as values, with exact amounts. `tests/cases` and `tests/bound-cases` have the lines.
use super::runs::Texts;
use super::texts::{COIN, EITHER, EVEN, GAIN, GREAT_GAIN, LOSS, SEEN, TIGER_BOUND, TIGER_LOW};
use super::trials::refusals;
use polcert_answer::{
    Fault, check_texts, check_texts_above, status_of_above_verdict, status_of_verdict,
};
use polcert_bound_answer::{check_bound_texts, status_of_bound_verdict};
use polcert_check::{AboveVerdict, Verdict};
use polcert_model::{ItemFault, ModelFault};
use polcert_optimum::InformedVerdict;
use polcert_points_answer::{PointBoundVerdict, check_point_texts, status_of_point_verdict};
use polcert_policy::{PointFault, VectorFault};
use polcert_testing::{COST, MDP, TIGER, expect_eq};
use polcert_text::TokenFault;

/// Texts, their verdict, and its exit status.
const BELOW: &[(Texts<'static>, Verdict, u8)] = &[
    ((TIGER, b"0 0 0 0", b"0 -20 -20"), Verdict::Yes, 0),
    (
        (TIGER, b"0 0 0 0", b"0 -19.999999 -19.999999"),
        Verdict::Short {
            node: 0,
            state: 0,
            amount: 200_000_000_000_000_000,
        },
        1,
    ),
    (
        (COST, b"0 0 0", b"0 2"),
        Verdict::Short {
            node: 0,
            state: 0,
            amount: 2_000_000_000_000_000_000_000_000,
        },
        1,
    ),
    (
        (LOSS, b"0 0 0", b"0 5"),
        Verdict::Short {
            node: 0,
            state: 0,
            amount: 1_000_000_000_000_000_000_000_000,
        },
        1,
    ),
    (
        (EITHER, b"0 0 0 -", b"0 5"),
        Verdict::NoSuccessor {
            node: 0,
            state: 0,
            observation: 1,
        },
        1,
    ),
    ((MDP, b"0 0 0 0", b"0 1.3333333 0.6666667"), Verdict::Yes, 0),
];

/// The same from above. What rounds to a yes from below rounds to a yes from above.
const ABOVE: &[(Texts<'static>, AboveVerdict, u8)] = &[
    (
        (MDP, b"0 0 0 0", b"0 1.3333333 0.6666667"),
        AboveVerdict::Yes,
        0,
    ),
    (
        (TIGER, b"0 0 0 0", b"0 -20.000001 -20.000001"),
        AboveVerdict::Long {
            node: 0,
            state: 0,
            amount: 200_000_000_000_000_000,
        },
        1,
    ),
    (
        (GAIN, b"0 0 0", b"0 5"),
        AboveVerdict::Long {
            node: 0,
            state: 0,
            amount: 1_000_000_000_000_000_000_000_000,
        },
        1,
    ),
    (
        (GREAT_GAIN, b"0 0 0", b"0 0"),
        AboveVerdict::Long {
            node: 0,
            state: 0,
            amount: 10_000_000_000_000_000_000_000_000_000_000,
        },
        1,
    ),
    (
        (COST, b"0 0 0", b"0 -5"),
        AboveVerdict::Long {
            node: 0,
            state: 0,
            amount: 1_500_000_000_000_000_000_000_000,
        },
        1,
    ),
    (
        (EITHER, b"0 0 0 -", b"0 -5"),
        AboveVerdict::NoSuccessor {
            node: 0,
            state: 0,
            observation: 1,
        },
        1,
    ),
];

#[test]
fn verdicts_on_graphs(rt: HostRuntime) {
    for &((model, graph, vectors), verdict, status) in BELOW {
        expect_eq!(rt; check_texts(rt.alloc(), model, graph, vectors), Ok(verdict));
        expect_eq!(rt; status_of_verdict(verdict), status);
    }
    for &((model, graph, vectors), verdict, status) in ABOVE {
        expect_eq!(rt; check_texts_above(rt.alloc(), model, graph, vectors), Ok(verdict));
        expect_eq!(rt; status_of_above_verdict(verdict), status);
    }
}

/// A model and vectors, their verdict, and its exit status. The scale of a step of the tiger is 2,000,000 * 2,000,000 * 1,000,000, of one
/// state and one observation 10^18.
const OF_BOUNDS: &[(&[u8], &[u8], InformedVerdict, u8)] = &[
    (TIGER, TIGER_BOUND, InformedVerdict::Yes, 0),
    (
        TIGER,
        TIGER_LOW,
        InformedVerdict::Exceeded {
            action: 0,
            state: 0,
            amount: 925 * 4_000_000_000_000_000_000,
        },
        1,
    ),
    (
        TIGER,
        b"0 87.1795 87.1795 1 -17.179475 92.820524 2 92.820525 -17.179475",
        InformedVerdict::Exceeded {
            action: 1,
            state: 1,
            amount: 4_000_000_000_000_000_000,
        },
        1,
    ),
    (
        GAIN,
        b"0 5",
        InformedVerdict::Exceeded {
            action: 0,
            state: 0,
            amount: 1_000_000_000_000_000_000_000_000,
        },
        1,
    ),
    (
        GREAT_GAIN,
        b"0 0",
        InformedVerdict::Exceeded {
            action: 0,
            state: 0,
            amount: 10_000_000_000_000_000_000_000_000_000_000,
        },
        1,
    ),
];

/// Vectors and points of the coin, their verdict, and its exit status. The weights of a step have the scale 2,000,000 * 1,000,000, and
/// those of a point, or the discount, mostly sum to 1,000,000.
const OF_POINTS: &[(&[u8], &[u8], PointBoundVerdict, u8)] = &[
    (SEEN, EVEN, PointBoundVerdict::Yes, 0),
    (
        b"0 1.5 1 1 1 2",
        EVEN,
        PointBoundVerdict::VectorExceeded {
            action: 0,
            state: 0,
            amount: 500_000_000_000_000_000_000_000,
        },
        1,
    ),
    (
        SEEN,
        b"0 0.5 0.5 1 0 0.999999 0",
        PointBoundVerdict::PointExceeded {
            point: 0,
            action: 1,
            amount: 2_000_000_000_000_000_000,
        },
        1,
    ),
    (
        SEEN,
        b"0 0.25 0.25 1 0 0.999999 0",
        PointBoundVerdict::PointExceeded {
            point: 0,
            action: 1,
            amount: 1_000_000_000_000_000_000,
        },
        1,
    ),
    (
        SEEN,
        b"0 1 0 2 0 1 0 1 0 1 1 0 1.5 1",
        PointBoundVerdict::PointExceeded {
            point: 1,
            action: 1,
            amount: 500_000_000_000_000_000_000_000,
        },
        1,
    ),
];

#[test]
fn verdicts_on_every_policy(rt: HostRuntime) {
    for &(model, vectors, verdict, status) in OF_BOUNDS {
        expect_eq!(rt; check_bound_texts(rt.alloc(), model, vectors), Ok(verdict));
        expect_eq!(rt; status_of_bound_verdict(verdict), status);
    }
    for &(vectors, points, verdict, status) in OF_POINTS {
        expect_eq!(rt; check_point_texts(rt.alloc(), COIN, vectors, points), Ok(verdict));
        expect_eq!(rt; status_of_point_verdict(verdict), status);
    }
}

/// A model and vectors for its actions, and the fault of the first that denotes nothing.
const REFUSED_BOUNDS: &[(&[u8], &[u8], Fault)] = &[
    (
        b"discount: 2",
        b"x",
        Fault::Model(ModelFault::Item {
            kind: ItemFault::DiscountRange,
            item: 1,
            place: 10,
        }),
    ),
    (
        TIGER,
        b"0 1 1 0 2 2 2 3 3",
        Fault::Vectors(VectorFault::ActionMismatch(6)),
    ),
    (
        TIGER,
        b"0 1 1 1 2 2",
        Fault::Vectors(VectorFault::WrongVectorCount(11)),
    ),
];

/// Vectors and points of the coin, and the fault of the first that denotes nothing.
const REFUSED_POINTS: &[(&[u8], &[u8], Fault)] = &[
    (
        b"0 2 1",
        b"x",
        Fault::Vectors(VectorFault::WrongVectorCount(5)),
    ),
    (
        SEEN,
        b"0 0.5, 0.5",
        Fault::Points(PointFault::Token(TokenFault::BadByte(5))),
    ),
    (
        SEEN,
        b"0 0.5 0.5 1 0 1 1",
        Fault::Points(PointFault::NextOutOfRange {
            point: 0,
            action: 1,
            observation: 0,
        }),
    ),
];

#[test]
fn refused_in_memory(rt: HostRuntime) {
    for ((model, graph, vectors), _, fault, _) in refusals() {
        expect_eq!(rt; check_texts(rt.alloc(), model, graph, vectors), Err(fault));
        expect_eq!(rt; check_texts_above(rt.alloc(), model, graph, vectors), Err(fault));
    }
    for &(model, vectors, fault) in REFUSED_BOUNDS {
        expect_eq!(rt; check_bound_texts(rt.alloc(), model, vectors), Err(fault));
    }
    for &(vectors, points, fault) in REFUSED_POINTS {
        expect_eq!(rt; check_point_texts(rt.alloc(), COIN, vectors, points), Err(fault));
    }
}
