//! The check of one vector for each action, and the constant that raises them. The values are computed by hand from the informed
//! inequality.

use polcert_model::{Model, read_model};
use polcert_optimum::{
    InformedRaiseFault, InformedVerdict, check_informed, fit_actions, least_informed_raise,
};
use polcert_policy::{Vectors, read_action_vectors};
use polcert_testing::{TIGER, expect_eq};
use std::alloc::Global;

mod points;

/// Two states and two actions: to stay, and to move to the other state. Staying in state 0 earns 1, moving out of state 1 earns 3.
const MOVES: &[u8] = b"discount: 0.5
values: reward
states: 2
actions: stay move
T: stay
identity
T: move
0 1
1 0
R: stay : 0 : * 1
R: move : 1 : * 3
";

/// Two states that are never left, and a reward of 1.
const APART: &[u8] =
    b"discount: 0.5 values: reward states: 2 actions: 1 observations: 1 T: 0 identity O: 0 uniform R: * : * : * : * 1";

/// The same with a discount of 1.
const UNDISCOUNTED: &[u8] =
    b"discount: 1 values: reward states: 2 actions: 1 observations: 1 T: 0 identity O: 0 uniform R: * : * : * : * 1";

/// The vectors of a text, if there is one for each action of the model.
pub fn vectors_of(alloc: Global, model: &Model, text: &[u8]) -> Option<Vectors> {
    read_action_vectors(alloc, text, model.actions(), model.states()).ok()
}

/// The action and the state where the inequality fails, and by how much, if it does; and the least constant.
type Found = (
    Option<(usize, usize, i128)>,
    Result<i64, InformedRaiseFault>,
);

/// What is found of vectors, if they fit the model.
fn found(model: &Model, vectors: &Vectors) -> Option<Found> {
    if !fit_actions(model, vectors) {
        return None;
    }
    let excess = match check_informed(model, vectors) {
        InformedVerdict::Yes => None,
        InformedVerdict::Exceeded {
            action,
            state,
            amount,
        } => Some((action, state, amount)),
    };
    Some((excess, least_informed_raise(model, vectors)))
}

/// What is found of two texts, if they are read.
fn found_of(alloc: Global, model: &[u8], vectors: &[u8]) -> Option<Found> {
    let model = read_model(alloc, model).ok()?;
    let vectors = vectors_of(alloc, &model, vectors)?;
    found(&model, &vectors)
}

/// Texts of models and vectors, and what is found. A millionth is 4,000,000,000,000,000,000 on the scale of the weights of one step of two
/// states and two observations, times 1,000,000.
///
/// Of TIGER listening leads to at most -1 + 0.95 * 93.6 = 87.92, opening to 10 + 0.95 * 88 = 93.6 or to -100 + 0.95 * 88 = -16.4. In MOVES
/// the state is seen, so that the best vectors are the values of the actions: from state 0 both actions are worth 2, from state 1 staying is
/// worth 2 and moving 4. The constant is the greatest excess, divided by 1 - discount, and rounded up to a millionth.
const FOUND: &[(&[u8], &[u8], Found)] = &[
    (TIGER, b"0 88 88 1 -16.4 93.6 2 93.6 -16.4", (None, Ok(0))),
    (
        TIGER,
        b"0 87.92 87.92 1 -16.4 93.6 2 93.6 -16.4",
        (None, Ok(0)),
    ),
    (
        TIGER,
        b"0 88 88 1 -16.4 93.599999 2 93.6 -16.4",
        (Some((1, 1, 4_000_000_000_000_000_000)), Ok(20)),
    ),
    (
        TIGER,
        b"0 88 88 1 -16.4 93.6 2 93.6 -16.400001",
        (Some((2, 1, 4_000_000_000_000_000_000)), Ok(20)),
    ),
    (
        TIGER,
        b"0 88 87.919999 1 -16.4 93.6 2 93.6 -16.4",
        (Some((0, 1, 4_000_000_000_000_000_000)), Ok(20)),
    ),
    (
        TIGER,
        b"0 0 0 1 -16.4 93.6 2 93.6 -16.4",
        (
            Some((0, 0, 351_680_000_000_000_000_000_000_000)),
            Ok(1_758_400_000),
        ),
    ),
    (
        TIGER,
        b"0 0 0 1 0 0 2 0 0",
        (
            Some((1, 1, 40_000_000_000_000_000_000_000_000)),
            Ok(200_000_000),
        ),
    ),
    (TIGER, b"0 200 200 1 200 200 2 200 200", (None, Ok(0))),
    (
        TIGER,
        b"0 199.999999 199.999999 1 199.999999 199.999999 2 199.999999 199.999999",
        (Some((1, 1, 200_000_000_000_000_000)), Ok(1)),
    ),
    (MOVES, b"0 2 2 1 2 4", (None, Ok(0))),
    (MOVES, b"0 2 2 1 2 3.9999991", (None, Ok(0))),
    (
        MOVES,
        b"0 1.999999 2 1 2 4",
        (Some((0, 0, 4_000_000_000_000_000_000)), Ok(2)),
    ),
    (
        MOVES,
        b"0 2 1.999999 1 2 4",
        (Some((0, 1, 4_000_000_000_000_000_000)), Ok(2)),
    ),
    (
        MOVES,
        b"0 2 2 1 1.999999 4",
        (Some((1, 0, 4_000_000_000_000_000_000)), Ok(2)),
    ),
    (
        MOVES,
        b"0 2 2 1 2 3.999999",
        (Some((1, 1, 4_000_000_000_000_000_000)), Ok(2)),
    ),
    (
        MOVES,
        b"0 1 1.999999 1 2 4",
        (
            Some((0, 0, 4_000_000_000_000_000_000_000_000)),
            Ok(2_000_000),
        ),
    ),
    (
        MOVES,
        b"0 2 1 1 1.5 4",
        (
            Some((0, 1, 4_000_000_000_000_000_000_000_000)),
            Ok(2_000_000),
        ),
    ),
    (
        UNDISCOUNTED,
        b"0 5 7",
        (
            Some((0, 0, 2_000_000_000_000_000_000_000_000)),
            Err(InformedRaiseFault::NoConstant {
                action: 0,
                state: 0,
                amount: 2_000_000_000_000_000_000_000_000,
            }),
        ),
    ),
    (
        APART,
        b"0 10000000 0",
        (
            Some((0, 1, 2_000_000_000_000_000_000_000_000)),
            Err(InformedRaiseFault::OutOfRange),
        ),
    ),
];

#[test]
fn verdicts_and_constants(rt: HostRuntime) {
    for &(model, vectors, want) in FOUND {
        expect_eq!(rt; found_of(rt.alloc(), model, vectors), Some(want), vectors);
    }
}

/// Vectors of three actions are none of a model of two.
#[test]
fn vectors_of_other_counts(rt: HostRuntime) {
    let fit = match (
        read_model(rt.alloc(), MOVES),
        read_action_vectors(rt.alloc(), b"0 0 0 1 0 0 2 0 0", 3, 2),
    ) {
        (Ok(model), Ok(vectors)) => Some(fit_actions(&model, &vectors)),
        _ => None,
    };
    expect_eq!(rt; fit, Some(false));
}
