//! What is known at once of rows of O, and of the rewards of end states.
use polcert_cells::RewardCell;
use polcert_model::{Cells, read_model};
use polcert_testing::expect_eq;
use std::alloc::Global;

/// Rows of O that one entry gives, and for one action and one of three states a row of single cells.
const TWO_ROWS: &[u8] =
    b"discount: 1 values: reward states: 3 actions: 2 observations: 2 T: * identity O: * uniform O: 1 : 2 : 0 0.25 O: 1 : 2 : 1 0.75";

/// A model without rows of O.
const END_STATE_OBSERVED: &[u8] = b"discount: 1 values: reward states: 3 actions: 2 T: * identity";

/// Whether it is known at once that an action shows the same in two end states, if the text is a model's that has them.
fn shows_same(alloc: Global, text: &[u8], at: [usize; 3]) -> Option<bool> {
    let [action, end, other] = at;
    let model = read_model(alloc, text).ok()?;
    if action < model.actions() && end < model.states() && other < model.states() {
        Some(model.has_same_observations(action, end, other))
    } else {
        None
    }
}

/// Texts, an action and two end states, and whether it is known that it shows the same in them.
const SAME: &[(&[u8], [usize; 3], Option<bool>)] = &[
    (TWO_ROWS, [0, 1, 2], Some(true)),
    (TWO_ROWS, [1, 0, 1], Some(true)),
    (TWO_ROWS, [1, 1, 2], Some(false)),
    (TWO_ROWS, [1, 2, 0], Some(false)),
    (TWO_ROWS, [1, 2, 2], Some(true)),
    (END_STATE_OBSERVED, [0, 1, 2], Some(false)),
    (END_STATE_OBSERVED, [0, 1, 3], None),
];

#[test]
fn end_states_in_which_an_action_shows_the_same(rt: HostRuntime) {
    for &(text, at, is_same) in SAME {
        expect_eq!(rt; shows_same(rt.alloc(), text, at), is_same, at);
    }
}

/// A reward, how many end states have another, and the first two of these with theirs.
type EndRewards = (i64, usize, (usize, i64), (usize, i64));

/// The rewards of the end states of a start state after action 0, if they are known at once and there is room.
fn end_rewards(alloc: Global, text: &[u8], start: usize) -> Option<EndRewards> {
    let model = read_model(alloc, text).ok()?;
    if start >= model.states() {
        return None;
    }
    let mut cells = [RewardCell {
        observation: 9,
        reward: 9,
    }; 2];
    let common = model.find_end_rewards(0, start, &mut cells)?;
    let [first, second] = cells;
    Some((
        common.reward,
        common.exceptions,
        (first.observation, first.reward),
        (second.observation, second.reward),
    ))
}

const THREE: &[u8] =
    b"discount: 0.5 values: reward states: 3 actions: 1 T: 0 identity R: * : * : * 4 \
    R: 0 : 1 : 2 -1 R: 0 : 1 : 0 : * 2 R: 0 : 2 : 0 1 R: 0 : 2 : 1 1 R: 0 : 2 : 2 1";

const OBSERVED: &[u8] =
    b"discount: 0.5 values: reward states: 2 actions: 1 observations: 2 T: 0 identity O: 0 uniform";

/// Texts, start states, and what is found. (There is no room for three, and in a model with observations they may differ by these.)
const END_REWARDS: &[(&[u8], usize, Option<EndRewards>)] = &[
    (THREE, 0, Some((4_000_000, 0, (9, 9), (9, 9)))),
    (
        THREE,
        1,
        Some((4_000_000, 2, (0, 2_000_000), (2, -1_000_000))),
    ),
    (THREE, 2, None),
    (OBSERVED, 0, None),
];

#[test]
fn rewards_of_end_states(rt: HostRuntime) {
    for &(text, start, want) in END_REWARDS {
        expect_eq!(rt; end_rewards(rt.alloc(), text, start), want, start);
    }
}
