//! Single numbers that a model says. A test reads plain values, so that no model lives on in it: such tests are proved quickest.
use polcert_model::{Cells, Model, read_model};
use polcert_testing::{COST, NUMBERED_MDP, TIGER, expect_eq};
use std::alloc::Global;

/// One of the numbers that a model says. Elements go by their numbers, in the order of `Model`'s methods.
#[derive(Clone, Copy, Debug, PartialEq, Eq)]
enum Number {
    States,
    Actions,
    Observations,
    Discount,
    TScale,
    OScale,
    T(usize, usize, usize),
    O(usize, usize, usize),
    R(usize, usize, usize, usize),
    StartWeight(usize),
    StartTotal,
    /// 1 if the model gives costs.
    Costs,
    /// 1 if the end state is observed.
    Mdp,
}

/// The first of these numbers that is not the model's, if there is one: the very first where the text is no model's.
fn first_wrong(alloc: Global, text: &[u8], numbers: &[(Number, i128)]) -> Option<Number> {
    let model = read_model(alloc, text).ok();
    for (number, value) in numbers {
        let said = match &model {
            Some(model) => number_of(model, *number),
            None => None,
        };
        if said != Some(*value) {
            return Some(*number);
        }
    }
    None
}

fn number_of(model: &Model, number: Number) -> Option<i128> {
    match number {
        Number::States => Some(model.states() as i128),
        Number::Actions => Some(model.actions() as i128),
        Number::Observations => Some(model.observations() as i128),
        Number::Discount => Some(i128::from(model.discount())),
        Number::TScale => Some(i128::from(model.t_scale())),
        Number::OScale => Some(i128::from(model.o_scale())),
        Number::T(action, start, end) => t(model, action, start, end).map(i128::from),
        Number::O(action, end, observation) => o(model, action, end, observation).map(i128::from),
        Number::R(action, start, end, observation) => {
            r(model, action, start, end, observation).map(i128::from)
        }
        Number::StartWeight(state) => start_weight(model, state).map(i128::from),
        Number::StartTotal => Some(i128::from(model.start_total())),
        Number::Costs => Some(if model.is_cost() { 1 } else { 0 }),
        Number::Mdp => Some(if model.is_mdp() { 1 } else { 0 }),
    }
}

/// The cell of T, if there are such elements.
pub fn t<C: Cells>(cells: &C, action: usize, start: usize, end: usize) -> Option<u64> {
    if action < cells.actions() && start < cells.states() && end < cells.states() {
        Some(cells.t(action, start, end))
    } else {
        None
    }
}

/// The cell of O, if there are such elements.
pub fn o<C: Cells>(cells: &C, action: usize, end: usize, observation: usize) -> Option<u64> {
    if action < cells.actions() && end < cells.states() && observation < cells.observations() {
        Some(cells.o(action, end, observation))
    } else {
        None
    }
}

/// The cell of R, if there are such elements.
pub fn r<C: Cells>(
    cells: &C,
    action: usize,
    start: usize,
    end: usize,
    observation: usize,
) -> Option<i64> {
    let has_action = action < cells.actions();
    let has_observation = observation < cells.observations();
    if has_action && start < cells.states() && end < cells.states() && has_observation {
        Some(cells.r(action, start, end, observation))
    } else {
        None
    }
}

fn start_weight(model: &Model, state: usize) -> Option<u64> {
    if state < model.states() {
        Some(model.start_weight(state))
    } else {
        None
    }
}

/// Texts, and numbers of their models.
const NUMBERS: &[(&[u8], &[(Number, i128)])] = &[
    (
        TIGER,
        &[
            (Number::States, 2),
            (Number::Actions, 3),
            (Number::Observations, 2),
            (Number::Discount, 950_000),
            (Number::T(1, 0, 1), 1_000_000),
            (Number::TScale, 2_000_000),
            (Number::O(0, 1, 1), 1_700_000),
            (Number::OScale, 2_000_000),
            (Number::R(1, 1, 0, 0), 10_000_000),
            (Number::R(0, 0, 0, 0), -1_000_000),
            (Number::R(2, 1, 1, 1), -100_000_000),
            (Number::StartWeight(0), 1),
            (Number::StartWeight(1), 1),
            (Number::StartTotal, 2),
            (Number::Costs, 0),
            (Number::Mdp, 0),
        ],
    ),
    // the end state is observed
    (
        NUMBERED_MDP,
        &[
            (Number::States, 2),
            (Number::Actions, 1),
            (Number::Observations, 2),
            (Number::Discount, 500_000),
            (Number::TScale, 2_000_000),
            (Number::OScale, 2_000_000),
            (Number::T(0, 0, 0), 0),
            (Number::T(0, 0, 1), 2_000_000),
            (Number::O(0, 0, 0), 2_000_000),
            (Number::O(0, 0, 1), 0),
            (Number::O(0, 1, 0), 0),
            (Number::O(0, 1, 1), 2_000_000),
            (Number::R(0, 0, 0, 1), 0),
            (Number::R(0, 0, 1, 0), 1_000_000),
            (Number::R(0, 0, 1, 1), 1_000_000),
            (Number::R(0, 1, 1, 1), 0),
            (Number::Costs, 0),
            (Number::Mdp, 1),
        ],
    ),
    // a cost is a reward below zero
    (
        COST,
        &[(Number::R(0, 0, 0, 0), -1_000_000), (Number::Costs, 1)],
    ),
    // a row of six weights under newer cells
    (
        b"discount: 1 values: reward states: 1 actions: 1 observations: 6 T: 0 identity O: 0 : 0 0 0.2 0 0.3 0 0.5 O: 0 : 0 : 0 0.1 O: 0 : 0 : 3 0.7 O: 0 : 0 : 4 0 O: 0 : 0 : 5 0",
        &[
            (Number::OScale, 6_000_000),
            (Number::O(0, 0, 0), 600_000),
            (Number::O(0, 0, 1), 1_200_000),
            (Number::O(0, 0, 2), 0),
            (Number::O(0, 0, 3), 4_200_000),
            (Number::O(0, 0, 4), 0),
            (Number::O(0, 0, 5), 0),
        ],
    ),
    (
        b"discount: 1 values: reward states: 3 actions: 1 observations: 1 T: 0 identity O: 0 uniform T: 0 uniform",
        &[
            (Number::TScale, 3_000_000),
            (Number::T(0, 0, 0), 1_000_000),
            (Number::T(0, 1, 0), 1_000_000),
            (Number::T(0, 2, 2), 1_000_000),
        ],
    ),
    // single cells after a row of `uniform`
    (
        b"discount: 1 values: reward states: 6 actions: 1 observations: 1 T: 0 identity O: 0 uniform T: 0 : 0 uniform T: 0 : 0 : 0 0.5 T: 0 : 0 : 1 0 T: 0 : 0 : 2 0 T: 0 : 0 : 0 0.5",
        &[
            (Number::TScale, 6_000_000),
            (Number::T(0, 0, 0), 3_000_000),
            (Number::T(0, 0, 1), 0),
            (Number::T(0, 0, 2), 0),
            (Number::T(0, 0, 3), 1_000_000),
            (Number::T(0, 0, 4), 1_000_000),
            (Number::T(0, 0, 5), 1_000_000),
            (Number::T(0, 5, 5), 6_000_000),
            (Number::T(0, 5, 4), 0),
        ],
    ),
    // shares of the start where its probabilities differ
    (
        b"discount: 1 values: reward states: 4 actions: 1 observations: 1 start: 0 0.5 0.25 0.25 T: 0 identity O: 0 uniform",
        &[
            (Number::StartWeight(0), 0),
            (Number::StartWeight(1), 500_000),
            (Number::StartWeight(2), 250_000),
            (Number::StartWeight(3), 250_000),
            (Number::StartTotal, 1_000_000),
        ],
    ),
];

#[test]
fn numbers(rt: HostRuntime) {
    for &(text, numbers) in NUMBERS {
        expect_eq!(rt; first_wrong(rt.alloc(), text, numbers), None, text);
    }
}
