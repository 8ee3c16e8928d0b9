//! The names of elements, by their numbers.
use polcert_model::{Cells, Kind, Model, read_model};
use polcert_testing::{MDP, TIGER, expect_eq};
use std::alloc::Global;

const COUNTED: &[u8] =
    b"discount: 1 values: reward states: 2 actions: wait observations: 1 T: wait identity O: 00 uniform";

/// One name for a state and an observation, and names that differ in case.
const NAMES: &[u8] =
    b"discount: 1 values: reward states: a A actions: A observations: A a T: A identity O: A uniform";

/// Whether the text is a model's with such an element, and `name` is the element's name, or `None` where it has none.
fn is_named(alloc: Global, text: &[u8], kind: Kind, index: usize, name: Option<&str>) -> bool {
    match read_model(alloc, text) {
        Ok(model) => has_name(&model, kind, index, name),
        Err(_) => false,
    }
}

fn has_name(model: &Model, kind: Kind, index: usize, name: Option<&str>) -> bool {
    let count = match kind {
        Kind::State => model.states(),
        Kind::Action => model.actions(),
        Kind::Observation => model.observations(),
    };
    index < count && model.name_of(kind, index) == name
}

/// Texts, elements of them, and their names. (In MDP the end state is observed: the observations have the states' names.)
const NAMED: &[(&[u8], Kind, usize, Option<&str>)] = &[
    (TIGER, Kind::State, 1, Some("tiger-right")),
    (TIGER, Kind::Action, 0, Some("listen")),
    (TIGER, Kind::Action, 2, Some("open-right")),
    (TIGER, Kind::Observation, 0, Some("tiger-left")),
    (COUNTED, Kind::State, 0, None),
    (COUNTED, Kind::Action, 0, Some("wait")),
    (NAMES, Kind::State, 1, Some("A")),
    (NAMES, Kind::Observation, 1, Some("a")),
    (MDP, Kind::State, 0, Some("left")),
    (MDP, Kind::State, 1, Some("right")),
    (MDP, Kind::Observation, 0, Some("left")),
    (MDP, Kind::Observation, 1, Some("right")),
];

#[test]
fn names_by_their_numbers(rt: HostRuntime) {
    for &(text, kind, index, name) in NAMED {
        expect_eq!(rt; is_named(rt.alloc(), text, kind, index, name), true, name);
    }
}
