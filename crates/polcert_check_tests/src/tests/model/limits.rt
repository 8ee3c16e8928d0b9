//! The limits of elements and of cells.
use super::refusals::refusal_in_memory;
use polcert_model::{Cells, ItemFault, ModelFault, read_model};
use polcert_testing::expect_eq;
use std::alloc::{AllocError, Global};

/// How many states, actions and observations the model of the text has, and whether it may be printed.
fn counts_and_printable(alloc: Global, text: &[u8]) -> Option<([usize; 3], bool)> {
    let model = read_model(alloc, text).ok()?;
    let counts = [model.states(), model.actions(), model.observations()];
    Some((counts, model.printable()))
}

/// Texts within the limits, with their states, actions and observations, and whether they may be printed.
const ACCEPTED: &[(&[u8], [usize; 3], bool)] = &[
    (
        b"discount: 1 values: reward states: 2236 actions: 1 T: 0 identity",
        [2236, 1, 2236],
        true,
    ),
    (
        b"discount: 1 values: reward states: 2237 actions: 1 observations: 1 T: 0 identity O: 0 uniform",
        [2237, 1, 1],
        true,
    ),
    (
        b"discount: 1 values: reward states: 5000 actions: 1 observations: 1 T: 0 identity O: 0 uniform",
        [5000, 1, 1],
        false,
    ),
    (
        b"discount: 1 values: reward states: 10000 actions: 1 observations: 500 T: 0 identity O: 0 uniform",
        [10000, 1, 500],
        false,
    ),
    (
        b"discount: 1 values: reward states: 40 actions: 1 observations: 10000 T: 0 identity O: 0 uniform",
        [40, 1, 10000],
        true,
    ),
    (
        b"discount: 1 values: reward states: 41 actions: 1 observations: 10000 T: 0 identity O: 0 uniform",
        [41, 1, 10000],
        false,
    ),
    (
        b"discount: 1 values: reward states: 1 actions: 1000 observations: 1 T: * identity O: * uniform",
        [1, 1000, 1],
        true,
    ),
    (
        b"discount: 1 values: reward states: 257 actions: 1 observations: 256 T: 0 uniform O: 0 uniform R: * : * : * : * -10000000",
        [257, 1, 256],
        false,
    ),
    (
        b"discount: 1 values: reward states: 256 actions: 1 observations: 256 T: 0 uniform O: 0 uniform R: * : * : * : * -10000000",
        [256, 1, 256],
        true,
    ),
    (
        b"discount: 1 values: reward states: 5000 actions: 1 observations: 1 T: * : * : * 0 T: 0 identity O: 0 uniform",
        [5000, 1, 1],
        false,
    ),
    (
        b"discount: 1 values: reward states: 3000 actions: 2 observations: 1 T: 0 uniform T: 1 identity O: * uniform",
        [3000, 2, 1],
        false,
    ),
];

#[test]
fn within_the_limits(rt: HostRuntime) {
    for &(text, counts, printable) in ACCEPTED {
        expect_eq!(rt;
            counts_and_printable(rt.alloc(), text),
            Some((counts, printable))
        );
    }
}

/// Whether a line of 10,000 names and a last one is refused at that.
fn is_refused_at_last(alloc: Global, line: &str, last: u32) -> Result<bool, AllocError> {
    let mut text = String::from_str(alloc, line)?;
    for number in 0..10_000u32 {
        text.push_str(&format!(in alloc; " n{number}")?)?;
    }
    let place = text.len() as u64 + 1;
    text.push_str(&format!(in alloc; " n{last}")?)?;
    let fault = ModelFault::Item {
        kind: ItemFault::BadCount,
        item: 1,
        place,
    };
    Ok(refusal_in_memory(alloc, text.as_bytes()) == Some(fault))
}

/// The last name is new, or repeats an earlier one. The long lines are read once each, from memory: sixteen such reads took
/// more than a minute in a build with checks.
#[test]
fn a_name_too_many(rt: HostRuntime) {
    for (line, last) in [("states:", 7u32), ("observations:", 10_000)] {
        expect_eq!(rt; is_refused_at_last(rt.alloc(), line, last), Ok(true), line);
    }
}
