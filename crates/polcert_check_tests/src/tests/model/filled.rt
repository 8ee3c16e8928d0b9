//! The cells of a model in filled tables.
use super::numbers::{o, r, t};
use polcert_model::{Cells, DenseModel, Model, Row, dense_of, read_model};
use polcert_testing::{TIGER, expect_eq};
use std::alloc::Global;

/// A row of `uniform`, of which single cells are written anew.
const SINGLE: &[u8] =
    b"discount: 1 values: reward states: 6 actions: 1 observations: 1 T: 0 identity O: 0 uniform T: 0 : 0 uniform T: 0 : 0 : 0 0.5 T: 0 : 0 : 1 0 T: 0 : 0 : 2 0 T: 0 : 0 : 0 0.5";

/// A reward for all cells, and one for a single cell after it.
const GENERAL_FIRST: &[u8] =
    b"discount: 1 values: reward states: 2 actions: 1 observations: 1 T: 0 identity O: 0 uniform R: * : * : * : * -1 R: 0 : 0 : 0 : 0 5";

/// The same two the other way round.
const GENERAL_LAST: &[u8] =
    b"discount: 1 values: reward states: 2 actions: 1 observations: 1 T: 0 identity O: 0 uniform R: 0 : 0 : 0 : 0 5 R: * : * : * : * -1";

/// An entry of each form and each pattern, for single cells, rows and matrices.
const EVERY: &[u8] = b"discount: 1
values: reward
states: 2
actions: 2
observations: 2
T: * : * : * 0.5
T: * : * : 1 0.5
T: * : 0 : * 0.5
T: * : 0 : 1 0.5
T: 1 : * : * 0.5
T: 1 : * : 1 0.5
T: 1 : 0 : * 0.5
T: 1 : 0 : 1 0.5
T: * 0.5 0.5 0 1
T: 1 identity
T: * : * 0.25 0.75
T: * : 0 uniform
T: 1 : * 0.75 0.25
T: 1 : 0 1 0
O: * : * : * 0.5
O: * : * : 1 0.5
O: * : 0 : * 0.5
O: * : 0 : 1 0.5
O: 1 : * : * 0.5
O: 1 : * : 1 0.5
O: 1 : 0 : * 0.5
O: 1 : 0 : 1 0.5
O: * 0.5 0.5 0 1
O: 1 uniform
O: * : * 0.25 0.75
O: * : 0 uniform
O: 1 : * 0.75 0.25
O: 1 : 0 1 0
R: * : * 1 2 3 4
R: * : 0 5 6 7 8
R: 1 : * 9 10 11 12
R: 1 : 0 13 14 15 16
R: * : * : * 17 18
R: * : * : 1 19 20
R: * : 0 : * 21 22
R: * : 0 : 1 23 24
R: 1 : * : * 25 26
R: 1 : * : 1 27 28
R: 1 : 0 : * 29 30
R: 1 : 0 : 1 31 32
R: * : * : * : * 33
R: * : * : * : 0 34
R: * : * : 1 : * 35
R: * : * : 1 : 0 36
R: * : 0 : * : * 37
R: * : 0 : * : 0 38
R: * : 0 : 1 : * 39
R: * : 0 : 1 : 0 40
R: 1 : * : * : * 41
R: 1 : * : * : 0 42
R: 1 : * : 1 : * 43
R: 1 : * : 1 : 0 44
R: 1 : 0 : * : * 45
R: 1 : 0 : * : 0 46
R: 1 : 0 : 1 : * 47
R: 1 : 0 : 1 : 0 48
";

/// States, actions, observations, discount, and the scales of T and O.
type Counts = [u64; 6];

/// Texts, and what their filled tables say besides cells.
const FILLED: &[(&[u8], Counts)] = &[
    (TIGER, [2, 3, 2, 950_000, 2_000_000, 2_000_000]),
    (SINGLE, [6, 1, 1, 1_000_000, 6_000_000, 1_000_000]),
    (GENERAL_FIRST, [2, 1, 1, 1_000_000, 2_000_000, 1_000_000]),
    (GENERAL_LAST, [2, 1, 1, 1_000_000, 2_000_000, 1_000_000]),
    (EVERY, [2, 2, 2, 1_000_000, 2_000_000, 2_000_000]),
];

#[test]
fn the_same_cells_in_filled_tables(rt: HostRuntime) {
    for &(text, counts) in FILLED {
        expect_eq!(rt; read_filled(rt.alloc(), text), Some((counts, true)), text);
    }
}

/// The model's tables, filled.
fn filled(alloc: Global, model: &Model) -> Option<DenseModel> {
    if model.printable() {
        dense_of(alloc, model).ok()
    } else {
        None
    }
}

/// The counts of the filled tables of the text's model, and whether they say the same of each cell.
fn read_filled(alloc: Global, text: &[u8]) -> Option<(Counts, bool)> {
    let model = read_model(alloc, text).ok()?;
    filled_in(alloc, &model)
}

/// The same of a model.
fn filled_in(alloc: Global, model: &Model) -> Option<(Counts, bool)> {
    let dense = filled(alloc, model)?;
    Some((counts(&dense), are_alike(model, &dense)))
}

fn counts<C: Cells>(cells: &C) -> Counts {
    [
        cells.states() as u64,
        cells.actions() as u64,
        cells.observations() as u64,
        u64::from(cells.discount()),
        cells.t_scale(),
        cells.o_scale(),
    ]
}

/// Whether both have the same cells.
fn are_alike<C: Cells, D: Cells>(first: &C, second: &D) -> bool {
    for a in 0..first.actions() {
        for s in 0..first.states() {
            if !is_row_alike(first, second, a, s) {
                return false;
            }
        }
    }
    true
}

/// Whether both have the same cells at an action and a state.
fn is_row_alike<C: Cells, D: Cells>(first: &C, second: &D, a: usize, s: usize) -> bool {
    for column in 0..first.states() {
        if t(first, a, s, column) != t(second, a, s, column) {
            return false;
        }
        if borrowed_t(first, a, s, column) != borrowed_t(second, a, s, column) {
            return false;
        }
        for z in 0..first.observations() {
            if o(first, a, column, z) != o(second, a, column, z) {
                return false;
            }
            if borrowed_o(first, a, column, z) != borrowed_o(second, a, column, z) {
                return false;
            }
            if r(first, a, s, column, z) != r(second, a, s, column, z) {
                return false;
            }
        }
    }
    true
}

/// The first end state from a number on that has a weight above 0, and the weight, by the row that is borrowed.
fn borrowed_t<C: Cells>(cells: &C, a: usize, s: usize, from: usize) -> Option<(usize, u64)> {
    if a < cells.actions() && s < cells.states() {
        first_from(cells.t_row(a, s)?, from, cells.states())
    } else {
        None
    }
}

/// The same of observations after an end state.
fn borrowed_o<C: Cells>(cells: &C, a: usize, e: usize, from: usize) -> Option<(usize, u64)> {
    if a < cells.actions() && e < cells.states() {
        first_from(cells.o_row(a, e)?, from, cells.observations())
    } else {
        None
    }
}

/// The first cell of a row from a column on.
fn first_from(row: Row<'_>, from: usize, columns: usize) -> Option<(usize, u64)> {
    let mut at = 0;
    for _ in 0..columns {
        let step = row.step(at)?;
        if step.column >= from {
            return Some((step.column, step.weight));
        }
        at = step.next;
    }
    None
}
