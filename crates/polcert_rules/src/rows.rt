//! The rows of T or O, and how they are stored.
ghost use Rattle.std.specs.Prelude.{◌≡◌, ℕ, ◌+◌, ◌<◌, All, IfOk, OnOk, MatchResult, IsTrue, Some, length};
ghost use Rattle.std.specs.Prelude.{slice_get, ◌*◌, ◌≤◌, ◌++◌, ◌∷◌, [], slice_index};
ghost use Rattle.polcert_cells.specs.Preamble.{Preamble};
ghost use Rattle.polcert_cells.specs.Rows.{IsWeighted};
ghost use Rattle.polcert_cells.specs.declared.elements.Cell.{Cell as C};
ghost use Rattle.polcert_rules.specs.Keys.{key_base};
ghost use Rattle.polcert_rules.specs.Steps.Shapes.{IsShapeOf, AreSound};
ghost use Rattle.polcert_rules.specs.Steps.Repeats.{IsAsBefore, IsWholeNumber};
ghost use Rattle.polcert_cells.specs.BorrowedRows.{IsRowOf};
ghost use Rattle.polcert_cells.specs.Sparse.{weight_at, IsSparse, scaled_cells, excepted_weight};
ghost use Rattle.polcert_cells.specs.Numbers.{one};
ghost use Rattle.polcert_rules.specs.Steps.Lists.{stored_cells, row_in, IsHeld, IsStored, filled_cells};
ghost use Rattle.polcert_rules.specs.Steps.Lists.{AreExceptions, AreEvenCells, even_cells};
ghost use Rattle.polcert_rules.specs.Steps.Merging.{from as cells_from};
ghost use Rattle.polcert_rules.specs.RowTables.{AreRowsOf, AreProperRows, IsFirstWrongEntryRow, row_at};
ghost use Rattle.polcert_rules.specs.Steps.Sources.{AreKept, AreIndexedEntries, AreLine, IsFirstWrongIn, Stays};
ghost use Rattle.polcert_rules.specs.Steps.Sources.{sum_of_weights};
ghost use Rattle.polcert_cells.specs.Elements.{most_elements};

use crate::Index;
use crate::index::{KEY_BASE, newest_of_table};
use crate::row::{ActionRules, EntryRow, RowCells};
use crate::row_store::{Bodies, Lists, Near, RowStore};
use crate::zeros::SplitRules;
use polcert_cells::{Cell, Entries, Row as BorrowedRow, Table, excepted_weight};
use std::alloc::{AllocError, Global};
use std::marker::Model;

/// A column that no row has: the last that has a digit.
const NO_COLUMN: usize = KEY_BASE as usize - 3;

/// The rows of T or O: of each action and state the columns with a weight above 0, in order, with their weights. In a
/// table of n columns the scale is 1,000,000 * n. What the body of an entry gives is kept once; a row of single cells is kept once
/// where it is that of the state before, or of the same state under the action before. A row to whose columns one entry gives the same
/// weight, but for a few cells, is kept as this weight and these cells. The rows of an action that no entry names are those of the
/// action before it, if none names that one either.
#[derive(Drop)]
pub struct Rows {
    shape: Shape,
    /// Of each action the number of the row of each state.
    numbers: Lists<u32>,
    rows: StoredRows,
}

impl Model for Rows {
    ghost use Rattle.std.specs.Prelude.{◌≡◌, ◌*◌, ◌<◌, All, length};
    ghost use Rattle.polcert_cells.specs.Sparse.{IsSparse};
    ghost use Rattle.polcert_rules.specs.Steps.Sources.{HasRows, HaveScale};
    ghost use Rattle.polcert_rules.specs.RowTables.{RowTable};

    ghost Value = { RowTable };

    ghost view = { λ r. record {
      actions = r.shape.actions;
      states = r.shape.states;
      columns = r.shape.columns;
      numbers = r.numbers;
      rows = r.rows;
    } };

    ghost invariant = { λ r. (length r.numbers ≡ r.shape.actions)
        × All (HasRows r.shape.states (length r.rows)) r.numbers × All (IsSparse r.shape.columns) r.rows
        × HaveScale r.shape r.rows r.numbers };
}

/// The entries of a table of weights, and what is found among them.
#[derive(Clone, Copy)]
pub(crate) struct TableEntries<'a> {
    pub bodies: Bodies<'a>,
    pub table: Table,
    pub index: &'a Index,
    pub split: &'a SplitRules<'a>,
}

impl Rows {
    /// Builds the rows of a table of weights, if each sums to its scale, or else returns the first that does not. The index of its
    /// entries lives only during the call. An error is out of memory.
    pub fn of(
        alloc: Global,
        shape: Shape,
        table: Table,
        entries: &Entries,
    ) -> Result<Result<Rows, WrongRow>, AllocError>
        requires weighted { IsWeighted table }
        requires sound { (p : Preamble) × IsShapeOf p table shape × AreSound p entries.now }
        ensures { IfOk result (λ found. (p : Preamble) → IsShapeOf p table shape →
            MatchResult found (λ rows. AreRowsOf p entries.now table rows × AreProperRows p entries.now table)
            (IsFirstWrongEntryRow p entries.now table)) }
    {
        let index = Index::of(alloc, entries, table)?;
        let rules = index.as_slice();
        let split = SplitRules::of(alloc, rules, entries)?;
        let lined = if split.is_exact { &rules[..0] } else { rules };
        let mut numbers = Lists::new(alloc);
        let mut store = RowStore::of(alloc, entries, lined, shape.states)?;
        let given = TableEntries {
            bodies: Bodies { entries, shape },
            table,
            index: &index,
            split: &split,
        };
        for action in 0..shape.actions {
            if is_as_before(&index, table, action) {
                numbers.repeat_last()?;
                continue;
            }
            match action_rows(alloc, &mut store, given, last_numbers(&numbers), action)? {
                Ok(line) => numbers.push(line.as_slice())?,
                Err(wrong) => return Ok(Err(wrong)),
            }
        }
        Ok(Ok(Rows {
            shape,
            numbers,
            rows: store.rows,
        }))
    }

    /// Returns the row of an action and a state.
    pub fn row(&self, action: usize, state: usize) -> BorrowedRow<'_>
        requires action { action < self.now.actions }
        requires state { state < self.now.states }
        ensures { IsRowOf (weight_at (row_at self.now action state)) self.now.columns result }
    {
        match self.stored_row(action, state) {
            StoredRow::Sparse(cells) => BorrowedRow::Sparse(cells),
            StoredRow::Full { numbers, columns } => BorrowedRow::Scaled {
                numbers,
                scale: columns,
            },
            StoredRow::Even {
                weight,
                columns,
                exceptions,
            } => BorrowedRow::Even {
                weight,
                columns,
                exceptions,
            },
        }
    }

    /// Returns the weight of a column, 0 too.
    pub fn at(&self, action: usize, state: usize, column: usize) -> u64
        requires action { action < self.now.actions }
        requires state { state < self.now.states }
        ensures { result ≡ weight_at (row_at self.now action state) column }
    {
        match self.stored_row(action, state) {
            StoredRow::Sparse(cells) => cell_weight(cells, column),
            StoredRow::Full { numbers, columns } => full_weight(numbers, columns, column),
            StoredRow::Even {
                weight,
                columns,
                exceptions,
            } => if column < columns {
                excepted_weight(weight, exceptions, column)
            } else {
                0
            },
        }
    }

    /// Returns whether the rows of an action in two states are kept as one row. `false`: unknown, they may be equal.
    pub fn has_same(&self, action: usize, state: usize, other: usize) -> bool
        requires action { action < self.now.actions }
        requires state { state < self.now.states }
        requires other { other < self.now.states }
        ensures { IsTrue result → row_at self.now action state ≡ row_at self.now action other }
    {
        let numbers = self.numbers.at(action);
        numbers[state] == numbers[other]
    }

    /// Returns the row of an action and a state, as it is kept.
    fn stored_row(&self, action: usize, state: usize) -> StoredRow<'_>
        requires action { action < self.now.actions }
        requires state { state < self.now.states }
        ensures row { stored_cells result ≡ row_at self.now action state }
        ensures sparse { IsSparse self.now.columns (stored_cells result) }
        ensures stored { IsStored result }
        ensures proper { sum_of_weights (stored_cells result) ≡ one * self.now.columns }
    {
        self.rows.at(self.numbers.at(action)[state] as usize)
    }
}

/// Returns the weight of a column in a sparse row, 0 too.
fn cell_weight(cells: &[Cell], column: usize) -> u64
    requires { (columns : ℕ) × IsSparse columns cells.now }
    ensures { result ≡ weight_at cells.now column }
{
    match cells_from(cells, column).first() {
        Some(cell) => if cell.column == column {
            cell.weight
        } else {
            0
        },
        None => 0,
    }
}

/// Returns the last list of numbers, that of the action before, or an empty one if there is none.
fn last_numbers(numbers: &Lists<u32>) -> &[u32]
    ensures { (size : ℕ) → All (All (λ n. n < size)) numbers.now → All (λ n. n < size) result.now }
{
    if numbers.len() == 0 {
        return &[];
    }
    numbers.at(numbers.len() - 1)
}

/// Returns the numbers of the rows of an action, which are kept in the store, or the first row that does not sum to its scale. `before` are
/// the numbers of the action before, whose rows are tried first.
fn action_rows(
    alloc: Global,
    store: &mut RowStore,
    given: TableEntries<'_>,
    before: &[u32],
    action: usize,
) -> Result<Result<Vec<u32>, WrongRow>, AllocError>
    requires given { AreIndexedEntries given }
    requires action { action < given.bodies.shape.actions }
    requires before { All (λ n. n < length store.old.rows) before.now }
    requires kept { AreKept given.bodies.shape.columns given.bodies.entries.now store.old }
    ensures stays { OnOk result (Stays store.old.rows store.new.rows) }
    ensures kept { OnOk result
        (AreKept given.entry.bodies.shape.columns given.entry.bodies.entries.now store.new) }
    ensures rows { IfOk result (λ found. MatchResult found
        (λ line. AreLine given.entry action given.entry.bodies.shape.states store.new.rows line.items)
        (IsFirstWrongIn given.entry action)) }
{
    let mut numbers = Vec::with_capacity(alloc, given.bodies.shape.states)?;
    let mut cells = RowCells::new(alloc);
    let rules = ActionRules::of(given.split, given.table, action);
    for state in 0..given.bodies.shape.states {
        let whole = newest_whole(given, action, state);
        let row = EntryRow::of(cells, whole, rules, state)?;
        let near = Near {
            here: numbers.as_slice(),
            before,
        };
        let number = store.row_number(alloc, given.bodies, near, &row, state)?;
        cells = row.cells;
        if !store.is_proper(number) {
            return Ok(Err(WrongRow {
                table: given.table,
                action,
                row: state,
            }));
        }
        let short = short_place(number)?;
        numbers.extend_from_slice(&[short])?;
    }
    Ok(Ok(numbers))
}

/// Returns the number of the newest entry that covers the whole row, if one does.
fn newest_whole(given: TableEntries<'_>, action: usize, state: usize) -> Option<usize>
    requires given { AreIndexedEntries given }
    requires action { action < given.bodies.shape.actions }
    requires state { state < given.bodies.shape.states }
    ensures { IsWholeNumber given.entry.index.now given.entry.table action state result }
{
    let wholes = given.split.wholes.as_slice();
    if wholes.is_empty() {
        return None;
    }
    newest_of_table(wholes, given.table, &[action, state, NO_COLUMN])
}

/// Returns whether the rows of this action are known to be those of the action before it: no entry names one of the two. `false`: unknown.
fn is_as_before(index: &Index, table: Table, action: usize) -> bool
    requires { action + 2 < key_base }
    ensures { IsTrue result → IsAsBefore index.now table action }
{
    if action > 0 && index.lacks_action(table, action) {
        return index.lacks_action(table, action - 1);
    }
    false
}

/// Returns the cells of a row from a column on, by a search unless the row has a cell for each column.
fn cells_from(cells: &[Cell], column: usize) -> &[Cell]
    requires { (columns : ℕ) × IsSparse columns cells.now }
    ensures { result.now ≡ cells_from column cells.now }
{
    if stands_at_its_number(cells, column) {
        return &cells[column..];
    }
    let start = cells.partition_point(|cell| cell.column < column);
    &cells[start..]
}

/// Tests whether the cell of this number is that of the column of this number.
fn stands_at_its_number(cells: &[Cell], column: usize) -> bool
    ensures { IsTrue result → (cell : C) × (slice_get cells.now column ≡ Some cell) × (cell.column ≡ column) }
{
    match cells.get(column) {
        Some(cell) => cell.column == column,
        None => false,
    }
}

/// How many actions and states a table of weights has, and how many columns each of its rows.
#[derive(Clone, Copy)]
pub struct Shape {
    pub actions: usize,
    pub states: usize,
    pub columns: usize,
}

/// A row that does not sum to its scale: of T, by action and start state, or of O, by action and end state.
#[derive(Clone, Copy)]
pub struct WrongRow {
    pub table: Table,
    pub action: usize,
    pub row: usize,
}

/// How a row is kept.
#[derive(Clone, Copy)]
pub(crate) enum RowForm {
    /// By the columns with a weight above 0, and these weights.
    Sparse,
    /// By the number of each column, in millionths.
    Full,
    /// By a cell of the number of columns and their weight, and the exceptions after it.
    Even,
}

/// Where a row begins in the list of its form, and how many items it has there.
#[derive(Clone, Copy)]
pub(crate) struct RowLocation {
    pub start: u32,
    pub count: u16,
    pub form: RowForm,
}

/// Returns a place in 32 bits. If it doesn't fit, that is answered as out of memory.
pub(crate) fn short_place(place: usize) -> Result<u32, AllocError>
    ensures { IfOk result (λ short. short ≡ place) }
{
    if place > u32::MAX as usize {
        return Err(AllocError);
    }
    Ok(place as u32)
}

/// A row, as it is kept.
#[derive(Clone, Copy)]
pub(crate) enum StoredRow<'a> {
    Sparse(&'a [Cell]),
    Full {
        numbers: &'a [u32],
        columns: u32,
    },
    /// This weight in each of this many columns, but for those of the exceptions.
    Even {
        weight: u64,
        columns: usize,
        exceptions: &'a [Cell],
    },
}

/// Rows, kept in one list for each form. Contracts see the cells of each.
#[derive(Drop)]
pub(crate) struct StoredRows {
    parts: Vec<RowLocation>,
    cells: Vec<Cell>,
    numbers: Vec<u32>,
}

impl Model for StoredRows {
    ghost use Rattle.std.specs.Prelude.{List, All, map};
    ghost use Rattle.polcert_cells.specs.declared.elements.Cell.{Cell as C};
    ghost use Rattle.polcert_rules.specs.Steps.Lists.{row_in, IsHeld};

    ghost Value = { List (List C) };

    ghost view = { λ r. map (row_in r.cells.items r.numbers.items) r.parts.items };

    ghost invariant = { λ r. All (IsHeld r.cells.items r.numbers.items) r.parts.items };
}

impl StoredRows {
    /// Makes no rows.
    pub(crate) fn new(alloc: Global) -> StoredRows
        ensures { result ≡ [] }
    {
        StoredRows {
            parts: Vec::new(alloc),
            cells: Vec::new(alloc),
            numbers: Vec::new(alloc),
        }
    }

    /// Returns how many rows there are.
    pub(crate) fn len(&self) -> usize
        ensures { result ≡ length self.now }
    {
        self.parts.len()
    }

    /// Returns the row of this number, counted from 0.
    pub(crate) fn at(&self, number: usize) -> StoredRow<'_>
        requires { number < length self.now }
        ensures cells { slice_get self.now number ≡ Some (stored_cells result) }
        ensures stored { IsStored result }
    {
        row_in(
            self.cells.as_slice(),
            self.numbers.as_slice(),
            self.parts[number],
        )
    }

    /// Puts a row of these cells after the others.
    pub(crate) fn push_cells(&mut self, more: &[Cell]) -> Result<(), AllocError>
        requires { length more.now ≤ most_elements }
        ensures { OnOk result (self.new ≡ self.old ++ more.now ∷ []) }
    {
        let start = short_place(self.cells.len())?;
        self.cells.extend_from_slice(more)?;
        self.parts.push(RowLocation {
            start,
            count: more.len() as u16,
            form: RowForm::Sparse,
        })?;
        Ok(())
    }

    /// Puts a row after the others whose columns have these numbers, in millionths.
    pub(crate) fn push_numbers(&mut self, more: &[u32]) -> Result<(), AllocError>
        requires { length more.now ≤ most_elements }
        ensures { OnOk result (self.new ≡ self.old ++ scaled_cells (length more.now) 0 more.now ∷ []) }
    {
        let start = short_place(self.numbers.len())?;
        self.numbers.extend_from_slice(more)?;
        self.parts.push(RowLocation {
            start,
            count: more.len() as u16,
            form: RowForm::Full,
        })?;
        Ok(())
    }

    /// Puts a row after the others that has this weight in each of this many columns, but for those of the exceptions.
    pub(crate) fn push_even(
        &mut self,
        weight: u64,
        columns: usize,
        exceptions: &[Cell],
    ) -> Result<(), AllocError>
        requires few { length exceptions.now ≤ most_elements }
        requires exceptions { AreExceptions weight columns exceptions.now }
        ensures { OnOk result
            (self.new ≡ self.old ++ filled_cells (excepted_weight weight exceptions.now) columns ∷ []) }
    {
        let start = short_place(self.cells.len())?;
        self.cells.push(Cell {
            column: columns,
            weight,
        })?;
        self.cells.extend_from_slice(exceptions)?;
        self.parts.push(RowLocation {
            start,
            count: exceptions.len() as u16 + 1,
            form: RowForm::Even,
        })?;
        Ok(())
    }
}

/// Returns the row of this part.
fn row_in<'a>(cells: &'a [Cell], numbers: &'a [u32], part: RowLocation) -> StoredRow<'a>
    requires { IsHeld cells.now numbers.now part }
    ensures cells { stored_cells result ≡ row_in cells.now numbers.now part }
    ensures stored { IsStored result }
{
    let start = part.start as usize;
    let end = start + part.count as usize;
    match part.form {
        RowForm::Sparse => StoredRow::Sparse(&cells[start..end]),
        RowForm::Full => StoredRow::Full {
            numbers: &numbers[start..end],
            columns: part.count as u32,
        },
        RowForm::Even => even_in(&cells[start..end]),
    }
}

/// Returns the row of one weight but for exceptions that these cells are.
fn even_in(part: &[Cell]) -> StoredRow<'_>
    requires { AreEvenCells part.now }
    ensures cells { stored_cells result ≡ even_cells part.now }
    ensures stored { IsStored result }
{
    let first = part[0];
    StoredRow::Even {
        weight: first.weight,
        columns: first.column,
        exceptions: &part[1..],
    }
}

/// Returns the cells of a row that has this weight in each of this many columns, but for those of the exceptions.
pub(crate) fn even_row_cells(
    alloc: Global,
    weight: u64,
    columns: usize,
    exceptions: &[Cell],
) -> Result<Vec<Cell>, AllocError>
    requires { AreExceptions weight columns exceptions.now }
    ensures { IfOk result
        (λ cells. cells.items ≡ filled_cells (excepted_weight weight exceptions.now) columns) }
{
    let mut cells = Vec::with_capacity(alloc, columns)?;
    for column in 0..columns {
        let here = excepted_weight(weight, exceptions, column);
        if here > 0 {
            cells.push(Cell {
                column,
                weight: here,
            })?;
        }
    }
    Ok(cells)
}

/// Returns the cells of a row whose columns have these numbers, in millionths.
pub(crate) fn cells_of(
    alloc: Global,
    numbers: &[u32],
    columns: u32,
) -> Result<Vec<Cell>, AllocError>
    ensures { IfOk result (λ cells. cells.items ≡ scaled_cells columns 0 numbers.now) }
{
    let mut cells = Vec::with_capacity(alloc, numbers.len())?;
    for column in 0..numbers.len() {
        let weight = column_weight(numbers[column], columns);
        if weight > 0 {
            cells.push(Cell { column, weight })?;
        }
    }
    Ok(cells)
}

/// Returns the weight of a column in a row whose columns have these numbers, in millionths.
pub(crate) fn full_weight(numbers: &[u32], columns: u32, column: usize) -> u64
    ensures { result ≡ slice_index numbers.now column * columns }
{
    match numbers.get(column) {
        Some(number) => column_weight(*number, columns),
        None => 0,
    }
}

/// Returns the weight of a column that has this number, in millionths, in a row of this many columns.
fn column_weight(number: u32, columns: u32) -> u64
    ensures { result ≡ number * columns }
{
    number as u64 * columns as u64
}
