//! Rows that are kept once for many actions and states.
ghost use Rattle.std.specs.Prelude.{◌≡◌, ℕ, [], ◌*◌, ◌<◌, ◌≤◌, ◌^◌, ◌↔◌, All, IfOk, OnOk, IfSome, IsTrue};
ghost use Rattle.std.specs.Prelude.{List, length, slice_get, sum, Some, None, ◌-◌, ◌++◌, ◌∷◌, slice_index_or};
ghost use Rattle.polcert_cells.specs.Numbers.{one};
ghost use Rattle.polcert_cells.specs.Elements.{most_elements};
ghost use Rattle.polcert_cells.specs.EntryRefs.{entry_of};
ghost use Rattle.polcert_cells.specs.Meaning.{sum_below};
ghost use Rattle.polcert_cells.specs.declared.entries.Table.{Table as T};
ghost use Rattle.polcert_cells.specs.declared.entries.Entry.{Entry as E};
ghost use Rattle.polcert_rules.specs.declared.rows.Shape.{Shape as S};
ghost use Rattle.polcert_rules.specs.Steps.Given.{IsShapeWithin};
ghost use Rattle.polcert_cells.specs.Sparse.{weight_at, scaled_cells, IsRow, IsSparse, excepted_weight};
ghost use Rattle.polcert_rules.specs.Steps.Lists.{IsFullLine, part_in, stored_cells, filled_cells, AreExceptions};
ghost use Rattle.polcert_rules.specs.Steps.Merging.{given_at, weight_by_entries, Rises};
ghost use Rattle.polcert_rules.specs.Steps.Sources.{origin_of, origin_in, IsWholeRowEntry, IsFrom, AreKept};
ghost use Rattle.polcert_rules.specs.Steps.Sources.{AreNumbersOf, IsKeptRow, IsShared, IsAfter, IsRowAfter};
ghost use Rattle.polcert_rules.specs.Steps.Sources.{Stays, AreNear, sum_of_weights};

use crate::index::half_width;
use crate::row::{EntryRow, body_line, body_row, body_weight, cells_over, newer_cells};
use crate::rows::{StoredRow, StoredRows};
use crate::{Rule, Shape};
use polcert_cells::{BodyRef, Cell, Entries, EntryRef, ONE, Place};
use std::alloc::{AllocError, Global};
use std::marker::Model;
use std::mem::replace;

/// Rows with fewer columns are kept cell by cell: they are walked sooner so.
const MANY_COLUMNS: usize = 64;

/// What a row is made of that one entry gives alone.
#[derive(Clone, Copy)]
pub(crate) enum RowOrigin {
    /// No entry.
    Nothing,
    /// `uniform`: the same weight in all columns.
    Even,
    /// `identity`: one column, that of the state.
    Diagonal { state: usize },
    /// A line of the numbers of one entry, by its number.
    Line { entry: usize, line: usize },
}

/// A row that one entry gives alone: what it is made of, and the number under which it is kept.
#[derive(Clone, Copy)]
pub(crate) struct SharedRow {
    pub source: RowOrigin,
    pub number: usize,
}

/// The entries whose bodies give rows, and the shape of the table that has these rows.
#[derive(Clone, Copy)]
pub(crate) struct Bodies<'a> {
    pub entries: &'a Entries,
    pub shape: Shape,
}

/// The numbers of the rows of an action so far, and of those of the action before, if there is one.
#[derive(Clone, Copy)]
pub(crate) struct Near<'a> {
    pub here: &'a [u32],
    pub before: &'a [u32],
}

/// Rows that are kept once for many actions and states. A row that one entry gives alone is made once and kept once. A row of
/// single cells is kept once where it is that of a neighbor.
#[derive(Drop)]
pub(crate) struct RowStore {
    pub rows: StoredRows,
    /// Of each row whether it sums to its scale.
    pub proper: Vec<bool>,
    pub shared: Vec<SharedRow>,
    slots: RowCache,
    /// The buffer of a row's own cells.
    spare: Vec<Cell>,
}

impl RowStore {
    /// Makes the store before its first row, for the table of these rules with this many states.
    pub(crate) fn of(
        alloc: Global,
        entries: &Entries,
        rules: &[Rule],
        states: usize,
    ) -> Result<RowStore, AllocError>
        ensures { IfOk result (λ store. (columns : ℕ) → AreKept columns entries.now store) }
    {
        let slots = RowCache::of(alloc, entries, rules, states)?;
        Ok(RowStore {
            rows: StoredRows::new(alloc),
            proper: Vec::new(alloc),
            shared: Vec::new(alloc),
            slots,
            spare: Vec::new(alloc),
        })
    }

    /// Returns whether the row of this number sums to its scale.
    pub(crate) fn is_proper(&self, number: usize) -> bool
        requires number { number < length self.now.rows }
        ensures { (columns : ℕ) (entries : List E) (weights : ℕ → ℕ) → AreKept columns entries self.now →
            IsKeptRow columns weights self.now.rows number →
            (IsTrue result ↔ (sum_below weights columns ≡ one * columns)) }
    {
        match self.proper.get(number) {
            Some(proper) => *proper,
            None => false,
        }
    }

    /// Returns the number of the row of an action and a state, made of these entries: of a row that is kept already, or of a new one.
    pub(crate) fn row_number(
        &mut self,
        alloc: Global,
        bodies: Bodies<'_>,
        near: Near<'_>,
        row: &EntryRow<'_>,
        state: usize,
    ) -> Result<usize, AllocError>
        requires within { IsShapeWithin bodies.shape }
        requires state { state < bodies.shape.states }
        requires near { AreNear self.old.rows near }
        requires kept { AreKept bodies.shape.columns bodies.entries.now self.old }
        requires row { (table : T) × (a : ℕ) ×
            AreNumbersOf bodies.shape bodies.entries.now table a state row.now }
        ensures stays { OnOk result (Stays self.old.rows self.new.rows) }
        ensures kept { OnOk result
            (AreKept bodies.entry.shape.columns bodies.entry.entries.now self.new) }
        ensures row { IfOk result (λ n. (table : T) (a : ℕ) →
            AreNumbersOf bodies.entry.shape bodies.entry.entries.now table a state row.now →
            IsKeptRow bodies.entry.shape.columns
            (weight_by_entries bodies.entry.shape.columns bodies.entry.entries.now table a state)
            self.new.rows n) }
    {
        let spare = replace(&mut self.spare, Vec::new(alloc));
        let newer = newer_cells(spare, bodies.entries, row, bodies.shape.columns)?;
        let exceptions = newer.as_slice();
        if let Some(weight) = common_weight(bodies, row, exceptions) {
            let even = self.even_row(bodies, near, weight, exceptions)?;
            self.spare = newer;
            return Ok(even);
        }
        let base = self.shared_row(alloc, bodies, row.whole, state)?;
        if row.zeros.is_none() && newer.is_empty() {
            self.spare = newer;
            return Ok(base);
        }
        let cells = cells_over(alloc, row, self.rows.at(base), newer)?;
        let number = self.own_row(bodies, near, cells.as_slice())?;
        self.spare = cells;
        Ok(number)
    }

    /// Returns the number of the row that one entry (or none, for `None`) gives alone. The row is made on first use, and kept once.
    fn shared_row(
        &mut self,
        alloc: Global,
        bodies: Bodies<'_>,
        whole: Option<usize>,
        state: usize,
    ) -> Result<usize, AllocError>
        requires within { IsShapeWithin bodies.shape }
        requires state { state < bodies.shape.states }
        requires kept { AreKept bodies.shape.columns bodies.entries.now self.old }
        requires whole { IsWholeRowEntry bodies.shape bodies.entries.now whole }
        ensures stays { OnOk result (Stays self.old.rows self.new.rows) }
        ensures kept { OnOk result
            (AreKept bodies.entry.shape.columns bodies.entry.entries.now self.new) }
        ensures row { IfOk result (IsKeptRow bodies.entry.shape.columns
            (given_at bodies.entry.shape.columns bodies.entry.entries.now whole state) self.new.rows) }
    {
        let source = origin_of(bodies.entries, whole, state);
        let place = self.slots.place_of(source);
        if let Some(number) = number_at(self.shared.as_slice(), place, source) {
            return Ok(number);
        }
        let number = self.keep_entry_row(alloc, bodies, whole, state)?;
        self.slots.note(source, self.shared.len());
        self.shared.push(SharedRow { source, number })?;
        Ok(number)
    }

    /// Keeps the row that one entry (or none) gives alone as the last row, and returns its number: called by `shared_row` on first use.
    fn keep_entry_row(
        &mut self,
        alloc: Global,
        bodies: Bodies<'_>,
        whole: Option<usize>,
        state: usize,
    ) -> Result<usize, AllocError>
        requires within { IsShapeWithin bodies.shape }
        requires state { state < bodies.shape.states }
        requires whole { IsWholeRowEntry bodies.shape bodies.entries.now whole }
        ensures number { IfOk result (λ n. n ≡ length self.old.rows) }
        ensures kept { OnOk result (IsRowAfter bodies.entry.shape.columns
            (given_at bodies.entry.shape.columns bodies.entry.entries.now whole state) self.old self.new) }
    {
        if let Some(line) = full_line(bodies.entries, whole, state, bodies.shape) {
            return Ok(self.keep_numbers(line)?);
        }
        if is_uniform(bodies.entries, whole, bodies.shape) {
            return Ok(self.keep_even(ONE, bodies.shape.columns, &[])?);
        }
        let cells = whole_row(alloc, bodies.entries, whole, state, bodies.shape)?;
        Ok(self.keep(cells.as_slice(), bodies.shape.columns)?)
    }

    /// Returns the number of a row of these cells, which no entry gives alone: that of a neighbor with the same cells, or of a new one.
    fn own_row(
        &mut self,
        bodies: Bodies<'_>,
        near: Near<'_>,
        cells: &[Cell],
    ) -> Result<usize, AllocError>
        requires within { IsShapeWithin bodies.shape }
        requires near { AreNear self.old.rows near }
        requires kept { AreKept bodies.shape.columns bodies.entries.now self.old }
        requires sparse { IsSparse bodies.shape.columns cells.now }
        requires small { (c : ℕ) → c < bodies.shape.columns →
            weight_at cells.now c ≤ one * bodies.shape.columns }
        ensures stays { OnOk result (Stays self.old.rows self.new.rows) }
        ensures kept { OnOk result
            (AreKept bodies.entry.shape.columns bodies.entry.entries.now self.new) }
        ensures row { IfOk result (λ n. slice_get self.new.rows n ≡ Some cells.now) }
    {
        if let Some(number) = neighbor_row(&self.rows, near, StoredRow::Sparse(cells)) {
            return Ok(number);
        }
        Ok(self.keep(cells, bodies.shape.columns)?)
    }

    /// Returns the number of a row that has this weight in all columns but for those of the exceptions.
    fn even_row(
        &mut self,
        bodies: Bodies<'_>,
        near: Near<'_>,
        weight: u64,
        exceptions: &[Cell],
    ) -> Result<usize, AllocError>
        requires within { IsShapeWithin bodies.shape }
        requires near { AreNear self.old.rows near }
        requires kept { AreKept bodies.shape.columns bodies.entries.now self.old }
        requires exceptions { AreExceptions weight bodies.shape.columns exceptions.now }
        ensures stays { OnOk result (Stays self.old.rows self.new.rows) }
        ensures kept { OnOk result
            (AreKept bodies.entry.shape.columns bodies.entry.entries.now self.new) }
        ensures row { IfOk result (λ n. slice_get self.new.rows n
            ≡ Some (filled_cells (excepted_weight weight exceptions.now) bodies.entry.shape.columns)) }
    {
        let columns = bodies.shape.columns;
        let row = StoredRow::Even {
            weight,
            columns,
            exceptions,
        };
        if let Some(number) = neighbor_row(&self.rows, near, row) {
            return Ok(number);
        }
        Ok(self.keep_even(weight, columns, exceptions)?)
    }

    /// Keeps a row of these cells as the last row, and returns its number.
    fn keep(&mut self, cells: &[Cell], columns: usize) -> Result<usize, AllocError>
        requires few { columns ≤ most_elements }
        requires sparse { IsSparse columns cells.now }
        requires small { (c : ℕ) → c < columns → weight_at cells.now c ≤ one * columns }
        ensures number { IfOk result (λ n. n ≡ length self.old.rows) }
        ensures kept { OnOk result (IsAfter columns cells.now self.old self.new) }
    {
        let number = self.rows.len();
        self.rows.push_cells(cells)?;
        self.proper.push(row_sum(cells) == ONE * columns as u64)?;
        Ok(number)
    }

    /// Keeps a row after the others that has this weight in all columns but for those of the exceptions, and returns its number.
    fn keep_even(
        &mut self,
        weight: u64,
        columns: usize,
        exceptions: &[Cell],
    ) -> Result<usize, AllocError>
        requires few { columns ≤ most_elements }
        requires exceptions { AreExceptions weight columns exceptions.now }
        ensures number { IfOk result (λ n. n ≡ length self.old.rows) }
        ensures kept { OnOk result (IsAfter columns
            (filled_cells (excepted_weight weight exceptions.now) columns) self.old self.new) }
    {
        let number = self.rows.len();
        self.rows.push_even(weight, columns, exceptions)?;
        self.proper.push(true)?;
        Ok(number)
    }

    /// Keeps a row after the others whose columns have these numbers, in millionths, and returns its number.
    fn keep_numbers(&mut self, numbers: &[u32]) -> Result<usize, AllocError>
        requires few { length numbers.now ≤ most_elements }
        requires small { All (λ n. n ≤ one) numbers.now }
        ensures number { IfOk result (λ n. n ≡ length self.old.rows) }
        ensures kept { OnOk result (IsAfter (length numbers.now)
            (scaled_cells (length numbers.now) 0 numbers.now) self.old self.new) }
    {
        let number = self.rows.len();
        let columns = numbers.len() as u64;
        self.rows.push_numbers(numbers)?;
        self.proper
            .push(numbers_sum(numbers) * columns == ONE * columns)?;
        Ok(number)
    }
}

/// Returns the cells of the row that one entry gives alone, or none for no entry.
fn whole_row(
    alloc: Global,
    entries: &Entries,
    whole: Option<usize>,
    state: usize,
    shape: Shape,
) -> Result<Vec<Cell>, AllocError>
    requires within { IsShapeWithin shape }
    requires state { state < shape.states }
    requires whole { IsWholeRowEntry shape entries.now whole }
    ensures { IfOk result
        (λ cells. IsRow shape.columns (given_at shape.columns entries.now whole state) cells.items) }
{
    match whole {
        None => Ok(Vec::new(alloc)),
        Some(number) => Ok(body_row(alloc, entries.at(number), state, shape)?),
    }
}

/// Returns the number of each column in millionths, so that the row is kept as a list of these. `None`: the entry gives no such line, or
/// less than half is above 0; the row is then kept as cells.
fn full_line<'a>(
    entries: &'a Entries,
    whole: Option<usize>,
    state: usize,
    shape: Shape,
) -> Option<&'a [u32]>
    requires within { IsShapeWithin shape }
    requires state { state < shape.states }
    requires whole { IsWholeRowEntry shape entries.now whole }
    ensures { IfSome result (λ line. IsFullLine shape.columns
        (given_at shape.columns entries.now whole state) line.now) }
{
    let Some(number) = whole else {
        return None;
    };
    match body_line(entries.at(number), state, shape) {
        Some(line) => if is_mostly_positive(line) {
            Some(line)
        } else {
            None
        },
        None => None,
    }
}

/// Returns whether more than half of the numbers are above 0.
fn is_mostly_positive(numbers: &[u32]) -> bool {
    let positive = numbers.iter().filter(|number| **number > 0).count();
    positive > numbers.len() / 2
}

/// Returns the weight above 0 that the entry that covers the whole row gives each column, if it gives all the same and they are many.
fn whole_weight(entries: &Entries, whole: Option<usize>, shape: Shape) -> Option<u64>
    requires within { IsShapeWithin shape }
    requires whole { IsWholeRowEntry shape entries.now whole }
    ensures { IfSome result (λ weight. (s c : ℕ) → given_at shape.columns entries.now whole s c ≡ weight) }
{
    if shape.columns < MANY_COLUMNS {
        return None;
    }
    match whole {
        None => None,
        Some(number) => body_weight(entries.at(number), shape),
    }
}

/// Tests whether the entry that covers the whole row gives each column the same share of the scale.
fn is_uniform(entries: &Entries, whole: Option<usize>, shape: Shape) -> bool
    requires within { IsShapeWithin shape }
    requires whole { IsWholeRowEntry shape entries.now whole }
    ensures { IsTrue result → (s c : ℕ) → given_at shape.columns entries.now whole s c ≡ one }
{
    match whole_weight(entries, whole, shape) {
        Some(weight) => weight == ONE,
        None => false,
    }
}

/// Returns the weight of all columns but for these newer cells, if they are few, and the row sums to its scale.
fn common_weight(bodies: Bodies<'_>, row: &EntryRow<'_>, newer: &[Cell]) -> Option<u64>
    requires within { IsShapeWithin bodies.shape }
    requires whole { IsWholeRowEntry bodies.shape bodies.entries.now row.now.whole }
    requires rise { Rises 0 bodies.shape.columns newer.now }
    requires small { sum_of_weights newer.now < 2 ^ 63 }
    ensures zeros { IfSome result (λ weight. row.now.zeros ≡ None) }
    ensures given { IfSome result (λ weight. (s c : ℕ) →
        given_at bodies.entry.shape.columns bodies.entry.entries.now row.now.whole s c ≡ weight) }
    ensures exceptions { IfSome result (λ weight. AreExceptions weight bodies.entry.shape.columns newer.now) }
{
    let columns = bodies.shape.columns;
    if row.zeros.is_some() || newer.is_empty() || newer.len() >= columns / 2 {
        return None;
    }
    let Some(weight) = whole_weight(bodies.entries, row.whole, bodies.shape) else {
        return None;
    };
    let others = columns - newer.len();
    if weight * others as u64 + row_sum(newer) == ONE * columns as u64 {
        Some(weight)
    } else {
        None
    }
}

/// Returns the sum of the numbers.
fn numbers_sum(numbers: &[u32]) -> u64
    requires { sum numbers.now < 2 ^ 64 }
    ensures { result ≡ sum numbers.now }
{
    let mut total = 0;
    for number in numbers {
        total += *number as u64;
    }
    total
}

/// Returns what the row of a state is made of, by the number of the entry that covers the whole row, if one does.
fn origin_of(entries: &Entries, whole: Option<usize>, state: usize) -> RowOrigin
    requires { (shape : S) × IsWholeRowEntry shape entries.now whole }
    ensures { result ≡ origin_of entries.now whole state }
{
    match whole {
        None => RowOrigin::Nothing,
        Some(number) => origin_in(entries.at(number), number, state),
    }
}

/// Returns what the row of a state is made of that this entry gives.
fn origin_in(entry: EntryRef<'_>, number: usize, state: usize) -> RowOrigin
    ensures { result ≡ origin_in number (entry_of entry.entry).places (entry_of entry.entry).body state }
{
    match entry.body {
        BodyRef::Probabilities(_) => RowOrigin::Line {
            entry: number,
            line: if entry.places.len() == 1 { state } else { 0 },
        },
        BodyRef::Identity => RowOrigin::Diagonal { state },
        BodyRef::Uniform => RowOrigin::Even,
        BodyRef::Rewards(_) => RowOrigin::Nothing,
    }
}

/// Returns the number of a row next to this one that is kept in the same way: of the state before, or of the action before.
fn neighbor_row(rows: &StoredRows, near: Near<'_>, row: StoredRow<'_>) -> Option<usize>
    requires near { AreNear rows.now near }
    ensures { IfSome result (λ n. slice_get rows.now n ≡ Some (stored_cells row.entry)) }
{
    if let Some(number) = near.here.last() {
        if is_same_row(rows.at(*number as usize), row) {
            return Some(*number as usize);
        }
    }
    if let Some(number) = near.before.get(near.here.len()) {
        if is_same_row(rows.at(*number as usize), row) {
            return Some(*number as usize);
        }
    }
    None
}

/// Tests whether two rows are kept in the same way. `false` says nothing of rows with the number of each column.
fn is_same_row(one: StoredRow<'_>, other: StoredRow<'_>) -> bool
    ensures { IsTrue result → stored_cells one.entry ≡ stored_cells other.entry }
{
    match (one, other) {
        (StoredRow::Sparse(cells), StoredRow::Sparse(others)) => cells == others,
        (
            StoredRow::Even {
                weight,
                columns,
                exceptions,
            },
            StoredRow::Even {
                weight: other_weight,
                columns: other_columns,
                exceptions: others,
            },
        ) => {
            if weight == other_weight && columns == other_columns {
                exceptions == others
            } else {
                false
            }
        }
        _ => false,
    }
}

/// Returns the number of the row at a place that the cache guesses, if the row there has this origin. `None`: it is to be made.
fn number_at(shared: &[SharedRow], place: usize, source: RowOrigin) -> Option<usize>
    ensures { IfSome result (IsShared shared.now source) }
{
    match shared.get(place) {
        Some(row) => if is_same_origin(row.source, source) {
            Some(row.number)
        } else {
            None
        },
        None => None,
    }
}

/// Tests whether two rows have the same origin.
fn is_same_origin(one: RowOrigin, other: RowOrigin) -> bool
    ensures { IsTrue result ↔ (one ≡ other) }
{
    match (one, other) {
        (RowOrigin::Nothing, RowOrigin::Nothing) => true,
        (RowOrigin::Even, RowOrigin::Even) => true,
        (RowOrigin::Diagonal { state }, RowOrigin::Diagonal { state: place }) => state == place,
        (
            RowOrigin::Line { entry, line },
            RowOrigin::Line {
                entry: number,
                line: place,
            },
        ) => { entry == number && line == place }
        _ => false,
    }
}

/// Returns the sum of the weights of a row.
fn row_sum(cells: &[Cell]) -> u64
    requires { sum_of_weights cells.now < 2 ^ 64 }
    ensures { result ≡ sum_of_weights cells.now }
{
    let mut sum = 0;
    for cell in cells {
        sum += cell.weight;
    }
    sum
}

/// The slot of a row that no entry gives.
const NOTHING: usize = 0;

/// The slot of a row of `uniform`.
const EVEN: usize = 1;

/// The slot of the first row of `identity`, which the others follow, one for each state.
const FIRST_DIAGONAL: usize = 2;

/// A slot for each row that one entry may give alone.
#[derive(Drop)]
pub(crate) struct RowCache {
    /// Of each entry the slot of the first line of its body. Empty if no body has lines.
    starts: Vec<u32>,
    /// In each slot the place of a row.
    places: Vec<u32>,
}

impl RowCache {
    /// Returns slots for the rows of the entries of these rules. A row whose slot lies beyond 32 bits is made anew at each use.
    pub(crate) fn of(
        alloc: Global,
        entries: &Entries,
        rules: &[Rule],
        states: usize,
    ) -> Result<RowCache, AllocError> {
        let count = if have_lines(entries, rules, states) {
            entries.len()
        } else {
            0
        };
        let mut starts = vec![in alloc; 0; count]?;
        let mut end = states.saturating_add(FIRST_DIAGONAL);
        for rule in rules {
            let number = rule.number;
            if number < entries.len() && number < starts.len() {
                starts[number] = half_width(end);
                end = end.saturating_add(lines_of(entries.at(number), states));
            }
        }
        let places = vec![in alloc; 0; half_width(end) as usize]?;
        Ok(RowCache { starts, places })
    }

    /// Returns the place of the row that is made of this, if it was noted, and else any place.
    pub(crate) fn place_of(&self, source: RowOrigin) -> usize {
        match self.slot_of(source) {
            Some(slot) => self.places.get(slot).copied().unwrap_or(0) as usize,
            None => 0,
        }
    }

    /// Notes the place of the row that is made of this.
    pub(crate) fn note(&mut self, source: RowOrigin, place: usize) {
        if let Some(slot) = self.slot_of(source) {
            if slot < self.places.len() {
                self.places[slot] = half_width(place);
            }
        }
    }

    /// Returns the slot of a row of this origin. `None`: it has none, and is made at each use.
    fn slot_of(&self, source: RowOrigin) -> Option<usize> {
        match source {
            RowOrigin::Nothing => Some(NOTHING),
            RowOrigin::Even => Some(EVEN),
            RowOrigin::Diagonal { state } => state.checked_add(FIRST_DIAGONAL),
            RowOrigin::Line { entry, line } => match self.starts.get(entry) {
                Some(start) => (*start as usize).checked_add(line),
                None => None,
            },
        }
    }
}

/// Tests whether the numbers of any entry of these rules give rows, each its own line.
fn have_lines(entries: &Entries, rules: &[Rule], states: usize) -> bool {
    for rule in rules {
        if rule.number < entries.len() && lines_of(entries.at(rule.number), states) > 0 {
            return true;
        }
    }
    false
}

/// Returns how many rows the numbers of an entry's body give, each its own line.
fn lines_of(entry: EntryRef<'_>, states: usize) -> usize {
    match entry.body {
        BodyRef::Probabilities(_) => match entry.places.as_slice() {
            [_] => states,
            [_, _] => 1,
            [_, _, Place::Every] => 1,
            _ => 0,
        },
        BodyRef::Uniform | BodyRef::Identity | BodyRef::Rewards(_) => 0,
    }
}

/// Where a list begins in the list of all items, and where it ends.
#[derive(Clone, Copy)]
pub(crate) struct Part {
    pub start: usize,
    pub end: usize,
}

/// Lists of items, kept in one list. Contracts see the lists.
#[derive(Drop)]
pub(crate) struct Lists<T: Drop> {
    parts: Vec<Part>,
    items: Vec<T>,
}

impl<T: Drop> Model for Lists<T> {
    ghost use Rattle.std.specs.Prelude.{List, All, map, length};
    ghost use Rattle.polcert_rules.specs.Steps.Lists.{part_in, PartLiesIn};

    ghost Value = { List (List T) };

    ghost view = { λ l. map (part_in l.items.items) l.parts.items };

    ghost invariant = { λ l. All (PartLiesIn (length l.items.items)) l.parts.items };
}

impl<T: Drop> Lists<T> {
    /// Makes no lists.
    pub(crate) fn new(alloc: Global) -> Lists<T>
        ensures { result ≡ [] }
    {
        Lists {
            parts: Vec::new(alloc),
            items: Vec::new(alloc),
        }
    }

    /// Returns how many lists there are.
    pub(crate) fn len(&self) -> usize
        ensures { result ≡ length self.now }
    {
        self.parts.len()
    }

    /// Returns the list of this number, counted from 0.
    pub(crate) fn at(&self, number: usize) -> &[T]
        requires { number < length self.now }
        ensures { slice_get self.now number ≡ Some result.now }
    {
        items_in(self.items.as_slice(), self.parts[number])
    }

    /// Puts the last list after the others once more.
    pub(crate) fn repeat_last(&mut self) -> Result<(), AllocError>
        requires { 0 < length self.old }
        ensures { OnOk result
            (self.new ≡ self.old ++ slice_index_or self.old (length self.old - 1) [] ∷ []) }
    {
        let last = self.parts[self.parts.len() - 1];
        self.parts.push(last)?;
        Ok(())
    }
}

impl<T: Copy + Drop> Lists<T> {
    /// Puts a list after the others.
    pub(crate) fn push(&mut self, more: &[T]) -> Result<(), AllocError>
        ensures { OnOk result (self.new ≡ self.old ++ more.now ∷ []) }
    {
        let start = self.items.len();
        self.items.extend_from_slice(more)?;
        let end = self.items.len();
        self.parts.push(Part { start, end })?;
        Ok(())
    }
}

/// Returns the items of this part.
fn items_in<T>(items: &[T], part: Part) -> &[T]
    requires order { part.start ≤ part.end }
    requires room { part.end ≤ length items.now }
    ensures { result.now ≡ part_in items.now part }
{
    &items[part.start..part.end]
}
