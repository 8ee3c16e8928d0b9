//! A row of T or O: the numbers of its entries, its single cells above 0, and both merged.
ghost use Rattle.std.specs.Prelude.{◌≡◌, ◌+◌, ◌-◌, ◌*◌, ◌<◌, ◌≤◌, ◌↔◌, ◌⊎◌, ◌++◌, ◌^◌, ℕ, List, All};
ghost use Rattle.std.specs.Prelude.{Contains, IfSome, IsTrue, OnOk, IfOk, Some, length, ◌==◌, slice_index};
ghost use Rattle.std.specs.Prelude.{if◌then◌else◌};
ghost use Rattle.std.specs.List.{list_all};
ghost use Rattle.polcert_rules.specs.declared.index.Rule.{Rule as R};
ghost use Rattle.polcert_cells.specs.declared.entries.Entry.{Entry as E};
ghost use Rattle.polcert_rules.specs.Keys.{key_base};
ghost use Rattle.polcert_rules.specs.Steps.Newest.{IsIndexOf, IsRising, IsNewest};
ghost use Rattle.polcert_rules.specs.Steps.Rows.{HaveColumns, IsSingleCellKey, IsColumnRule, IsCell, columns_of};
ghost use Rattle.polcert_rules.specs.Steps.Rows.{at_column, AreExact, HasSharedColumns, IsTableKey};
ghost use Rattle.polcert_rules.specs.Steps.Zeros.{others_in};
ghost use Rattle.polcert_rules.specs.Steps.Repeats.{IsWholeNumber};
ghost use Rattle.polcert_rules.specs.Steps.Zeros.{AreActionRules, HasOrderedZeros, IsSplit, IsEntryRowOf, covering_entry};
ghost use Rattle.polcert_rules.specs.Steps.Zeros.{newest_zero};
ghost use Rattle.polcert_rules.specs.Steps.Zeros.{overrides, shown, shown_under};
ghost use Rattle.polcert_cells.specs.Elements.{most_elements};
ghost use Rattle.polcert_rules.specs.Steps.Merging.{given_at, is_newer, newer_cells, merged, before};
ghost use Rattle.polcert_rules.specs.Steps.Merging.{following, has_weight};
ghost use Rattle.polcert_rules.specs.Steps.Sources.{IsNumberEntry, IsColumnOf};
ghost use Rattle.polcert_cells.specs.declared.elements.Cell.{Cell as C};
ghost use Rattle.polcert_rules.specs.Steps.Lists.{stored_cells, IsFullLine, IsStored};
ghost use Rattle.polcert_cells.specs.Numbers.{one};
ghost use Rattle.polcert_cells.specs.EntryRefs.{entry_of};
ghost use Rattle.polcert_rules.specs.Steps.Given.{IsShapeWithin, FitsShape, entry_weight};
ghost use Rattle.polcert_cells.specs.Sparse.{IsRow};

use crate::index::{
    COLUMN, COLUMN_KEYS, MOST_PLACES, first_column, max_option, rules_before, rules_between,
    rules_from_at, sort_newest, span, table_digit,
};
use crate::rows::{StoredRow, cells_of, even_row_cells};
use crate::zeros::{ActionZeros, RowZeros, SplitRules, row_zeros};
use crate::{Rule, Shape};
use polcert_cells::{BodyRef, Cell, Entries, EntryRef, ONE, Table};
use std::alloc::{AllocError, Global};

/// A row of T or O by the numbers of its entries: that of what covers the whole row, if anything does, those
/// of its single cells, by column, and the zeros that it shares with other rows, if there are any.
#[derive(Drop)]
pub(crate) struct EntryRow<'a> {
    pub whole: Option<usize>,
    pub cells: RowCells,
    pub zeros: Option<RowZeros<'a>>,
}

/// The single cells of a row, and where the rules of the next row may begin. No answer depends on where they may.
#[derive(Drop)]
pub(crate) struct RowCells {
    pub rules: Vec<Rule>,
    pub next: usize,
}

impl RowCells {
    pub(crate) fn new(alloc: Global) -> RowCells {
        RowCells {
            rules: Vec::new(alloc),
            next: 0,
        }
    }
}

/// The rules of a table, and which of its zeros all rows of this action share.
#[derive(Clone, Copy)]
pub(crate) struct ActionRules<'a> {
    pub split: &'a SplitRules<'a>,
    pub table: Table,
    pub action: usize,
    pub zeros: ActionZeros<'a>,
}

impl<'a> ActionRules<'a> {
    /// Finds the zeros of this action among the rules of a table.
    pub(crate) fn of(split: &'a SplitRules<'a>, table: Table, action: usize) -> ActionRules<'a>
        requires action { action + 2 < key_base }
        requires rising { IsRising split.now.zeros.items }
        ensures table { result.table ≡ table }
        ensures action { result.action ≡ action }
        ensures split { (entries : List E) (rules : List R) → IsSplit entries rules split.now →
            AreActionRules entries rules result }
    {
        let low = table_digit(table) * span(MOST_PLACES);
        let zeros = ActionZeros::of(split.zeros.as_slice(), low, action);
        ActionRules {
            split,
            table,
            action,
            zeros,
        }
    }
}

impl<'a> EntryRow<'a> {
    /// Returns the row of an action at this state, by its entries: `whole` is the number of the one that covers the whole row. The cells of
    /// the row before are given up, as room.
    pub(crate) fn of(
        last: RowCells,
        whole: Option<usize>,
        given: ActionRules<'a>,
        state: usize,
    ) -> Result<EntryRow<'a>, AllocError>
        requires action { given.action + 2 < key_base }
        requires state { state + 2 < key_base }
        requires rules { (entries : List E) × (rules : List R) × AreActionRules entries rules given }
        ensures { IfOk result (λ row. (entries : List E) (rules : List R) →
            HaveColumns entries → IsIndexOf given.entry.table entries rules →
            AreActionRules entries rules given.entry →
            IsWholeNumber rules given.entry.table given.entry.action state whole →
            IsEntryRowOf entries given.entry.table given.entry.action state row) }
    {
        let ActionRules {
            split,
            table,
            action,
            zeros: of_each,
        } = given;
        let low = table_digit(table) * span(MOST_PLACES);
        let cells = cells(last, split, low, action, state)?;
        let zeros = row_zeros(split.zeros.as_slice(), of_each, low, state);
        Ok(EntryRow {
            whole,
            cells,
            zeros,
        })
    }

    /// Returns the number of what covers a column below its cell: the entry of the whole row, or a newer
    /// zero.
    pub(crate) fn covering_entry(&self, column: usize) -> Option<usize>
        requires ordered { IfSome self.now.zeros HasOrderedZeros }
        requires column { column + 2 < key_base }
        ensures { result ≡ covering_entry self.now column }
    {
        match self.zeros {
            None => self.whole,
            Some(zeros) => max_option(self.whole, zeros.newest(column)),
        }
    }
}

/// Returns the single cells of the row at this action and state, by column: of each column the newest. Those of the row before are
/// given up.
pub(crate) fn cells(
    last: RowCells,
    split: &SplitRules<'_>,
    low: u64,
    action: usize,
    state: usize,
) -> Result<RowCells, AllocError>
    requires rising { IsRising (others_in split.now.others) }
    requires exact { IsTrue split.now.is_exact → AreExact (others_in split.now.others) }
    requires low { IsTableKey low }
    requires action { action + 2 < key_base }
    requires state { state + 2 < key_base }
    ensures rising { IfOk result (λ cells. IsRising cells.rules.items) }
    ensures newest { IfOk result (λ cells. (c : ℕ) → c + 2 < key_base →
        IsNewest (others_in split.now.others) (IsSingleCellKey low action state c)
        (at_column cells.rules.items c)) }
    ensures each { IfOk result (λ cells.
        All (IsCell (others_in split.now.others) low action state) cells.rules.items) }
{
    let RowCells {
        rules: mut cells,
        next,
    } = last;
    cells.clear();
    add_shared_columns(&mut cells, split, low, action, state)?;
    let start = first_column(low, action as u64 + 2, state as u64 + 2);
    let next = add_columns_at(&mut cells, split.other_rules(), start, next)?;
    sort_newest(&mut cells);
    Ok(RowCells { rules: cells, next })
}

/// Puts the single cells of each action or of each state, in the row at this action and state, after the others.
fn add_shared_columns(
    cells: &mut Vec<Rule>,
    split: &SplitRules<'_>,
    low: u64,
    action: usize,
    state: usize,
) -> Result<(), AllocError>
    requires rising { IsRising (others_in split.now.others) }
    requires exact { IsTrue split.now.is_exact → AreExact (others_in split.now.others) }
    requires low { IsTableKey low }
    requires action { action + 2 < key_base }
    requires state { state + 2 < key_base }
    ensures { OnOk result (HasSharedColumns (others_in split.now.others) low action state cells.old.items
        cells.new.items) }
{
    if split.is_exact {
        return Ok(());
    }
    let rules = split.other_rules();
    add_columns(cells, rules, first_column(low, 1, 1))?;
    add_columns(cells, rules, first_column(low, 1, state as u64 + 2))?;
    add_columns(cells, rules, first_column(low, action as u64 + 2, 1))?;
    Ok(())
}

/// Puts the single cells that begin at this key after the others.
fn add_columns(cells: &mut Vec<Rule>, rules: &[Rule], start: u64) -> Result<(), AllocError>
    requires rising { IsRising rules.now }
    requires room { start + (key_base - 2) * key_base < 2 ^ 64 }
    ensures { OnOk result ((x : R) →
        Contains cells.new.items x ↔ (Contains cells.old.items x ⊎ IsColumnRule rules.now start x)) }
{
    add_part(
        cells,
        rules_between(rules, start, start + COLUMN_KEYS),
        start,
    )?;
    Ok(())
}

/// Does what `add_columns` does, at once if the cells begin at this place of the rules, and returns where those of the next row may begin.
fn add_columns_at(
    cells: &mut Vec<Rule>,
    rules: &[Rule],
    start: u64,
    place: usize,
) -> Result<usize, AllocError>
    requires rising { IsRising rules.now }
    requires room { start + (key_base - 2) * key_base < 2 ^ 64 }
    ensures { OnOk result ((x : R) →
        Contains cells.new.items x ↔ (Contains cells.old.items x ⊎ IsColumnRule rules.now start x)) }
{
    let rest = rules_from_at(rules, start, place);
    let part = rules_before(rest, start + COLUMN_KEYS);
    add_part(cells, part, start)?;
    let before = rules.len().saturating_sub(rest.len());
    Ok(before.saturating_add(part.len()))
}

/// Adds the cells of single columns among these rules, which begin at the key `start`, with their columns as keys.
fn add_part(cells: &mut Vec<Rule>, part: &[Rule], start: u64) -> Result<(), AllocError>
    requires { All (λ (r : R). start ≤ r.key) part.now }
    ensures { OnOk result (cells.new.items ≡ cells.old.items ++ columns_of start part.now) }
{
    for rule in part {
        let offset = rule.key - start;
        if offset % COLUMN == 0 {
            cells.push(Rule {
                key: offset / COLUMN,
                number: rule.number,
            })?;
        }
    }
    Ok(())
}

/// Returns the cells of a row that are newer than the entry below them, with their weights. Those of the row before are given up.
pub(crate) fn newer_cells(
    last: Vec<Cell>,
    entries: &Entries,
    row: &EntryRow<'_>,
    columns: usize,
) -> Result<Vec<Cell>, AllocError>
    requires few { columns ≤ most_elements }
    requires cells { All (IsColumnOf columns entries.now) row.now.cells.rules.items }
    requires ordered { IfSome row.now.zeros HasOrderedZeros }
    ensures { IfOk result (λ newer. (s : ℕ) →
        newer.items ≡ newer_cells columns entries.now (covering_entry row.now) s row.now.cells.rules.items) }
{
    let mut newer = last;
    newer.clear();
    for rule in &row.cells.rules {
        let column = rule.key as usize;
        if is_newer(row.covering_entry(column), rule.number) {
            let weight = single_weight(entries, rule.number, columns);
            newer.push(Cell { column, weight })?;
        }
    }
    Ok(newer)
}

/// Tests whether a number is greater than that of the entry below it, if there is one.
pub(crate) fn is_newer(covering_entry: Option<usize>, number: usize) -> bool
    ensures { result ≡ is_newer covering_entry number }
{
    match covering_entry {
        None => true,
        Some(covering_entry) => covering_entry < number,
    }
}

/// Returns the weight that the entry of this number gives, if it gives one number.
fn single_weight(entries: &Entries, number: usize, columns: usize) -> u64
    requires few { columns ≤ most_elements }
    requires number { IsNumberEntry entries.now number }
    ensures { (s c : ℕ) → result ≡ given_at columns entries.now (Some number) s c }
{
    match entries.at(number).body {
        BodyRef::Probabilities(numbers) => numbers[0] as u64 * columns as u64,
        _ => 0,
    }
}

/// Returns a row of cells, `newer` over `base`, both in the order of their columns: each newer cell hides the one in its column, and one of
/// weight 0 leaves none there.
#[inline(never)]
fn merge_cells(alloc: Global, base: &[Cell], newer: &[Cell]) -> Result<Vec<Cell>, AllocError>
    ensures { IfOk result (λ cells. cells.items ≡ merged base.now newer.now) }
{
    let mut cells = Vec::with_capacity(alloc, base.len() + count_nonzero(newer))?;
    let mut rest = base;
    for cell in newer {
        rest = add_before(&mut cells, rest, cell.column)?;
        if cell.weight > 0 {
            cells.push(*cell)?;
        }
    }
    cells.extend_from_slice(rest)?;
    Ok(cells)
}

/// Returns what `merge_cells` does, and makes no other list if `base` is empty and all newer cells have a weight.
#[inline(always)]
fn put_over(alloc: Global, base: &[Cell], newer: Vec<Cell>) -> Result<Vec<Cell>, AllocError>
    ensures { IfOk result (λ cells. cells.items ≡ merged base.now newer.items) }
{
    if base.is_empty() && are_positive(newer.as_slice()) {
        return Ok(newer);
    }
    merge_cells(alloc, base, newer.as_slice())
}

/// Tests whether all cells have a weight above 0.
fn are_positive(cells: &[Cell]) -> bool
    ensures { result ≡ list_all has_weight cells.now }
{
    cells.iter().all(|cell| cell.weight > 0)
}

/// Puts the cells before a column after the others, and returns those after the column.
fn add_before<'a>(
    cells: &mut Vec<Cell>,
    base: &'a [Cell],
    column: usize,
) -> Result<&'a [Cell], AllocError>
    ensures cells { OnOk result (cells.new.items ≡ cells.old.items ++ before column base.now) }
    ensures rest { IfOk result (λ rest. rest.now ≡ following column base.now) }
{
    for number in 0..base.len() {
        let cell = base[number];
        if cell.column == column {
            return Ok(&base[number + 1..]);
        }
        if cell.column > column {
            return Ok(&base[number..]);
        }
        cells.push(cell)?;
    }
    Ok(&[])
}

/// Returns how many of the cells have a weight above 0.
fn count_nonzero(cells: &[Cell]) -> usize
    ensures { result ≤ length cells.now }
{
    cells.iter().filter(|cell| cell.weight > 0).count()
}

/// Returns the cells of a row: those of the entry of the whole row that no newer zero hides, below the newer
/// cells.
#[inline(always)]
fn row_cells(
    alloc: Global,
    row: &EntryRow<'_>,
    base: &[Cell],
    newer: Vec<Cell>,
) -> Result<Vec<Cell>, AllocError>
    requires columns { All (λ (x : C). x.column + 2 < key_base) base.now }
    requires ordered { IfSome row.now.zeros HasOrderedZeros }
    ensures { IfOk result (λ cells.
        cells.items ≡ merged (shown_under row.now.whole row.now.zeros base.now) newer.items) }
{
    match row.zeros {
        None => Ok(put_over(alloc, base, newer)?),
        Some(zeros) => {
            let shown = visible_cells(alloc, row.whole, zeros, base)?;
            Ok(put_over(alloc, shown.as_slice(), newer)?)
        }
    }
}

/// Returns what `row_cells` does, over the kept row of the entry that covers the whole row.
pub(crate) fn cells_over(
    alloc: Global,
    row: &EntryRow<'_>,
    base: StoredRow<'_>,
    newer: Vec<Cell>,
) -> Result<Vec<Cell>, AllocError>
    requires columns { All (λ (x : C). x.column + 2 < key_base) (stored_cells base) }
    requires stored { IsStored base }
    requires ordered { IfSome row.now.zeros HasOrderedZeros }
    ensures { IfOk result (λ cells. cells.items
        ≡ merged (shown_under row.now.whole row.now.zeros (stored_cells base.entry)) newer.items) }
{
    match base {
        StoredRow::Sparse(cells) => Ok(row_cells(alloc, row, cells, newer)?),
        StoredRow::Full { numbers, columns } => {
            let cells = cells_of(alloc, numbers, columns)?;
            Ok(row_cells(alloc, row, cells.as_slice(), newer)?)
        }
        StoredRow::Even {
            weight,
            columns,
            exceptions,
        } => {
            let cells = even_row_cells(alloc, weight, columns, exceptions)?;
            Ok(row_cells(alloc, row, cells.as_slice(), newer)?)
        }
    }
}

/// Returns the cells of the entry of the whole row that no newer zero hides.
fn visible_cells(
    alloc: Global,
    whole: Option<usize>,
    zeros: RowZeros<'_>,
    base: &[Cell],
) -> Result<Vec<Cell>, AllocError>
    requires columns { All (λ (x : C). x.column + 2 < key_base) base.now }
    requires ordered { HasOrderedZeros zeros }
    ensures { IfOk result (λ cells.
        cells.items ≡ shown (λ c. overrides whole (newest_zero zeros.entry c)) base.now) }
{
    let mut shown = Vec::new(alloc);
    for cell in base {
        if !overrides(whole, zeros.newest(cell.column)) {
            shown.push(*cell)?;
        }
    }
    Ok(shown)
}

/// Tests whether a zero of this number, if there is one, is newer than the entry of the whole row.
fn overrides(whole: Option<usize>, zero: Option<usize>) -> bool
    ensures { result ≡ overrides whole zero }
{
    match zero {
        None => false,
        Some(number) => is_newer(whole, number),
    }
}

/// Returns the row of this state that an entry of T or O gives, which covers whole rows.
pub(crate) fn body_row(
    alloc: Global,
    entry: EntryRef<'_>,
    state: usize,
    shape: Shape,
) -> Result<Vec<Cell>, AllocError>
    requires within { IsShapeWithin shape }
    requires state { state < shape.states }
    requires fits { FitsShape shape (entry_of entry) }
    ensures { IfOk result
        (λ cells. IsRow shape.columns (entry_weight shape.columns (entry_of entry.entry) state) cells.items) }
{
    let columns = shape.columns;
    match entry.body {
        BodyRef::Probabilities(numbers) => match entry.places.len() {
            1 => {
                let line = line_of(numbers, columns, state);
                Ok(row_of_numbers(alloc, line)?)
            }
            2 => Ok(row_of_numbers(alloc, numbers)?),
            _ => Ok(even_row(alloc, columns, numbers[0] as u64 * columns as u64)?),
        },
        BodyRef::Uniform => Ok(even_row(alloc, columns, ONE)?),
        BodyRef::Identity => Ok(diagonal_row(alloc, columns, state)?),
        BodyRef::Rewards(_) => Ok(even_row(alloc, columns, 0)?),
    }
}

/// Returns the weight of each column, if an entry of T or O gives all the same above 0.
pub(crate) fn body_weight(entry: EntryRef<'_>, shape: Shape) -> Option<u64>
    requires within { IsShapeWithin shape }
    requires fits { FitsShape shape (entry_of entry) }
    ensures { IfSome result
        (λ weight. (s c : ℕ) → entry_weight shape.columns (entry_of entry.entry) s c ≡ weight) }
{
    match entry.body {
        BodyRef::Probabilities(numbers) => match entry.places.len() {
            1 | 2 => None,
            _ => positive_weight(numbers[0] as u64 * shape.columns as u64),
        },
        BodyRef::Uniform => Some(ONE),
        BodyRef::Identity | BodyRef::Rewards(_) => None,
    }
}

/// Returns the weight if it is above 0.
fn positive_weight(weight: u64) -> Option<u64>
    ensures { IfSome result (λ same. same ≡ weight) }
{
    if weight > 0 { Some(weight) } else { None }
}

/// Returns the number of each column of the row of this state, in millionths, if an entry of T or O gives that many numbers.
pub(crate) fn body_line<'a>(entry: EntryRef<'a>, state: usize, shape: Shape) -> Option<&'a [u32]>
    requires within { IsShapeWithin shape }
    requires state { state < shape.states }
    requires fits { FitsShape shape (entry_of entry) }
    ensures { IfSome result (λ line. IsFullLine shape.columns
        (entry_weight shape.columns (entry_of entry.entry) state) line.now) }
{
    match entry.body {
        BodyRef::Probabilities(numbers) => match entry.places.len() {
            1 => Some(line_of(numbers, shape.columns, state)),
            2 => Some(numbers),
            _ => None,
        },
        BodyRef::Uniform | BodyRef::Identity | BodyRef::Rewards(_) => None,
    }
}

/// Returns the line of this state in a matrix.
fn line_of(numbers: &[u32], columns: usize, state: usize) -> &[u32]
    requires room { state * columns + columns ≤ length numbers.now }
    requires small { All (λ n. n ≤ one) numbers.now }
    ensures length { length result.now ≡ columns }
    ensures small { All (λ n. n ≤ one) result.now }
    ensures numbers { (c : ℕ) → c < columns
        → slice_index result.now c ≡ slice_index numbers.now (state * columns + c) }
{
    let start = state * columns;
    &numbers[start..start + columns]
}

/// Returns the row of a list of numbers in millionths, one for each column.
fn row_of_numbers(alloc: Global, numbers: &[u32]) -> Result<Vec<Cell>, AllocError>
    requires few { length numbers.now ≤ most_elements }
    requires small { All (λ n. n ≤ one) numbers.now }
    ensures { IfOk result
        (λ cells. IsRow (length numbers.now) (λ c. slice_index numbers.now c * length numbers.now)
        cells.items) }
{
    let columns = numbers.len();
    let some = numbers.iter().filter(|number| **number > 0).count();
    let mut cells = Vec::with_capacity(alloc, some)?;
    for column in 0..columns {
        let weight = numbers[column] as u64 * columns as u64;
        if weight > 0 {
            cells.push(Cell { column, weight })?;
        }
    }
    Ok(cells)
}

/// Returns the row with the same weight in each column.
fn even_row(alloc: Global, columns: usize, weight: u64) -> Result<Vec<Cell>, AllocError>
    ensures { IfOk result (λ cells. IsRow columns (λ c. weight) cells.items) }
{
    if weight == 0 {
        return Ok(Vec::new(alloc));
    }
    let mut cells = Vec::with_capacity(alloc, columns)?;
    for column in 0..columns {
        cells.push(Cell { column, weight })?;
    }
    Ok(cells)
}

/// Returns the row of this state of the identity: all of its weight in one column.
fn diagonal_row(alloc: Global, columns: usize, state: usize) -> Result<Vec<Cell>, AllocError>
    requires within { columns ≤ most_elements }
    requires some { 0 < columns }
    ensures { IfOk result
        (λ cells. IsRow columns (λ c. if state == c then one * columns else 0) cells.items) }
{
    if state >= columns {
        return Ok(Vec::new(alloc));
    }
    let mut cells = Vec::with_capacity(alloc, 1)?;
    cells.push(Cell {
        column: state,
        weight: ONE * columns as u64,
    })?;
    Ok(cells)
}
