//! The zeros of a row of T or O: single cells of weight 0 in each row of an action or of a state, which are searched by column and never
//! gathered.
ghost use Rattle.std.specs.Prelude.{◌≡◌, ◌+◌, ◌*◌, ◌-◌, ◌<◌, ◌≤◌, ◌^◌, ℕ, None, IfSome, IsTrue, ◌==◌, All};
ghost use Rattle.std.specs.Prelude.{Contains, IfOk, false, length, slice_index};
ghost use Rattle.polcert_rules.specs.Keys.{key_base};
ghost use Rattle.polcert_rules.specs.Steps.Newest.{IsRising, IsNewest};
ghost use Rattle.polcert_rules.specs.Steps.Rows.{AreExact, IsExactKey, IsSingleCellKey, IsTableKey};
ghost use Rattle.polcert_rules.specs.Steps.Zeros.{IsOrdered, HasOrderedZeros, AreColumnsFrom, AreActionZeros, zero_in};
ghost use Rattle.polcert_rules.specs.Steps.Zeros.{newest_zero, zero_of, gives_zero, is_shared_zero, zeros_of};
ghost use Rattle.polcert_rules.specs.Steps.Zeros.{others_of, others_in, names_column, names_row, wholes_of};
ghost use Rattle.polcert_rules.specs.declared.index.Rule.{Rule as R};
ghost use Rattle.polcert_cells.specs.EntryRefs.{entry_of};

use crate::Rule;
use crate::index::{
    ACTION, COLUMN, COLUMN_KEYS, KEY_BASE, ROW, first_at, first_column, max_option, rules_between,
    rules_from,
};
use polcert_cells::{BodyRef, Entries, EntryRef};
use std::alloc::{AllocError, Global};

/// The zeros of a row of one kind of pattern, in the order of their columns, and the key of the first column.
#[derive(Clone, Copy)]
pub(crate) struct ZeroColumns<'a> {
    pub start: u64,
    pub rules: &'a [Rule],
}

/// The zeros that all rows of an action share, by the kind of their patterns.
#[derive(Clone, Copy)]
pub(crate) struct ActionZeros<'a> {
    /// Of each action and state.
    pub of_all: ZeroColumns<'a>,
    /// Of this action, in each state.
    pub of_action: ZeroColumns<'a>,
}

/// The zeros of a row, by the kind of their patterns.
#[derive(Clone, Copy)]
pub(crate) struct RowZeros<'a> {
    /// Of each row of this action.
    pub of_each: ActionZeros<'a>,
    /// Of each action, in this state.
    pub of_state: ZeroColumns<'a>,
}

impl<'a> ZeroColumns<'a> {
    /// Returns the zeros among these rules from the key of the first column on.
    fn of(rules: &'a [Rule], start: u64) -> ZeroColumns<'a>
        requires rising { IsRising rules.now }
        requires room { start + (key_base - 2) * key_base < 2 ^ 64 }
        ensures { AreColumnsFrom rules.now start result }
    {
        ZeroColumns {
            start,
            rules: rules_between(rules, start, start + COLUMN_KEYS),
        }
    }

    /// Returns the number of the zero of this column, if there is one.
    fn newest(&self, column: usize) -> Option<usize>
        requires ordered { IsOrdered self.now }
        requires column { column + 2 < key_base }
        ensures { result ≡ zero_in self.now column }
    {
        let key = self.start + column as u64 * COLUMN;
        first_at(rules_from(self.rules, key), key)
    }
}

impl<'a> ActionZeros<'a> {
    /// Returns the zeros among these rules, of a table whose first key is `low`, that all rows of this action share.
    pub(crate) fn of(rules: &'a [Rule], low: u64, action: usize) -> ActionZeros<'a>
        requires rising { IsRising rules.now }
        requires low { IsTableKey low }
        requires action { action + 2 < key_base }
        ensures { AreActionZeros rules.now low action result }
    {
        ActionZeros {
            of_all: ZeroColumns::of(rules, first_column(low, 1, 1)),
            of_action: ZeroColumns::of(rules, first_column(low, action as u64 + 2, 1)),
        }
    }
}

impl RowZeros<'_> {
    /// Returns the number of the newest zero of this column, if there is one.
    pub(crate) fn newest(&self, column: usize) -> Option<usize>
        requires ordered { HasOrderedZeros self.now }
        requires column { column + 2 < key_base }
        ensures { result ≡ newest_zero self.now column }
    {
        let ActionZeros { of_all, of_action } = self.of_each;
        let of_each = max_option(of_all.newest(column), of_action.newest(column));
        max_option(of_each, self.of_state.newest(column))
    }

    /// Tests whether the row has no zeros.
    fn is_empty(&self) -> bool
        ensures { IsTrue result → (c : ℕ) → newest_zero self.now c ≡ None }
    {
        self.of_each.of_all.rules.is_empty()
            && self.of_each.of_action.rules.is_empty()
            && self.of_state.rules.is_empty()
    }
}

/// Returns the zeros of the row at this state, if there are any, of an action whose rows share the zeros `of_each`.
pub(crate) fn row_zeros<'a>(
    rules: &'a [Rule],
    of_each: ActionZeros<'a>,
    low: u64,
    state: usize,
) -> Option<RowZeros<'a>>
    requires rising { IsRising rules.now }
    requires shared { (r : R) → Contains rules.now r → names_row r.key ≡ false }
    requires each { (action : ℕ) × AreActionZeros rules.now low action of_each }
    requires low { IsTableKey low }
    requires state { state + 2 < key_base }
    ensures ordered { IfSome result HasOrderedZeros }
    ensures newest { (action c : ℕ) → AreActionZeros rules.now low action of_each.entry →
        c + 2 < key_base → IsNewest rules.now (IsSingleCellKey low action state c) (zero_of result c) }
{
    if rules.is_empty() {
        return None;
    }
    let of_state = ZeroColumns::of(rules, first_column(low, 1, state as u64 + 2));
    let zeros = RowZeros { of_each, of_state };
    if zeros.is_empty() { None } else { Some(zeros) }
}

/// How many places the pattern of a single cell of T or O has.
const CELL_PLACES: usize = 3;

/// The rules of a table of weights, in the order of their keys: those that give the weight 0 to single cells of each row of an action or of
/// a state, and the others. (A zero of one row is gathered with that row's cells.)
#[derive(Drop)]
pub(crate) struct SplitRules<'a> {
    pub zeros: Vec<Rule>,
    pub others: Others<'a>,
    /// Those that name no column, in order: no other covers a whole row.
    pub wholes: Vec<Rule>,
    /// Whether each rule names an action, a state and a column, so that it gives one cell of one row.
    pub is_exact: bool,
}

/// The rules but for those zeros.
#[derive(Drop)]
pub(crate) enum Others<'a> {
    /// All rules, if there are no zeros.
    Borrowed(&'a [Rule]),
    /// Those without the zeros.
    Listed(Vec<Rule>),
}

impl<'a> SplitRules<'a> {
    /// Splits these rules of these entries. An error is out of memory.
    pub(crate) fn of(
        alloc: Global,
        rules: &'a [Rule],
        entries: &Entries,
    ) -> Result<SplitRules<'a>, AllocError>
        requires { All (λ (r : R). r.number < length entries.now) rules.now }
        ensures zeros { IfOk result (λ split. split.zeros.items ≡ zeros_of entries.now rules.now) }
        ensures others { IfOk result (λ split. others_in split.others ≡ others_of entries.now rules.now) }
        ensures wholes { IfOk result (λ split. split.wholes.items ≡ wholes_of rules.now) }
        ensures exact { IfOk result (λ split. IsTrue split.is_exact → AreExact rules.now) }
    {
        let zeros = zeros_of(alloc, rules, entries)?;
        let wholes = wholes_of(alloc, rules)?;
        let is_exact = are_exact(rules);
        if zeros.is_empty() {
            return Ok(SplitRules {
                zeros,
                others: Others::Borrowed(rules),
                wholes,
                is_exact,
            });
        }
        let others = Others::Listed(others_of(alloc, rules, entries)?);
        Ok(SplitRules {
            zeros,
            others,
            wholes,
            is_exact,
        })
    }

    /// Returns the rules that are not among `zeros`.
    pub(crate) fn other_rules(&self) -> &[Rule]
        ensures { result.now ≡ others_in self.now.others }
    {
        match &self.others {
            Others::Borrowed(rules) => rules,
            Others::Listed(rules) => rules.as_slice(),
        }
    }
}

/// Returns whether each rule names an action, a state and a column.
fn are_exact(rules: &[Rule]) -> bool
    ensures { IsTrue result → AreExact rules.now }
{
    for rule in rules {
        if !is_exact(rule.key) {
            return false;
        }
    }
    true
}

/// Tests whether the key names an action, a state and a column that a row may have.
#[inline(always)]
fn is_exact(key: u64) -> bool
    ensures { IsTrue result → IsExactKey key }
{
    let column = key / COLUMN % KEY_BASE;
    let state = key / ROW % KEY_BASE;
    let action = key / ACTION % KEY_BASE;
    column >= 2 && column < KEY_BASE - 1 && state >= 2 && action >= 2
}

/// Returns the rules that name no column.
fn wholes_of(alloc: Global, rules: &[Rule]) -> Result<Vec<Rule>, AllocError>
    ensures { IfOk result (λ wholes. wholes.items ≡ wholes_of rules.now) }
{
    let mut wholes = Vec::new(alloc);
    for rule in rules {
        if !names_column(rule.key) {
            wholes.push(*rule)?;
        }
    }
    Ok(wholes)
}

/// Tests whether the key names a column that a row may have.
#[inline(always)]
fn names_column(key: u64) -> bool
    ensures { result ≡ names_column key }
{
    let column = key / COLUMN % KEY_BASE;
    column >= 2 && column < KEY_BASE - 1
}

/// Returns those of these rules that give the weight 0 to single cells of each row of an action or of a state.
fn zeros_of(alloc: Global, rules: &[Rule], entries: &Entries) -> Result<Vec<Rule>, AllocError>
    requires { All (λ (r : R). r.number < length entries.now) rules.now }
    ensures { IfOk result (λ zeros. zeros.items ≡ zeros_of entries.now rules.now) }
{
    let mut zeros = Vec::new(alloc);
    for rule in rules {
        if is_zero(entries, *rule) {
            zeros.push(*rule)?;
        }
    }
    Ok(zeros)
}

/// Returns the rules that `zeros_of` leaves.
fn others_of(alloc: Global, rules: &[Rule], entries: &Entries) -> Result<Vec<Rule>, AllocError>
    requires { All (λ (r : R). r.number < length entries.now) rules.now }
    ensures { IfOk result (λ others. others.items ≡ others_of entries.now rules.now) }
{
    let mut others = Vec::with_capacity(alloc, rules.len())?;
    for rule in rules {
        if !is_zero(entries, *rule) {
            others.push(*rule)?;
        }
    }
    Ok(others)
}

/// Tests whether the rule's entry gives the weight 0 to single cells of each row of an action or of a state.
fn is_zero(entries: &Entries, rule: Rule) -> bool
    requires { rule.number < length entries.now }
    ensures { result ≡ is_shared_zero entries.now rule }
{
    !names_row(rule.key) && gives_zero(entries.at(rule.number))
}

/// Tests whether the key names an action and a state.
#[inline(always)]
fn names_row(key: u64) -> bool
    ensures { result ≡ names_row key }
{
    let state = key / ROW % KEY_BASE;
    let action = key / ACTION % KEY_BASE;
    state >= 2 && action >= 2
}

/// Tests whether the entry gives single cells the weight 0.
fn gives_zero(entry: EntryRef<'_>) -> bool
    ensures { result ≡ gives_zero (entry_of entry.entry) }
{
    match entry.body {
        BodyRef::Probabilities(numbers) => entry.places.len() == CELL_PLACES
            && begins_with_zero(numbers),
        _ => false,
    }
}

/// Tests whether the first number is 0.
fn begins_with_zero(numbers: &[u32]) -> bool
    ensures { result ≡ (slice_index numbers.now 0 == 0) }
{
    match numbers.first() {
        Some(number) => *number == 0,
        None => true,
    }
}
