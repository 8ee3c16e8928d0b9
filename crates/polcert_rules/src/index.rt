//! The index of the entries of a table.
ghost use Rattle.std.specs.Prelude.{◌≡◌, ℕ, ◌+◌, ◌*◌, ◌^◌, ◌<◌, ◌≤◌, ◌↔◌, List, [], ◌∷◌, All, Contains, IfOk};
ghost use Rattle.std.specs.Prelude.{IsTrue, take, ◌-◌};
ghost use Rattle.polcert_rules.specs.declared.index.Rule.{Rule as R};
ghost use Rattle.polcert_rules.specs.Steps.Rows.{HaveColumns, IsSingleEntry, no_column, number_in};
ghost use Rattle.polcert_cells.specs.declared.entries.Entry.{Entry as E};
ghost use Rattle.polcert_cells.specs.Cells.{IsLastCovering, weight, weight_of, value_or};
ghost use Rattle.polcert_cells.specs.Preamble.{Preamble};
ghost use Rattle.polcert_rules.specs.Keys.{key_base, AreIndices, FitsKey, table_key, most_places, digit};
ghost use Rattle.polcert_rules.specs.Keys.{table_digit, key_of, AreDigits};
ghost use Rattle.polcert_rules.specs.Steps.Newest.{AreKeyed, IsIndexOf, IsNewest, IsRising, IsLastNumber, AreSortedNewest};
ghost use Rattle.polcert_rules.specs.Steps.Newest.{entry_at, rules_from, newest_of_each, IsKeyPartition};
ghost use Rattle.polcert_rules.specs.Steps.Repeats.{NamesNoAction};
ghost use Rattle.polcert_cells.specs.EntryRefs.{entry_of};
ghost use Rattle.polcert_rules.specs.Steps.NextPlaces.{IsNextPlace};
ghost use Rattle.polcert_rules.specs.Matching.{max_option};

use polcert_cells::{Entries, EntryRef, Place, Table};
use std::alloc::{AllocError, Global};
use std::marker::Model;

/// The patterns of the entries of a table, in order, each with the number of the last entry that has it.
#[derive(Drop)]
pub struct Index {
    rules: Vec<Rule>,
}

impl Model for Index {
    ghost use Rattle.std.specs.Prelude.{List};
    ghost use Rattle.polcert_rules.specs.declared.index.Rule.{Rule as R};
    ghost use Rattle.polcert_rules.specs.Steps.Newest.{IsRising};

    ghost Value = { List R };

    ghost view = { λ i. i.rules.items };

    ghost invariant = { λ i. IsRising i.rules.items };
}

impl Index {
    /// Builds the index of the entries of this table.
    pub fn of(alloc: Global, entries: &Entries, table: Table) -> Result<Index, AllocError>
        requires { AreKeyed entries.now }
        ensures { IfOk result (IsIndexOf table entries.now) }
    {
        let mut rules = rules_of_table(alloc, entries, table)?;
        sort_newest(&mut rules);
        Ok(Index { rules })
    }

    /// Returns the number of the last entry that covers the cell of this table at these indices, if one does.
    pub fn newest(&self, table: Table, indices: &[usize]) -> Option<usize>
        requires { AreIndices most_places indices.now }
        ensures number { (entries : List E) → IsIndexOf table entries self.now →
            IsLastNumber entries table indices.now result }
        ensures last { (entries : List E) → IsIndexOf table entries self.now →
            IsLastCovering entries table indices.now (entry_at entries result) }
    {
        newest_of_table(self.rules.as_slice(), table, indices)
    }

    /// Gives up the index, and returns its rules.
    pub(crate) fn into_rules(self) -> Vec<Rule>
        ensures rising { IsRising result.items }
        ensures is { result.items ≡ self }
    {
        self.rules
    }

    /// Returns the rules, in the order of their keys.
    pub(crate) fn as_slice(&self) -> &[Rule]
        ensures rising { IsRising result.now }
        ensures is { result.now ≡ self.now }
    {
        self.rules.as_slice()
    }

    /// Tests whether no rule of this table begins with this action's index. Rules that begin with `*` don't count.
    pub(crate) fn lacks_action(&self, table: Table, action: usize) -> bool
        requires { action + 2 < key_base }
        ensures { IsTrue result → NamesNoAction self.now table action }
    {
        let low = table_digit(table) * span(MOST_PLACES);
        let start = low + (action as u64 + 2) * ACTION;
        none_below(rules_from(self.rules.as_slice(), start), start + ACTION)
    }
}

/// Returns the number of the newest of these rules that fits these indices of this table.
pub(crate) fn newest_of_table(rules: &[Rule], table: Table, indices: &[usize]) -> Option<usize>
    requires rising { IsRising rules.now }
    requires indices { AreIndices most_places indices.now }
    ensures { IsNewest rules.now (FitsKey most_places (table_key table) indices.now) result }
{
    let levels = 4;
    let low = table_digit(table) * span(levels);
    let high = low + span(levels);
    newest(rules_between(rules, low, high), low, levels, indices)
}

/// Returns a rule for each entry of this table, in the order of the file. (In most texts their keys are then in order already.)
fn rules_of_table(alloc: Global, entries: &Entries, table: Table) -> Result<Vec<Rule>, AllocError>
    requires { AreKeyed entries.now }
    ensures { IfOk result (λ rules. rules.items ≡ rules_from (table_digit table) 0 entries.now) }
{
    let mut rules = Vec::with_capacity(alloc, count_of_table(entries, table))?;
    for number in 0..entries.len() {
        if entries.table_of(number) == table {
            let key = key_of(entries.at(number));
            rules.push(Rule { key, number })?;
        }
    }
    Ok(rules)
}

/// Returns how many entries are of this table.
fn count_of_table(entries: &Entries, table: Table) -> usize {
    let mut count = 0;
    for number in 0..entries.len() {
        if entries.table_of(number) == table {
            count += 1;
        }
    }
    count
}

/// Sorts rules by their keys, and keeps of those with the same key the one with the greatest number. (In most texts nothing is to be done.)
pub(crate) fn sort_newest(rules: &mut Vec<Rule>)
    ensures { AreSortedNewest rules.old.items rules.new.items }
{
    if are_rising(rules.as_slice()) {
        return;
    }
    rules.sort_unstable_by_key(|rule| rule.key);
    keep_newest_of_each(rules);
}

/// Tests whether each rule has a greater key than the one before it.
#[inline(always)]
fn are_rising(rules: &[Rule]) -> bool
    ensures { IsTrue result → IsRising rules.now }
{
    let [first, rest @ ..] = rules else {
        return true;
    };
    let mut last = first.key;
    for rule in rest {
        if rule.key <= last {
            return false;
        }
        last = rule.key;
    }
    true
}

/// Keeps of neighbors with the same key the one with the greatest number.
fn keep_newest_of_each(rules: &mut Vec<Rule>)
    ensures { rules.new.items ≡ newest_of_each rules.old.items }
{
    let count = move_newest_to_front(rules.as_mut_slice());
    rules.truncate(count);
}

/// Moves of neighbors with the same key the one with the greatest number to the front, in order, and returns how many these are.
fn move_newest_to_front(rules: &mut [Rule]) -> usize
    ensures { take result rules.new ≡ newest_of_each rules.old }
{
    if rules.is_empty() {
        return 0;
    }
    let mut last = rules[0];
    let mut kept = 0;
    for place in 1..rules.len() {
        let rule = rules[place];
        if rule.key == last.key {
            last.number = last.number.max(rule.number);
        } else {
            rules[kept] = last;
            kept += 1;
            last = rule;
        }
    }
    rules[kept] = last;
    kept + 1
}

/// Returns the key of an entry's pattern, its table in front.
fn key_of(entry: EntryRef<'_>) -> u64
    requires { AreDigits most_places (entry_of entry).places }
    ensures { result ≡ key_of (entry_of entry.entry) }
{
    let low = table_digit(entry.table) * TABLE;
    match entry.places.as_slice() {
        [first] => low + digit(*first) * ACTION,
        [first, second] => low + digit(*first) * ACTION + digit(*second) * ROW,
        [first, second, third] => {
            low + digit(*first) * ACTION + digit(*second) * ROW + digit(*third) * COLUMN
        }
        [first, second, third, last] => {
            let row = low + digit(*first) * ACTION + digit(*second) * ROW;
            row + digit(*third) * COLUMN + digit(*last)
        }
        _ => low,
    }
}

/// Returns a place as a digit; 0 stands for no place.
fn digit(place: Place) -> u64
    requires { digit place < key_base }
    ensures { result ≡ digit place }
{
    match place {
        Place::Every => 1,
        Place::Only(index) => index as u64 + 2,
    }
}

/// Returns the leading digit of a table's keys.
pub(crate) fn table_digit(table: Table) -> u64
    ensures { result ≡ table_digit table }
{
    match table {
        Table::Transition => 0,
        Table::Observation => 1,
        Table::Reward => 2,
    }
}

/// The base of the keys: each place is a digit to it.
pub(crate) const KEY_BASE: u64 = 16_384;

/// How many places a key has at most.
pub(crate) const MOST_PLACES: usize = 4;

/// How many keys a column has, a row of single cells, all rows of an action, and a table.
pub(crate) const COLUMN: u64 = KEY_BASE;

pub(crate) const ROW: u64 = COLUMN * KEY_BASE;

pub(crate) const ACTION: u64 = ROW * KEY_BASE;

pub(crate) const TABLE: u64 = ACTION * KEY_BASE;

/// How many columns have a digit.
const COLUMNS: u64 = KEY_BASE - 2;

/// How many keys there are from that of a row's first column to that of its last.
pub(crate) const COLUMN_KEYS: u64 = COLUMNS * COLUMN;

/// Returns the key of the first column of a row, by the digits of its places.
pub(crate) fn first_column(low: u64, first: u64, second: u64) -> u64
    requires room { low + key_base ^ 4 < 2 ^ 64 }
    requires first { first < key_base }
    requires second { second < key_base }
    ensures is { result ≡ low + first * key_base ^ 3 + second * key_base ^ 2 + 2 * key_base }
    ensures small { result + (key_base - 2) * key_base ≤ low + key_base ^ 4 }
{
    low + first * ACTION + second * ROW + 2 * COLUMN
}

/// An entry in the index: the key of its pattern, and its number in the order of the file.
#[derive(Clone, Copy)]
pub struct Rule {
    pub key: u64,
    pub number: usize,
}

/// How many rules are looked through one by one before all of them are searched.
const LINEAR_SCAN: usize = 16;

/// Where a part of a list of rules may begin, and where it may end.
#[derive(Clone, Copy)]
pub(crate) struct RuleSpan {
    pub start: u32,
    pub end: u32,
}

/// Returns the rules from one key on and before another.
pub(crate) fn rules_between(rules: &[Rule], low: u64, high: u64) -> &[Rule]
    requires { IsRising rules.now }
    ensures rising { IsRising result.now }
    ensures kept { (r : R) → Contains result.now r ↔ (Contains rules.now r × (low ≤ r.key) × (r.key < high)) }
{
    if none_below(rules, high) {
        return &rules[..0];
    }
    rules_before(rules_from(rules, low), high)
}

/// Returns the rules from one key on and before another: at once, if they stand where the span says.
pub(crate) fn rules_between_at(rules: &[Rule], low: u64, high: u64, span: RuleSpan) -> &[Rule]
    requires { IsRising rules.now }
    ensures rising { IsRising result.now }
    ensures kept { (r : R) → Contains result.now r ↔ (Contains rules.now r × (low ≤ r.key) × (r.key < high)) }
{
    let front = rules_before_at(rules, high, span.end as usize);
    rules_from_at(front, low, span.start as usize)
}

/// Returns where a part of a list of rules may stand. Nothing is promised of it: each use tests it.
pub(crate) fn span_of(start: usize, end: usize) -> RuleSpan {
    RuleSpan {
        start: half_width(start),
        end: half_width(end),
    }
}

/// Returns the number in 32 bits, or the greatest of 32 bits if it is larger.
pub(crate) fn half_width(number: usize) -> u32 {
    number.min(u32::MAX as usize) as u32
}

/// Returns the place of the first rule from this place on that is not before the key, or the place after the
/// last.
pub(crate) fn place_of_key(rules: &[Rule], from: usize, key: u64) -> usize {
    let mut place = from;
    while place < rules.len() && rules[place].key < key {
        place += 1;
    }
    place
}

/// Returns the rules from this key on.
pub(crate) fn rules_from(rules: &[Rule], low: u64) -> &[Rule]
    requires { IsRising rules.now }
    ensures rising { IsRising result.now }
    ensures kept { (r : R) → Contains result.now r ↔ (Contains rules.now r × (low ≤ r.key)) }
{
    if none_below(rules, low) {
        return rules;
    }
    let start = rules.partition_point(|rule| rule.key < low);
    &rules[start..]
}

/// Returns the rules from this key on: at once, if the rules before this place are those before the key.
pub(crate) fn rules_from_at(rules: &[Rule], low: u64, place: usize) -> &[Rule]
    requires { IsRising rules.now }
    ensures rising { IsRising result.now }
    ensures kept { (r : R) → Contains result.now r ↔ (Contains rules.now r × (low ≤ r.key)) }
{
    if is_cut(rules, low, place) {
        return &rules[place..];
    }
    rules_from(rules, low)
}

/// Returns the rules before this key. The first few are looked at first: in most texts the rules of a row are few.
pub(crate) fn rules_before(rules: &[Rule], high: u64) -> &[Rule]
    requires { IsRising rules.now }
    ensures rising { IsRising result.now }
    ensures kept { (r : R) → Contains result.now r ↔ (Contains rules.now r × (r.key < high)) }
{
    if all_below(rules, high) {
        return rules;
    }
    let few = rules.len().min(LINEAR_SCAN);
    rules_before_at(rules, high, place_of_key(&rules[..few], 0, high))
}

/// Returns the rules before this key: at once, if they are those before this place.
fn rules_before_at(rules: &[Rule], high: u64, place: usize) -> &[Rule]
    requires { IsRising rules.now }
    ensures rising { IsRising result.now }
    ensures kept { (r : R) → Contains result.now r ↔ (Contains rules.now r × (r.key < high)) }
{
    if is_cut(rules, high, place) {
        return &rules[..place];
    }
    let end = rules.partition_point(|rule| rule.key < high);
    &rules[..end]
}

/// Tests whether the rules before this place are those before the key. `false`: unknown.
fn is_cut(rules: &[Rule], key: u64, place: usize) -> bool
    requires { IsRising rules.now }
    ensures { IsTrue result → IsKeyPartition rules.now key place }
{
    if place > rules.len() {
        return false;
    }
    if !all_below(&rules[..place], key) {
        return false;
    }
    none_below(&rules[place..], key)
}

/// Returns whether this place shows that no rule has a key from `low` up to `high`: all rules before it are below `low`, and none after is
/// below `high`. `false`: unknown.
#[inline(always)]
pub(crate) fn has_gap(rules: &[Rule], place: usize, low: u64, high: u64) -> bool
    requires { IsRising rules.now }
    ensures { IsTrue result → (r : R) → Contains rules.now r → low ≤ r.key → r.key < high → ⊥ }
{
    if place > rules.len() {
        return false;
    }
    all_below(&rules[..place], low) && none_below(&rules[place..], high)
}

/// Tests whether all rules are before this key.
fn all_below(rules: &[Rule], key: u64) -> bool
    requires { IsRising rules.now }
    ensures { IsTrue result → (r : R) → Contains rules.now r → r.key < key }
{
    match rules.last() {
        Some(rule) => rule.key < key,
        None => true,
    }
}

/// Tests whether no rule is before this key.
pub(crate) fn none_below(rules: &[Rule], key: u64) -> bool
    requires { IsRising rules.now }
    ensures { IsTrue result → (r : R) → Contains rules.now r → key ≤ r.key }
{
    match rules.first() {
        Some(rule) => key <= rule.key,
        None => true,
    }
}

/// Returns the number of the newest rule that fits the first of these indices, of the rules whose places follow those of the key `low`, at
/// most `levels` of them.
pub(crate) fn newest(rules: &[Rule], low: u64, levels: usize, indices: &[usize]) -> Option<usize>
    requires rising { IsRising rules.now }
    requires from { (r : R) → Contains rules.now r → low ≤ r.key }
    requires few { levels ≤ most_places }
    requires room { low + key_base ^ levels < 2 ^ 64 }
    requires indices { AreIndices levels indices.now }
    ensures { IsNewest rules.now (FitsKey levels low indices.now) result }
{
    if rules.is_empty() {
        return None;
    }
    let here = first_at(rules, low);
    match indices.split_first() {
        None => here,
        Some((index, rest)) => {
            let next = next_place(rules, low, levels, *index);
            let of_every = newest(next.of_every, next.every, next.levels, rest);
            let of_only = newest(next.of_only, next.only, next.levels, rest);
            max_option(here, max_option(of_every, of_only))
        }
    }
}

/// The rules that continue with a place for an index: with `*`, or with the index itself; what their keys follow, and how many places
/// may come after.
#[derive(Clone, Copy)]
pub(crate) struct NextPlace<'a> {
    pub levels: usize,
    pub every: u64,
    pub of_every: &'a [Rule],
    pub only: u64,
    pub of_only: &'a [Rule],
}

/// Returns the rules that continue with a place for an index, of the rules whose places follow those of the key `low`, at most `levels` of
/// them.
#[inline(always)]
pub(crate) fn next_place(rules: &[Rule], low: u64, levels: usize, index: usize) -> NextPlace<'_>
    requires rising { IsRising rules.now }
    requires few { levels ≤ most_places }
    requires room { low + key_base ^ levels < 2 ^ 64 }
    requires index { AreIndices levels (index ∷ []) }
    ensures { IsNextPlace rules.now low levels index result }
{
    let below = levels - 1;
    let step = span(below);
    let every = low + step;
    let only = low + (index as u64 + 2) * step;
    NextPlace {
        levels: below,
        every,
        of_every: rules_between(rules, every, every + step),
        only,
        of_only: rules_between(rules, only, only + step),
    }
}

/// Returns the number of the rule with this key, if there is one. The caller gives no rule with a lower key, so only the first is looked
/// at.
pub(crate) fn first_at(rules: &[Rule], key: u64) -> Option<usize>
    requires rising { IsRising rules.now }
    requires from { (r : R) → Contains rules.now r → key ≤ r.key }
    ensures { IsNewest rules.now (λ k. k ≡ key) result }
{
    match rules.first() {
        Some(rule) => if rule.key == key {
            Some(rule.number)
        } else {
            None
        },
        None => None,
    }
}

/// Returns how many keys begin with the same places, if at most `levels` places may follow these.
pub(crate) fn span(levels: usize) -> u64
    requires { levels ≤ most_places }
    ensures { result ≡ key_base ^ levels }
{
    match levels {
        0 => 1,
        1 => COLUMN,
        2 => ROW,
        3 => ACTION,
        _ => TABLE,
    }
}

/// Returns the greater of two numbers, the one that is there, or `None` if neither is.
pub(crate) fn max_option(one: Option<usize>, other: Option<usize>) -> Option<usize>
    ensures { result ≡ max_option one other }
{
    match (one, other) {
        (None, _) => other,
        (_, None) => one,
        (Some(m), Some(n)) => if m <= n { Some(n) } else { Some(m) },
    }
}
