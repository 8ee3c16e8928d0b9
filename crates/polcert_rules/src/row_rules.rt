//! The rules of R, in which those whose first two places are known are found without a search.
ghost use Rattle.std.specs.Prelude.{◌≡◌, ◌+◌, ◌<◌, ◌≤◌, ◌^◌, ◌↔◌, ◌∷◌, [], Contains, length, IfOk, IsFalse};
ghost use Rattle.std.specs.Prelude.{IsTrue, ℕ, Some, None, slice_index_or};
ghost use Rattle.polcert_cells.specs.declared.entries.Table.TheVariants.{Reward};
ghost use Rattle.polcert_rules.specs.declared.index.Rule.{Rule as R};
ghost use Rattle.polcert_rules.specs.Steps.FittingRules.{AreFitting, IsPartOf};
ghost use Rattle.polcert_rules.specs.Steps.Newest.{IsRising, IsNewest};
ghost use Rattle.polcert_rules.specs.Keys.{key_base, AreIndices, FitsKey, most_places, table_key};
ghost use Rattle.polcert_rules.specs.Steps.Noting.{AreNoted, IsNoted, IsLastPlace};
ghost use Rattle.polcert_rules.specs.Steps.RewardSearch.{NamesStart};
ghost use Rattle.polcert_rules.specs.Steps.Rewards.{IsSmall};
ghost use Rattle.polcert_rules.specs.Matching.{max_option};
ghost use Rattle.polcert_rules.specs.Steps.CellRules.{AreCellRules, AreJoined, AreProperCells, NamesEnd};
ghost use Rattle.std.specs.Prelude.{IfSome};

use crate::Rule;
use crate::fitting_rules::{FittingRules, RulePart};
use crate::index::{
    ACTION, KEY_BASE, ROW, RuleSpan, TABLE, first_at, has_gap, max_option, next_place, none_below,
    place_of_key, rules_between, rules_between_at, rules_from, span, span_of,
};
use crate::rewards::RewardShape;
use std::alloc::{AllocError, Global};

/// The key that those of R follow.
pub(crate) const REWARD_KEYS: u64 = 2 * TABLE;

/// The digits of places in a key: none, `*`, and after these the indices.
const NO_PLACE: usize = 0;

const EVERY: usize = 1;

const INDICES: usize = 2;

/// This many rules are few: they are searched at once.
const FEW_RULES: usize = 64;

/// How many places there are after the first two.
pub(crate) const PLACES_LEFT: usize = 2;

/// The rules of R by their keys; and if they are not few, for each first place, by each second place, where the rules that
/// have both may stand. No answer depends on where they may: only how soon it comes.
#[derive(Drop)]
pub(crate) struct RowRules {
    pub rules: Vec<Rule>,
    seconds: usize,
    spans: Vec<RuleSpan>,
}

impl RowRules {
    /// Builds the rules of R for a model of this shape, with marks of where those of each action and start state may be found.
    pub(crate) fn of(
        alloc: Global,
        shape: RewardShape,
        rules: Vec<Rule>,
    ) -> Result<RowRules, AllocError>
        requires shape { IsSmall shape }
        requires rising { IsRising rules.items }
        ensures { IfOk result (λ kept. kept.rules.items ≡ rules.items) }
    {
        if rules.len() <= FEW_RULES {
            return Ok(RowRules {
                rules,
                seconds: 0,
                spans: Vec::new(alloc),
            });
        }
        let firsts = shape.actions + INDICES;
        let seconds = shape.states + INDICES;
        let mut spans = Vec::with_capacity(alloc, firsts * seconds)?;
        let mut place = 0;
        for first in 0..firsts {
            for second in 0..seconds {
                let key = REWARD_KEYS + first as u64 * span(3) + second as u64 * span(PLACES_LEFT);
                let start = place_of_key(rules.as_slice(), place, key);
                place = place_of_key(rules.as_slice(), start, key + span(PLACES_LEFT));
                spans.push(span_of(start, place))?;
            }
        }
        Ok(RowRules {
            rules,
            seconds,
            spans,
        })
    }

    /// Returns the rules that fit an action and a start state.
    pub(crate) fn fitting(&self, action: usize, start: usize) -> FittingRules<'_>
        requires rising { IsRising self.now.rules.items }
        requires indices { AreIndices most_places (action ∷ start ∷ []) }
        ensures { AreFitting self.now.rules.items action start result }
    {
        let every = REWARD_KEYS + ACTION;
        let only = REWARD_KEYS + (action as u64 + 2) * ACTION;
        let state = (start as u64 + 2) * ROW;
        let here = self.rule_at(NO_PLACE, REWARD_KEYS);
        let of_each = self.rule_at(EVERY, every);
        let of_this = self.rule_at(action + INDICES, only);
        FittingRules {
            whole: max_option(here, max_option(of_each, of_this)),
            of_all: self.rules_of_places(EVERY, EVERY, every + ROW),
            of_state: self.rules_of_places(EVERY, start + INDICES, every + state),
            of_action: self.rules_of_places(action + INDICES, EVERY, only + ROW),
            of_row: self.rules_of_places(action + INDICES, start + INDICES, only + state),
        }
    }

    /// Returns the rules that fit an action and a start state, if those that name a cell follow one key. `None`: they follow several; ask
    /// for each end state.
    pub(crate) fn cell_rules(&self, action: usize, start: usize) -> Option<CellRules<'_>>
        requires rising { IsRising self.now.rules.items }
        requires indices { AreIndices most_places (action ∷ start ∷ []) }
        ensures newest { IfSome result (AreCellRules self.now.rules.items
            (λ e z. FitsKey most_places (table_key Reward) (action ∷ start ∷ e ∷ z ∷ []))) }
        ensures proper { IfSome result AreProperCells }
    {
        let step = span(3);
        let every = REWARD_KEYS + step;
        let only = REWARD_KEYS + (action as u64 + 2) * step;
        let of_only = self.cell_rules_after(action + INDICES, only, start)?;
        if none_below(self.rules.as_slice(), every + step) {
            return Some(of_only);
        }
        let here = first_at(
            self.rules_after(NO_PLACE, NO_PLACE, REWARD_KEYS),
            REWARD_KEYS,
        );
        let of_every = self.cell_rules_after(EVERY, every, start)?;
        Some(of_every.join(of_only)?.with_whole(here))
    }

    /// Returns what `cell_rules` does, of the rules whose first place has this digit.
    fn cell_rules_after(&self, digit: usize, low: u64, start: usize) -> Option<CellRules<'_>>
        requires rising { IsRising self.now.rules.items }
        requires room { low + key_base ^ 3 < 2 ^ 64 }
        requires index { start + 2 < key_base }
        ensures newest { IfSome result (AreCellRules self.now.rules.items
            (λ e z. FitsKey 3 low (start ∷ e ∷ z ∷ []))) }
        ensures proper { IfSome result AreProperCells }
    {
        let step = span(PLACES_LEFT);
        let every = low + step;
        let only = low + (start as u64 + 2) * step;
        let of_only = cell_rules_of(self.rules_after(digit, start + INDICES, only), only)?;
        let first_only = every + step;
        if self.lacks_keys(digit, low, first_only) {
            return Some(of_only);
        }
        let here = first_at(self.rules_after(digit, NO_PLACE, low), low);
        let of_every = cell_rules_of(self.rules_after(digit, EVERY, every), every)?;
        Some(of_every.join(of_only)?.with_whole(here))
    }

    /// Tests whether a rule that fits an action has no place for a start state, or names this one.
    pub(crate) fn names_start(&self, action: usize, start: usize) -> bool
        requires rising { IsRising self.now.rules.items }
        requires indices { AreIndices most_places (action ∷ start ∷ []) }
        ensures { IsFalse result → (r : R) → Contains self.now.rules.items r → NamesStart action start r.key
            → ⊥ }
    {
        let key = REWARD_KEYS + (action as u64 + 2) * ACTION + (start as u64 + 2) * ROW;
        // (In most texts an entry names both.)
        if !self
            .rules_after(action + INDICES, start + INDICES, key)
            .is_empty()
        {
            return true;
        }
        self.fitting(action, start).name_the_start()
    }

    /// Returns the number of the rule with this key: a pattern of the one place that has this digit, or of no place.
    fn rule_at(&self, first: usize, key: u64) -> Option<usize>
        requires rising { IsRising self.now.rules.items }
        requires room { key + key_base ^ 2 < 2 ^ 64 }
        ensures { IsNewest self.now.rules.items (λ k. k ≡ key) result }
    {
        first_at(self.rules_after(first, NO_PLACE, key), key)
    }

    /// Returns the rules that have two places with these digits, whose key is `low`.
    fn rules_of_places(&self, first: usize, second: usize, low: u64) -> RulePart<'_>
        requires rising { IsRising self.now.rules.items }
        requires room { low + key_base ^ 2 < 2 ^ 64 }
        ensures { IsPartOf self.now.rules.items low result }
    {
        RulePart {
            low,
            rules: self.rules_after(first, second, low),
        }
    }

    /// Returns whether no rule has a key from `low`, that of one place with this digit, up to another. `false`: unknown. (Most texts have
    /// no rule for every action, and none for every start state.)
    #[inline(always)]
    fn lacks_keys(&self, first: usize, low: u64, high: u64) -> bool
        requires rising { IsRising self.now.rules.items }
        ensures { IsTrue result → (r : R) → Contains self.now.rules.items r → low ≤ r.key
            → r.key < high → ⊥ }
    {
        match self.spans.get(first.wrapping_mul(self.seconds)) {
            Some(place) => has_gap(self.rules.as_slice(), place.start as usize, low, high),
            None => false,
        }
    }

    /// Returns the rules whose keys follow `low`, the key of two places with these digits.
    fn rules_after(&self, first: usize, second: usize, low: u64) -> &[Rule]
        requires rising { IsRising self.now.rules.items }
        requires room { low + key_base ^ 2 < 2 ^ 64 }
        ensures rising { IsRising result.now }
        ensures kept { (r : R) → Contains result.now r ↔ (Contains self.now.rules.items r × (low ≤ r.key)
            × (r.key < low + key_base ^ 2)) }
    {
        let high = low + span(PLACES_LEFT);
        let rules = self.rules.as_slice();
        if none_below(rules, high) {
            return &rules[..0];
        }
        let place = first.wrapping_mul(self.seconds).wrapping_add(second);
        match self.spans.get(place) {
            Some(span) => rules_between_at(rules, low, high, *span),
            None => rules_between(rules, low, high),
        }
    }
}

/// Rules of which each names an end state, after the key `low`, and the number of the newest of those that cover all cells.
#[derive(Clone, Copy)]
pub(crate) struct CellRules<'a> {
    pub whole: Option<usize>,
    pub low: u64,
    pub named: &'a [Rule],
}

/// Returns the rules whose keys follow that of two places, if none names an observation for every end state.
fn cell_rules_of(rules: &[Rule], low: u64) -> Option<CellRules<'_>>
    requires rising { IsRising rules.now }
    requires from { (r : R) → Contains rules.now r → low ≤ r.key }
    requires room { low + key_base ^ 2 < 2 ^ 64 }
    ensures newest { IfSome result (AreCellRules rules.now (λ e z. FitsKey 2 low (e ∷ z ∷ []))) }
    ensures proper { IfSome result AreProperCells }
{
    let every = low + KEY_BASE;
    let open = rules_from(rules, every);
    let both = rules_from(open, every + 1);
    let named = rules_from(both, every + 2);
    if !none_below(named, every + KEY_BASE) {
        return None;
    }
    let here = max_option(first_at(open, every), first_at(both, every + 1));
    Some(CellRules {
        whole: max_option(first_at(rules, low), here),
        low,
        named,
    })
}

impl<'a> CellRules<'a> {
    /// Returns the rules of both. `None`: both have rules that name end states, after different keys.
    fn join(self, other: CellRules<'a>) -> Option<CellRules<'a>>
        ensures { IfSome result (AreJoined self.entry other.entry) }
    {
        let whole = max_option(self.whole, other.whole);
        if other.named.is_empty() {
            return Some(CellRules { whole, ..self });
        }
        if self.named.is_empty() {
            return Some(CellRules { whole, ..other });
        }
        None
    }

    /// Adds a rule, if one, that covers all cells.
    fn with_whole(self, number: Option<usize>) -> CellRules<'a>
        ensures whole { result.whole ≡ max_option number self.entry.whole }
        ensures low { result.low ≡ self.entry.low }
        ensures named { result.named ≡ self.entry.named }
    {
        CellRules {
            whole: max_option(number, self.whole),
            ..self
        }
    }
}

/// An end state and an observation.
#[derive(Clone, Copy)]
pub(crate) struct CellPlace {
    pub end: usize,
    pub observation: usize,
}

/// Returns the cell that a key names after the key `low` of two places, of this many observations: all of an end state, if there is one.
/// `None`: not one cell.
pub(crate) fn cell_named(key: u64, low: u64, observations: usize) -> Option<CellPlace>
    requires room { low + key_base ^ 2 < 2 ^ 64 }
    requires few { observations + 2 < key_base }
    ensures names { IfSome result (λ cell. NamesEnd low cell.end cell.observation key) }
    ensures alone { IfSome result (λ cell. (e z : ℕ) → z < observations → NamesEnd low e z key
        → (e ≡ cell.end) × (z ≡ cell.observation)) }
{
    let first = low + 2 * KEY_BASE;
    if key < first {
        return None;
    }
    let end = (key - first) / KEY_BASE;
    let last = (key - first) % KEY_BASE;
    if last >= 2 {
        return Some(CellPlace {
            end: end as usize,
            observation: (last - 2) as usize,
        });
    }
    if observations == 1 {
        return Some(CellPlace {
            end: end as usize,
            observation: 0,
        });
    }
    None
}

/// Notes, for as many numbers from `first` on as there is room for, each as the last index after these, the newest rule that fits,
/// where it is later than what is noted. The places of the rules follow those of the key `low`.
// (Six parameters: it continues with a part of the rules and of the indices, so that a struct of them would be
// made anew at each step.)
pub(crate) fn note(
    rules: &[Rule],
    low: u64,
    levels: usize,
    indices: &[usize],
    first: usize,
    noted: &mut [Option<usize>],
)
    requires rising { IsRising rules.now }
    requires from { (r : R) → Contains rules.now r → low ≤ r.key }
    requires few { levels ≤ most_places }
    requires last { levels ≡ length indices.now + 1 }
    requires room { low + key_base ^ levels < 2 ^ 64 }
    requires indices { AreIndices levels indices.now }
    requires small { first + length noted.old + 2 ≤ key_base }
    ensures { AreNoted rules.now levels low indices.now first noted.old noted.new }
{
    if rules.is_empty() {
        return;
    }
    note_all(noted, first_at(rules, low));
    match indices.split_first() {
        None => note_last(rules, low, first, noted),
        Some((index, rest)) => {
            let next = next_place(rules, low, levels, *index);
            note(next.of_every, next.every, next.levels, rest, first, noted);
            note(next.of_only, next.only, next.levels, rest, first, noted);
        }
    }
}

/// Notes the rules whose patterns have just one place after the key `low`: an observation or `*`.
fn note_last(rules: &[Rule], low: u64, first: usize, noted: &mut [Option<usize>])
    requires rising { IsRising rules.now }
    requires room { low + (first + length noted.old + 2) < 2 ^ 64 }
    ensures { (i : ℕ) → i < length noted.old →
        IsNoted rules.now (IsLastPlace low (first + i)) (slice_index_or noted.old i None)
        (slice_index_or noted.new i None) }
{
    let every = low + 1;
    note_all(noted, first_at(rules_from(rules, every), every));
    let start = low + 2 + first as u64;
    let end = start + noted.len() as u64;
    note_each(rules_between(rules, start, end), start, noted);
}

/// Notes each of these rules at the number by which its key is greater than `start`.
fn note_each(rules: &[Rule], start: u64, noted: &mut [Option<usize>])
    requires from { (r : R) → Contains rules.now r → start ≤ r.key }
    requires to { (r : R) → Contains rules.now r → r.key < start + length noted.old }
    ensures { (i : ℕ) → i < length noted.old →
        IsNoted rules.now (λ k. k ≡ start + i) (slice_index_or noted.old i None)
        (slice_index_or noted.new i None) }
{
    for rule in rules {
        note_rule(*rule, start, noted);
    }
}

/// Notes a rule at the number by which its key is greater than `start`, unless a newer one is noted there.
fn note_rule(rule: Rule, start: u64, noted: &mut [Option<usize>])
    requires from { start ≤ rule.key }
    requires to { rule.key < start + length noted.old }
    ensures here { (i : ℕ) → rule.key ≡ start + i
        → slice_index_or noted.new i None ≡ max_option (slice_index_or noted.old i None) (Some rule.number) }
    ensures other { (i : ℕ) → (rule.key ≡ start + i → ⊥)
        → slice_index_or noted.new i None ≡ slice_index_or noted.old i None }
{
    let place = (rule.key - start) as usize;
    noted[place] = max_option(noted[place], Some(rule.number));
}

/// Notes a rule, if one, everywhere where no newer one is noted.
pub(crate) fn note_all(noted: &mut [Option<usize>], number: Option<usize>)
    ensures { (z : ℕ) → z < length noted.old
        → slice_index_or noted.new z None ≡ max_option (slice_index_or noted.old z None) number }
{
    if number.is_none() {
        return;
    }
    for z in 0..noted.len() {
        noted[z] = max_option(noted[z], number);
    }
}
