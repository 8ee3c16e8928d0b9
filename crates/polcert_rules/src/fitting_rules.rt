//! The rules of R that fit an action and a start state, by their first two places.
ghost use Rattle.std.specs.Prelude.{ℕ, ◌+◌, ◌^◌, ◌<◌, ◌≤◌, Contains};
ghost use Rattle.polcert_rules.specs.declared.index.Rule.{Rule as R};
ghost use Rattle.polcert_rules.specs.Keys.{key_base};
ghost use Rattle.polcert_rules.specs.Steps.Newest.{IsRising};

use crate::Rule;
use crate::index::{KEY_BASE, max_option, newest, rules_from};
use crate::named_noting::note_ends;
use crate::named_rules::NamedRules;
use crate::row_rules::{PLACES_LEFT, note, note_all};

/// Rules that have the same two places in front, and the key of these.
#[derive(Drop)]
pub(crate) struct RulePart<'a> {
    pub low: u64,
    pub rules: &'a [Rule],
    ghost rising: { IsRising rules.now },
    ghost from: { (r : R) → Contains rules.now r → low ≤ r.key },
    ghost room: { low + key_base ^ 2 < 2 ^ 64 },
}

/// The rules that fit an action and a start state.
#[derive(Drop)]
pub(crate) struct FittingRules<'a> {
    /// The number of the newest of those with at most one place.
    pub whole: Option<usize>,
    /// Those of each action and start state.
    pub of_all: RulePart<'a>,
    /// Those of each action, in this start state.
    pub of_state: RulePart<'a>,
    /// Those of this action, in each start state.
    pub of_action: RulePart<'a>,
    /// Those of this action and start state.
    pub of_row: RulePart<'a>,
}

impl RulePart<'_> {
    ghost use Rattle.polcert_rules.specs.Keys.{AreIndices, FitsKey};
    ghost use Rattle.polcert_rules.specs.Steps.FittingRules.{IsEndKey};
    ghost use Rattle.polcert_rules.specs.Steps.Newest.{IsNewest};

    /// Returns the number of the newest of the rules that fit these indices after the two places. `None`: none fits.
    fn newest(&self, rest: &[usize]) -> Option<usize>
        requires { AreIndices 2 rest.now }
        ensures { IsNewest self.now.rules.now (FitsKey 2 self.now.low rest.now) result }
    {
        newest(self.rules, self.low, PLACES_LEFT, rest)
    }

    /// Returns the first end state above `end` that a rule names, or the one after `end` if a rule names `end` itself: before it no rule
    /// tells the end states from `end` on apart.
    fn same_until(&self, end: usize) -> usize
        requires { end + 2 < key_base }
        ensures { (r : R) → Contains self.now.rules.now r → IsEndKey self.now.low end result r.key }
    {
        let key = self.low + (end as u64 + 2) * KEY_BASE;
        match rules_from(self.rules, key).first() {
            None => usize::MAX,
            Some(rule) => if rule.key >= key + KEY_BASE {
                ((rule.key - self.low) / KEY_BASE) as usize - 2
            } else {
                end + 1
            },
        }
    }
}

impl FittingRules<'_> {
    ghost use Rattle.std.specs.Prelude.{IsTrue, IsFalse, List, [], ◌∷◌, length};
    ghost use Rattle.polcert_rules.specs.Keys.{AreIndices, FitsKey, most_places, table_key};
    ghost use Rattle.polcert_rules.specs.Steps.FittingRules.{AreEndRules, AreFitting, HasFront};
    ghost use Rattle.polcert_rules.specs.Steps.Named.{AreNamed};
    ghost use Rattle.polcert_rules.specs.Steps.Newest.{IsNewest};
    ghost use Rattle.polcert_rules.specs.Steps.Noting.{AreNoted};
    ghost use Rattle.polcert_rules.specs.Steps.RewardSearch.{IsSearchAnswer, NamesStart};
    ghost use Rattle.polcert_cells.specs.declared.entries.Table.TheVariants.{Reward};

    /// Returns the number of the newest of the rules that fit these indices after the action and the start state. `None`: none fits.
    pub(crate) fn newest(&self, rest: &[usize]) -> Option<usize>
        requires { AreIndices 2 rest.now }
        ensures { (rules : List R) (a s : ℕ) → AreFitting rules a s self.now →
            IsNewest rules (FitsKey most_places (table_key Reward) (a ∷ s ∷ rest.now)) result }
    {
        let of_each = max_option(self.of_all.newest(rest), self.of_state.newest(rest));
        let of_this = max_option(self.of_action.newest(rest), self.of_row.newest(rest));
        max_option(self.whole, max_option(of_each, of_this))
    }

    /// Tests whether any rule fits the action and the start state.
    pub(crate) fn have_some(&self) -> bool
        ensures { (rules : List R) (a s : ℕ) → AreFitting rules a s self.now →
            IsSearchAnswer rules (HasFront a s) result }
    {
        if self.whole.is_some() {
            return true;
        }
        if !self.of_all.rules.is_empty() {
            return true;
        }
        if !self.of_state.rules.is_empty() {
            return true;
        }
        if !self.of_action.rules.is_empty() {
            return true;
        }
        !self.of_row.rules.is_empty()
    }

    /// Returns an end state up to which no rule that fits tells the end states from `end` on apart: they have the same rewards.
    pub(crate) fn same_until(&self, end: usize) -> usize
        requires { end + 2 < key_base }
        ensures { (rules : List R) (a s : ℕ) → AreFitting rules a s self.now →
            AreEndRules rules a s end result }
    {
        let of_each = self
            .of_all
            .same_until(end)
            .min(self.of_state.same_until(end));
        let of_this = self
            .of_action
            .same_until(end)
            .min(self.of_row.same_until(end));
        of_each.min(of_this)
    }

    /// Tests whether a rule that fits has no place for the start state, or names it. `false`: none does.
    pub(crate) fn name_the_start(&self) -> bool
        ensures { IsFalse result → (rules : List R) (a s : ℕ) → AreFitting rules a s self.now →
            (r : R) → Contains rules r → NamesStart a s r.key → ⊥ }
    {
        if self.whole.is_some() {
            return true;
        }
        if !self.of_state.rules.is_empty() {
            return true;
        }
        !self.of_row.rules.is_empty()
    }

    /// Notes, for each of the observations from `first` on for which there is room, the newest rule that fits
    /// it and the end state, if it is newer than the note.
    pub(crate) fn note(&self, end: usize, first: usize, noted: &mut [Option<usize>])
        requires end { end + 2 < key_base }
        requires small { first + length noted.old + 2 ≤ key_base }
        ensures { (rules : List R) (a s : ℕ) → AreFitting rules a s self.now →
            AreNoted rules most_places (table_key Reward) (a ∷ s ∷ end ∷ []) first noted.old noted.new }
    {
        let rest = [end];
        note_all(noted, self.whole);
        note(
            self.of_all.rules,
            self.of_all.low,
            PLACES_LEFT,
            &rest,
            first,
            noted,
        );
        note(
            self.of_state.rules,
            self.of_state.low,
            PLACES_LEFT,
            &rest,
            first,
            noted,
        );
        note(
            self.of_action.rules,
            self.of_action.low,
            PLACES_LEFT,
            &rest,
            first,
            noted,
        );
        note(
            self.of_row.rules,
            self.of_row.low,
            PLACES_LEFT,
            &rest,
            first,
            noted,
        );
    }

    /// Notes, for each observation, the newest rule that fits it and the end state. Returns whether there was room.
    pub(crate) fn note_named(&self, end: usize, list: &mut NamedRules) -> bool
        requires { end + 2 < key_base }
        ensures { IsTrue result → (rules : List R) (a s : ℕ) → AreFitting rules a s self.now →
            AreNamed rules most_places (table_key Reward) (a ∷ s ∷ end ∷ []) list.old list.new }
    {
        list.note_all(self.whole);
        if !note_ends(self.of_all.rules, self.of_all.low, end, list) {
            return false;
        }
        if !note_ends(self.of_state.rules, self.of_state.low, end, list) {
            return false;
        }
        if !note_ends(self.of_action.rules, self.of_action.low, end, list) {
            return false;
        }
        note_ends(self.of_row.rules, self.of_row.low, end, list)
    }
}
