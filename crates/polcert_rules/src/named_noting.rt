//! Notes the newest rule for each observation at an end state, for one part of the rules after another.
ghost use Rattle.std.specs.Prelude.{◌≡◌, ◌+◌, ◌<◌, ◌≤◌, ◌^◌, ◌∷◌, [], ℕ, Contains, IsTrue};
ghost use Rattle.polcert_rules.specs.declared.index.Rule.{Rule as R};
ghost use Rattle.polcert_rules.specs.Keys.{key_base};
ghost use Rattle.polcert_rules.specs.Steps.Named.{AreNamed, noted_at};
ghost use Rattle.polcert_rules.specs.Steps.Newest.{IsRising};
ghost use Rattle.polcert_rules.specs.Steps.Noting.{IsNoted};

use crate::Rule;
use crate::index::{KEY_BASE, first_at, next_place, rules_between, rules_from};
use crate::named_rules::NamedRules;

/// How many observations have a digit.
const OBSERVATION_KEYS: u64 = KEY_BASE - 2;

/// Notes, of the rules that continue the key `low` of two places, the newest that fits the end state and each observation. `false`: there
/// was no room, and the list is of no use.
pub(crate) fn note_ends(rules: &[Rule], low: u64, end: usize, list: &mut NamedRules) -> bool
    requires rising { IsRising rules.now }
    requires from { (r : R) → Contains rules.now r → low ≤ r.key }
    requires room { low + key_base ^ 2 < 2 ^ 64 }
    requires end { end + 2 < key_base }
    ensures { IsTrue result → AreNamed rules.now 2 low (end ∷ []) list.old list.new }
{
    if rules.is_empty() {
        return true;
    }
    list.note_all(first_at(rules, low));
    let next = next_place(rules, low, 2, end);
    if !note_observations(next.of_every, next.every, list) {
        return false;
    }
    note_observations(next.of_only, next.only, list)
}

/// Notes, of the rules that continue the key `low` of three places, the newest that fits each observation. `false`: there was no room.
fn note_observations(rules: &[Rule], low: u64, list: &mut NamedRules) -> bool
    requires rising { IsRising rules.now }
    requires from { (r : R) → Contains rules.now r → low ≤ r.key }
    requires room { low + key_base < 2 ^ 64 }
    ensures { IsTrue result → AreNamed rules.now 1 low [] list.old list.new }
{
    if rules.is_empty() {
        return true;
    }
    list.note_all(first_at(rules, low));
    let every = low + 1;
    list.note_all(first_at(rules_from(rules, every), every));
    let start = low + 2;
    note_named_rules(
        rules_between(rules, start, start + OBSERVATION_KEYS),
        start,
        list,
    )
}

/// Notes each of these rules at the number by which its key is greater than `start`. Returns whether there was room.
fn note_named_rules(rules: &[Rule], start: u64, list: &mut NamedRules) -> bool
    requires from { (r : R) → Contains rules.now r → start ≤ r.key }
    ensures { IsTrue result → (z : ℕ) → IsNoted rules.now (λ k. k ≡ start + z) (noted_at list.old z)
        (noted_at list.new z) }
{
    for rule in rules {
        let observation = (rule.key - start) as usize;
        if !list.note_rule(observation, rule.number) {
            return false;
        }
    }
    true
}
