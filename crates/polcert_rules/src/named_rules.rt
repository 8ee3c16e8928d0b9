//! The newest rule for each observation, given an action, a start state and an end state, if rules name few observations.
ghost use Rattle.std.specs.Prelude.{◌≡◌, ◌≤◌, length};
ghost use Rattle.polcert_rules.specs.declared.named_rules.TheConstants.{FEW_NAMED};
ghost use Rattle.polcert_rules.specs.Steps.Distinct.{AreDistinct};

use crate::index::max_option;

/// How many named observations are few.
pub(crate) const FEW_NAMED: usize = 64;

/// An observation that rules name, and the number of the newest of these.
#[derive(Clone, Copy)]
pub(crate) struct NamedRule {
    pub observation: usize,
    pub number: usize,
}

/// The newest of the rules that name no observation; and of each observation that others name, the newest of these.
#[derive(Drop)]
pub(crate) struct NamedRules {
    pub whole: Option<usize>,
    pub count: usize,
    pub rules: [NamedRule; FEW_NAMED],
    ghost room: { length rules ≡ FEW_NAMED },
    ghost within: { count ≤ FEW_NAMED },
    ghost distinct: { AreDistinct rules count },
}

impl NamedRules {
    ghost use Rattle.std.specs.Prelude.{◌≡◌, ◌<◌, ℕ, Some, None, IsTrue, IsFalse};
    ghost use Rattle.polcert_rules.specs.Matching.{max_option};
    ghost use Rattle.polcert_rules.specs.Steps.Distinct.{rule_at};
    ghost use Rattle.polcert_rules.specs.Steps.Named.{noted_at, IsPlaceOf, IsUnnamed};

    pub(crate) fn new() -> NamedRules
        ensures { (z : ℕ) → noted_at result z ≡ None }
    {
        NamedRules {
            whole: None,
            count: 0,
            rules: [NamedRule {
                observation: 0,
                number: 0,
            }; FEW_NAMED],
        }
    }

    /// Notes a rule, if one, for every observation for which no newer one is noted.
    pub(crate) fn note_all(&mut self, number: Option<usize>)
        ensures { (z : ℕ) → noted_at self.new z ≡ max_option (noted_at self.old z) number }
    {
        self.whole = max_option(self.whole, number);
    }

    /// Notes a rule that names this observation, unless a newer one is noted. `false`: there was no room.
    pub(crate) fn note_rule(&mut self, observation: usize, number: usize) -> bool
        ensures here { IsTrue result →
            noted_at self.new observation ≡ max_option (noted_at self.old observation) (Some number) }
        ensures other { IsTrue result → (z : ℕ) → (z ≡ observation → ⊥)
            → noted_at self.new z ≡ noted_at self.old z }
    {
        match self.place_of(observation) {
            Some(place) => {
                self.replace_newest(place, number);
                true
            }
            None => self.push(observation, number),
        }
    }

    /// Returns where the observation is in the list. `None`: no rule so far names it.
    fn place_of(&self, observation: usize) -> Option<usize>
        ensures { IsPlaceOf self.now observation result }
    {
        for place in 0..self.count {
            if self.rules[place].observation == observation {
                return Some(place);
            }
        }
        None
    }

    /// Notes a rule for the observation at this place, unless a newer one is noted.
    fn replace_newest(&mut self, place: usize, number: usize)
        requires { place < self.old.count }
        ensures here { noted_at self.new (rule_at self.old.rules place).observation
            ≡ max_option (noted_at self.old (rule_at self.old.rules place).observation) (Some number) }
        ensures other { (z : ℕ) → (z ≡ (rule_at self.old.rules place).observation → ⊥)
            → noted_at self.new z ≡ noted_at self.old z }
    {
        let noted = self.rules[place];
        let newest = if noted.number < number {
            number
        } else {
            noted.number
        };
        self.rules[place] = NamedRule {
            observation: noted.observation,
            number: newest,
        };
    }

    /// Notes a rule for an observation that no rule so far names. `false`: there was no room.
    fn push(&mut self, observation: usize, number: usize) -> bool
        requires { IsUnnamed self.old observation }
        ensures here { IsTrue result →
            noted_at self.new observation ≡ max_option (noted_at self.old observation) (Some number) }
        ensures other { IsTrue result → (z : ℕ) → (z ≡ observation → ⊥)
            → noted_at self.new z ≡ noted_at self.old z }
    {
        let count = self.count;
        if count == FEW_NAMED {
            return false;
        }
        self.rules[count] = NamedRule {
            observation,
            number,
        };
        self.count = count + 1;
        true
    }
}
