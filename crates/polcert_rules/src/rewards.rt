//! The rewards of a model, as rules.
ghost use Rattle.std.specs.Prelude.{◌≡◌, ◌<◌, ◌≤◌, ◌+◌, ◌^◌, ◌↔◌, ℕ, List, [], ◌∷◌, map, All, Contains, pos};
ghost use Rattle.std.specs.Prelude.{true, false, IfOk, IsTrue, Some, None, slice_get, length, slice_index_or};
ghost use Rattle.std.specs.Option.{ForSome};
ghost use Rattle.polcert_rules.specs.declared.index.Rule.{Rule as R};
ghost use Rattle.polcert_cells.specs.declared.entries.Entry.{Entry as E};
ghost use Rattle.polcert_cells.specs.declared.entries.Table.TheVariants.{Reward as RewardTable};
ghost use Rattle.polcert_cells.specs.Elements.{count_of};
ghost use Rattle.polcert_cells.specs.Preamble.{Preamble, dimensions};
ghost use Rattle.polcert_cells.specs.Steps.Sound.{IsSoundEntry};
ghost use Rattle.polcert_cells.specs.Cells.{reward};
ghost use Rattle.polcert_cells.specs.CommonRewards.{HasBase, IsCommonReward, IsRewardRow, AreOrdered, base_reward};
ghost use Rattle.polcert_rules.specs.Steps.FittingRules.{AreFitting};
ghost use Rattle.polcert_rules.specs.Steps.NamedCells.{AreNewestAt, AreNamedCells, cell_of};
ghost use Rattle.polcert_rules.specs.Steps.CellRules.{AreCellRules, AreCellsOf, AreProperCells};
ghost use Rattle.std.specs.Prelude.{◌*◌, ◌/◌, ◌%◌};
ghost use Rattle.polcert_rules.specs.Steps.Meeting.{meets_row};
ghost use Rattle.polcert_rules.specs.Keys.{key_base, AreIndices, FitsKey, most_places, table_key};
ghost use Rattle.polcert_rules.specs.Steps.Newest.{AreKeyed, IsIndexOf, IsNewest, IsLastNumber};
ghost use Rattle.polcert_rules.specs.Steps.Rewards.{IsRewardShapeOf, IsSmall, AreRewardsOf};
ghost use Rattle.polcert_rules.specs.Steps.RewardSearch.{AreFilled, AreWithin, IsLastBody, IsSingle};

use crate::Index;
use crate::fitting_rules::FittingRules;
use crate::index::{MOST_PLACES, max_option};
use crate::named_rules::NamedRules;
use crate::reward_bodies::{RewardBodies, cell_in, indices_after};
use crate::row_rules::{CellRules, RowRules, cell_named};
use polcert_cells::{BaseRewards, CommonReward, Entries, RewardBody, RewardCell, RewardRow};
use std::alloc::{AllocError, Global};
use std::marker::Model;

/// This many observations are few: what rules are noted in is then cleared sooner.
const FEW_OBSERVATIONS: usize = 63;

/// The rewards of this many observations are filled in together.
const BLOCK: usize = 1000;

/// The rewards that a list of entries gives: of each pattern of R the last entry, and its numbers as rewards (minus what is written as
/// costs).
#[derive(Drop)]
pub struct Rewards {
    shape: RewardShape,
    rules: RowRules,
    bodies: RewardBodies,
}

impl Model for Rewards {
    ghost use Rattle.polcert_rules.specs.Steps.Rewards.{AreRewardRules, reward_rules};
    ghost use Rattle.polcert_rules.specs.RewardAt.{RewardRules};

    ghost Value = { RewardRules };

    ghost view = { λ r. reward_rules r.shape r.rules.rules.items r.bodies.bodies r.bodies.numbers.items };

    ghost invariant = { λ r. AreRewardRules (reward_rules r.shape
        r.rules.rules.items r.bodies.bodies r.bodies.numbers.items) };
}

impl Rewards {
    /// Builds the rewards of these entries, of which `index` is the index of R, in a model of this shape. Entries and index
    /// are given up. An error is out of memory.
    pub fn of(
        alloc: Global,
        shape: RewardShape,
        costs: bool,
        entries: Entries,
        index: Index,
    ) -> Result<Rewards, AllocError>
        requires shape { IsSmall shape }
        requires index { IsIndexOf RewardTable entries index }
        ensures shape { IfOk result (λ rewards. rewards.shape ≡ shape) }
        ensures rewards { IfOk result
            (λ rewards. (p : Preamble) → IsRewardShapeOf p shape → p.costs ≡ costs → AreKeyed entries →
            All (IsSoundEntry p) entries → AreRewardsOf p entries rewards) }
    {
        let rules = index.into_rules();
        let bodies = RewardBodies::of(alloc, costs, entries)?;
        let rules = RowRules::of(alloc, shape, rules)?;
        Ok(Rewards {
            shape,
            rules,
            bodies,
        })
    }

    /// Returns the reward, in millionths, when this action is taken in the start state, ends in the end state
    /// and the observation is made.
    pub fn at(&self, action: usize, start: usize, end: usize, observation: usize) -> i64
        requires action { action < self.now.shape.actions }
        requires start { start < self.now.shape.states }
        requires end { end < self.now.shape.states }
        requires observation { observation < self.now.shape.observations }
        ensures { (p : Preamble) (entries : List E) → AreRewardsOf p entries self.now →
            result ≡ reward p entries (action ∷ start ∷ end ∷ observation ∷ []) }
    {
        prove!(observation < self.shape.observations);
        let rules = self.rules.fitting(action, start);
        let body = self.body_of(rules.newest(&[end, observation]));
        self.reward_of_body(body, &[action, start, end, observation])
    }

    /// Fills in the rewards of observation `first` and of those after it, in millionths, if this action
    /// is taken in the start state and ends in the end state: as many as there is room for, or as there are.
    /// What stands after them may change.
    pub fn fill(&self, action: usize, start: usize, end: usize, first: usize, rewards: &mut [i64])
        requires action { action < self.now.shape.actions }
        requires start { start < self.now.shape.states }
        requires end { end < self.now.shape.states }
        ensures { (p : Preamble) (entries : List E) → AreRewardsOf p entries self.now →
            (i : ℕ) → i < length rewards.old → first + i < self.now.shape.observations →
            slice_index_or rewards.new i (pos 0)
            ≡ reward p entries (action ∷ start ∷ end ∷ (first + i) ∷ []) }
    {
        let left = self.shape.observations.saturating_sub(first);
        let count = left.min(rewards.len());
        if count == 0 {
            return;
        }
        let at = StateTransition { action, start, end };
        if count <= FEW_OBSERVATIONS {
            let mut noted = [None; FEW_OBSERVATIONS + 1];
            self.fill_noted(at, first, count, rewards, &mut noted);
        } else {
            self.fill_many(at, first, count, rewards);
        }
    }

    /// Fills in the rewards of this many observations, block by block.
    fn fill_many(&self, at: StateTransition, first: usize, count: usize, rewards: &mut [i64])
        requires action { at.action < self.now.shape.actions }
        requires start { at.start < self.now.shape.states }
        requires end { at.end < self.now.shape.states }
        requires room { count ≤ length rewards.old }
        requires within { first + count ≤ self.now.shape.observations }
        ensures { AreFilled self.now at first count rewards.new }
    {
        prove!(count <= self.shape.observations);
        let mut done = 0;
        while done < count {
            let size = (count - done).min(BLOCK);
            let mut noted = [None; BLOCK + 1];
            self.fill_noted(at, first + done, size, &mut rewards[done..], &mut noted);
            done += size;
        }
    }

    /// Fills in the rewards of `count` observations from `first` on. `noted` is room for a rule at each of them and at one more, and the
    /// caller has it empty. That one more is named by no entry, so its rule is a guess at most of them.
    fn fill_noted(
        &self,
        at: StateTransition,
        first: usize,
        count: usize,
        rewards: &mut [i64],
        noted: &mut [Option<usize>],
    )
        requires action { at.action < self.now.shape.actions }
        requires start { at.start < self.now.shape.states }
        requires end { at.end < self.now.shape.states }
        requires room { count ≤ length rewards.old }
        requires within { first + count ≤ self.now.shape.observations }
        requires room_to_note { count < length noted.old }
        requires nothing { (i : ℕ) → i < length noted.old → slice_index_or noted.old i None ≡ None }
        ensures { AreFilled self.now at first count rewards.new }
    {
        let StateTransition { action, start, end } = at;
        let noted = &mut noted[..count + 1];
        self.rules.fitting(action, start).note(end, first, noted);
        let shared = noted[count];
        let shared_body = self.body_of(shared);
        let single = self.single_number(shared_body);
        for i in 0..count {
            let indices = [action, start, end, first + i];
            let reward = if is_same_rule(noted[i], shared) {
                self.single_or_given(single, shared_body, &indices)
            } else {
                self.reward_of_body(self.body_of(noted[i]), &indices)
            };
            rewards[i] = reward;
        }
    }

    /// Returns what gives all observations but a few their rewards if this action is taken in the start state and ends in the end state,
    /// fills in the rewards of these few, and says up to which end state all are the same (see `same_until`). `None`: entries name more
    /// observations than there is room for.
    pub fn find(
        &self,
        action: usize,
        start: usize,
        end: usize,
        exceptions: &mut [RewardCell],
    ) -> Option<RewardRow<'_>>
        requires action { action < self.now.shape.actions }
        requires start { start < self.now.shape.states }
        requires end { end < self.now.shape.states }
        ensures row { (p : Preamble) (entries : List E) → AreRewardsOf p entries self.now →
            ForSome result (λ row. IsRewardRow (λ z. reward p entries (action ∷ start ∷ end ∷ z ∷ []))
            self.now.shape.observations row exceptions.new) }
        ensures until { (p : Preamble) (entries : List E) → AreRewardsOf p entries self.now →
            ForSome result (λ row. (f z : ℕ) → end ≤ f → f < row.until →
            f < self.now.shape.states → z < self.now.shape.observations →
            reward p entries (action ∷ start ∷ f ∷ z ∷ [])
            ≡ reward p entries (action ∷ start ∷ end ∷ z ∷ [])) }
    {
        let at = StateTransition { action, start, end };
        let mut list = NamedRules::new();
        let rules = self.rules.fitting(action, start);
        if !rules.note_named(end, &mut list) {
            return None;
        }
        let Some(base) = self.base_of(self.body_of(list.whole), at) else {
            return None;
        };
        if !self.fill_named(at, &list, exceptions) {
            return None;
        }
        Some(RewardRow {
            base,
            exceptions: list.count,
            until: self.until_of(&rules, at),
        })
    }

    /// Returns what gives the observations their rewards where a body does.
    fn base_of(&self, body: Option<RewardBody>, at: StateTransition) -> Option<BaseRewards<'_>>
        requires action { at.action < self.now.shape.actions }
        requires start { at.start < self.now.shape.states }
        requires end { at.end < self.now.shape.states }
        ensures size { ForSome result (λ base. HasBase base self.now.shape.observations) }
        ensures rewards { (p : Preamble) (entries : List E) → AreRewardsOf p entries self.now →
            ForSome result (λ base. (z : ℕ) → z < self.now.shape.observations →
            IsLastBody p.costs entries self.now.numbers (cell_of at z) body →
            reward p entries (cell_of at z) ≡ base_reward base z) }
    {
        match self.single_number(body) {
            Some(reward) => Some(BaseRewards::Common(reward)),
            None => Some(BaseRewards::Listed(self.numbers_of(body?, at)?)),
        }
    }

    /// Returns the numbers that a body of more than one gives the observations, in order.
    fn numbers_of(&self, body: RewardBody, at: StateTransition) -> Option<&[i64]>
        requires action { at.action < self.now.shape.actions }
        requires start { at.start < self.now.shape.states }
        requires end { at.end < self.now.shape.states }
        ensures size { ForSome result (λ list. length list.now ≡ self.now.shape.observations) }
        ensures rewards { (p : Preamble) (entries : List E) → AreRewardsOf p entries self.now →
            ForSome result (λ list. (z : ℕ) → z < self.now.shape.observations →
            IsLastBody p.costs entries self.now.numbers (cell_of at z) (Some body) →
            reward p entries (cell_of at z) ≡ slice_index_or list.now z (pos 0)) }
    {
        if body.places == 0 || body.places >= MOST_PLACES {
            return None;
        }
        let indices = [at.action, at.start, at.end, 0];
        let left = indices_after(body.places, &indices);
        let first = cell_in(self.shape.states, self.shape.observations, left);
        self.bodies
            .numbers_from(body, first, self.shape.observations)
    }

    /// Fills in the rewards of the observations that rules name. Returns whether there is room, and each of them is one of the model's.
    fn fill_named(&self, at: StateTransition, list: &NamedRules, cells: &mut [RewardCell]) -> bool
        requires action { at.action < self.now.shape.actions }
        requires start { at.start < self.now.shape.states }
        requires end { at.end < self.now.shape.states }
        requires newest { AreNewestAt self.now.rules at list.now }
        ensures room { IsTrue result → list.now.count ≤ length cells.new }
        ensures cells { IsTrue result → AreNamedCells self.now at list.now list.now.count cells.new }
    {
        if cells.len() < list.count {
            return false;
        }
        for i in 0..list.count {
            let rule = list.rules[i];
            let observation = rule.observation;
            if observation >= self.shape.observations {
                return false;
            }
            let body = self.body_of(max_option(list.whole, Some(rule.number)));
            let reward = self.reward_of_body(body, &[at.action, at.start, at.end, observation]);
            cells[i] = RewardCell {
                observation,
                reward,
            };
        }
        true
    }

    /// Returns the reward that all end states and observations but a few have if this action is taken in the start state, and fills in
    /// those of these few, each numbered by its end state times the number of observations plus its observation, in order. `None`: entries
    /// name more than there is room for, or give more than one number.
    pub fn find_row(
        &self,
        action: usize,
        start: usize,
        exceptions: &mut [RewardCell],
    ) -> Option<CommonReward>
        requires action { action < self.now.shape.actions }
        requires start { start < self.now.shape.states }
        ensures common { (p : Preamble) (entries : List E) → AreRewardsOf p entries self.now →
            ForSome result (λ common. IsCommonReward (λ k. reward p entries
            (action ∷ start ∷ (k / self.now.shape.observations) ∷ (k % self.now.shape.observations) ∷ []))
            (self.now.shape.states * self.now.shape.observations) common exceptions.new) }
        ensures rising { ForSome result (λ common. AreOrdered common exceptions.new) }
    {
        let Some(list) = self.rules.cell_rules(action, start) else {
            return None;
        };
        let Some(reward) = self.single_number(self.body_of(list.whole)) else {
            return None;
        };
        if !self.fill_cells(action, start, list, exceptions) {
            return None;
        }
        Some(CommonReward {
            reward,
            exceptions: list.named.len(),
        })
    }

    /// Fills in the cells that these rules name. Returns whether there is room, and each names one.
    fn fill_cells(
        &self,
        action: usize,
        start: usize,
        list: CellRules<'_>,
        cells: &mut [RewardCell],
    ) -> bool
        requires action { action < self.now.shape.actions }
        requires start { start < self.now.shape.states }
        requires proper { AreProperCells list }
        ensures room { IsTrue result → length list.entry.named.now ≤ length cells.new }
        ensures cells { IsTrue result → (next : ℕ) × AreCellsOf self.now action start list.entry
            (length list.entry.named.now) next cells.new }
    {
        if cells.len() < list.named.len() {
            return false;
        }
        let observations = self.shape.observations;
        let mut next = 0;
        for i in 0..list.named.len() {
            let rule = list.named[i];
            let Some(at) = cell_named(rule.key, list.low, observations) else {
                return false;
            };
            if at.end >= self.shape.states || at.observation >= observations {
                return false;
            }
            let number = at.end * observations + at.observation;
            if number < next {
                return false;
            }
            let covering = self.body_of(max_option(list.whole, Some(rule.number)));
            let single = self.single_number(covering);
            let indices = [action, start, at.end, at.observation];
            let reward = self.single_or_given(single, covering, &indices);
            cells[i] = RewardCell {
                observation: number,
                reward,
            };
            next = number + 1;
        }
        true
    }

    /// Returns whether it is known at once that an action has the same rewards in two start states: no entry that fits the action
    /// names one of them, or has numbers for each start state.
    pub fn has_same(&self, action: usize, start: usize, other: usize) -> bool
        requires action { action < self.now.shape.actions }
        requires start { start < self.now.shape.states }
        requires other { other < self.now.shape.states }
        ensures { IsTrue result → (p : Preamble) (entries : List E) → AreRewardsOf p entries self.now →
            (end observation : ℕ) → end < self.now.shape.states → observation < self.now.shape.observations →
            reward p entries (action ∷ start ∷ end ∷ observation ∷ [])
            ≡ reward p entries (action ∷ other ∷ end ∷ observation ∷ []) }
    {
        if self.rules.names_start(action, start) {
            return false;
        }
        !self.rules.names_start(action, other)
    }

    /// Returns an end state up to which it is known at once that all from `end` on have the same rewards if this action is taken in the
    /// start state: no entry that fits these names one of them, or has numbers for each end state.
    pub fn same_until(&self, action: usize, start: usize, end: usize) -> usize
        requires action { action < self.now.shape.actions }
        requires start { start < self.now.shape.states }
        requires end { end < self.now.shape.states }
        ensures { (p : Preamble) (entries : List E) → AreRewardsOf p entries self.now →
            (f observation : ℕ) → end ≤ f → f < result → f < self.now.shape.states →
            observation < self.now.shape.observations →
            reward p entries (action ∷ start ∷ f ∷ observation ∷ [])
            ≡ reward p entries (action ∷ start ∷ end ∷ observation ∷ []) }
    {
        let rules = self.rules.fitting(action, start);
        self.until_of(&rules, StateTransition { action, start, end })
    }

    /// Returns what `same_until` does, by the rules that fit the action and the start state.
    fn until_of(&self, rules: &FittingRules<'_>, at: StateTransition) -> usize
        requires shape { IsSmall self.now.shape }
        requires action { at.action < self.now.shape.actions }
        requires start { at.start < self.now.shape.states }
        requires end { at.end < self.now.shape.states }
        requires fitting { AreFitting self.now.rules at.action at.start rules.now }
        ensures { (p : Preamble) (entries : List E) → AreRewardsOf p entries self.now →
            (f observation : ℕ) → at.end ≤ f → f < result → f < self.now.shape.states →
            observation < self.now.shape.observations →
            reward p entries (at.action ∷ at.start ∷ f ∷ observation ∷ [])
            ≡ reward p entries (at.action ∷ at.start ∷ at.end ∷ observation ∷ []) }
    {
        if rules.newest(&[]).is_some() {
            return at.end;
        }
        rules.same_until(at.end)
    }

    /// Tests whether any entry of R is about this action and start state. If none is, all rewards are 0. The full form asks, to leave rows
    /// out; the check doesn't.
    pub fn has_rewards(&self, action: usize, start: usize) -> bool
        requires action { action < self.now.shape.actions }
        requires start { start < self.now.shape.states }
        ensures unpaid { result ≡ false → (p : Preamble) (entries : List E) →
            AreRewardsOf p entries self.now →
            (end observation : ℕ) → reward p entries (action ∷ start ∷ end ∷ observation ∷ []) ≡ pos 0 }
        ensures paid { result ≡ true → (p : Preamble) (entries : List E) → AreRewardsOf p entries self.now →
            (n : ℕ) × (e : E) × (slice_get entries n ≡ Some e)
            × (meets_row RewardTable action start e ≡ true) }
    {
        prove!(action < self.shape.actions);
        self.rules.fitting(action, start).have_some()
    }

    /// Returns what the body of the last entry that covers the cell at these indices gives it; 0 if there is
    /// none.
    fn reward_of_body(&self, body: Option<RewardBody>, indices: &[usize]) -> i64
        requires { AreIndices most_places indices.now }
        ensures { (p : Preamble) (entries : List E) → AreRewardsOf p entries self.now →
            AreWithin (map count_of (dimensions p RewardTable)) indices.now →
            IsLastBody p.costs entries self.now.numbers indices.now body →
            result ≡ reward p entries indices.now }
    {
        match body {
            Some(body) => {
                let left = indices_after(body.places, indices);
                let cell = cell_in(self.shape.states, self.shape.observations, left);
                self.bodies.number_at(body, cell)
            }
            None => 0,
        }
    }

    /// Returns the one number that a body gives every cell that it is asked for; 0 if there is no body. `None`: it has more numbers.
    fn single_number(&self, body: Option<RewardBody>) -> Option<i64>
        ensures { (p : Preamble) (entries : List E) → AreRewardsOf p entries self.now →
            ForSome result (λ h. (cell : List ℕ) →
            AreWithin (map count_of (dimensions p RewardTable)) cell →
            IsLastBody p.costs entries self.now.numbers cell body → reward p entries cell ≡ h) }
    {
        match body {
            None => Some(0),
            Some(body) => if gives_single_number(body.places, self.shape.observations) {
                Some(self.bodies.number_at(body, 0))
            } else {
                None
            },
        }
    }

    /// Returns what `reward_of_body` does, at once if the body has a single number.
    fn single_or_given(
        &self,
        single: Option<i64>,
        body: Option<RewardBody>,
        indices: &[usize],
    ) -> i64
        requires indices { AreIndices most_places indices.now }
        requires single { (p : Preamble) (entries : List E) → AreRewardsOf p entries self.now →
            ForSome single (λ h. (cell : List ℕ) →
            AreWithin (map count_of (dimensions p RewardTable)) cell →
            IsLastBody p.costs entries self.now.numbers cell body → reward p entries cell ≡ h) }
        ensures { (p : Preamble) (entries : List E) → AreRewardsOf p entries self.now →
            AreWithin (map count_of (dimensions p RewardTable)) indices.now →
            IsLastBody p.costs entries self.now.numbers indices.now body →
            result ≡ reward p entries indices.now }
    {
        match single {
            Some(reward) => reward,
            None => self.reward_of_body(body, indices),
        }
    }

    /// Returns the body of the entry of this number, if there is a number: that of the newest rule that fits a cell.
    fn body_of(&self, number: Option<usize>) -> Option<RewardBody>
        ensures { (indices : List ℕ) (p : Preamble) (entries : List E) → AreIndices most_places indices →
            AreRewardsOf p entries self.now →
            IsNewest self.now.rules (FitsKey most_places (table_key RewardTable) indices) number →
            IsLastBody p.costs entries self.now.numbers indices result }
    {
        match number {
            Some(number) => self.bodies.find(number),
            None => None,
        }
    }
}

/// Tests whether the body of an entry with this many places gives an end state a single number, in a model with this many observations.
fn gives_single_number(places: usize, observations: usize) -> bool
    ensures { IsTrue result → IsSingle observations places }
{
    if places < MOST_PLACES {
        places + 1 == MOST_PLACES && observations == 1
    } else {
        true
    }
}

/// Tests whether two rules have one number, or both are missing.
fn is_same_rule(one: Option<usize>, other: Option<usize>) -> bool
    ensures { IsTrue result ↔ (one ≡ other) }
{
    match (one, other) {
        (Some(m), Some(n)) => m == n,
        (None, None) => true,
        _ => false,
    }
}

/// How many elements each index of a reward runs over: in an MDP, where nothing but the end state is
/// observed, there is one observation.
#[derive(Clone, Copy)]
pub struct RewardShape {
    pub actions: usize,
    pub states: usize,
    pub observations: usize,
}

/// An action that is taken in a start state, and ends in an end state.
#[derive(Clone, Copy)]
pub(crate) struct StateTransition {
    pub action: usize,
    pub start: usize,
    pub end: usize,
}
