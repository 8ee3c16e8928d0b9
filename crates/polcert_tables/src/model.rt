//! Models, as they are read: sparse rows that sum to their scales, and rules for rewards.
ghost use Rattle.std.specs.Prelude.{◌≡◌, ◌<◌, ◌↔◌, ℕ, false, pos, refl, option_map, length, slice_index_or};
ghost use Rattle.std.specs.Prelude.{IfOk, IsTrue, MatchResult};
ghost use Rattle.std.specs.Option.{option_copied};
ghost use Rattle.polcert_cells.specs.BorrowedRows.{IsRowOf};
ghost use Rattle.polcert_cells.specs.Rows.{IsWeighted, IsFirstWrongRow};
ghost use Rattle.polcert_cells.specs.Elements.{most_states, most_actions, most_observations, most_elements, count_of};
ghost use Rattle.polcert_cells.specs.Elements.{name_of};
ghost use Rattle.polcert_cells.specs.declared.entries.Table.TheVariants.{Transition, Observation};
ghost use Rattle.polcert_cells.specs.Preamble.{Preamble as P, is_mdp, rewarded, columns as columns_in};
ghost use Rattle.polcert_cells.specs.Meaning.{IsCount, reward_index, states_of, actions_of, observations_of};
ghost use Rattle.polcert_cells.specs.Meaning.{t_scale, o_scale, start_weight, start_total, elements_of};
ghost use Rattle.polcert_cells.specs.Meaning.{HasProperRows, HasLimitedNumbers};
ghost use Rattle.polcert_cells.specs.Steps.Drafts as drafts;
ghost use Rattle.polcert_cells.specs.Steps.Sound.{IsSound};
ghost use Rattle.polcert_cells.specs.Tables.{table_of};
ghost use Rattle.polcert_format.specs.Order.{count_or};
ghost use Rattle.polcert_format.specs.Printable.{IsPrintable};
ghost use Rattle.polcert_format.specs.Writable.{IsWritable};
ghost use Rattle.polcert_rules.specs.Steps.Shapes.{IsShapeOf, AreSound};
ghost use Rattle.polcert_rules.specs.RowTables.{IsFirstWrongEntryRow};
ghost use Rattle.polcert_tables.specs.Contents.{meaning};
ghost use Rattle.polcert_tables.specs.Kept.{kept_meaning};
ghost use Rattle.polcert_tables.specs.Steps.KeptOf.{IsKeptOf, AreObservationsOf, DenotesWithinLimits};
ghost use Rattle.polcert_tables.specs.Steps.ModelView.{draft_with, kept_parts};
ghost use Rattle.polcert_tables.specs.Steps.RowSums.{row_of, AreProperObservations};

use polcert_cells::{
    BaseRewards, Cell, Cells, CommonReward, Elements, Entries, Kind, ONE, RewardCell, RewardRow,
    Row, StartWeights, Table,
};
use polcert_rules::{Index, RewardShape, Rewards, Rows, Shape, WrongRow};
use std::alloc::{AllocError, Global};
use std::marker;

/// A table with more cells than these is large. A large table is neither printed nor filled, and entries may cover
/// at most as many of its cells with a weight above 0.
pub const MOST_CELLS: usize = 16_777_216;

/// The number of observations that a reward of an MDP tells apart.
const ONE_OBSERVATION: usize = 1;

/// The share of each state in a uniform start.
const EQUAL_WEIGHT: u64 = 1;

/// The lines of a text before the start item and the entries: the discount in millionths, whether rewards are written
/// as costs, and the elements. An MDP has no line of observations.
pub struct Preamble {
    pub discount: u32,
    pub costs: bool,
    pub states: Elements,
    pub actions: Elements,
    pub observations: Option<Elements>,
}

// (Written by hand so that callers prove one drop.)
impl Drop for Preamble {
    fn drop(self) {
        let Preamble {
            discount: _,
            costs: _,
            states: _,
            actions: _,
            observations: _,
        } = self;
    }
}

/// A model of a partially observable Markov decision process, or of one whose states are observed (an MDP):
/// what its text says.
///
/// States, actions and observations go by their numbers, counted from 0 in the order of the text.
/// Probabilities are weights over a scale, so that each row of T sums to `t_scale` and each row of O to
/// `o_scale`, exactly. The discount and rewards are in millionths.
///
/// Rows of T and O are kept sparse, and rewards as rules. An MDP has no rows of O.
///
/// Source: the POMDP file format page at pomdp.org.
pub struct Model {
    preamble: Preamble,
    start: Option<StartWeights>,
    transitions: Rows,
    observed: Option<Rows>,
    rewards: Rewards,
    ghost rows: { HasProperRows (kept_meaning (kept_parts preamble start transitions observed rewards)) },
    ghost limits: { HasLimitedNumbers (kept_meaning (kept_parts preamble start transitions observed rewards)) },
    ghost writable: { IsWritable (kept_meaning (kept_parts preamble start transitions observed rewards)) },
}

// (Written by hand so that callers prove one drop.)
impl Drop for Model {
    fn drop(self) {
        let Model {
            preamble: _,
            start: _,
            transitions: _,
            observed: _,
            rewards: _,
        } = self;
    }
}

impl marker::Model for Model {
    ghost use Rattle.polcert_tables.specs.Contents.{Contents};
    ghost use Rattle.polcert_tables.specs.Steps.ModelView.{kept_parts, IsKeptModel};

    ghost Value = { Contents };

    ghost view = { λ m. record {
      kept = kept_parts m.preamble m.start m.transitions m.observed m.rewards;
      rows = m.rows;
      limits = m.limits;
      writable = m.writable;
    } };

    ghost invariant = { λ m. IsKeptModel (kept_parts m.preamble m.start m.transitions m.observed m.rewards) };
}

impl Model {
    /// Returns the number of states: 1 to 10,000.
    pub fn states(&self) -> usize
        ensures elements { result ≡ states_of (meaning self.now) }
        ensures count { IsCount most_states result }
    {
        self.preamble.states.count()
    }

    /// Returns the number of actions: 1 to 1,000.
    pub fn actions(&self) -> usize
        ensures elements { result ≡ actions_of (meaning self.now) }
        ensures count { IsCount most_actions result }
    {
        self.preamble.actions.count()
    }

    /// Returns the number of observations: 1 to 10,000.
    pub fn observations(&self) -> usize
        ensures elements { result ≡ observations_of (meaning self.now) }
        ensures count { IsCount most_observations result }
    {
        count_or(self.preamble.states.count(), &self.preamble.observations)
    }

    /// Returns the number of observations that a reward tells apart: one in an MDP.
    fn rewarded(&self) -> usize
        ensures elements { result ≡ count_of (rewarded (meaning self.now).preamble) }
        ensures count { IsCount most_observations result }
    {
        count_or(ONE_OBSERVATION, &self.preamble.observations)
    }

    /// Returns the elements of this kind.
    pub fn elements(&self, kind: Kind) -> &Elements
        ensures { result.now ≡ elements_of (meaning self.now) kind }
    {
        match kind {
            Kind::State => &self.preamble.states,
            Kind::Action => &self.preamble.actions,
            Kind::Observation => self
                .preamble
                .observations
                .as_ref()
                .unwrap_or(&self.preamble.states),
        }
    }

    /// Returns the name of the state, action or observation of this number. `None`: the text gives a count. For callers that show names:
    /// the programs show numbers, so only tests call it.
    pub fn name_of(&self, kind: Kind, index: usize) -> Option<&str>
        requires { index < count_of (elements_of (meaning self.now) kind) }
        ensures { option_map (λ name. name.now) result ≡ name_of (elements_of (meaning self.now) kind) index }
    {
        self.elements(kind).name_of(index)
    }

    /// Returns the elements of the line of observations, for the full form. `None`: there is no such line, in an MDP.
    pub fn observations_line(&self) -> Option<&Elements>
        ensures { option_copied result ≡ (meaning self.now).preamble.observations }
    {
        self.preamble.observations.as_ref()
    }

    /// Returns whether the text has no line of observations, so that the model is an MDP: the end state is observed.
    /// Observations are then the states, and a reward does not depend on the observation.
    pub fn is_mdp(&self) -> bool
        ensures { result ≡ is_mdp (meaning self.now).preamble }
    {
        self.preamble.observations.is_none()
    }

    /// Returns whether the text gives costs in place of rewards. `r` gives rewards in either case.
    pub fn is_cost(&self) -> bool
        ensures { result ≡ (meaning self.now).preamble.costs }
    {
        self.preamble.costs
    }

    /// Returns the discount, in millionths: 0 to 1,000,000.
    pub fn discount(&self) -> u32
        ensures { result ≡ (meaning self.now).preamble.discount }
    {
        self.preamble.discount
    }

    /// Returns whether the model may be printed, and its tables filled: none of T, O and R has more than 16,777,216
    /// cells.
    pub fn printable(&self) -> bool
        ensures { IsTrue result ↔ IsPrintable (meaning self.now).preamble }
    {
        let pairs = self.actions() * self.states();
        let transitions = pairs * self.states();
        transitions <= MOST_CELLS
            && pairs * self.observations() <= MOST_CELLS
            && transitions * self.rewarded() <= MOST_CELLS
    }

    /// Returns the sum of each row of T: 1,000,000 for each state.
    pub fn t_scale(&self) -> u64
        ensures { result ≡ t_scale (meaning self.now) }
    {
        ONE * self.states() as u64
    }

    /// Returns the sum of each row of O: 1,000,000 for each observation.
    pub fn o_scale(&self) -> u64
        ensures { result ≡ o_scale (meaning self.now) }
    {
        ONE * self.observations() as u64
    }

    /// Returns the share of state `s` in the start, out of `start_total`. Each state has a share of 1 if the text has no
    /// start item.
    pub fn start_weight(&self, s: usize) -> u64
        requires { s < states_of (meaning self.now) }
        ensures { result ≡ start_weight (meaning self.now) s }
    {
        match &self.start {
            Some(start) => u64::from(start.weights.at(s)),
            None => EQUAL_WEIGHT,
        }
    }

    /// Returns the sum of the shares of all states in the start.
    pub fn start_total(&self) -> u64
        ensures { result ≡ start_total (meaning self.now) }
    {
        match &self.start {
            Some(start) => u64::from(start.total),
            None => EQUAL_WEIGHT * self.states() as u64,
        }
    }

    /// Returns T: the weight of end state `e` when action `a` is taken in state `s`, out of `t_scale`.
    pub fn t(&self, a: usize, s: usize, e: usize) -> u64
        requires action { a < actions_of (meaning self.now) }
        requires start { s < states_of (meaning self.now) }
        requires end { e < states_of (meaning self.now) }
        ensures { result ≡ (meaning self.now).t a s e }
    {
        self.transitions.at(a, s, e)
    }

    /// Returns O: the weight of observation `z` when action `a` ends in state `e`, out of `o_scale`.
    pub fn o(&self, a: usize, e: usize, z: usize) -> u64
        requires action { a < actions_of (meaning self.now) }
        requires end { e < states_of (meaning self.now) }
        requires observation { z < observations_of (meaning self.now) }
        ensures { result ≡ (meaning self.now).o a e z }
    {
        match &self.observed {
            Some(rows) => rows.at(a, e, z),
            None => if e == z { self.t_scale() } else { 0 },
        }
    }

    /// Returns R: the reward, in millionths, when action `a` is taken in state `s`, ends in state `e` and observation `z`
    /// is made. It is minus what is written if the text gives costs.
    pub fn r(&self, a: usize, s: usize, e: usize, z: usize) -> i64
        requires action { a < actions_of (meaning self.now) }
        requires start { s < states_of (meaning self.now) }
        requires end { e < states_of (meaning self.now) }
        requires observation { z < observations_of (meaning self.now) }
        ensures { result ≡ (meaning self.now).r a s e z }
    {
        self.rewards.at(a, s, e, self.reward_index(z))
    }

    /// Returns the last index of a reward when observation `z` is made: 0 in an MDP, whose rewards do not depend on it.
    fn reward_index(&self, z: usize) -> usize
        ensures { result ≡ reward_index (meaning self.now).preamble z }
    {
        if self.is_mdp() { 0 } else { z }
    }

    /// Returns `false` only if all rewards are 0 when action `a` is taken in state `s`: then the full form leaves their rows out unread.
    /// `true`: an entry gives some, perhaps 0. (The check doesn't ask.)
    pub fn has_rewards(&self, a: usize, s: usize) -> bool
        requires action { a < actions_of (meaning self.now) }
        requires start { s < states_of (meaning self.now) }
        ensures { result ≡ false → (e z : ℕ) → e < states_of (meaning self.now) →
            z < observations_of (meaning self.now) →
            (meaning self.now).r a s e z ≡ pos 0 }
    {
        self.rewards.has_rewards(a, s)
    }

    /// Returns the weights of all end states when action `a` is taken in state `s`.
    fn t_row(&self, a: usize, s: usize) -> Row<'_>
        requires action { a < actions_of (meaning self.now) }
        requires start { s < states_of (meaning self.now) }
        ensures { IsRowOf ((meaning self.now).t a s) (states_of (meaning self.now)) result }
    {
        self.transitions.row(a, s)
    }

    /// Returns the weights of all observations when action `a` ends in state `e`.
    fn o_row(&self, a: usize, e: usize) -> Row<'_>
        requires action { a < actions_of (meaning self.now) }
        requires end { e < states_of (meaning self.now) }
        ensures { IsRowOf ((meaning self.now).o a e) (observations_of (meaning self.now)) result }
    {
        match &self.observed {
            Some(rows) => rows.row(a, e),
            None => Row::Single(Cell {
                column: e,
                weight: self.t_scale(),
            }),
        }
    }

    /// Returns the number of columns of a row of the table: one in R.
    pub fn columns(&self, table: Table) -> usize
        ensures columns { result ≡ columns_in self.now.kept.preamble table }
        ensures count { IsCount most_elements result }
    {
        match table {
            Table::Transition => self.states(),
            Table::Observation => self.observations(),
            Table::Reward => 1,
        }
    }
}

impl Cells for Model {
    ghost table = { λ m. table_of (meaning m) };

    ghost is_proper = { λ m. record { t_rows = m.rows.transitions; o_rows = m.rows.observations } };

    ghost is_within_limits = { λ m. record {
      states = m.limits.states;
      actions = m.limits.actions;
      observations = m.limits.observations;
      pairs = m.limits.pairs;
      discount = m.limits.discount;
      t_scale = refl;
      o_scale = refl;
      r = m.limits.r;
    } };

    fn states(&self) -> usize {
        Model::states(self)
    }

    fn actions(&self) -> usize {
        Model::actions(self)
    }

    fn observations(&self) -> usize {
        Model::observations(self)
    }

    fn discount(&self) -> u32 {
        Model::discount(self)
    }

    fn t_scale(&self) -> u64 {
        Model::t_scale(self)
    }

    fn o_scale(&self) -> u64 {
        Model::o_scale(self)
    }

    fn t(&self, a: usize, s: usize, e: usize) -> u64 {
        Model::t(self, a, s, e)
    }

    fn o(&self, a: usize, e: usize, z: usize) -> u64 {
        Model::o(self, a, e, z)
    }

    fn r(&self, a: usize, s: usize, e: usize, z: usize) -> i64 {
        Model::r(self, a, s, e, z)
    }

    fn t_row(&self, a: usize, s: usize) -> Option<Row<'_>> {
        Some(Model::t_row(self, a, s))
    }

    fn o_row(&self, a: usize, e: usize) -> Option<Row<'_>> {
        Some(Model::o_row(self, a, e))
    }

    fn fill_rewards(&self, a: usize, s: usize, e: usize, first: usize, rewards: &mut [i64]) {
        match &self.preamble.observations {
            None => rewards.fill(Model::r(self, a, s, e, 0)),
            Some(_) => self.rewards.fill(a, s, e, first, rewards),
        }
    }

    fn find_rewards(
        &self,
        a: usize,
        s: usize,
        e: usize,
        exceptions: &mut [RewardCell],
    ) -> Option<RewardRow<'_>> {
        match &self.preamble.observations {
            None => Some(RewardRow {
                base: BaseRewards::Common(Model::r(self, a, s, e, 0)),
                exceptions: 0,
                until: self.rewards.same_until(a, s, e),
            }),
            Some(_) => self.rewards.find(a, s, e, exceptions),
        }
    }

    fn find_row_rewards(
        &self,
        a: usize,
        s: usize,
        exceptions: &mut [RewardCell],
    ) -> Option<CommonReward> {
        match &self.preamble.observations {
            None => None,
            Some(_) => self.rewards.find_row(a, s, exceptions),
        }
    }

    fn find_end_rewards(
        &self,
        a: usize,
        s: usize,
        exceptions: &mut [RewardCell],
    ) -> Option<CommonReward> {
        match &self.preamble.observations {
            None => self.rewards.find_row(a, s, exceptions),
            Some(_) => None,
        }
    }

    fn has_same_rewards(&self, a: usize, s: usize, other: usize) -> bool {
        self.rewards.has_same(a, s, other)
    }

    fn same_rewards_until(&self, a: usize, s: usize, e: usize) -> usize {
        self.rewards.same_until(a, s, e)
    }

    fn has_same_observations(&self, a: usize, e: usize, other: usize) -> bool {
        match &self.observed {
            Some(rows) => rows.has_same(a, e, other),
            None => false,
        }
    }
}

// (Functions in place of methods of `Model`: callers of a model see nothing of what these contracts name.)

/// Builds the model of a text that has this preamble, this start item or none, and these entries, if each row of its tables sums to
/// its scale, or else returns the first row that does not: those of T come before those of O, and go by action and then by state. An
/// error is out of memory.
pub fn build_model(
    alloc: Global,
    preamble: Preamble,
    start: Option<StartWeights>,
    entries: Entries,
) -> Result<Result<Model, WrongRow>, AllocError>
    requires sound { IsSound (draft_with preamble start entries) }
    requires limits { DenotesWithinLimits (draft_with preamble start entries) }
    ensures { IfOk result (λ found. MatchResult found
        (λ model. IsKeptOf (draft_with preamble start entries) model.kept)
        (λ w. IsFirstWrongRow (drafts.draft_meaning (draft_with preamble start entries))
        w.table w.action w.row)) }
{
    let shape = Shape {
        actions: preamble.actions.count(),
        states: preamble.states.count(),
        columns: preamble.states.count(),
    };
    let transitions = match Rows::of(alloc, shape, Table::Transition, &entries)? {
        Ok(rows) => rows,
        Err(wrong) => return Ok(Err(wrong)),
    };
    let observed = match observed_rows(alloc, shape, &preamble.observations, &entries)? {
        Ok(rows) => rows,
        Err(wrong) => return Ok(Err(wrong)),
    };
    let shape = RewardShape {
        actions: preamble.actions.count(),
        states: preamble.states.count(),
        observations: count_or(ONE_OBSERVATION, &preamble.observations),
    };
    let index = Index::of(alloc, &entries, Table::Reward)?;
    let rewards = Rewards::of(alloc, shape, preamble.costs, entries, index)?;
    Ok(Ok(Model {
        preamble,
        start,
        transitions,
        observed,
        rewards,
    }))
}

/// Returns the weights of a row of T or O, by column: for the full form, which writes both tables in one way.
pub fn row_of(model: &Model, table: Table, action: usize, state: usize) -> Row<'_>
    requires weighted { IsWeighted table }
    requires action { action < actions_of (meaning model.now) }
    requires state { state < states_of (meaning model.now) }
    ensures { IsRowOf (row_of model.now.kept table action state)
        (columns_in model.now.kept.preamble table) result }
{
    match table {
        Table::Observation => model.o_row(action, state),
        Table::Transition | Table::Reward => model.t_row(action, state),
    }
}

/// Returns the number of elements that a line gives, or `count` if there is no such line.
pub fn count_or(count: usize, elements: &Option<Elements>) -> usize
    ensures { result ≡ count_or count elements.now }
{
    match elements {
        Some(elements) => elements.count(),
        None => count,
    }
}

/// Builds the rows of O, if there are observations, or else returns the first that does not sum to its scale.
fn observed_rows(
    alloc: Global,
    shape: Shape,
    observations: &Option<Elements>,
    entries: &Entries,
) -> Result<Result<Option<Rows>, WrongRow>, AllocError>
    requires { (p : P) × (p.observations ≡ observations.now) × IsShapeOf p Transition shape
        × AreSound p entries.now }
    ensures { IfOk result
        (λ found. (p : P) → p.observations ≡ observations.now → IsShapeOf p Transition shape →
        MatchResult found (λ rows. AreObservationsOf p entries.now rows × AreProperObservations p entries.now)
        (λ w. (is_mdp p ≡ false) × IsFirstWrongEntryRow p entries.now Observation w)) }
{
    let Some(elements) = observations else {
        return Ok(Ok(None));
    };
    let shape = Shape {
        actions: shape.actions,
        states: shape.states,
        columns: elements.count(),
    };
    match Rows::of(alloc, shape, Table::Observation, entries)? {
        Ok(rows) => Ok(Ok(Some(rows))),
        Err(wrong) => Ok(Err(wrong)),
    }
}
