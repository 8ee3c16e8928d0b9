//! What the items of a text have said so far.
ghost use Rattle.std.specs.Prelude.{◌≡◌, ◌<◌, ◌≤◌, ◌++◌, ◌∷◌, [], length, drop, get_or, List, Some, None};
ghost use Rattle.std.specs.Prelude.{unwrap_or, OnOk, OnErr, IfOk, MatchResult, IsErrOf, if◌then◌else◌, ◌*◌};
ghost use Rattle.std.specs.Prelude.{◌+◌, slice_get, IsTrue};
ghost use Rattle.std.specs.Option.{option_copied};
ghost use Rattle.polcert_cells.specs.declared.elements.Elements.{Elements};
ghost use Rattle.polcert_cells.specs.declared.elements.Elements.TheVariants.{Count};
ghost use Rattle.polcert_cells.specs.Elements.{count_of, most_states, most_actions, most_observations};
ghost use Rattle.polcert_cells.specs.Elements.{most_elements};
ghost use Rattle.polcert_cells.specs.Entry.{cells_in};
ghost use Rattle.polcert_cells.specs.EntryRefs.{entry_of, body_of};
ghost use Rattle.polcert_cells.specs.declared.words.Topic.{Topic};
ghost use Rattle.polcert_cells.specs.Preamble.{is_mdp, dimensions, Preamble as P};
ghost use Rattle.polcert_format.specs.KnownPreamble.{preamble_in, indices_in, named_in};
ghost use Rattle.polcert_format.specs.Wants.{least_written};
ghost use Rattle.polcert_format.specs.Limits.{HasFewCells, most_cells, most_reward_entries};
ghost use Rattle.polcert_items.specs.Steps.CellBudget.{AreSizesOf, CanComeNext, IsCoveredWith, IsCoveringOf, place_count, covered_by};
ghost use Rattle.polcert_items.specs.Steps.CellBudget.{open_row_cells, nonzero_cells, budget_after, most_covered};
ghost use Rattle.polcert_items.specs.Steps.Ahead.{AreCounts};
ghost use Rattle.polcert_items.specs.Steps.ModelSoFar.{with_item, AreContentsWithin, IsAllowedNext};
ghost use Rattle.polcert_items.specs.Steps.ModelSoFar.{IsWholeRead, said};
ghost use Rattle.polcert_cells.specs.Meaning.{IsCount};
ghost use Rattle.polcert_cells.specs.Rows.{IsFirstWrongRow};
ghost use Rattle.polcert_cells.specs.Steps.Drafts as drafts;
ghost use Rattle.polcert_tables.specs.Steps.KeptOf.{IsKeptOf, DenotesWithinLimits};
ghost use Rattle.polcert_format.specs.Order.{word_fault, count_in, preamble_fault, is_late, came_before};
ghost use Rattle.polcert_format.specs.Order.{is_unobserved, pairs_are_too_many};
ghost use Rattle.polcert_format.specs.Text.{nothing_known};
ghost use Rattle.polcert_text.specs.Cut.{Lexeme};
ghost use Rattle.polcert_cells.specs.declared.entries.Entry.{Entry as E};

use crate::entry_reader::MOST_INDICES;
use crate::item::{AddError, ItemContents};
use polcert_cells::{BodyRef, Elements, Entries, EntryRef, Place, StartWeights, Table, Topic};
use polcert_format::ItemFault;
use polcert_tables::{MOST_CELLS, Model, Preamble, WrongRow, build_model, count_or};
use std::alloc::{AllocError, Global};
use std::marker;

/// How many pairs of a state and an observation there may be.
const MOST_PAIRS: usize = 5_000_000;

/// What the items so far say: the lines of the preamble that came, the start item, and the entries.
#[derive(Drop)]
pub struct ModelSoFar {
    discount: Option<u32>,
    costs: Option<bool>,
    states: Option<Elements>,
    actions: Option<Elements>,
    observations: Option<Elements>,
    start: Option<StartWeights>,
    entries: Entries,
    cell_budget: CellBudget,
}

impl marker::Model for ModelSoFar {
    ghost use Rattle.polcert_format.specs.Text as text;
    ghost use Rattle.polcert_cells.specs.Elements.{most_states, most_actions, most_observations};
    ghost use Rattle.polcert_format.specs.KnownPreamble.{preamble_in};
    ghost use Rattle.polcert_items.specs.Steps.CellBudget.{IsCoveringOf};
    ghost use Rattle.polcert_items.specs.Steps.ModelSoFar.{known_of, IsCountIn};

    ghost Value = { text.ModelSoFar };

    ghost view = { λ k. known_of k.discount k.costs k.states k.actions k.observations k.start k.entries };

    ghost invariant = { λ k. IsCountIn most_states k.states × IsCountIn most_actions k.actions
        × IsCountIn most_observations k.observations
        × IsCoveringOf (preamble_in
        (known_of k.discount k.costs k.states k.actions k.observations k.start k.entries)) k.entries k.cell_budget };
}

impl ModelSoFar {
    /// Makes the record before the first item.
    pub fn new(alloc: Global) -> ModelSoFar
        ensures { result ≡ nothing_known }
    {
        ModelSoFar {
            discount: None,
            costs: None,
            states: None,
            actions: None,
            observations: None,
            start: None,
            entries: Entries::new(alloc),
            cell_budget: CellBudget::new(),
        }
    }

    /// Adds what a whole item says, unless it is an entry with which entries give too much of a large table.
    /// If memory runs out, too, all stays as it was.
    pub fn add_item(&mut self, said: ItemContents) -> Result<(), AddError>
        requires within { AreContentsWithin said }
        requires next { IsAllowedNext self.old said }
        ensures ok { OnOk result (self.new ≡ with_item self.old said) }
        ensures few { OnOk result (HasFewCells (preamble_in self.old) (with_item self.old said).entries) }
        ensures err { OnErr result (self.new ≡ self.old) }
        ensures many { IsErrOf result AddError.TooManyCells →
            HasFewCells (preamble_in self.old) (with_item self.old said).entries → ⊥ }
    {
        match said {
            ItemContents::Discount(discount) => self.discount = Some(discount),
            ItemContents::Costs(costs) => self.costs = Some(costs),
            ItemContents::States(states) => self.states = Some(states),
            ItemContents::Actions(actions) => self.actions = Some(actions),
            ItemContents::Observations(observations) => self.observations = Some(observations),
            ItemContents::Start(start) => self.start = Some(start),
            ItemContents::Entry(entry) => self.add_entry(entry.as_ref())?,
        }
        Ok(())
    }

    /// Adds a copy of an entry, unless entries then give too much of a large table. On an error nothing changes.
    #[inline(always)]
    pub(crate) fn add_entry(&mut self, entry: EntryRef<'_>) -> Result<(), AddError>
        requires { IsAllowedNext self.old (ItemContents.Entry (entry_of entry)) }
        ensures ok { OnOk result (self.new ≡ with_item self.old (ItemContents.Entry (entry_of entry.entry))) }
        ensures few { OnOk result
            (HasFewCells (preamble_in self.old) (self.old.entries ++ entry_of entry.entry ∷ [])) }
        ensures err { OnErr result (self.new ≡ self.old) }
        ensures many { IsErrOf result AddError.TooManyCells →
            HasFewCells (preamble_in self.old) (self.old.entries ++ entry_of entry.entry ∷ []) → ⊥ }
    {
        let Some(cell_budget) = self.budget_with(entry) else {
            return Err(AddError::TooManyCells);
        };
        self.entries.push_ref(entry)?;
        self.cell_budget = cell_budget;
        Ok(())
    }

    /// Returns the budget after one more entry. `None`: the cells of a large table pass their limit.
    #[inline(always)]
    fn budget_with(&self, entry: EntryRef<'_>) -> Option<CellBudget>
        requires { IsAllowedNext self.now (ItemContents.Entry (entry_of entry)) }
        ensures { IsCoveredWith (preamble_in self.now) self.now.entries (entry_of entry.entry) result }
    {
        match entry.table {
            Table::Reward if self.cell_budget.rewards < MOST_REWARD_ENTRIES => {
                Some(self.cell_budget.with_reward())
            }
            _ => self.cell_budget.with(self.sizes(), entry),
        }
    }

    /// Returns how many elements the indices of the tables run over.
    #[inline(always)]
    fn sizes(&self) -> Sizes
        requires { preamble_fault self.now ≡ None }
        ensures { AreSizesOf (preamble_in self.now) result }
    {
        let states = count_in(&self.states);
        Sizes {
            actions: count_in(&self.actions),
            states,
            observed: count_or(states, &self.observations),
            rewarded: count_or(1, &self.observations),
        }
    }

    /// Returns the model of a complete preamble, start item and entries, or else the first row that does not sum to its scale.
    pub fn into_model(self, alloc: Global) -> Result<Result<Model, WrongRow>, AllocError>
        requires read { (seen : List Lexeme) × IsWholeRead seen self }
        requires limits { DenotesWithinLimits (said self) }
        ensures { IfOk result (λ found. MatchResult found
            (λ model. IsKeptOf (said self) model.kept)
            (λ w. IsFirstWrongRow (drafts.draft_meaning (said self)) w.table w.action w.row)) }
    {
        let ModelSoFar {
            discount,
            costs,
            states,
            actions,
            observations,
            start,
            entries,
            cell_budget: _,
        } = self;
        let preamble = Preamble {
            discount: discount.unwrap_or(0),
            costs: costs.unwrap_or(false),
            states: states.unwrap_or(Elements::Count(0)),
            actions: actions.unwrap_or(Elements::Count(0)),
            observations,
        };
        build_model(alloc, preamble, start, entries)
    }

    /// Returns the elements that the place of this number may name in an entry of the table, if it may name
    /// any.
    pub fn elements(&self, table: Table, number: usize) -> Option<&Elements>
        requires { number < length (indices_in self.now table) }
        ensures elements { get_or (named_in self.now table) number (Count 0)
            ≡ unwrap_or (option_copied result) (Count 0) }
        ensures few { count_of (unwrap_or (option_copied result) (Count 0)) ≤ most_elements }
    {
        match (table, number) {
            (_, 0) => self.actions.as_ref(),
            (Table::Observation, 2) => match &self.observations {
                Some(elements) => Some(elements),
                None => self.states.as_ref(),
            },
            (Table::Reward, 3) => self.observations.as_ref(),
            _ => self.states.as_ref(),
        }
    }

    /// Returns how many elements each place may name in an entry of the table.
    #[inline(always)]
    pub(crate) fn counts(&self, table: Table) -> [usize; MOST_INDICES]
        ensures { AreCounts self.now table result }
    {
        let actions = count_in(&self.actions);
        let states = count_in(&self.states);
        match table {
            Table::Transition => [actions, states, states, 0],
            Table::Observation => [actions, states, count_or(states, &self.observations), 0],
            Table::Reward => [actions, states, states, count_in(&self.observations)],
        }
    }

    /// Returns the states of a complete preamble.
    pub fn states(&self) -> &Elements
        requires { (states : Elements) × (self.now.states ≡ Some states) }
        ensures states { self.now.states ≡ Some result.now }
        ensures count { IsCount most_states (count_of result.now) }
    {
        self.states.as_ref().unwrap()
    }

    /// Returns how many cells of the table this many places of an entry leave open: as many numbers belong in its body.
    pub fn cells_after(&self, table: Table, written: usize) -> usize
        requires { least_written (is_mdp (preamble_in self.now)) table ≤ written }
        ensures { result ≡ cells_in (drop written (indices_in self.now table)) }
    {
        if is_single_cell(table, written) {
            return 1;
        }
        let states = count_in(&self.states);
        let observed = count_or(states, &self.observations);
        let rewarded = count_or(1, &self.observations);
        match (table, written) {
            (Table::Transition, 1) => states * states,
            (Table::Transition, 2) => states,
            (Table::Observation, 1) => states * observed,
            (Table::Observation, 2) => observed,
            (Table::Reward, 1) => states * states * rewarded,
            (Table::Reward, 2) => states * rewarded,
            (Table::Reward, 3) => rewarded,
            _ => 1,
        }
    }

    /// Tests whether there is no line of observations.
    pub fn is_mdp(&self) -> bool
        ensures { result ≡ is_mdp (preamble_in self.now) }
    {
        self.observations.is_none()
    }

    /// Returns the fault if an item of this topic is not allowed here, whatever its body.
    pub fn word_fault(&self, topic: Topic) -> Option<ItemFault>
        ensures { result ≡ word_fault self.now topic }
    {
        if self.is_late(topic) {
            return Some(ItemFault::LateLine);
        }
        if self.came_before(topic) {
            return Some(ItemFault::DuplicateLine);
        }
        match topic {
            Topic::Start => self.preamble_fault(),
            Topic::Cells(table) => match self.preamble_fault() {
                Some(fault) => Some(fault),
                None => self.table_fault(table),
            },
            _ => None,
        }
    }

    /// Returns the fault if the table has no entries: an MDP's observation is the end state.
    pub(crate) fn table_fault(&self, table: Table) -> Option<ItemFault>
        ensures { result ≡
            (if is_unobserved self.now (Topic.Cells table) then Some ItemFault.BadShape else None) }
    {
        match table {
            Table::Observation if self.is_mdp() => Some(ItemFault::BadShape),
            _ => None,
        }
    }

    /// Tests whether an item came already that has to come after those of this topic.
    fn is_late(&self, topic: Topic) -> bool
        ensures { result ≡ is_late self.now topic }
    {
        match topic {
            Topic::Cells(_) => false,
            Topic::Start => self.entries.len() > 0,
            _ => self.start.is_some() || self.entries.len() > 0,
        }
    }

    /// Tests whether an item of this topic came before, if it may stand only once.
    fn came_before(&self, topic: Topic) -> bool
        ensures { result ≡ came_before self.now topic }
    {
        match topic {
            Topic::Discount => self.discount.is_some(),
            Topic::Values => self.costs.is_some(),
            Topic::States => self.states.is_some(),
            Topic::Actions => self.actions.is_some(),
            Topic::Observations => self.observations.is_some(),
            Topic::Start => self.start.is_some(),
            Topic::Cells(_) => false,
        }
    }

    /// Returns the fault if the preamble isn't complete: a line is missing, or else there are too many pairs
    /// of a state and an observation.
    pub fn preamble_fault(&self) -> Option<ItemFault>
        ensures { result ≡ preamble_fault self.now }
    {
        if self.discount.is_none() || self.costs.is_none() {
            return Some(ItemFault::MissingLine);
        }
        match (&self.states, &self.actions) {
            (Some(states), Some(_)) => {
                let states = states.count();
                let observed = count_or(states, &self.observations);
                pairs_fault(states, observed)
            }
            _ => Some(ItemFault::MissingLine),
        }
    }
}

/// Returns whether this many places leave one cell open. (Most entries have as many, and then no count is looked at.)
#[inline(always)]
fn is_single_cell(table: Table, written: usize) -> bool
    ensures { IsTrue result → (p : P) → cells_in (drop written (dimensions p table)) ≡ 1 }
{
    match table {
        Table::Reward => written > 3,
        Table::Transition | Table::Observation => written > 2,
    }
}

/// Returns how many elements there are, 0 if they are not known yet.
fn count_in(elements: &Option<Elements>) -> usize
    ensures { result ≡ count_in elements.now }
{
    count_or(0, elements)
}

/// Returns the fault if there are too many pairs of a state and an observation.
fn pairs_fault(states: usize, observed: usize) -> Option<ItemFault>
    requires states { states ≤ most_states }
    requires observed { observed ≤ most_observations }
    ensures { result ≡ (if pairs_are_too_many states observed then Some ItemFault.TooManyCells else None) }
{
    if states * observed > MOST_PAIRS {
        Some(ItemFault::TooManyCells)
    } else {
        None
    }
}

/// How many entries of rewards there may be where the table of rewards is large.
const MOST_REWARD_ENTRIES: usize = 1_048_576;

/// What entries give of the large tables: the cells of T and of O that they cover with a weight above 0, added up over the
/// entries, and how many entries of R there are. Of a table that is not large nothing is counted.
#[derive(Clone, Copy, Drop)]
pub struct CellBudget {
    pub transitions: usize,
    pub observations: usize,
    pub rewards: usize,
}

/// How many elements the indices of the tables run over: `observed` in O, and `rewarded` as the last of R.
#[derive(Clone, Copy, Drop)]
pub struct Sizes {
    pub actions: usize,
    pub states: usize,
    pub observed: usize,
    pub rewarded: usize,
}

impl CellBudget {
    /// Makes the budget before the first entry.
    pub(crate) fn new() -> CellBudget
        ensures transitions { result.transitions ≡ 0 }
        ensures observations { result.observations ≡ 0 }
        ensures rewards { result.rewards ≡ 0 }
    {
        CellBudget {
            transitions: 0,
            observations: 0,
            rewards: 0,
        }
    }

    /// Returns the budget after an entry of R, without a look at sizes: called while fewer entries of R came than a large table may have.
    #[inline(always)]
    fn with_reward(mut self) -> CellBudget
        requires { self.rewards < most_reward_entries }
        ensures { (p : P) (es : List E) (e : E) → IsCoveringOf p es self → e.table ≡ Table.Reward
            → IsCoveringOf p (es ++ e ∷ []) result }
    {
        self.rewards += 1;
        self
    }

    /// Returns the budget after one more entry. `None`: the cells of a large table pass their limit.
    #[inline(always)]
    pub(crate) fn with(mut self, sizes: Sizes, entry: EntryRef<'_>) -> Option<CellBudget>
        requires { (p : P) × (es : List E) × CanComeNext p es self sizes (entry_of entry) }
        ensures { (p : P) (es : List E) → CanComeNext p es self sizes (entry_of entry.entry)
            → IsCoveredWith p es (entry_of entry.entry) result }
    {
        match entry.table {
            Table::Transition => self.transitions = sizes.add_cells(
                self.transitions,
                sizes.states,
                entry,
            )?,
            Table::Observation => self.observations = sizes.add_cells(
                self.observations,
                sizes.observed,
                entry,
            )?,
            Table::Reward => self.rewards = sizes.count_reward_entry(self.rewards)?,
        }
        Some(self)
    }
}

impl Sizes {
    /// Returns `count` and the cells that an entry covers in a table of this many columns. `None`: they pass their limit.
    #[inline(always)]
    fn add_cells(self, count: usize, columns: usize, entry: EntryRef<'_>) -> Option<usize>
        requires actions { self.actions ≤ most_actions }
        requires states { self.states ≤ most_states }
        requires columns { columns ≤ most_observations }
        requires count { count ≤ most_cells }
        requires nonzero_cells { nonzero_cells (body_of entry.body) self.states
            (open_row_cells self.states columns (length (entry_of entry).places)) ≤ self.states * columns }
        ensures { result ≡ budget_after (self.actions * self.states * columns) most_cells count
            (covered_by self.actions self.states columns (entry_of entry.entry).places
            (body_of entry.entry.body)) }
    {
        if self.actions * self.states * columns > MOST_CELLS {
            let covered = count + covered_by(self.actions, self.states, columns, entry);
            if covered > MOST_CELLS {
                None
            } else {
                Some(covered)
            }
        } else {
            Some(count)
        }
    }

    /// Returns `count + 1` for one more entry of R, or `count` if the table isn't large. `None`: the entries pass their limit.
    #[inline(never)]
    fn count_reward_entry(self, count: usize) -> Option<usize>
        requires actions { self.actions ≤ most_actions }
        requires states { self.states ≤ most_states }
        requires rewarded { self.rewarded ≤ most_observations }
        requires count { count ≤ most_reward_entries }
        ensures { result ≡ budget_after (self.actions * self.states * self.states * self.rewarded)
            most_reward_entries count 1 }
    {
        if self.actions * self.states * self.states * self.rewarded > MOST_CELLS {
            let entries = count + 1;
            if entries > MOST_REWARD_ENTRIES {
                None
            } else {
                Some(entries)
            }
        } else {
            Some(count)
        }
    }
}

/// Returns for how many of `count` elements a place stands: all if it is `*`, else one.
fn count_elements(places: &[Place], number: usize, count: usize) -> usize
    ensures { result ≡ place_count (slice_get places.now number) count }
{
    match places.get(number) {
        Some(Place::Every) => count,
        _ => 1,
    }
}

/// Returns how many cells of T or O an entry with this many places leaves to its body.
fn open_cells(states: usize, columns: usize, places: usize) -> usize
    requires states { states ≤ most_states }
    requires columns { columns ≤ most_observations }
    ensures { result ≡ open_row_cells states columns places }
{
    match places {
        1 => states * columns,
        2 => columns,
        _ => 1,
    }
}

/// Returns how many of the `cells` that an entry's places leave open get a positive weight from its body.
fn nonzero_cells(body: BodyRef<'_>, states: usize, cells: usize) -> usize
    ensures { result ≡ nonzero_cells (body_of body.entry) states cells }
{
    match body {
        BodyRef::Probabilities(numbers) => numbers.iter().filter(|n| **n > 0).count(),
        BodyRef::Rewards(_) => 0,
        BodyRef::Uniform => cells,
        BodyRef::Identity => states,
    }
}

/// Returns how many cells an entry covers with positive weight, in a table of this many columns. (Apart, since few tables are large.)
#[inline(never)]
fn covered_by(actions: usize, states: usize, columns: usize, entry: EntryRef<'_>) -> usize
    requires actions { actions ≤ most_actions }
    requires states { states ≤ most_states }
    requires columns { columns ≤ most_observations }
    requires nonzero_cells { nonzero_cells (body_of entry.body) states
        (open_row_cells states columns (length (entry_of entry).places)) ≤ states * columns }
    ensures is { result ≡ covered_by actions states columns (entry_of entry.entry).places
        (body_of entry.entry.body) }
    ensures few { result ≤ most_covered }
{
    let places = entry.places.as_slice();
    let cells = open_cells(states, columns, places.len());
    count_elements(places, 0, actions)
        * count_elements(places, 1, states)
        * count_elements(places, 2, columns)
        * nonzero_cells(entry.body, states, cells)
}
