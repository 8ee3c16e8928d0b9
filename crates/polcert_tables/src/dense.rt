//! A model with filled tables: each cell is at its place, and entries are gone.
ghost use Rattle.std.specs.Prelude.{◌≡◌, ℕ, ◌*◌, ◌<◌, length, IfOk, OnOk};
ghost use Rattle.std.specs.Option.{ForSome};
ghost use Rattle.polcert_cells.specs.Meaning.{states_of, actions_of, observations_of};
ghost use Rattle.polcert_cells.specs.Tables.{IsProper, IsWithinLimits, table_of};
ghost use Rattle.polcert_tables.specs.Contents.{meaning};
ghost use Rattle.polcert_tables.specs.Filled.{AreTransitions, AreObservations, AreRewards, filled_table, lists_of, AddsCells};
ghost use Rattle.polcert_cells.specs.SameCells.{HasSameCells};
ghost use Rattle.polcert_format.specs.Printable.{IsPrintable};

use crate::Model;
use polcert_cells::{Cells, ONE, Row};
use std::alloc::{AllocError, Global};
use std::marker;

/// A model that keeps every cell of its tables: a cell is read in one step, whatever text the model came from. Tests check both kinds of
/// models; the programs check a `Model`.
#[derive(Drop)]
pub struct DenseModel {
    states: usize,
    actions: usize,
    observations: usize,
    discount: u32,
    transitions: Vec<u64>,
    observed: Vec<u64>,
    rewards: Vec<i64>,
    ghost transition_count: { length transitions.items ≡ actions * states * states },
    ghost observed_count: { length observed.items ≡ actions * states * observations },
    ghost reward_count: { length rewards.items ≡ actions * states * states * observations },
    ghost rows: { IsProper (filled_table (lists_of states actions observations discount transitions.items observed.items rewards.items)) },
    ghost limits: { IsWithinLimits (filled_table (lists_of states actions observations discount transitions.items observed.items rewards.items)) },
}

impl marker::Model for DenseModel {
    ghost use Rattle.polcert_tables.specs.Filled.{Filled, lists_of};

    ghost Value = { Filled };

    ghost view = { λ m. record {
      lists = lists_of m.states m.actions m.observations m.discount m.transitions.items m.observed.items m.rewards.items;
      rows = m.rows;
      limits = m.limits;
    } };
}

impl Cells for DenseModel {
    ghost table = { λ m. filled_table m.lists };

    ghost is_proper = { λ m. m.rows };

    ghost is_within_limits = { λ m. m.limits };

    fn states(&self) -> usize {
        self.states
    }

    fn actions(&self) -> usize {
        self.actions
    }

    fn observations(&self) -> usize {
        self.observations
    }

    fn discount(&self) -> u32 {
        self.discount
    }

    fn t_scale(&self) -> u64 {
        ONE * self.states as u64
    }

    fn o_scale(&self) -> u64 {
        ONE * self.observations as u64
    }

    fn t(&self, a: usize, s: usize, e: usize) -> u64 {
        self.transitions[(a * self.states + s) * self.states + e]
    }

    fn o(&self, a: usize, e: usize, z: usize) -> u64 {
        self.observed[(a * self.states + e) * self.observations + z]
    }

    fn r(&self, a: usize, s: usize, e: usize, z: usize) -> i64 {
        self.rewards[((a * self.states + s) * self.states + e) * self.observations + z]
    }

    fn t_row(&self, a: usize, s: usize) -> Option<Row<'_>> {
        let start = (a * self.states + s) * self.states;
        Some(Row::Filled(&self.transitions[start..start + self.states]))
    }

    fn o_row(&self, a: usize, e: usize) -> Option<Row<'_>> {
        let start = (a * self.states + e) * self.observations;
        Some(Row::Filled(&self.observed[start..start + self.observations]))
    }
}

/// Returns the model with filled tables that has the counts, discount, scales and cells of this one. Only tests call it, after `printable`
/// has allowed it. The only error is out of memory.
pub fn dense_of(alloc: Global, model: &Model) -> Result<DenseModel, AllocError>
    requires printable { IsPrintable (meaning model.now).preamble }
    ensures { IfOk result (λ dense. HasSameCells (table_of (meaning model.now)) (filled_table dense.lists)) }
{
    Ok(DenseModel {
        states: model.states(),
        actions: model.actions(),
        observations: model.observations(),
        discount: model.discount(),
        transitions: transitions_of(alloc, model)?,
        observed: observed_of(alloc, model)?,
        rewards: rewards_of(alloc, model)?,
    })
}

/// Returns every cell of T, row after row.
fn transitions_of(alloc: Global, model: &Model) -> Result<Vec<u64>, AllocError>
    ensures { IfOk result (λ cells. AreTransitions (table_of (meaning model.now)) cells.items) }
{
    let states = model.states();
    let count = model.actions() * states * states;
    let mut cells = Vec::with_capacity(alloc, count)?;
    for place in 0..count {
        let row = place / states;
        cells.push(model.t(row / states, row % states, place % states))?;
    }
    Ok(cells)
}

/// Returns every cell of O, row after row.
fn observed_of(alloc: Global, model: &Model) -> Result<Vec<u64>, AllocError>
    ensures { IfOk result (λ cells. AreObservations (table_of (meaning model.now)) cells.items) }
{
    let states = model.states();
    let observations = model.observations();
    let count = model.actions() * states * observations;
    let mut cells = Vec::with_capacity(alloc, count)?;
    for place in 0..count {
        let row = place / observations;
        cells.push(model.o(row / states, row % states, place % observations))?;
    }
    Ok(cells)
}

/// Returns every cell of R, row after row.
fn rewards_of(alloc: Global, model: &Model) -> Result<Vec<i64>, AllocError>
    ensures { IfOk result (λ cells. AreRewards (table_of (meaning model.now)) cells.items) }
{
    let states = model.states();
    let rows = model.actions() * states * states;
    let mut cells = Vec::with_capacity(alloc, rows * model.observations())?;
    for row in 0..rows {
        let start = row / states;
        push_rewards(
            &mut cells,
            model,
            start / states,
            start % states,
            row % states,
        )?;
    }
    Ok(cells)
}

/// Returns the reward of an action, a start state and an end state, if it is known at once that it is the same for all observations.
fn constant_reward(model: &Model, a: usize, s: usize, e: usize) -> Option<i64>
    requires action { a < actions_of (meaning model.now) }
    requires start { s < states_of (meaning model.now) }
    requires end { e < states_of (meaning model.now) }
    ensures { ForSome result (λ h. (z : ℕ) → z < observations_of (meaning model.now) →
        (meaning model.now).r a s e z ≡ h) }
{
    match model.find_rewards(a, s, e, &mut []) {
        Some(row) => row.constant(),
        None => None,
    }
}

/// Adds the rewards of an action, a start state and an end state: one for each observation.
fn push_rewards(
    cells: &mut Vec<i64>,
    model: &Model,
    a: usize,
    s: usize,
    e: usize,
) -> Result<(), AllocError>
    requires action { a < actions_of (meaning model.now) }
    requires start { s < states_of (meaning model.now) }
    requires end { e < states_of (meaning model.now) }
    ensures { OnOk result
        (AddsCells ((meaning model.now).r a s e) (observations_of (meaning model.now)) cells.old.items
        cells.new.items) }
{
    let observations = model.observations();
    match constant_reward(model, a, s, e) {
        Some(reward) => for _ in 0..observations {
            cells.push(reward)?;
        },
        None => for z in 0..observations {
            cells.push(model.r(a, s, e, z))?;
        },
    }
    Ok(())
}
