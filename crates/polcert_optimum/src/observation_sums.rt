//! One sum for each observation: what a vector is worth over the end states where it is received.
ghost use Rattle.std.specs.Prelude.{◌≡◌, length};
ghost use Rattle.std.specs.Option.{ForSome};
ghost use Rattle.polcert_cells.specs.BorrowedRows.{IsRowOf};
ghost use Rattle.polcert_cells.specs.Sparse.{IsRow, scaled_cells};
ghost use Rattle.polcert_cells.specs.declared.elements.TheConstants.{MOST_OBSERVATIONS};

use crate::pair::ActionState;
use polcert_cells::{Cells, MOST_OBSERVATIONS, Row, Step};
use polcert_check::one_step::{next_end, next_observation, weigh};

/// A sum for each observation, after an action is taken in a state.
#[derive(Drop)]
pub(crate) struct ObservationSums {
    pub sums: [i128; MOST_OBSERVATIONS],
    ghost room: { length sums ≡ MOST_OBSERVATIONS },
}

impl ObservationSums {
    ghost use Rattle.std.specs.Prelude.{◌+◌, ◌<◌, ◌≤◌, ℕ, pos};
    ghost use Rattle.std.specs.Int.{int_max};
    ghost use Rattle.polcert_policy.specs.Vectors.{value_of};
    ghost use Rattle.polcert_check.specs.Horizon.{total_below};
    ghost use Rattle.polcert_optimum.specs.Steps.Sums.{sum_of, AreValuesUntil, AreSmallSums};

    pub(crate) fn new() -> Self {
        ObservationSums {
            sums: [0; MOST_OBSERVATIONS],
        }
    }

    /// Sets the first `observations` sums to 0.
    fn clear(&mut self, observations: usize)
        requires { observations ≤ MOST_OBSERVATIONS }
        ensures { (z : ℕ) → z < observations → sum_of self.new.sums z ≡ pos 0 }
    {
        for z in 0..observations {
            self.sums[z] = 0;
        }
    }

    /// Adds what an end state adds to the expected value of the vector of action `next`.
    fn add_end<C: Cells>(&mut self, pair: &ActionState<'_, C>, next: usize, end: Step)
        requires next { next < (C.table pair.now.cells.now).actions }
        requires end { end.column < (C.table pair.now.cells.now).states }
        requires weight { end.weight
            ≡ (C.table pair.now.cells.now).t pair.now.action pair.now.state end.column }
        requires sums { AreValuesUntil (C.table pair.now.cells.now) (value_of pair.now.vectors.now next)
            pair.now.action pair.now.state end.column self.old.sums }
        ensures { AreValuesUntil (C.table pair.now.cells.now) (value_of pair.now.vectors.now next)
            pair.now.action pair.now.state (end.column + 1) self.new.sums }
    {
        // A call for the form that dense rows have, so that its loop asks for no form.
        match pair.cells.o_row(pair.action, end.column) {
            Some(Row::Scaled { numbers, scale }) => self.add_numbers(
                pair, next, end, numbers, scale,
            ),
            row => self.add_row(pair, next, end, row),
        }
    }

    /// Does what `add_end` does, by the row of O there.
    fn add_row<C: Cells>(
        &mut self,
        pair: &ActionState<'_, C>,
        next: usize,
        end: Step,
        row: Option<Row<'_>>,
    )
        requires next { next < (C.table pair.now.cells.now).actions }
        requires end { end.column < (C.table pair.now.cells.now).states }
        requires weight { end.weight
            ≡ (C.table pair.now.cells.now).t pair.now.action pair.now.state end.column }
        requires row { ForSome row (IsRowOf ((C.table pair.now.cells.now).o pair.now.action end.column)
            (C.table pair.now.cells.now).observations) }
        requires sums { AreValuesUntil (C.table pair.now.cells.now) (value_of pair.now.vectors.now next)
            pair.now.action pair.now.state end.column self.old.sums }
        ensures { AreValuesUntil (C.table pair.now.cells.now) (value_of pair.now.vectors.now next)
            pair.now.action pair.now.state (end.column + 1) self.new.sums }
    {
        let cells = pair.cells;
        let value = pair.vectors.at(next, end.column) as i128;
        let mut at = 0;
        while let Some(observation) = next_observation(cells, pair.action, end.column, row, at) {
            let z = observation.column;
            let step_weight = end.weight * observation.weight;
            let part = weigh(step_weight, value);
            let sum = self.sums[z] + part;
            self.sums[z] = sum;
            at = observation.next;
        }
    }

    /// Does what `add_end` does, by a row of O whose weights are these numbers times the scale.
    fn add_numbers<C: Cells>(
        &mut self,
        pair: &ActionState<'_, C>,
        next: usize,
        end: Step,
        numbers: &[u32],
        scale: u32,
    )
        requires next { next < (C.table pair.now.cells.now).actions }
        requires end { end.column < (C.table pair.now.cells.now).states }
        requires weight { end.weight
            ≡ (C.table pair.now.cells.now).t pair.now.action pair.now.state end.column }
        requires row { IsRow (C.table pair.now.cells.now).observations ((C.table pair.now.cells.now).o
            pair.now.action end.column) (scaled_cells scale 0 numbers.now) }
        requires sums { AreValuesUntil (C.table pair.now.cells.now) (value_of pair.now.vectors.now next)
            pair.now.action pair.now.state end.column self.old.sums }
        ensures { AreValuesUntil (C.table pair.now.cells.now) (value_of pair.now.vectors.now next)
            pair.now.action pair.now.state (end.column + 1) self.new.sums }
    {
        let value = pair.vectors.at(next, end.column) as i128;
        for z in 0..numbers.len().min(pair.cells.observations()) {
            let weight = numbers[z] as u64 * scale as u64;
            let step_weight = end.weight * weight;
            let part = weigh(step_weight, value);
            let sum = self.sums[z] + part;
            self.sums[z] = sum;
        }
    }

    /// Sets each observation's sum to the expected value of the vector of action `next` over the end states where it is received.
    pub(crate) fn fill<C: Cells>(&mut self, pair: &ActionState<'_, C>, next: usize)
        requires { next < (C.table pair.now.cells.now).actions }
        ensures { AreValuesUntil (C.table pair.now.cells.now) (value_of pair.now.vectors.now next)
            pair.now.action pair.now.state (C.table pair.now.cells.now).states self.new.sums }
    {
        let cells = pair.cells;
        self.clear(cells.observations());
        let row = cells.t_row(pair.action, pair.state);
        let mut at = 0;
        while let Some(end) = next_end(cells, pair.action, pair.state, row, at) {
            self.add_end(pair, next, end);
            at = end.next;
        }
    }

    /// Sets each of the first `observations` sums to the greater of itself and the other's.
    pub(crate) fn take_greater(&mut self, observations: usize, other: &ObservationSums)
        requires { observations ≤ MOST_OBSERVATIONS }
        ensures { (z : ℕ) → z < observations →
            sum_of self.new.sums z ≡ int_max (sum_of self.old.sums z) (sum_of other.now.sums z) }
    {
        for z in 0..observations {
            self.sums[z] = self.sums[z].max(other.sums[z]);
        }
    }

    /// Returns the sum of the first `observations` sums.
    pub(crate) fn total(&self, observations: usize) -> i128
        requires within { observations ≤ MOST_OBSERVATIONS }
        requires small { AreSmallSums observations self.now.sums }
        ensures { result ≡ total_below (sum_of self.now.sums) observations }
    {
        let mut total: i128 = 0;
        for z in 0..observations {
            total += self.sums[z];
        }
        total
    }
}
