//! The expected value of the best vector after each observation.
ghost use Rattle.std.specs.Prelude.{◌≡◌, ◌-◌, ◌<◌, ℕ, IsTrue, length};
ghost use Rattle.polcert_optimum.specs.declared.best_values.TheConstants.{KEPT_STATES};
ghost use Rattle.polcert_optimum.specs.Steps.Sums.{HasSameStep};

use crate::observation_sums::ObservationSums;
use crate::pair::ActionState;
use crate::uninformative::{is_uninformative, uninformed_value};
use polcert_cells::Cells;
use polcert_check::one_step::{is_same_row, next_end};

/// How many states' sums are kept for the next action.
const KEPT_STATES: usize = 4_000;

/// Returns whether the row of T is known to be that of the state before, if there is one.
fn has_row_before<C: Cells>(pair: &ActionState<'_, C>) -> bool
    ensures some { IsTrue result → 0 < pair.now.state }
    ensures same { IsTrue result → (e : ℕ) → e < (C.table pair.now.cells.now).states →
        (C.table pair.now.cells.now).t pair.now.action (pair.now.state - 1) e
        ≡ (C.table pair.now.cells.now).t pair.now.action pair.now.state e }
{
    let cells = pair.cells;
    pair.state > 0
        && is_same_row(
            cells.t_row(pair.action, pair.state - 1),
            cells.t_row(pair.action, pair.state),
        )
}

/// Returns whether the row of T, and the rows of O at its end states, are known to be those of the action before, if there is one.
fn has_rows_of_action_before<C: Cells>(pair: &ActionState<'_, C>) -> bool
    ensures some { IsTrue result → 0 < pair.now.action }
    ensures same { IsTrue result → HasSameStep (C.table pair.now.cells.now) (pair.now.action - 1)
        pair.now.action pair.now.state }
{
    if pair.action == 0 {
        return false;
    }
    let cells = pair.cells;
    let before = pair.action - 1;
    let row = cells.t_row(pair.action, pair.state);
    if !is_same_row(cells.t_row(before, pair.state), row) {
        return false;
    }
    let mut at = 0;
    while let Some(end) = next_end(cells, pair.action, pair.state, row, at) {
        let observed = cells.o_row(pair.action, end.column);
        if !is_same_row(cells.o_row(before, end.column), observed) {
            return false;
        }
        at = end.next;
    }
    true
}

/// Sums of the greatest expected values over the observations, and buffers for the greatest one after each observation and for those of one
/// vector.
#[derive(Drop)]
pub(crate) struct BestValues {
    /// The sum of the state before.
    last: i128,
    /// Those of the first states: of the action at the states so far; after them of the action before.
    totals: [i128; KEPT_STATES],
    greatest: ObservationSums,
    values: ObservationSums,
    ghost room: { length totals ≡ KEPT_STATES },
}

impl BestValues {
    ghost use Rattle.std.specs.Prelude.{◌≡◌, ◌+◌};
    ghost use Rattle.polcert_policy.specs.Vectors.{value_of};
    ghost use Rattle.polcert_optimum.specs.Steps.Sums.{AreBestBefore, AreGreatestValues, best_value};

    pub(crate) fn new() -> Self {
        BestValues {
            last: 0,
            totals: [0; KEPT_STATES],
            greatest: ObservationSums::new(),
            values: ObservationSums::new(),
        }
    }

    /// Sets the greatest expected value after each observation, over the vectors of all actions.
    fn fill<C: Cells>(&mut self, pair: &ActionState<'_, C>)
        ensures is { AreGreatestValues (C.table pair.now.cells.now) (value_of pair.now.vectors.now)
            pair.now.action pair.now.state (C.table pair.now.cells.now).actions self.new.greatest.sums }
        ensures same { self.new.totals ≡ self.old.totals }
    {
        self.greatest.fill(pair, 0);
        for next in 1..pair.cells.actions() {
            self.values.fill(pair, next);
            self.greatest
                .take_greater(pair.cells.observations(), &self.values);
        }
    }

    /// Returns the sum of the greatest expected values over the observations, and keeps it. It is computed unless the state before has the
    /// same row of T, or the action before the same rows.
    pub(crate) fn total<C: Cells>(&mut self, pair: &ActionState<'_, C>) -> i128
        requires { AreBestBefore (C.table pair.now.cells.now) (value_of pair.now.vectors.now)
            pair.now.action pair.now.state self.old.last self.old.totals }
        ensures is { result ≡ best_value (C.table pair.now.cells.now) (value_of pair.now.vectors.now)
            pair.now.action pair.now.state }
        ensures known { AreBestBefore (C.table pair.now.cells.now) (value_of pair.now.vectors.now)
            pair.now.action (pair.now.state + 1) self.new.last self.new.totals }
    {
        let total = self.find_total(pair);
        self.last = total;
        if pair.state < KEPT_STATES {
            self.totals[pair.state] = total;
        }
        total
    }

    /// Returns what `total` does, and keeps nothing.
    fn find_total<C: Cells>(&mut self, pair: &ActionState<'_, C>) -> i128
        requires { AreBestBefore (C.table pair.now.cells.now) (value_of pair.now.vectors.now)
            pair.now.action pair.now.state self.old.last self.old.totals }
        ensures is { result ≡ best_value (C.table pair.now.cells.now) (value_of pair.now.vectors.now)
            pair.now.action pair.now.state }
        ensures same { self.new.totals ≡ self.old.totals }
    {
        if has_row_before(pair) {
            return self.last;
        }
        if pair.state < KEPT_STATES && has_rows_of_action_before(pair) {
            return self.totals[pair.state];
        }
        self.sum(pair)
    }

    /// Returns the sum of the greatest expected values over the observations, computed anew: called if no kept sum is known to be the same.
    fn sum<C: Cells>(&mut self, pair: &ActionState<'_, C>) -> i128
        ensures is { result ≡ best_value (C.table pair.now.cells.now) (value_of pair.now.vectors.now)
            pair.now.action pair.now.state }
        ensures same { self.new.totals ≡ self.old.totals }
    {
        if is_uninformative(pair) {
            return uninformed_value(pair);
        }
        self.fill(pair);
        self.greatest.total(pair.cells.observations())
    }
}
