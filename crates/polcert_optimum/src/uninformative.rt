//! Pairs whose end states all show the same, so that the observation tells nothing, and one vector is the best after each.
ghost use Rattle.std.specs.Prelude.{◌≡◌, ◌<◌, ◌≤◌, ◌*◌, IsTrue, unsigned_abs};
ghost use Rattle.polcert_text.specs.Numbers.{largest};
ghost use Rattle.polcert_policy.specs.Vectors.{value_of};
ghost use Rattle.polcert_optimum.specs.Informed.{greatest_below};
ghost use Rattle.polcert_optimum.specs.Steps.Sums.{IsUninformative, best_value, mean_value};

use crate::pair::ActionState;
use polcert_cells::Cells;
use polcert_check::one_step::{next_end, weigh};

/// Returns whether it is known at once that all end states of the pair have the same row of O, so that the observation tells nothing.
/// `false`: unknown.
pub(crate) fn is_uninformative<C: Cells>(pair: &ActionState<'_, C>) -> bool
    ensures { IsTrue result → IsUninformative (C.table pair.now.cells.now) pair.now.action pair.now.state }
{
    let cells = pair.cells;
    let row = cells.t_row(pair.action, pair.state);
    let Some(first) = next_end(cells, pair.action, pair.state, row, 0) else {
        return false;
    };
    let mut at = first.next;
    while let Some(end) = next_end(cells, pair.action, pair.state, row, at) {
        if !cells.has_same_observations(pair.action, end.column, first.column) {
            return false;
        }
        at = end.next;
    }
    true
}

/// Returns the sum over the end states of their weight times the value of the vector of action `next` there.
fn mean_value<C: Cells>(pair: &ActionState<'_, C>, next: usize) -> i128
    requires { next < (C.table pair.now.cells.now).actions }
    ensures is { result ≡ mean_value (C.table pair.now.cells.now) (value_of pair.now.vectors.now next)
        pair.now.action pair.now.state }
    ensures small { unsigned_abs result ≤ (C.table pair.now.cells.now).t_scale * largest }
{
    let cells = pair.cells;
    let mut sum: i128 = 0;
    let row = cells.t_row(pair.action, pair.state);
    let mut at = 0;
    while let Some(end) = next_end(cells, pair.action, pair.state, row, at) {
        let value = pair.vectors.at(next, end.column) as i128;
        sum += weigh(end.weight, value);
        at = end.next;
    }
    sum
}

/// Returns the greatest `mean_value`, over the vectors of all actions.
fn greatest_mean<C: Cells>(pair: &ActionState<'_, C>) -> i128
    ensures is { result ≡ greatest_below (λ b. mean_value (C.table pair.now.cells.now)
        (value_of pair.now.vectors.now b) pair.now.action pair.now.state)
        (C.table pair.now.cells.now).actions }
    ensures small { unsigned_abs result ≤ (C.table pair.now.cells.now).t_scale * largest }
{
    let mut greatest = mean_value(pair, 0);
    for next in 1..pair.cells.actions() {
        greatest = greatest.max(mean_value(pair, next));
    }
    greatest
}

/// Returns the sum of the greatest expected values over the observations, if all end states show the same: the weights of the
/// observations sum to their scale.
pub(crate) fn uninformed_value<C: Cells>(pair: &ActionState<'_, C>) -> i128
    requires { IsUninformative (C.table pair.now.cells.now) pair.now.action pair.now.state }
    ensures { result ≡ best_value (C.table pair.now.cells.now) (value_of pair.now.vectors.now)
        pair.now.action pair.now.state }
{
    weigh(pair.cells.o_scale(), greatest_mean(pair))
}
