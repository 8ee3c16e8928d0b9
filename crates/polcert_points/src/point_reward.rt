//! What an action earns at once from a point, and what the value there comes to.
ghost use Rattle.std.specs.Prelude.{◌≡◌, ◌*◌, ◌^◌, ◌<◌, ◌≤◌, pos, ◌*ℤ◌, unsigned_abs};
ghost use Rattle.polcert_text.specs.Numbers.{largest};
ghost use Rattle.polcert_optimum.specs.Policy.{step_scale};
ghost use Rattle.polcert_optimum.specs.Informed.{expected_reward};
ghost use Rattle.polcert_points.specs.Belief.{sum_over_belief};

use crate::belief_points::{BeliefPoints, next_state};
use crate::checked_points::CheckedPoints;
use polcert_cells::Cells;
use polcert_check::one_step::{RewardBuffer, expected_reward};

/// Returns a weight times the reward that an action expects at a state.
fn weighted_reward<C: Cells>(
    cells: &C,
    weight: u64,
    a: usize,
    s: usize,
    buffer: &mut RewardBuffer,
) -> i128
    requires weight { weight ≤ 1000000 }
    requires action { a < (C.table cells.now).actions }
    requires state { s < (C.table cells.now).states }
    ensures { result ≡ pos weight *ℤ expected_reward (C.table cells.now) a s }
{
    weight as i128 * expected_reward(cells, a, s, buffer)
}

/// Returns what action `a` earns at once from point `i`: the sum over its states of their weight times the expected reward.
pub(crate) fn point_reward<C: Cells, P: BeliefPoints>(
    input: &CheckedPoints<'_, C, P>,
    i: usize,
    a: usize,
    buffer: &mut RewardBuffer,
) -> i128
    requires point { i < (P.table input.now.points.now).points.count }
    requires action { a < (C.table input.now.cells.now).actions }
    ensures value { result ≡ sum_over_belief (C.table input.now.cells.now)
        ((P.table input.now.points.now).points.belief i) (expected_reward (C.table input.now.cells.now) a) }
    ensures small { unsigned_abs result ≤ 5 * 10 ^ 37 }
{
    let point = input.points.weights(i);
    let mut sum: i128 = 0;
    let mut at = 0;
    while let Some(state) = next_state(input.points, i, point, at) {
        sum += weighted_reward(input.cells, state.weight, a, state.column, buffer);
        at = state.next;
    }
    sum
}

/// Returns the value of a point of this mass on the scale of one step.
pub(crate) fn point_value_at_scale<C: Cells>(cells: &C, mass: u64, value: i64) -> i128
    requires mass { mass ≤ 1000000 }
    requires value { unsigned_abs value ≤ largest }
    ensures value { result ≡ pos (step_scale (C.table cells.now)) *ℤ (pos mass *ℤ value) }
    ensures small { unsigned_abs result ≤ 5 * 10 ^ 37 }
{
    let scale = cells.t_scale() * cells.o_scale();
    let weight = scale as i128 * mass as i128;
    weight * value as i128
}
