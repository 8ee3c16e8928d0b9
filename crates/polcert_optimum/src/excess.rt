//! By how much the informed backup of an action is above its vector.
ghost use Rattle.std.specs.Prelude.{◌≡◌, ◌<◌, ◌^◌, neg_ℤ, unsigned_abs};

use crate::best_values::BestValues;
use crate::pair::ActionState;
use polcert_cells::Cells;
use polcert_check::one_step::{RewardBuffer, expected_reward, shortfall};

/// Returns the number with its sign turned.
fn negated(amount: i128) -> i128
    requires { unsigned_abs amount < 2 ^ 127 }
    ensures { result ≡ neg_ℤ amount }
{
    -amount
}

/// Buffers that are reused for every pair of an action and a state.
#[derive(Drop)]
pub(crate) struct Buffers {
    rewards: RewardBuffer,
    best: BestValues,
}

impl Buffers {
    ghost use Rattle.std.specs.Prelude.{◌≡◌, ◌+◌, ◌≤◌, unsigned_abs};
    ghost use Rattle.polcert_policy.specs.Vectors.{value_of};
    ghost use Rattle.polcert_optimum.specs.Informed.{excess};
    ghost use Rattle.polcert_optimum.specs.InformedCheck.{most_excess};
    ghost use Rattle.polcert_optimum.specs.Steps.Sums.{AreBestBefore};

    pub(crate) fn new() -> Self {
        Buffers {
            rewards: RewardBuffer::new(),
            best: BestValues::new(),
        }
    }

    /// Returns by how much the informed backup of a pair is above the action's vector: 0 or less if the informed inequality holds there.
    pub(crate) fn excess<C: Cells>(&mut self, pair: &ActionState<'_, C>) -> i128
        requires { AreBestBefore (C.table pair.now.cells.now) (value_of pair.now.vectors.now)
            pair.now.action pair.now.state self.old.best.last self.old.best.totals }
        ensures value { result ≡ excess (C.table pair.now.cells.now) (value_of pair.now.vectors.now)
            pair.now.action pair.now.state }
        ensures small { unsigned_abs result ≤ most_excess (C.table pair.now.cells.now) }
        ensures known { AreBestBefore (C.table pair.now.cells.now) (value_of pair.now.vectors.now)
            pair.now.action (pair.now.state + 1) self.new.best.last self.new.best.totals }
    {
        let best = self.best.total(pair);
        let reward = expected_reward(pair.cells, pair.action, pair.state, &mut self.rewards);
        let value = pair.vectors.at(pair.action, pair.state);
        let above = shortfall(pair.cells, value, reward, best);
        negated(above)
    }
}
