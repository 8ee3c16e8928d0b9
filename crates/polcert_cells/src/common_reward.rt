//! Rewards that observations, end states or both have in common or from one list, except a few.

ghost use Rattle.std.specs.Prelude.{◌≡◌, ◌↔◌, ℕ, ◌<◌, ℤ, List, Some};
ghost use Rattle.std.specs.Option.{ForSome};
ghost use Rattle.polcert_cells.specs.CommonRewards.{IsRewardRow};
ghost use Rattle.polcert_cells.specs.declared.common_reward.BaseRewards.TheVariants.{Common};
ghost use Rattle.polcert_cells.specs.declared.common_reward.RewardCell.{RewardCell as Exception};

/// A reward that differs from the common one. `observation` numbers what has it: an observation, or what the function that fills it in
/// says.
#[derive(Clone, Copy)]
pub struct RewardCell {
    pub observation: usize,
    pub reward: i64,
}

/// The reward that all but a few observations have in common (or end states, or both, as the function that finds it says).
#[derive(Clone, Copy)]
pub struct CommonReward {
    pub reward: i64,
    /// How many of the rewards that are filled in count: those that may differ.
    pub exceptions: usize,
}

/// What gives observations their rewards, all but a few.
#[derive(Clone, Copy)]
pub enum BaseRewards<'a> {
    /// All have this one.
    Common(i64),
    /// Each has its own in this list.
    Listed(&'a [i64]),
}

/// The rewards of all observations.
#[derive(Clone, Copy)]
pub struct RewardRow<'a> {
    pub base: BaseRewards<'a>,
    /// How many of the rewards that are filled in count: those that may differ from the base.
    pub exceptions: usize,
    /// The end states from that of these rewards to the one before this have the same rewards.
    pub until: usize,
}

impl RewardRow<'_> {
    /// Returns the reward that all observations are known to have. `None`: they may have several.
    pub fn constant(&self) -> Option<i64>
        ensures found { (h : ℤ) →
            (result ≡ Some h) ↔ ((self.now.base ≡ Common h) × (self.now.exceptions ≡ 0)) }
        ensures all { ForSome result (λ h. (r : ℕ → ℤ) (count : ℕ) (cells : List Exception) →
            IsRewardRow r count self.now cells → (z : ℕ) → z < count → r z ≡ h) }
    {
        if self.exceptions > 0 {
            return None;
        }
        match self.base {
            BaseRewards::Common(reward) => Some(reward),
            BaseRewards::Listed(_) => None,
        }
    }
}
