//! What a check of one step is made of, for crates that check other bounds: the walks over rows, the expected reward, and the sums.
pub use crate::end_values::{is_same_row, next_end, next_observation};
pub use crate::expected_reward::{RewardBuffer, expected_reward, weigh};
pub use crate::shortfall::{ceil_quotient, shortfall, small_quotient};
