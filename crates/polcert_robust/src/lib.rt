//! Bounds that hold for every model near one: the probabilities and rewards are known only within intervals.
#![tactic(auto)]

mod buffers;
mod distance;
mod end_means;
mod findings;
mod known_rewards;
pub mod laws;
mod level;
mod pair;
mod robust_input;
mod robust_lower;
mod robust_raise;
mod side;
mod start;
mod start_input;
mod survey;
mod verdict;
mod verdict_above;
mod walk;

pub use distance::{Distance, Spread};
pub use robust_lower::{least_robust_constant, lowered_robustly};
pub use robust_raise::{least_robust_raise, raised_robustly};
pub use start::{scaled_start_total, start_most_near, start_worth_near};
pub use verdict::{check_robust, check_robust_watched};
pub use verdict_above::{check_robust_above, check_robust_above_watched};
