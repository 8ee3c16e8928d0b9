//! The check of a policy certificate: whether a policy graph earns what its vectors say.
#![tactic(auto)]

mod above;
mod check_input;
mod end_values;
mod ends;
mod even_rows;
mod expected_reward;
mod fault;
mod findings;
mod fit;
pub mod from_start;
pub mod laws;
pub mod laws_above;
mod lower;
mod node;
pub mod one_step;
mod raise;
mod shortfall;
mod start;
mod survey;

pub use above::{AboveVerdict, check_above, check_above_watched};
pub use fault::{LowerFault, RaiseFault};
pub use fit::fits;
pub use lower::{least_constant, lowered, lowered_watched};
pub use raise::{least_raise, raised, raised_watched};
pub use shortfall::{amount_short, millionths_short};
pub use start::{most_from_start, start_most, start_worth};
pub use survey::{NoProgress, Progress, Verdict, check, check_watched};
