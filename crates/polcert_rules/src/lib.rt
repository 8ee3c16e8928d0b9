//! The rows of T and O, sparse, and the rewards as rules, made from an index of entries by their patterns.
#![tactic(auto)]

mod fitting_rules;
mod index;
mod named_noting;
mod named_rules;
mod reward_bodies;
mod rewards;
mod row;
mod row_rules;
mod row_store;
mod rows;
mod zeros;

pub use index::{Index, Rule};
pub use rewards::{RewardShape, Rewards};
pub use rows::{Rows, Shape, WrongRow};
