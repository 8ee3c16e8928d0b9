//! The full form of a model: how it is written, and that it reads back as an equal model.
#![tactic(auto)]

pub mod laws;
mod print_model;
mod print_rewards;
mod print_rows;
mod print_words;
mod reward_row;
mod weight_row;

pub use print_model::write_model;
