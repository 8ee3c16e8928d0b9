//! Worked examples of the definitions. No crate depends on this one.
#![tactic(auto)]

mod belief_examples;
mod examples;

pub use belief_examples::{doors_are_changed, tiger_is_heard};
pub use examples::{
    a_missing_successor, decimals_of_thirds, discount_above_one, full_form_of_an_mdp,
    listening_once_earns, minus_one_for_each_step, reward_order, reward_patterns,
    single_cells_after_uniform, starts, tiger_is_bounded, tiger_problem, uniform_thirds,
};
