//! The answer to three texts in every model near the first's, and the runs that write it: do the vectors bound what the graph earns in each
//! model whose probabilities and rewards lie within a distance of the text's, and by how much are they moved so that they do?
#![tactic(auto)]

mod inputs;
pub mod laws;
mod lines;
mod move_runs;
mod moves;
mod near;
mod near_task;
mod runs;
mod spread;
mod within;

pub use move_runs::{run_near_lower, run_near_raise};
pub use near_task::run_near_task;
pub use runs::{run_near_check, run_near_check_above};
pub use within::{MOST_DISTANCE, Within, distance_of, percent_of, reward_distance_of};
