//! The answer to two texts, and the runs that write it: a model and one vector for each of its actions go in, and a verdict on whether
//! they bound every policy, or raised vectors, come out.
#![tactic(auto)]

mod answer;
mod inputs;
pub mod laws;
mod lines;
mod raise;
mod runs;
mod status;

pub use answer::check_bound_texts;
pub use inputs::{BoundInputs, read_bound_inputs};
pub use lines::{BoundLine, write_bound_verdict};
pub use raise::run_bound_raise;
pub use runs::run_bound_check;
pub use status::status_of_bound_verdict;
