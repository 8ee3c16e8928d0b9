//! The answer to three texts, and the run that writes it: a model, one vector for each of its actions, and belief points go in, and a
//! verdict on whether vectors and points bound every policy comes out.
#![tactic(auto)]

mod answer;
mod inputs;
pub mod laws;
mod lines;
mod raise;
mod runs;
mod verdict;

pub use answer::check_point_texts;
pub use raise::run_point_raise;
pub use runs::run_point_check;
pub use verdict::{PointBoundVerdict, status_of_point_verdict};
