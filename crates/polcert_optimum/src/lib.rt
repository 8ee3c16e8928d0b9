//! Bounds on what the policies of a model can earn: the definitions, the laws that the bounds hold, and the check of the fast informed
//! bound, one vector for each action.
#![tactic(auto)]

mod best_values;
mod excess;
mod fault;
pub mod laws;
mod observation_sums;
mod pair;
mod raise;
mod seen_start;
mod uninformative;
mod verdict;

pub use fault::InformedRaiseFault;
pub use raise::least_informed_raise;
pub use seen_start::{bound_most_from_start, seen_most_from_start};
pub use verdict::{InformedVerdict, check_informed, check_informed_watched, fit_actions};
