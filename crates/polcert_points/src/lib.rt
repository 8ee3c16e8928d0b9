//! The bound by belief points: definitions, laws, and its check.
#![tactic(auto)]

mod belief;
mod belief_points;
mod best_worth;
mod cell_list;
mod charges;
mod checked_points;
mod compare;
mod cover;
mod later;
pub mod laws;
mod point_excess;
mod point_raise;
mod point_reward;
mod point_set;
mod point_verdict;
mod raised_points;
mod start_most;

pub use belief_points::BeliefPoints;
pub use best_worth::mass_of;
pub use point_raise::least_point_raise;
pub use point_set::ReadPoints;
pub use point_verdict::{PointVerdict, check_points, check_points_watched, fit_points};
pub use raised_points::RaisedPoints;
pub use start_most::most_from_points;
