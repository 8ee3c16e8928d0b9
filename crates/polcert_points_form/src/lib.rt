//! The full form of belief points: how they are written, with each value raised by one constant, and that it reads back.
#![tactic(auto)]

mod print_points;
mod room;
mod row_walk;

pub use print_points::write_raised_points;
pub use room::room_above;
