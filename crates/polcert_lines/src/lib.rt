//! The lines that the programs print on standard error.
#![tactic(auto)]

mod ending;
mod refusal;

pub use ending::{end_bound_run, end_run};
pub use refusal::{BoundRefusalLine, LoweredLine, RaisedLine, RefusalLine};
