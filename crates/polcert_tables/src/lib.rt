//! Models as they are kept: what the items of a text say, with sparse rows that sum to their scales and rules for rewards, and
//! filled tables.
#![tactic(auto)]

mod dense;
mod model;

pub use dense::{DenseModel, dense_of};
pub use model::{MOST_CELLS, Model, Preamble, build_model, count_or, row_of};
pub use polcert_rules::WrongRow;
