//! What a mean over a model's start is made of, for crates that bound other policies.
pub use crate::start::{ceil_mean, start_term};
