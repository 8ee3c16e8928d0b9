//! What a model's text is: its items and what is right of them, what it denotes, why a text is refused and where, and the
//! full form; with the laws of these definitions.
#![tactic(auto)]

mod fault;
pub mod laws;

pub use fault::{ItemFault, ModelFault};
