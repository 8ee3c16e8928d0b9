//! Laws that a model, a graph and vectors have an answer, and so have the two texts of a bound.
#![tactic(auto)]

pub mod laws;
