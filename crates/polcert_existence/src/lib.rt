//! Laws that every text has an answer.
#![tactic(auto)]

pub mod laws;
