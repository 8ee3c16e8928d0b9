//! What the tests of several crates take: texts, sources that give them in pieces, and readers and writers of a few bytes at a call.
#![tactic(auto)]

mod compare;
mod devices;
mod pieces;
mod refused;
mod texts;

pub use devices::{Endless, Failing, Giver, Taker};
pub use pieces::Pieces;
pub use refused::{RefusedModel, refused_models};
pub use texts::{
    ALWAYS_FIRST, COST, FIRST, FIRST_FORM, LISTENING, MDP, NUMBERED_MDP, TIGER, TIGER_FORM,
    TWO_STATES,
};
