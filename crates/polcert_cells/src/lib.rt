//! What models say of their cells: elements, entries and their values, and what a check asks of a model.
#![tactic(auto)]

mod cells;
mod common_reward;
mod elements;
mod entries;
mod words;

pub use cells::{Cells, Row, Step, excepted_weight, first_weight};
pub use common_reward::{BaseRewards, CommonReward, RewardCell, RewardRow};
pub use elements::{
    Cell, Elements, Kind, MOST_ACTIONS, MOST_ELEMENTS, MOST_OBSERVATIONS, MOST_STATES, Names, ONE,
    StartWeights,
};
pub use entries::{
    Body, BodyRef, Entries, Entry, EntryBodies, EntryPlaces, EntryRef, Place, Places, RewardBody,
    Sequence, Table,
};
pub use words::{Topic, begun_topic, is_reserved, is_word};
