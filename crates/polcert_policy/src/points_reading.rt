//! How far belief points have been read.
ghost use Rattle.std.specs.Prelude.{◌≡◌, ℕ, ◌*◌, ◌<◌, ◌≤◌};
ghost use Rattle.polcert_cells.specs.Elements.{most_states, most_actions, most_observations};
ghost use Rattle.polcert_policy.specs.declared.points_reading.PointField.TheVariants as fields;

use crate::graph::{MinusSign, Successor};
use crate::vectors::OpenSign;
use crate::weight_rows::WeightRows;

/// The field of a point that comes next: its number, the weight of a state, the value of an action, or the point that is named for an
/// action and an observation.
#[derive(Clone, Copy)]
pub enum PointField {
    Number,
    Weight(usize),
    Value(usize),
    Name { action: usize, observation: usize },
}

/// Points that are read token by token. Weights and values are in millionths.
#[derive(Drop)]
pub struct PointsReading {
    pub states: usize,
    pub actions: usize,
    pub observations: usize,
    pub field: PointField,
    pub sign: Option<OpenSign>,
    pub minus: Option<MinusSign>,
    pub mass: u64,
    pub rows: WeightRows,
    pub values: Vec<i64>,
    pub names: Vec<Successor>,
    ghost some_states: { 1 ≤ states },
    ghost few_states: { states ≤ most_states },
    ghost some_actions: { 1 ≤ actions },
    ghost few_actions: { actions ≤ most_actions },
    ghost some_observations: { 1 ≤ observations },
    ghost few_observations: { observations ≤ most_observations },
    ghost state_within: { (s : ℕ) → field ≡ fields.Weight s → s < states },
    ghost action_within: { (a : ℕ) → field ≡ fields.Value a → a < actions },
    ghost named_action_within: { (a z : ℕ) → field ≡ fields.Name a z → a < actions },
    ghost observation_within: { (a z : ℕ) → field ≡ fields.Name a z → z < observations },
    ghost small: { (s : ℕ) → field ≡ fields.Weight s → mass ≤ s * 1_000_000 },
}
