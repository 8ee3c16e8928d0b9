//! What is given to find what a controller is worth from the starts near a model's.
ghost use Rattle.std.specs.Prelude.{◌≡◌, ◌≤◌};
ghost use Rattle.polcert_cells.specs.Meaning.{states_of};
ghost use Rattle.polcert_model.specs.Contents.{meaning};
ghost use Rattle.polcert_policy.specs.Vectors.{AreProperVectors};

use crate::distance::Spread;
use crate::side::Side;
use polcert_model::Model;
use polcert_policy::Vectors;

/// A model, which has the start, vectors, how far a start may lie from the model's, and from which side the values are bounds.
#[derive(Drop)]
pub(crate) struct StartInput<'a> {
    pub model: &'a Model,
    pub vectors: &'a Vectors,
    pub by: Spread,
    pub side: Side,
    ghost near: { by.parts ≤ 10_000_000_000 },
    ghost near_percent: { by.percent ≤ 100_000_000 },
    ghost states: { vectors.now.states ≡ states_of (meaning model.now) },
    ghost are_proper: { AreProperVectors vectors.now },
}
