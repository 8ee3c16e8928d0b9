//! An action and a state where vectors are checked.
ghost use Rattle.std.specs.Prelude.{◌<◌};
ghost use Rattle.polcert_policy.specs.Vectors.{AreProperVectors};
ghost use Rattle.polcert_optimum.specs.InformedCheck.{FitActions};

use polcert_cells::Cells;
use polcert_policy::Vectors;

/// A model's cells and one vector for each of its actions, with an action and a state of the model.
#[derive(Drop)]
pub(crate) struct ActionState<'a, C: Cells> {
    pub cells: &'a C,
    pub vectors: &'a Vectors,
    pub action: usize,
    pub state: usize,
    ghost fit: { FitActions (C.table cells.now) vectors.now },
    ghost proper: { AreProperVectors vectors.now },
    ghost action_within: { action < (C.table cells.now).actions },
    ghost state_within: { state < (C.table cells.now).states },
}
