//! How far vectors have been read.
ghost use Rattle.std.specs.Prelude.{◌<◌, ◌≤◌};
ghost use Rattle.polcert_cells.specs.Elements.{most_states};
ghost use Rattle.polcert_policy.specs.Graphs.{most_nodes};

use crate::vectors::OpenSign;

/// Vectors that are read token by token: whole vectors, and `column` parts of the next, of which the first is its
/// action. The values are in millionths.
#[derive(Drop)]
pub struct VectorsReading {
    pub states: usize,
    pub node: usize,
    pub column: usize,
    pub values: Vec<i64>,
    pub sign: Option<OpenSign>,
    ghost some_states: { 1 ≤ states },
    ghost few_states: { states ≤ most_states },
    ghost column_within: { column ≤ states },
    ghost few: { node ≤ most_nodes },
    ghost few_begun: { 0 < column → node < most_nodes },
}
