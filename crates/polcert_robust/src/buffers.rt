//! Room for the rows of a pair.
ghost use Rattle.std.specs.Prelude.{◌≡◌, length};
ghost use Rattle.polcert_cells.specs.declared.elements.TheConstants.{MOST_OBSERVATIONS};

use crate::end_means::EndMeans;
use polcert_cells::MOST_OBSERVATIONS;

/// Room for a row of T or of O and for what its places are worth, and the means at end states.
// (One row is gathered after the other, so that the program runs on a small stack.)
#[derive(Drop)]
pub(crate) struct PairBuffers {
    pub weights: [u64; MOST_OBSERVATIONS],
    pub values: [i128; MOST_OBSERVATIONS],
    pub ends: EndMeans,
    ghost room_for_weights: { length weights ≡ MOST_OBSERVATIONS },
    ghost room_for_values: { length values ≡ MOST_OBSERVATIONS },
}

impl PairBuffers {
    pub(crate) fn new() -> Self {
        PairBuffers {
            weights: [0; MOST_OBSERVATIONS],
            values: [0; MOST_OBSERVATIONS],
            ends: EndMeans::new(),
        }
    }
}
