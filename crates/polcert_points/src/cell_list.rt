//! Room for a list of cells.
ghost use Rattle.std.specs.Prelude.{◌≡◌, length};
ghost use Rattle.polcert_cells.specs.declared.elements.TheConstants.{MOST_STATES};

use polcert_cells::{Cell, MOST_STATES};

/// Room for a cell for each state.
#[derive(Drop)]
pub(crate) struct CellList {
    pub cells: [Cell; MOST_STATES],
    ghost room: { length cells ≡ MOST_STATES },
}

impl CellList {
    pub(crate) fn new() -> Self {
        CellList {
            cells: [Cell {
                column: 0,
                weight: 0,
            }; MOST_STATES],
        }
    }
}
