//! The weights above 0 of points, in one list.
ghost use Rattle.std.specs.Prelude.{◌≡◌, ◌<◌, ◌≤◌, ◌++◌, ◌∷◌, [], OnOk, Some, length, slice_get};
ghost use Rattle.polcert_policy.specs.Steps.WeightRows.{FilledRows, IsPartOf, cells_in_part};
ghost use Rattle.polcert_cells.specs.declared.elements.Cell.{Cell as C};

use polcert_cells::Cell;
use std::alloc::{AllocError, Global};
use std::marker::Model;

/// Where a row begins in the list of cells, and where it ends.
#[derive(Clone, Copy)]
pub struct RowPart {
    pub start: usize,
    pub end: usize,
}

/// Rows of cells in one list, and a row that is being filled. Contracts see the cells of each.
#[derive(Drop)]
pub struct WeightRows {
    cells: Vec<Cell>,
    parts: Vec<RowPart>,
    /// Where the row begins that is being filled.
    start: usize,
}

impl Model for WeightRows {
    ghost use Rattle.std.specs.Prelude.{◌≤◌, All, drop, length, map};
    ghost use Rattle.polcert_policy.specs.Steps.WeightRows.{FilledRows, IsPartOf, cells_in_part};

    ghost Value = { FilledRows };

    ghost view = { λ r. record { rows = map (cells_in_part r.cells.items) r.parts.items; row = drop r.start r.cells.items } };

    ghost invariant = { λ r. All (IsPartOf r.cells.items) r.parts.items × (r.start ≤ length r.cells.items) };
}

impl WeightRows {
    /// Makes no rows.
    pub(crate) fn new(alloc: Global) -> WeightRows
        ensures { result ≡ (let r : FilledRows = record { rows = []; row = [] } in r) }
    {
        WeightRows {
            cells: Vec::new(alloc),
            parts: Vec::new(alloc),
            start: 0,
        }
    }

    /// Returns how many rows there are, without the one that is being filled.
    pub(crate) fn len(&self) -> usize
        ensures { result ≡ length self.now.rows }
    {
        self.parts.len()
    }

    /// Returns the cells of row `i`.
    pub(crate) fn row(&self, i: usize) -> &[Cell]
        requires { i < length self.now.rows }
        ensures { slice_get self.now.rows i ≡ Some result.now }
    {
        let part = self.parts[i];
        &self.cells[part.start..part.end]
    }

    /// Puts a cell at the end of the row that is being filled.
    pub(crate) fn push(&mut self, cell: Cell) -> Result<(), AllocError>
        ensures { OnOk result (self.new ≡ record self.old { row = self.old.row ++ cell ∷ [] }) }
    {
        self.cells.push(cell)?;
        Ok(())
    }

    /// Ends the row that is being filled, and begins the next.
    pub(crate) fn end_row(&mut self) -> Result<(), AllocError>
        ensures { OnOk result (self.new ≡ (let r : FilledRows =
            record { rows = self.old.rows ++ self.old.row ∷ []; row = [] } in r)) }
    {
        let end = self.cells.len();
        self.parts.push(RowPart {
            start: self.start,
            end,
        })?;
        self.start = end;
        Ok(())
    }
}
