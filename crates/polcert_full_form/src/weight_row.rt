//! A row of T or O that is written.
ghost use Rattle.std.specs.Prelude.{◌≡◌, ◌<◌};
ghost use Rattle.polcert_cells.specs.Elements.{most_elements};
ghost use Rattle.polcert_cells.specs.Meaning.{IsCount, states_of, actions_of};
ghost use Rattle.polcert_cells.specs.Preamble.{columns as columns_in};
ghost use Rattle.polcert_cells.specs.Rows.{IsWeighted};
ghost use Rattle.polcert_tables.specs.Contents.{meaning};
ghost use Rattle.polcert_tables.specs.Steps.RowSums.{row_of};
ghost use Rattle.polcert_full_form.specs.Steps.Printing.{AreSmallWeights, IsWeighted-prop};

use polcert_cells::{Row, Table};
use polcert_tables::{Model, row_of};

/// The row of a table of weights at an action and a state.
#[derive(Drop)]
pub(crate) struct WeightRow<'a> {
    pub model: &'a Model,
    pub table: Table,
    pub action: usize,
    pub state: usize,
    pub columns: usize,
    ghost weighted: { IsWeighted table } by { IsWeighted-prop table },
    ghost at_action: { action < actions_of (meaning model.now) },
    ghost at_state: { state < states_of (meaning model.now) },
    ghost width: { columns ≡ columns_in model.now.kept.preamble table },
    ghost count: { IsCount most_elements columns },
    ghost small: { AreSmallWeights columns (row_of model.now.kept table action state) },
}

/// How the columns of a row are written.
#[derive(Clone, Copy)]
pub(crate) enum ColumnForm {
    /// Their probabilities, in one line.
    Decimals,
    /// After `uniform`: a line for each column whose weight differs from it.
    Cells,
}

impl<'a> WeightRow<'a> {
    ghost use Rattle.polcert_cells.specs.BorrowedRows.{IsRowOf};
    ghost use Rattle.polcert_full_form.specs.Steps.PrintedRows.{row_weights};

    /// Returns the weights, by column.
    pub(crate) fn weights(&self) -> Row<'a>
        ensures { IsRowOf (row_weights self.now) self.now.columns result }
    {
        row_of(self.model, self.table, self.action, self.state)
    }
}
