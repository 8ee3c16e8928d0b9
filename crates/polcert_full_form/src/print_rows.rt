//! Writes the rows of T and O of a model's full form.
ghost use Rattle.std.specs.Prelude.{◌≡◌, ◌++◌, ◌*◌, ◌+◌, ◌-◌, ◌/◌, ◌<◌, ◌≤◌, pos, codes};
ghost use Rattle.polcert_text.specs.Sink.{WritesText};
ghost use Rattle.polcert_tables.specs.Contents.{meaning};
ghost use Rattle.polcert_cells.specs.Meaning.{states_of, actions_of};
ghost use Rattle.polcert_cells.specs.Numbers.{one};
ghost use Rattle.polcert_cells.specs.Rows.{IsWeighted};
ghost use Rattle.polcert_format.specs.FullForm.{for_each, is_uniform, is_decimal};
ghost use Rattle.polcert_full_form.specs.Steps.Printing.{cell_line, printed_row, rows_at, rows_text};
ghost use Rattle.polcert_full_form.specs.Steps.PrintedRows.{row_weights, row_body, column_text, zeros_from};

use crate::print_words::{write_head, write_number_at, write_pattern, write_zeros};
use crate::weight_row::{ColumnForm, WeightRow};
use polcert_cells::{ONE, Step, Table};
use polcert_tables::Model;
use polcert_text::{Sink, SinkFailed, write_all, write_scaled};

/// Writes the rows of T or O, by action and state.
pub(crate) fn write_rows<W: Sink>(
    model: &Model,
    table: Table,
    out: &mut W,
) -> Result<(), SinkFailed>
    requires { IsWeighted table }
    ensures { WritesText W.writes W.failures out.old (rows_text model.now.kept table) result out.new }
{
    for action in 0..model.actions() {
        write_rows_at(model, table, action, out)?;
    }
    Ok(())
}

/// Writes the rows of an action.
fn write_rows_at<W: Sink>(
    model: &Model,
    table: Table,
    action: usize,
    out: &mut W,
) -> Result<(), SinkFailed>
    requires weighted { IsWeighted table }
    requires action { action < actions_of (meaning model.now) }
    ensures { WritesText W.writes W.failures out.old (rows_at model.now.kept table action) result out.new }
{
    for state in 0..model.states() {
        write_row(model, table, action, state, out)?;
    }
    Ok(())
}

/// Writes the row of an action and a state.
fn write_row<W: Sink>(
    model: &Model,
    table: Table,
    action: usize,
    state: usize,
    out: &mut W,
) -> Result<(), SinkFailed>
    requires weighted { IsWeighted table }
    requires action { action < actions_of (meaning model.now) }
    requires state { state < states_of (meaning model.now) }
    ensures { WritesText W.writes W.failures out.old
        (printed_row model.now.kept table action state) result out.new }
{
    let row = WeightRow {
        model,
        table,
        action,
        state,
        columns: model.columns(table),
    };
    write_head(table, &[action, state], out)?;
    write_body(&row, out)
}

/// Writes the body of a row in the first form that gives it exactly: `uniform`, a line of numbers, or `uniform` and single cells.
fn write_body<W: Sink>(row: &WeightRow<'_>, out: &mut W) -> Result<(), SinkFailed>
    ensures { WritesText W.writes W.failures out.old (row_body row.now) result out.new }
{
    if is_uniform(row) {
        write_all(out, b"uniform\n")
    } else if is_decimal(row) {
        write_decimals_line(row, out)
    } else {
        write_uniform_and_cells(row, out)
    }
}

/// Tests whether all columns have the same weight, so that the row's body is `uniform`.
fn is_uniform(row: &WeightRow<'_>) -> bool
    ensures { result ≡ is_uniform row.now.columns (row_weights row.now) }
{
    let weights = row.weights();
    let mut column = 0;
    let mut at = 0;
    while let Some(step) = weights.step(at) {
        if step.column != column {
            return false;
        }
        if step.weight != ONE {
            return false;
        }
        column = step.column + 1;
        at = step.next;
    }
    column == row.columns
}

/// Tests whether each weight is a whole number of millionths, so that the row's body is a line of numbers.
fn is_decimal(row: &WeightRow<'_>) -> bool
    ensures { result ≡ is_decimal row.now.columns (row_weights row.now) }
{
    let weights = row.weights();
    let columns = row.columns as u64;
    let mut at = 0;
    while let Some(step) = weights.step(at) {
        if step.weight % columns != 0 {
            return false;
        }
        at = step.next;
    }
    true
}

/// Writes the line of the probabilities of a row.
fn write_decimals_line<W: Sink>(row: &WeightRow<'_>, out: &mut W) -> Result<(), SinkFailed>
    ensures { WritesText W.writes W.failures out.old
        (for_each row.now.columns (column_text ColumnForm.Decimals row.now) ++ codes "\n") result out.new }
{
    write_columns(row, ColumnForm::Decimals, out)?;
    write_all(out, b"\n")
}

/// Writes `uniform`, and then a line for each column that has a different weight.
fn write_uniform_and_cells<W: Sink>(row: &WeightRow<'_>, out: &mut W) -> Result<(), SinkFailed>
    ensures { WritesText W.writes W.failures out.old
        (codes "uniform\n" ++ for_each row.now.columns (column_text ColumnForm.Cells row.now)) result
        out.new }
{
    write_all(out, b"uniform\n")?;
    write_columns(row, ColumnForm::Cells, out)
}

/// Writes the columns of a row, by its weights above 0 and the columns between them.
fn write_columns<W: Sink>(
    row: &WeightRow<'_>,
    form: ColumnForm,
    out: &mut W,
) -> Result<(), SinkFailed>
    ensures { WritesText W.writes W.failures out.old
        (for_each row.now.columns (column_text form row.now)) result out.new }
{
    let weights = row.weights();
    let mut column = 0;
    let mut at = 0;
    while let Some(step) = weights.step(at) {
        write_columns_to(row, form, column, step, out)?;
        column = step.column + 1;
        at = step.next;
    }
    write_zero_columns(row, form, column, row.columns - column, out)
}

/// Writes the columns from `column` up to that of a step, of which all but the last are 0.
fn write_columns_to<W: Sink>(
    row: &WeightRow<'_>,
    form: ColumnForm,
    column: usize,
    step: Step,
    out: &mut W,
) -> Result<(), SinkFailed>
    requires ahead { column ≤ step.column }
    requires within { step.column < row.now.columns }
    requires weight { step.weight ≡ row_weights row.now step.column }
    ensures { WritesText W.writes W.failures out.old
        (zeros_from form row.now column (step.column - column) ++ column_text form row.now step.column)
        result out.new }
{
    write_zero_columns(row, form, column, step.column - column, out)?;
    write_column(row, form, step, out)
}

/// Writes `count` columns that are 0, from column `first` on.
fn write_zero_columns<W: Sink>(
    row: &WeightRow<'_>,
    form: ColumnForm,
    first: usize,
    count: usize,
    out: &mut W,
) -> Result<(), SinkFailed>
    requires { first + count ≤ row.now.columns }
    ensures { WritesText W.writes W.failures out.old (zeros_from form row.now first count) result out.new }
{
    match form {
        ColumnForm::Decimals => write_zeros(first, count, out),
        ColumnForm::Cells => write_zero_cells(row, first, count, out),
    }
}

/// Writes the lines of `count` cells that are 0, from column `first` on.
fn write_zero_cells<W: Sink>(
    row: &WeightRow<'_>,
    first: usize,
    count: usize,
    out: &mut W,
) -> Result<(), SinkFailed>
    requires { first + count ≤ row.now.columns }
    ensures { WritesText W.writes W.failures out.old (zeros_from ColumnForm.Cells row.now first count) result
        out.new }
{
    for number in 0..count {
        write_cell_line(row, first + number, 0, out)?;
    }
    Ok(())
}

/// Writes the column of a step: its number in a line, or a line for it, unless `uniform` has given it already.
fn write_column<W: Sink>(
    row: &WeightRow<'_>,
    form: ColumnForm,
    step: Step,
    out: &mut W,
) -> Result<(), SinkFailed>
    requires within { step.column < row.now.columns }
    requires weight { step.weight ≡ row_weights row.now step.column }
    ensures { WritesText W.writes W.failures out.old (column_text form row.now step.column) result out.new }
{
    let scaled = millionths_of(step.weight, row.columns);
    match form {
        ColumnForm::Decimals => write_number_at(step.column, scaled, out),
        ColumnForm::Cells => if step.weight == ONE {
            Ok(())
        } else {
            write_cell_line(row, step.column, scaled, out)
        },
    }
}

/// Returns the probability of a weight in a row of this many columns, in millionths.
fn millionths_of(weight: u64, columns: usize) -> i64
    requires some { 0 < columns }
    requires small { weight ≤ one * columns }
    ensures { result ≡ pos (weight / columns) }
{
    (weight / columns as u64) as i64
}

/// Writes the line of the cell in this column.
fn write_cell_line<W: Sink>(
    row: &WeightRow<'_>,
    column: usize,
    scaled: i64,
    out: &mut W,
) -> Result<(), SinkFailed>
    ensures { WritesText W.writes W.failures out.old
        (cell_line row.now.table row.now.action row.now.state column scaled) result out.new }
{
    write_pattern(row.table, &[row.action, row.state, column], out)?;
    write_all(out, b" ")?;
    write_scaled(scaled, out)?;
    write_all(out, b"\n")
}
