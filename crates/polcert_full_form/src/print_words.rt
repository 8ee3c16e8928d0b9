//! Writes the words and numbers that the lines of a model's full form are made of.
ghost use Rattle.std.specs.Prelude.{◌≡◌, ◌==◌, ◌++◌, ◌+◌, ◌≤◌, length, decimal, codes, if◌then◌else◌};
ghost use Rattle.polcert_text.specs.Sink.{WritesText};
ghost use Rattle.polcert_cells.specs.Elements.{most_elements};
ghost use Rattle.polcert_format.specs.FullForm.{for_each, table_word};
ghost use Rattle.polcert_full_form.specs.Steps.Printing.{mark_before, index_text, pattern_text, number_text, zeros_text};

use itoa::Buffer;
use polcert_cells::Table;
use polcert_text::{Sink, SinkFailed, write_all, write_scaled};

/// Writes a number in decimal.
pub(crate) fn write_number<W: Sink>(number: usize, out: &mut W) -> Result<(), SinkFailed>
    ensures { WritesText W.writes W.failures out.old (decimal number) result out.new }
{
    let mut buffer = Buffer::new();
    write_all(out, buffer.format(number).as_bytes())
}

/// Writes the word of a table and the indices of an entry, as `T: 0 : 1`.
pub(crate) fn write_pattern<W: Sink>(
    table: Table,
    indices: &[usize],
    out: &mut W,
) -> Result<(), SinkFailed>
    ensures { WritesText W.writes W.failures out.old (pattern_text table indices.now) result out.new }
{
    write_all(out, table_word(table))?;
    write_indices(indices, out)
}

/// Writes the word of a table and the indices of an entry as a line, after which its body follows.
pub(crate) fn write_head<W: Sink>(
    table: Table,
    indices: &[usize],
    out: &mut W,
) -> Result<(), SinkFailed>
    ensures { WritesText W.writes W.failures out.old
        (pattern_text table indices.now ++ codes "\n") result out.new }
{
    write_pattern(table, indices, out)?;
    write_all(out, b"\n")
}

/// Returns the word that begins an entry of the table.
fn table_word(table: Table) -> &'static [u8]
    ensures { result.now ≡ table_word table }
{
    match table {
        Table::Transition => b"T:",
        Table::Observation => b"O:",
        Table::Reward => b"R:",
    }
}

/// Writes indices with colons between them.
fn write_indices<W: Sink>(indices: &[usize], out: &mut W) -> Result<(), SinkFailed>
    ensures { WritesText W.writes W.failures out.old
        (for_each (length indices.now) (index_text indices.now)) result out.new }
{
    for number in 0..indices.len() {
        write_index(number, indices[number], out)?;
    }
    Ok(())
}

/// Writes an index after what separates it from the one before.
fn write_index<W: Sink>(number: usize, index: usize, out: &mut W) -> Result<(), SinkFailed>
    ensures { WritesText W.writes W.failures out.old (mark_before number ++ decimal index) result out.new }
{
    write_all(out, text_at_place(number, b" ", b" : "))?;
    write_number(index, out)
}

/// Writes the number in this place of a line, in millionths.
pub(crate) fn write_number_at<W: Sink>(
    place: usize,
    scaled: i64,
    out: &mut W,
) -> Result<(), SinkFailed>
    ensures { WritesText W.writes W.failures out.old (number_text place scaled) result out.new }
{
    write_all(out, text_at_place(place, b"", b" "))?;
    write_scaled(scaled, out)
}

/// Writes `count` zeros, from place `first` of a line on.
pub(crate) fn write_zeros<W: Sink>(
    first: usize,
    count: usize,
    out: &mut W,
) -> Result<(), SinkFailed>
    requires { first + count ≤ most_elements }
    ensures { WritesText W.writes W.failures out.old (zeros_text first count) result out.new }
{
    for number in 0..count {
        write_all(out, text_at_place(first + number, b"0", b" 0"))?;
    }
    Ok(())
}

/// Returns `first` in place 0 of a line, and `other` in the places after it.
fn text_at_place(place: usize, first: &'static [u8], other: &'static [u8]) -> &'static [u8]
    ensures { result.now ≡ if place == 0 then first.now else other.now }
{
    if place == 0 { first } else { other }
}
