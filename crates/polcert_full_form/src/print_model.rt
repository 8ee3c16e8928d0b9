//! Writes a model in full form: its preamble and its start, and in order the rows and rewards.
ghost use Rattle.std.specs.Prelude.{◌≡◌, ◌==◌, ◌||◌, ◌++◌, ◌<◌, length, codes, decimal};
ghost use Rattle.polcert_text.specs.Sink.{WritesText};
ghost use Rattle.polcert_tables.specs.Contents.{meaning};
ghost use Rattle.polcert_cells.specs.Meaning.{states_of};
ghost use Rattle.polcert_format.specs.Printable.{IsPrintable};
ghost use Rattle.polcert_format.specs.Text.{IsModelText};
ghost use Rattle.polcert_format.specs.FullForm.{for_each, all_below, full_form, observations_line};
ghost use Rattle.polcert_format.specs.FullForm.{observations_text, preamble_text, start_text};
ghost use Rattle.polcert_full_form.specs.Steps.Printing.{values_line, settings_text, elements_text, elements_line};
ghost use Rattle.polcert_full_form.specs.Steps.Printing.{name_text, share_of, chosen_text, share_text, after_blank};
ghost use Rattle.polcert_full_form.specs.Steps.StartForms.{start_word, start_part};

use crate::print_rewards::write_rewards;
use crate::print_rows::write_rows;
use crate::print_words::write_number;
use polcert_cells::{Elements, Kind, Names, Table};
use polcert_tables::Model;
use polcert_text::{Sink, SinkFailed, write_all, write_scaled};

/// What the line of the start lists, unless all states have the same share.
#[derive(Clone, Copy)]
enum StartForm {
    /// The states that have a share of 1.
    Chosen,
    /// The share of each state.
    Each,
}

impl StartForm {
    /// Returns the word that the line begins with.
    fn word(self) -> &'static [u8]
        ensures { result.now ≡ start_word self }
    {
        match self {
            StartForm::Chosen => b"start include:",
            StartForm::Each => b"start:",
        }
    }
}

/// Writes the full form of a model: the preamble, the start, each row of T and O, and the rewards that are
/// not all 0, with numbers in their shortest decimal form. Equal models have the same full form. `printable`
/// tells whether a model may be written.
///
/// # Errors
///
/// If the sink failed, which then took a beginning of the text.
pub fn write_model<W: Sink>(model: &Model, out: &mut W) -> Result<(), SinkFailed>
    requires printable { IsPrintable (meaning model.now).preamble }
    ensures written { WritesText W.writes W.failures out.old (full_form (meaning model.now)) result out.new }

    // The text is one of this model.
    ensures reads_back { IsModelText (full_form (meaning model.now)) (meaning model.now) }
{
    write_preamble(model, out)?;
    write_start(model, out)?;
    write_rows(model, Table::Transition, out)?;
    write_observation_rows(model, out)?;
    write_rewards(model, out)
}

/// Writes the rows of O, which an MDP leaves out.
fn write_observation_rows<W: Sink>(model: &Model, out: &mut W) -> Result<(), SinkFailed>
    ensures { WritesText W.writes W.failures out.old (observations_text (meaning model.now)) result out.new }
{
    if model.is_mdp() {
        Ok(())
    } else {
        write_rows(model, Table::Observation, out)
    }
}

/// Writes the lines before the start.
fn write_preamble<W: Sink>(model: &Model, out: &mut W) -> Result<(), SinkFailed>
    ensures { WritesText W.writes W.failures out.old (preamble_text (meaning model.now)) result out.new }
{
    write_settings(model, out)?;
    write_elements(b"states:", model.elements(Kind::State), out)?;
    write_elements(b"actions:", model.elements(Kind::Action), out)?;
    write_observations(model, out)
}

/// Writes the line of observations, which an MDP leaves out.
fn write_observations<W: Sink>(model: &Model, out: &mut W) -> Result<(), SinkFailed>
    ensures { WritesText W.writes W.failures out.old
        (observations_line (meaning model.now).preamble.observations) result out.new }
{
    match model.observations_line() {
        Some(elements) => write_elements(b"observations:", elements, out),
        None => Ok(()),
    }
}

/// Writes the lines of the discount and of the kind of values.
fn write_settings<W: Sink>(model: &Model, out: &mut W) -> Result<(), SinkFailed>
    ensures { WritesText W.writes W.failures out.old (settings_text (meaning model.now)) result out.new }
{
    write_all(out, b"discount: ")?;
    write_scaled(model.discount() as i64, out)?;
    write_all(out, b"\n")?;
    write_all(out, values_line(model.is_cost()))
}

/// Returns the line of the kind of values.
fn values_line(is_cost: bool) -> &'static [u8]
    ensures { result.now ≡ values_line is_cost }
{
    if is_cost {
        b"values: cost\n"
    } else {
        b"values: reward\n"
    }
}

/// Writes the line of the elements of one kind, after its word.
fn write_elements<W: Sink>(word: &[u8], elements: &Elements, out: &mut W) -> Result<(), SinkFailed>
    ensures { WritesText W.writes W.failures out.old (elements_line word.now elements.now) result out.new }
{
    write_all(out, word)?;
    write_element_words(elements, out)?;
    write_all(out, b"\n")
}

/// Writes a count, or names.
fn write_element_words<W: Sink>(elements: &Elements, out: &mut W) -> Result<(), SinkFailed>
    ensures { WritesText W.writes W.failures out.old (elements_text elements.now) result out.new }
{
    match elements {
        Elements::Count(count) => write_number_word(*count, out),
        Elements::Names(names) => write_names(names, out),
    }
}

/// Writes the names, a blank before each.
fn write_names<W: Sink>(names: &Names, out: &mut W) -> Result<(), SinkFailed>
    ensures { WritesText W.writes W.failures out.old
        (for_each (length names.now) (name_text names.now)) result out.new }
{
    for number in 0..names.len() {
        write_name(names, number, out)?;
    }
    Ok(())
}

/// Writes a blank and the name of this number.
fn write_name<W: Sink>(names: &Names, number: usize, out: &mut W) -> Result<(), SinkFailed>
    requires { number < length names.now }
    ensures { WritesText W.writes W.failures out.old (name_text names.now number) result out.new }
{
    match names.at(number) {
        Some(name) => {
            write_all(out, b" ")?;
            write_all(out, name.as_bytes())
        }
        None => unreachable!(),
    }
}

/// Writes a blank and a number.
fn write_number_word<W: Sink>(number: usize, out: &mut W) -> Result<(), SinkFailed>
    ensures { WritesText W.writes W.failures out.old (after_blank (decimal number)) result out.new }
{
    write_all(out, b" ")?;
    write_number(number, out)
}

/// Writes the start in the shortest form that says it.
fn write_start<W: Sink>(model: &Model, out: &mut W) -> Result<(), SinkFailed>
    ensures { WritesText W.writes W.failures out.old (start_text (meaning model.now).start) result out.new }
{
    if has_uniform_start(model) {
        write_all(out, b"start: uniform\n")
    } else if is_choice(model) {
        write_start_line(model, StartForm::Chosen, out)
    } else {
        write_start_line(model, StartForm::Each, out)
    }
}

/// Tests whether all states have a share of 1.
fn has_uniform_start(model: &Model) -> bool
    ensures { result ≡ all_below (states_of (meaning model.now))
        (λ s. share_of (meaning model.now).start s == 1) }
{
    for state in 0..model.states() {
        if model.start_weight(state) != 1 {
            return false;
        }
    }
    true
}

/// Tests whether all states have a share of 0 or 1.
fn is_choice(model: &Model) -> bool
    ensures { result ≡ all_below (states_of (meaning model.now))
        (λ s. share_of (meaning model.now).start s == 0 || share_of (meaning model.now).start s == 1) }
{
    for state in 0..model.states() {
        if model.start_weight(state) > 1 {
            return false;
        }
    }
    true
}

/// Writes the line of the states, in this form.
fn write_start_line<W: Sink>(model: &Model, form: StartForm, out: &mut W) -> Result<(), SinkFailed>
    ensures { WritesText W.writes W.failures out.old
        (start_word form ++ for_each (states_of (meaning model.now))
        (start_part form (meaning model.now).start) ++ codes "\n")
        result out.new }
{
    write_all(out, form.word())?;
    write_start_parts(model, form, out)?;
    write_all(out, b"\n")
}

/// Writes what a start line says of each state.
fn write_start_parts<W: Sink>(model: &Model, form: StartForm, out: &mut W) -> Result<(), SinkFailed>
    ensures { WritesText W.writes W.failures out.old
        (for_each (states_of (meaning model.now)) (start_part form (meaning model.now).start)) result
        out.new }
{
    for state in 0..model.states() {
        write_start_part(model, form, state, out)?;
    }
    Ok(())
}

/// Writes what a start line says of a state.
fn write_start_part<W: Sink>(
    model: &Model,
    form: StartForm,
    state: usize,
    out: &mut W,
) -> Result<(), SinkFailed>
    requires { state < states_of (meaning model.now) }
    ensures { WritesText W.writes W.failures out.old
        (start_part form (meaning model.now).start state) result out.new }
{
    match form {
        StartForm::Chosen => write_state_if_chosen(model, state, out),
        StartForm::Each => write_share(model, state, out),
    }
}

/// Writes the number of a state if it has a share, and else nothing.
fn write_state_if_chosen<W: Sink>(
    model: &Model,
    state: usize,
    out: &mut W,
) -> Result<(), SinkFailed>
    requires { state < states_of (meaning model.now) }
    ensures { WritesText W.writes W.failures out.old
        (chosen_text (meaning model.now).start state) result out.new }
{
    if model.start_weight(state) == 1 {
        write_number_word(state, out)
    } else {
        Ok(())
    }
}

/// Writes the probability of starting in a state.
fn write_share<W: Sink>(model: &Model, state: usize, out: &mut W) -> Result<(), SinkFailed>
    requires { state < states_of (meaning model.now) }
    ensures { WritesText W.writes W.failures out.old
        (share_text (meaning model.now).start state) result out.new }
{
    write_all(out, b" ")?;
    write_scaled(model.start_weight(state) as i64, out)
}
