//! Writes the rewards of a model's full form.
ghost use Rattle.std.specs.Prelude.{◌≡◌, ◌+◌, ◌-◌, ◌<◌, ◌≤◌, pos, get_or, length, unsigned_abs, EachIndex};
ghost use Rattle.polcert_text.specs.Numbers.{largest};
ghost use Rattle.polcert_text.specs.Sink.{WritesText};
ghost use Rattle.polcert_cells.specs.Elements.{most_elements};
ghost use Rattle.polcert_tables.specs.Contents.{meaning};
ghost use Rattle.polcert_cells.specs.Meaning.{states_of, actions_of};
ghost use Rattle.polcert_format.specs.FullForm.{for_each, written, rewards_from, rewards_text};
ghost use Rattle.polcert_full_form.specs.Steps.Printing.{reward_head, block_text, reward_rows, rewards_at};
ghost use Rattle.polcert_full_form.specs.Steps.Printing.{IsFilled};
ghost use Rattle.polcert_full_form.specs.Steps.PrintedRows.{row_width, row_rewards, rewarded_text, paid_row_text};

use crate::print_words::{write_head, write_number_at, write_zeros};
use crate::reward_row::WrittenRewards;
use polcert_cells::Table;
use polcert_tables::Model;
use polcert_text::{Sink, SinkFailed, write_all};

/// This many rewards of a row are read together.
const BLOCK: usize = 1024;

/// Writes the rows of rewards that are not all 0, by action, start state and end state; in an MDP by action
/// and start state.
pub(crate) fn write_rewards<W: Sink>(model: &Model, out: &mut W) -> Result<(), SinkFailed>
    ensures { WritesText W.writes W.failures out.old (rewards_text (meaning model.now)) result out.new }
{
    let mut block = [0; BLOCK];
    for action in 0..model.actions() {
        write_rewards_at(model, action, &mut block, out)?;
    }
    Ok(())
}

/// Writes the rows of rewards of an action. The block is room that each row is read into, here and in the functions below.
fn write_rewards_at<W: Sink>(
    model: &Model,
    action: usize,
    block: &mut [i64; BLOCK],
    out: &mut W,
) -> Result<(), SinkFailed>
    requires action { action < actions_of (meaning model.now) }
    ensures { WritesText W.writes W.failures out.old (rewards_at (meaning model.now) action) result out.new }
{
    for start in 0..model.states() {
        write_rewards_from(model, action, start, block, out)?;
    }
    Ok(())
}

/// Writes the rows of rewards of an action in a state, if an entry gives it any.
fn write_rewards_from<W: Sink>(
    model: &Model,
    action: usize,
    start: usize,
    block: &mut [i64; BLOCK],
    out: &mut W,
) -> Result<(), SinkFailed>
    requires action { action < actions_of (meaning model.now) }
    requires start { start < states_of (meaning model.now) }
    ensures { WritesText W.writes W.failures out.old
        (rewards_from (meaning model.now) action start) result out.new }
{
    if !model.has_rewards(action, start) {
        return Ok(());
    }
    let whole = WrittenRewards {
        model,
        action,
        start,
        end: None,
    };
    if model.is_mdp() {
        write_reward_row(&whole, block, out)
    } else {
        write_reward_rows(&whole, block, out)
    }
}

/// Writes the rows of rewards of an action in a state (those of `whole`), one for each end state whose rewards are not all 0.
fn write_reward_rows<W: Sink>(
    whole: &WrittenRewards<'_>,
    block: &mut [i64; BLOCK],
    out: &mut W,
) -> Result<(), SinkFailed>
    ensures { WritesText W.writes W.failures out.old
        (reward_rows (meaning whole.now.model.now) whole.now.action whole.now.start) result out.new }
{
    for end in 0..whole.model.states() {
        let row = WrittenRewards {
            model: whole.model,
            action: whole.action,
            start: whole.start,
            end: Some(end),
        };
        write_reward_row(&row, block, out)?;
    }
    Ok(())
}

/// Writes a row of rewards, if they are not all 0.
fn write_reward_row<W: Sink>(
    row: &WrittenRewards<'_>,
    block: &mut [i64; BLOCK],
    out: &mut W,
) -> Result<(), SinkFailed>
    ensures { WritesText W.writes W.failures out.old (paid_row_text row.now) result out.new }
{
    let Some(first) = row.first_paid(block) else {
        return Ok(());
    };
    write_reward_head(row, out)?;
    write_zeros(0, first, out)?;
    write_blocks(row, first, block, out)?;
    write_all(out, b"\n")
}

/// Writes the line of the indices of a row of rewards.
fn write_reward_head<W: Sink>(row: &WrittenRewards<'_>, out: &mut W) -> Result<(), SinkFailed>
    ensures { WritesText W.writes W.failures out.old
        (reward_head row.now.action row.now.start row.now.end) result out.new }
{
    match row.end {
        Some(end) => write_head(Table::Reward, &[row.action, row.start, end], out),
        None => write_head(Table::Reward, &[row.action, row.start], out),
    }
}

/// Writes the rewards of a row from column `first` on, of which the first block is read.
fn write_blocks<W: Sink>(
    row: &WrittenRewards<'_>,
    first: usize,
    block: &mut [i64],
    out: &mut W,
) -> Result<(), SinkFailed>
    requires room { 0 < length block.old }
    requires within { first ≤ row_width row.now }
    requires filled { IsFilled (row_rewards row.now) (row_width row.now) first block.old }
    ensures { WritesText W.writes W.failures out.old
        (for_each (row_width row.now - first) (λ i. rewarded_text row.now (first + i))) result out.new }
{
    let columns = row.columns();
    let mut column = first;
    while column < columns {
        let size = (columns - column).min(block.len());
        write_block(row.model.is_cost(), column, &block[..size], out)?;
        column += size;
        row.fill(column, block);
    }
    Ok(())
}

/// Writes rewards, the first in place `first` of the line, with the sign that the text gives them.
fn write_block<W: Sink>(
    is_cost: bool,
    first: usize,
    rewards: &[i64],
    out: &mut W,
) -> Result<(), SinkFailed>
    requires small { EachIndex rewards.now (λ z. unsigned_abs (get_or rewards.now z (pos 0)) ≤ largest) }
    requires room { first + length rewards.now ≤ most_elements }
    ensures { WritesText W.writes W.failures out.old
        (for_each (length rewards.now) (block_text is_cost first rewards.now)) result out.new }
{
    for number in 0..rewards.len() {
        write_number_at(
            first + number,
            written_reward(is_cost, rewards[number]),
            out,
        )?;
    }
    Ok(())
}

/// Returns what the text gives of a reward: minus the reward if it gives costs.
fn written_reward(is_cost: bool, reward: i64) -> i64
    requires { unsigned_abs reward ≤ largest }
    ensures { result ≡ written is_cost reward }
{
    if is_cost { -reward } else { reward }
}
