//! The line of a verdict in every model near the text's: what it says, and how it is written.
ghost use Rattle.std.specs.Prelude.{◌≡◌, [], codes, if◌then◌else◌};
ghost use Rattle.polcert_text.specs.Sink.{WritesText};
ghost use Rattle.polcert_answer.specs.Lines.{amount_line, lack_line, pair_text};
ghost use Rattle.polcert_robust_answer.specs.Lines.{line_text, models_words, most_line, nearness_words, rewards_words, worth_line};

use crate::within::Within;
use polcert_answer::write_count;
use polcert_text::{BufferedSink, Sink, SinkFailed, write_all, write_scaled};

/// What the line of a verdict says.
#[derive(Clone, Copy, Debug, PartialEq, Eq)]
pub(crate) enum NearLine {
    /// A yes for every model within: the node that is worth most from its worst start, and its worth there, in millionths.
    AtLeast {
        node: usize,
        worth: i64,
    },
    /// A yes from above: what no node is worth more than from any start within, in millionths.
    AtMost {
        most: i64,
    },
    /// A no: the pair of a node and a state, and by how many millionths it is short in the worst case.
    Short {
        node: usize,
        state: usize,
        by: i64,
    },
    /// A no from above: the pair, and by how many millionths it is long.
    Long {
        node: usize,
        state: usize,
        by: i64,
    },
    /// A no: the pair, and an observation for which the node has no successor.
    NoSuccessor {
        node: usize,
        state: usize,
        observation: usize,
    },
}

/// Writes the line of a verdict, through a buffer.
pub(crate) fn write_near_verdict<W: Sink>(
    within: &Within<'_>,
    line: NearLine,
    sink: &mut W,
) -> Result<(), SinkFailed>
    ensures { WritesText W.writes W.failures sink.old (line_text within.now line) result sink.new }
{
    let mut buffered = BufferedSink::new(sink);
    write_line(within, line, &mut buffered)?;
    buffered.flush()
}

/// Writes the line of a verdict, piece by piece.
fn write_line<W: Sink>(within: &Within<'_>, line: NearLine, sink: &mut W) -> Result<(), SinkFailed>
    ensures { WritesText W.writes W.failures sink.old (line_text within.now line) result sink.new }
{
    match line {
        NearLine::AtLeast { node, worth } => write_worth(within, node, worth, sink),
        NearLine::AtMost { most } => write_most(within, most, sink),
        NearLine::Short { node, state, by } => write_near_amount(
            node,
            state,
            b", short by ",
            by,
            sink,
        ),
        NearLine::Long { node, state, by } => write_near_amount(
            node,
            state,
            b", long by ",
            by,
            sink,
        ),
        NearLine::NoSuccessor {
            node,
            state,
            observation,
        } => write_near_lack(node, state, observation, sink),
    }
}

/// Writes a yes: the node that is worth most from its worst start, and its worth there, in millionths.
fn write_worth<W: Sink>(
    within: &Within<'_>,
    node: usize,
    worth: i64,
    sink: &mut W,
) -> Result<(), SinkFailed>
    ensures { WritesText W.writes W.failures sink.old (worth_line within.now node worth) result sink.new }
{
    write_models(within, sink)?;
    write_all(sink, b", start node ")?;
    write_count(node, b", at least ", sink)?;
    write_scaled(worth, sink)?;
    write_all(sink, b"\n")
}

/// Writes a yes from above: what no node is worth more than from any start within, in millionths.
fn write_most<W: Sink>(within: &Within<'_>, most: i64, sink: &mut W) -> Result<(), SinkFailed>
    ensures { WritesText W.writes W.failures sink.old (most_line within.now most) result sink.new }
{
    write_models(within, sink)?;
    write_all(sink, b", every start node, at most ")?;
    write_scaled(most, sink)?;
    write_all(sink, b"\n")
}

/// Writes the beginning of a yes: the distances, as they were typed.
fn write_models<W: Sink>(within: &Within<'_>, sink: &mut W) -> Result<(), SinkFailed>
    ensures { WritesText W.writes W.failures sink.old (models_words within.now) result sink.new }
{
    write_all(sink, b"yes: every model within ")?;
    write_nearness(within, sink)?;
    write_rewards_within(within, sink)
}

/// Writes the distance of probabilities.
fn write_nearness<W: Sink>(within: &Within<'_>, sink: &mut W) -> Result<(), SinkFailed>
    ensures { WritesText W.writes W.failures sink.old (nearness_words within.now) result sink.new }
{
    write_all(sink, within.text)?;
    write_all(sink, unit_of(within.is_percent))
}

/// Returns ` %` for a percentage, and else nothing.
fn unit_of(is_percent: bool) -> &'static [u8]
    ensures { result.now ≡ (if is_percent then codes " %" else []) }
{
    if is_percent { b" %" } else { b"" }
}

/// Writes the distance of rewards, unless it is 0: then rewards are known.
fn write_rewards_within<W: Sink>(within: &Within<'_>, sink: &mut W) -> Result<(), SinkFailed>
    ensures { WritesText W.writes W.failures sink.old (rewards_words within.now) result sink.new }
{
    if within.rewards_by == 0 {
        return Ok(());
    }
    write_all(sink, b", rewards within ")?;
    write_all(sink, within.rewards_text)
}

/// Writes a no: the pair of a node and a state, these words, and by how much it fails, in millionths.
fn write_near_amount<W: Sink>(
    node: usize,
    state: usize,
    words: &[u8],
    by: i64,
    sink: &mut W,
) -> Result<(), SinkFailed>
    ensures { WritesText W.writes W.failures sink.old (amount_line node state words.now by) result sink.new }
{
    write_near_pair(node, state, words, sink)?;
    write_scaled(by, sink)?;
    write_all(sink, b"\n")
}

/// Writes a no: the pair, and the observation for which the node has no successor.
fn write_near_lack<W: Sink>(
    node: usize,
    state: usize,
    observation: usize,
    sink: &mut W,
) -> Result<(), SinkFailed>
    ensures { WritesText W.writes W.failures sink.old (lack_line node state observation) result sink.new }
{
    write_near_pair(node, state, b", observation ", sink)?;
    write_count(observation, b" has no successor\n", sink)
}

/// Writes the beginning of a no, and the words after it.
fn write_near_pair<W: Sink>(
    node: usize,
    state: usize,
    words: &[u8],
    sink: &mut W,
) -> Result<(), SinkFailed>
    ensures { WritesText W.writes W.failures sink.old (pair_text node state words.now) result sink.new }
{
    write_all(sink, b"no: node ")?;
    write_count(node, b", state ", sink)?;
    write_count(state, words, sink)
}
