//! The lines that the program writes on success.
ghost use Rattle.std.specs.Prelude.{◌≡◌};
ghost use Rattle.polcert_text.specs.Sink.{WritesText};
ghost use Rattle.polcert_model.specs.Contents.{meaning};
ghost use Rattle.polcert_answer.specs.Lines.{count_text, earnings_word, kind_word, observation_count_text, counts_text, discount_text, summary_line, pair_text, amount_line, at_least_line, at_most_line, lack_line, line_text};

use itoa::Buffer;
use polcert_model::Model;
use polcert_text::{BufferedSink, Sink, SinkFailed, write_all, write_scaled};

/// Writes the line that sums a model up, through a buffer, so that a sink that takes pieces whole is
/// written to once.
pub fn write_summary<W: Sink>(model: &Model, sink: &mut W) -> Result<(), SinkFailed>
    ensures { WritesText W.writes W.failures sink.old (summary_line (meaning model.now)) result sink.new }
{
    let mut buffered = BufferedSink::new(sink);
    write_summary_line(model, &mut buffered)?;
    buffered.flush()
}

/// Writes the line that sums a model up, piece by piece.
fn write_summary_line<W: Sink>(model: &Model, sink: &mut W) -> Result<(), SinkFailed>
    ensures { WritesText W.writes W.failures sink.old (summary_line (meaning model.now)) result sink.new }
{
    write_counts(model, sink)?;
    write_discount(model, sink)
}

/// Writes the kind of the model and its counts.
fn write_counts<W: Sink>(model: &Model, sink: &mut W) -> Result<(), SinkFailed>
    ensures { WritesText W.writes W.failures sink.old (counts_text (meaning model.now)) result sink.new }
{
    write_all(sink, kind_word(model.is_mdp()))?;
    write_count(model.states(), b" states, ", sink)?;
    write_count(model.actions(), b" actions, ", sink)?;
    write_observation_count(model, sink)
}

/// Returns the beginning of the line: whether the model is an MDP.
fn kind_word(is_mdp: bool) -> &'static [u8]
    ensures { result.now ≡ kind_word is_mdp }
{
    if is_mdp { b"mdp: " } else { b"pomdp: " }
}

/// Writes the count of observations, and nothing for an MDP.
fn write_observation_count<W: Sink>(model: &Model, sink: &mut W) -> Result<(), SinkFailed>
    ensures { WritesText W.writes W.failures sink.old
        (observation_count_text (meaning model.now)) result sink.new }
{
    if model.is_mdp() {
        Ok(())
    } else {
        write_count(model.observations(), b" observations, ", sink)
    }
}

/// Writes a count and the words after it.
pub fn write_count<W: Sink>(count: usize, words: &[u8], sink: &mut W) -> Result<(), SinkFailed>
    ensures { WritesText W.writes W.failures sink.old (count_text count words.now) result sink.new }
{
    let mut buffer = Buffer::new();
    write_all(sink, buffer.format(count).as_bytes())?;
    write_all(sink, words)
}

/// Writes the discount, and whether the text gives rewards or costs.
fn write_discount<W: Sink>(model: &Model, sink: &mut W) -> Result<(), SinkFailed>
    ensures { WritesText W.writes W.failures sink.old (discount_text (meaning model.now)) result sink.new }
{
    write_all(sink, b"discount ")?;
    write_scaled(model.discount() as i64, sink)?;
    write_all(sink, earnings_word(model.is_cost()))
}

/// Returns the end of the line: whether the text gives rewards or costs.
fn earnings_word(is_cost: bool) -> &'static [u8]
    ensures { result.now ≡ earnings_word is_cost }
{
    if is_cost { b", cost\n" } else { b", reward\n" }
}

/// What the line of a verdict says.
#[derive(Clone, Copy)]
pub enum VerdictLine {
    /// A yes: the node that is worth most from the start, and its worth there, in millionths.
    AtLeast {
        node: usize,
        worth: i64,
    },
    /// A yes from above: what no node is worth more than from the start, in millionths.
    AtMost {
        most: i64,
    },
    /// A no: the pair of a node and a state, and by how many millionths it is short.
    Short {
        node: usize,
        state: usize,
        by: i64,
    },
    /// A no from above: the pair, and by how many millionths it is long.
    Long {
        node: usize,
        state: usize,
        by: i64,
    },
    /// A no: the pair, and an observation for which the node has no successor.
    NoSuccessor {
        node: usize,
        state: usize,
        observation: usize,
    },
}

/// Writes the line of a verdict, through a buffer.
pub fn write_verdict<W: Sink>(line: VerdictLine, sink: &mut W) -> Result<(), SinkFailed>
    ensures { WritesText W.writes W.failures sink.old (line_text line) result sink.new }
{
    let mut buffered = BufferedSink::new(sink);
    write_verdict_line(line, &mut buffered)?;
    buffered.flush()
}

/// Writes the line of a verdict, piece by piece.
fn write_verdict_line<W: Sink>(line: VerdictLine, sink: &mut W) -> Result<(), SinkFailed>
    ensures { WritesText W.writes W.failures sink.old (line_text line) result sink.new }
{
    match line {
        VerdictLine::AtLeast { node, worth } => write_yes(node, worth, sink),
        VerdictLine::AtMost { most } => write_yes_above(most, sink),
        VerdictLine::Short { node, state, by } => {
            write_amount(node, state, b", short by ", by, sink)
        }
        VerdictLine::Long { node, state, by } => {
            write_amount(node, state, b", long by ", by, sink)
        }
        VerdictLine::NoSuccessor {
            node,
            state,
            observation,
        } => write_no_successor(node, state, observation, sink),
    }
}

/// Writes a yes: the node that is worth most, and its worth in millionths.
fn write_yes<W: Sink>(node: usize, worth: i64, sink: &mut W) -> Result<(), SinkFailed>
    ensures { WritesText W.writes W.failures sink.old (at_least_line node worth) result sink.new }
{
    write_all(sink, b"yes: start node ")?;
    write_count(node, b", at least ", sink)?;
    write_scaled(worth, sink)?;
    write_all(sink, b"\n")
}

/// Writes a yes from above: what no node is worth more than, in millionths.
fn write_yes_above<W: Sink>(most: i64, sink: &mut W) -> Result<(), SinkFailed>
    ensures { WritesText W.writes W.failures sink.old (at_most_line most) result sink.new }
{
    write_all(sink, b"yes: every start node, at most ")?;
    write_scaled(most, sink)?;
    write_all(sink, b"\n")
}

/// Writes a no: the pair of a node and a state, these words, and by how much it fails, in millionths.
fn write_amount<W: Sink>(
    node: usize,
    state: usize,
    words: &[u8],
    by: i64,
    sink: &mut W,
) -> Result<(), SinkFailed>
    ensures { WritesText W.writes W.failures sink.old (amount_line node state words.now by) result sink.new }
{
    write_pair(node, state, words, sink)?;
    write_scaled(by, sink)?;
    write_all(sink, b"\n")
}

/// Writes a no: the pair, and the observation for which the node has no successor.
fn write_no_successor<W: Sink>(
    node: usize,
    state: usize,
    observation: usize,
    sink: &mut W,
) -> Result<(), SinkFailed>
    ensures { WritesText W.writes W.failures sink.old (lack_line node state observation) result sink.new }
{
    write_pair(node, state, b", observation ", sink)?;
    write_count(observation, b" has no successor\n", sink)
}

/// Writes the beginning of a no, and the words after it.
fn write_pair<W: Sink>(
    node: usize,
    state: usize,
    words: &[u8],
    sink: &mut W,
) -> Result<(), SinkFailed>
    ensures { WritesText W.writes W.failures sink.old (pair_text node state words.now) result sink.new }
{
    write_all(sink, b"no: node ")?;
    write_count(node, b", state ", sink)?;
    write_count(state, words, sink)
}
