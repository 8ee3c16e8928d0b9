//! Writes vectors in full form.
ghost use Rattle.std.specs.Prelude.{◌≡◌, ◌<◌};
ghost use Rattle.polcert_text.specs.Sink.{WritesText};
ghost use Rattle.polcert_policy.specs.Graphs.{nodes};
ghost use Rattle.polcert_policy.specs.VectorText.{IsVectorsText, IsRoundedVectorsText};
ghost use Rattle.polcert_policy.specs.FullForm.{value_text, values_text, action_line, vector_text, vectors_text};

use crate::graph::Graph;
use crate::vectors::Vectors;
use itoa::Buffer;
use polcert_text::{Rounding, Sink, SinkFailed, write_all, write_scaled_then};

/// Writes the vectors of a graph in full form: for each node its action on a line, its values on a line with one blank
/// between, and an empty line. Values are written as decimal numbers without trailing zeros.
///
/// # Errors
///
/// If the sink failed, which then took a beginning of the text.
pub fn write_vectors<W: Sink>(
    graph: &Graph,
    vectors: &Vectors,
    out: &mut W,
) -> Result<(), SinkFailed>
    requires { nodes graph.now ≡ vectors.now.nodes }
    ensures written { WritesText W.writes W.failures out.old (vectors_text graph.now vectors.now) result
        out.new }

    // Read with the same graph and number of states, the text is accepted and gives the same vectors.
    ensures reads_back { IsVectorsText graph.now vectors.now.states (vectors_text graph.now vectors.now)
        vectors.now }

    // So it is whichever way values are rounded.
    ensures either_way { (rounding : Rounding) →
        IsRoundedVectorsText rounding graph.now vectors.now.states (vectors_text graph.now vectors.now)
        vectors.now }
{
    let nodes = graph.nodes();
    let vector_count = vectors.nodes();
    prove!(nodes == vector_count);
    for node in 0..nodes {
        write_vector(graph, vectors, node, out)?;
    }
    Ok(())
}

/// Writes a vector: the action on a line of its own, then the values.
fn write_vector<W: Sink>(
    graph: &Graph,
    vectors: &Vectors,
    node: usize,
    out: &mut W,
) -> Result<(), SinkFailed>
    requires node { node < nodes graph.now }
    requires vector { node < vectors.now.nodes }
    ensures { WritesText W.writes W.failures out.old (vector_text graph.now vectors.now node) result out.new }
{
    write_action_line(graph, node, out)?;
    write_values(vectors, node, out)
}

/// Writes the action of a node, and its line end.
fn write_action_line<W: Sink>(graph: &Graph, node: usize, out: &mut W) -> Result<(), SinkFailed>
    requires { node < nodes graph.now }
    ensures { WritesText W.writes W.failures out.old (action_line graph.now node) result out.new }
{
    let mut buffer = Buffer::new();
    write_all(out, buffer.format(graph.action(node)).as_bytes())?;
    write_all(out, b"\n")
}

/// Writes the values of a node.
fn write_values<W: Sink>(vectors: &Vectors, node: usize, out: &mut W) -> Result<(), SinkFailed>
    requires { node < vectors.now.nodes }
    ensures { WritesText W.writes W.failures out.old (values_text vectors.now node vectors.now.states) result
        out.new }
{
    for state in 0..vectors.states() {
        write_value(vectors, node, state, out)?;
    }
    Ok(())
}

/// Writes a value and what separates it from the next: a blank, or after a vector's last value its line end and an empty line.
fn write_value<W: Sink>(
    vectors: &Vectors,
    node: usize,
    state: usize,
    out: &mut W,
) -> Result<(), SinkFailed>
    requires node { node < vectors.now.nodes }
    requires state { state < vectors.now.states }
    ensures { WritesText W.writes W.failures out.old (value_text vectors.now node state) result out.new }
{
    let states = vectors.states();
    let value = vectors.at(node, state);
    if state + 1 == states {
        write_scaled_then(value, b'\n', out)?;
        return write_all(out, b"\n");
    }
    write_scaled_then(value, b' ', out)
}
