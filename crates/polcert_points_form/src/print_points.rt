//! Writes belief points, each value raised by one constant.
ghost use Rattle.std.specs.Prelude.{◌≡◌, ◌<◌, ◌≤◌, ℕ, List, length};
ghost use Rattle.polcert_text.specs.Cut.{text_limit};
ghost use Rattle.polcert_text.specs.Sink.{WritesText};
ghost use Rattle.polcert_policy.specs.Points.{point_count, point_weight, value_at, named_at};
ghost use Rattle.polcert_policy.specs.PointText.{IsPointsText};
ghost use Rattle.polcert_policy.specs.Vectors.{IsInRange};
ghost use Rattle.polcert_points_form.specs.RaisedSet.{CanRaisePoints, HasAllValues, raised_set};
ghost use Rattle.polcert_points_form.specs.FullForm.{action_text, actions_text, after_item, point_name_text, named_text, names_text};
ghost use Rattle.polcert_points_form.specs.FullForm.{point_number_text, point_text, points_text, point_value_text, weight_text, weights_text};

use crate::row_walk::{first_step, next_step, weight_here};
use itoa::Buffer;
use polcert_policy::PointSet;
use polcert_text::{Sink, SinkFailed, write_all, write_scaled};

/// Writes points in full form, each value raised by `by` millionths: for each point a line with its number and a weight for each state, and
/// for each action a line with its value and for each observation the number of the point that is named, or `-`; one blank between. Weights
/// and values are written as decimal numbers without trailing zeros.
///
/// # Errors
///
/// If the sink failed, which then took a beginning of the text.
pub fn write_raised_points<W: Sink>(
    points: &PointSet,
    by: u64,
    out: &mut W,
) -> Result<(), SinkFailed>
    requires all_values { HasAllValues points.now }
    requires small { by ≤ 20_000_000_000_000 }
    requires room { CanRaisePoints points.now by }
    ensures written { WritesText W.writes W.failures out.old (points_text (raised_set points.now by)) result
        out.new }

    // If these points were read of a text, then what is written is a text of the raised ones, unless it is
    // longer than a text may be.
    ensures reads_back { (states actions observations : ℕ) (text : List ℕ) →
        IsPointsText states actions observations text points.now →
        length (points_text (raised_set points.now by)) ≤ text_limit →
        IsPointsText states actions observations (points_text (raised_set points.now by))
        (raised_set points.now by) }
{
    for i in 0..points.count() {
        write_point(points, by, i, out)?;
    }
    Ok(())
}

/// Writes point `i`, each value raised.
fn write_point<W: Sink>(points: &PointSet, by: u64, i: usize, out: &mut W) -> Result<(), SinkFailed>
    requires point { i < point_count points.now }
    requires all_values { HasAllValues points.now }
    requires small { by ≤ 20_000_000_000_000 }
    requires room { CanRaisePoints points.now by }
    ensures { WritesText W.writes W.failures out.old (point_text (raised_set points.now by) i) result
        out.new }
{
    write_point_number(i, out)?;
    write_weights(points, i, out)?;
    write_actions(points, by, i, out)
}

/// Writes the number of a point, and a blank.
fn write_point_number<W: Sink>(i: usize, out: &mut W) -> Result<(), SinkFailed>
    ensures { WritesText W.writes W.failures out.old (point_number_text i) result out.new }
{
    let mut buffer = Buffer::new();
    write_all(out, buffer.format(i).as_bytes())?;
    write_all(out, b" ")
}

/// Writes the weights of point `i`.
fn write_weights<W: Sink>(points: &PointSet, i: usize, out: &mut W) -> Result<(), SinkFailed>
    requires { i < point_count points.now }
    ensures { WritesText W.writes W.failures out.old
        (weights_text (point_weight points.now i) points.now.states points.now.states) result out.new }
{
    let row = points.weights(i);
    let mut next = first_step(points, i, row);
    for s in 0..points.states() {
        write_weight(points, i, s, weight_here(next, s), out)?;
        next = next_step(points, i, row, next, s);
    }
    Ok(())
}

/// Writes `weight`, that of state `s` at point `i`, and what separates it from the next.
fn write_weight<W: Sink>(
    points: &PointSet,
    i: usize,
    s: usize,
    weight: u64,
    out: &mut W,
) -> Result<(), SinkFailed>
    requires point { i < point_count points.now }
    requires state { s < points.now.states }
    requires weight { weight ≡ point_weight points.now i s }
    ensures { WritesText W.writes W.failures out.old
        (weight_text (point_weight points.now i) points.now.states s) result out.new }
{
    let _count = points.count();
    write_scaled(weight as i64, out)?;
    write_all(out, item_separator(points.states(), s))
}

/// Writes the actions of point `i`, each value raised.
fn write_actions<W: Sink>(
    points: &PointSet,
    by: u64,
    i: usize,
    out: &mut W,
) -> Result<(), SinkFailed>
    requires point { i < point_count points.now }
    requires all_values { HasAllValues points.now }
    requires small { by ≤ 20_000_000_000_000 }
    requires room { CanRaisePoints points.now by }
    ensures { WritesText W.writes W.failures out.old
        (actions_text (raised_set points.now by) i points.now.actions) result out.new }
{
    for a in 0..points.actions() {
        write_action(points, by, i, a, out)?;
    }
    Ok(())
}

/// Returns the raised value of action `a` at point `i`.
fn raised_value(points: &PointSet, by: u64, i: usize, a: usize) -> i64
    requires point { i < point_count points.now }
    requires action { a < points.now.actions }
    requires all_values { HasAllValues points.now }
    requires small { by ≤ 20_000_000_000_000 }
    requires room { CanRaisePoints points.now by }
    ensures value { result ≡ value_at (raised_set points.now by) i a }
    ensures in_range { IsInRange result }
{
    points.value(i, a) + by as i64
}

/// Writes the raised value of action `a` at point `i`, and the points that are named.
fn write_action<W: Sink>(
    points: &PointSet,
    by: u64,
    i: usize,
    a: usize,
    out: &mut W,
) -> Result<(), SinkFailed>
    requires point { i < point_count points.now }
    requires action { a < points.now.actions }
    requires all_values { HasAllValues points.now }
    requires small { by ≤ 20_000_000_000_000 }
    requires room { CanRaisePoints points.now by }
    ensures { WritesText W.writes W.failures out.old (action_text (raised_set points.now by) i a) result
        out.new }
{
    write_point_value(raised_value(points, by, i, a), out)?;
    write_named_points(points, i, a, out)
}

/// Writes a value and a blank.
fn write_point_value<W: Sink>(value: i64, out: &mut W) -> Result<(), SinkFailed>
    ensures { WritesText W.writes W.failures out.old (point_value_text value) result out.new }
{
    write_scaled(value, out)?;
    write_all(out, b" ")
}

/// Writes the points that are named for action `a` of point `i`.
fn write_named_points<W: Sink>(
    points: &PointSet,
    i: usize,
    a: usize,
    out: &mut W,
) -> Result<(), SinkFailed>
    requires point { i < point_count points.now }
    requires action { a < points.now.actions }
    ensures { WritesText W.writes W.failures out.old
        (names_text (named_at points.now i a) points.now.observations points.now.observations) result
        out.new }
{
    for z in 0..points.observations() {
        write_named_point(points, i, a, z, out)?;
    }
    Ok(())
}

/// Writes the point that is named for action `a` and observation `z` of point `i`, and what separates it from the next.
fn write_named_point<W: Sink>(
    points: &PointSet,
    i: usize,
    a: usize,
    z: usize,
    out: &mut W,
) -> Result<(), SinkFailed>
    requires point { i < point_count points.now }
    requires action { a < points.now.actions }
    requires observation { z < points.now.observations }
    ensures { WritesText W.writes W.failures out.old
        (point_name_text (named_at points.now i a) points.now.observations z) result out.new }
{
    write_named(points.next(i, a, z), out)?;
    write_all(out, item_separator(points.observations(), z))
}

/// Writes the number of a point, or `-` if none is named.
fn write_named<W: Sink>(named: Option<usize>, out: &mut W) -> Result<(), SinkFailed>
    ensures { WritesText W.writes W.failures out.old (named_text named) result out.new }
{
    match named {
        None => write_all(out, b"-"),
        Some(point) => {
            let mut buffer = Buffer::new();
            write_all(out, buffer.format(point).as_bytes())
        }
    }
}

/// Returns the text after an item of a line: a blank, or after the last the line's end.
fn item_separator(count: usize, item: usize) -> &'static [u8]
    requires { item < count }
    ensures { result.now ≡ after_item count item }
{
    if item + 1 == count { b"\n" } else { b" " }
}
