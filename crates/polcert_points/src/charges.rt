//! The charge of each action at each state, for what no point covers.
ghost use Rattle.std.specs.Prelude.{◌≡◌, ℕ, ℤ, pos, ◌+◌, ◌*◌, ◌<◌, Some, length, slice_index_or};
ghost use Rattle.polcert_policy.specs.Vectors.{value_of};
ghost use Rattle.polcert_points.specs.PointTable.{AreLeastCharges, charge_at};
ghost use Rattle.polcert_points.specs.Steps.PointSums.{AreLeastUntil, IsCorner};

use crate::belief_points::{BeliefPoints, next_state};
use polcert_policy::Vectors;

/// Returns the only state of positive weight at point `i`. `None`: it has more.
fn corner_of<P: BeliefPoints>(points: &P, i: usize) -> Option<usize>
    requires { i < (P.table points.now).points.count }
    ensures { IsCorner (P.table points.now).states ((P.table points.now).points.belief i) result }
{
    let point = points.weights(i);
    let first = next_state(points, i, point, 0)?;
    match next_state(points, i, point, first.next) {
        Some(_) => None,
        None => Some(first.column),
    }
}

/// Lowers the charge of each action at state `s`, the only one of point `i`, to the point's value, if that is less.
fn lower_at_corner<P: BeliefPoints>(points: &P, i: usize, s: usize, charges: &mut [i64])
    requires point { i < (P.table points.now).points.count }
    requires corner { IsCorner (P.table points.now).states ((P.table points.now).points.belief i) (Some s) }
    requires room { length charges.old ≡ (P.table points.now).actions * (P.table points.now).states }
    ensures { (vectors : ℕ → ℕ → ℤ) → AreLeastUntil (P.table points.now) vectors i charges.old →
        AreLeastUntil (P.table points.now) vectors (i + 1) charges.new }
{
    let states = points.states();
    for a in 0..points.actions() {
        let k = a * states + s;
        charges[k] = charges[k].min(points.value(i, a));
    }
}

/// Lowers the charges by the values of point `i`, if it has a single state, and else leaves them.
fn lower_by_point<P: BeliefPoints>(points: &P, i: usize, charges: &mut [i64])
    requires point { i < (P.table points.now).points.count }
    requires room { length charges.old ≡ (P.table points.now).actions * (P.table points.now).states }
    ensures { (vectors : ℕ → ℕ → ℤ) → AreLeastUntil (P.table points.now) vectors i charges.old →
        AreLeastUntil (P.table points.now) vectors (i + 1) charges.new }
{
    match corner_of(points, i) {
        Some(s) => lower_at_corner(points, i, s, charges),
        None => {}
    }
}

/// Fills in the values of the vectors, action by action: the charges before any point lowers them.
fn fill_values(vectors: &Vectors, charges: &mut [i64])
    requires { length charges.old ≡ vectors.now.nodes * vectors.now.states }
    ensures { (a s : ℕ) → a < vectors.now.nodes → s < vectors.now.states →
        slice_index_or charges.new (a * vectors.now.states + s) (pos 0) ≡ value_of vectors.now a s }
{
    let states = vectors.states();
    for k in 0..charges.len() {
        charges[k] = vectors.at(k / states, k % states);
    }
}

/// Fills in the charges of all actions, action by action: the least of the vector's value and of the values of the points that are the
/// state alone.
pub fn fill_charges<P: BeliefPoints>(vectors: &Vectors, points: &P, charges: &mut [i64])
    requires actions { vectors.now.nodes ≡ (P.table points.now).actions }
    requires states { vectors.now.states ≡ (P.table points.now).states }
    requires room { length charges.old ≡ (P.table points.now).actions * (P.table points.now).states }
    ensures { AreLeastCharges (P.table points.now) (value_of vectors.now)
        (charge_at (P.table points.now) charges.new) }
{
    fill_values(vectors, charges);
    for i in 0..points.count() {
        lower_by_point(points, i, charges);
    }
}
