//! By how much every value of belief points can be raised.
ghost use Rattle.std.specs.Prelude.{◌≡◌, ◌<◌, ◌≤◌, ℕ, pos, ◌+ℤ◌, ◌-ℤ◌};
ghost use Rattle.polcert_policy.specs.Points.{point_count, value_at};
ghost use Rattle.polcert_policy.specs.Vectors.{IsInRange};
ghost use Rattle.polcert_points_form.specs.RaisedSet.{CanRaisePoints};

use polcert_policy::PointSet;

/// Returns by how much a value can be raised and stay in range.
fn room_above_value(value: i64) -> u64
    requires { IsInRange value }
    ensures { pos result ≡ pos 10_000_000_000_000 -ℤ value }
{
    (10_000_000_000_000 - value) as u64
}

/// Returns the greatest constant, at most `room`, with which every value at point `i` stays in range.
fn room_at(points: &PointSet, i: usize, room: u64) -> u64
    requires point { i < point_count points.now }
    ensures less { result ≤ room }
    ensures room { (a : ℕ) → a < points.now.actions → IsInRange (value_at points.now i a +ℤ pos result) }
    ensures greatest { (by : ℕ) → by ≤ room →
        ((a : ℕ) → a < points.now.actions → IsInRange (value_at points.now i a +ℤ pos by)) → by ≤ result }
{
    let _count = points.count();
    let mut least = room;
    for a in 0..points.actions() {
        least = least.min(room_above_value(points.value(i, a)));
    }
    least
}

/// Returns the greatest constant, at most 20,000,000,000,000, with which every value stays in range.
pub fn room_above(points: &PointSet) -> u64
    ensures small { result ≤ 20_000_000_000_000 }
    ensures room { CanRaisePoints points.now result }
    ensures greatest { (by : ℕ) → by ≤ 20_000_000_000_000 → CanRaisePoints points.now by → by ≤ result }
{
    let mut room = 20_000_000_000_000;
    for i in 0..points.count() {
        room = room_at(points, i, room);
    }
    room
}
