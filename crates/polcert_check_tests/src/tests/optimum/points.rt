//! The least constant by which belief points pass, and the check of raised ones. The values are computed by hand from the inequality of points.
ghost use Rattle.polcert_points_form.specs.RaisedSet.{HasAllValues};

use super::vectors_of;
use polcert_model::{Model, read_model};
use polcert_optimum::fit_actions;
use polcert_points::{
    PointVerdict, RaisedPoints, ReadPoints, check_points, fit_points, least_point_raise,
};
use polcert_points_form::room_above;
use polcert_policy::{PointSet, Vectors, read_points};
use polcert_testing::expect_eq;
use std::alloc::Global;

/// A coin that stays as it is, and that nobody sees: naming its side is worth 1.
const COIN: &[u8] =
    b"discount: 0.5 values: reward states: 2 actions: 2 observations: 1 T: * identity O: * uniform R: 0 : 0 : * : * 1 R: 1 : 1 : * : * 1";

/// Who sees the coin earns 1 a step: 2 in all, or 1 if the first word is wrong.
const SEEN: &[u8] = b"0 2 1 1 1 2";

/// The least constant of points, and the verdict on them, raised as far as they can be.
type Found = (Option<u64>, PointVerdict);

fn found(model: &Model, vectors: &Vectors, points: &PointSet) -> Option<Found>
    requires { HasAllValues points.now }
{
    let read = ReadPoints::of(points);
    let raised = RaisedPoints::new(points, room_above(points));
    let mut charges = [0; 4];
    if model.actions() * model.states() != 4 {
        return None;
    }
    if !fit_actions(model, vectors) {
        return None;
    }
    if !fit_points(model, &read) {
        return None;
    }
    if !fit_points(model, &raised) {
        return None;
    }
    let by = least_point_raise(model, vectors, points, &mut charges);
    Some((by, check_points(model, vectors, &raised, &mut charges)))
}

fn found_in(alloc: Global, model: &Model, vectors: &Vectors, text: &[u8]) -> Option<Found> {
    match read_points(alloc, text, 2, 2, 1) {
        Ok(points) => found(model, vectors, &points),
        Err(_) => None,
    }
}

/// The same of the text of points, for COIN and SEEN.
fn found_of(alloc: Global, text: &[u8]) -> Option<Found> {
    let model = read_model(alloc, COIN).ok()?;
    let vectors = vectors_of(alloc, &model, SEEN)?;
    found_in(alloc, &model, &vectors, text)
}

/// Points, the least constant that raises them, and the verdict on them, raised as far as they can be.
const FOUND: &[(&[u8], Option<u64>, PointVerdict)] = &[
    (b"", Some(0), PointVerdict::Yes),
    (b"0 .5 .5 1 0 1 0", Some(0), PointVerdict::Yes),
    (b"0 .5 .5 1 0 .999999 0", Some(2), PointVerdict::Yes),
    (b"0 .5 .5 1.249999 - 1.25 -", Some(1), PointVerdict::Yes),
    (b"0 0 1 1 0 1.5 0", Some(500_000), PointVerdict::Yes),
    (
        b"0 0 1 10000000 0 1.5 0",
        None,
        PointVerdict::Exceeded {
            point: 0,
            action: 1,
            amount: 9_999_999_000_000_000_000_000_000_000_000,
        },
    ),
];

/// A word earns 0.5 at the even belief, and half of the best value after it. The last point has no room, and is short of 1 + 5,000,000.
#[test]
fn least_constants_of_points(rt: HostRuntime) {
    for &(text, by, verdict) in FOUND {
        expect_eq!(rt; found_of(rt.alloc(), text), Some((by, verdict)));
    }
}
