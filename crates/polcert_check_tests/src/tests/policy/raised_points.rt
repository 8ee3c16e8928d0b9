//! The full form of belief points, each value raised, and by how much they can be.
ghost use Rattle.polcert_points_form.specs.RaisedSet.{HasAllValues};

use polcert_points_form::{room_above, write_raised_points};
use polcert_policy::{PointSet, read_points};
use polcert_testing::expect_eq;
use polcert_text::SliceSink;
use std::alloc::Global;

/// By how much the points can be raised, and whether they are so written as this, by a call that ends so.
fn raised_to(
    points: &PointSet,
    sink: &mut SliceSink<'_>,
    ends_well: bool,
    want: &[u8],
) -> (u64, bool)
    requires { HasAllValues points.now }
{
    let by = room_above(points);
    let is_right = write_raised_points(points, by, sink).is_ok() == ends_well;
    (by, is_right && sink.written() == want)
}

/// The same of the text of points for two states, two actions and one observation.
fn raised_text(
    alloc: Global,
    text: &[u8],
    buffer: &mut [u8],
    ends_well: bool,
    want: &[u8],
) -> Option<(u64, bool)> {
    let mut sink = SliceSink::new(buffer);
    match read_points(alloc, text, 2, 2, 1) {
        Ok(points) => Some(raised_to(&points, &mut sink, ends_well, want)),
        Err(_) => None,
    }
}

/// Texts, by how much they can be raised, and what is then written.
const RAISED: &[(&[u8], u64, &[u8])] = &[
    (b"# none", 20_000_000_000_000, b""),
    (
        b"0 .5 .5 9999999.5 0 -3 X 1 1 0 .25 - 1 1",
        500_000,
        b"0 0.5 0.5\n10000000 0\n-2.5 -\n1 1 0\n0.75 -\n1.5 1\n",
    ),
    (
        b"0 0 0.0000010 -10000000 - -9999999.9999991 0",
        19_999_999_999_999,
        b"0 0 0.000001\n9999999.999999 -\n10000000 0\n",
    ),
];

#[test]
fn raised_as_far_as_they_can_be(rt: HostRuntime) {
    for &(text, by, want) in RAISED {
        let mut buffer = [0u8; 64];
        expect_eq!(rt;
            raised_text(rt.alloc(), text, &mut buffer, true, want),
            Some((by, true))
        );
    }
    let mut buffer = [0u8; 8];
    let found = raised_text(
        rt.alloc(),
        b"0 .5 .5 10000000 0 -3 X",
        &mut buffer,
        false,
        b"0 0.5 0.",
    );
    expect_eq!(rt; found, Some((0, true)));
}
