//! Belief points, from slices and from sources.

use polcert_cells::Row;
use polcert_policy::{PointFault, PointSet, read_points, read_points_from};
use polcert_testing::{Pieces, expect_eq};
use polcert_text::{NumberFault, SourceFault, TokenFault};
use std::alloc::Global;

/// Two points over two states, one action and two observations, 47 bytes.
const POINTS: &[u8] = b"0 .8500009 15e-2 # first\n-0.5 1 -\n\n01 1 0\n+2 X 0";

/// In the place of a point that is named, if none is.
const NONE: usize = 99;

/// Of the last point its weights, its value and the points that it names, and how many points there are.
type Last = ([u64; 2], i64, [usize; 2], usize);

/// The weight of a state in a row.
fn weight_at(row: Row<'_>, state: usize) -> u64 {
    if let Row::Sparse(cells) = row {
        for cell in cells {
            if cell.column == state {
                return cell.weight;
            }
        }
    }
    0
}

fn last_of(points: &PointSet) -> Option<Last> {
    let count = points.count();
    if count > 0 && points.states() == 2 && points.actions() == 1 && points.observations() == 2 {
        let i = count - 1;
        let weights = [
            weight_at(points.weights(i), 0),
            weight_at(points.weights(i), 1),
        ];
        let named = [
            points.next(i, 0, 0).unwrap_or(NONE),
            points.next(i, 0, 1).unwrap_or(NONE),
        ];
        Some((weights, points.value(i, 0), named, count))
    } else {
        None
    }
}

/// The last of the points that the text has for two states, one action and two observations, or how it is refused.
fn read(alloc: Global, text: &[u8]) -> Result<Option<Last>, PointFault> {
    match read_points(alloc, text, 2, 1, 2) {
        Ok(points) => Ok(last_of(&points)),
        Err(fault) => Err(fault),
    }
}

/// The same of a source in pieces, and how often it failed and was read.
fn read_from(
    alloc: Global,
    mut source: Pieces<'_>,
) -> (Result<Option<Last>, SourceFault<PointFault>>, (u64, u64)) {
    let found = match read_points_from(alloc, &mut source, 2, 1, 2) {
        Ok(points) => Ok(last_of(&points)),
        Err(fault) => Err(fault),
    };
    (found, (source.failures, source.reads))
}

/// Texts, and what is read of them, or how they are refused.
const READ: &[(&[u8], Result<Option<Last>, PointFault>)] = &[
    (b"# none\n", Ok(None)),
    (POINTS, Ok(Some(([1_000_000, 0], 2_000_000, [NONE, 0], 2)))),
    (
        b"0 .8500009 .1499999 -.0000011 0 -",
        Ok(Some(([850_000, 149_999], -1, [0, NONE], 1))),
    ),
    (
        b"0 0.0000010 0 10000000 - -",
        Ok(Some(([1, 0], 10_000_000_000_000, [NONE, NONE], 1))),
    ),
    (
        b"0 0 1.000 1e-9 0 0 1 1 0 - 1 - -",
        Ok(Some(([1_000_000, 0], -1_000_000, [NONE, NONE], 2))),
    ),
    (b"0 1 0 ;", Err(PointFault::Token(TokenFault::BadByte(6)))),
    (
        b"0 1.0000001 0",
        Err(PointFault::Number {
            fault: NumberFault::TooLarge,
            place: 2,
        }),
    ),
    (
        b"0 1 0 - 1e8",
        Err(PointFault::Number {
            fault: NumberFault::TooLarge,
            place: 6,
        }),
    ),
    (b"x 1 0", Err(PointFault::BadShape(0))),
    (b"0 +1 0", Err(PointFault::BadShape(2))),
    (b"0 1 0 - - 5", Err(PointFault::BadShape(6))),
    (b"0 1 0 5 Y", Err(PointFault::BadShape(8))),
    (b"0 1 0 5 -1", Err(PointFault::BadShape(8))),
    (b"0 1 0 5 - -1 1 0", Err(PointFault::BadShape(10))),
    (b"1 1 0", Err(PointFault::PointOutOfOrder(0))),
    (
        b"99999999999999999999999 1 0",
        Err(PointFault::PointOutOfOrder(0)),
    ),
    (b"0 1 0 5 - - 2", Err(PointFault::PointOutOfOrder(12))),
    (b"0 0.0000009 0", Err(PointFault::WrongMass(12))),
    (b"0 1 0.000001", Err(PointFault::WrongMass(4))),
    (
        b"0 1 0 5 0 1",
        Err(PointFault::NextOutOfRange {
            point: 0,
            action: 0,
            observation: 1,
        }),
    ),
    (
        b"0 1 0 5 - 1 1 0 1 5 99999999999999999999999 2",
        Err(PointFault::NextOutOfRange {
            point: 1,
            action: 0,
            observation: 0,
        }),
    ),
    (b"0 1", Err(PointFault::Truncated(3))),
    (b"0 1 0 5 - ", Err(PointFault::Truncated(10))),
];

#[test]
fn points(rt: HostRuntime) {
    for &(text, want) in READ {
        expect_eq!(rt; read(rt.alloc(), text), want, text);
    }
}

/// Whether the text is read in pieces of this size as it is whole, and no read fails.
fn is_alike(alloc: Global, text: &[u8], most: usize) -> bool {
    let slice = match read(alloc, text) {
        Ok(last) => Ok(last),
        Err(fault) => Err(SourceFault::Refused(fault)),
    };
    let (found, (failures, _)) = read_from(alloc, Pieces::new(text, most, false));
    found == slice && failures == 0
}

const WRONG_ORDER: SourceFault<PointFault> = SourceFault::Refused(PointFault::PointOutOfOrder(0));

/// Texts, and the fault, failures and reads where their source fails after them, in pieces of one byte and whole.
const FAILED: &[(&[u8], SourceFault<PointFault>, u64, u64, u64)] = &[
    (b"0 1 0 5", SourceFault::Device, 1, 8, 2),
    (b"", SourceFault::Device, 1, 1, 1),
    (b"1 1", WRONG_ORDER, 0, 2, 1),
];

/// In pieces of any size, and cut at any length, a source is read as a slice is. A read that fails midway, or at the end, is named, and the
/// source isn't read again; a text that is refused before is refused.
#[test]
fn points_in_pieces(rt: HostRuntime) {
    for len in 0..=POINTS.len() {
        let (front, _) = POINTS.split_at(len);
        for most in [1usize, 3, 4096] {
            expect_eq!(rt; is_alike(rt.alloc(), front, most), true, len);
        }
    }
    for &(text, fault, failures, single_reads, whole_reads) in FAILED {
        for (most, reads) in [(1usize, single_reads), (4096, whole_reads)] {
            let found = read_from(rt.alloc(), Pieces::new(text, most, true));
            expect_eq!(rt; found, (Err(fault), (failures, reads)));
        }
    }
}
