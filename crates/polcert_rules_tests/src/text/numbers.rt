//! The values of numerals.
use polcert_testing::expect_eq;
use polcert_text::{NumberFault, ceil_of, floor_of, scaled_of, whole_number};

/// Whether a minus stands before it, a numeral, and its value, exactly, rounded down and rounded up.
const NUMERALS: &[(bool, &[u8], [Result<i64, NumberFault>; 3])] = &[
    (false, b"5e-1", [Ok(500_000); 3]),
    (false, b".5", [Ok(500_000); 3]),
    (false, b"0.50000000", [Ok(500_000); 3]),
    (false, b"5.", [Ok(5_000_000); 3]),
    (true, b"0.0", [Ok(0); 3]),
    (false, b"5.e1", [Ok(50_000_000); 3]),
    (false, b"1e6", [Ok(1_000_000_000_000); 3]),
    (false, b"10e-7", [Ok(1); 3]),
    (false, b"10E-7", [Ok(1); 3]),
    (true, b"1E+1", [Ok(-10_000_000); 3]),
    (false, b"10000000", [Ok(10_000_000_000_000); 3]),
    (true, b"10000000", [Ok(-10_000_000_000_000); 3]),
    (false, b"0e-400", [Ok(0); 3]),
    (false, b"0e400", [Ok(0); 3]),
    (false, b"0.5", [Ok(500_000); 3]),
    (true, b"20", [Ok(-20_000_000); 3]),
    (
        false,
        b"0.1234567",
        [Err(NumberFault::TooFine), Ok(123_456), Ok(123_457)],
    ),
    (
        true,
        b"0.1234567",
        [Err(NumberFault::TooFine), Ok(-123_457), Ok(-123_456)],
    ),
    (false, b"1e-7", [Err(NumberFault::TooFine), Ok(0), Ok(1)]),
    (true, b"1e-7", [Err(NumberFault::TooFine), Ok(-1), Ok(0)]),
    (false, b"1e-400", [Err(NumberFault::TooFine), Ok(0), Ok(1)]),
    (true, b"1e-400", [Err(NumberFault::TooFine), Ok(-1), Ok(0)]),
    (
        false,
        b"1.9999999",
        [Err(NumberFault::TooFine), Ok(1_999_999), Ok(2_000_000)],
    ),
    (
        true,
        b"1.9999999",
        [Err(NumberFault::TooFine), Ok(-2_000_000), Ok(-1_999_999)],
    ),
    (
        false,
        b"0.0000009",
        [Err(NumberFault::TooFine), Ok(0), Ok(1)],
    ),
    (
        true,
        b"0.0000009",
        [Err(NumberFault::TooFine), Ok(-1), Ok(0)],
    ),
    (
        false,
        b"19.9999999999999964",
        [Err(NumberFault::TooFine), Ok(19_999_999), Ok(20_000_000)],
    ),
    (
        true,
        b"19.9999999999999964",
        [Err(NumberFault::TooFine), Ok(-20_000_000), Ok(-19_999_999)],
    ),
    (
        false,
        b"1.3333333",
        [Err(NumberFault::TooFine), Ok(1_333_333), Ok(1_333_334)],
    ),
    (
        true,
        b"1.3333333",
        [Err(NumberFault::TooFine), Ok(-1_333_334), Ok(-1_333_333)],
    ),
    (
        false,
        b"0.6666667",
        [Err(NumberFault::TooFine), Ok(666_666), Ok(666_667)],
    ),
    (
        true,
        b"0.6666667",
        [Err(NumberFault::TooFine), Ok(-666_667), Ok(-666_666)],
    ),
    (false, b"10000000.000001", [Err(NumberFault::TooLarge); 3]),
    (true, b"10000000.000001", [Err(NumberFault::TooLarge); 3]),
    (false, b"10000000.0000001", [Err(NumberFault::TooLarge); 3]),
    (true, b"10000000.0000001", [Err(NumberFault::TooLarge); 3]),
    (false, b"1e8", [Err(NumberFault::TooLarge); 3]),
    (true, b"1e8", [Err(NumberFault::TooLarge); 3]),
    (false, b"1e400", [Err(NumberFault::TooLarge); 3]),
    (true, b"1e400", [Err(NumberFault::TooLarge); 3]),
    (false, b"1e401", [Err(NumberFault::TooLong); 3]),
    (true, b"1e401", [Err(NumberFault::TooLong); 3]),
    (false, b"0e401", [Err(NumberFault::TooLong); 3]),
    (true, b"0e401", [Err(NumberFault::TooLong); 3]),
    (false, b"0e-401", [Err(NumberFault::TooLong); 3]),
    (true, b"0e-401", [Err(NumberFault::TooLong); 3]),
    (false, b".", [Err(NumberFault::NotANumeral); 3]),
    (true, b".", [Err(NumberFault::NotANumeral); 3]),
    (false, b"", [Err(NumberFault::NotANumeral); 3]),
    (true, b"", [Err(NumberFault::NotANumeral); 3]),
    (false, b"-1", [Err(NumberFault::NotANumeral); 3]),
    (true, b"-1", [Err(NumberFault::NotANumeral); 3]),
    (false, b"1e", [Err(NumberFault::NotANumeral); 3]),
    (true, b"1e", [Err(NumberFault::NotANumeral); 3]),
];

#[test]
fn values_of_numerals(rt: HostRuntime) {
    for &(negative, numeral, want) in NUMERALS {
        let found = [
            scaled_of(negative, numeral),
            floor_of(negative, numeral),
            ceil_of(negative, numeral),
        ];
        expect_eq!(rt; found, want, numeral);
    }
}

/// A numeral of 400 bytes is read, one of 401 is too long.
#[test]
fn longest_numerals(rt: HostRuntime) {
    let zeros = [b'0'; 401];
    for (numeral, want) in [(&zeros[..400], Ok(0)), (&zeros, Err(NumberFault::TooLong))] {
        expect_eq!(rt; scaled_of(false, numeral), want);
    }
}

const WHOLE: &[(&[u8], Option<usize>)] = &[
    (b"0", Some(0)),
    (b"007", Some(7)),
    (b"1000", Some(1000)),
    (b"99999999999999999999", Some(1001)),
    (b"", None),
    (b"1.0", None),
    (b"1e2", None),
];

#[test]
fn whole_numbers(rt: HostRuntime) {
    for &(digits, want) in WHOLE {
        expect_eq!(rt; whole_number(1001, digits), want);
    }
}
