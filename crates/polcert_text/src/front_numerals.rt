//! Numerals that end within some bytes, and their sizes.
ghost use Rattle.std.specs.Prelude.{◌≡◌, ◌≤◌, ℕ, length, take, get_or, IfSome, ◌+◌, ◌-◌, ◌*◌, ◌^◌, ◌<◌, ◌||◌, drop};
ghost use Rattle.std.specs.List.{list_any};
ghost use Rattle.polcert_text.specs.Steps.ScanOf.{EndsAsDigits};
ghost use Rattle.std.specs.Str.Parse.{digits_value};
ghost use Rattle.polcert_text.specs.Steps.FrontSizes.{AreDigitsFrom, AreDecimals, AreSixDigits, packed, IsTail, EndsAsSize};
ghost use Rattle.polcert_text.specs.Steps.Scaling.{is_nonzero};

use crate::bytes::{
    ends_numeral, other_ends_numeral, quick_ends_numeral, quick_is_digit, quick_is_point,
};
use crate::front_tokens::FrontDigits;
use crate::number::{MILLION, Size, size_of_parts, split_sign};
use crate::numeral_ends::ended_numeral;
use crate::tokens::LONGEST_TOKEN;

/// Numerals with more digits before the point are rare (no number that is allowed needs them, except the largest), and read the general
/// way.
pub const MOST_WHOLE: usize = 7;

const MOST_DECIMALS: usize = 6;

/// The longest numeral without decimals after the sixth, with a byte after it. Fewer bytes are read the general way.
const ROOM: usize = MOST_WHOLE + 1 + MOST_DECIMALS + 1;

/// The first digit.
const ZERO: u64 = b'0' as u64;

/// Returns the number that at most seven digits at the front spell, up to the first byte that is no digit, and where that is.
#[inline(always)]
fn whole_digits(bytes: &[u8]) -> (u64, usize)
    requires { 7 < length bytes.now }
    ensures within { result.1 ≤ 7 }
    ensures digits { AreDigitsFrom bytes.now 0 result.1 }
    ensures value { result.0 ≡ digits_value 10 (take result.1 bytes.now) }
    ensures few { result.0 < 10_000_000 }
{
    let mut number: u64 = 0;
    let mut at: usize = 0;
    while at < MOST_WHOLE && quick_is_digit(bytes[at]) {
        // (The digit in 64 bits, as it is added: a difference of bytes would be widened once more.)
        let digit = u64::from(bytes[at]) - ZERO;
        number = number * 10 + digit;
        at += 1;
    }
    (number, at)
}

/// Returns the whole number at the front, if a byte after it ends it. `None`: unknown, take the slow path.
#[inline(always)]
pub fn ended_digits(bytes: &[u8]) -> Option<FrontDigits>
    ensures { IfSome result (EndsAsDigits bytes.now) }
{
    if bytes.len() <= MOST_WHOLE {
        return None;
    }
    let (value, len) = whole_digits(bytes);
    if len == 0 || !ends_numeral(bytes[len]) {
        return None;
    }
    Some(FrontDigits { len, value })
}

/// A numeral at the front of some bytes: how long it is, and its size.
#[derive(Clone, Copy)]
pub struct FrontSize {
    pub len: usize,
    pub size: Size,
}

/// The decimals after the sixth: where they end, and whether one isn't 0.
#[derive(Clone, Copy)]
struct Tail {
    end: usize,
    is_inexact: bool,
}

/// A point, and the decimals of a millionth.
const DECIMALS: usize = 1 + MOST_DECIMALS;

/// Returns the numeral at the front, of any form, if a byte after it ends it. `None`: unknown.
#[inline(never)]
pub fn any_numeral(bytes: &[u8]) -> Option<FrontSize>
    ensures { IfSome result (EndsAsSize bytes.now) }
{
    let Some(ends) = ended_numeral(bytes) else {
        return None;
    };
    let (is_lowering, exponent) = split_sign(&bytes[ends.end.min(ends.mantissa + 1)..ends.end]);
    let size = size_of_parts(
        &bytes[..ends.point],
        &bytes[ends.mantissa.min(ends.point + 1)..ends.mantissa],
        is_lowering,
        exponent,
    );
    match size {
        Ok(size) => Some(FrontSize {
            len: ends.end,
            size,
        }),
        Err(_) => None,
    }
}

/// Returns the numeral at the front, if it is a few digits, perhaps with a point and decimals, and a byte after it ends it. `None`:
/// unknown.
#[inline(always)]
pub fn plain_numeral(bytes: &[u8]) -> Option<FrontSize>
    ensures { IfSome result (EndsAsSize bytes.now) }
{
    if bytes.len() < ROOM {
        return None;
    }
    let (whole, point) = whole_digits(bytes);
    if !quick_is_point(bytes[point]) {
        if point == 0 || !ends_numeral(bytes[point]) {
            return None;
        }
        return Some(FrontSize {
            len: point,
            size: Size {
                floor: whole * MILLION,
                is_inexact: false,
            },
        });
    }
    let full = point + DECIMALS;
    let fraction = decimals(bytes, point + 1);
    if fraction.end == 1 {
        return None;
    }
    let Some(tail) = tail_from(bytes, fraction.end, full) else {
        return None;
    };
    Some(FrontSize {
        len: tail.end,
        size: Size {
            floor: whole * MILLION + fraction.millionths,
            is_inexact: tail.is_inexact,
        },
    })
}

/// The decimals of a number: the millionths that they are, and where they end.
#[derive(Clone, Copy)]
struct FrontDecimals {
    millionths: u64,
    end: usize,
}

/// The digit 0 in each of six bytes.
const SIX_ZEROS: u64 = 0x3030_3030_3030;

/// Added to a byte that is less than 128, it gives 128 or more unless the byte is 9 or less.
const SIX_ABOVE: u64 = 0x7676_7676_7676;

/// The highest bit of each of six bytes.
const SIX_HIGH_BITS: u64 = 0x8080_8080_8080;

const SIX_BYTES: u64 = 0xFFFF_FFFF_FFFF;

const BYTE_BITS: u32 = 8;

/// Returns the decimals from `from` on, up to the first byte that is no digit, and at most six.
#[inline(always)]
fn decimals(bytes: &[u8], from: usize) -> FrontDecimals
    requires { from + 6 ≤ length bytes.now }
    ensures { AreDecimals bytes.now from result }
{
    let digits = six_bytes(bytes, from).wrapping_sub(SIX_ZEROS);
    let others = (digits | digits.wrapping_add(SIX_ABOVE)) & SIX_HIGH_BITS;
    if others == 0 {
        return FrontDecimals {
            millionths: six_digits_value(digits & SIX_BYTES),
            end: from + MOST_DECIMALS,
        };
    }
    let count = others.trailing_zeros() / BYTE_BITS;
    FrontDecimals {
        millionths: six_digits_value(digits & (1 << BYTE_BITS * count) - 1),
        end: from + count as usize,
    }
}

/// Returns six bytes from `from` on as one word, the first the lowest.
#[inline(always)]
fn six_bytes(bytes: &[u8], from: usize) -> u64
    requires { from + 6 ≤ length bytes.now }
    ensures { result ≡ packed (get_or bytes.now from 0) (get_or bytes.now (from + 1) 0)
        (get_or bytes.now (from + 2) 0) (get_or bytes.now (from + 3) 0)
        (get_or bytes.now (from + 4) 0) (get_or bytes.now (from + 5) 0) }
{
    let four = u32::from_le_bytes([
        bytes[from],
        bytes[from + 1],
        bytes[from + 2],
        bytes[from + 3],
    ]);
    let two = u16::from_le_bytes([bytes[from + 4], bytes[from + 5]]);
    u64::from(four) + (u64::from(two) << 32)
}

/// Returns the number that six digits spell, each of them a byte, the first the lowest.
#[inline(always)]
fn six_digits_value(digits: u64) -> u64
    requires { digits < 2 ^ 48 }
    ensures { (a b c d e f : ℕ) → AreSixDigits a b c d e f → digits ≡ packed a b c d e f
        → result ≡ ((((a * 10 + b) * 10 + c) * 10 + d) * 10 + e) * 10 + f }
{
    // (The first, third and fifth byte of the sum are two digits each.)
    let pairs = digits * 10 + (digits >> BYTE_BITS);
    (pairs & 0xFF) * 10_000 + (pairs >> 16 & 0xFF) * 100 + (pairs >> 32 & 0xFF)
}

/// Returns where the decimals after the sixth end, and whether one isn't 0. They begin at `from`, and there are none unless `from` is
/// `full`, where six decimals end. `None`: unknown, since no byte is seen that ends the numeral.
#[inline(always)]
fn tail_from(bytes: &[u8], from: usize, full: usize) -> Option<Tail>
    requires within { from < length bytes.now }
    requires few { from ≤ 400 }
    ensures { IfSome result (IsTail bytes.now from full) }
{
    // (Most have no such decimals, and then no byte is tested twice.)
    if quick_ends_numeral(bytes[from]) {
        return Some(Tail {
            end: from,
            is_inexact: false,
        });
    }
    if from < full || !quick_is_digit(bytes[from]) {
        return no_tail(bytes, from);
    }
    let tail = long_tail(bytes, from);
    if tail.end == bytes.len() || tail.end > LONGEST_TOKEN || !ends_numeral(bytes[tail.end]) {
        return None;
    }
    Some(tail)
}

/// Returns that no further decimals stand at `from`, if the byte there ends the numeral. `None`: unknown.
#[inline(always)]
fn no_tail(bytes: &[u8], from: usize) -> Option<Tail>
    requires within { from < length bytes.now }
    requires few { from ≤ 400 }
    ensures { (full : ℕ) → IfSome result (IsTail bytes.now from full) }
{
    if !other_ends_numeral(bytes[from]) {
        return None;
    }
    Some(Tail {
        end: from,
        is_inexact: false,
    })
}

/// Returns where the digits from `from` on end, and whether one isn't 0, digit by digit.
#[inline(always)]
fn long_tail(bytes: &[u8], from: usize) -> Tail
    requires { from ≤ length bytes.now }
    ensures within { (from ≤ result.end) × (result.end ≤ length bytes.now) }
    ensures digits { AreDigitsFrom bytes.now from result.end }
    ensures is_inexact { result.is_inexact
        ≡ list_any is_nonzero (take (result.end - from) (drop from bytes.now)) }
{
    let mut end = from;
    let mut is_inexact = false;
    while end < bytes.len() && quick_is_digit(bytes[end]) {
        is_inexact = with_digit(is_inexact, bytes[end]);
        end += 1;
    }
    Tail { end, is_inexact }
}

/// Returns whether one of the digits so far isn't 0, after one more digit.
#[inline(always)]
fn with_digit(is_inexact: bool, digit: u8) -> bool
    ensures { result ≡ (is_inexact || is_nonzero digit) }
{
    is_inexact || digit != b'0'
}
