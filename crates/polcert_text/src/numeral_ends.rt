//! Where a numeral at the front of some bytes ends, and its parts.
ghost use Rattle.std.specs.Prelude.{◌≡◌, ◌≤◌, ◌<◌, ◌+◌, ◌⊎◌, length, take, get_or, IfSome};
ghost use Rattle.polcert_text.specs.Steps.Classes.{class_of};
ghost use Rattle.polcert_text.specs.Steps.FrontSizes.{AreDigitsFrom};
ghost use Rattle.polcert_text.specs.Steps.NumeralEnds.{EndsAsNumeral};
ghost use Rattle.polcert_text.specs.Steps.Scan.{state_after, state_through};
ghost use Rattle.polcert_text.specs.declared.bytes.ByteClass.{ByteClass};
ghost use Rattle.polcert_text.specs.declared.tokens.State.{State};

use crate::bytes::{ends_numeral, quick_is_digit, quick_is_mark, quick_is_point, quick_sign};
use crate::tokens::LONGEST_TOKEN;

/// Where a numeral at the front of some bytes ends: the digits before its point, those and the decimals, and all of it with its exponent.
#[derive(Clone, Copy)]
pub struct NumeralEnds {
    pub point: usize,
    pub mantissa: usize,
    pub end: usize,
}

/// Returns where the numeral at the front ends, if a byte after it shows its end. `None`: unknown.
#[inline(always)]
pub fn ended_numeral(bytes: &[u8]) -> Option<NumeralEnds>
    ensures { IfSome result (EndsAsNumeral bytes.now) }
{
    let until = bytes.len().min(LONGEST_TOKEN);
    let point = digits_end_until(bytes, 0, until);
    let mantissa = mantissa_end(bytes, point, until);
    // (A digit is at least 2 of the sum.)
    if point + mantissa < 2 {
        return None;
    }
    let Some(end) = exponent_end(bytes, mantissa, until) else {
        return None;
    };
    if end == bytes.len() || !ends_numeral(bytes[end]) {
        return None;
    }
    Some(NumeralEnds {
        point,
        mantissa,
        end,
    })
}

/// Returns where the digits from `from` on end, or `until` if they continue there.
#[inline(always)]
pub fn digits_end_until(bytes: &[u8], from: usize, until: usize) -> usize
    requires range { from ≤ until }
    requires within { until ≤ length bytes.now }
    ensures within { (from ≤ result) × (result ≤ until) }
    ensures digits { AreDigitsFrom bytes.now from result }
{
    let mut at = from;
    while at < until && quick_is_digit(bytes[at]) {
        at += 1;
    }
    at
}

/// Returns where a point and digits end, if a point stands there, and else the same place.
#[inline(always)]
fn mantissa_end(bytes: &[u8], point: usize, until: usize) -> usize
    requires range { point ≤ until }
    requires within { until ≤ length bytes.now }
    ensures within { (point ≤ result) × (result ≤ until) }
    ensures point { point < result → class_of (get_or bytes.now point 0) ≡ ByteClass.Point }
    ensures digits { AreDigitsFrom bytes.now (point + 1) result }
{
    if point < until && quick_is_point(bytes[point]) {
        return digits_end_until(bytes, point + 1, until);
    }
    point
}

/// Returns where an exponent ends, if one begins there, and else the same place. `None`: unknown.
#[inline(always)]
fn exponent_end(bytes: &[u8], from: usize, until: usize) -> Option<usize>
    requires range { from ≤ until }
    requires within { until ≤ length bytes.now }
    ensures within { IfSome result (λ end. (from ≤ end) × (end ≤ until)) }
    ensures mark { IfSome result
        (λ end. from < end → class_of (get_or bytes.now from 0) ≡ ByteClass.ExponentMark) }
    ensures read { IfSome result (λ end. from < end
        → state_after (state_through State.Start (take from bytes.now)) ByteClass.ExponentMark ≡ State.Mark
        → state_through State.Start (take end bytes.now) ≡ State.Exponent) }
{
    if from == until || !quick_is_mark(bytes[from]) {
        return Some(from);
    }
    let digits = sign_end(bytes, from + 1, until);
    let end = digits_end_until(bytes, digits, until);
    if end == digits {
        return None;
    }
    Some(end)
}

/// Returns where a sign ends, if one stands there, and else the same place.
#[inline(always)]
fn sign_end(bytes: &[u8], from: usize, until: usize) -> usize
    requires range { from ≤ until }
    requires within { until ≤ length bytes.now }
    ensures within { (from ≤ result) × (result ≤ until) }
    ensures read { state_through State.Start (take from bytes.now) ≡ State.Mark
        → (state_through State.Start (take result bytes.now) ≡ State.Mark)
        ⊎ (state_through State.Start (take result bytes.now) ≡ State.Sign) }
{
    if from == until {
        return from;
    }
    match quick_sign(bytes[from]) {
        Some(_) => from + 1,
        None => from,
    }
}
