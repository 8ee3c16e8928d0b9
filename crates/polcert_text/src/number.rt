//! The value of a numeral, and a number written as text.
ghost use Rattle.std.specs.Prelude.{◌≡◌, ◌+◌, ◌-◌, ◌*◌, ◌^◌, ◌%◌, length, take, drop, if◌then◌else◌, ◌<◌, ◌≤◌};
ghost use Rattle.std.specs.Prelude.{◌++◌, ◌∷◌, [], ℕ, List, MatchResult, IfOk, IfErr, min};
ghost use Rattle.std.specs.Prelude.{true, false, MatchOption, unsigned_abs};
ghost use Rattle.std.specs.List.{list_all, list_any, before_first, after_first};
ghost use Rattle.std.specs.Str.Parse.{digits_value};
ghost use Rattle.polcert_text.specs.Bytes.{is_digit};
ghost use Rattle.polcert_text.specs.Lexemes.{without_sign, is_numeral, are_digits};
ghost use Rattle.polcert_text.specs.Numbers.{whole_of, fraction_of, exponent_of, is_lowering, largest};
ghost use Rattle.polcert_text.specs.Numbers.{signed, IsExact, IsFloor, IsCeil, IsRounded, IsReadable};
ghost use Rattle.polcert_text.specs.Numbers.{IsRefused, IsRefusedExactly};
ghost use Rattle.polcert_text.specs.Steps.Scaling.{separates, size_cap, is_nonzero, IsScaled, Measures, ceiling};
ghost use Rattle.polcert_text.specs.Steps.Scaling.{rounded, is_away};
ghost use Rattle.polcert_text.specs.Steps.NumeralEnds.{HasParts};
ghost use Rattle.polcert_text.specs.Millionths.{decimals, fraction_text, scaled_text};

use crate::bytes::class_of;
use crate::tokens::State;
use crate::{Sink, SinkFailed, write_all};
use itoa::write_digits;
use thiserror::Error;

/// Why a numeral has no value here: the first of these that holds.
#[derive(Clone, Copy, Debug, PartialEq, Eq, Error)]
pub enum NumberFault {
    /// N1: the bytes are no numeral.
    #[error("not a numeral")]
    NotANumeral,
    /// N2: it is longer than 400 bytes, or its written exponent is beyond 400 in size.
    #[error("a numeral of over 400 bytes, or an exponent beyond 400")]
    TooLong,
    /// N3: its value is beyond 10,000,000 in size.
    #[error("a number beyond 10,000,000")]
    TooLarge,
    /// N4: a digit past the sixth decimal isn't 0, if the exact value is asked for.
    #[error("a number with more than six decimals")]
    TooFine,
}

/// Which way a number is rounded to whole millionths.
#[derive(Clone, Copy, Debug, PartialEq, Eq)]
pub enum Rounding {
    /// To the greatest whole number of millionths that isn't above it.
    Down,
    /// To the least whole number of millionths that isn't below it.
    Up,
}

impl Rounding {
    /// Tests whether this rounding takes a number, negative or not, away from 0.
    #[inline(always)]
    fn is_away(self, negative: bool) -> bool
        ensures { result ≡ is_away self negative }
    {
        match self {
            Rounding::Down => negative,
            Rounding::Up => !negative,
        }
    }
}

const LONGEST: usize = 400;

const LARGEST_EXPONENT: usize = 400;

/// What stands for every exponent that is larger.
const BEYOND_EXPONENTS: usize = LARGEST_EXPONENT + 1;

pub(crate) const LARGEST: u64 = 10_000_000_000_000;

/// How many millionths make one.
pub(crate) const MILLION: u64 = 1_000_000;

/// A size in millionths, rounded down, and whether that left something out.
#[derive(Clone, Copy)]
pub(crate) struct Size {
    pub(crate) floor: u64,
    pub(crate) is_inexact: bool,
}

impl Size {
    /// Returns the size rounded up.
    fn ceiling(self) -> u64
        requires { self.floor ≤ size_cap }
        ensures { result ≡ ceiling self.floor self.is_inexact }
    {
        if self.is_inexact {
            self.floor + 1
        } else {
            self.floor
        }
    }

    /// Returns the size rounded up, or down.
    fn rounded(self, up: bool) -> u64
        requires { self.floor ≤ size_cap }
        ensures { result ≡ rounded up self.floor self.is_inexact }
    {
        if up { self.ceiling() } else { self.floor }
    }

    /// Returns the size with this sign before it, rounded this way.
    #[inline(always)]
    pub(crate) fn value(self, rounding: Rounding, negative: bool) -> i64
        requires { ceiling self.floor self.is_inexact ≤ largest }
        ensures { (bs : List ℕ) → Measures bs self.floor self.is_inexact
            → IsRounded rounding negative bs result }
    {
        signed(negative, self.rounded(rounding.is_away(negative)))
    }
}

/// Returns the exact value of a numeral with the sign before it, in millionths.
///
/// # Errors
///
/// The first that holds: no numeral, more than 400 bytes or an exponent of more than 400 in size, a value beyond 10,000,000 in
/// size, no whole number of millionths.
#[inline]
pub fn scaled_of(negative: bool, numeral: &[u8]) -> Result<i64, NumberFault>
    ensures value { IfOk result (λ h. IsReadable numeral.now × IsExact negative numeral.now h) }
    ensures fault { IfErr result (IsRefusedExactly negative numeral.now) }
{
    let size = size_of(numeral)?;
    if size.is_inexact {
        return Err(NumberFault::TooFine);
    }
    Ok(signed(negative, size.floor))
}

/// Returns the value of a numeral with the sign before it, in millionths and rounded down (a negative one away from 0). Only tests call it;
/// readers call `rounded_of`.
///
/// # Errors
///
/// Those of `scaled_of`, but for the last.
#[inline]
pub fn floor_of(negative: bool, numeral: &[u8]) -> Result<i64, NumberFault>
    ensures value { IfOk result (λ h. IsReadable numeral.now × IsFloor negative numeral.now h) }
    ensures fault { IfErr result (IsRefused numeral.now) }
{
    rounded_of(Rounding::Down, negative, numeral)
}

/// Returns the value of a numeral with the sign before it, in millionths and rounded up (a negative one towards 0). Only tests call it;
/// readers call `rounded_of`.
///
/// # Errors
///
/// Those of `floor_of`.
#[inline]
pub fn ceil_of(negative: bool, numeral: &[u8]) -> Result<i64, NumberFault>
    ensures value { IfOk result (λ h. IsReadable numeral.now × IsCeil negative numeral.now h) }
    ensures fault { IfErr result (IsRefused numeral.now) }
{
    rounded_of(Rounding::Up, negative, numeral)
}

/// Returns the value of a numeral with the sign before it, in millionths and rounded down or up.
///
/// # Errors
///
/// Those of `floor_of`.
#[inline]
pub fn rounded_of(rounding: Rounding, negative: bool, numeral: &[u8]) -> Result<i64, NumberFault>
    ensures value { IfOk result (λ h. IsReadable numeral.now × IsRounded rounding negative numeral.now h) }
    ensures fault { IfErr result (IsRefused numeral.now) }
{
    let size = size_of(numeral)?;
    Ok(size.value(rounding, negative))
}

/// Returns the number of this sign and size.
#[inline(always)]
pub(crate) fn signed(negative: bool, size: u64) -> i64
    requires { size ≤ largest }
    ensures { result ≡ signed negative size }
{
    if negative {
        -(size as i64)
    } else {
        size as i64
    }
}

/// Tests whether the bytes are a numeral.
fn is_numeral(bytes: &[u8]) -> bool
    ensures { result ≡ is_numeral bytes.now }
{
    let mut state = State::Start;
    for byte in bytes {
        state = state.after(class_of(*byte));
    }
    state.is_numeral()
}

#[derive(Clone, Copy)]
enum Separator {
    Point,
    ExponentMark,
}

/// Tests whether the byte is the separator.
#[tactic(auto, unfolding(crate::specs::Bytes::is_point, crate::specs::Bytes::is_exponent_mark))]
fn separates(separator: Separator, byte: u8) -> bool
    ensures { result ≡ separates separator byte }
{
    match separator {
        Separator::Point => byte == b'.',
        Separator::ExponentMark => byte == b'e' || byte == b'E',
    }
}

/// Returns the bytes before the first separator and those after it. If there is none, these are all bytes and none.
fn split_at_first(bytes: &[u8], separator: Separator) -> (&[u8], &[u8])
    ensures before { result.0.now ≡ before_first (separates separator) bytes.now }
    ensures after { result.1.now ≡ after_first (separates separator) bytes.now }
{
    for (i, byte) in bytes.iter().enumerate() {
        if separates(separator, *byte) {
            return (&bytes[..i], &bytes[i + 1..]);
        }
    }
    (bytes, &[])
}

/// A number that is cut off after this many digits, read digit by digit.
#[derive(Clone, Copy)]
struct Scaling {
    floor: u64,
    left: usize,
    is_inexact: bool,
}

const CAP: u64 = LARGEST + 1;

impl Scaling {
    /// Returns the scaling after one more digit.
    fn after(self, digit: u8) -> Scaling
        requires digit { is_digit digit ≡ true }
        requires small { self.floor ≤ size_cap }
        ensures scaled { (kept : ℕ) (front : List ℕ) → IsScaled kept front self
            → IsScaled kept (front ++ digit ∷ []) result }
        ensures small { result.floor ≤ size_cap }
    {
        if self.left == 0 {
            Scaling {
                is_inexact: self.is_inexact || digit != b'0',
                ..self
            }
        } else {
            Scaling {
                floor: (self.floor * 10 + u64::from(digit - b'0')).min(CAP),
                left: self.left - 1,
                is_inexact: self.is_inexact,
            }
        }
    }

    /// Returns the scaling after all these digits.
    fn after_digits(self, digits: &[u8]) -> Scaling
        requires digits { list_all is_digit digits.now ≡ true }
        requires small { self.floor ≤ size_cap }
        ensures scaled { (kept : ℕ) (front : List ℕ) → IsScaled kept front self
            → IsScaled kept (front ++ digits.now) result }
        ensures small { result.floor ≤ size_cap }
    {
        let mut scaling = self;
        for digit in digits {
            scaling = scaling.after(*digit);
        }
        scaling
    }
}

/// Returns the number with this many zeros at its end, or `CAP`, one above the largest size, if that is less.
#[inline(always)]
pub(crate) fn with_zeros(number: u64, zeros: usize) -> u64
    requires { number ≤ size_cap }
    ensures { (n : ℕ) → number ≡ min size_cap n → result ≡ min size_cap (n * 10 ^ zeros) }
{
    let mut number = number;
    for _ in 0..zeros {
        number = (number * 10).min(CAP);
    }
    number
}

/// The parts of a numeral: the digits before the point and those after it, and the exponent.
#[derive(Clone, Copy)]
struct Parts<'a> {
    whole: &'a [u8],
    fraction: &'a [u8],
    is_lowering: bool,
    exponent: &'a [u8],
}

/// Splits a numeral at its `e` and its point.
fn parts_of(numeral: &[u8]) -> Parts<'_>
    ensures whole { result.whole.now ≡ whole_of numeral.now }
    ensures fraction { result.fraction.now ≡ fraction_of numeral.now }
    ensures is_lowering { result.is_lowering ≡ is_lowering (exponent_of numeral.now) }
    ensures exponent { result.exponent.now ≡ without_sign (exponent_of numeral.now) }
{
    let (mantissa, exponent) = split_at_first(numeral, Separator::ExponentMark);
    let (whole, fraction) = split_at_first(mantissa, Separator::Point);
    let (is_lowering, exponent) = split_sign(exponent);
    Parts {
        whole,
        fraction,
        is_lowering,
        exponent,
    }
}

/// Returns whether the exponent begins with a minus, and its digits, without a sign.
#[tactic(auto, unfolding(crate::specs::Bytes::is_sign))]
pub fn split_sign(exponent: &[u8]) -> (bool, &[u8])
    ensures is_lowering { result.0 ≡ is_lowering exponent.now }
    ensures digits { result.1.now ≡ without_sign exponent.now }
{
    match exponent {
        [b'-', digits @ ..] => (true, digits),
        [b'+', digits @ ..] => (false, digits),
        _ => (false, exponent),
    }
}

/// Returns the first `kept` digits as a number (with zeros if there are fewer), or `CAP` if that is less; and whether a later digit isn't
/// 0.
fn leading_size(whole: &[u8], fraction: &[u8], kept: usize) -> Size
    requires whole { list_all is_digit whole.now ≡ true }
    requires fraction { list_all is_digit fraction.now ≡ true }
    ensures floor { let digits = whole.now ++ fraction.now in
        result.floor ≡ min size_cap (digits_value 10 (take kept digits) * 10 ^ (kept - length digits)) }
    ensures is_inexact { result.is_inexact ≡ list_any is_nonzero (drop kept (whole.now ++ fraction.now)) }
    ensures small { result.floor ≤ size_cap }
{
    let none = Scaling {
        floor: 0,
        left: kept,
        is_inexact: false,
    };
    let scaling = none.after_digits(whole).after_digits(fraction);
    Size {
        floor: with_zeros(scaling.floor, scaling.left),
        is_inexact: scaling.is_inexact,
    }
}

/// Returns the size of a numeral in millionths, and whether rounding it down left something out. An error says why it has no value (N1 to
/// N3).
#[inline(never)]
pub fn size_of(numeral: &[u8]) -> Result<Size, NumberFault>
    ensures value { MatchResult result
        (λ size. IsReadable numeral.now × Measures numeral.now size.floor size.is_inexact)
        (IsRefused numeral.now) }
    ensures small { IfOk result (λ size. ceiling size.floor size.is_inexact ≤ largest) }
{
    if !is_numeral(numeral) {
        return Err(NumberFault::NotANumeral);
    }
    if numeral.len() > LONGEST {
        return Err(NumberFault::TooLong);
    }
    let parts = parts_of(numeral);
    size_of_parts(
        parts.whole,
        parts.fraction,
        parts.is_lowering,
        parts.exponent,
    )
}

/// Returns the size of a numeral with these parts, in millionths, and whether rounding it down left something out: the digits before its
/// point and those after it, and the digits of its exponent. An error says why it has no value.
pub fn size_of_parts(
    whole: &[u8],
    fraction: &[u8],
    is_lowering: bool,
    exponent: &[u8],
) -> Result<Size, NumberFault>
    requires { (bs : List ℕ) × HasParts bs whole.now fraction.now is_lowering exponent.now }
    ensures value { (bs : List ℕ) → HasParts bs whole.now fraction.now is_lowering exponent.now
        → MatchResult result (λ size. IsReadable bs × Measures bs size.floor size.is_inexact) (IsRefused bs) }
    ensures small { IfOk result (λ size. ceiling size.floor size.is_inexact ≤ largest) }
{
    let exponent = number_up_to(BEYOND_EXPONENTS, exponent);
    if exponent > LARGEST_EXPONENT {
        return Err(NumberFault::TooLong);
    }
    let kept = kept_digits(whole.len(), is_lowering, exponent);
    let size = leading_size(whole, fraction, kept);
    if size.ceiling() > LARGEST {
        return Err(NumberFault::TooLarge);
    }
    Ok(size)
}

/// Returns how many digits count: those before the point and six after it, moved by the exponent.
fn kept_digits(whole: usize, is_lowering: bool, exponent: usize) -> usize
    requires whole { whole ≤ 400 }
    requires exponent { exponent ≤ 400 }
    ensures { result ≡ (if is_lowering then whole + 6 - exponent else whole + 6 + exponent) }
{
    if is_lowering {
        (whole + 6).saturating_sub(exponent)
    } else {
        whole + 6 + exponent
    }
}

/// Tests whether the byte is a decimal digit.
#[inline(always)]
#[tactic(auto, unfolding(crate::specs::Bytes::is_digit))]
fn is_digit(byte: u8) -> bool
    ensures { result ≡ is_digit byte }
{
    matches!(byte, b'0'..=b'9')
}

/// Tests whether no byte is other than a digit: `true` also for no bytes.
#[inline(always)]
pub fn all_digits(bytes: &[u8]) -> bool
    ensures { result ≡ list_all is_digit bytes.now }
{
    bytes.iter().all(|byte| is_digit(*byte))
}

/// Tests whether the bytes are digits, and at least one.
#[inline(always)]
fn are_digits(bytes: &[u8]) -> bool
    ensures { result ≡ are_digits bytes.now }
{
    match bytes {
        [] => false,
        _ => all_digits(bytes),
    }
}

/// Returns the number that the digits spell, or `most` if that is less.
#[inline(always)]
pub fn number_up_to(most: usize, digits: &[u8]) -> usize
    requires digits { list_all is_digit digits.now ≡ true }
    requires some { 0 < most }
    requires small { most < 2 ^ 60 }
    ensures { result ≡ min most (digits_value 10 digits.now) }
{
    let mut number: usize = 0;
    for digit in digits {
        number = (number * 10 + (*digit - b'0') as usize).min(most);
    }
    number
}

/// Returns the number that the bytes spell, or `most` if that is less. `None`: they are not digits only, or there are none.
pub fn whole_number(most: usize, bytes: &[u8]) -> Option<usize>
    requires some { 0 < most }
    requires small { most < 2 ^ 60 }
    ensures { MatchOption result (are_digits bytes.now ≡ false)
        (λ n. (are_digits bytes.now ≡ true) × (n ≡ min most (digits_value 10 bytes.now))) }
{
    if are_digits(bytes) {
        Some(number_up_to(most, bytes))
    } else {
        None
    }
}

/// How many bytes there is room for: more than the text of a number of millionths has.
const TEXT_ROOM: usize = 32;

/// Where the whole part of a number ends in this room.
const WHOLE_END: usize = 16;

/// Puts a byte after the first `at` bytes, and returns `at + 1`.
#[inline(always)]
fn put(text: &mut [u8], at: usize, byte: u8) -> usize
    requires { at < length text.old }
    ensures text { take result text.new ≡ take at text.old ++ byte ∷ [] }
    ensures end { result ≡ at + 1 }
{
    text[at] = byte;
    at + 1
}

/// Puts the text of a number of millionths into this room, and returns where it starts and where it ends.
#[inline(always)]
fn put_scaled(text: &mut [u8], scaled: i64) -> (usize, usize)
    requires { length text.old ≡ 32 }
    ensures text { drop result.0 (take result.1 text.new) ≡ scaled_text scaled }
    ensures place { (result.0 ≤ result.1) × (result.1 ≤ 24) }
{
    let start = put_whole(text, scaled);
    let end = put_fraction(text, WHOLE_END, scaled.unsigned_abs() % MILLION);
    (start, end)
}

/// Puts the sign and the whole part of a number of millionths before `WHOLE_END`, and returns where they start.
#[inline(always)]
fn put_whole(text: &mut [u8], scaled: i64) -> usize
    requires { length text.old ≡ 32 }
    ensures start { result ≤ 16 }
    ensures whole { drop result (take 16 text.new) ++ fraction_text (unsigned_abs scaled % 1_000_000)
        ≡ scaled_text scaled }
{
    let start = write_digits(scaled.unsigned_abs() / MILLION, text, WHOLE_END);
    if scaled < 0 {
        text[start - 1] = b'-';
        return start - 1;
    }
    start
}

/// Puts a point and this many millionths below one after the first `at` bytes, or nothing if there are none.
#[inline(always)]
fn put_fraction(text: &mut [u8], at: usize, rest: u64) -> usize
    requires room { at ≤ 17 }
    requires length { length text.old ≡ 32 }
    requires rest { rest < 1_000_000 }
    ensures text { take result text.new ≡ take at text.old ++ fraction_text rest }
    ensures end { (at ≤ result) × (result ≤ 24) }
{
    if rest > 0 {
        let point = put(text, at, b'.');
        return put_decimals(text, point, rest);
    }
    at
}

/// Puts the digits of this many millionths below one after the first `at` bytes, without zeros at the end.
#[inline(always)]
fn put_decimals(text: &mut [u8], at: usize, rest: u64) -> usize
    requires room { at ≤ 18 }
    requires length { length text.old ≡ 32 }
    requires rest { rest < 1_000_000 }
    ensures text { take result text.new ≡ take at text.old ++ decimals 6 rest }
    ensures end { (at ≤ result) × (result ≤ 24) }
{
    let mut end = at;
    let mut rest = rest;
    let mut unit = MILLION;
    while rest > 0 {
        unit /= 10;
        end = put(text, end, b'0' + (rest / unit) as u8);
        rest %= unit;
    }
    end
}

ghost use Rattle.polcert_text.specs.Numbers.{DenotesNumber};
ghost use Rattle.polcert_text.specs.Sink.{WritesText};

/// Writes a number of millionths: a `-` if it is negative, the whole part, and after a point the decimals without
/// trailing zeros, if one is left.
pub fn write_scaled<W: Sink>(scaled: i64, out: &mut W) -> Result<(), SinkFailed>
    ensures written { WritesText W.writes W.failures out.old (scaled_text scaled) result out.new }

    // Read as a sign and a numeral, the text denotes just this number.
    ensures exact { DenotesNumber (scaled_text scaled) scaled }
{
    let mut text = [0; TEXT_ROOM];
    let (start, end) = put_scaled(&mut text, scaled);
    write_all(out, &text[start..end])
}

/// Writes a number of millionths as `write_scaled` does, and the byte `after` after it, in one piece.
pub fn write_scaled_then<W: Sink>(scaled: i64, after: u8, out: &mut W) -> Result<(), SinkFailed>
    ensures { WritesText W.writes W.failures out.old (scaled_text scaled ++ after ∷ []) result out.new }
{
    let mut text = [0; TEXT_ROOM];
    let (start, end) = put_scaled(&mut text, scaled);
    let end = put(&mut text, end, after);
    write_all(out, &text[start..end])
}
