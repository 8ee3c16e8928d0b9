//! Tokens and rounded values that stand whole at the front of some bytes, cut without going through a stream.
ghost use Rattle.std.specs.Prelude.{◌≡◌, ◌≤◌, ◌∷◌, [], ℕ, length, take, IfSome, ◌+◌, ◌-◌, ◌^◌, ◌<◌};
ghost use Rattle.std.specs.Prelude.{List, drop, true, false};
ghost use Rattle.polcert_text.specs.Steps.Scan.{gap_through};
ghost use Rattle.polcert_text.specs.Beginning.{BeginWith, BeginWithOne, BeginWithNumber, BeginWithDigits, at_offset};
ghost use Rattle.polcert_text.specs.Reading.{lexeme_of};
ghost use Rattle.polcert_text.specs.Steps.ScanOf.{IsNumberFrom};
ghost use Rattle.polcert_text.specs.FrontValues.{BeginWithValue};
ghost use Rattle.polcert_text.specs.Steps.FrontSizes.{EndsAsSize};
ghost use Rattle.polcert_text.specs.Steps.Scaling.{ceiling};
ghost use Rattle.polcert_text.specs.Numbers.{largest};

use crate::bytes::{
    is_blank, quick_ends_gap, quick_is_blank, quick_is_colon, quick_is_letter, quick_is_minus,
    quick_sign,
};
use crate::front_numerals::{FrontSize, MOST_WHOLE, any_numeral, ended_digits, plain_numeral};
use crate::number::{Rounding, signed};
use crate::tokens::{
    Gap, LONGEST_TOKEN, Token, TokenKind, ended_name, ended_name_or_mark, gap_prefix,
};

/// The spellings that a function reads. It is a constant at each call, so that no test is made for spellings that are not read.
#[derive(Clone, Copy)]
enum Spelling {
    /// A few digits, perhaps with a point and decimals.
    Plain,
    Any,
}

/// An unsigned number at the front of some bytes: its value, and how many bytes it takes with the blanks before it.
#[derive(Clone, Copy)]
pub struct FrontDigits {
    pub len: usize,
    pub value: u64,
}

/// A number with its sign at the front of some bytes: its value in millionths, and how many bytes it takes with the blanks before it.
#[derive(Clone, Copy)]
pub struct FrontNumber {
    pub len: usize,
    pub value: i64,
}

/// Returns how many bytes a colon at the front takes, with the blanks before it. `None`: unknown, take the
/// slow path.
#[inline(always)]
pub fn front_colon(bytes: &[u8]) -> Option<usize>
    ensures { IfSome result (λ len. (place : ℕ) → BeginWithOne place bytes.now len TokenKind.Colon) }
{
    let start = near_gap(bytes);
    if start + 1 < bytes.len() && quick_is_colon(bytes[start]) {
        return Some(start + 1);
    }
    None
}

/// Returns the token that the bytes begin with, if it is a name or a mark and a byte follows it. Its place
/// and its end are counted from the first of the bytes. `None`: unknown, take the slow path.
#[inline(always)]
pub fn front_token(bytes: &[u8]) -> Option<Token<'_>>
    ensures { IfSome result (λ token. (place : ℕ) →
        BeginWith place bytes.now token.stop (at_offset place (lexeme_of token) ∷ [])) }
{
    let start = near_gap(bytes);
    let rest = &bytes[start..];
    if rest.len() < 2 {
        return None;
    }
    match ended_name_or_mark(rest) {
        Some(front) if front.len <= LONGEST_TOKEN => Some(Token {
            kind: front.kind,
            place: start as u64,
            stop: (start + front.len) as u64,
            bytes: &rest[..front.len],
        }),
        _ => None,
    }
}

/// Returns the name that the bytes begin with, if a byte follows it. Its place and its end are counted from the first of the bytes.
/// `None`: unknown.
#[inline(always)]
pub fn front_name(bytes: &[u8]) -> Option<Token<'_>>
    ensures front { IfSome result (λ token. (place : ℕ) →
        BeginWith place bytes.now token.stop (at_offset place (lexeme_of token) ∷ [])) }
    ensures name { IfSome result (λ token. token.kind ≡ TokenKind.Name) }
{
    let start = near_gap(bytes);
    let rest = &bytes[start..];
    if rest.is_empty() || !quick_is_letter(rest[0]) {
        return None;
    }
    match ended_name(rest) {
        Some(front) if front.len <= LONGEST_TOKEN => Some(Token {
            kind: front.kind,
            place: start as u64,
            stop: (start + front.len) as u64,
            bytes: &rest[..front.len],
        }),
        _ => None,
    }
}

/// Returns the number in millionths that the bytes begin with, if its numeral ends before the last of them, perhaps directly after a
/// sign. `None`: unknown, take the slow path.
#[inline(always)]
pub fn front_number(bytes: &[u8]) -> Option<FrontNumber>
    ensures { IfSome result (λ found. (place : ℕ) → BeginWithNumber place bytes.now found) }
{
    match number_at(Spelling::Plain, bytes, near_gap(bytes)) {
        Some(number) => Some(number),
        None => any_number(bytes),
    }
}

/// Returns what `front_number` does, for a numeral of any spelling: called if the numeral isn't `Plain`.
#[inline(never)]
fn any_number(bytes: &[u8]) -> Option<FrontNumber>
    ensures { IfSome result (λ found. (place : ℕ) → BeginWithNumber place bytes.now found) }
{
    number_at(Spelling::Any, bytes, near_gap(bytes))
}

/// Returns the number of this spelling that begins at index `start`, where a gap ends. `None`: unknown.
#[inline(always)]
fn number_at(spelling: Spelling, bytes: &[u8], start: usize) -> Option<FrontNumber>
    requires within { start ≤ length bytes.now }
    requires gap { gap_through Gap.Between (take start bytes.now) ≡ Gap.Between }
    ensures { IfSome result (λ found. (place : ℕ) → BeginWithNumber place bytes.now found) }
{
    if start == bytes.len() {
        return None;
    }
    match quick_sign(bytes[start]) {
        None => number_from(spelling, bytes, start, false),
        Some(is_negative) => number_from(spelling, bytes, start + 1, is_negative),
    }
}

/// Returns the number whose numeral begins at index `from`, negative if a `-` stood before it. `None`: unknown.
#[inline(always)]
fn number_from(
    spelling: Spelling,
    bytes: &[u8],
    from: usize,
    is_negative: bool,
) -> Option<FrontNumber>
    requires { from ≤ length bytes.now }
    ensures { IfSome result (IsNumberFrom bytes.now from is_negative) }
{
    match numeral_in(spelling, &bytes[from..]) {
        Some(numeral) => exact_number(from, is_negative, numeral),
        None => None,
    }
}

/// Returns the numeral at the front, if it is of this spelling and a byte after it ends it. `None`: unknown.
#[inline(always)]
fn numeral_in(spelling: Spelling, bytes: &[u8]) -> Option<FrontSize>
    ensures { IfSome result (EndsAsSize bytes.now) }
{
    match spelling {
        Spelling::Plain => plain_numeral(bytes),
        Spelling::Any => any_numeral(bytes),
    }
}

/// Returns the number of a numeral that begins at index `from`, with its sign. `None` if a decimal after the sixth isn't 0: the slow path
/// refuses it.
#[inline(always)]
fn exact_number(from: usize, is_negative: bool, numeral: FrontSize) -> Option<FrontNumber>
    requires room { from + numeral.len < 2 ^ 64 }
    requires small { ceiling numeral.size.floor numeral.size.is_inexact ≤ largest }
    ensures { (bytes : List ℕ) → EndsAsSize (drop from bytes) numeral
        → IfSome result (IsNumberFrom bytes from is_negative) }
{
    if numeral.size.is_inexact {
        return None;
    }
    Some(FrontNumber {
        len: from + numeral.len,
        value: signed(is_negative, numeral.size.floor),
    })
}

/// Returns the number that the bytes begin with, if it is a few digits and a byte follows that ends
/// them. `None`: unknown, take the slow path.
#[inline(always)]
pub fn front_digits(bytes: &[u8]) -> Option<FrontDigits>
    ensures { IfSome result (λ number. (place : ℕ) → BeginWithDigits place bytes.now number) }
{
    let start = near_gap(bytes);
    match ended_digits(&bytes[start..]) {
        Some(number) => Some(FrontDigits {
            len: start + number.len,
            value: number.value,
        }),
        None => None,
    }
}

/// A colon and an unsigned number after it at the front of some bytes: how many bytes the colon takes with the blank before it, and
/// the number in what follows.
#[derive(Clone, Copy)]
pub struct FrontIndex {
    pub colon: usize,
    pub digits: FrontDigits,
}

/// Returns the colon and the digits after it that the bytes begin with. `None`: unknown,
/// take the slow path.
#[inline(always)]
pub fn front_index(bytes: &[u8]) -> Option<FrontIndex>
    ensures colon { IfSome result (λ index. (place : ℕ) →
        BeginWithOne place bytes.now index.colon TokenKind.Colon) }
    ensures digits { IfSome result (λ index. (place : ℕ) →
        BeginWithDigits place (drop index.colon bytes.now) index.digits) }
{
    // (Tested once for all that follow.)
    if bytes.len() < INDEX_ROOM {
        return None;
    }
    let Some(colon) = front_colon(bytes) else {
        return None;
    };
    match front_digits(&bytes[colon..]) {
        Some(digits) => Some(FrontIndex { colon, digits }),
        None => None,
    }
}

/// Two spaces, a colon, the digits, and a byte after them.
const INDEX_ROOM: usize = 3 + MOST_WHOLE + 1;

/// Returns how long the gap at the front is, or less of it. Most gaps are one blank or none.
#[inline(always)]
fn near_gap(bytes: &[u8]) -> usize
    ensures within { result ≤ length bytes.now }
    ensures gap { gap_through Gap.Between (take result bytes.now) ≡ Gap.Between }
{
    if bytes.len() < 2 {
        return 0;
    }
    if quick_is_blank(bytes[0]) && quick_ends_gap(bytes[1]) {
        return 1;
    }
    if quick_ends_gap(bytes[0]) {
        return 0;
    }
    far_gap(bytes)
}

/// Returns how long the gap at the front is. 0 if a comment doesn't end within the bytes.
#[inline(never)]
fn far_gap(bytes: &[u8]) -> usize
    ensures within { result ≤ length bytes.now }
    ensures gap { gap_through Gap.Between (take result bytes.now) ≡ Gap.Between }
{
    // (Most are one tab.)
    if 1 < bytes.len() && is_blank(bytes[0]) && quick_ends_gap(bytes[1]) {
        return 1;
    }
    match gap_prefix(Gap::Between, bytes) {
        (len, Gap::Between) => len,
        _ => 0,
    }
}

/// A value at the front of some bytes: how many bytes it takes with the blanks before it, and its millionths.
#[derive(Clone, Copy)]
pub struct FrontValue {
    pub len: usize,
    pub value: i64,
}

/// Returns the number that the bytes begin with, rounded to whole millionths, if its numeral ends before the last of them, perhaps
/// directly after a `-`. `None`: unknown, take the slow path.
#[inline(always)]
pub fn front_value(rounding: Rounding, bytes: &[u8]) -> Option<FrontValue>
    ensures { IfSome result (λ value. (place : ℕ) → BeginWithValue rounding place bytes.now value) }
{
    match value_at(Spelling::Plain, rounding, bytes, near_gap(bytes)) {
        Some(value) => Some(value),
        None => any_value(rounding, bytes),
    }
}

/// Returns what `front_value` does, for a value of any spelling: called if the numeral isn't `Plain`.
#[inline(never)]
fn any_value(rounding: Rounding, bytes: &[u8]) -> Option<FrontValue>
    ensures { IfSome result (λ value. (place : ℕ) → BeginWithValue rounding place bytes.now value) }
{
    value_at(Spelling::Any, rounding, bytes, near_gap(bytes))
}

/// Returns the value of this spelling that begins at index `start`, where a gap ends. `None`: unknown.
#[inline(always)]
fn value_at(
    spelling: Spelling,
    rounding: Rounding,
    bytes: &[u8],
    start: usize,
) -> Option<FrontValue>
    requires within { start ≤ length bytes.now }
    requires gap { gap_through Gap.Between (take start bytes.now) ≡ Gap.Between }
    ensures { IfSome result (λ value. (place : ℕ) → BeginWithValue rounding place bytes.now value) }
{
    let rest = &bytes[start..];
    if !rest.is_empty() && quick_is_minus(rest[0]) {
        let Some(numeral) = numeral_in(spelling, &rest[1..]) else {
            return None;
        };
        return Some(FrontValue {
            len: start + 1 + numeral.len,
            value: numeral.size.value(rounding, true),
        });
    }
    let Some(numeral) = numeral_in(spelling, rest) else {
        return None;
    };
    Some(FrontValue {
        len: start + numeral.len,
        value: numeral.size.value(rounding, false),
    })
}
