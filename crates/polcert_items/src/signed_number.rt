//! A number of an item: a numeral, perhaps after a sign.
ghost use Rattle.std.specs.Prelude.{◌≡◌, IfOk, IfErr, MatchOption, Some, false};
ghost use Rattle.polcert_text.specs.Reading.{lexeme_of};
ghost use Rattle.polcert_items.specs.Steps.Numbers.{IsNumberStep, RefusesNumber, IsMisplaced, IsAfterNumbers};
ghost use Rattle.polcert_items.specs.Steps.Numbers.{FitsRange, IsSignKind, IsRangeFault, is_minus_sign, signed_place};
ghost use Rattle.polcert_format.specs.Misfits.{unexpected_token, IsMisfit, begins_number, EndOfNumbers, EndOfWord};
ghost use Rattle.polcert_items.specs.Steps.Wants.{number_wants};

use polcert_cells::{ONE, is_word};
use polcert_format::ItemFault;
use polcert_text::{Token, TokenKind, scaled_of};

/// Why an item is refused, and the offset where.
#[derive(Clone, Copy, Debug, PartialEq, Eq)]
pub struct Refusal {
    pub kind: ItemFault,
    pub place: u64,
}

/// A sign whose numeral is still to come, and the offset where it stands.
#[derive(Clone, Copy)]
pub struct Sign {
    pub negative: bool,
    pub place: u64,
}

/// Which numbers may stand in a place.
#[derive(Clone, Copy)]
pub enum Range {
    /// From 0 to 1.
    Discount,
    /// From 0 to 1.
    Probability,
    /// Any number.
    Reward,
}

/// What a token says in a number's place: a sign, or with the sign before it the number in millionths.
#[derive(Clone, Copy)]
pub enum NumberStep {
    Sign(Sign),
    Value(i64),
}

/// Returns what the token gives in a number's place, after `sign` if one came: the value, or a sign whose numeral is still to come.
#[inline(always)]
pub fn number_step(
    sign: Option<Sign>,
    token: Token<'_>,
    range: Range,
) -> Result<NumberStep, Refusal>
    ensures step { IfOk result (IsNumberStep range sign (lexeme_of token.entry)) }
    ensures refused { IfErr result (λ r. RefusesNumber range sign (lexeme_of token.entry) r.kind r.place) }
    ensures kind { IfErr result (λ r. IsMisfit (number_wants sign) (lexeme_of token.entry) r.kind) }
{
    match token.kind {
        TokenKind::Numeral => numeral_step(sign, token, range),
        TokenKind::Plus => sign_step(sign, token, false, range),
        TokenKind::Minus => sign_step(sign, token, true, range),
        _ => Err(misplaced(token)),
    }
}

/// Returns the token as a sign, or its refusal if a sign came before.
fn sign_step(
    sign: Option<Sign>,
    token: Token<'_>,
    negative: bool,
    range: Range,
) -> Result<NumberStep, Refusal>
    requires { IsSignKind negative token.kind }
    ensures step { IfOk result (IsNumberStep range sign (lexeme_of token.entry)) }
    ensures refused { IfErr result (λ r. RefusesNumber range sign (lexeme_of token.entry) r.kind r.place) }
    ensures kind { IfErr result (λ r. IsMisfit (number_wants sign) (lexeme_of token.entry) r.kind) }
{
    match sign {
        Some(_) => Err(misplaced(token)),
        None => Ok(NumberStep::Sign(Sign {
            negative,
            place: token.place,
        })),
    }
}

/// Returns the value of the numeral, with the sign before it. It is refused without a value, or out of the range.
#[inline(always)]
fn numeral_step(sign: Option<Sign>, token: Token<'_>, range: Range) -> Result<NumberStep, Refusal>
    requires { token.kind ≡ TokenKind.Numeral }
    ensures step { IfOk result (IsNumberStep range sign (lexeme_of token.entry)) }
    ensures refused { IfErr result (λ r. RefusesNumber range sign (lexeme_of token.entry) r.kind r.place) }
    ensures kind { IfErr result (λ r. IsMisfit (number_wants sign) (lexeme_of token.entry) r.kind) }
{
    let place = number_place(sign, token);
    match scaled_of(is_negative(sign), token.bytes) {
        Ok(value) => match range_fault(range, value) {
            None => Ok(NumberStep::Value(value)),
            Some(kind) => Err(Refusal { kind, place }),
        },
        Err(fault) => Err(Refusal {
            kind: ItemFault::Number(fault),
            place,
        }),
    }
}

/// Tests whether the sign, if there is one, is a minus.
#[inline(always)]
fn is_negative(sign: Option<Sign>) -> bool
    ensures { result ≡ is_minus_sign sign }
{
    match sign {
        Some(sign) => sign.negative,
        None => false,
    }
}

/// Returns where a number begins: at its sign, if it has one.
#[inline(always)]
pub fn number_place(sign: Option<Sign>, token: Token<'_>) -> u64
    ensures { result ≡ signed_place sign (lexeme_of token.entry) }
{
    match sign {
        Some(sign) => sign.place,
        None => token.place,
    }
}

/// Returns the fault if the number is out of this range. `None`: it is in range.
#[inline(always)]
pub(crate) fn range_fault(range: Range, value: i64) -> Option<ItemFault>
    ensures { MatchOption result (FitsRange range value)
        (λ kind. (FitsRange range value → ⊥) × IsRangeFault range kind) }
{
    match range {
        Range::Reward => None,
        Range::Discount if value < 0 || value > ONE as i64 => Some(ItemFault::DiscountRange),
        Range::Probability if value < 0 || value > ONE as i64 => Some(ItemFault::ProbabilityRange),
        Range::Discount | Range::Probability => None,
    }
}

/// Refuses a token that no form has in its place.
pub fn misplaced(token: Token<'_>) -> Refusal
    ensures reason { IsMisplaced (lexeme_of token.entry) result.kind result.place }
    ensures kind { result.kind ≡ unexpected_token EndOfWord (Some (lexeme_of token.entry)) }
{
    let kind = if is_word(&token, b"reset") {
        ItemFault::Reset
    } else {
        ItemFault::BadShape
    };
    Refusal {
        kind,
        place: token.place,
    }
}

/// Refuses a token after the last number of a list.
pub fn after_numbers(token: Token<'_>) -> Refusal
    ensures reason { IsAfterNumbers (lexeme_of token.entry) result.kind result.place }
    ensures kind { result.kind ≡ unexpected_token EndOfNumbers (Some (lexeme_of token.entry)) }
{
    if begins_number(token.kind) {
        Refusal {
            kind: ItemFault::WrongNumberCount,
            place: token.place,
        }
    } else {
        misplaced(token)
    }
}

/// Tests whether a number may begin with this token: a numeral, or a sign.
pub fn begins_number(kind: TokenKind) -> bool
    ensures { result ≡ begins_number kind }
{
    match kind {
        TokenKind::Numeral | TokenKind::Plus | TokenKind::Minus => true,
        _ => false,
    }
}
