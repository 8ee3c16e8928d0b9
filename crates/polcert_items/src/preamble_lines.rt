//! The lines of the preamble, read token by token after their word.
ghost use Rattle.std.specs.Prelude.{◌≡◌, false, None, OnOk, OnErr, IfOk, IfErr, [], ◌∷◌, ◌≢◌, ◌<◌, ◌≤◌, ◌^◌};
ghost use Rattle.std.specs.Prelude.{◌↔◌, ℕ, List, ◌++◌, Some, IsTrue};
ghost use Rattle.polcert_text.specs.Reading.{lexeme_of};
ghost use Rattle.polcert_items.specs.Steps.Numbers.{IsMisplaced, SignIs};
ghost use Rattle.polcert_items.specs.Steps.Lines.{TakesLexeme, CannotTake, CannotEnd, DiscountGoes, DiscountReason};
ghost use Rattle.polcert_items.specs.Steps.Lines.{ValuesGoes, WordRest, discount_sign};
ghost use Rattle.polcert_items.specs.Steps.Items.{IsEndReason};
ghost use Rattle.polcert_format.specs.Reasons.{is_sign_kind};
ghost use Rattle.polcert_format.specs.Misfits.{unexpected_token, IsMisfit, Mark, CountOrName, FurtherName};
ghost use Rattle.polcert_format.specs.Misfits.{Index};
ghost use Rattle.polcert_items.specs.Steps.Feeding.{IsTokenStep, IfRefusal, EndsLine};
ghost use Rattle.polcert_items.specs.Steps.Wants.{expected_by_discount, expected_by_values, ExpectsNext, expected_by_elements};
ghost use Rattle.polcert_text.specs.Cut.{Lexeme};
ghost use Rattle.polcert_cells.specs.Elements.{count_of, StandsFor, most_elements};
ghost use Rattle.polcert_items.specs.Steps.Elements.{IsAsciiName, NamesGo, ElementsGo, AreNamesRead};
ghost use Rattle.polcert_items.specs.Steps.Elements.{IsElementsRead, ElementsReason, AreElementsSeen};
ghost use Rattle.polcert_items.specs.Steps.Elements.{IsCountOf};
ghost use Rattle.polcert_items.specs.Steps.Entries.{IfRefused, IsPlaceReason};
ghost use Rattle.polcert_cells.specs.Meaning.{IsCount};
ghost use Rattle.polcert_cells.specs.Words.{IsName};

use crate::item::FeedError;
use crate::signed_number::{
    NumberStep, Range, Refusal, Sign, after_numbers, misplaced, number_step,
};
use polcert_cells::{Elements, Names, Topic, is_reserved, is_word};
use polcert_format::ItemFault;
use polcert_text::{Token, TokenKind, whole_number};
use std::alloc::Global;

/// `discount:` and a number, in millionths.
#[derive(Clone, Copy)]
pub enum DiscountReader {
    Colon,
    Number(Option<Sign>),
    Done(u32),
}

impl DiscountReader {
    /// Continues with a token of the line.
    pub fn feed(&mut self, token: Token<'_>) -> Result<(), Refusal>
        ensures fed { IsTokenStep IfRefusal DiscountGoes expected_by_discount (DiscountReason self.old)
            self.old (lexeme_of token.entry) self.new result }
        ensures sign { OnOk result (SignIs (discount_sign self.new) (lexeme_of token.entry)) }
    {
        match *self {
            DiscountReader::Colon => {
                take_colon(token)?;
                *self = DiscountReader::Number(None);
                Ok(())
            }
            DiscountReader::Number(sign) => {
                *self = match number_step(sign, token, Range::Discount)? {
                    NumberStep::Sign(sign) => DiscountReader::Number(Some(sign)),
                    NumberStep::Value(value) => DiscountReader::Done(value as u32),
                };
                Ok(())
            }
            DiscountReader::Done(_) => Err(after_numbers(token)),
        }
    }

    /// Returns the discount in millionths, or the fault if the line cannot end here.
    pub fn end(self) -> Result<u32, ItemFault>
        ensures { EndsLine DiscountGoes expected_by_discount Topic.Discount self result }
    {
        match self {
            DiscountReader::Number(None) => Err(ItemFault::WrongNumberCount),
            DiscountReader::Done(discount) => Ok(discount),
            _ => Err(ItemFault::BadShape),
        }
    }
}

/// `values:` and `reward` or `cost`. It says whether rewards are written as costs.
#[derive(Clone, Copy)]
pub enum ValuesReader {
    Colon,
    Word,
    Done(bool),
}

impl ValuesReader {
    /// Continues with a token of the line.
    pub fn feed(&mut self, token: Token<'_>) -> Result<(), Refusal>
        ensures fed { IsTokenStep IfRefusal ValuesGoes expected_by_values IsMisplaced
            self.old (lexeme_of token.entry) self.new result }
        ensures sign { OnOk result (is_sign_kind (lexeme_of token.entry).kind ≡ false) }
    {
        match *self {
            ValuesReader::Colon => {
                take_colon(token)?;
                *self = ValuesReader::Word;
                Ok(())
            }
            ValuesReader::Word => {
                *self = ValuesReader::Done(costs_of(token)?);
                Ok(())
            }
            ValuesReader::Done(_) => Err(misplaced(token)),
        }
    }

    /// Returns whether the line says costs, or the fault if it cannot end here.
    pub fn end(self) -> Result<bool, ItemFault>
        ensures { EndsLine ValuesGoes expected_by_values Topic.Values self result }
    {
        match self {
            ValuesReader::Done(costs) => Ok(costs),
            _ => Err(ItemFault::BadShape),
        }
    }
}

/// Returns whether the word says that costs are written. An error: it is neither `reward` nor `cost`.
fn costs_of(token: Token<'_>) -> Result<bool, Refusal>
    ensures word { IfOk result (WordRest (lexeme_of token.entry ∷ [])) }
    ensures refused { OnErr result (CannotTake ValuesGoes ValuesReader.Word (lexeme_of token.entry)) }
    ensures reason { IfErr result (λ r. IsMisplaced (lexeme_of token.entry) r.kind r.place) }
    ensures sign { OnOk result (is_sign_kind (lexeme_of token.entry).kind ≡ false) }
    ensures kind { IfErr result (λ r. IsMisfit Mark (lexeme_of token.entry) r.kind) }
{
    if is_word(&token, b"reward") {
        return Ok(false);
    }
    if is_word(&token, b"cost") {
        return Ok(true);
    }
    Err(misplaced(token))
}

/// Takes the colon after an item's word.
pub fn take_colon(token: Token<'_>) -> Result<(), Refusal>
    ensures ok { OnOk result ((lexeme_of token.entry).kind ≡ TokenKind.Colon) }
    ensures refused { OnErr result ((lexeme_of token.entry).kind ≢ TokenKind.Colon) }
    ensures reason { IfErr result (λ r. IsMisplaced (lexeme_of token.entry) r.kind r.place) }
    ensures kind { IfErr result (λ r. IsMisfit Mark (lexeme_of token.entry) r.kind) }
{
    match token.kind {
        TokenKind::Colon => Ok(()),
        _ => Err(misplaced(token)),
    }
}

/// `states:`, `actions:` or `observations:` and a count or names. Each call of `feed` is given the most that there may be.
#[derive(Drop)]
pub enum ElementsReader {
    /// The colon after the item's word.
    Colon,
    /// A count or a name, after the colon.
    First,
    /// Nothing, after a count.
    Counted(usize),
    /// A further name.
    Named(Names),
}

impl ElementsReader {
    /// Continues with a token of the line.
    pub fn feed(&mut self, alloc: Global, most: usize, token: Token<'_>) -> Result<(), FeedError>
        requires text { IsAsciiName (lexeme_of token) }
        requires within { IsElementsRead most self.old }
        requires some { 1 ≤ most }
        requires small { most < 2 ^ 32 }
        ensures within { OnOk result (IsElementsRead most self.new) }
        ensures fed { IsTokenStep IfRefused (ElementsGo most) (expected_by_elements most)
            (ElementsReason self.old) self.old (lexeme_of token.entry) self.new result }
        ensures seen { (body : List Lexeme) → AreElementsSeen body self.old
            → OnOk result (AreElementsSeen (body ++ lexeme_of token.entry ∷ []) self.new) }
        ensures sign { OnOk result (is_sign_kind (lexeme_of token.entry).kind ≡ false) }
    {
        match self {
            ElementsReader::Colon => {
                take_colon(token)?;
                *self = ElementsReader::First;
                Ok(())
            }
            ElementsReader::First => {
                *self = begin_elements(alloc, most, token)?;
                Ok(())
            }
            ElementsReader::Counted(_) => Err(FeedError::Refused(misplaced(token))),
            ElementsReader::Named(names) => add_name(names, alloc, most, token),
        }
    }

    /// Returns the elements, or the fault if the line cannot end here.
    pub fn end(self) -> Result<Elements, ItemFault>
        ensures said { (most : ℕ) → IsElementsRead most self → IfOk result (ElementsGo most self []) }
        ensures within { (most : ℕ) → IsElementsRead most self
            → IfOk result (λ e. IsCount most (count_of e)) }
        ensures reason { IfErr result (IsEndReason Topic.States) }
        ensures refused { (most : ℕ) → OnErr result (CannotEnd (ElementsGo most) self) }
        ensures kind { (most : ℕ) →
            IfErr result (λ kind. kind ≡ unexpected_token (expected_by_elements most self []) None) }
    {
        match self {
            ElementsReader::Colon => Err(ItemFault::BadShape),
            ElementsReader::First => Err(ItemFault::BadCount),
            ElementsReader::Counted(count) => Ok(Elements::Count(count)),
            ElementsReader::Named(names) => Ok(Elements::Names(names)),
        }
    }
}

/// Begins the elements with the first token after the colon.
fn begin_elements(alloc: Global, most: usize, token: Token<'_>) -> Result<ElementsReader, FeedError>
    requires text { IsAsciiName (lexeme_of token) }
    requires some { 1 ≤ most }
    requires small { most < 2 ^ 32 }
    ensures within { IfOk result (IsElementsRead most) }
    ensures takes { IfOk result (TakesLexeme (ElementsGo most) ElementsReader.First (lexeme_of token.entry)) }
    ensures refused { IfErr result (λ stop. IfRefused stop (λ r.
        CannotTake (ElementsGo most) ElementsReader.First (lexeme_of token.entry))) }
    ensures reason { IfErr result (λ stop. IfRefused stop (λ r.
        ElementsReason ElementsReader.First (lexeme_of token.entry) r.kind r.place)) }
    ensures seen { (colon : Lexeme) → IfOk result (AreElementsSeen (colon ∷ lexeme_of token.entry ∷ [])) }
    ensures sign { OnOk result (is_sign_kind (lexeme_of token.entry).kind ≡ false) }
    ensures leads { IfOk result
        (λ r. ExpectsNext (expected_by_elements most ElementsReader.First) (lexeme_of token.entry)
        (expected_by_elements most r)) }
    ensures kind { IfErr result
        (λ stop. IfRefused stop (λ r. IsMisfit CountOrName (lexeme_of token.entry) r.kind)) }
{
    match token.kind {
        TokenKind::Numeral => Ok(ElementsReader::Counted(count(most, token)?)),
        _ => {
            let mut names = Names::new(alloc);
            add_name(&mut names, alloc, most, token)?;
            Ok(ElementsReader::Named(names))
        }
    }
}

/// Returns the count that the numeral stands for.
fn count(most: usize, token: Token<'_>) -> Result<usize, Refusal>
    requires numeral { token.kind ≡ TokenKind.Numeral }
    requires small { most < 2 ^ 32 }
    ensures count { IfOk result (IsCountOf most (lexeme_of token.entry)) }
    ensures refused { OnErr result
        (CannotTake (ElementsGo most) ElementsReader.First (lexeme_of token.entry)) }
    ensures reason { IfErr result
        (λ r. ElementsReason ElementsReader.First (lexeme_of token.entry) r.kind r.place) }
    ensures kind { IfErr result (λ r. r.kind ≡ unexpected_token CountOrName (Some (lexeme_of token.entry))) }
{
    match whole_number(most + 1, token.bytes) {
        Some(count) if 1 <= count && count <= most => Ok(count),
        _ => Err(bad_count(token)),
    }
}

/// Puts the name that the token is after the others. It is refused if there are `most` already, or if it is among them or reserved.
fn add_name(
    names: &mut Names,
    alloc: Global,
    most: usize,
    token: Token<'_>,
) -> Result<(), FeedError>
    requires text { IsAsciiName (lexeme_of token) }
    requires within { AreNamesRead most names.old }
    ensures name { OnOk result (IsName (lexeme_of token.entry)) }
    ensures added { OnOk result (names.new ≡ names.old ++ token.entry.bytes.now ∷ []) }
    ensures within { OnOk result (AreNamesRead most names.new) }
    ensures refused { IfErr result
        (λ stop. IfRefused stop (λ r. CannotTake (NamesGo most) names.old (lexeme_of token.entry))) }
    ensures reason { IfErr result (λ stop. IfRefused stop (λ r.
        ElementsReason (ElementsReader.Named names.old) (lexeme_of token.entry) r.kind r.place)) }
    ensures kind { IfErr result (λ stop. IfRefused stop (λ r.
        r.kind ≡ unexpected_token (FurtherName most names.old) (Some (lexeme_of token.entry)))) }
{
    if !is_name(token) {
        return Err(FeedError::Refused(misplaced(token)));
    }
    if names.len() == most {
        return Err(FeedError::Refused(bad_count(token)));
    }
    if names.push(alloc, token.bytes)? {
        Ok(())
    } else {
        Err(FeedError::Refused(Refusal {
            kind: ItemFault::DuplicateName,
            place: token.place,
        }))
    }
}

/// Tests whether the token is a name that isn't reserved.
fn is_name(token: Token<'_>) -> bool
    ensures { IsTrue result ↔ IsName (lexeme_of token.entry) }
{
    match token.kind {
        TokenKind::Name => !is_reserved(token.bytes),
        _ => false,
    }
}

/// Refuses a token that is no count from 1 to the most, or a name too many.
fn bad_count(token: Token<'_>) -> Refusal
    ensures kind { result.kind ≡ ItemFault.BadCount }
    ensures place { result.place ≡ token.entry.place }
{
    Refusal {
        kind: ItemFault::BadCount,
        place: token.place,
    }
}

/// Returns the number of the element that the token names, by number or by name.
#[inline(always)]
pub fn element_of(token: Token<'_>, elements: &Elements) -> Result<usize, Refusal>
    requires few { count_of elements.now ≤ most_elements }
    requires text { IsAsciiName (lexeme_of token) }
    ensures element { IfOk result (StandsFor elements.now (lexeme_of token.entry)) }
    ensures refused { OnErr result ((index : ℕ) → StandsFor elements.now (lexeme_of token.entry) index → ⊥) }
    ensures reason { IfErr result (λ r. IsPlaceReason (lexeme_of token.entry) r.kind r.place) }
    ensures kind { IfErr result (λ r. r.kind ≡ unexpected_token Index (Some (lexeme_of token.entry))) }
{
    match token.kind {
        TokenKind::Numeral => element_by_number(token, elements),
        TokenKind::Name => element_by_name(token, elements),
        _ => Err(misplaced(token)),
    }
}

/// Returns the number of an element that the numeral gives, or its refusal if there are fewer elements.
#[inline(always)]
fn element_by_number(token: Token<'_>, elements: &Elements) -> Result<usize, Refusal>
    requires few { count_of elements.now ≤ most_elements }
    requires numeral { token.kind ≡ TokenKind.Numeral }
    ensures element { IfOk result (StandsFor elements.now (lexeme_of token.entry)) }
    ensures refused { OnErr result ((index : ℕ) → StandsFor elements.now (lexeme_of token.entry) index → ⊥) }
    ensures reason { IfErr result (λ r. IsPlaceReason (lexeme_of token.entry) r.kind r.place) }
    ensures kind { IfErr result (λ r. r.kind ≡ unexpected_token Index (Some (lexeme_of token.entry))) }
{
    let count = elements.count();
    match whole_number(count + 1, token.bytes) {
        Some(index) if index < count => Ok(index),
        Some(_) => Err(Refusal {
            kind: ItemFault::IndexOutOfRange,
            place: token.place,
        }),
        None => Err(misplaced(token)),
    }
}

/// Returns the number of the element of this name, or the refusal of a name that none has.
#[inline(always)]
pub(crate) fn element_by_name(token: Token<'_>, elements: &Elements) -> Result<usize, Refusal>
    requires name { token.kind ≡ TokenKind.Name }
    requires text { IsAsciiName (lexeme_of token) }
    ensures element { IfOk result (StandsFor elements.now (lexeme_of token.entry)) }
    ensures refused { OnErr result ((index : ℕ) → StandsFor elements.now (lexeme_of token.entry) index → ⊥) }
    ensures reason { IfErr result (λ r. IsPlaceReason (lexeme_of token.entry) r.kind r.place) }
    ensures kind { IfErr result (λ r. r.kind ≡ unexpected_token Index (Some (lexeme_of token.entry))) }
{
    if is_reserved(token.bytes) {
        return Err(misplaced(token));
    }
    match elements.number_of(token.bytes) {
        Some(index) => Ok(index),
        None => Err(Refusal {
            kind: ItemFault::UnknownName,
            place: token.place,
        }),
    }
}
