//! A start item, read token by token after its word, and the start that it gives.
ghost use Rattle.std.specs.Prelude.{◌≡◌, ◌≢◌, ◌<◌, ◌⊎◌, ◌++◌, ◌∷◌, [], ℕ, List, false, None, Some, is_some};
ghost use Rattle.std.specs.Prelude.{IfOk, OnOk, IfErr, OnErr, MatchOption, ◌-◌, true, ◌≤◌, length, map, sum};
ghost use Rattle.std.specs.Prelude.{if◌then◌else◌};
ghost use Rattle.polcert_text.specs.Cut.{Lexeme};
ghost use Rattle.polcert_text.specs.Reading.{lexeme_of};
ghost use Rattle.polcert_text.specs.Lexemes.{are_digits};
ghost use Rattle.polcert_cells.specs.declared.elements.Elements.{Elements as AnyElements};
ghost use Rattle.polcert_cells.specs.Elements.{count_of, most_states};
ghost use Rattle.polcert_cells.specs.Meaning.{IsCount};
ghost use Rattle.polcert_format.specs.Misfits.{unexpected_token, IsMisfit, IsOfValue, Mark, StartBody};
ghost use Rattle.polcert_format.specs.Misfits.{begins_number, Listed};
ghost use Rattle.polcert_format.specs.Wants.{numbers_want, start_body_wants, number_end};
ghost use Rattle.polcert_items.specs.Steps.Elements.{IsAsciiName};
ghost use Rattle.polcert_items.specs.Steps.Entries.{IfRefused, HasRoom};
ghost use Rattle.polcert_items.specs.Steps.Feeding.{IsStartFed, RefusesInStart};
ghost use Rattle.polcert_items.specs.Steps.Lines.{TakesLexeme, CannotTake, CannotEnd};
ghost use Rattle.polcert_items.specs.Steps.Numbers.{IsMisplaced, SignIs};
ghost use Rattle.polcert_items.specs.Steps.Start.{StartGoes, StartGives, IsStartWithin, HasReadStart};
ghost use Rattle.polcert_items.specs.Steps.Start.{IsStartReason, IsStartEndReason, IfNotMemory, new_start};
ghost use Rattle.polcert_items.specs.Steps.Start.{start_sign, pending_refusal, NumbersGo, Begins, IsFormed, IsKept};
ghost use Rattle.polcert_items.specs.Steps.Start.{IsNumberKept, CanStillBeRight, IsNumberHeld, IsReasonAt};
ghost use Rattle.polcert_items.specs.Steps.Start.{IsDue, IsEndDue, IsStop, AreStartDigits, IsOutside, IsDueNumber};
ghost use Rattle.polcert_items.specs.Steps.Start.{IsToldAtEnd, first_of, refused, first_above_0, is_level_at};
ghost use Rattle.polcert_items.specs.Steps.Start.{support_weight, marked, AreUnmarked, picks};
ghost use Rattle.polcert_items.specs.Steps.Wants.{ExpectsNext, number_wants, expected_by_start, IfAtEnd};
ghost use Rattle.polcert_items.specs.Steps.Wants.{expected_by_numbers};
ghost use Rattle.polcert_items.specs.declared.start_reader.StartReader.TheVariants as reader;
ghost use Rattle.std.specs.List.{count_by};
ghost use Rattle.polcert_cells.specs.Start.{shares_of, is_level, is_positive, equal_weights, all_states};
ghost use Rattle.polcert_cells.specs.Start.{single};
ghost use Rattle.polcert_format.specs.Reasons.{is_sign_kind};

use crate::entry_reader::Numbers;
use crate::item::{EndError, FeedError};
use crate::preamble_lines::{element_of, take_colon};
use crate::signed_number::{
    NumberStep, Range, Refusal, Sign, after_numbers, begins_number, misplaced, number_place,
    number_step,
};
use polcert_cells::{Elements, ONE, Sequence, StartWeights, is_word};
use polcert_format::ItemFault;
use polcert_text::{NumberFault, Token, TokenKind, scaled_of, whole_number};
use std::alloc::{AllocError, Global};

/// A start item after its word, as far as it has been read: what it continues with.
#[derive(Drop)]
pub enum StartReader {
    /// A colon, or the word `include` or `exclude`.
    Form,
    /// The colon after `include` or `exclude`.
    Colon(Selection),
    /// Further states of a list.
    List(Chosen),
    /// `uniform`, a state or numbers, after `start:`.
    Body,
    /// Nothing, after `uniform`.
    Every,
    /// Nothing, after a state's name.
    Only(usize),
    /// The numeral after the first number's sign.
    Sign(Sign),
    /// Further numbers, after the first one.
    Number(FirstNumber),
    /// Further numbers, or nothing if the digits are a state's number.
    StateOrNumber(StateOrNumber),
    /// Further probabilities, after more than one.
    Probabilities(Numbers<u32>),
}

impl StartReader {
    /// Makes the reader before the first token.
    pub fn new() -> StartReader
        ensures { result ≡ new_start }
    {
        StartReader::Form
    }

    /// Continues with a token that begins no item.
    pub fn feed(
        &mut self,
        alloc: Global,
        states: &Elements,
        token: Token<'_>,
    ) -> Result<(), FeedError>
        requires count { IsCount most_states (count_of states.now) }
        requires text { IsAsciiName (lexeme_of token) }
        requires within { IsStartWithin states.now self.old }
        ensures fed { OnOk result (IsStartFed states.now self.old (lexeme_of token.entry) self.new) }
        ensures refused { IfErr result (λ stop. IfRefused stop
            (RefusesInStart states.now self.old (lexeme_of token.entry))) }
        ensures held { CanStillBeRight (count_of states.now) self.old (lexeme_of token.entry) →
            IfErr result (λ stop. IfRefused stop (λ r. ⊥)) }
        ensures late { (r : Refusal) → IsDue self.old (lexeme_of token.entry) r.kind r.place →
            result ≡ Err (FeedError.Refused r) }
    {
        match self {
            StartReader::Form => {
                *self = form_of(token)?;
                Ok(())
            }
            StartReader::Colon(choice) => {
                take_colon(token)?;
                *self = StartReader::List(Chosen::new(alloc, states.count(), *choice)?);
                Ok(())
            }
            StartReader::List(chosen) => {
                chosen.feed(states, token)?;
                Ok(())
            }
            StartReader::Body => {
                *self = begin_body(states, token)?;
                Ok(())
            }
            StartReader::Every | StartReader::Only(_) => Err(FeedError::Refused(misplaced(token))),
            StartReader::Sign(sign) => {
                *self = first_number(Some(*sign), token)?;
                Ok(())
            }
            StartReader::Number(first) => {
                *self = StartReader::Probabilities(first.advance(alloc, states, token)?);
                Ok(())
            }
            StartReader::StateOrNumber(digits) => {
                let first = digits.first_number()?;
                *self = StartReader::Probabilities(first.advance(alloc, states, token)?);
                Ok(())
            }
            StartReader::Probabilities(numbers) => numbers.feed(token),
        }
    }

    /// Returns the refusal of digits without a value: they are a number if anything follows them.
    pub fn pending(&self) -> Option<Refusal>
        ensures { result ≡ pending_refusal self.now }
    {
        match self {
            StartReader::StateOrNumber(digits) => digits.first_number().err(),
            _ => None,
        }
    }

    /// Returns the start, or the fault if the item cannot end here.
    pub fn end(self, alloc: Global, states: &Elements) -> Result<StartWeights, EndError>
        requires count { IsCount most_states (count_of states.now) }
        requires within { IsStartWithin states.now self }
        ensures said { IfOk result (StartGives states.now self []) }
        ensures refused { IfErr result (λ e. IfNotMemory e (CannotEnd (StartGives states.now) self)) }
        ensures reason { (body : List Lexeme) → HasReadStart (count_of states.now) body self →
            IfErr result (IsStartEndReason body) }
        ensures kind { IfErr result (λ e. IfAtEnd e (λ kind.
            kind ≡ unexpected_token (expected_by_start (count_of states.now) self []) None)) }
        ensures due { IfErr result (IsEndDue self) }
    {
        match self {
            StartReader::Form | StartReader::Colon(_) | StartReader::Sign(_) => Err(EndError::AtEnd(
                ItemFault::BadShape,
            )),
            StartReader::Body => Err(EndError::AtEnd(ItemFault::WrongNumberCount)),
            StartReader::List(chosen) => chosen.end(alloc),
            StartReader::Every => Ok(every_state(alloc, states.count())?),
            StartReader::Only(state) => Ok(one_state(alloc, states.count(), state)?),
            StartReader::Number(first) => first.end(alloc, states),
            StartReader::StateOrNumber(digits) => digits.end(alloc, states),
            StartReader::Probabilities(numbers) => end_probabilities(alloc, numbers),
        }
    }
}

/// Returns what the item continues with after its first token: a colon, `include` or `exclude`.
fn form_of(token: Token<'_>) -> Result<StartReader, Refusal>
    ensures begun { (states : AnyElements) →
        IfOk result (TakesLexeme (StartGoes states) StartReader.Form (lexeme_of token.entry)) }
    ensures within { (states : AnyElements) → IfOk result (IsStartWithin states) }
    ensures refused { (states : AnyElements) →
        OnErr result (CannotTake (StartGoes states) StartReader.Form (lexeme_of token.entry)) }
    ensures formed { IfOk result (IsFormed (lexeme_of token.entry)) }
    ensures held { OnErr result ((lexeme_of token.entry).kind ≢ TokenKind.Colon) }
    ensures reason { IfErr result (λ r. IsMisplaced (lexeme_of token.entry) r.kind r.place) }
    ensures leads { (count : ℕ) → IfOk result (λ r.
        ExpectsNext (expected_by_start count StartReader.Form) (lexeme_of token.entry)
        (expected_by_start count r)) }
    ensures kind { IfErr result (λ r. IsMisfit Mark (lexeme_of token.entry) r.kind) }
{
    if is_word(&token, b"include") {
        return Ok(StartReader::Colon(Selection::Include));
    }
    if is_word(&token, b"exclude") {
        return Ok(StartReader::Colon(Selection::Exclude));
    }
    take_colon(token)?;
    Ok(StartReader::Body)
}

/// Returns what the item continues with after the first token after its colon: `uniform`, a state's name, digits that may be a state's
/// number, or the first number.
fn begin_body(states: &Elements, token: Token<'_>) -> Result<StartReader, Refusal>
    requires count { IsCount most_states (count_of states.now) }
    requires text { IsAsciiName (lexeme_of token) }
    ensures begun { IfOk result
        (TakesLexeme (StartGoes states.now) StartReader.Body (lexeme_of token.entry)) }
    ensures within { IfOk result (IsStartWithin states.now) }
    ensures refused { OnErr result
        (CannotTake (StartGoes states.now) StartReader.Body (lexeme_of token.entry)) }
    ensures kept { IfOk result (IsKept (count_of states.now) (lexeme_of token.entry)) }
    ensures held { OnErr result
        (CanStillBeRight (count_of states.now) StartReader.Body (lexeme_of token.entry) → ⊥) }
    ensures reason { IfErr result (λ r. IsReasonAt None (lexeme_of token.entry) r.kind r.place) }
    ensures leads { IfOk result (λ r. ExpectsNext (start_body_wants (count_of states.now))
        (lexeme_of token.entry) (expected_by_start (count_of states.now) r)) }
    ensures kind { IfErr result (λ r. IsMisfit StartBody (lexeme_of token.entry) r.kind) }
{
    match token.kind {
        TokenKind::Name => if is_word(&token, b"uniform") {
            Ok(StartReader::Every)
        } else {
            Ok(StartReader::Only(element_of(token, states)?))
        },
        TokenKind::Numeral => match digits_of(states.count(), token) {
            Some(digits) => Ok(StartReader::StateOrNumber(digits)),
            None => first_number(None, token),
        },
        TokenKind::Plus | TokenKind::Minus => first_number(None, token),
        _ => Err(misplaced(token)),
    }
}

/// Returns the digits of a numeral that may be a state's number, if there is more than one state.
fn digits_of(count: usize, token: Token<'_>) -> Option<StateOrNumber>
    requires count { IsCount most_states count }
    requires numeral { token.kind ≡ TokenKind.Numeral }
    ensures { MatchOption result ((count ≡ 1) ⊎ (are_digits (lexeme_of token.entry).bytes ≡ false))
        (AreStartDigits count (lexeme_of token.entry)) }
{
    if count == 1 {
        return None;
    }
    let number = whole_number(count, token.bytes)?;
    Some(StateOrNumber {
        state: if number < count { Some(number) } else { None },
        value: scaled_of(false, token.bytes),
        place: token.place,
    })
}

/// Returns what the item continues with after the token, the numeral of the first number (after this sign) or its sign.
fn first_number(sign: Option<Sign>, token: Token<'_>) -> Result<StartReader, Refusal>
    ensures begun { (states : AnyElements) → IfOk result (λ r.
        Begins (NumbersGo states [] sign) (lexeme_of token.entry) (StartGoes states r)) }
    ensures within { (states : AnyElements) → IfOk result (IsStartWithin states) }
    ensures refused { (states : AnyElements) →
        OnErr result (CannotTake (NumbersGo states []) sign (lexeme_of token.entry)) }
    ensures kept { IfOk result (IsNumberKept sign (lexeme_of token.entry)) }
    ensures held { OnErr result (IsNumberHeld sign (lexeme_of token.entry) → ⊥) }
    ensures reason { IfErr result (λ r. IsReasonAt sign (lexeme_of token.entry) r.kind r.place) }
    ensures leads { (count : ℕ) → IfOk result (λ r.
        ExpectsNext (numbers_want (is_some sign) count) (lexeme_of token.entry) (expected_by_start count r)) }
    ensures kind { IfErr result (λ r. IsMisfit (number_wants sign) (lexeme_of token.entry) r.kind) }
    ensures number { IfErr result (λ r. (lexeme_of token.entry).kind ≡ TokenKind.Numeral → IsOfValue r.kind) }
{
    match number_step(sign, token, Range::Reward)? {
        NumberStep::Sign(sign) => Ok(StartReader::Sign(sign)),
        NumberStep::Value(value) => Ok(StartReader::Number(FirstNumber {
            value,
            place: number_place(sign, token),
        })),
    }
}

/// The first of some numbers, in millionths, and the offset where it stands: at its sign, if it has one.
#[derive(Clone, Copy)]
pub struct FirstNumber {
    pub value: i64,
    pub place: u64,
}

/// Digits alone, and the offset where they stand: the state of this number, if there are that many, and the
/// value.
#[derive(Clone, Copy)]
pub struct StateOrNumber {
    pub state: Option<usize>,
    pub value: Result<i64, NumberFault>,
    pub place: u64,
}

impl FirstNumber {
    /// Continues with the token after the first number, and returns the list of probabilities that both begin.
    pub(crate) fn advance(
        self,
        alloc: Global,
        states: &Elements,
        token: Token<'_>,
    ) -> Result<Numbers<u32>, FeedError>
        requires { IsCount most_states (count_of states.now) }
        ensures takes { IfOk result (λ n. TakesLexeme (StartGoes states.now)
            (reader.Number self) (lexeme_of token.entry) (reader.Probabilities n)) }
        ensures within { IfOk result (λ n. IsStartWithin states.now (reader.Probabilities n)) }
        ensures refused { IfErr result (λ stop. IfRefused stop (λ r.
            CannotTake (StartGoes states.now) (reader.Number self) (lexeme_of token.entry))) }
        ensures kept { IfOk result (λ n. SignIs n.sign (lexeme_of token.entry)) }
        ensures inside { IfOk result (λ n. IsOutside self.value → ⊥) }
        ensures leads { IfOk result (λ n. ExpectsNext
            (numbers_want false (count_of states.now - 1)) (lexeme_of token.entry) (expected_by_numbers n)) }
        ensures stops { IfErr result (λ stop. IfRefused stop (λ r.
            IsStop (IsDueNumber self.value self.place (lexeme_of token.entry)) None
            (number_end false (count_of states.now - 1)) (lexeme_of token.entry) r.kind r.place)) }
        ensures late { IsOutside self.value → begins_number (lexeme_of token.entry).kind ≡ true →
            result ≡ Err (FeedError.Refused (refused ItemFault.ProbabilityRange self.place)) }
    {
        if !begins_number(token.kind) {
            return Err(FeedError::Refused(misplaced(token)));
        }
        if self.value < 0 || self.value > ONE as i64 {
            return Err(self.out_of_range());
        }
        let count = states.count();
        if count == 1 {
            return Err(FeedError::Refused(after_numbers(token)));
        }
        let mut numbers = Numbers::with_first(alloc, count, self.value as u32);
        numbers.feed(token)?;
        Ok(numbers)
    }

    /// Refuses this number, which is out of range, if another follows it.
    fn out_of_range(self) -> FeedError
        ensures { result ≡ FeedError.Refused (refused ItemFault.ProbabilityRange self.place) }
    {
        FeedError::Refused(Refusal {
            kind: ItemFault::ProbabilityRange,
            place: self.place,
        })
    }

    /// Returns the start if this number is the only one after `start:`.
    pub(crate) fn end(self, alloc: Global, states: &Elements) -> Result<StartWeights, EndError>
        requires { IsCount most_states (count_of states.now) }
        ensures said { IfOk result (StartGives states.now (reader.Number self) []) }
        ensures refused { IfErr result (λ e.
            IfNotMemory e (CannotEnd (StartGives states.now) (reader.Number self))) }
        ensures reason { (body : List Lexeme) → IfErr result (IsStartEndReason body) }
        ensures kind { IfErr result (λ e. IfAtEnd e (λ kind.
            kind ≡ unexpected_token (number_end false (count_of states.now - 1)) None)) }
        ensures at_end { IfErr result IsToldAtEnd }
    {
        let count = states.count();
        if count != 1 {
            return Err(EndError::AtEnd(ItemFault::WrongNumberCount));
        }
        if self.value != 0 && self.value != ONE as i64 {
            return Err(EndError::AtEnd(ItemFault::StartSum));
        }
        Ok(every_state(alloc, count)?)
    }
}

impl StateOrNumber {
    /// Returns the first number, if something follows the digits; or its refusal, if they have no value.
    pub(crate) fn first_number(self) -> Result<FirstNumber, Refusal>
        ensures { result ≡ first_of self.value self.place }
    {
        match self.value {
            Ok(value) => Ok(FirstNumber {
                value,
                place: self.place,
            }),
            Err(fault) => Err(Refusal {
                kind: ItemFault::Number(fault),
                place: self.place,
            }),
        }
    }

    /// Returns the start if the digits stand alone: they are a state's number.
    pub(crate) fn end(self, alloc: Global, states: &Elements) -> Result<StartWeights, EndError>
        requires count { IsCount most_states (count_of states.now) }
        requires within { IsStartWithin states.now (reader.StateOrNumber self) }
        ensures said { IfOk result (StartGives states.now (reader.StateOrNumber self) []) }
        ensures refused { IfErr result (λ e.
            IfNotMemory e (CannotEnd (StartGives states.now) (reader.StateOrNumber self))) }
        ensures reason { (body : List Lexeme) →
            HasReadStart (count_of states.now) body (reader.StateOrNumber self) →
            IfErr result (IsStartEndReason body) }
        ensures due { IfErr result (IsEndDue (reader.StateOrNumber self)) }
    {
        match self.state {
            Some(state) => Ok(one_state(alloc, states.count(), state)?),
            None => Err(EndError::At(Refusal {
                kind: ItemFault::IndexOutOfRange,
                place: self.place,
            })),
        }
    }
}

/// Returns the start that a list of probabilities gives, if it is whole and sums to 1.
pub(crate) fn end_probabilities(
    alloc: Global,
    numbers: Numbers<u32>,
) -> Result<StartWeights, EndError>
    requires { numbers.needed ≤ most_states }
    ensures said { (states : AnyElements) →
        IfOk result (StartGives states (reader.Probabilities numbers) []) }
    ensures refused { (states : AnyElements) →
        IfErr result (λ e. IfNotMemory e (CannotEnd (StartGives states) (reader.Probabilities numbers))) }
    ensures reason { (body : List Lexeme) → IfErr result (IsStartEndReason body) }
    ensures kind { HasRoom numbers → IfErr result (λ e.
        IfAtEnd e (λ kind. kind ≡ unexpected_token (expected_by_numbers numbers []) None)) }
    ensures at_end { IfErr result IsToldAtEnd }
{
    if let Some(fault) = numbers.end_fault() {
        return Err(EndError::AtEnd(fault));
    }
    if sum_of(numbers.read.as_slice()) != ONE {
        return Err(EndError::AtEnd(ItemFault::StartSum));
    }
    Ok(shares_of(alloc, numbers.read)?)
}

/// Returns the sum of the numbers.
fn sum_of(numbers: &[u32]) -> u64
    requires { length numbers.now ≤ most_states }
    ensures { result ≡ sum numbers.now }
{
    numbers.iter().map(|number| *number as u64).sum()
}

/// Returns the shares if each state has a probability: equal ones if those above 0 are equal.
fn shares_of(alloc: Global, probabilities: Sequence<u32>) -> Result<StartWeights, AllocError>
    requires { length probabilities ≤ most_states }
    ensures { IfOk result (λ s. s ≡ shares_of probabilities) }
{
    if is_level(probabilities.as_slice()) {
        return level_shares(alloc, probabilities.as_slice());
    }
    Ok(StartWeights {
        weights: probabilities,
        total: ONE as u32,
    })
}

/// Tests whether all positive probabilities are the same.
fn is_level(probabilities: &[u32]) -> bool
    ensures { result ≡ is_level probabilities.now }
{
    is_level_at(first_above_0(probabilities), probabilities)
}

/// Returns the first positive probability; 0 if there is none.
fn first_above_0(probabilities: &[u32]) -> u32
    ensures { result ≡ first_above_0 probabilities.now }
{
    for probability in probabilities {
        if *probability != 0 {
            return *probability;
        }
    }
    0
}

/// Tests whether all positive probabilities are this one.
fn is_level_at(level: u32, probabilities: &[u32]) -> bool
    ensures { result ≡ is_level_at level probabilities.now }
{
    probabilities.iter().all(|p| *p == 0 || *p == level)
}

/// Returns a weight of 1 for each state with a positive probability.
fn level_shares(alloc: Global, probabilities: &[u32]) -> Result<StartWeights, AllocError>
    requires { length probabilities.now ≤ most_states }
    ensures weights { IfOk result (λ s. s.weights ≡ map support_weight probabilities.now) }
    ensures total { IfOk result (λ s. s.total ≡ count_by is_positive probabilities.now) }
{
    let mut weights = Sequence::new(alloc);
    let mut total = 0;
    for probability in probabilities {
        let weight = support_weight(*probability);
        weights.push(weight)?;
        total += weight;
    }
    Ok(StartWeights { weights, total })
}

/// Returns a weight of 1 for a positive probability, else 0.
fn support_weight(probability: u32) -> u32
    ensures { result ≡ support_weight probability }
{
    if probability == 0 { 0 } else { 1 }
}

/// Which states have a share if the item lists states: these, or the others.
#[derive(Clone, Copy)]
pub enum Selection {
    Include,
    Exclude,
}

/// States that were chosen, one mark for each state.
#[derive(Drop)]
pub struct Chosen {
    pub choice: Selection,
    pub marks: Sequence<bool>,
}

impl Chosen {
    /// Makes the list before its first state.
    pub(crate) fn new(alloc: Global, count: usize, choice: Selection) -> Result<Chosen, AllocError>
        ensures unmarked { IfOk result (λ c. AreUnmarked count c.marks) }
        ensures choice { IfOk result (λ c. c.choice ≡ choice) }
    {
        let mut marks = Sequence::new(alloc);
        for _ in 0..count {
            marks.push(false)?;
        }
        Ok(Chosen { choice, marks })
    }

    /// Adds one more state of the list.
    pub(crate) fn feed(&mut self, states: &Elements, token: Token<'_>) -> Result<(), Refusal>
        requires count { IsCount most_states (count_of states.now) }
        requires text { IsAsciiName (lexeme_of token) }
        requires size { length self.old.marks ≡ count_of states.now }
        ensures size { OnOk result (length self.new.marks ≡ count_of states.now) }
        ensures takes { OnOk result (TakesLexeme (StartGoes states.now)
            (reader.List self.old) (lexeme_of token.entry) (reader.List self.new)) }
        ensures refused { OnErr result
            (CannotTake (StartGoes states.now) (reader.List self.old) (lexeme_of token.entry)) }
        ensures kept { OnOk result (is_sign_kind (lexeme_of token.entry).kind ≡ false) }
        ensures reason { IfErr result (λ r. IsReasonAt None (lexeme_of token.entry) r.kind r.place) }
        ensures kind { IfErr result (λ r. r.kind ≡ unexpected_token Listed (Some (lexeme_of token.entry))) }
    {
        let state = element_of(token, states)?;
        self.marks.set(state, true);
        Ok(())
    }

    /// Returns the start of the list, if the list leaves a state.
    pub(crate) fn end(self, alloc: Global) -> Result<StartWeights, EndError>
        requires { length self.marks ≤ most_states }
        ensures said { (states : AnyElements) → length self.marks ≡ count_of states →
            IfOk result (StartGives states (reader.List self) []) }
        ensures refused { (states : AnyElements) → length self.marks ≡ count_of states →
            IfErr result (λ e. IfNotMemory e (CannotEnd (StartGives states) (reader.List self))) }
        ensures reason { (body : List Lexeme) → IfErr result (IsStartEndReason body) }
        ensures kind { IfErr result (λ e. IfAtEnd e (λ kind. kind ≡ unexpected_token Listed None)) }
        ensures at_end { IfErr result IsToldAtEnd }
    {
        let start = self.start_weights(alloc)?;
        if start.total == 0 {
            return Err(EndError::AtEnd(ItemFault::StartEmpty));
        }
        Ok(start)
    }

    /// Returns equal weights for the states that the choice picks.
    fn start_weights(&self, alloc: Global) -> Result<StartWeights, AllocError>
        requires { length self.now.marks ≤ most_states }
        ensures { IfOk result (λ s.
            s ≡ equal_weights (length self.now.marks) (picks self.now.choice (marked self.now.marks))) }
    {
        let mut weights = Sequence::new(alloc);
        let mut total = 0;
        for state in 0..self.marks.len() {
            let weight = self.weight(state);
            weights.push(weight)?;
            total += weight;
        }
        Ok(StartWeights { weights, total })
    }

    /// Returns 1 for a state that the choice picks, else 0.
    fn weight(&self, state: usize) -> u32
        requires { state < length self.now.marks }
        ensures { result ≡ (if picks self.now.choice (marked self.now.marks) state then 1 else 0) }
    {
        match (self.choice, self.marks.at(state)) {
            (Selection::Include, true) | (Selection::Exclude, false) => 1,
            _ => 0,
        }
    }
}

/// Returns the uniform start.
pub(crate) fn every_state(alloc: Global, count: usize) -> Result<StartWeights, AllocError>
    requires { count ≤ most_states }
    ensures { (states : AnyElements) → count ≡ count_of states → IfOk result (λ s. s ≡ all_states states) }
{
    Chosen::new(alloc, count, Selection::Exclude)?.start_weights(alloc)
}

/// Returns the start in one state.
pub(crate) fn one_state(
    alloc: Global,
    count: usize,
    state: usize,
) -> Result<StartWeights, AllocError>
    requires few { count ≤ most_states }
    requires state { state < count }
    ensures { (states : AnyElements) → count ≡ count_of states → IfOk result (λ s. s ≡ single states state) }
{
    let mut chosen = Chosen::new(alloc, count, Selection::Include)?;
    chosen.marks.set(state, true);
    chosen.start_weights(alloc)
}
