//! An entry, read token by token after the word of its table.
ghost use Rattle.std.specs.Prelude.{◌≡◌, ◌<◌, ◌≤◌, ◌↔◌, [], List, Bool, length, drop, IsTrue, IfOk, OnOk};
ghost use Rattle.std.specs.Prelude.{IfErr, OnErr, IfSome, IfNone, MatchOption, Some, None, false, unwrap_or};
ghost use Rattle.polcert_text.specs.Reading.{lexeme_of};
ghost use Rattle.std.specs.Option.{option_copied};
ghost use Rattle.polcert_cells.specs.Preamble.{Preamble};
ghost use Rattle.polcert_cells.specs.declared.elements.Elements.TheVariants.{Count};
ghost use Rattle.polcert_cells.specs.Elements.{count_of, most_elements};
ghost use Rattle.polcert_items.specs.Steps.Elements.{IsAsciiName};
ghost use Rattle.polcert_cells.specs.Entry.{IsPlace};
ghost use Rattle.polcert_cells.specs.EntryRefs.{entry_of, body_of as ref_body};
ghost use Rattle.polcert_format.specs.Wants.{least_written, numbers_want, place_wants};
ghost use Rattle.polcert_items.specs.Steps.Lines.{TakesLexeme, CannotTake, CannotEnd};
ghost use Rattle.polcert_format.specs.KnownPreamble.{preamble_in, indices_in, named_in};
ghost use Rattle.polcert_items.specs.Steps.Entries.{IsFirstPlace, NumberListGoes, EntryGoes, IsWithinIndices};
ghost use Rattle.polcert_items.specs.Steps.Entries.{IsEntryReason, IsPlaceReason, IfRefused, IsFull};
ghost use Rattle.polcert_items.specs.Steps.Entries.{IsListReason, MayStand, IsWordAfter, AreBegun};
ghost use Rattle.polcert_items.specs.Steps.Entries.{CannotBegin, range_of, HasRoom, HasRoomIn, no_numbers};
ghost use Rattle.polcert_items.specs.Steps.Entries.{one_number, body_of_word, entry_sign, AreSome};
ghost use Rattle.polcert_format.specs.Misfits.{unexpected_token, IsMisfit, Index, Mark};
ghost use Rattle.polcert_items.specs.Steps.Numbers.{SignIs, FitsRange, ListKind, of_probabilities};
ghost use Rattle.polcert_items.specs.Steps.Numbers.{of_rewards};
ghost use Rattle.polcert_items.specs.Steps.Items.{IsEndReason};
ghost use Rattle.polcert_format.specs.Text.{ModelSoFar};
ghost use Rattle.polcert_items.specs.Steps.Feeding.{IsTokenStep, IsEntryStep};
ghost use Rattle.polcert_items.specs.Steps.Wants.{ExpectsNext, expected_by_numbers, state_wants, expected_by_entry};
ghost use Rattle.polcert_cells.specs.declared.words.Topic.{Topic};
ghost use Rattle.polcert_cells.specs.declared.entries.Place.{Place};
ghost use Rattle.polcert_items.specs.declared.entry_reader.Word.{Word};

use crate::item::FeedError;
use crate::model_so_far::ModelSoFar;
use crate::preamble_lines::{element_of, take_colon};
use crate::signed_number::{
    NumberStep, Range, Refusal, Sign, after_numbers, misplaced, number_step,
};
use polcert_cells::{
    Body, BodyRef, Elements, Entry, EntryRef, Place, Places, Sequence, Table, Topic, is_word,
};
use polcert_format::ItemFault;
use polcert_text::{Token, TokenKind};
use std::alloc::{AllocError, Global};

/// A list of `needed` numbers, as far as it has been read.
#[derive(Drop)]
pub struct Numbers<T: Copy> {
    pub read: Sequence<T>,
    pub needed: usize,
    pub sign: Option<Sign>,
}

impl<T: Copy> Numbers<T> {
    /// Begins a list of this many numbers with none.
    pub fn new(alloc: Global, needed: usize) -> Numbers<T>
        ensures { result ≡ no_numbers needed }
    {
        Numbers {
            read: Sequence::new(alloc),
            needed,
            sign: None,
        }
    }

    /// Begins the list with its first number.
    #[inline(always)]
    pub fn with_first(alloc: Global, needed: usize, first: T) -> Numbers<T>
        ensures { result ≡ one_number needed first }
    {
        Numbers {
            read: Sequence::only(alloc, first),
            needed,
            sign: None,
        }
    }

    /// Tests whether the list has all its numbers.
    #[inline(always)]
    pub(crate) fn is_full(&self) -> bool
        ensures { IsTrue result ↔ IsFull self.now }
    {
        self.sign.is_none() && self.read.len() == self.needed
    }

    /// Returns the fault if the list cannot end here. `None`: it has all its numbers.
    pub fn end_fault(&self) -> Option<ItemFault>
        ensures full { MatchOption result (IsFull self.now) (λ _. IsFull self.now → ⊥) }
        ensures reason { IfSome result (λ fault. (t : Topic) → IsEndReason t fault) }
        ensures kind { HasRoom self.now
            → IfSome result (λ fault. fault ≡ unexpected_token (expected_by_numbers self.now []) None) }
    {
        match self.sign {
            Some(_) => Some(ItemFault::BadShape),
            None if self.read.len() == self.needed => None,
            None => Some(ItemFault::WrongNumberCount),
        }
    }
}

impl<T: ListNumber> Numbers<T> {
    /// Continues with a token of the list.
    #[inline(always)]
    pub fn feed(&mut self, token: Token<'_>) -> Result<(), FeedError>
        requires { HasRoom self.old }
        ensures needed { self.new.needed ≡ self.old.needed }
        ensures room { OnOk result (HasRoom self.new) }
        ensures fed { IsTokenStep IfRefused (NumberListGoes T.kind) expected_by_numbers
            (IsListReason T.kind.range self.old.sign) self.old (lexeme_of token.entry) self.new result }
        ensures sign { OnOk result (SignIs self.new.sign (lexeme_of token.entry)) }
    {
        if self.is_full() {
            return Err(FeedError::Refused(after_numbers(token)));
        }
        match number_step(self.sign, token, T::range())? {
            NumberStep::Sign(sign) => self.sign = Some(sign),
            NumberStep::Value(value) => {
                self.read.push(T::of_millionths(value))?;
                self.sign = None;
            }
        }
        Ok(())
    }
}

/// A word in place of an entry's numbers.
#[derive(Clone, Copy)]
pub enum Word {
    Uniform,
    Identity,
}

/// What an entry continues with.
#[derive(Drop)]
pub enum EntryState {
    /// The colon after the table's word.
    Colon,
    /// An index or `*`, after a colon.
    Place,
    /// A further colon, or the body.
    Body,
    Probabilities(Numbers<u32>),
    Rewards(Numbers<i64>),
    /// Nothing, after a word.
    Word(Word),
}

/// An entry after the word of its table, as far as it has been read.
#[derive(Drop)]
pub struct EntryReader {
    pub table: Table,
    pub places: Places,
    pub state: EntryState,
}

impl EntryReader {
    /// Makes the reader before the first token.
    pub fn new(table: Table) -> EntryReader
        ensures { result ≡ record { table = table; places = []; state = EntryState.Colon } }
    {
        EntryReader {
            table,
            places: Places::new(),
            state: EntryState::Colon,
        }
    }

    /// Begins another entry in the same reader.
    #[inline(always)]
    pub(crate) fn restart(&mut self, table: Table)
        ensures { self.new ≡ record { table = table; places = []; state = EntryState.Colon } }
    {
        self.table = table;
        self.places.clear();
        self.state = EntryState::Colon;
    }

    /// Continues with a token that begins no item.
    pub fn feed(
        &mut self,
        alloc: Global,
        known: &ModelSoFar,
        token: Token<'_>,
    ) -> Result<(), FeedError>
        requires within { IsWithinIndices (indices_in known.now self.old.table) self.old }
        requires text { IsAsciiName (lexeme_of token) }
        ensures table { self.new.table ≡ self.old.table }
        ensures within { OnOk result (IsWithinIndices (indices_in known.now self.old.table) self.new) }
        ensures fed { IsEntryStep known.now (IsEntryReason self.old)
            self.old (lexeme_of token.entry) self.new result }
        ensures sign { OnOk result (SignIs (entry_sign self.new.state) (lexeme_of token.entry)) }
    {
        match &mut self.state {
            EntryState::Colon => {
                take_colon(token)?;
                self.state = EntryState::Place;
                Ok(())
            }
            EntryState::Place => self.feed_place(known, token),
            EntryState::Body => self.feed_body(alloc, known, token),
            EntryState::Probabilities(numbers) => numbers.feed(token),
            EntryState::Rewards(numbers) => numbers.feed(token),
            EntryState::Word(_) => Err(FeedError::Refused(misplaced(token))),
        }
    }

    /// Continues with the token after a colon: an index or `*`.
    #[inline(always)]
    fn feed_place(&mut self, known: &ModelSoFar, token: Token<'_>) -> Result<(), FeedError>
        requires state { self.old.state ≡ EntryState.Place }
        requires within { length self.old.places < length (indices_in known.now self.old.table) }
        requires text { IsAsciiName (lexeme_of token) }
        ensures table { self.new.table ≡ self.old.table }
        ensures within { OnOk result (IsWithinIndices (indices_in known.now self.old.table) self.new) }
        ensures fed { IsEntryStep known.now IsPlaceReason
            self.old (lexeme_of token.entry) self.new result }
        ensures sign { OnOk result (SignIs (entry_sign self.new.state) (lexeme_of token.entry)) }
    {
        let place = self.next_place(known, token)?;
        self.places.push(place);
        self.state = EntryState::Body;
        Ok(())
    }

    /// Returns the place that the token gives. In an MDP the fourth is `*`: a reward doesn't depend on the
    /// observation.
    pub(crate) fn next_place(&self, known: &ModelSoFar, token: Token<'_>) -> Result<Place, Refusal>
        requires within { length self.now.places < length (indices_in known.now self.now.table) }
        requires text { IsAsciiName (lexeme_of token) }
        ensures place { IfOk result
            (IsFirstPlace (drop (length self.now.places) (named_in known.now self.now.table))
            (lexeme_of token.entry)) }
        ensures refused { OnErr result ((p : Place) →
            IsFirstPlace (drop (length self.now.places) (named_in known.now self.now.table))
            (lexeme_of token.entry) p → ⊥) }
        ensures reason { IfErr result (λ r. IsPlaceReason (lexeme_of token.entry) r.kind r.place) }
        ensures kind { IfErr result (λ r.
            r.kind ≡ unexpected_token (place_wants (preamble_in known.now) (length self.now.places))
            (Some (lexeme_of token.entry))) }
    {
        let written = self.places.len();
        if known.is_mdp() && written == 3 {
            return star_place(token);
        }
        place_of_token(token, known.elements(self.table, written))
    }

    /// Continues with the token after a place: a colon, a word, or the first number.
    #[inline(always)]
    fn feed_body(
        &mut self,
        alloc: Global,
        known: &ModelSoFar,
        token: Token<'_>,
    ) -> Result<(), FeedError>
        requires state { self.old.state ≡ EntryState.Body }
        requires within { length self.old.places ≤ length (indices_in known.now self.old.table) }
        ensures table { self.new.table ≡ self.old.table }
        ensures within { OnOk result (IsWithinIndices (indices_in known.now self.old.table) self.new) }
        ensures fed { IsEntryStep known.now (IsEntryReason self.old)
            self.old (lexeme_of token.entry) self.new result }
        ensures sign { OnOk result (SignIs (entry_sign self.new.state) (lexeme_of token.entry)) }
    {
        let written = self.places.len();
        match token.kind {
            TokenKind::Colon if written < indices_of(self.table) => {
                self.state = EntryState::Place;
                Ok(())
            }
            TokenKind::Numeral | TokenKind::Plus | TokenKind::Minus
                if takes_numbers(known.is_mdp(), self.table, written) => {
                let needed = known.cells_after(self.table, written);
                self.state = begin_numbers(alloc, self.table, needed, token)?;
                Ok(())
            }
            _ => match word_of(self.table, written, token) {
                Some(word) => {
                    self.state = EntryState::Word(word);
                    Ok(())
                }
                None => Err(FeedError::Refused(misplaced(token))),
            },
        }
    }

    /// Returns the entry, or the fault if it cannot end here.
    #[inline(always)]
    pub fn end(self, known: &ModelSoFar) -> Result<Entry, ItemFault>
        ensures said { IfOk result (EntryGoes (preamble_in known.now) self []) }
        ensures refused { AreSome (indices_in known.now self.table)
            → OnErr result (CannotEnd (EntryGoes (preamble_in known.now)) self) }
        ensures reason { IfErr result (IsEndReason (Topic.Cells self.table)) }
        ensures kind { AreSome (indices_in known.now self.table) →
            IsWithinIndices (indices_in known.now self.table) self →
            IfErr result (λ kind.
            kind ≡ unexpected_token (expected_by_entry (preamble_in known.now) self []) None) }
    {
        let EntryReader {
            table,
            places,
            state,
        } = self;
        let body = match state {
            EntryState::Probabilities(numbers) => match numbers.end_fault() {
                Some(fault) => return Err(fault),
                None => Body::Probabilities(numbers.read),
            },
            EntryState::Rewards(numbers) => match numbers.end_fault() {
                Some(fault) => return Err(fault),
                None => Body::Rewards(numbers.read),
            },
            EntryState::Word(word) => body_of(word),
            EntryState::Body if takes_numbers(known.is_mdp(), table, places.len()) => {
                return Err(ItemFault::WrongNumberCount);
            }
            _ => return Err(ItemFault::BadShape),
        };
        Ok(Entry {
            table,
            places,
            body,
        })
    }

    /// Borrows the entry, so that `next_entry` can add it. `None`: it can't end here.
    #[inline(always)]
    pub(crate) fn whole_entry(&self) -> Option<EntryRef<'_>>
        ensures { (p : Preamble) → IfSome result (λ e. EntryGoes p self.now [] (entry_of e)) }
    {
        let body = match &self.state {
            EntryState::Probabilities(numbers) if numbers.is_full() => {
                BodyRef::Probabilities(numbers.read.as_slice())
            }
            EntryState::Rewards(numbers) if numbers.is_full() => {
                BodyRef::Rewards(numbers.read.as_slice())
            }
            EntryState::Word(word) => word_ref(*word),
            _ => return None,
        };
        Some(EntryRef {
            table: self.table,
            places: self.places.copied(),
            body,
        })
    }
}

/// Returns the body that the word stands for.
fn body_of(word: Word) -> Body
    ensures { result ≡ body_of_word word }
{
    match word {
        Word::Uniform => Body::Uniform,
        Word::Identity => Body::Identity,
    }
}

/// Returns the same as `body_of`, borrowed.
fn word_ref(word: Word) -> BodyRef<'static>
    ensures { ref_body result ≡ body_of_word word }
{
    match word {
        Word::Uniform => BodyRef::Uniform,
        Word::Identity => BodyRef::Identity,
    }
}

/// Begins the body's numbers with their first token, and returns the entry's state after it.
fn begin_numbers(
    alloc: Global,
    table: Table,
    needed: usize,
    token: Token<'_>,
) -> Result<EntryState, FeedError>
    ensures begun { IfOk result (AreBegun table needed (lexeme_of token.entry)) }
    ensures refused { IfErr result
        (λ stop. IfRefused stop (λ r. CannotBegin table needed (lexeme_of token.entry))) }
    ensures reason { IfErr result (λ stop. IfRefused stop (λ r.
        IsListReason (range_of table) None (lexeme_of token.entry) r.kind r.place)) }
    ensures sign { IfOk result (λ state. SignIs (entry_sign state) (lexeme_of token.entry)) }
    ensures leads { (p : Preamble) (places : List Place) → IfOk result (λ state.
        ExpectsNext (numbers_want false needed) (lexeme_of token.entry) (state_wants p table places state)) }
    ensures kind { IfErr result (λ stop. IfRefused stop (λ r.
        IsMisfit (numbers_want false needed []) (lexeme_of token.entry) r.kind)) }
    ensures room { IfOk result HasRoomIn }
{
    match table {
        Table::Reward => Ok(EntryState::Rewards(begin_list(alloc, needed, token)?)),
        Table::Transition | Table::Observation => Ok(EntryState::Probabilities(begin_list(
            alloc, needed, token,
        )?)),
    }
}

/// Begins a list of `needed` numbers with its first token, a number or a sign.
fn begin_list<T: ListNumber>(
    alloc: Global,
    needed: usize,
    token: Token<'_>,
) -> Result<Numbers<T>, FeedError>
    ensures begun { IfOk result
        (TakesLexeme (NumberListGoes T.kind) (no_numbers needed) (lexeme_of token.entry)) }
    ensures refused { IfErr result (λ stop. IfRefused stop (λ r.
        CannotTake (NumberListGoes T.kind) (no_numbers needed) (lexeme_of token.entry))) }
    ensures reason { IfErr result (λ stop. IfRefused stop (λ r.
        IsListReason T.kind.range None (lexeme_of token.entry) r.kind r.place)) }
    ensures sign { IfOk result (λ n. SignIs n.sign (lexeme_of token.entry)) }
    ensures leads { IfOk result
        (λ n. ExpectsNext (numbers_want false needed) (lexeme_of token.entry) (expected_by_numbers n)) }
    ensures kind { IfErr result (λ stop. IfRefused stop (λ r.
        IsMisfit (numbers_want false needed []) (lexeme_of token.entry) r.kind)) }
    ensures room { IfOk result (λ n. HasRoom n) }
{
    let mut numbers = Numbers::new(alloc, needed);
    numbers.feed(token)?;
    Ok(numbers)
}

/// Returns the place that the token gives: `*`, or one of these elements.
#[inline(always)]
fn place_of_token(token: Token<'_>, elements: Option<&Elements>) -> Result<Place, Refusal>
    requires few { count_of (unwrap_or (option_copied elements) (Count 0)) ≤ most_elements }
    requires text { IsAsciiName (lexeme_of token) }
    ensures place { IfOk result
        (IsPlace (unwrap_or (option_copied elements.entry) (Count 0)) (lexeme_of token.entry)) }
    ensures refused { OnErr result ((p : Place)
        → IsPlace (unwrap_or (option_copied elements.entry) (Count 0)) (lexeme_of token.entry) p → ⊥) }
    ensures reason { IfErr result (λ r. IsPlaceReason (lexeme_of token.entry) r.kind r.place) }
    ensures kind { IfErr result (λ r. r.kind ≡ unexpected_token Index (Some (lexeme_of token.entry))) }
{
    match (token.kind, elements) {
        (TokenKind::Star, _) => Ok(Place::Every),
        (_, Some(elements)) => Ok(Place::Only(element_of(token, elements)? as u16)),
        (_, None) => Ok(Place::Only(element_of(token, &Elements::Count(0))? as u16)),
    }
}

/// Returns the place that the token gives if only `*` is allowed.
fn star_place(token: Token<'_>) -> Result<Place, Refusal>
    ensures star { IfOk result (λ p. (p ≡ Place.Every) × ((lexeme_of token.entry).kind ≡ TokenKind.Star)) }
    ensures refused { OnErr result ((lexeme_of token.entry).kind ≡ TokenKind.Star → ⊥) }
    ensures reason { IfErr result (λ r. IsPlaceReason (lexeme_of token.entry) r.kind r.place) }
    ensures kind { IfErr result (λ r. r.kind ≡ unexpected_token Mark (Some (lexeme_of token.entry))) }
{
    match token.kind {
        TokenKind::Star => Ok(Place::Every),
        _ => Err(misplaced(token)),
    }
}

/// The most indices that the cells of a table have: those of rewards.
pub(crate) const MOST_INDICES: usize = 4;

/// Returns how many indices the cells of a table have.
#[inline(always)]
pub(crate) fn indices_of(table: Table) -> usize
    ensures { (k : ModelSoFar) → length (indices_in k table) ≡ result }
{
    match table {
        Table::Transition | Table::Observation => 3,
        Table::Reward => 4,
    }
}

/// Tests whether numbers are allowed after this many places.
#[inline(always)]
pub(crate) fn takes_numbers(is_mdp: bool, table: Table, written: usize) -> bool
    ensures { IsTrue result ↔ (least_written is_mdp table ≤ written) }
{
    match table {
        Table::Reward if !is_mdp => 2 <= written,
        _ => 1 <= written,
    }
}

/// Returns `uniform` or `identity`, if the token is that word and may follow this many places of the table. `None`: it is something else.
fn word_of(table: Table, written: usize, token: Token<'_>) -> Option<Word>
    ensures name { IfSome result (λ _. (lexeme_of token.entry).kind ≡ TokenKind.Name) }
    ensures word { (mdp : Bool) → IfSome result (IsWordAfter mdp table written (lexeme_of token.entry)) }
    ensures none { (mdp : Bool) → IfNone result ((w : Word)
        → IsWordAfter mdp table written (lexeme_of token.entry) w → ⊥) }
{
    if is_word(&token, b"uniform") && takes_uniform(table, written) {
        return Some(Word::Uniform);
    }
    if is_word(&token, b"identity") && takes_identity(table, written) {
        return Some(Word::Identity);
    }
    None
}

/// Tests whether `uniform` may follow this many places of the table.
fn takes_uniform(table: Table, written: usize) -> bool
    ensures { (mdp : Bool) → (IsTrue result ↔ MayStand mdp table Body.Uniform written) }
{
    match table {
        Table::Transition | Table::Observation => 1 <= written && written <= 2,
        Table::Reward => false,
    }
}

/// Tests whether `identity` may follow this many places of the table.
fn takes_identity(table: Table, written: usize) -> bool
    ensures { (mdp : Bool) → (IsTrue result ↔ MayStand mdp table Body.Identity written) }
{
    match table {
        Table::Transition => written == 1,
        Table::Observation | Table::Reward => false,
    }
}

/// A number of a list, in millionths.
pub trait ListNumber: Copy {
    // What a list of such numbers is.
    ghost kind: { ListKind Self };

    /// Returns the range of the numbers.
    fn range() -> Range
        ensures { result ≡ kind.range };

    /// Returns the number of this value.
    fn of_millionths(value: i64) -> Self
        requires { FitsRange kind.range value }
        ensures { kind.worth result ≡ value };

    // No two numbers are worth the same.
    ghost distinct: { (x y : Self) → kind.worth x ≡ kind.worth y → x ≡ y };
}

/// A probability.
impl ListNumber for u32 {
    ghost kind = { of_probabilities };

    ghost distinct = { λ x y e. cc };

    #[inline(always)]
    fn range() -> Range {
        Range::Probability
    }

    #[inline(always)]
    fn of_millionths(value: i64) -> u32 {
        value as u32
    }
}

/// A reward.
impl ListNumber for i64 {
    ghost kind = { of_rewards };

    ghost distinct = { λ x y e. e };

    #[inline(always)]
    fn range() -> Range {
        Range::Reward
    }

    #[inline(always)]
    fn of_millionths(value: i64) -> i64 {
        value
    }
}
