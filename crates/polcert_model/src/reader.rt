//! A model's text, read item by item.
ghost use Rattle.std.specs.Prelude.{None, IfOk, OnOk, IfErr, ◌≡◌, ◌+◌, ◌<◌, ◌≤◌, ◌^◌, ◌++◌, ◌∷◌, [], ℕ, Some, false, List, MatchResult};
ghost use Rattle.std.specs.Prelude.{IfSome, IfNone, IsTrue, IsFalse};
ghost use Rattle.polcert_text.specs.ReadTexts.{ReadsText};
ghost use Rattle.polcert_text.specs.Steps.TakenAhead.{TakesAhead, ArePassed};
ghost use Rattle.polcert_text.specs.Cut.{Lexeme};
ghost use Rattle.polcert_text.specs.Reading.{lexeme_of};
ghost use Rattle.polcert_cells.specs.Words.{topic, begins_item};
ghost use Rattle.polcert_items.specs.Steps.Elements.{IsAsciiName};
ghost use Rattle.polcert_format.specs.Text.{IsModelText};
ghost use Rattle.polcert_format.specs.FirstWrong.{TextTokens, AreTokensOf};
ghost use Rattle.polcert_format.specs.Refusals.{IsRefusal, IsPlacedRight, IsNoModel};
ghost use Rattle.polcert_format.specs.RefusedTexts.{IsRefusedModelText};
ghost use Rattle.polcert_tables.specs.Contents.{meaning};
ghost use Rattle.polcert_items.specs.Steps.ModelSoFar.{IsWholeRead};
ghost use Rattle.polcert_model.specs.Steps.Texts.{IsTextRead, TextReadsOn, AreItemsRead, IsTextOf, IsRefusedAfter, IsRefusedAt, IsRefusedWhole, Refuses, tokens_end, pending_at};

use polcert_cells::{Table, Topic, begun_topic};
use polcert_format::{ItemFault, ModelFault};
use polcert_items::{AddError, EndError, FeedError, ItemReader, ModelSoFar};
use polcert_tables::{Model, WrongRow};
use polcert_text::{
    SliceSource, Source, SourceFault, StreamFault, StreamTokens, TEXT_LIMIT, Token, TokenFault,
    front_name,
};
use std::alloc::{AllocError, Global};

/// Reads the items of a text, token by token.
#[derive(Drop)]
struct TextReader {
    known: ModelSoFar,
    item: Option<ItemReader>,
    number: u64,
}

impl TextReader {
    /// Makes the reader before the first token.
    fn new(alloc: Global) -> TextReader
        ensures read { IsTextRead [] result }
        ensures number { result.number ≡ 0 }
    {
        TextReader {
            known: ModelSoFar::new(alloc),
            item: None,
            number: 0,
        }
    }

    /// Returns the refusal of the current item for this reason at this place.
    fn fault(&self, kind: ItemFault, place: u64) -> ModelFault
        ensures { result ≡ ModelFault.Item kind self.now.number place }
    {
        ModelFault::Item {
            kind,
            item: self.number,
            place,
        }
    }

    /// Continues with the next token: it begins an item and ends the open one, or belongs to the open one.
    #[inline(always)]
    fn take(&mut self, alloc: Global, token: Token<'_>) -> Result<(), ModelFault>
        requires read { (seen : List Lexeme) × IsTextRead seen self.old }
        requires few { self.old.number < 2 ^ 63 }
        requires text { IsAsciiName (lexeme_of token) }
        ensures number { self.new.number ≤ self.old.number + 1 }
        ensures read { let l = lexeme_of token.entry in (seen : List Lexeme) → IsTextRead seen self.old
            → MatchResult result
            (λ _. IsTextRead (seen ++ l ∷ []) self.new)
            (IsRefusedAfter (seen ++ l ∷ [])) }
    {
        match begun_topic(&token) {
            Some(topic) => {
                self.close(alloc, token.place)?;
                self.open(topic, token.place)
            }
            None => self.feed(alloc, token),
        }
    }

    /// Continues with a token that begins no item.
    #[inline(always)]
    fn feed(&mut self, alloc: Global, token: Token<'_>) -> Result<(), ModelFault>
        requires read { (seen : List Lexeme) × IsTextRead seen self.old }
        requires text { IsAsciiName (lexeme_of token) }
        ensures number { self.new.number ≡ self.old.number }
        ensures read { let l = lexeme_of token.entry in (seen : List Lexeme) → IsTextRead seen self.old
            → begins_item l ≡ false → MatchResult result
            (λ _. IsTextRead (seen ++ l ∷ []) self.new)
            (IsRefusedAfter (seen ++ l ∷ [])) }
    {
        let Some(item) = &mut self.item else {
            return Err(self.fault(ItemFault::BeforeFirstItem, token.place));
        };
        match item.feed(alloc, &self.known, token) {
            Ok(()) => Ok(()),
            Err(FeedError::Refused(refusal)) => Err(self.fault(refusal.kind, refusal.place)),
            Err(FeedError::Memory) => Err(ModelFault::Memory),
        }
    }

    /// Continues with tokens that stand whole at the front of the bytes, as far as it is known at once that it can, and answers how
    /// many bytes they are: the rest of an entry, and entries after it. An error is out of memory.
    fn feed_ahead(&mut self, alloc: Global, bytes: &[u8]) -> Result<usize, AllocError>
        requires read { (seen : List Lexeme) × IsTextRead seen self.old }
        requires few { self.old.number < 2 ^ 62 }
        ensures number { IfOk result (λ count. self.new.number ≤ self.old.number + count) }
        ensures read { IfOk result (λ count. TakesAhead (TextReadsOn self.old self.new) bytes.now count) }
    {
        let mut at = self.feed_item_ahead(alloc, bytes)?;
        loop {
            let word = self.begin_ahead(&bytes[at..])?;
            at += word;
            if word == 0 {
                return Ok(at);
            }
            let more = self.feed_item_ahead(alloc, &bytes[at..])?;
            at += more;
        }
    }

    /// Continues the open item with tokens that stand whole at the front of the bytes, and returns how many bytes they are.
    #[inline(always)]
    fn feed_item_ahead(&mut self, alloc: Global, bytes: &[u8]) -> Result<usize, AllocError>
        requires { (seen : List Lexeme) × IsTextRead seen self.old }
        ensures number { self.new.number ≡ self.old.number }
        ensures read { IfOk result (λ count. TakesAhead (TextReadsOn self.old self.new) bytes.now count) }
    {
        let Some(item) = &mut self.item else {
            return Ok(0);
        };
        item.feed_ahead(alloc, &self.known, bytes)
    }

    /// Begins an entry at the word that the bytes begin with, if it follows an entry, and answers how many bytes the word takes.
    /// 0: unknown, take the slow path. An error is out of memory.
    #[inline(always)]
    fn begin_ahead(&mut self, bytes: &[u8]) -> Result<usize, AllocError>
        requires read { (seen : List Lexeme) × IsTextRead seen self.old }
        requires few { self.old.number + 1 < 2 ^ 64 }
        ensures number { IfOk result (λ count. self.new.number ≤ self.old.number + count) }
        ensures read { IfOk result (λ count. TakesAhead (TextReadsOn self.old self.new) bytes.now count) }
    {
        let Some(token) = front_name(bytes) else {
            return Ok(0);
        };
        let Some(Topic::Cells(table)) = begun_topic(&token) else {
            return Ok(0);
        };
        if self.next_entry(table)? {
            Ok(token.stop as usize)
        } else {
            Ok(0)
        }
    }

    /// Ends the open entry and begins one of this table in its reader. `false`: unknown, and all stays. An error is out of memory.
    #[inline(always)]
    fn next_entry(&mut self, table: Table) -> Result<bool, AllocError>
        requires read { (seen : List Lexeme) × IsTextRead seen self.old }
        requires few { self.old.number + 1 < 2 ^ 64 }
        ensures number { IfOk result (λ begun. IsTrue begun → self.new.number ≡ self.old.number + 1) }
        ensures read { IfOk result (λ begun. IsTrue begun → (seen : List Lexeme) (word : Lexeme)
            → IsTextRead seen self.old → topic word ≡ Some (Topic.Cells table)
            → IsTextRead (seen ++ word ∷ []) self.new) }
        ensures unknown { IfOk result (λ begun. IsFalse begun → self.new ≡ self.old) }
    {
        let Some(item) = &mut self.item else {
            return Ok(false);
        };
        if item.next_entry(&mut self.known, table)? {
            self.number += 1;
            Ok(true)
        } else {
            Ok(false)
        }
    }

    /// Ends the item that is open, if one is: adds what it says, or refuses it. `place` is where the next item begins or the text ends.
    fn close(&mut self, alloc: Global, place: u64) -> Result<(), ModelFault>
        requires { (seen : List Lexeme) × IsTextRead seen self.old }
        ensures number { self.new.number ≡ self.old.number }
        ensures items { (seen : List Lexeme) → IsTextRead seen self.old → MatchResult result
            (λ _. AreItemsRead seen self.new)
            (IsRefusedAt seen place) }
    {
        let Some(item) = self.item.take() else {
            return Ok(());
        };
        match item.end(alloc, &self.known) {
            Ok(said) => match self.known.add_item(said) {
                Ok(()) => Ok(()),
                Err(AddError::TooManyCells) => Err(self.fault(ItemFault::TooManyCells, place)),
                Err(AddError::Memory) => Err(ModelFault::Memory),
            },
            Err(EndError::AtEnd(kind)) => Err(self.fault(kind, place)),
            Err(EndError::At(refusal)) => Err(self.fault(refusal.kind, refusal.place)),
            Err(EndError::Memory) => Err(ModelFault::Memory),
        }
    }

    /// Begins an item at its word, or refuses it if it is not allowed there.
    fn open(&mut self, about: Topic, place: u64) -> Result<(), ModelFault>
        requires { self.old.number < 2 ^ 63 }
        ensures number { self.new.number ≡ self.old.number + 1 }
        ensures read { (seen : List Lexeme) (word : Lexeme) → AreItemsRead seen self.old
            → topic word ≡ Some about → word.place ≡ place → MatchResult result
            (λ _. IsTextRead (seen ++ word ∷ []) self.new)
            (IsRefusedAfter (seen ++ word ∷ [])) }
    {
        self.number += 1;
        if let Some(kind) = self.known.word_fault(about) {
            return Err(self.fault(kind, place));
        }
        self.item = Some(ItemReader::new(about));
        Ok(())
    }

    /// Returns the fault of the model when its tokens end in this fault: the fault itself, or an earlier
    /// number's that has no value.
    fn token_fault(&self, fault: TokenFault) -> ModelFault
        ensures { result ≡ tokens_end self.now.number (pending_at self.now.item) fault }
    {
        if let Some(item) = &self.item {
            if let Some(refusal) = item.pending() {
                return self.fault(refusal.kind, refusal.place);
            }
        }
        let kind = match fault {
            TokenFault::TextTooLong(_) => ItemFault::TextTooLong,
            _ => ItemFault::Token(fault),
        };
        self.fault(kind, fault.place())
    }

    /// Ends the open item and the text, or refuses an item or a preamble that is not complete.
    fn finish(&mut self, alloc: Global, end: u64) -> Result<(), ModelFault>
        requires read { (seen : List Lexeme) × IsTextRead seen self.old }
        requires few { self.old.number < 2 ^ 63 }
        ensures { (seen : List Lexeme) → IsTextRead seen self.old → MatchResult result
            (λ _. IsWholeRead seen self.new.known)
            (IsRefusedWhole seen end) }
    {
        self.close(alloc, end)?;
        self.number += 1; // the item that would come next
        match self.known.preamble_fault() {
            Some(kind) => Err(self.fault(kind, end)),
            None => Ok(()),
        }
    }

    /// Returns what the items say.
    fn into_model_so_far(self) -> ModelSoFar
        ensures { result ≡ self.known }
    {
        self.known
    }
}

/// Continues with the tokens that stand whole in the buffer, and takes them off `tokens`, as far as it is known at once that it can. An
/// error is out of memory.
#[inline(always)]
fn read_ahead(
    alloc: Global,
    tokens: &mut StreamTokens,
    reader: &mut TextReader,
) -> Result<(), ModelFault>
    requires read { (seen : List Lexeme) × IsTextRead seen reader.old }
    requires continues { tokens.old.stop ≡ None }
    requires few { reader.old.number < 2 ^ 62 }
    ensures number { OnOk result
        (reader.new.number + tokens.old.ahead.place ≤ reader.old.number + tokens.new.ahead.place) }
    ensures read { OnOk result (ArePassed (TextReadsOn reader.old reader.new) tokens.old tokens.new) }
    ensures refused { IfErr result (λ fault. fault ≡ ModelFault.Memory) }
{
    match reader.feed_ahead(alloc, tokens.lookahead()) {
        Ok(count) => {
            tokens.skip(count);
            Ok(())
        }
        Err(AllocError) => Err(ModelFault::Memory),
    }
}

/// Reads the items of the whole text of a source into the reader, which has read nothing yet.
fn read_items_from<S: Source>(
    alloc: Global,
    source: &mut S,
    reader: &mut TextReader,
) -> Result<(), SourceFault<ModelFault>>
    requires none { IsTextRead [] reader.old }
    requires first { reader.old.number ≡ 0 }
    ensures read { ReadsText S.reads S.failures source.old source.new
        (λ text _. IsTextOf text reader.new.known) IsRefusedModelText result }
{
    let mut tokens = StreamTokens::new(TEXT_LIMIT);
    loop {
        match tokens.next_token(source) {
            Ok(Some(token)) => {
                if let Err(fault) = reader.take(alloc, token) {
                    return Err(SourceFault::Refused(fault));
                }
                if let Err(memory) = read_ahead(alloc, &mut tokens, reader) {
                    return Err(SourceFault::Refused(memory));
                }
            }
            Ok(None) => {
                return match reader.finish(alloc, tokens.place()) {
                    Ok(()) => Ok(()),
                    Err(fault) => Err(SourceFault::Refused(fault)),
                };
            }
            Err(StreamFault::Token(fault)) => {
                return Err(SourceFault::Refused(reader.token_fault(fault)));
            }
            Err(StreamFault::Device) => return Err(SourceFault::Device),
        }
    }
}

/// Reads the items of the whole text of a source, and returns what they say.
fn read_text_from<S: Source>(
    alloc: Global,
    source: &mut S,
) -> Result<ModelSoFar, SourceFault<ModelFault>>
    ensures read { ReadsText S.reads S.failures source.old source.new IsTextOf IsRefusedModelText result }
{
    let mut reader = TextReader::new(alloc);
    match read_items_from(alloc, source, &mut reader) {
        Ok(()) => Ok(reader.into_model_so_far()),
        Err(fault) => Err(fault),
    }
}

/// Makes the model of the items of a whole text, if each row of its tables sums to its scale.
fn model_of(alloc: Global, known: ModelSoFar) -> Result<Model, ModelFault>
    requires { (text : List ℕ) × IsTextOf text known }
    ensures { (text : List ℕ) → IsTextOf text known → MatchResult result
        (λ m. IsModelText text (meaning m))
        (λ fault. IsRefusedModelText fault text) }
{
    match known.into_model(alloc)? {
        Ok(model) => Ok(model),
        Err(WrongRow { table, action, row }) => Err(ModelFault::RowSum { table, action, row }),
    }
}

/// Reads the text of a model, and tests that each row of its tables sums to its scale. For texts in memory: the programs call
/// `read_model_from`.
///
/// # Errors
///
/// The first item that is wrong, with the reason and the offset of the byte where; or else the first row that does not
/// sum to its scale. `ModelFault::Memory` where memory ran out.
///
/// Source: the POMDP file format page and its grammar at pomdp.org.
pub fn read_model(alloc: Global, text: &[u8]) -> Result<Model, ModelFault>
    ensures exactly { MatchResult result (λ m. IsModelText text.now (meaning m)) (IsNoModel text.now) }
    ensures accepted { IfOk result (λ m. IsModelText text.now (meaning m)) }
    ensures refused { IfErr result (λ fault. (ts : TextTokens) → AreTokensOf text.now ts
        → IsRefusal ts fault) }
    ensures placed { IfErr result (λ fault. (ts : TextTokens) → AreTokensOf text.now ts
        → IsPlacedRight ts fault) }
{
    let mut source = SliceSource::new(text);
    match read_model_from(alloc, &mut source) {
        Ok(model) => Ok(model),
        Err(SourceFault::Refused(fault)) => Err(fault),
        Err(SourceFault::Device) => unreachable!(),
    }
}

/// Reads the model whose text the source gives, to its true end, and tests that each row of its tables sums to its
/// scale. Nothing of the text is kept but the model.
///
/// # Errors
///
/// `Device` if a read failed, and else what `read_model` refuses. A text that is refused before its source fails is
/// refused.
pub fn read_model_from<S: Source>(
    alloc: Global,
    source: &mut S,
) -> Result<Model, SourceFault<ModelFault>>
    ensures read { ReadsText S.reads S.failures source.old source.new
        (λ text m. IsModelText text (meaning m)) IsRefusedModelText result }
{
    let known = read_text_from(alloc, source)?;
    match model_of(alloc, known) {
        Ok(model) => Ok(model),
        Err(fault) => Err(SourceFault::Refused(fault)),
    }
}
