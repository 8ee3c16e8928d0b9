//! An item after its word, read token by token.
ghost use Rattle.std.specs.Prelude.{◌≡◌, true, None, List, [], IfOk, IfErr};
ghost use Rattle.polcert_text.specs.Cut.{Lexeme};
ghost use Rattle.polcert_text.specs.Reading.{lexeme_of};
ghost use Rattle.polcert_items.specs.Steps.Elements.{IsAsciiName};
ghost use Rattle.polcert_items.specs.Steps.Items.{ItemGoes, IsItemWithin, FeedsItem, IsItemEndReason};
ghost use Rattle.polcert_items.specs.Steps.Items.{topic_of_reader, IsSeen, new_item, HasElements, pending_in};
ghost use Rattle.polcert_items.specs.Steps.ModelSoFar.{with_item, AreContentsOf, AreContentsWithin};
ghost use Rattle.polcert_items.specs.Steps.Lines.{CannotEnd};
ghost use Rattle.polcert_format.specs.Misfits.{unexpected_token};
ghost use Rattle.polcert_items.specs.Steps.Start.{IfNotMemory, IsLateEnd};
ghost use Rattle.polcert_format.specs.FirstNumber.{IsLate, states_known};
ghost use Rattle.polcert_items.specs.Steps.Wants.{item_wants, IfAtEnd};

use crate::entry_reader::EntryReader;
use crate::model_so_far::ModelSoFar;
use crate::preamble_lines::{DiscountReader, ElementsReader, ValuesReader};
use crate::signed_number::Refusal;
use crate::start_reader::StartReader;
use polcert_cells::{
    Elements, Entry, MOST_ACTIONS, MOST_OBSERVATIONS, MOST_STATES, StartWeights, Topic,
};
use polcert_format::ItemFault;
use polcert_text::Token;
use std::alloc::{AllocError, Global};

/// An item after its word, as far as it has been read.
#[derive(Drop)]
pub enum ItemReader {
    Discount(DiscountReader),
    Values(ValuesReader),
    States(ElementsReader),
    Actions(ElementsReader),
    Observations(ElementsReader),
    Start(StartReader),
    Entry(EntryReader),
}

/// What a whole item says.
#[derive(Drop)]
pub enum ItemContents {
    Discount(u32),
    Costs(bool),
    States(Elements),
    Actions(Elements),
    Observations(Elements),
    Start(StartWeights),
    Entry(Entry),
}

impl ItemReader {
    /// Makes the reader of an item of this topic.
    pub fn new(topic: Topic) -> ItemReader
        ensures { result ≡ new_item topic }
    {
        match topic {
            Topic::Discount => ItemReader::Discount(DiscountReader::Colon),
            Topic::Values => ItemReader::Values(ValuesReader::Colon),
            Topic::States => ItemReader::States(ElementsReader::Colon),
            Topic::Actions => ItemReader::Actions(ElementsReader::Colon),
            Topic::Observations => ItemReader::Observations(ElementsReader::Colon),
            Topic::Start => ItemReader::Start(StartReader::new()),
            Topic::Cells(table) => ItemReader::Entry(EntryReader::new(table)),
        }
    }

    /// Continues with a token that begins no item.
    pub fn feed(
        &mut self,
        alloc: Global,
        known: &ModelSoFar,
        token: Token<'_>,
    ) -> Result<(), FeedError>
        requires within { IsItemWithin known.now self.old }
        requires text { IsAsciiName (lexeme_of token) }
        ensures { FeedsItem known.now self.old (lexeme_of token.entry) self.new result }
    {
        match self {
            ItemReader::Discount(reader) => Ok(reader.feed(token)?),
            ItemReader::Values(reader) => Ok(reader.feed(token)?),
            ItemReader::States(reader) => reader.feed(alloc, MOST_STATES, token),
            ItemReader::Actions(reader) => reader.feed(alloc, MOST_ACTIONS, token),
            ItemReader::Observations(reader) => reader.feed(alloc, MOST_OBSERVATIONS, token),
            ItemReader::Start(reader) => reader.feed(alloc, known.states(), token),
            ItemReader::Entry(reader) => reader.feed(alloc, known, token),
        }
    }

    /// Returns the refusal that is still due for digits after `start:` that have no value as a number. Called if the tokens stop in a
    /// fault: this refusal comes first.
    pub fn pending(&self) -> Option<Refusal>
        ensures { result ≡ pending_in self.now }
    {
        match self {
            ItemReader::Start(reader) => reader.pending(),
            _ => None,
        }
    }

    /// Returns the contents of the item, or the fault if it cannot end here.
    pub fn end(self, alloc: Global, known: &ModelSoFar) -> Result<ItemContents, EndError>
        requires { IsItemWithin known.now self }
        ensures said { IfOk result (λ said. ItemGoes known.now self [] (with_item known.now said)) }
        ensures within { IfOk result AreContentsWithin }
        ensures topic { IfOk result (AreContentsOf (topic_of_reader self)) }
        ensures refused { HasElements known.now (topic_of_reader self)
            → IfErr result (λ e. IfNotMemory e (CannotEnd (ItemGoes known.now) self)) }
        ensures reason { (body : List Lexeme) → IsSeen (states_known known.now) body self →
            IfErr result (IsItemEndReason (states_known known.now) (topic_of_reader self) body) }
        ensures late { (body : List Lexeme) (late : Refusal) → IsSeen (states_known known.now) body self →
            topic_of_reader self ≡ Topic.Start →
            IsLate (states_known known.now) body true late.kind late.place
            → IfErr result (λ e. IsLateEnd e late) }
        ensures kind { HasElements known.now (topic_of_reader self) → IfErr result (λ e.
            IfAtEnd e (λ kind. kind ≡ unexpected_token (item_wants known.now self []) None)) }
        ensures unheld { IfErr result (λ e. IfAtEnd e (λ kind. pending_in self ≡ None)) }
    {
        match self {
            ItemReader::Discount(reader) => Ok(ItemContents::Discount(reader.end()?)),
            ItemReader::Values(reader) => Ok(ItemContents::Costs(reader.end()?)),
            ItemReader::States(reader) => Ok(ItemContents::States(reader.end()?)),
            ItemReader::Actions(reader) => Ok(ItemContents::Actions(reader.end()?)),
            ItemReader::Observations(reader) => Ok(ItemContents::Observations(reader.end()?)),
            ItemReader::Start(reader) => Ok(ItemContents::Start(reader.end(
                alloc,
                known.states(),
            )?)),
            ItemReader::Entry(reader) => Ok(ItemContents::Entry(reader.end(known)?)),
        }
    }
}

/// Why an item's reader stops: the item is refused, or a growth of memory was.
#[derive(Clone, Copy, Debug, PartialEq, Eq)]
pub enum FeedError {
    Refused(Refusal),
    Memory,
}

impl From<AllocError> for FeedError {
    ghost use Rattle.polcert_items.specs.declared.item.FeedError.TheVariants.{Memory};

    ghost from_gives = { λ _ stop. stop ≡ Memory };

    fn from(_e: AllocError) -> FeedError {
        FeedError::Memory
    }
}

impl From<Refusal> for FeedError {
    ghost use Rattle.polcert_items.specs.declared.item.FeedError.TheVariants as stops;

    ghost from_gives = { λ refusal stop. stop ≡ stops.Refused refusal };

    fn from(refusal: Refusal) -> FeedError {
        FeedError::Refused(refusal)
    }
}

/// Why an item cannot end where it does.
#[derive(Clone, Copy, Debug, PartialEq, Eq)]
pub enum EndError {
    /// Refused where it ends.
    AtEnd(ItemFault),
    /// Refused at a place of its own.
    At(Refusal),
    /// A growth of memory was refused.
    Memory,
}

impl From<AllocError> for EndError {
    ghost use Rattle.polcert_items.specs.declared.item.EndError.TheVariants.{Memory};

    ghost from_gives = { λ _ end. end ≡ Memory };

    fn from(_e: AllocError) -> EndError {
        EndError::Memory
    }
}

impl From<ItemFault> for EndError {
    ghost use Rattle.polcert_items.specs.declared.item.EndError.TheVariants as ends;

    ghost from_gives = { λ kind end. end ≡ ends.AtEnd kind };

    fn from(kind: ItemFault) -> EndError {
        EndError::AtEnd(kind)
    }
}

/// Why what a whole item says isn't added to what is known.
#[derive(Clone, Copy, Debug, PartialEq, Eq)]
pub enum AddError {
    /// It is an entry with which entries give too much of a large table.
    TooManyCells,
    /// A growth of memory was refused.
    Memory,
}

impl From<AllocError> for AddError {
    ghost use Rattle.polcert_items.specs.declared.item.AddError.TheVariants.{Memory};

    ghost from_gives = { λ _ end. end ≡ Memory };

    fn from(_e: AllocError) -> AddError {
        AddError::Memory
    }
}
