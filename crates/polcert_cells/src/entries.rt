//! Entries: the lines of T, O and R, as a model keeps them.
ghost use Rattle.std.specs.Prelude.{◌≡◌, ◌<◌, ◌++◌, ◌∷◌, [], length, slice_get, slice_set, OnOk, OnErr, ◌≤◌};
ghost use Rattle.std.specs.Prelude.{◌+◌, All, Some, List, IfOk, map, take};
ghost use Rattle.polcert_cells.specs.Steps.EntryLists.{part, place_of, entry_in, body_in, HasNumbers};
ghost use Rattle.polcert_cells.specs.Steps.EntryLists.{IsWithin, LiesIn, Continues, GoOn, IsPut};
ghost use Rattle.polcert_cells.specs.declared.entries.Entry.{Entry as E};
ghost use Rattle.polcert_cells.specs.EntryRefs.{places_in, entry_of, body_of, rewards_of, all_rewards, AreEntryBodies};
ghost use Rattle.polcert_cells.specs.EntryRefs.{CanBeKept, IsShortBody, IsSmallPlace, most_numbers};

use std::alloc::{AllocError, Global};
use std::fmt;
use std::marker::Model;

/// A table of a model, by the letter that its entries begin with.
#[derive(Clone, Copy, Debug, PartialEq, Eq)]
pub enum Table {
    /// T: the probability of each end state, by action and start state.
    Transition,
    /// O: the probability of each observation, by action and end state.
    Observation,
    /// R: the reward, by action, start state, end state and observation.
    Reward,
}

impl fmt::Display for Table {
    fn fmt<W: fmt::Write>(&self, f: &mut fmt::Formatter<W>) -> fmt::Result {
        match self {
            Table::Transition => write!(f, "T"),
            Table::Observation => write!(f, "O"),
            Table::Reward => write!(f, "R"),
        }
    }
}

/// One index of an entry's pattern: all elements (`*`), or the element of this number, counted from 0.
#[derive(Clone, Copy, Debug, PartialEq, Eq)]
pub enum Place {
    Every,
    Only(u16),
}

/// A list that grows at its end. A single item is kept in the value itself, and takes no memory. Contracts see the list.
#[derive(Debug, Drop)]
pub struct Sequence<T: Drop> {
    only: Option<[T; 1]>,
    more: Vec<T>,
}

impl<T: Drop> Model for Sequence<T> {
    ghost use Rattle.std.specs.Prelude.{List, IfSome, ◌≡◌, []};
    ghost use Rattle.polcert_cells.specs.Steps.Sequences.{items_of};

    ghost Value = { List T };

    ghost view = { λ s. items_of s.only s.more.items };

    ghost invariant = { λ s. IfSome s.only (λ _. s.more.items ≡ []) };
}

impl<T: Drop> Sequence<T> {
    /// Makes an empty list.
    pub fn new(alloc: Global) -> Self
        ensures { result ≡ [] }
    {
        Sequence {
            only: None,
            more: Vec::new(alloc),
        }
    }

    /// Returns the list of this item alone.
    #[inline(always)]
    pub fn only(alloc: Global, item: T) -> Self
        ensures { result ≡ item ∷ [] }
    {
        Sequence {
            only: Some([item]),
            more: Vec::new(alloc),
        }
    }

    /// Returns the number of items.
    #[inline(always)]
    pub fn len(&self) -> usize
        ensures { result ≡ length self.now }
    {
        self.as_slice().len()
    }

    /// Returns the items, first to last.
    #[inline(always)]
    pub fn as_slice(&self) -> &[T]
        ensures { result.now ≡ self.now }
    {
        match &self.only {
            Some(only) => &only[..],
            None => self.more.as_slice(),
        }
    }
}

impl<T: Copy + Drop> Sequence<T> {
    /// Puts the item after the others. If memory runs out the list stays as it was.
    #[inline(always)]
    pub fn push(&mut self, item: T) -> Result<(), AllocError>
        ensures ok { OnOk result (self.new ≡ self.old ++ item ∷ []) }
        ensures err { OnErr result (self.new ≡ self.old) }
    {
        match self.only {
            None if self.more.is_empty() => {
                self.only = Some([item]);
                Ok(())
            }
            None => {
                self.more.push(item)?;
                Ok(())
            }
            Some(only) => {
                self.more.extend_from_slice(&only)?;
                self.only = None;
                self.more.push(item)?;
                Ok(())
            }
        }
    }

    /// Returns the item at this index, counted from 0.
    pub fn at(&self, index: usize) -> T
        requires { index < length self.now }
        ensures { slice_get self.now index ≡ Some result }
    {
        self.as_slice()[index]
    }

    /// Puts the item in the place of the one of this number, counted from 0.
    pub fn set(&mut self, number: usize, item: T)
        requires { number < length self.old }
        ensures { self.new ≡ slice_set self.old number item }
    {
        match &mut self.only {
            Some(only) => only[number] = item,
            None => self.more[number] = item,
        }
    }
}

/// The most places that an entry has: a reward's action, start state, end state and observation.
const MOST_PLACES: usize = 4;

/// The places of an entry, kept in the value itself. Contracts see them as a list.
#[derive(Debug, Drop)]
pub struct Places {
    items: [Place; MOST_PLACES],
    count: usize,
}

impl Model for Places {
    ghost use Rattle.std.specs.Prelude.{List, take, ◌≤◌};
    ghost use Rattle.polcert_cells.specs.declared.entries.Place.{Place as P};

    ghost Value = { List P };

    ghost view = { λ p. take p.count p.items };

    ghost invariant = { λ p. p.count ≤ 4 };
}

impl Places {
    /// Makes an empty list of places.
    #[inline(always)]
    pub fn new() -> Places
        ensures { result ≡ [] }
    {
        Places {
            items: [Place::Every; MOST_PLACES],
            count: 0,
        }
    }

    /// Returns the number of places.
    #[inline(always)]
    pub fn len(&self) -> usize
        ensures { result ≡ length self.now }
    {
        self.as_slice().len()
    }

    /// Returns the places, first to last.
    #[inline(always)]
    pub fn as_slice(&self) -> &[Place]
        ensures { result.now ≡ self.now }
    {
        &self.items[..self.count]
    }

    /// Returns a copy of the places.
    #[inline(always)]
    pub fn copied(&self) -> EntryPlaces
        ensures { places_in result ≡ self.now }
    {
        EntryPlaces {
            items: self.items,
            count: self.count,
        }
    }

    /// Puts the place after the others, of which there are at most three.
    #[inline(always)]
    pub fn push(&mut self, place: Place)
        requires { length self.old < 4 }
        ensures { self.new ≡ self.old ++ place ∷ [] }
    {
        self.items[self.count] = place;
        self.count += 1;
    }

    /// Removes all places.
    #[inline(always)]
    pub fn clear(&mut self)
        ensures { self.new ≡ [] }
    {
        self.count = 0;
    }
}

/// What fills the cells that an entry's places leave open, row after row: numbers in millionths, or a word.
#[derive(Debug, Drop)]
pub enum Body {
    /// Probabilities, each from 0 to 1,000,000 millionths.
    Probabilities(Sequence<u32>),
    /// Rewards or costs as written, each from -10,000,000,000,000 to 10,000,000,000,000 millionths.
    Rewards(Sequence<i64>),
    /// The word `uniform`.
    Uniform,
    /// The word `identity`.
    Identity,
}

impl Body {
    /// Borrows the body.
    #[inline(always)]
    pub fn as_ref(&self) -> BodyRef<'_>
        ensures { body_of result ≡ self.now }
    {
        match self {
            Body::Probabilities(numbers) => BodyRef::Probabilities(numbers.as_slice()),
            Body::Rewards(numbers) => BodyRef::Rewards(numbers.as_slice()),
            Body::Uniform => BodyRef::Uniform,
            Body::Identity => BodyRef::Identity,
        }
    }
}

/// An entry: its table, the first indices of the cells that it covers, and what these cells hold.
#[derive(Debug, Drop)]
pub struct Entry {
    pub table: Table,
    pub places: Places,
    pub body: Body,
}

impl Entry {
    /// Borrows the entry.
    #[inline(always)]
    pub fn as_ref(&self) -> EntryRef<'_>
        ensures { entry_of result ≡ self.now }
    {
        EntryRef {
            table: self.table,
            places: self.places.copied(),
            body: self.body.as_ref(),
        }
    }
}

/// Where a part of a list begins, and how many items it has.
#[derive(Clone, Copy)]
pub(crate) struct Span {
    pub start: usize,
    pub len: u32,
}

/// No part of a list.
const NOTHING: Span = Span { start: 0, len: 0 };

/// What fills the cells of an entry: numbers of which list, or a word.
#[derive(Clone, Copy)]
pub(crate) enum BodyTag {
    Probabilities,
    Rewards,
    Uniform,
    Identity,
}

/// A place in 16 bits: this number stands for `*`, and any other for the element of this number.
const EVERY: u16 = u16::MAX;

/// An entry, by its places in 16 bits, of which the first `count` are its own, and by where its numbers stand: `len` of them from
/// `start` on. In this order its fields take 24 bytes.
#[derive(Clone, Copy)]
pub(crate) struct EntryHeader {
    pub start: usize,
    pub len: u32,
    pub places: [u16; MOST_PLACES],
    pub table: Table,
    pub filling: BodyTag,
    pub count: u8,
}

/// What fills the cells that an entry's places leave open, borrowed.
#[derive(Clone, Copy)]
pub enum BodyRef<'a> {
    Probabilities(&'a [u32]),
    Rewards(&'a [i64]),
    Uniform,
    Identity,
}

/// The places of a borrowed entry: the first `count` of these.
#[derive(Clone, Copy)]
pub struct EntryPlaces {
    items: [Place; MOST_PLACES],
    count: usize,
}

impl EntryPlaces {
    /// Returns the number of places.
    #[inline(always)]
    pub fn len(&self) -> usize
        ensures { result ≡ length (places_in self.now) }
    {
        self.as_slice().len()
    }

    /// Returns the places, first to last.
    #[inline(always)]
    pub fn as_slice(&self) -> &[Place]
        ensures { result.now ≡ places_in self.now }
    {
        &self.items[..self.count.min(MOST_PLACES)]
    }
}

/// An entry whose body is borrowed.
#[derive(Clone, Copy)]
pub struct EntryRef<'a> {
    pub table: Table,
    pub places: EntryPlaces,
    pub body: BodyRef<'a>,
}

/// The numbers of all entries.
#[derive(Drop)]
pub(crate) struct EntryStore {
    pub probabilities: Vec<u32>,
    pub rewards: Vec<i64>,
}

impl EntryStore {
    fn new(alloc: Global) -> EntryStore
        ensures { result.rewards.items ≡ [] }
    {
        EntryStore {
            probabilities: Vec::new(alloc),
            rewards: Vec::new(alloc),
        }
    }

    /// Puts the numbers of an entry after the others, and says where they stand. If memory runs out some may
    /// stand there.
    #[inline(always)]
    fn put(&mut self, entry: EntryRef<'_>) -> Result<EntryHeader, AllocError>
        requires { CanBeKept (entry_of entry) }
        ensures go_on { GoOn self.old self.new }
        ensures within { IfOk result (IsWithin self.new) }
        ensures entry { IfOk result (λ head. entry_in self.new head ≡ entry_of entry.entry) }
        ensures rewards { OnOk result
            (self.new.rewards.items ≡ self.old.rewards.items ++ rewards_of (body_of entry.entry.body)) }
    {
        let (filling, numbers) = self.put_body(entry.body)?;
        Ok(EntryHeader {
            start: numbers.start,
            len: numbers.len,
            places: kept_places(entry.places),
            table: entry.table,
            filling,
            count: entry.places.len() as u8,
        })
    }

    /// Puts the numbers of a body after the others, and returns its tag and where they stand.
    #[inline(always)]
    fn put_body(&mut self, body: BodyRef<'_>) -> Result<(BodyTag, Span), AllocError>
        requires { IsShortBody (body_of body) }
        ensures go_on { GoOn self.old self.new }
        ensures within { IfOk result (λ head. HasNumbers self.new head.0 head.1.start head.1.len) }
        ensures body { IfOk result (λ head.
            body_in self.new head.0 head.1.start head.1.len ≡ body_of body.entry) }
        ensures rewards { OnOk result
            (self.new.rewards.items ≡ self.old.rewards.items ++ rewards_of (body_of body.entry)) }
    {
        match body {
            BodyRef::Probabilities(numbers) => {
                let numbers = put(&mut self.probabilities, numbers)?;
                Ok((BodyTag::Probabilities, numbers))
            }
            BodyRef::Rewards(numbers) => {
                let numbers = put(&mut self.rewards, numbers)?;
                Ok((BodyTag::Rewards, numbers))
            }
            BodyRef::Uniform => Ok((BodyTag::Uniform, NOTHING)),
            BodyRef::Identity => Ok((BodyTag::Identity, NOTHING)),
        }
    }

    /// Returns the entry of this header.
    fn entry(&self, head: EntryHeader) -> EntryRef<'_>
        requires { IsWithin self.now head }
        ensures { entry_of result ≡ entry_in self.now head }
    {
        EntryRef {
            table: head.table,
            places: EntryPlaces {
                items: places_of(head.places),
                count: head.count as usize,
            },
            body: match head.filling {
                BodyTag::Probabilities => {
                    BodyRef::Probabilities(part(
                        self.probabilities.as_slice(),
                        head.start,
                        head.len,
                    ))
                }
                BodyTag::Rewards => {
                    BodyRef::Rewards(part(self.rewards.as_slice(), head.start, head.len))
                }
                BodyTag::Uniform => BodyRef::Uniform,
                BodyTag::Identity => BodyRef::Identity,
            },
        }
    }
}

/// The entries of a model, in the order of its text. Contracts see the list.
#[derive(Drop)]
pub struct Entries {
    heads: Vec<EntryHeader>,
    pools: EntryStore,
}

impl Model for Entries {
    ghost use Rattle.std.specs.Prelude.{List, map};
    ghost use Rattle.polcert_cells.specs.declared.entries.Entry.{Entry as E};
    ghost use Rattle.polcert_cells.specs.Steps.EntryLists.{entry_in, AreHeldIn};

    ghost Value = { List E };

    ghost view = { λ e. map (entry_in e.pools) e.heads.items };

    ghost invariant = { λ e. AreHeldIn e.pools e.heads.items };
}

impl Entries {
    /// Makes an empty list of entries.
    pub fn new(alloc: Global) -> Entries
        ensures { result ≡ [] }
    {
        Entries {
            heads: Vec::new(alloc),
            pools: EntryStore::new(alloc),
        }
    }

    /// Returns the number of entries.
    pub fn len(&self) -> usize
        ensures { result ≡ length self.now }
    {
        self.heads.len()
    }

    /// Returns the entry of this number, counted from 0.
    pub fn at(&self, number: usize) -> EntryRef<'_>
        requires { number < length self.now }
        ensures { slice_get self.now number ≡ Some (entry_of result) }
    {
        self.pools.entry(self.heads[number])
    }

    /// Returns the table of the entry of this number, counted from 0.
    #[inline(always)]
    pub fn table_of(&self, number: usize) -> Table
        requires { number < length self.now }
        ensures { (e : E) × (slice_get self.now number ≡ Some e) × (e.table ≡ result) }
    {
        self.heads[number].table
    }

    /// Puts the entry after the others. If memory runs out the list stays as it was.
    pub fn push(&mut self, entry: Entry) -> Result<(), AllocError>
        requires { CanBeKept entry }
        ensures ok { OnOk result (self.new ≡ self.old ++ entry ∷ []) }
        ensures err { OnErr result (self.new ≡ self.old) }
    {
        self.push_ref(entry.as_ref())
    }

    /// Puts a copy of the entry after the others. If memory runs out the list stays as it was.
    #[inline(always)]
    pub fn push_ref(&mut self, entry: EntryRef<'_>) -> Result<(), AllocError>
        requires { CanBeKept (entry_of entry) }
        ensures ok { OnOk result (self.new ≡ self.old ++ entry_of entry.entry ∷ []) }
        ensures err { OnErr result (self.new ≡ self.old) }
    {
        let count = self.pools.rewards.len();
        match put_entry(&mut self.heads, &mut self.pools, entry) {
            Ok(()) => Ok(()),
            Err(error) => {
                self.pools.rewards.truncate(count);
                Err(error)
            }
        }
    }

    /// Takes the entries apart once the rows are built: where the rewards of each begin, and the rewards of all entries, one after another.
    pub fn into_rewards(self) -> (EntryBodies, Vec<i64>)
        ensures bodies { AreEntryBodies self result.0 }
        ensures rewards { result.1.items ≡ all_rewards self }
    {
        let Entries { heads, pools } = self;
        let EntryStore {
            probabilities: _,
            rewards,
        } = pools;
        (EntryBodies { heads }, rewards)
    }
}

/// Of each entry of a model where its rewards begin among those of all, and how many places it has. Contracts see the list.
#[derive(Drop)]
pub struct EntryBodies {
    heads: Vec<EntryHeader>,
}

impl Model for EntryBodies {
    ghost use Rattle.std.specs.Prelude.{List, map};
    ghost use Rattle.polcert_cells.specs.declared.entries.RewardBody.{RewardBody as B};
    ghost use Rattle.polcert_cells.specs.Steps.EntryLists.{reward_body};

    ghost Value = { List B };

    ghost view = { λ b. map reward_body b.heads.items };
}

impl EntryBodies {
    /// Returns the body of the entry of this number, counted from 0, if there are that many.
    #[inline(always)]
    pub fn find(&self, number: usize) -> Option<RewardBody>
        ensures { result ≡ slice_get self.now number }
    {
        match self.heads.get(number) {
            Some(head) => Some(RewardBody {
                start: head.start,
                places: head.count as usize,
            }),
            None => None,
        }
    }
}

/// The body of an entry of R: where its numbers begin among those of all entries, and how many places it has. The fewer places, the
/// more numbers: one, a row of observations, a matrix of end states by observations, or such a matrix for each start state.
#[derive(Clone, Copy)]
pub struct RewardBody {
    pub start: usize,
    pub places: usize,
}

/// Puts an entry after the others. If memory runs out, some of its numbers may stand after those of the others.
fn put_entry(
    heads: &mut Vec<EntryHeader>,
    pools: &mut EntryStore,
    entry: EntryRef<'_>,
) -> Result<(), AllocError>
    requires { CanBeKept (entry_of entry) }
    ensures go_on { GoOn pools.old pools.new }
    ensures ok { OnOk result
        (IsPut heads.old.items heads.new.items pools.old pools.new (entry_of entry.entry)) }
    ensures err { OnErr result (heads.new.items ≡ heads.old.items) }
{
    let head = pools.put(entry)?;
    heads.push(head)?;
    Ok(())
}

/// Returns these places, each in 16 bits.
#[inline(always)]
fn kept_places(places: EntryPlaces) -> [u16; MOST_PLACES]
    requires { All IsSmallPlace (places_in places) }
    ensures { take places.count (map place_of result) ≡ places_in places }
{
    let [first, second, third, last] = places.items;
    [
        kept_place(first),
        kept_place(second),
        kept_place(third),
        kept_place(last),
    ]
}

/// Returns the place in 16 bits.
#[inline(always)]
fn kept_place(place: Place) -> u16
    ensures { IsSmallPlace place → place_of result ≡ place }
{
    match place {
        Place::Every => EVERY,
        Place::Only(index) => index,
    }
}

/// Returns the places that these numbers of 16 bits stand for.
#[inline(always)]
fn places_of(kept: [u16; MOST_PLACES]) -> [Place; MOST_PLACES]
    ensures { result ≡ map place_of kept }
{
    let [first, second, third, last] = kept;
    [
        place_of(first),
        place_of(second),
        place_of(third),
        place_of(last),
    ]
}

/// Returns the place that this number of 16 bits stands for.
#[inline(always)]
fn place_of(kept: u16) -> Place
    ensures { result ≡ place_of kept }
{
    if kept == EVERY {
        Place::Every
    } else {
        Place::Only(kept)
    }
}

/// Returns `len` items from `start` on.
fn part<T>(items: &[T], start: usize, len: u32) -> &[T]
    requires { LiesIn (length items.now) start len }
    ensures { result.now ≡ part start len items.now }
{
    &items[start..start + len as usize]
}

/// Puts more items after those of a list, and says where they stand. If memory runs out some may stand there.
#[inline(always)]
fn put<T: Copy + Drop>(items: &mut Vec<T>, more: &[T]) -> Result<Span, AllocError>
    requires { length more.now ≤ most_numbers }
    ensures continues { Continues items.old.items items.new.items }
    ensures ok { OnOk result (items.new.items ≡ items.old.items ++ more.now) }
    ensures start { IfOk result (λ span. span.start ≡ length items.old.items) }
    ensures len { IfOk result (λ span. span.len ≡ length more.now) }
{
    let start = items.len();
    match more {
        [item] => items.push(*item)?,
        _ => items.extend_from_slice(more)?,
    }
    Ok(Span {
        start,
        len: more.len() as u32,
    })
}
