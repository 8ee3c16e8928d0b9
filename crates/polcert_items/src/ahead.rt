//! The fast way to read an entry: places and numbers that stand whole at the front of the buffer are taken together, without tokens.
ghost use Rattle.std.specs.Prelude.{◌≡◌, ◌+◌, ◌<◌, ◌≤◌, ℕ, length, drop, get_or, IfOk, OnErr, IfSome, IfNone, IsTrue, IsFalse, []};
ghost use Rattle.polcert_text.specs.Beginning.{BeginWithOne, BeginWithDigits};
ghost use Rattle.polcert_cells.specs.Elements.{count_of, most_elements};
ghost use Rattle.polcert_cells.specs.declared.elements.Elements.TheVariants.{Count};
ghost use Rattle.polcert_format.specs.KnownPreamble.{indices_in, named_in, preamble_in};
ghost use Rattle.polcert_items.specs.Steps.Ahead.{FedAhead, StepsAhead, IsListFed, IsListBegun, ItemFedAhead, BeginWithPlace, PlacesFed, AreCounts};
ghost use Rattle.polcert_items.specs.Steps.Ahead.{with_state};
ghost use Rattle.polcert_items.specs.Steps.Ahead.{IsNextEntry, IsNextItem};
ghost use Rattle.polcert_items.specs.Steps.Entries.{EntryGoes, IsWithinIndices};
ghost use Rattle.polcert_items.specs.Steps.ModelSoFar.{IsAllowedNext};
ghost use Rattle.polcert_items.specs.declared.item.ItemContents.{ItemContents};
ghost use Rattle.polcert_items.specs.declared.entry_reader.EntryReader.{EntryReader as EntryR};
ghost use Rattle.polcert_cells.specs.declared.entries.Entry.{Entry as E};
ghost use Rattle.polcert_items.specs.Steps.Items.{IsItemWithin};

use crate::entry_reader::{
    EntryReader, EntryState, ListNumber, MOST_INDICES, Numbers, indices_of, takes_numbers,
};
use crate::item::{AddError, ItemReader};
use crate::model_so_far::ModelSoFar;
use crate::preamble_lines::element_by_name;
use crate::signed_number::range_fault;
use polcert_cells::{Place, Table, Topic};
use polcert_text::{
    FrontIndex, TokenKind, front_colon, front_digits, front_index, front_name, front_number,
    front_token,
};
use std::alloc::{AllocError, Global};

/// A place at the front of some bytes, and how many bytes it takes with the blanks before it.
#[derive(Clone, Copy)]
pub struct FrontPlace {
    pub len: usize,
    pub place: Place,
}

/// A list of numbers that was begun ahead, and how many bytes they are with the blanks before them.
#[derive(Drop)]
pub struct ListAhead<T: Copy> {
    pub numbers: Numbers<T>,
    pub len: usize,
}

impl ItemReader {
    /// Continues the item with tokens that stand whole at the front of the bytes, as far as it is known at once that it can, and returns
    /// how many bytes they are: 0 in every item but an entry. An error is out of memory.
    #[inline(always)]
    pub fn feed_ahead(
        &mut self,
        alloc: Global,
        known: &ModelSoFar,
        bytes: &[u8],
    ) -> Result<usize, AllocError>
        requires { IsItemWithin known.now self.old }
        ensures { IfOk result (λ count. ItemFedAhead known.now self.old bytes.now count self.new) }
    {
        match self {
            ItemReader::Entry(reader) => reader.feed_ahead(alloc, known, bytes),
            _ => Ok(0),
        }
    }

    /// Ends an entry and begins one of this table in its reader, so that nothing large is moved. `false`: unknown, take the slow path. An
    /// error is out of memory. In both cases nothing changes.
    #[inline(always)]
    pub fn next_entry(&mut self, known: &mut ModelSoFar, table: Table) -> Result<bool, AllocError>
        requires { (a : EntryR) (e : E) → self.old ≡ ItemReader.Entry a
            → EntryGoes (preamble_in known.old) a [] e → IsAllowedNext known.old (ItemContents.Entry e) }
        ensures next { IfOk result (λ begun. IsTrue begun
            → IsNextItem known.old self.old table known.new self.new) }
        ensures known { IfOk result (λ begun. IsFalse begun → known.new ≡ known.old) }
        ensures unknown { IfOk result (λ begun. IsFalse begun → self.new ≡ self.old) }
        ensures no_memory { OnErr result ((known.new ≡ known.old) × (self.new ≡ self.old)) }
    {
        match self {
            ItemReader::Entry(reader) => reader.next_entry(known, table),
            _ => Ok(false),
        }
    }
}

impl EntryReader {
    /// Adds the entry to what is known, and begins one of this table in its place. `false`: unknown, as when the entry can't end here. An
    /// error is out of memory. In both cases nothing changes.
    #[inline(always)]
    fn next_entry(&mut self, known: &mut ModelSoFar, table: Table) -> Result<bool, AllocError>
        requires { (e : E) → EntryGoes (preamble_in known.old) self.old [] e
            → IsAllowedNext known.old (ItemContents.Entry e) }
        ensures next { IfOk result (λ begun. IsTrue begun
            → IsNextEntry known.old self.old table known.new self.new) }
        ensures known { IfOk result (λ begun. IsFalse begun → known.new ≡ known.old) }
        ensures unknown { IfOk result (λ begun. IsFalse begun → self.new ≡ self.old) }
        ensures no_memory { OnErr result ((known.new ≡ known.old) × (self.new ≡ self.old)) }
    {
        let Some(entry) = self.whole_entry() else {
            return Ok(false);
        };
        if known.table_fault(table).is_some() {
            return Ok(false);
        }
        match known.add_entry(entry) {
            Ok(()) => {}
            Err(AddError::TooManyCells) => return Ok(false),
            Err(AddError::Memory) => return Err(AllocError),
        }
        self.restart(table);
        Ok(true)
    }

    /// Continues the entry with places and numbers, as `ItemReader::feed_ahead` does. It tries for places only if the entry's line begins.
    #[inline(always)]
    fn feed_ahead(
        &mut self,
        alloc: Global,
        known: &ModelSoFar,
        bytes: &[u8],
    ) -> Result<usize, AllocError>
        requires { IsWithinIndices (indices_in known.now self.old.table) self.old }
        ensures { IfOk result (λ count. FedAhead known.now self.old bytes.now count self.new) }
    {
        match self.state {
            EntryState::Colon => self.feed_line(alloc, known, bytes),
            _ => self.feed_numbers_ahead(known, bytes),
        }
    }

    /// Continues with places, each after a colon, and then with numbers, and returns how many bytes they are. (Apart, since the state is
    /// large: it is written once.)
    #[inline(never)]
    fn feed_line(
        &mut self,
        alloc: Global,
        known: &ModelSoFar,
        bytes: &[u8],
    ) -> Result<usize, AllocError>
        requires within { IsWithinIndices (indices_in known.now self.old.table) self.old }
        requires state { self.old.state ≡ EntryState.Colon }
        ensures { IfOk result (λ count. FedAhead known.now self.old bytes.now count self.new) }
    {
        let Some(at) = self.feed_places_ahead(known, bytes) else {
            return Ok(0);
        };
        let Some(len) = self.begin_ahead(alloc, known, &bytes[at..]) else {
            self.state = EntryState::Body;
            return Ok(at);
        };
        let more = self.feed_numbers_ahead(known, &bytes[at + len..])?;
        Ok(at + len + more)
    }

    /// Continues the list of numbers, if one was begun, and returns how many bytes they are.
    #[inline(always)]
    fn feed_numbers_ahead(&mut self, known: &ModelSoFar, bytes: &[u8]) -> Result<usize, AllocError>
        requires { IsWithinIndices (indices_in known.now self.old.table) self.old }
        ensures { IfOk result (λ count. FedAhead known.now self.old bytes.now count self.new) }
    {
        match &mut self.state {
            EntryState::Probabilities(numbers) if !numbers.is_full() => numbers.feed_ahead(bytes),
            EntryState::Rewards(numbers) if !numbers.is_full() => numbers.feed_ahead(bytes),
            _ => Ok(0),
        }
    }

    /// Continues with the places that come next, each after a colon, and returns how many bytes they are. `None`: unknown, and nothing
    /// changes. The caller then sets the state. Indices in digits are tried first, by a shorter way.
    #[inline(always)]
    fn feed_places_ahead(&mut self, known: &ModelSoFar, bytes: &[u8]) -> Option<usize>
        ensures fed { IfSome result (λ count. PlacesFed known.now self.old bytes.now count self.new) }
        ensures none { IfNone result (self.new ≡ self.old) }
    {
        let Some(at) = self.feed_indices_ahead(known, bytes) else {
            return self.feed_any_places_ahead(known, bytes);
        };
        if self.places.len() == indices_of(self.table) || front_colon(&bytes[at..]).is_none() {
            return Some(at);
        }
        match self.feed_any_places_ahead(known, &bytes[at..]) {
            Some(len) => Some(at + len),
            None => Some(at),
        }
    }

    /// Continues as `feed_places_ahead` does, but only up to the first place that isn't an index in digits. `None`: unknown, no such place
    /// comes first.
    #[inline(always)]
    fn feed_indices_ahead(&mut self, known: &ModelSoFar, bytes: &[u8]) -> Option<usize>
        ensures fed { IfSome result (λ count. PlacesFed known.now self.old bytes.now count self.new) }
        ensures none { IfNone result (self.new ≡ self.old) }
    {
        let front = front_index(bytes)?;
        let most = indices_of(self.table);
        let counts = known.counts(self.table);
        let mut at = self.put_index(known, most, &counts, bytes, front)?;
        while self.places.len() < most {
            let Some(front) = front_index(&bytes[at..]) else {
                return Some(at);
            };
            let Some(len) = self.put_index(known, most, &counts, &bytes[at..], front) else {
                return Some(at);
            };
            at += len;
        }
        Some(at)
    }

    /// Puts the index at the front of the bytes after the other places, and returns how many bytes it takes with its colon. `None`: no
    /// place is left, or no element has this number. The caller sets the state.
    #[inline(always)]
    fn put_index(
        &mut self,
        known: &ModelSoFar,
        most: usize,
        counts: &[usize; MOST_INDICES],
        bytes: &[u8],
        front: FrontIndex,
    ) -> Option<usize>
        requires most { most ≡ length (indices_in known.now self.old.table) }
        requires counts { AreCounts known.now self.old.table counts.now }
        requires colon { (place : ℕ) → BeginWithOne place bytes.now front.colon TokenKind.Colon }
        requires digits { (place : ℕ) → BeginWithDigits place (drop front.colon bytes.now) front.digits }
        ensures fed { IfSome result (λ count. PlacesFed known.now self.old bytes.now count self.new) }
        ensures grows { IfSome result (λ _. length self.new.places ≡ length self.old.places + 1) }
        ensures none { IfNone result (self.new ≡ self.old) }
    {
        let written = self.places.len();
        let index = front.digits.value;
        if written >= most || index >= counts[written] as u64 {
            return None;
        }
        self.places.push(Place::Only(index as u16));
        Some(front.colon + front.digits.len)
    }

    /// Continues as `feed_places_ahead` does, with places of any form: called if a place isn't an index in digits.
    #[inline(never)]
    fn feed_any_places_ahead(&mut self, known: &ModelSoFar, bytes: &[u8]) -> Option<usize>
        ensures fed { IfSome result (λ count. PlacesFed known.now self.old bytes.now count self.new) }
        ensures none { IfNone result (self.new ≡ self.old) }
    {
        let mut at: usize = 0;
        let mut has_place = false;
        while let Some(len) = self.feed_place_ahead(known, &bytes[at..]) {
            at += len;
            has_place = true;
        }
        if has_place { Some(at) } else { None }
    }

    /// Continues with one colon and one place, and returns how many bytes they are. `None`: unknown, and nothing changes. The caller sets
    /// the state.
    #[inline(always)]
    fn feed_place_ahead(&mut self, known: &ModelSoFar, bytes: &[u8]) -> Option<usize>
        ensures fed { IfSome result (λ count. PlacesFed known.now self.old bytes.now count self.new) }
        ensures room { IfSome result
            (λ _. length self.old.places < length (indices_in known.now self.old.table)) }
        ensures grows { IfSome result (λ _. length self.new.places ≡ length self.old.places + 1) }
        ensures none { IfNone result (self.new ≡ self.old) }
    {
        if self.places.len() >= indices_of(self.table) {
            return None;
        }
        let Some(colon) = front_colon(bytes) else {
            return None;
        };
        let Some(front) = self.place_ahead(known, &bytes[colon..]) else {
            return None;
        };
        self.places.push(front.place);
        Some(colon + front.len)
    }

    /// Returns the place at the front of the bytes. `None`: unknown. Names and numbers are tried first, by shorter ways.
    #[inline(always)]
    fn place_ahead(&self, known: &ModelSoFar, bytes: &[u8]) -> Option<FrontPlace>
        requires { length self.now.places < length (indices_in known.now self.now.table) }
        ensures { IfSome result (λ front. (position : ℕ) →
            BeginWithPlace (drop (length self.now.places) (named_in known.now self.now.table)) position
            bytes.now front) }
    {
        if let Some(front) = self.name_ahead(known, bytes) {
            return Some(front);
        }
        match front_digits(bytes) {
            Some(index) if index.value < self.next_count(known) as u64 => Some(FrontPlace {
                len: index.len,
                place: Place::Only(index.value as u16),
            }),
            _ => self.token_place_ahead(known, bytes),
        }
    }

    /// Returns the place at the front of the bytes, if it is an element's name. `None`: unknown.
    #[inline(always)]
    fn name_ahead(&self, known: &ModelSoFar, bytes: &[u8]) -> Option<FrontPlace>
        requires { length self.now.places < length (indices_in known.now self.now.table) }
        ensures { IfSome result (λ front. (position : ℕ) →
            BeginWithPlace (drop (length self.now.places) (named_in known.now self.now.table)) position
            bytes.now front) }
    {
        let Some(token) = front_name(bytes) else {
            return None;
        };
        let Some(elements) = known.elements(self.table, self.places.len()) else {
            return None;
        };
        match element_by_name(token, elements) {
            Ok(index) => Some(FrontPlace {
                len: token.stop as usize,
                place: Place::Only(index as u16),
            }),
            Err(_) => None,
        }
    }

    /// Returns the place at the front of the bytes, if it is `*` or a name. `None`: unknown.
    #[inline(never)]
    fn token_place_ahead(&self, known: &ModelSoFar, bytes: &[u8]) -> Option<FrontPlace>
        requires { length self.now.places < length (indices_in known.now self.now.table) }
        ensures { IfSome result (λ front. (position : ℕ) →
            BeginWithPlace (drop (length self.now.places) (named_in known.now self.now.table)) position
            bytes.now front) }
    {
        let Some(token) = front_token(bytes) else {
            return None;
        };
        match self.next_place(known, token) {
            Ok(place) => Some(FrontPlace {
                len: token.stop as usize,
                place,
            }),
            Err(_) => None,
        }
    }

    /// Returns how many elements the next place may name.
    #[inline(always)]
    fn next_count(&self, known: &ModelSoFar) -> usize
        requires { length self.now.places < length (indices_in known.now self.now.table) }
        ensures count { result ≡ count_of
            (get_or (named_in known.now self.now.table) (length self.now.places) (Count 0)) }
        ensures few { result ≤ most_elements }
    {
        match known.elements(self.table, self.places.len()) {
            Some(elements) => elements.count(),
            None => 0,
        }
    }

    /// Continues after the last place with the body's first number, and returns how many bytes it is. `None`: unknown, and nothing changes.
    #[inline(always)]
    fn begin_ahead(&mut self, alloc: Global, known: &ModelSoFar, bytes: &[u8]) -> Option<usize>
        requires { IsWithinIndices (indices_in known.now self.old.table)
            (with_state self.old EntryState.Body) }
        ensures begun { IfSome result (λ count.
            FedAhead known.now (with_state self.old EntryState.Body) bytes.now count self.new) }
        ensures none { IfNone result (self.new ≡ self.old) }
    {
        let written = self.places.len();
        if !takes_numbers(known.is_mdp(), self.table, written) {
            return None;
        }
        let needed = known.cells_after(self.table, written);
        match self.table {
            Table::Reward => {
                let Some(list) = list_ahead(alloc, needed, bytes) else {
                    return None;
                };
                self.state = EntryState::Rewards(list.numbers);
                Some(list.len)
            }
            Table::Transition | Table::Observation => {
                let Some(list) = list_ahead(alloc, needed, bytes) else {
                    return None;
                };
                self.state = EntryState::Probabilities(list.numbers);
                Some(list.len)
            }
        }
    }
}

/// Begins a list of `needed` numbers with the one at the front of the bytes. `None`: unknown.
#[inline(always)]
fn list_ahead<T: ListNumber>(alloc: Global, needed: usize, bytes: &[u8]) -> Option<ListAhead<T>>
    ensures { IfSome result (IsListBegun T.kind needed bytes.now) }
{
    if needed == 0 {
        return None;
    }
    let Some(number) = front_number(bytes) else {
        return None;
    };
    match range_fault(T::range(), number.value) {
        None => Some(ListAhead {
            numbers: Numbers::with_first(alloc, needed, T::of_millionths(number.value)),
            len: number.len,
        }),
        Some(_) => None,
    }
}

impl<T: ListNumber> Numbers<T> {
    /// Continues with the numbers that the bytes begin with, up to the last that is needed, and answers how many bytes they are.
    #[inline(never)]
    fn feed_ahead(&mut self, bytes: &[u8]) -> Result<usize, AllocError>
        ensures { IfOk result (λ count. StepsAhead (IsListFed T.kind) self.old bytes.now count self.new) }
    {
        let mut at: usize = 0;
        if self.sign.is_some() {
            return Ok(at);
        }
        while self.read.len() < self.needed {
            let Some(number) = front_number(&bytes[at..]) else {
                return Ok(at);
            };
            match range_fault(T::range(), number.value) {
                None => self.read.push(T::of_millionths(number.value))?,
                Some(_) => return Ok(at),
            }
            at += number.len;
        }
        Ok(at)
    }
}
