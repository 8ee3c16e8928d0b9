//! The states, actions or observations of a model: a count or names, how names are found, and the start over states.
ghost use Rattle.std.specs.Prelude.{◌≡◌, option_map, IsAscii, ℕ, ◌++◌, ◌∷◌, [], true, false, length};
ghost use Rattle.std.specs.Prelude.{position, bytes_eq, slice_get, IfOk, IfSome, Some, OnErr, if◌then◌else◌};
ghost use Rattle.polcert_cells.specs.Elements.{count_of, number_of, name_of};
ghost use Rattle.std.specs.List.{list_any};
ghost use Rattle.std.specs.Hash.FoldHasher.{write, finish};

use crate::Sequence;
use indexmap::IndexSet;
use std::alloc::{AllocError, Global};
use std::collections::hash_map::DefaultHasher;
use std::hash::{BuildHasher, FoldHasher, Hash, Hasher};
use std::marker::Model;
use std::str;
use std::string::String;

/// The most states that a model has.
pub const MOST_STATES: usize = 10_000;

/// The most actions that a model has.
pub const MOST_ACTIONS: usize = 1000;

/// The most observations that a model has: as many as states, which are what an MDP observes.
pub const MOST_OBSERVATIONS: usize = MOST_STATES;

/// The most elements of a kind that a model has, whichever the kind.
pub const MOST_ELEMENTS: usize = MOST_STATES;

/// Which elements are meant: the states, the actions or the observations.
#[derive(Clone, Copy, Debug, PartialEq, Eq)]
pub enum Kind {
    State,
    Action,
    Observation,
}

/// The elements of one kind: this many, or names in order. An element's number counts from 0.
///
/// Source: the POMDP file format page at pomdp.org, "states:", "actions:" and "observations:".
#[derive(Drop)]
pub enum Elements {
    Count(usize),
    Names(Names),
}

impl Elements {
    /// Returns the number of elements.
    pub fn count(&self) -> usize
        ensures { result ≡ count_of self.now }
    {
        match self {
            Elements::Count(count) => *count,
            Elements::Names(names) => names.len(),
        }
    }

    /// Returns the number of the element of this name; `None` if no element has it or the elements have no
    /// names.
    #[inline(always)]
    pub fn number_of(&self, name: &[u8]) -> Option<usize>
        requires { IsAscii name.now }
        ensures { result ≡ number_of self.now name.now }
    {
        match self {
            Elements::Count(_) => None,
            Elements::Names(names) => names.number_of(name),
        }
    }

    /// Returns the name of the element of this number. `None`: the elements are a count, or there are fewer. Only tests ask for it.
    pub fn name_of(&self, number: usize) -> Option<&str>
        ensures { option_map (λ name. name.now) result ≡ name_of self.now number }
    {
        match self {
            Elements::Count(_) => None,
            Elements::Names(names) => names.at(number),
        }
    }
}

/// The most names that are added under one key.
const NAMES_PER_KEY: usize = 300;

/// Distinct names, numbered from 0 in order of appearance. Contracts see the list of their bytes.
///
/// Names that collide under a known key can be computed, so each key is a digest of the key before it and of the names that were added
/// under that one: only names that are added under the last key can be made for it.
#[derive(Drop)]
pub struct Names {
    set: IndexSet<String, KeyedState>,
    guesses: NameGuesses,
}

impl Model for Names {
    ghost use Rattle.std.specs.Prelude.{List, ℕ, map, string_bytes};

    ghost Value = { List (List ℕ) };

    ghost view = { λ n. map string_bytes n.set.keys };
}

impl Names {
    /// Returns the empty list.
    pub fn new(alloc: Global) -> Names
        ensures { result ≡ [] }
    {
        Names {
            set: IndexSet::with_hasher(alloc, KeyedState::new(0)),
            guesses: NameGuesses::new(alloc),
        }
    }

    /// Returns the number of names.
    pub fn len(&self) -> usize
        ensures { result ≡ length self.now }
    {
        self.set.len()
    }

    /// Adds the name at the end unless it is there already, and returns whether it was new.
    ///
    /// # Errors
    ///
    /// Out of memory. The names are then as before.
    pub fn push(&mut self, alloc: Global, name: &[u8]) -> Result<bool, AllocError>
        requires { IsAscii name.now }
        ensures new { IfOk result (λ is_new. is_new ≡ true → (list_any (bytes_eq name.now) self.old ≡ false)
            × (self.new ≡ self.old ++ name.now ∷ [])) }
        ensures known { IfOk result (λ is_new. is_new ≡ false
            → (list_any (bytes_eq name.now) self.old ≡ true) × (self.new ≡ self.old)) }
        ensures err { OnErr result (self.new ≡ self.old) }
    {
        let name = text_of(name);
        self.rekey_if_due(alloc)?;
        self.guesses.reserve(alloc, self.set.as_slice())?;
        let number = self.set.len();
        let is_new = self.set.insert(String::from_str(alloc, name)?)?;
        if is_new {
            self.guesses.note(name.as_bytes(), number);
        }
        Ok(is_new)
    }

    /// Moves the names to a set under the next key, if enough came under the last one.
    fn rekey_if_due(&mut self, alloc: Global) -> Result<(), AllocError>
        ensures { self.new ≡ self.old }
    {
        let count = self.set.len();
        if count == 0 || count % NAMES_PER_KEY != 0 {
            return Ok(());
        }
        let key = self
            .set
            .hasher()
            .after(&self.set.as_slice()[count - NAMES_PER_KEY..]);
        let mut set = IndexSet::with_capacity_and_hasher(alloc, self.set.capacity(), key)?;
        set.append(&mut self.set)?;
        self.set = set;
        Ok(())
    }

    /// Returns the number of this name, if it is among the names.
    #[inline(always)]
    pub fn number_of(&self, name: &[u8]) -> Option<usize>
        requires { IsAscii name.now }
        ensures { result ≡ position (bytes_eq name.now) self.now }
    {
        match self.guessed_number(name) {
            Some(number) => Some(number),
            None => self.searched_number(name),
        }
    }

    /// Returns what `number_of` does, by a search of the set: called if the guess is wrong.
    #[inline(never)]
    fn searched_number(&self, name: &[u8]) -> Option<usize>
        requires { IsAscii name.now }
        ensures { result ≡ position (bytes_eq name.now) self.now }
    {
        self.set.get_index_of(text_of(name))
    }

    /// Returns the number that is guessed for the name, if it is right. `None`: unknown, search the set.
    #[inline(always)]
    fn guessed_number(&self, name: &[u8]) -> Option<usize>
        ensures { IfSome result (λ number. Some number ≡ position (bytes_eq name.now) self.now) }
    {
        let Some(number) = self.guesses.guess(name) else {
            return None;
        };
        if number >= self.set.len() {
            return None;
        }
        let Some(known) = self.set.get_index(number) else {
            return None;
        };
        if known.as_bytes() == name {
            return Some(number);
        }
        None
    }

    /// Returns the name of this number. `None`: there are fewer names.
    pub fn at(&self, number: usize) -> Option<&str>
        ensures { option_map (λ name. name.now) result ≡ slice_get self.now number }
    {
        Some(self.set.get_index(number)?.as_str())
    }
}

/// Returns the bytes of a name, which are ASCII, as text.
#[inline(always)]
fn text_of(name: &[u8]) -> &str
    requires { IsAscii name.now }
    ensures { result.now ≡ name.now }
{
    unsafe { str::from_utf8_unchecked(name) }
}

/// Hashes as a `FoldHasher` does, but passes over the byte 255 that `str` writes at its end: a name is hashed alone, and has no such byte.
#[derive(Clone, Copy)]
pub struct NameHasher {
    fold: FoldHasher,
}

impl NameHasher {
    pub fn new(key: u64) -> NameHasher {
        let mut fold = FoldHasher::default();
        fold.write_u64(key);
        NameHasher { fold }
    }
}

impl Hasher for NameHasher {
    ghost write = { λ hasher bytes.
        if bytes_eq bytes (255 ∷ []) then hasher else record { fold = write hasher.fold bytes } };

    ghost finish = { λ hasher. finish hasher.fold };

    fn finish(&self) -> u64 {
        self.fold.finish()
    }

    #[inline(always)]
    fn write(&mut self, bytes: &[u8]) {
        if bytes.len() == 1 && bytes[0] == 255 {
            return;
        }
        self.fold.write(bytes);
    }
}

/// Makes hashers of names that start from a key. No proof depends on the key.
#[derive(Clone, Copy)]
pub struct KeyedState {
    start: NameHasher,
}

impl KeyedState {
    pub fn new(key: u64) -> KeyedState {
        KeyedState {
            start: NameHasher::new(key),
        }
    }

    /// Returns the state under the next key: a digest of this one and of the names that were hashed under it.
    pub fn after(&self, names: &[String]) -> KeyedState {
        let mut digest = DefaultHasher::new();
        digest.write_u64(self.start.finish());
        names.hash(&mut digest);
        KeyedState::new(digest.finish())
    }
}

impl BuildHasher for KeyedState {
    type Hasher = NameHasher;

    ghost build_hasher = { λ state. state.start };

    fn build_hasher(&self) -> NameHasher {
        self.start
    }
}

/// A share for each state, by its number, and what the shares sum to. Shares are from 0 to 1,000,000.
#[derive(Debug, Drop)]
pub struct StartWeights {
    pub weights: Sequence<u32>,
    pub total: u32,
}

/// One, in millionths.
pub const ONE: u64 = 1_000_000;

/// A column of a row, counted from 0, and its weight: in a row of n columns the scale is 1,000,000 * n.
#[derive(Clone, Copy, Debug, PartialEq, Eq)]
pub struct Cell {
    pub column: usize,
    pub weight: u64,
}

/// How many slots a table has at least, and by how much it grows.
const FIRST_SLOTS: usize = 256;

const GROWTH: usize = 4;

/// How many slots there are for each name, so that few names share one.
const SLOTS_PER_NAME: usize = 8;

/// The bytes at a name's end that choose its slot.
const DIGESTED: usize = 8;

/// Guesses of the numbers of names, by a digest of their last bytes. Each is tested where it is used, so no proof depends on them.
#[derive(Drop)]
pub struct NameGuesses {
    slots: Vec<u16>,
}

impl NameGuesses {
    pub fn new(alloc: Global) -> NameGuesses {
        NameGuesses {
            slots: Vec::new(alloc),
        }
    }

    /// Returns the number that was noted last for a name of the same digest, which may be another name's. `None`: nothing is noted at all.
    #[inline(always)]
    pub fn guess(&self, name: &[u8]) -> Option<usize> {
        match self.slots.get(slot_of(name, self.slots.len())) {
            Some(number) => Some(*number as usize),
            None => None,
        }
    }

    /// Makes room for one more name. If the slots become too few, it makes more, and notes these names again.
    pub fn reserve(&mut self, alloc: Global, names: &[String]) -> Result<(), AllocError> {
        let count = self.slots.len();
        if names.len() < count / SLOTS_PER_NAME {
            return Ok(());
        }
        let grown = count.saturating_mul(GROWTH).max(FIRST_SLOTS);
        self.slots = vec![in alloc; 0; grown]?;
        for (number, name) in names.iter().enumerate() {
            self.note(name.as_bytes(), number);
        }
        Ok(())
    }

    /// Notes the number of a name.
    pub fn note(&mut self, name: &[u8], number: usize) {
        let slot = slot_of(name, self.slots.len());
        if let Some(guess) = self.slots.get_mut(slot) {
            *guess = (number % 65_536) as u16;
        }
    }
}

/// Returns the slot of a name among `count`, a power of two.
#[inline(always)]
fn slot_of(name: &[u8], count: usize) -> usize {
    let mut digest: usize = 0;
    for byte in &name[name.len().saturating_sub(DIGESTED)..] {
        digest = digest.wrapping_mul(33) ^ *byte as usize;
    }
    digest & count.wrapping_sub(1)
}
