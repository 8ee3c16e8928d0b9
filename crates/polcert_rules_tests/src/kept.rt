//! Which entries a list of entries can keep.
ghost use Rattle.std.specs.Prelude.{◌++◌, ◌∷◌, [], ◌≡◌, All, IsTrue, OnOk};
ghost use Rattle.polcert_cells.specs.EntryRefs.{CanBeKept, IsShortBody, IsSmallPlace};

use polcert_cells::{Body, Entries, Entry, MOST_ELEMENTS, Place};
use std::alloc::AllocError;

/// Puts the entry after the others, if it can be kept; else it counts as out of memory, so that a test fails.
pub fn push_if_kept(entries: &mut Entries, entry: Entry) -> Result<(), AllocError>
    ensures { OnOk result (entries.new ≡ entries.old ++ entry ∷ []) }
{
    if can_be_kept(&entry) {
        entries.push(entry)
    } else {
        Err(AllocError)
    }
}

fn can_be_kept(entry: &Entry) -> bool
    ensures { IsTrue result → CanBeKept entry.now }
{
    let has_small_places = are_small(entry.places.as_slice());
    let is_short = is_short(&entry.body);
    has_small_places && is_short
}

fn are_small(places: &[Place]) -> bool
    ensures { IsTrue result → All IsSmallPlace places.now }
{
    places.iter().all(|place| is_small(place))
}

fn is_small(place: &Place) -> bool
    ensures { IsTrue result → IsSmallPlace place.now }
{
    match place {
        Place::Every => true,
        Place::Only(index) => (*index as usize) < MOST_ELEMENTS,
    }
}

fn is_short(body: &Body) -> bool
    ensures { IsTrue result → IsShortBody body.now }
{
    match body {
        Body::Probabilities(numbers) => numbers.len() <= 100_000_000,
        Body::Rewards(numbers) => numbers.len() <= 100_000_000,
        Body::Uniform | Body::Identity => true,
    }
}
