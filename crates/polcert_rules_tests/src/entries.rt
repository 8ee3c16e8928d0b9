//! Entries, what they are made of, and the letters of the tables.
use crate::kept::push_if_kept;
use polcert_cells::{
    Body, BodyRef, Cell, Entries, Entry, Names, Place, Places, Row, Sequence, Table,
};
use polcert_testing::expect_eq;
use std::alloc::{AllocError, Global};
use std::io::Write;
use std::process::Abort;
use std::test::Fail;

const LETTERS_OF_TABLES: &[(Table, &[u8])] = &[
    (Table::Transition, b"T"),
    (Table::Observation, b"O"),
    (Table::Reward, b"R"),
];

/// Whether the table is printed as this text.
fn is_printed(alloc: Global, table: Table, text: &[u8]) -> bool {
    let mut printed = Vec::new(alloc);
    write!(printed, "{table}").is_ok() && printed.as_slice() == text
}

#[test]
fn tables_print_their_letter(rt: HostRuntime) {
    for &(table, letter) in LETTERS_OF_TABLES {
        assert!(rt; is_printed(rt.alloc(), table, letter));
    }
}

/// Pushes and sets items, and fails the test unless they are kept. (It borrows the list: to drop it at each took 9 seconds of proof.)
fn expect_kept_items(rt: &impl Abort, places: &mut Sequence<Place>) -> Result<(), AllocError> {
    assert!(rt; places.len() == 0);
    places.push(Place::Only(3))?;
    expect_eq!(rt; places.as_slice(), [Place::Only(3)].as_slice());
    places.set(0, Place::Every);
    expect_eq!(rt; places.at(0), Place::Every);
    places.push(Place::Only(7))?;
    places.push(Place::Only(9))?;
    assert!(rt; places.len() == 3);
    expect_eq!(rt; places.at(2), Place::Only(9));
    places.set(0, Place::Only(1));
    expect_eq!(rt;
        places.as_slice(),
        [Place::Only(1), Place::Only(7), Place::Only(9)].as_slice()
    );
    Ok(())
}

#[test]
fn sequence_keeps_its_items(rt: HostRuntime) -> Result<(), Fail> {
    let mut places = Sequence::new(rt.alloc());
    expect_kept_items(&rt, &mut places)?;
    Ok(())
}

/// A list of these items.
fn sequence<T: Copy + Drop>(alloc: Global, items: &[T]) -> Result<Sequence<T>, AllocError> {
    let mut sequence = Sequence::new(alloc);
    for item in items {
        sequence.push(*item)?;
    }
    Ok(sequence)
}

/// A list of these places, of which the first four count.
fn places_of(items: &[Place]) -> Places {
    let mut places = Places::new();
    for place in items {
        if places.len() < 4 {
            places.push(*place);
        }
    }
    places
}

/// Adds an entry.
fn put(
    entries: &mut Entries,
    table: Table,
    places: &[Place],
    body: Body,
) -> Result<(), AllocError> {
    let places = places_of(places);
    let entry = Entry {
        table,
        places,
        body,
    };
    push_if_kept(entries, entry)
}

/// As many places as there are, two of them the last element that there can be.
const LAST: [Place; 4] = [
    Place::Only(9_999),
    Place::Every,
    Place::Only(0),
    Place::Only(9_999),
];

/// Adds one entry of each body, one more, and one of the last elements.
fn put_each_body(alloc: Global, entries: &mut Entries) -> Result<(), AllocError> {
    let one = [Place::Only(1)];
    let two = [Place::Every, Place::Only(2)];
    let four = [Place::Only(0), Place::Every, Place::Every, Place::Only(999)];
    put(entries, Table::Transition, &one, Body::Identity)?;
    let numbers = Body::Probabilities(sequence(alloc, &[1_000_000, 0])?);
    put(entries, Table::Observation, &two, numbers)?;
    let numbers = Body::Rewards(sequence(alloc, &[-5])?);
    put(entries, Table::Reward, &four, numbers)?;
    put(entries, Table::Transition, &one, Body::Uniform)?;
    let numbers = Body::Probabilities(sequence(alloc, &[7])?);
    put(entries, Table::Transition, &two, numbers)?;
    put(entries, Table::Transition, &LAST, Body::Uniform)
}

/// The numbers of a body of probabilities.
fn probabilities(body: BodyRef<'_>) -> Option<&[u32]> {
    match body {
        BodyRef::Probabilities(numbers) => Some(numbers),
        _ => None,
    }
}

/// The numbers of a body of rewards.
fn rewards(body: BodyRef<'_>) -> Option<&[i64]> {
    match body {
        BodyRef::Rewards(numbers) => Some(numbers),
        _ => None,
    }
}

/// Fails the test unless the entries are those of `put_each_body`. (It borrows them: to drop them at each assertion took 30 seconds of proof.)
fn expect_each_body(rt: &impl Abort, entries: &Entries) {
    assert!(rt; entries.len() == 6);
    let borrowed = entries.at(0);
    expect_eq!(rt; borrowed.table, Table::Transition);
    expect_eq!(rt; borrowed.places.as_slice(), [Place::Only(1)].as_slice());
    assert!(rt; matches!(borrowed.body, BodyRef::Identity));
    let borrowed = entries.at(1);
    expect_eq!(rt; borrowed.table, Table::Observation);
    expect_eq!(rt;
        borrowed.places.as_slice(),
        [Place::Every, Place::Only(2)].as_slice()
    );
    expect_eq!(rt;
        probabilities(borrowed.body),
        Some([1_000_000, 0].as_slice())
    );
    let borrowed = entries.at(2);
    expect_eq!(rt; borrowed.table, Table::Reward);
    expect_eq!(rt;
        borrowed.places.as_slice(),
        [Place::Only(0), Place::Every, Place::Every, Place::Only(999)].as_slice()
    );
    expect_eq!(rt; rewards(borrowed.body), Some([-5].as_slice()));
    assert!(rt; matches!(entries.at(3).body, BodyRef::Uniform));
    let borrowed = entries.at(4);
    expect_eq!(rt;
        borrowed.places.as_slice(),
        [Place::Every, Place::Only(2)].as_slice()
    );
    expect_eq!(rt; probabilities(borrowed.body), Some([7].as_slice()));
    let borrowed = entries.at(5);
    assert!(rt; borrowed.places.len() == 4);
    expect_eq!(rt; borrowed.places.as_slice(), LAST.as_slice());
}

#[test]
fn entries_are_borrowed_as_they_were_put(rt: HostRuntime) -> Result<(), Fail> {
    let mut entries = Entries::new(rt.alloc());
    put_each_body(rt.alloc(), &mut entries)?;
    expect_each_body(&rt, &entries);
    Ok(())
}

#[test]
fn borrowed_rows_are_walked(rt: HostRuntime) {
    let cells = [
        Cell {
            column: 1,
            weight: 30,
        },
        Cell {
            column: 4,
            weight: 70,
        },
    ];
    let both = [(1, 30), (4, 70)];
    assert!(rt; has_steps(Row::Sparse(&cells), both.as_slice()));
    assert!(rt; has_steps(Row::Filled(&[0, 30, 0, 0, 70, 0]), both.as_slice()));
    let scaled = Row::Scaled {
        numbers: &[0, 3, 0, 0, 7, 0],
        scale: 10,
    };
    assert!(rt; has_steps(scaled, both.as_slice()));
    assert!(rt; has_steps(Row::Single(cells[1]), [(4, 70)].as_slice()));
    let exceptions = [
        Cell {
            column: 0,
            weight: 0,
        },
        Cell {
            column: 2,
            weight: 9,
        },
    ];
    let even = Row::Even {
        weight: 5,
        columns: 4,
        exceptions: &exceptions,
    };
    assert!(rt; has_steps(even, [(1, 5), (2, 9), (3, 5)].as_slice()));
    assert!(rt; has_steps(Row::Sparse(&[]), [].as_slice()));
    assert!(rt; has_steps(Row::Filled(&[0, 0]), [].as_slice()));
}

/// Whether a walk over the row gives these weights with their columns, and then ends.
fn has_steps(row: Row<'_>, weights: &[(usize, u64)]) -> bool {
    let mut at = 0;
    for (column, weight) in weights {
        match row.step(at) {
            Some(step) => {
                if step.column != *column || step.weight != *weight {
                    return false;
                }
                at = step.next;
            }
            None => return false,
        }
    }
    row.step(at).is_none()
}

const LETTERS: &[u8] = b"abcdefghijklmnopqr";

/// Adds the name, if it is ASCII, and returns whether it was new.
fn add(names: &mut Names, alloc: Global, name: &[u8]) -> Result<bool, AllocError> {
    if name.is_ascii() {
        names.push(alloc, name)
    } else {
        Ok(false)
    }
}

/// Adds each pair of letters, and returns how many were new.
fn add_pairs(names: &mut Names, alloc: Global) -> Result<u64, AllocError> {
    let mut added: u64 = 0;
    for first in LETTERS {
        for second in LETTERS {
            if add(names, alloc, &[*first, *second])? {
                added = added.saturating_add(1);
            }
        }
    }
    Ok(added)
}

/// Whether the name has this number, and the number this name.
fn is_numbered(names: &Names, name: &[u8], number: usize) -> bool {
    name.is_ascii()
        && names.number_of(name) == Some(number)
        && matches!(names.at(number), Some(text) if text.as_bytes() == name)
}

/// The first pair of letters that has another number than its place in their order.
fn first_misnumbered(names: &Names) -> Option<usize> {
    let mut number: usize = 0;
    for first in LETTERS {
        for second in LETTERS {
            if !is_numbered(names, &[*first, *second], number) {
                return Some(number);
            }
            number = number.saturating_add(1);
        }
    }
    None
}

/// Adds all pairs twice: how many were new, the first that has another number, how many were new then, and how many names there are.
fn add_twice(alloc: Global) -> Result<(u64, Option<usize>, u64, usize), AllocError> {
    let mut names = Names::new(alloc);
    let first = add_pairs(&mut names, alloc)?;
    let wrong = first_misnumbered(&names);
    let second = add_pairs(&mut names, alloc)?;
    Ok((first, wrong, second, names.len()))
}

/// 324 names: the 301st moves those before it under another key.
#[test]
fn names_keep_their_numbers_under_another_key(rt: HostRuntime) {
    expect_eq!(rt; add_twice(rt.alloc()), Ok((324, None, 0, 324)));
}
