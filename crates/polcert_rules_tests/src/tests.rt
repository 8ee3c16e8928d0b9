//! Rewards of entries that are given as values.
ghost use Rattle.std.specs.Prelude.{◌≡◌, ◌<◌, IfOk};
ghost use Rattle.polcert_rules.specs.Keys.{key_base, AreDigits, digit, most_places};

use crate::kept::push_if_kept;
use polcert_cells::{
    BaseRewards, Body, Entries, Entry, Place, Places, RewardCell, Sequence, Table,
};
use polcert_rules::{Index, RewardShape, Rewards};
use polcert_testing::expect_eq;
use std::alloc::{AllocError, Global};

const SHAPE: RewardShape = RewardShape {
    actions: 2,
    states: 2,
    observations: 2,
};

/// Any element, and elements 0 and 1.
const ANY: usize = 9;

const CELLS: usize = 16;

/// The place of an element, or `*`.
fn place(element: usize) -> Place
    ensures { digit result < key_base }
{
    if element < ANY {
        Place::Only(element as u16)
    } else {
        Place::Every
    }
}

/// The first four places of a pattern.
fn places(pattern: &[usize]) -> Places
    ensures { AreDigits most_places result }
{
    let mut places = Places::new();
    for element in pattern {
        if places.len() < 4 {
            places.push(place(*element));
        }
    }
    places
}

/// An entry of R with these places and numbers.
fn entry(alloc: Global, pattern: &[usize], written: &[i64]) -> Result<Entry, AllocError>
    ensures { IfOk result (λ entry. AreDigits most_places entry.places) }
{
    let places = places(pattern);
    let mut numbers = Sequence::new(alloc);
    for number in written {
        numbers.push(*number)?;
    }
    Ok(Entry {
        table: Table::Reward,
        places,
        body: Body::Rewards(numbers),
    })
}

/// A pattern and what is written.
type Line = (&'static [usize], &'static [i64]);

/// The rewards of these lines, later ones over earlier ones.
fn rewards(alloc: Global, costs: bool, lines: &[Line]) -> Result<Rewards, AllocError>
    ensures { IfOk result (λ rewards. rewards.shape ≡ SHAPE) }
{
    let mut entries = Entries::new(alloc);
    for (pattern, written) in lines {
        push_if_kept(&mut entries, entry(alloc, pattern, written)?)?;
    }
    let index = Index::of(alloc, &entries, Table::Reward)?;
    Rewards::of(alloc, SHAPE, costs, entries, index)
}

/// The rewards of all cells, each looked up alone.
fn cells(rewards: &Rewards) -> [i64; CELLS]
    requires shape { rewards.now.shape ≡ SHAPE }
{
    let mut all = [0; CELLS];
    for number in 0..CELLS {
        all[number] = rewards.at(number / 8, number / 4 % 2, number / 2 % 2, number % 2);
    }
    all
}

/// The same, filled in for each action, start state and end state: from the first observation on, and from the second.
fn filled(rewards: &Rewards) -> [i64; CELLS]
    requires shape { rewards.now.shape ≡ SHAPE }
{
    let mut all = [0; CELLS];
    for step in 0..CELLS / 2 {
        let [first, second] = filled_at(rewards, step / 4, step / 2 % 2, step % 2);
        all[step * 2] = first;
        all[step * 2 + 1] = second;
    }
    all
}

/// The rewards of both observations, if filling from the second on gives the same.
fn filled_at(rewards: &Rewards, action: usize, start: usize, end: usize) -> [i64; 2]
    requires shape { rewards.now.shape ≡ SHAPE }
    requires action { action < 2 }
    requires start { start < 2 }
    requires end { end < 2 }
{
    let mut seen = [99; 3];
    let mut following = [99; 1];
    rewards.fill(action, start, end, 0, &mut seen);
    rewards.fill(action, start, end, 1, &mut following);
    if seen[1] == following[0] {
        [seen[0], following[0]]
    } else {
        [seen[0], 99]
    }
}

/// The rewards of all cells by these lines, looked up and filled in.
fn cells_of(alloc: Global, costs: bool, lines: &[Line]) -> Option<[[i64; CELLS]; 2]> {
    match rewards(alloc, costs, lines) {
        Ok(rewards) => Some([cells(&rewards), filled(&rewards)]),
        Err(_) => None,
    }
}

const WIDE: Line = (&[ANY, 0, ANY, ANY], &[5]);

const NARROW: Line = (&[1, ANY, 1], &[8, 9]);

/// Whether costs are given, entries, and the rewards of all cells: by action, start state, end state and observation. First each of the 28
/// patterns alone, then costs, then lists in which some entries hide others.
const REWARDS: &[(bool, &[Line], [i64; CELLS])] = &[
    (
        false,
        &[(&[ANY, ANY], &[1, 2, 3, 4])],
        [1, 2, 3, 4, 1, 2, 3, 4, 1, 2, 3, 4, 1, 2, 3, 4],
    ),
    (
        false,
        &[(&[ANY, 0], &[1, 2, 3, 4])],
        [1, 2, 3, 4, 0, 0, 0, 0, 1, 2, 3, 4, 0, 0, 0, 0],
    ),
    (
        false,
        &[(&[1, ANY], &[1, 2, 3, 4])],
        [0, 0, 0, 0, 0, 0, 0, 0, 1, 2, 3, 4, 1, 2, 3, 4],
    ),
    (
        false,
        &[(&[1, 0], &[1, 2, 3, 4])],
        [0, 0, 0, 0, 0, 0, 0, 0, 1, 2, 3, 4, 0, 0, 0, 0],
    ),
    (
        false,
        &[(&[ANY, ANY, ANY], &[5, 6])],
        [5, 6, 5, 6, 5, 6, 5, 6, 5, 6, 5, 6, 5, 6, 5, 6],
    ),
    (
        false,
        &[(&[ANY, ANY, 1], &[5, 6])],
        [0, 0, 5, 6, 0, 0, 5, 6, 0, 0, 5, 6, 0, 0, 5, 6],
    ),
    (
        false,
        &[(&[ANY, 0, ANY], &[5, 6])],
        [5, 6, 5, 6, 0, 0, 0, 0, 5, 6, 5, 6, 0, 0, 0, 0],
    ),
    (
        false,
        &[(&[ANY, 0, 1], &[5, 6])],
        [0, 0, 5, 6, 0, 0, 0, 0, 0, 0, 5, 6, 0, 0, 0, 0],
    ),
    (
        false,
        &[(&[1, ANY, ANY], &[5, 6])],
        [0, 0, 0, 0, 0, 0, 0, 0, 5, 6, 5, 6, 5, 6, 5, 6],
    ),
    (
        false,
        &[(&[1, ANY, 1], &[5, 6])],
        [0, 0, 0, 0, 0, 0, 0, 0, 0, 0, 5, 6, 0, 0, 5, 6],
    ),
    (
        false,
        &[(&[1, 0, ANY], &[5, 6])],
        [0, 0, 0, 0, 0, 0, 0, 0, 5, 6, 5, 6, 0, 0, 0, 0],
    ),
    (
        false,
        &[(&[1, 0, 1], &[5, 6])],
        [0, 0, 0, 0, 0, 0, 0, 0, 0, 0, 5, 6, 0, 0, 0, 0],
    ),
    (
        false,
        &[(&[ANY, ANY, ANY, ANY], &[7])],
        [7, 7, 7, 7, 7, 7, 7, 7, 7, 7, 7, 7, 7, 7, 7, 7],
    ),
    (
        false,
        &[(&[ANY, ANY, ANY, 0], &[7])],
        [7, 0, 7, 0, 7, 0, 7, 0, 7, 0, 7, 0, 7, 0, 7, 0],
    ),
    (
        false,
        &[(&[ANY, ANY, 1, ANY], &[7])],
        [0, 0, 7, 7, 0, 0, 7, 7, 0, 0, 7, 7, 0, 0, 7, 7],
    ),
    (
        false,
        &[(&[ANY, ANY, 1, 0], &[7])],
        [0, 0, 7, 0, 0, 0, 7, 0, 0, 0, 7, 0, 0, 0, 7, 0],
    ),
    (
        false,
        &[(&[ANY, 0, ANY, ANY], &[7])],
        [7, 7, 7, 7, 0, 0, 0, 0, 7, 7, 7, 7, 0, 0, 0, 0],
    ),
    (
        false,
        &[(&[ANY, 0, ANY, 0], &[7])],
        [7, 0, 7, 0, 0, 0, 0, 0, 7, 0, 7, 0, 0, 0, 0, 0],
    ),
    (
        false,
        &[(&[ANY, 0, 1, ANY], &[7])],
        [0, 0, 7, 7, 0, 0, 0, 0, 0, 0, 7, 7, 0, 0, 0, 0],
    ),
    (
        false,
        &[(&[ANY, 0, 1, 0], &[7])],
        [0, 0, 7, 0, 0, 0, 0, 0, 0, 0, 7, 0, 0, 0, 0, 0],
    ),
    (
        false,
        &[(&[1, ANY, ANY, ANY], &[7])],
        [0, 0, 0, 0, 0, 0, 0, 0, 7, 7, 7, 7, 7, 7, 7, 7],
    ),
    (
        false,
        &[(&[1, ANY, ANY, 0], &[7])],
        [0, 0, 0, 0, 0, 0, 0, 0, 7, 0, 7, 0, 7, 0, 7, 0],
    ),
    (
        false,
        &[(&[1, ANY, 1, ANY], &[7])],
        [0, 0, 0, 0, 0, 0, 0, 0, 0, 0, 7, 7, 0, 0, 7, 7],
    ),
    (
        false,
        &[(&[1, ANY, 1, 0], &[7])],
        [0, 0, 0, 0, 0, 0, 0, 0, 0, 0, 7, 0, 0, 0, 7, 0],
    ),
    (
        false,
        &[(&[1, 0, ANY, ANY], &[7])],
        [0, 0, 0, 0, 0, 0, 0, 0, 7, 7, 7, 7, 0, 0, 0, 0],
    ),
    (
        false,
        &[(&[1, 0, ANY, 0], &[7])],
        [0, 0, 0, 0, 0, 0, 0, 0, 7, 0, 7, 0, 0, 0, 0, 0],
    ),
    (
        false,
        &[(&[1, 0, 1, ANY], &[7])],
        [0, 0, 0, 0, 0, 0, 0, 0, 0, 0, 7, 7, 0, 0, 0, 0],
    ),
    (
        false,
        &[(&[1, 0, 1, 0], &[7])],
        [0, 0, 0, 0, 0, 0, 0, 0, 0, 0, 7, 0, 0, 0, 0, 0],
    ),
    (
        true,
        &[(&[ANY, ANY], &[1, -2, 3, 4])],
        [-1, 2, -3, -4, -1, 2, -3, -4, -1, 2, -3, -4, -1, 2, -3, -4],
    ),
    (
        false,
        &[WIDE, NARROW, (&[ANY, ANY, ANY, ANY], &[2]), NARROW],
        [2, 2, 2, 2, 2, 2, 2, 2, 2, 2, 8, 9, 2, 2, 8, 9],
    ),
    (
        false,
        &[WIDE, NARROW],
        [5, 5, 5, 5, 0, 0, 0, 0, 5, 5, 8, 9, 0, 0, 8, 9],
    ),
    (
        false,
        &[NARROW, WIDE],
        [5, 5, 5, 5, 0, 0, 0, 0, 5, 5, 5, 5, 0, 0, 8, 9],
    ),
    (
        false,
        &[(&[ANY, 0, 1, 1], &[7]), WIDE, (&[0, ANY, 0, 1], &[3])],
        [5, 3, 5, 5, 0, 3, 0, 0, 5, 5, 5, 5, 0, 0, 0, 0],
    ),
];

#[test]
fn rewards_of_all_cells(rt: HostRuntime) {
    for &(costs, lines, wanted) in REWARDS {
        expect_eq!(rt; cells_of(rt.alloc(), costs, lines), Some([wanted; 2]), lines);
    }
}

/// The common reward of a row, how many differ, and the first two that do.
type FoundRow = (i64, usize, (usize, i64), (usize, i64));

/// What is known at once of an action, a start state, and an end state or another start state.
#[derive(Clone, Copy, Debug, PartialEq, Eq)]
enum Fact {
    /// The reward of all observations, if it is the same.
    Constant(Option<i64>),
    /// The rewards of the first two observations, if they are found in a list without an exception.
    Listed(Option<(Option<i64>, Option<i64>)>),
    /// Whether there are rewards.
    Paid(bool),
    /// Whether the rewards are known to be the same in the other start state.
    Same(bool),
    /// The end state, 2 at most, up to which rewards are known to be the same.
    Until(usize),
    /// The rewards of all end states.
    Row(Option<FoundRow>),
}

fn constant_at(rewards: &Rewards, action: usize, start: usize, end: usize) -> Option<i64>
    requires shape { rewards.now.shape ≡ SHAPE }
    requires action { action < 2 }
    requires start { start < 2 }
    requires end { end < 2 }
{
    match rewards.find(action, start, end, &mut []) {
        Some(row) => row.constant(),
        None => None,
    }
}

fn listed_at(
    rewards: &Rewards,
    action: usize,
    start: usize,
    end: usize,
) -> Option<(Option<i64>, Option<i64>)>
    requires shape { rewards.now.shape ≡ SHAPE }
    requires action { action < 2 }
    requires start { start < 2 }
    requires end { end < 2 }
{
    let row = rewards.find(action, start, end, &mut [])?;
    match row.base {
        BaseRewards::Listed(list) => Some((list.get(0).copied(), list.get(1).copied())),
        BaseRewards::Common(_) => None,
    }
}

fn row_at(rewards: &Rewards, action: usize, start: usize) -> Option<FoundRow>
    requires shape { rewards.now.shape ≡ SHAPE }
    requires action { action < 2 }
    requires start { start < 2 }
{
    let mut cells = [RewardCell {
        observation: 0,
        reward: 99,
    }; 2];
    match rewards.find_row(action, start, &mut cells) {
        None => None,
        Some(common) => {
            let [first, second] = cells;
            Some((
                common.reward,
                common.exceptions,
                (first.observation, first.reward),
                (second.observation, second.reward),
            ))
        }
    }
}

/// The fact of this kind.
fn known_fact(rewards: &Rewards, action: usize, start: usize, end: usize, kind: Fact) -> Fact
    requires shape { rewards.now.shape ≡ SHAPE }
    requires action { action < 2 }
    requires start { start < 2 }
    requires end { end < 2 }
{
    match kind {
        Fact::Constant(_) => Fact::Constant(constant_at(rewards, action, start, end)),
        Fact::Listed(_) => Fact::Listed(listed_at(rewards, action, start, end)),
        Fact::Paid(_) => Fact::Paid(rewards.has_rewards(action, start)),
        Fact::Same(_) => Fact::Same(rewards.has_same(action, start, end)),
        Fact::Until(_) => Fact::Until(rewards.same_until(action, start, end).min(2)),
        Fact::Row(_) => Fact::Row(row_at(rewards, action, start)),
    }
}

/// The same by these lines.
fn fact_of(alloc: Global, lines: &[Line], at: [usize; 3], kind: Fact) -> Option<Fact> {
    let [action, start, end] = at;
    if action > 1 || start > 1 || end > 1 {
        return None;
    }
    match rewards(alloc, false, lines) {
        Ok(rewards) => Some(known_fact(&rewards, action, start, end, kind)),
        Err(_) => None,
    }
}

const LAST: Line = (&[0, 1, 0, 1], &[7]);

const SHARED: Line = (&[ANY, ANY, 1], &[1, 2]);

const NAMED: Line = (&[0, 1, ANY, 1], &[3]);

const OF_ONE_ACTION: Line = (&[0], &[1, 2, 3, 4, 5, 6, 7, 8]);

const OF_ONE_START: Line = (&[ANY, 0], &[3, 4, 5, 6]);

const COMMON: Line = (&[ANY, ANY, ANY, ANY], &[5]);

const ONE: Line = (&[1, 0, 1, 0], &[7]);

const OTHER: Line = (&[1, 0, 0, 1], &[8]);

/// Lines, an action, a start state, and an end state or another start state (or 0, where none is asked for), and what is known there.
const FACTS: &[(&[Line], [usize; 3], Fact)] = &[
    (
        &[NARROW, WIDE, (&[1, 1], &[3, 4, 5, 6]), LAST],
        [1, 0, 1],
        Fact::Constant(Some(5)),
    ),
    (
        &[NARROW, WIDE, (&[1, 1], &[3, 4, 5, 6]), LAST],
        [1, 1, 0],
        Fact::Constant(None),
    ),
    (
        &[NARROW, WIDE, (&[1, 1], &[3, 4, 5, 6]), LAST],
        [0, 1, 0],
        Fact::Constant(None),
    ),
    (
        &[NARROW, WIDE, (&[1, 1], &[3, 4, 5, 6]), LAST],
        [0, 1, 1],
        Fact::Constant(Some(0)),
    ),
    (
        &[NARROW, WIDE, (&[1, 1], &[3, 4, 5, 6]), LAST],
        [1, 1, 0],
        Fact::Listed(Some((Some(3), Some(4)))),
    ),
    (
        &[NARROW, WIDE, (&[1, 1], &[3, 4, 5, 6]), LAST],
        [1, 1, 1],
        Fact::Listed(Some((Some(5), Some(6)))),
    ),
    (
        &[NARROW, WIDE, (&[1, 1], &[3, 4, 5, 6]), LAST],
        [1, 0, 1],
        Fact::Listed(None),
    ),
    (
        &[NARROW, WIDE, (&[1, 1], &[3, 4, 5, 6]), LAST],
        [0, 1, 0],
        Fact::Listed(None),
    ),
    (&[], [0, 0, 1], Fact::Same(true)),
    (&[SHARED], [0, 0, 1], Fact::Same(true)),
    (&[SHARED, NAMED], [0, 0, 1], Fact::Same(false)),
    (&[SHARED, NAMED], [0, 1, 0], Fact::Same(false)),
    (&[SHARED, NAMED], [0, 0, 0], Fact::Same(true)),
    (&[SHARED, NAMED], [1, 0, 1], Fact::Same(true)),
    (&[SHARED, OF_ONE_START], [1, 0, 1], Fact::Same(false)),
    (&[OF_ONE_ACTION], [0, 0, 1], Fact::Same(false)),
    (&[OF_ONE_ACTION], [1, 0, 1], Fact::Same(true)),
    (
        &[(&[ANY], &[1, 2, 3, 4, 5, 6, 7, 8])],
        [1, 0, 1],
        Fact::Same(false),
    ),
    (&[], [0, 0, 0], Fact::Until(2)),
    (&[WIDE], [1, 0, 0], Fact::Until(2)),
    (&[SHARED], [1, 0, 0], Fact::Until(1)),
    (&[SHARED], [1, 0, 1], Fact::Until(2)),
    (&[NAMED], [0, 1, 0], Fact::Until(2)),
    (&[(&[0, 1, 0, 1], &[3])], [0, 1, 0], Fact::Until(1)),
    (&[(&[0, 1, 0, 1], &[3])], [0, 1, 1], Fact::Until(2)),
    (&[(&[0, 1, 1, 1], &[3])], [0, 1, 0], Fact::Until(1)),
    (&[(&[0, 1, 1, 1], &[3])], [0, 0, 0], Fact::Until(2)),
    (&[(&[0, 1, 1, 1], &[3])], [1, 1, 0], Fact::Until(2)),
    (&[OF_ONE_ACTION], [0, 1, 0], Fact::Until(0)),
    (&[OF_ONE_ACTION], [0, 1, 1], Fact::Until(1)),
    (&[OF_ONE_ACTION], [1, 1, 0], Fact::Until(2)),
    (&[OF_ONE_START], [1, 0, 0], Fact::Until(0)),
    (&[OF_ONE_START], [1, 1, 0], Fact::Until(2)),
    (
        &[COMMON, ONE, OTHER],
        [1, 0, 0],
        Fact::Row(Some((5, 2, (1, 8), (2, 7)))),
    ),
    (
        &[ONE, COMMON],
        [1, 0, 0],
        Fact::Row(Some((5, 1, (2, 5), (0, 99)))),
    ),
    (
        &[COMMON, ONE, OTHER],
        [1, 1, 0],
        Fact::Row(Some((5, 0, (0, 99), (0, 99)))),
    ),
    // (There is no room for three.)
    (
        &[ONE, OTHER, (&[1, 0, 0, 0], &[9])],
        [1, 0, 0],
        Fact::Row(None),
    ),
    // (One names all observations of an end state.)
    (&[ONE, (&[1, 0, 0, ANY], &[9])], [1, 0, 0], Fact::Row(None)),
    (
        &[(&[1, ANY, 1, 0], &[1]), (&[0, 1, ANY], &[1, 2])],
        [0, 0, 0],
        Fact::Paid(false),
    ),
    (
        &[(&[1, ANY, 1, 0], &[1]), (&[0, 1, ANY], &[1, 2])],
        [0, 1, 0],
        Fact::Paid(true),
    ),
    (
        &[(&[1, ANY, 1, 0], &[1]), (&[0, 1, ANY], &[1, 2])],
        [1, 0, 0],
        Fact::Paid(true),
    ),
    (&[], [1, 1, 0], Fact::Paid(false)),
];

#[test]
fn facts_at_once(rt: HostRuntime) {
    for &(lines, at, wanted) in FACTS {
        expect_eq!(rt; fact_of(rt.alloc(), lines, at, wanted), Some(wanted), at);
    }
}
