//! What is shown of the progress of a check and of a reading, by a clock of its own.
use super::fake_terminal::FakeTerminal;
use polcert_check::Progress;
use polcert_terminal::{CheckProgress, InputText, WatchedSource};
use polcert_testing::expect_eq;
use polcert_text::{ReaderSource, Source};
use std::alloc::Global;
use std::string::String;

/// Lines that are written one over the other, each after a blank one.
macro_rules! lines {
    ($($line:literal),*) => {
        concat!($("\r                                            \r", $line),*)
    };
}

/// What is said of a check of nine nodes over five states which ends after this many nodes, the first of which takes long.
fn said(alloc: Global, is_terminal: bool, states: usize, nodes: usize) -> String {
    let terminal = FakeTerminal::new(alloc);
    let mut progress = CheckProgress::new(&terminal, is_terminal);
    progress.begin(9);
    for s in 0..states {
        progress.states_done(s.saturating_add(1), 5);
    }
    for _ in 0..nodes {
        progress.node_done();
    }
    progress.end();
    terminal.take_written()
}

/// Whether standard error is a terminal, how many states of the first node are done and how many nodes, and what is said: nothing of a
/// short check, or to no terminal.
const CHECKS: &[(bool, usize, usize, &str)] = &[
    (
        true,
        0,
        7,
        lines!("5 of 9 nodes", "6 of 9 nodes", "7 of 9 nodes", ""),
    ),
    (
        true,
        5,
        1,
        lines!("0 of 9 nodes, 5 of 5 states", "1 of 9 nodes", ""),
    ),
    (true, 2, 2, ""),
    (false, 5, 9, ""),
];

#[test]
fn says_how_far_a_long_check_is(rt: HostRuntime) {
    for &(is_terminal, states, nodes, wanted) in CHECKS {
        let line = said(rt.alloc(), is_terminal, states, nodes);
        expect_eq!(rt; line.as_str(), wanted);
    }
}

/// Returns what is written during this many reads of a graph of 70 bytes, 10 or fewer at a time.
fn written(alloc: Global, is_terminal: bool, most: usize, reads: usize) -> String {
    let terminal = FakeTerminal::new(alloc);
    let text = [b' '; 70];
    let reader = ReaderSource::new(text.as_slice());
    let mut source = WatchedSource::new(reader, InputText::Graph, &terminal, is_terminal);
    for _ in 0..reads {
        let mut piece = [0; 10];
        let most = piece.len().min(most);
        let _ = source.read(&mut piece[..most]);
    }
    terminal.take_written()
}

/// Whether standard error is a terminal, the most bytes of a read, how many reads there are, and what is shown: nothing of a short reading,
/// or to a file; and nothing is left of a text that was read to its end.
const READINGS: &[(bool, usize, usize, &str)] = &[
    (
        true,
        10,
        6,
        lines!("graph: 50 bytes read", "graph: 60 bytes read"),
    ),
    (
        true,
        10,
        8,
        lines!(
            "graph: 50 bytes read",
            "graph: 60 bytes read",
            "graph: 70 bytes read",
            ""
        ),
    ),
    (
        true,
        1,
        7,
        lines!(
            "graph: 5 bytes read",
            "graph: 6 bytes read",
            "graph: 7 bytes read"
        ),
    ),
    (true, 10, 4, ""),
    (false, 10, 8, ""),
];

#[test]
fn shows_how_far_a_long_reading_is(rt: HostRuntime) {
    for &(is_terminal, most, reads, wanted) in READINGS {
        let line = written(rt.alloc(), is_terminal, most, reads);
        expect_eq!(rt; line.as_str(), wanted);
    }
}

#[test]
fn blanks_the_line_of_a_text_that_is_refused(rt: HostRuntime) {
    let terminal = FakeTerminal::new(rt.alloc());
    let text = [b' '; 70];
    let reader = ReaderSource::new(text.as_slice());
    let mut source = WatchedSource::new(reader, InputText::Vectors, &terminal, true);
    for _ in 0..5 {
        let _ = source.read(&mut [0; 10]);
    }
    let shown = terminal.take_written();
    expect_eq!(rt; shown.as_str(), lines!("vectors: 50 bytes read"));
    source.clear_progress();
    let blank = terminal.take_written();
    expect_eq!(rt; blank.as_str(), lines!(""));
    source.clear_progress();
    let again = terminal.take_written();
    expect_eq!(rt; again.as_str(), "");
}
