//! What the words of the command line of `polcert_bound` ask for.
use polcert_terminal::bound_command::{BoundChoice, BoundFiles, choose_bound};
use polcert_testing::expect_eq;
use std::alloc::Global;

/// What is chosen, if the words are not refused. (`tests/bound-cases` has the lines of those that are.)
fn chosen<'a>(alloc: Global, words: &'a [&'a str]) -> Option<Option<BoundChoice<'a>>> {
    match choose_bound(alloc, words) {
        Ok(choice) => Some(choice),
        Err(_) => None,
    }
}

const NAMES: BoundFiles<'static> = BoundFiles {
    model: "a",
    vectors: "b",
};

/// Words, and what is chosen.
const CHOICES: &[(&[&str], Option<BoundChoice<'static>>)] = &[
    (&[], None),
    (&["polcert_bound"], None),
    (&["polcert_bound", "check"], None),
    (&["polcert_bound", "check", "a"], None),
    (
        &["polcert_bound", "check", "a", "b"],
        Some(BoundChoice::Check(NAMES)),
    ),
    (
        &["polcert_bound", "check", "--", "a", "b"],
        Some(BoundChoice::Check(NAMES)),
    ),
    (
        &["polcert_bound", "check", "a", "b", "c"],
        Some(BoundChoice::CheckPoints {
            files: NAMES,
            points: "c",
        }),
    ),
    (
        &["polcert_bound", "check", "a", "--", "b", "-c"],
        Some(BoundChoice::CheckPoints {
            files: NAMES,
            points: "-c",
        }),
    ),
    (&["polcert_bound", "raise"], None),
    (&["polcert_bound", "raise", "a"], None),
    (
        &["polcert_bound", "raise", "a", "b"],
        Some(BoundChoice::Raise(NAMES)),
    ),
    (
        &["polcert_bound", "raise", "a", "b", "c"],
        Some(BoundChoice::RaisePoints {
            files: NAMES,
            points: "c",
        }),
    ),
];

#[test]
fn chooses(rt: HostRuntime) {
    for &(words, choice) in CHOICES {
        expect_eq!(rt; chosen(rt.alloc(), words), Some(choice));
    }
}
