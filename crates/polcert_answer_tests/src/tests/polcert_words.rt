//! What the words of the command line of `polcert` ask for.
use polcert_terminal::command_line::FileNames;
use polcert_terminal::polcert_command::{Choice, choose};
use polcert_testing::expect_eq;
use std::alloc::Global;

/// What is chosen, if the words are not refused. (`tests/cases` has the lines of those that are.)
fn chosen<'a>(alloc: Global, words: &'a [&'a str]) -> Option<Option<Choice<'a>>> {
    match choose(alloc, words) {
        Ok(choice) => Some(choice),
        Err(_) => None,
    }
}

const NAMES: FileNames<'static> = FileNames {
    model: "a",
    graph: "b",
    vectors: "c",
};

/// Words, and what is chosen.
const CHOICES: &[(&[&str], Option<Choice<'static>>)] = &[
    (&[], Some(Choice::Model(None))),
    (&["polcert"], Some(Choice::Model(None))),
    (&["polcert", "model", "F"], Some(Choice::Model(Some("F")))),
    (&["polcert", "model", "-"], Some(Choice::Model(Some("-")))),
    (&["polcert", "print", "F"], Some(Choice::Print("F"))),
    (&["polcert", "print", "--", "-F"], Some(Choice::Print("-F"))),
    (
        &["polcert", "check", "a", "b", "c"],
        Some(Choice::Check(NAMES)),
    ),
    (
        &["polcert", "check", "--at-most", "a", "b", "c"],
        Some(Choice::CheckAbove(NAMES)),
    ),
    (
        &["polcert", "check", "a", "b", "c", "--at-most"],
        Some(Choice::CheckAbove(NAMES)),
    ),
    (
        &["polcert", "check", "a", "--at-most", "b", "c"],
        Some(Choice::CheckAbove(NAMES)),
    ),
    (
        &["polcert", "lower", "a", "b", "c"],
        Some(Choice::Lower(NAMES)),
    ),
    (
        &["polcert", "raise", "a", "b", "c"],
        Some(Choice::Raise(NAMES)),
    ),
    (&["polcert", "model"], None),
    (&["polcert", "print"], None),
    (&["polcert", "check"], None),
    (&["polcert", "check", "a"], None),
    (&["polcert", "check", "a", "b"], None),
    (&["polcert", "check", "--at-most"], None),
    (&["polcert", "check", "--at-most", "a", "b"], None),
    (&["polcert", "lower"], None),
    (&["polcert", "lower", "a", "b"], None),
    (&["polcert", "raise"], None),
    (&["polcert", "raise", "a", "b"], None),
];

#[test]
fn chooses(rt: HostRuntime) {
    for &(words, choice) in CHOICES {
        expect_eq!(rt; chosen(rt.alloc(), words), Some(choice));
    }
}
