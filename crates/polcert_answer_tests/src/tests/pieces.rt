//! Sources that give their bytes in pieces of any size, and texts that are cut at every length.
use super::runs::{Answer, Devices, Run, SOUND, Text, Texts, over_devices, over_slices};
use super::texts::{COIN, EVEN, GAIN, SEEN, TIGER_LOW};
use super::trials::{HIGH, LOW};
use super::{LINE, item};
use polcert_answer::{RunFault, check_texts};
use polcert_check::Verdict;
use polcert_model::ItemFault;
use polcert_testing::{COST, FIRST, MDP, TIGER, TIGER_FORM, expect_eq};
use polcert_text::TokenFault;
use std::alloc::Global;

/// A graph of five nodes for TIGER, and its vectors as a solver rounds them.
const GRAPH: &[u8] = b"0 0 1 2\n1 0 3 0\n2 0 0 4\n3 2 0 0\n4 1 0 0\n";

const VECTORS: &[u8] =
    b"0\n19.371368 19.371368\n\n0\n24.695681 3.014779\n\n0\n3.014779 24.695681\n\n2\n28.402800 -81.597200\n\n1\n-81.597200 28.402800\n\n";

/// The vectors less 8 millionths, by which they are short.
const LOWERED: &[u8] =
    b"0\n19.37136 19.37136\n\n0\n24.695673 3.014771\n\n0\n3.014771 24.695673\n\n2\n28.402792 -81.597208\n\n1\n-81.597208 28.402792\n\n";

/// TIGER_LOW, raised by 0.000925 / (1 - 0.95).
const RAISED: &[u8] = b"0\n87.1885 87.1885\n\n1\n-17.17 92.83\n\n2\n92.83 -17.17\n\n";

/// Runs over texts that are longer than those of other rows, and what they write.
const LONG: [(Run, Texts<'static>, Answer, &[u8]); 4] = [
    (Run::Print, (TIGER, b"", b""), Answer::Done, TIGER_FORM),
    (Run::Lower, (TIGER, GRAPH, VECTORS), Answer::By(8), LOWERED),
    (
        Run::Check,
        (TIGER, b"0 0 0 0", b"0 -20 -20"),
        Answer::Verdict(Verdict::Yes),
        b"yes: start node 0, at least -20\n",
    ),
    (
        Run::BoundRaise,
        (TIGER, TIGER_LOW, b""),
        Answer::By(18_500),
        RAISED,
    ),
];

/// Whether the run answers and writes this in pieces of this size, and no device fails.
fn gives_in_pieces(
    alloc: Global,
    most: usize,
    run: Run,
    texts: Texts<'_>,
    wanted: (Result<Answer, RunFault>, &[u8]),
) -> bool {
    let outcome = over_devices(alloc, run, texts, Devices { most, ..SOUND });
    outcome.failures == 0 && outcome.has_given(wanted.0, wanted.1)
}

/// The first of the runs that answers or writes something else in pieces of this size.
fn first_wrong_run(
    alloc: Global,
    most: usize,
    runs: &[(Run, Texts<'static>, Answer, &[u8])],
) -> Option<usize> {
    for row in 0..runs.len() {
        let (run, texts, answer, written) = runs[row];
        if !gives_in_pieces(alloc, most, run, texts, (Ok(answer), written)) {
            return Some(row);
        }
    }
    None
}

/// How often FIRST is read in pieces of this size, if its line is written and no device fails.
fn reads_of_the_first(alloc: Global, most: usize) -> Option<u64> {
    let devices = Devices { most, ..SOUND };
    let outcome = over_devices(alloc, Run::Model, (FIRST, b"", b""), devices);
    if outcome.failures == 0 && outcome.has_given(Ok(Answer::Done), LINE) {
        Some(outcome.reads.0)
    } else {
        None
    }
}

/// FIRST has 125 bytes. Each is read once, and after the last a read finds the end.
#[test]
fn the_same_in_any_pieces(rt: HostRuntime) {
    for most in [1usize, 2, 3, 399, 400, 401, 4095, 4096, 4097] {
        expect_eq!(rt;
            first_wrong_run(rt.alloc(), most, &LONG),
            None,
            most);
    }
    for (most, reads) in [(1usize, 126u64), (2, 64), (3, 43), (7, 19)] {
        expect_eq!(rt;
            reads_of_the_first(rt.alloc(), most),
            Some(reads),
            most);
    }
}

/// What summing up a model answers, whose source gives a byte at a time and fails after the text.
fn failed_after(alloc: Global, text: &[u8]) -> Result<Answer, RunFault> {
    let devices = Text::First.failing(text.len() as u64);
    over_devices(alloc, Run::Model, (text, b"", b""), devices).answer
}

/// A model whose last number could continue.
const TEN: &[u8] =
    b"discount: 0.5 values: reward states: 1 actions: 1 observations: 1 T: 0 identity O: 0 uniform R: 0 : 0 : 0 : 0 -10";

/// A text is refused for what stands in it, also where its source fails after it; a text that could continue isn't, nor one that would be
/// refused at its end. `tiger` is the front of a model that ends in a reward of -100, cut off after `-10`.
#[test]
fn refused_before_the_source_fails(rt: HostRuntime) {
    let glued = item(ItemFault::Token(TokenFault::Glued(10)), 1, 10);
    let (tiger, _) = TIGER.split_at(TIGER.len() - 2);
    let rows: [(&[u8], RunFault); 6] = [
        (b"discount: 2ab", glued),
        (b"discount: 2a", glued),
        (b"discount: 2", RunFault::ReadModel),
        (&FIRST[..123], RunFault::ReadModel),
        (tiger, RunFault::ReadModel),
        (TEN, RunFault::ReadModel),
    ];
    for (text, fault) in rows {
        expect_eq!(rt; failed_after(rt.alloc(), text), Err(fault));
    }
}

/// Runs, and the text of theirs that is cut at every length.
const CUT: [(Run, Texts<'static>, Text); 13] = [
    (Run::Model, (TIGER, b"", b""), Text::First),
    (Run::Model, (MDP, b"", b""), Text::First),
    (Run::Print, (MDP, b"", b""), Text::First),
    (Run::Print, (COST, b"", b""), Text::First),
    (Run::Check, HIGH, Text::First),
    (Run::Check, HIGH, Text::Second),
    (Run::Check, HIGH, Text::Third),
    (Run::Raise, LOW, Text::Second),
    (Run::Raise, LOW, Text::Third),
    (Run::BoundCheck, (GAIN, b"0 5", b""), Text::Second),
    (
        Run::BoundRaise,
        (MDP, b"0 1.333333 0.666666", b""),
        Text::Second,
    ),
    (Run::PointCheck, (COIN, SEEN, EVEN), Text::Third),
    (Run::PointRaise, (COIN, SEEN, EVEN), Text::Third),
];

/// The first size of pieces in which the texts are answered otherwise than as slices.
fn first_wrong_pieces(alloc: Global, run: Run, texts: Texts<'_>) -> Option<usize> {
    let usual = over_slices(alloc, run, texts);
    for most in [1usize, 3, 4_096] {
        let wanted = (usual.answer, usual.written.as_slice());
        if !gives_in_pieces(alloc, most, run, texts, wanted) {
            return Some(most);
        }
    }
    None
}

/// The first row whose text is answered otherwise than as a slice if it is cut to some length, the length, and the size of the pieces.
fn first_wrong_cut(
    alloc: Global,
    rows: &[(Run, Texts<'static>, Text)],
) -> Option<(usize, usize, usize)> {
    for row in 0..rows.len() {
        let (run, texts, text) = rows[row];
        for len in 0..=text.of(texts).len() {
            if let Some(most) = first_wrong_pieces(alloc, run, text.cut(texts, len)) {
                return Some((row, len, most));
            }
        }
    }
    None
}

/// Whether the answer to slices is that of the run over them.
fn is_that_of_the_run(alloc: Global, texts: Texts<'_>) -> bool {
    let answer = match check_texts(alloc, texts.0, texts.1, texts.2) {
        Ok(verdict) => Ok(Answer::Verdict(verdict)),
        Err(fault) => Err(RunFault::Text(fault)),
    };
    over_slices(alloc, Run::Check, texts).answer == answer
}

/// What a run answers to a text that is cut is what it answers to its slice, whatever the pieces in which it comes; and so is the answer
/// to three texts in memory.
#[test]
fn cut_anywhere(rt: HostRuntime) {
    expect_eq!(rt; first_wrong_cut(rt.alloc(), &CUT), None);
    for &text in Run::Check.texts() {
        for len in 0..=text.of(HIGH).len() {
            let is_right = is_that_of_the_run(rt.alloc(), text.cut(HIGH, len));
            assert!(rt; is_right, "{text:?} to {len}");
        }
    }
}
