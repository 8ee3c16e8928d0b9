//! Distances as they are typed, and the lines of verdicts. The values are computed by hand.
ghost use Rattle.std.specs.Prelude.{IfSome};
ghost use Rattle.polcert_robust_answer.specs.Distances.{IsDistance};

mod moves;

use polcert_answer::RunFault;
use polcert_check::NoProgress;
use polcert_robust_answer::{
    MOST_DISTANCE, Within, distance_of, percent_of, reward_distance_of, run_near_check,
    run_near_check_above,
};
use polcert_text::{SliceSink, SliceSource};
use std::alloc::Global;

/// Two states, each as likely as the other after every step, and the end state is observed. To end in state 0 earns 2.
const COIN: &[u8] = b"discount: 0.5
values: reward
states: 2
actions: toss
observations: 2
T: toss
0.5 0.5
0.5 0.5
O: toss
1 0
0 1
R: toss : * : 0 : * 2
";

/// The distance of a text, or `None` if it is no distance or memory runs out.
fn distance(alloc: Global, text: &[u8]) -> Option<u64>
    ensures { IfSome result (IsDistance text.now) }
{
    match distance_of(alloc, text) {
        Ok(found) => found,
        Err(_) => None,
    }
}

/// Distances of probabilities are decimals of at most 1, with at most 12 decimals.
#[test]
fn distances_of_probabilities(rt: HostRuntime) {
    for (text, want) in [
        (b"0".as_slice(), Some(0)),
        (b"1", Some(MOST_DISTANCE)),
        (b"0.0000015", Some(1_500_000)),
        (b".5", Some(500_000_000_000)),
        (b"0.000000000001", Some(1)),
        (b"0.0000000000010", Some(1)),
        (b"0.0000000000001", None),
        (b"1.000000000001", None),
        (b"1e-6", None),
        (b"", None),
        (b"near", None),
        (b"-0.1", None),
        (b"+0.1", None),
    ] {
        assert_eq!(rt; distance(rt.alloc(), text), want);
    }
}

/// Distances of rewards are numbers of at most 1,000,000, with at most six decimals.
#[test]
fn distances_of_rewards(rt: HostRuntime) {
    for (text, want) in [
        (b"0".as_slice(), Some(0)),
        (b"0.5", Some(500_000)),
        (b"1000000", Some(MOST_DISTANCE)),
        (b"1000000.000001", None),
        (b"0.000001", Some(1)),
        (b"0.0000001", None),
        (b"", None),
        (b"-1", None),
    ] {
        assert_eq!(rt; reward_distance_of(text), want);
    }
}

/// Percentages are numbers of at most 100, with at most six decimals.
#[test]
fn percentages(rt: HostRuntime) {
    for (text, want) in [
        (b"0".as_slice(), Some(0)),
        (b"5", Some(5_000_000)),
        (b"100", Some(100_000_000)),
        (b"100.000001", None),
        (b"0.000001", Some(1)),
        (b"0.0000001", None),
        (b"", None),
        (b"-1", None),
        (b"5%", None),
    ] {
        assert_eq!(rt; percent_of(text), want);
    }
}

/// The exit status of a verdict on these vectors for the coin within these distances, if the sink takes this line, and nothing else.
fn answer(
    alloc: Global,
    within: &Within<'_>,
    vectors: &[u8],
    is_above: bool,
    line: &[u8],
) -> Result<bool, RunFault> {
    let mut written = [0u8; 100];
    let mut sink = SliceSink::new(&mut written);
    let model = &mut SliceSource::new(COIN);
    let graph = &mut SliceSource::new(b"0 0 0 0");
    let vectors = &mut SliceSource::new(vectors);
    if is_above {
        run_near_check_above(
            alloc,
            within,
            model,
            graph,
            vectors,
            &mut sink,
            &mut NoProgress,
        )?;
    } else {
        run_near_check(
            alloc,
            within,
            model,
            graph,
            vectors,
            &mut sink,
            &mut NoProgress,
        )?;
    }
    Ok(sink.written() == line)
}

/// Whether the line within these distances is this one.
fn is_line(
    alloc: Global,
    texts: (&[u8], &[u8]),
    vectors: &[u8],
    is_above: bool,
    line: &[u8],
) -> Option<bool> {
    let within = Within {
        text: texts.0,
        is_percent: false,
        by: distance(alloc, texts.0)?,
        percent: 0,
        rewards_text: texts.1,
        rewards_by: reward_distance_of(texts.1)?,
    };
    answer(alloc, &within, vectors, is_above, line).ok()
}

/// State 0 is reached with 0.4 to 0.6: 0.4 * 2 + 0.5 * 1.6 is 1.6, and 0.6 * 2 + 0.5 * 2.4 is 2.4. Rewards within 0.1: 0.9 + 0.5 * 1.8.
#[test]
fn lines(rt: HostRuntime) {
    let alloc = rt.alloc();
    for (texts, vectors, is_above, line) in [
        (
            (b"0.1".as_slice(), b"0".as_slice()),
            b"0 1.6 1.6".as_slice(),
            false,
            b"yes: every model within 0.1, start node 0, at least 1.6\n".as_slice(),
        ),
        (
            (b"0.1", b"0"),
            b"0 1.600001 1.6",
            false,
            b"no: node 0, state 0, short by 0.000001\n",
        ),
        (
            (b"0", b"0.1"),
            b"0 1.8 1.8",
            false,
            b"yes: every model within 0, rewards within 0.1, start node 0, at least 1.8\n",
        ),
        (
            (b".10", b"0"),
            b"0 2.4 2.4",
            true,
            b"yes: every model within .10, every start node, at most 2.4\n",
        ),
        (
            (b"0.1", b"0"),
            b"0 2.4 2.399999",
            true,
            b"no: node 0, state 1, long by 0.000001\n",
        ),
    ] {
        assert_eq!(rt; is_line(alloc, texts, vectors, is_above, line), Some(true));
    }
}

/// The same for a distance of probabilities in percent.
fn is_line_in_percent(
    alloc: Global,
    text: &[u8],
    vectors: &[u8],
    is_above: bool,
    line: &[u8],
) -> Option<bool> {
    let within = Within {
        text,
        is_percent: true,
        by: 0,
        percent: percent_of(text)?,
        rewards_text: b"0",
        rewards_by: reward_distance_of(b"0")?,
    };
    answer(alloc, &within, vectors, is_above, line).ok()
}

/// A fifth of a half is a tenth.
#[test]
fn lines_in_percent(rt: HostRuntime) {
    let alloc = rt.alloc();
    for (vectors, is_above, line) in [
        (
            b"0 1.6 1.6".as_slice(),
            false,
            b"yes: every model within 20 %, start node 0, at least 1.6\n".as_slice(),
        ),
        (
            b"0 1.600001 1.6",
            false,
            b"no: node 0, state 0, short by 0.000001\n",
        ),
        (
            b"0 2.4 2.4",
            true,
            b"yes: every model within 20 %, every start node, at most 2.4\n",
        ),
    ] {
        assert_eq!(rt;
            is_line_in_percent(alloc, b"20", vectors, is_above, line),
            Some(true)
        );
    }
}

/// A start in state 0 has a probability of 0.4 to 0.6: 0.4 * 1.5 + 0.6 * 1.4 is 1.44, and 0.6 * 2.7 + 0.4 * 2.6 is 2.66.
#[test]
fn starts(rt: HostRuntime) {
    let alloc = rt.alloc();
    for (vectors, is_above, line) in [
        (
            b"0 1.5 1.4".as_slice(),
            false,
            b"yes: every model within 0.1, start node 0, at least 1.44\n".as_slice(),
        ),
        (
            b"0 2.7 2.6",
            true,
            b"yes: every model within 0.1, every start node, at most 2.66\n",
        ),
    ] {
        let texts = (b"0.1".as_slice(), b"0".as_slice());
        assert_eq!(rt; is_line(alloc, texts, vectors, is_above, line), Some(true));
    }
}
