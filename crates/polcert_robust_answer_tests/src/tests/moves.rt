//! Vectors that are lowered and raised within distances, over devices that fail at each of their calls. The values are computed by hand.
use super::{COIN, distance};
use polcert_answer::{Outcome, RunFault, Task};
use polcert_check::{LowerFault, NoProgress, RaiseFault};
use polcert_robust_answer::{Within, reward_distance_of, run_near_task};
use polcert_testing::{Failing, Giver, Taker};
use polcert_text::{ReaderSource, WriterSink};
use std::alloc::Global;

/// Where devices of one byte at a time fail: a source at the read of this number, and the sink.
#[derive(Clone, Copy)]
struct Devices {
    model: Option<u64>,
    graph: Option<u64>,
    vectors: Option<u64>,
    sink: Failing,
}

const SOUND: Devices = Devices {
    model: None,
    graph: None,
    vectors: None,
    sink: Failing::Never,
};

/// A task, its distances, the texts of a graph for the coin and of vectors.
#[derive(Clone, Copy)]
struct Run<'a> {
    task: Task,
    within: &'a [u8],
    rewards_within: &'a [u8],
    graph: &'a [u8],
    vectors: &'a [u8],
}

/// Whether the run answers and writes this over these devices.
fn gives(
    alloc: Global,
    run: Run<'_>,
    devices: Devices,
    answer: Result<Outcome, RunFault>,
    written: &[u8],
) -> Option<bool> {
    let within = Within {
        text: run.within,
        is_percent: false,
        by: distance(alloc, run.within)?,
        percent: 0,
        rewards_text: run.rewards_within,
        rewards_by: reward_distance_of(run.rewards_within)?,
    };
    let mut model = ReaderSource::new(Giver::new(COIN, 1, devices.model));
    let mut graph = ReaderSource::new(Giver::new(run.graph, 1, devices.graph));
    let mut vectors = ReaderSource::new(Giver::new(run.vectors, 1, devices.vectors));
    let mut sink = WriterSink::new(Taker::new(alloc, devices.sink));
    let found = run_near_task(
        alloc,
        run.task,
        &within,
        &mut model,
        &mut graph,
        &mut vectors,
        &mut sink,
        &mut NoProgress,
    );
    Some(found == answer && sink.writer.taken.as_slice() == written)
}

/// Lowers the value of the coin within a tenth.
const LOWER: Run<'static> = Run {
    task: Task::Lower,
    within: b"0.1",
    rewards_within: b"0",
    graph: b"0 0 0 0",
    vectors: b"0 2 2",
};

const RAISE: Run<'static> = Run {
    task: Task::Raise,
    ..LOWER
};

/// The second observation has no successor.
const OPEN: &[u8] = b"0 0 0 -";

/// Lowered by c, the value 2 - c is to be at most 0.4 * 2 + 0.5 * (2 - c); raised by c, 2 + c at least 0.6 * 2 + 0.5 * (2 + c). Rewards within
/// 0.1: 0.5 * 1.9 - 0.5 * 0.1 + 0.5 * (2 - c).
#[test]
fn lowered_and_raised(rt: HostRuntime) {
    let alloc = rt.alloc();
    for (run, answer, written) in [
        (
            LOWER,
            Outcome::Lowered(400_000),
            b"0\n1.6 1.6\n\n".as_slice(),
        ),
        (
            Run {
                vectors: b"0 1.6 1.6",
                ..LOWER
            },
            Outcome::Lowered(0),
            b"0\n1.6 1.6\n\n",
        ),
        (
            Run {
                within: b"0",
                rewards_within: b"0.1",
                ..LOWER
            },
            Outcome::Lowered(200_000),
            b"0\n1.8 1.8\n\n",
        ),
        (RAISE, Outcome::Raised(400_000), b"0\n2.4 2.4\n\n"),
        (
            Run {
                within: b"0",
                rewards_within: b"0.1",
                ..RAISE
            },
            Outcome::Raised(200_000),
            b"0\n2.2 2.2\n\n",
        ),
    ] {
        assert_eq!(rt; gives(alloc, run, SOUND, Ok(answer), written), Some(true));
    }
}

#[test]
fn without_a_successor(rt: HostRuntime) {
    let lower = LowerFault::NoSuccessor {
        node: 0,
        state: 0,
        observation: 1,
    };
    let raise = RaiseFault::NoSuccessor {
        node: 0,
        state: 0,
        observation: 1,
    };
    for (run, fault) in [
        (LOWER, RunFault::Lower(lower)),
        (RAISE, RunFault::Raise(raise)),
    ] {
        let run = Run { graph: OPEN, ..run };
        assert_eq!(rt; gives(rt.alloc(), run, SOUND, Err(fault), b""), Some(true));
    }
}

/// The first read of a source that ends the run otherwise than with this fault and nothing written, if it fails there.
fn first_wrong_read(alloc: Global, run: Run<'_>, fault: RunFault, text: &[u8]) -> Option<u64> {
    for number in 0..text.len() as u64 {
        let at = Some(number);
        let devices = match fault {
            RunFault::ReadModel => Devices { model: at, ..SOUND },
            RunFault::ReadGraph => Devices { graph: at, ..SOUND },
            _ => Devices {
                vectors: at,
                ..SOUND
            },
        };
        if gives(alloc, run, devices, Err(fault), b"") != Some(true) {
            return at;
        }
    }
    None
}

#[test]
fn a_read_that_fails(rt: HostRuntime) {
    for run in [LOWER, RAISE] {
        for (fault, text) in [
            (RunFault::ReadModel, COIN),
            (RunFault::ReadGraph, run.graph),
            (RunFault::ReadVectors, run.vectors),
        ] {
            assert_eq!(rt; first_wrong_read(rt.alloc(), run, fault, text), None);
        }
    }
}

/// The first write that leaves anything but a beginning of this, if it fails or takes nothing.
fn first_wrong_write(alloc: Global, run: Run<'_>, written: &[u8]) -> Option<u64> {
    for len in 0..written.len() {
        let (front, _) = written.split_at(len);
        for sink in [
            Failing::Fails(len as u64),
            Failing::TakesNothing(len as u64),
        ] {
            let devices = Devices { sink, ..SOUND };
            if gives(alloc, run, devices, Err(RunFault::Write), front) != Some(true) {
                return Some(len as u64);
            }
        }
    }
    None
}

#[test]
fn a_write_that_fails(rt: HostRuntime) {
    let alloc = rt.alloc();
    assert_eq!(rt; first_wrong_write(alloc, LOWER, b"0\n1.6 1.6\n\n"), None);
    assert_eq!(rt; first_wrong_write(alloc, RAISE, b"0\n2.4 2.4\n\n"), None);
}
