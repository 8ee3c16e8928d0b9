//! Calls of the answer to three texts in every model near the first's.
use crate::answers::stopped;
use crate::ended::{Ended, Want};
use crate::texts::{MOVED, TOO_LITTLE, TOO_MUCH};
use polcert_answer::{Outcome, Task};
use polcert_check::NoProgress;
use polcert_robust_answer::{Within, distance_of, reward_distance_of, run_near_task};
use polcert_testing::{LISTENING, TIGER};
use polcert_text::{SliceSink, SliceSource};
use std::alloc::{AllocError, Global};

/// The most bytes that a run writes here.
const ROOM: usize = 100;

/// A task in the text's own model, and what it answers; its vectors are moved to MOVED.
fn moving(alloc: Global, task: Task, vectors: &[u8], wanted: Outcome) -> Ended {
    let by = match distance_of(alloc, b"0") {
        Ok(Some(by)) => by,
        Ok(None) => return Ended::Wrong,
        Err(AllocError) => return Ended::Memory(Want::Plain),
    };
    let Some(rewards_by) = reward_distance_of(b"0") else {
        return Ended::Wrong;
    };
    let within = Within {
        text: b"0",
        is_percent: false,
        by,
        percent: 0,
        rewards_text: b"0",
        rewards_by,
    };
    let mut room = [0; ROOM];
    let mut sink = SliceSink::new(&mut room);
    let result = run_near_task(
        alloc,
        task,
        &within,
        &mut SliceSource::new(TIGER),
        &mut SliceSource::new(LISTENING),
        &mut SliceSource::new(vectors),
        &mut sink,
        &mut NoProgress,
    );
    match result {
        Ok(outcome) => Ended::done(outcome == wanted && sink.written() == MOVED),
        Err(fault) => stopped(fault, sink.written()),
    }
}

/// Lowered by a millionth.
pub fn lowering(alloc: Global) -> Ended {
    moving(alloc, Task::Lower, TOO_MUCH, Outcome::Lowered(1))
}

/// Raised by a millionth.
pub fn raising(alloc: Global) -> Ended {
    moving(alloc, Task::Raise, TOO_LITTLE, Outcome::Raised(1))
}
