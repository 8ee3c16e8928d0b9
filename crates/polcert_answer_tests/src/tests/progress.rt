//! What a run notifies its progress of.
use polcert_answer::{Outcome, Task, run_task, status_of_outcome};
use polcert_check::{AboveVerdict, Progress, Verdict};
use polcert_testing::{TIGER, expect_eq};
use polcert_text::{SliceSink, SliceSource};
use std::alloc::Global;

/// The calls of one run, the nodes that it said to begin with, and the states: a digit for each call, how many were done.
#[derive(Clone, Copy, Debug, PartialEq)]
struct Calls {
    begin: usize,
    nodes: usize,
    states_done: usize,
    states: usize,
    node_done: usize,
    end: usize,
}

impl Progress for Calls {
    fn begin(&mut self, nodes: usize) {
        self.begin = self.begin.saturating_add(1);
        self.nodes = nodes;
    }

    fn states_done(&mut self, done: usize, states: usize) {
        self.states_done = self.states_done.saturating_mul(10).saturating_add(done);
        self.states = states;
    }

    fn node_done(&mut self) {
        self.node_done = self.node_done.saturating_add(1);
    }

    fn end(&mut self) {
        self.end = self.end.saturating_add(1);
    }
}

/// Nodes 0 and 2 listen for good, which costs 1 at each step: 20 in all. Node 1 opens the left door, for -100 or 10, and continues as
/// node 0.
const GRAPH: &[u8] = b"0 0 0 0 1 1 0 0 2 0 2 2";

/// What the nodes are worth, exactly.
const VALUES: &[u8] = b"0 -20 -20 1 -119 -9 0 -20 -20";

/// A millionth too much in the last state of node 1.
const HIGH: &[u8] = b"0 -20 -20 1 -119 -8.999999 0 -20 -20";

/// A millionth too little there.
const LOW: &[u8] = b"0 -20 -20 1 -119 -9.000001 0 -20 -20";

/// A millionth too much in the first state of node 0.
const FIRST_HIGH: &[u8] = b"0 -19.999999 -20 1 -119 -9 0 -20 -20";

/// The outcome of a task with the tiger, the graph and these vectors, and its calls.
fn calls_of(alloc: Global, task: Task, vectors: &[u8]) -> Option<(Outcome, Calls)> {
    let mut calls = Calls {
        begin: 0,
        nodes: 0,
        states_done: 0,
        states: 0,
        node_done: 0,
        end: 0,
    };
    let mut written = [0u8; 200];
    let mut sink = SliceSink::new(&mut written);
    let outcome = run_task(
        alloc,
        task,
        &mut SliceSource::new(TIGER),
        &mut SliceSource::new(GRAPH),
        &mut SliceSource::new(vectors),
        &mut sink,
        &mut calls,
    );
    Some((outcome.ok()?, calls))
}

/// A task, vectors, its outcome, the exit status, the states that are done at the first node of each action, and the nodes that are done.
/// A constant is a millionth over one minus the discount. A no ends the walk at its node, while lowering and raising go over all nodes.
const ROWS: &[(Task, &[u8], Outcome, u8, usize, usize)] = &[
    (
        Task::Check,
        VALUES,
        Outcome::Checked(Verdict::Yes),
        0,
        1212,
        3,
    ),
    (
        Task::Check,
        HIGH,
        Outcome::Checked(Verdict::Short {
            node: 1,
            state: 1,
            amount: 4_000_000_000_000_000_000,
        }),
        1,
        1212,
        2,
    ),
    (
        Task::Check,
        FIRST_HIGH,
        Outcome::Checked(Verdict::Short {
            node: 0,
            state: 0,
            amount: 200_000_000_000_000_000,
        }),
        1,
        1,
        0,
    ),
    (
        Task::CheckAbove,
        VALUES,
        Outcome::CheckedAbove(AboveVerdict::Yes),
        0,
        1212,
        3,
    ),
    (
        Task::CheckAbove,
        LOW,
        Outcome::CheckedAbove(AboveVerdict::Long {
            node: 1,
            state: 1,
            amount: 4_000_000_000_000_000_000,
        }),
        1,
        1212,
        2,
    ),
    (Task::Lower, VALUES, Outcome::Lowered(0), 0, 1212, 3),
    (Task::Lower, HIGH, Outcome::Lowered(20), 0, 1212, 3),
    (Task::Raise, VALUES, Outcome::Raised(0), 0, 1212, 3),
    (Task::Raise, LOW, Outcome::Raised(20), 0, 1212, 3),
];

#[test]
fn each_share_is_told_once(rt: HostRuntime) {
    for &(task, vectors, outcome, status, states_done, node_done) in ROWS {
        let calls = Calls {
            begin: 1,
            nodes: 3,
            states_done,
            states: 2,
            node_done,
            end: 1,
        };
        expect_eq!(rt; calls_of(rt.alloc(), task, vectors), Some((outcome, calls)));
        expect_eq!(rt; status_of_outcome(outcome), status);
    }
}
