//! Calls of the answer to a model and one vector for each of its actions, and to belief points besides.
use crate::answers::{refused, stopped};
use crate::ended::Ended;
use crate::texts::COST;
use polcert_bound_answer::{check_bound_texts, run_bound_check, run_bound_raise};
use polcert_check::NoProgress;
use polcert_optimum::InformedVerdict;
use polcert_points_answer::{
    PointBoundVerdict, check_point_texts, run_point_check, run_point_raise,
};
use polcert_testing::MDP;
use polcert_text::{SliceSink, SliceSource};
use std::alloc::Global;

/// The most bytes that a run writes here.
const ROOM: usize = 100;

/// The value of each state of MDP, rounded up.
const BOUND: &[u8] = b"0 1.333334 0.666667";

/// BOUND less a millionth, and so much too low.
const LOW: &[u8] = b"0 1.333333 0.666666";

/// A cost of 1 for each step, which is 2 in all.
const COSTS: &[u8] = b"0 -2";

/// The one state.
const POINTS: &[u8] = b"0 1 -2 0";

/// POINTS less a millionth, and so much too low.
const LOW_POINTS: &[u8] = b"0 1 -2.000001 0";

pub fn two_texts(alloc: Global) -> Ended {
    match check_bound_texts(alloc, MDP, BOUND) {
        Ok(verdict) => Ended::done(verdict == InformedVerdict::Yes),
        Err(fault) => refused(fault),
    }
}

pub fn checking(alloc: Global) -> Ended {
    let mut room = [0; ROOM];
    let mut sink = SliceSink::new(&mut room);
    let result = run_bound_check(
        alloc,
        &mut SliceSource::new(MDP),
        &mut SliceSource::new(BOUND),
        &mut sink,
        &mut NoProgress,
    );
    match result {
        Ok(verdict) => Ended::done(
            verdict == InformedVerdict::Yes
                && sink.written() == b"yes: every policy, at most 1.000001\n".as_slice(),
        ),
        Err(fault) => stopped(fault, sink.written()),
    }
}

/// Raised by a millionth.
pub fn raising(alloc: Global) -> Ended {
    let mut room = [0; ROOM];
    let mut sink = SliceSink::new(&mut room);
    let result = run_bound_raise(
        alloc,
        &mut SliceSource::new(MDP),
        &mut SliceSource::new(LOW),
        &mut sink,
    );
    match result {
        Ok(by) => Ended::done(by == 1 && sink.written() == b"0\n1.333334 0.666667\n\n".as_slice()),
        Err(fault) => stopped(fault, sink.written()),
    }
}

pub fn points(alloc: Global) -> Ended {
    match check_point_texts(alloc, COST, COSTS, POINTS) {
        Ok(verdict) => Ended::done(verdict == PointBoundVerdict::Yes),
        Err(fault) => refused(fault),
    }
}

pub fn checking_points(alloc: Global) -> Ended {
    let mut room = [0; ROOM];
    let mut sink = SliceSink::new(&mut room);
    let result = run_point_check(
        alloc,
        &mut SliceSource::new(COST),
        &mut SliceSource::new(COSTS),
        &mut SliceSource::new(POINTS),
        &mut sink,
        &mut NoProgress,
    );
    match result {
        Ok(verdict) => Ended::done(
            verdict == PointBoundVerdict::Yes
                && sink.written() == b"yes: every policy, at most -2\n".as_slice(),
        ),
        Err(fault) => stopped(fault, sink.written()),
    }
}

/// Raised by a millionth.
pub fn raising_points(alloc: Global) -> Ended {
    let mut room = [0; ROOM];
    let mut sink = SliceSink::new(&mut room);
    let result = run_point_raise(
        alloc,
        &mut SliceSource::new(COST),
        &mut SliceSource::new(COSTS),
        &mut SliceSource::new(LOW_POINTS),
        &mut sink,
    );
    match result {
        Ok(by) => Ended::done(by == 1 && sink.written() == b"0 1\n-2 0\n".as_slice()),
        Err(fault) => stopped(fault, sink.written()),
    }
}
