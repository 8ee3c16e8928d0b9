//! Calls of the answer: three texts, and each of the runs.
use crate::ended::{Ended, Want};
use crate::texts::{
    BACKED, LACKING, MDP_FULL, MDP_LINE, MOVED, NOTHING, TIGER_LINE, TOO_LITTLE, TOO_MUCH,
};
use polcert_answer::{
    Fault, RunFault, check_texts, check_texts_above, run_check, run_check_above, run_lower,
    run_model, run_print, run_raise, status_of,
};
use polcert_check::{AboveVerdict, LowerFault, RaiseFault, Verdict};
use polcert_model::ModelFault;
use polcert_policy::{GraphFault, PointFault, VectorFault};
use polcert_testing::{ALWAYS_FIRST, LISTENING, MDP, TIGER, TIGER_FORM};
use polcert_text::{SliceSink, SliceSource};
use std::alloc::Global;

/// The most bytes that a run writes here.
const ROOM: usize = 600;

/// A text was refused; that is out of memory.
pub fn refused(fault: Fault) -> Ended {
    match fault {
        Fault::Model(fault) => Ended::memory(Want::Model, fault == ModelFault::Memory),
        Fault::Graph(fault) => Ended::memory(Want::Graph, fault == GraphFault::Memory),
        Fault::Vectors(fault) => Ended::memory(Want::Vectors, fault == VectorFault::Memory),
        Fault::Points(fault) => Ended::memory(Want::Points, fault == PointFault::Memory),
    }
}

/// A run stopped; that is out of memory (for one of the texts, for lowering or for raising), with the status of that and with
/// nothing written.
pub fn stopped(fault: RunFault, written: &[u8]) -> Ended {
    if status_of(&fault) != 4 || !written.is_empty() {
        return Ended::Wrong;
    }
    match fault {
        RunFault::Text(fault) => refused(fault),
        RunFault::Lower(fault) => Ended::memory(Want::Lower, fault == LowerFault::Memory),
        RunFault::Raise(fault) => Ended::memory(Want::Raise, fault == RaiseFault::Memory),
        _ => Ended::Wrong,
    }
}

/// The value of 0 is backed.
pub fn three_texts(alloc: Global) -> Ended {
    match check_texts(alloc, ALWAYS_FIRST, LACKING, NOTHING) {
        Ok(verdict) => Ended::done(verdict == Verdict::Yes),
        Err(fault) => refused(fault),
    }
}

/// The value of 0 is not exceeded.
pub fn three_texts_from_above(alloc: Global) -> Ended {
    match check_texts_above(alloc, ALWAYS_FIRST, LACKING, NOTHING) {
        Ok(verdict) => Ended::done(verdict == AboveVerdict::Yes),
        Err(fault) => refused(fault),
    }
}

/// A model, and the line that sums it up.
fn summing_up_of(alloc: Global, model: &[u8], line: &[u8]) -> Ended {
    let mut room = [0; ROOM];
    let mut sink = SliceSink::new(&mut room);
    match run_model(alloc, &mut SliceSource::new(model), &mut sink) {
        Ok(()) => Ended::done(sink.written() == line),
        Err(fault) => stopped(fault, sink.written()),
    }
}

pub fn summing_up(alloc: Global) -> Ended {
    summing_up_of(alloc, TIGER, TIGER_LINE)
}

pub fn summing_up_an_mdp(alloc: Global) -> Ended {
    summing_up_of(alloc, MDP, MDP_LINE)
}

/// A model, and its full form.
fn printing_of(alloc: Global, model: &[u8], full: &[u8]) -> Ended {
    let mut room = [0; ROOM];
    let mut sink = SliceSink::new(&mut room);
    match run_print(alloc, &mut SliceSource::new(model), &mut sink) {
        Ok(()) => Ended::done(sink.written() == full),
        Err(fault) => stopped(fault, sink.written()),
    }
}

pub fn printing(alloc: Global) -> Ended {
    printing_of(alloc, TIGER, TIGER_FORM)
}

pub fn printing_an_mdp(alloc: Global) -> Ended {
    printing_of(alloc, MDP, MDP_FULL)
}

/// The texts of a model, of a graph and of its vectors.
type Texts<'a> = (&'a [u8], &'a [u8], &'a [u8]);

/// Texts, and what their check writes.
fn checking_of(alloc: Global, texts: Texts<'_>, line: &[u8]) -> Ended {
    let mut room = [0; ROOM];
    let mut sink = SliceSink::new(&mut room);
    let result = run_check(
        alloc,
        &mut SliceSource::new(texts.0),
        &mut SliceSource::new(texts.1),
        &mut SliceSource::new(texts.2),
        &mut sink,
    );
    match result {
        Ok(verdict) => Ended::done(verdict == Verdict::Yes && sink.written() == line),
        Err(fault) => stopped(fault, sink.written()),
    }
}

pub fn checking(alloc: Global) -> Ended {
    let line = b"yes: start node 0, at least -20\n";
    checking_of(alloc, (TIGER, LISTENING, BACKED), line)
}

/// The missing successor is never needed.
pub fn checking_a_lack(alloc: Global) -> Ended {
    let line = b"yes: start node 0, at least 0\n";
    checking_of(alloc, (ALWAYS_FIRST, LACKING, NOTHING), line)
}

/// Texts, and what their check from above writes.
fn checking_above_of(alloc: Global, texts: Texts<'_>, line: &[u8]) -> Ended {
    let mut room = [0; ROOM];
    let mut sink = SliceSink::new(&mut room);
    let result = run_check_above(
        alloc,
        &mut SliceSource::new(texts.0),
        &mut SliceSource::new(texts.1),
        &mut SliceSource::new(texts.2),
        &mut sink,
    );
    match result {
        Ok(verdict) => Ended::done(verdict == AboveVerdict::Yes && sink.written() == line),
        Err(fault) => stopped(fault, sink.written()),
    }
}

pub fn checking_from_above(alloc: Global) -> Ended {
    let line = b"yes: every start node, at most -20\n";
    checking_above_of(alloc, (TIGER, LISTENING, BACKED), line)
}

/// The missing successor is never needed.
pub fn checking_a_lack_from_above(alloc: Global) -> Ended {
    let line = b"yes: every start node, at most 0\n";
    checking_above_of(alloc, (ALWAYS_FIRST, LACKING, NOTHING), line)
}

/// Lowered by a millionth.
pub fn lowering(alloc: Global) -> Ended {
    let mut room = [0; ROOM];
    let mut sink = SliceSink::new(&mut room);
    let result = run_lower(
        alloc,
        &mut SliceSource::new(TIGER),
        &mut SliceSource::new(LISTENING),
        &mut SliceSource::new(TOO_MUCH),
        &mut sink,
    );
    match result {
        Ok(by) => Ended::done(by == 1 && sink.written() == MOVED),
        Err(fault) => stopped(fault, sink.written()),
    }
}

/// Raised by a millionth.
pub fn raising(alloc: Global) -> Ended {
    let mut room = [0; ROOM];
    let mut sink = SliceSink::new(&mut room);
    let result = run_raise(
        alloc,
        &mut SliceSource::new(TIGER),
        &mut SliceSource::new(LISTENING),
        &mut SliceSource::new(TOO_LITTLE),
        &mut sink,
    );
    match result {
        Ok(by) => Ended::done(by == 1 && sink.written() == MOVED),
        Err(fault) => stopped(fault, sink.written()),
    }
}
