//! Full forms, typed from the format's description, and writes that fail.
use polcert_model::{Model, read_model, write_model};
use polcert_testing::{TIGER_FORM, expect_eq};
use polcert_text::{BufferedSink, Sink, SinkFailed};
use std::alloc::Global;

const FULL3: &[u8] = b"discount: 1
values: reward
states: 3
actions: 1
observations: 1
start: uniform
T: 0 : 0
uniform
T: 0 : 1
uniform
T: 0 : 2
uniform
O: 0 : 0
uniform
O: 0 : 1
uniform
O: 0 : 2
uniform
";

const SIX_FORM: &[u8] = b"discount: 1
values: reward
states: 6
actions: 1
observations: 1
start: uniform
T: 0 : 0
uniform
T: 0 : 0 : 0 0.5
T: 0 : 0 : 1 0
T: 0 : 0 : 2 0
T: 0 : 1
0 1 0 0 0 0
T: 0 : 2
0 0 1 0 0 0
T: 0 : 3
0 0 0 1 0 0
T: 0 : 4
0 0 0 0 1 0
T: 0 : 5
0 0 0 0 0 1
O: 0 : 0
uniform
O: 0 : 1
uniform
O: 0 : 2
uniform
O: 0 : 3
uniform
O: 0 : 4
uniform
O: 0 : 5
uniform
";

const THIRDS_FORM: &[u8] = b"discount: 1
values: reward
states: 3
actions: 1
observations: 1
start: 0.333333 0.333333 0.333334
T: 0 : 0
1 0 0
T: 0 : 1
0 1 0
T: 0 : 2
0 0 1
O: 0 : 0
uniform
O: 0 : 1
uniform
O: 0 : 2
uniform
";

const COST_FORM: &[u8] = b"discount: 0.5
values: cost
states: 1
actions: 1
observations: 1
start: uniform
T: 0 : 0
uniform
O: 0 : 0
uniform
R: 0 : 0 : 0
1.5
";

/// Whether the model may be written, and is.
fn is_written<W: Sink>(model: &Model, sink: &mut W) -> bool {
    model.printable() && write_model(model, sink).is_ok()
}

/// Takes a byte at a time, and fails at the write of number `failing`, from 0 on.
#[derive(Drop)]
struct OneByte {
    taken: [u8; 2048],
    len: usize,
    failing: usize,
    failures: u64,
}

impl OneByte {
    fn new(failing: usize) -> OneByte {
        OneByte {
            taken: [0; 2048],
            len: 0,
            failing,
            failures: 0,
        }
    }

    /// Whether it took just these bytes, and failed this many times.
    fn holds(&self, bytes: &[u8], failures: u64) -> bool {
        &self.taken[..self.len.min(2048)] == bytes && self.failures == failures
    }
}

impl Sink for OneByte {
    ghost failures = { λ s. s.failures };

    ghost writes = { λ s answer t. Unit {0} };

    fn write(&mut self, piece: &[u8]) -> Result<usize, SinkFailed> {
        let Some(byte) = piece.first() else {
            return Ok(0);
        };
        if self.len >= self.failing || self.len >= 2048 {
            self.failures = self.failures.saturating_add(1);
            return Err(SinkFailed);
        }
        self.taken[self.len] = *byte;
        self.len += 1;
        Ok(1)
    }
}

/// The number of the first write whose failure is not answered, or does not leave the bytes before it in the sink, if
/// there is one. The last write is the first that does not fail.
fn fails_wrongly(alloc: Global, form: &[u8]) -> Option<Option<usize>> {
    let model = read_model(alloc, form).ok()?;
    Some(first_wrong_failure(&model, form))
}

/// The first write that, if it fails, leaves something else than the form before it.
fn first_wrong_failure(model: &Model, form: &[u8]) -> Option<usize> {
    for failing in 0..form.len() {
        let mut sink = OneByte::new(failing);
        let failed = !is_written(model, &mut sink);
        if !failed
            || !sink.holds(&form[..failing], 1)
            || !fails_after_a_buffer(model, form, failing)
        {
            return Some(failing);
        }
    }
    let mut sink = OneByte::new(form.len());
    let written = is_written(model, &mut sink);
    if written && sink.holds(form, 0) {
        None
    } else {
        Some(form.len())
    }
}

/// The same through a buffer.
fn fails_after_a_buffer(model: &Model, form: &[u8], failing: usize) -> bool {
    let mut sink = OneByte::new(failing);
    let failed = !writes_through(model, &mut sink);
    failed && failing <= form.len() && sink.holds(&form[..failing.min(form.len())], 1)
}

/// Whether the model is written through a buffer.
fn writes_through(model: &Model, sink: &mut OneByte) -> bool {
    let mut buffered = BufferedSink::new(sink);
    is_written(model, &mut buffered) && buffered.flush().is_ok()
}

/// A failed write leaves a beginning of the form, through a buffer too.
#[test]
fn fails_at_each_write(rt: HostRuntime) {
    for form in [TIGER_FORM, FULL3, SIX_FORM, THIRDS_FORM, COST_FORM] {
        expect_eq!(rt; fails_wrongly(rt.alloc(), form), Some(None), form);
    }
}
