//! The runs, what they answer as values, and what they do with their devices.
use polcert_answer::{Fault, RunFault, run_model};
use polcert_model::{ItemFault, ModelFault};
use polcert_testing::{FIRST, expect_eq};
use polcert_text::{Sink, SinkFailed, SliceSink, SliceSource};

mod bound_words;
mod fake_terminal;
mod pieces;
mod polcert_words;
mod progress;
mod runs;
mod shown_progress;
mod stops;
mod texts;
mod trials;
mod verdicts;

const LINE: &[u8] = b"pomdp: 2 states, 1 actions, 2 observations, discount 0.95, reward\n";

fn item(kind: ItemFault, item: u64, place: u64) -> RunFault {
    RunFault::Text(Fault::Model(ModelFault::Item { kind, item, place }))
}

/// Takes pieces whole, and counts the writes.
#[derive(Drop)]
struct Counted {
    writes: u64,
    bytes: u64,
}

impl Sink for Counted {
    ghost failures = { λ s. 0 };

    ghost writes = { λ s answer t. Unit {0} };

    fn write(&mut self, piece: &[u8]) -> Result<usize, SinkFailed> {
        self.writes = self.writes.saturating_add(1);
        self.bytes = self.bytes.saturating_add(piece.len() as u64);
        Ok(piece.len())
    }
}

/// A sink over a slice that is one byte too short, one that just holds the line, and one that counts.
#[test]
fn a_line_is_one_write_that_fits_or_fails(rt: HostRuntime) {
    let mut short = [0u8; 65];
    let mut sink = SliceSink::new(&mut short);
    let result = run_model(rt.alloc(), &mut SliceSource::new(FIRST), &mut sink);
    expect_eq!(rt; result, Err(RunFault::Write));
    let mut room = [0u8; 66];
    let mut sink = SliceSink::new(&mut room);
    let result = run_model(rt.alloc(), &mut SliceSource::new(FIRST), &mut sink);
    expect_eq!(rt; result, Ok(()));
    expect_eq!(rt; sink.written(), LINE);
    let mut sink = Counted {
        writes: 0,
        bytes: 0,
    };
    let result = run_model(rt.alloc(), &mut SliceSource::new(FIRST), &mut sink);
    expect_eq!(rt; result, Ok(()));
    expect_eq!(rt; sink.writes, 1);
    expect_eq!(rt; sink.bytes, 66);
}
