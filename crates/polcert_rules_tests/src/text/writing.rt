//! Sinks that take a byte at a time, fail or take nothing.
use polcert_testing::{Failing, Taker, expect_eq};
use polcert_text::{BUFFER_SIZE, BufferedSink, Sink, SinkFailed, SliceSink, WriterSink, write_all};
use std::alloc::Global;
use std::test::Fail;

/// Writes the text to a taker: the answer, whether the taker took just these bytes, its failures and its writes.
fn write_through(
    alloc: Global,
    failing: Failing,
    text: &[u8],
    taken: &[u8],
) -> (Result<(), SinkFailed>, bool, u64, u64) {
    let mut sink = WriterSink::new(Taker::new(alloc, failing));
    let answer = write_all(&mut sink, text);
    let is_taken = sink.writer.taken.as_slice() == taken;
    (answer, is_taken, sink.failures(), sink.writer.writes)
}

/// What a sink took before it failed is a beginning of the bytes. The failure was counted once, and the write is not tried
/// again, though it would succeed then.
#[test]
fn fails_at_each_write(rt: HostRuntime) {
    let text = b"yes: start node 0";
    for failing in 0..17usize {
        let number = failing as u64;
        let found = write_through(rt.alloc(), Failing::Fails(number), text, &text[..failing]);
        expect_eq!(rt; found, (Err(SinkFailed), true, 1, number + 1));
    }
    let found = write_through(rt.alloc(), Failing::Never, text, text);
    expect_eq!(rt; found, (Ok(()), true, 0, 17));
}

#[test]
fn a_full_slice_fails(rt: HostRuntime) {
    let mut bytes = [0u8; 4];
    let mut sink = SliceSink::new(&mut bytes);
    for (text, answer, failures) in [
        (b"ab".as_slice(), Ok(()), 0),
        (b"cde", Err(SinkFailed), 1),
        (b"", Ok(()), 1),
    ] {
        expect_eq!(rt;
            (write_all(&mut sink, text), sink.failures()),
            (answer, failures)
        );
    }
    expect_eq!(rt; sink.written(), b"abcd".as_slice());
}

#[test]
fn writes_to_a_writer_of_std(rt: HostRuntime) -> Result<(), Fail> {
    let mut sink = WriterSink::new(Vec::new(rt.alloc()));
    write_all(&mut sink, b"a line")?;
    expect_eq!(rt; sink.writer.as_slice(), b"a line".as_slice());
    expect_eq!(rt; sink.failures(), 0);

    Ok(())
}

/// Writes the text: the answer, and how often the sink failed and was written to until then.
fn write_on(sink: &mut WriterSink<Taker>, text: &[u8]) -> (Result<(), SinkFailed>, u64, u64) {
    let answer = write_all(sink, text);
    (answer, sink.failures(), sink.writer.writes)
}

/// The same of three texts, of which the first write takes nothing.
fn write_three(alloc: Global, texts: [&[u8]; 3]) -> [(Result<(), SinkFailed>, u64, u64); 3] {
    let mut sink = WriterSink::new(Taker::new(alloc, Failing::TakesNothing(0)));
    let [first, second, third] = texts;
    [
        write_on(&mut sink, first),
        write_on(&mut sink, second),
        write_on(&mut sink, third),
    ]
}

/// A write that took nothing failed: it is not tried again, though it would succeed then. Nothing is written in no write.
#[test]
fn a_write_of_nothing_fails(rt: HostRuntime) {
    expect_eq!(rt;
        write_three(rt.alloc(), [b"a".as_slice(), b"", b"b"]),
        [(Err(SinkFailed), 1, 1), (Ok(()), 1, 1), (Ok(()), 1, 2)]
    );
}

/// Writes the piece once: the answer, and how often the sink failed and was written to until then.
fn write_once(sink: &mut WriterSink<Taker>, piece: &[u8]) -> (Result<usize, SinkFailed>, u64, u64) {
    let answer = sink.write(piece);
    (answer, sink.failures(), sink.writer.writes)
}

/// The same of two pieces, and whether the taker took just these bytes.
fn write_twice(
    alloc: Global,
    failing: Failing,
    pieces: [&[u8]; 2],
    taken: &[u8],
) -> ([(Result<usize, SinkFailed>, u64, u64); 2], bool) {
    let mut sink = WriterSink::new(Taker::new(alloc, failing));
    let [first, second] = pieces;
    let found = [write_once(&mut sink, first), write_once(&mut sink, second)];
    (found, sink.writer.taken.as_slice() == taken)
}

/// One write of a sink over a writer of std is one write of the writer, also of an empty piece, of which nothing is taken.
#[test]
fn one_write_for_one_write(rt: HostRuntime) {
    expect_eq!(rt;
        write_twice(rt.alloc(), Failing::TakesNothing(0), [b"".as_slice(), b"a"], b"a"),
        ([(Ok(0), 0, 1), (Ok(1), 0, 2)], true)
    );
    expect_eq!(rt;
        write_twice(rt.alloc(), Failing::Fails(1), [b"ab".as_slice(), b"b"], b"a"),
        ([(Ok(1), 0, 1), (Err(SinkFailed), 1, 2)], true)
    );
}

/// Takes pieces whole, notes how long the first four were, and counts its writes. The write of number `failing`, from 0 on,
/// and the fifth fail; the next one would succeed.
#[derive(Drop)]
struct Pieces {
    lens: [usize; 4],
    taken: usize,
    writes: usize,
    failing: usize,
    failures: u64,
}

impl Pieces {
    fn new(failing: usize) -> Pieces {
        Pieces {
            lens: [0; 4],
            taken: 0,
            writes: 0,
            failing,
            failures: 0,
        }
    }
}

impl Sink for Pieces {
    ghost failures = { λ s. s.failures };

    ghost writes = { λ s answer t. Unit {0} };

    fn write(&mut self, piece: &[u8]) -> Result<usize, SinkFailed> {
        let number = self.writes;
        self.writes = self.writes.saturating_add(1);
        if number == self.failing || self.taken >= 4 {
            self.failures = self.failures.saturating_add(1);
            return Err(SinkFailed);
        }
        self.lens[self.taken] = piece.len();
        self.taken += 1;
        Ok(piece.len())
    }
}

/// Writes 1,250 times `12345678`, 10,000 bytes, through a buffer.
fn write_ten_thousand(sink: &mut Pieces) -> Result<(), SinkFailed> {
    let mut buffered = BufferedSink::new(sink);
    for _ in 0..1250 {
        write_all(&mut buffered, b"12345678")?;
    }
    buffered.flush()
}

/// The sink below is written to for each 4,096 bytes, and at the end.
#[test]
fn a_buffer_writes_whole_pieces(rt: HostRuntime) {
    let mut sink = Pieces::new(4);
    expect_eq!(rt; write_ten_thousand(&mut sink), Ok(()));
    expect_eq!(rt; sink.lens, [BUFFER_SIZE, BUFFER_SIZE, 1808, 0]);
    expect_eq!(rt; (sink.failures, sink.writes), (0, 3));
    for failing in 0..3usize {
        let mut sink = Pieces::new(failing);
        expect_eq!(rt; write_ten_thousand(&mut sink), Err(SinkFailed));
        expect_eq!(rt; (sink.failures, sink.writes), (1, failing + 1));
    }
}

/// Writes the bytes, or flushes: the answer, how much was written to the sink below, whether these bytes are held, and the
/// failures.
fn call_buffer(
    buffered: &mut BufferedSink<'_, SliceSink<'_>>,
    bytes: Option<&[u8]>,
    held: &[u8],
) -> (Result<(), SinkFailed>, usize, bool, u64) {
    let answer = match bytes {
        Some(bytes) => write_all(buffered, bytes),
        None => buffered.flush(),
    };
    let is_held = buffered.held.as_bytes() == held;
    (
        answer,
        buffered.sink.written().len(),
        is_held,
        buffered.failures(),
    )
}

/// A piece longer than the buffer goes through it in parts; nothing is written to the sink below before it is flushed or
/// full, and a flush of nothing writes nothing.
#[test]
fn a_buffer_holds_back(rt: HostRuntime) {
    let many = [b'x'; 4990];
    let calls = [
        (
            Some(b"a line".as_slice()),
            b"a line".as_slice(),
            (Ok(()), 0, true, 0),
        ),
        (None, b"", (Ok(()), 6, true, 0)),
        (None, b"", (Ok(()), 6, true, 0)),
        (Some(&many), &many[..894], (Ok(()), 6 + 4096, true, 0)),
        (None, b"", (Ok(()), 4996, true, 0)),
        (Some(b"12345"), b"12345", (Ok(()), 4996, true, 0)),
        (None, b"", (Err(SinkFailed), 5000, true, 1)),
    ];
    let mut room = [0u8; 5000];
    let mut sink = SliceSink::new(&mut room);
    let mut buffered = BufferedSink::new(&mut sink);
    for (bytes, held, found) in calls {
        expect_eq!(rt; call_buffer(&mut buffered, bytes, held), found);
    }
    expect_eq!(rt; &room[..6], b"a line".as_slice());
}
