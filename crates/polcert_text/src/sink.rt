//! Sinks, the buffer in front of one, and how a text is written whole.
ghost use Rattle.std.specs.Prelude.{◌<◌, ◌≤◌, ℕ, List, Option, length, IfOk, ◌≡◌, ◌-◌, ◌++◌, [], take, min};
ghost use Rattle.polcert_text.specs.Device.{CountsFailures, moved_bytes};
ghost use Rattle.polcert_text.specs.Sink.{WritesText};
ghost use Rattle.polcert_text.specs.Steps.Buffer.{WritesBuffered};

use std::marker::Model;
use thiserror::Error;

/// A write failed, or took nothing of a piece that wasn't empty.
#[derive(Clone, Copy, Debug, PartialEq, Eq, Error)]
#[error("the sink failed")]
pub struct SinkFailed;

/// What bytes are written to.
pub trait Sink {
    /// How many writes have failed. It stays at its last value, `u64::MAX`.
    ghost failures: { Self → ℕ };

    /// One write: the sink before, the bytes that it took or `None` where the write failed, and the sink after.
    ghost writes: { Self → Option (List ℕ) → Self → Type 0 };

    /// Takes a front of the piece. That it takes nothing of a piece that isn't empty is a failure.
    fn write(&mut self, piece: &[u8]) -> Result<usize, SinkFailed>
        ensures bound { IfOk result (λ n. n ≤ length piece.now) }
        ensures progress { IfOk result (λ n. 0 < length piece.now → 0 < n) }
        ensures call { writes self.old (moved_bytes result piece.now) self.new }
        ensures count { CountsFailures (failures self.old) (failures self.new) result };
}

/// Writes the bytes. At an `Err` the sink took a beginning of them.
pub fn write_all<W: Sink>(sink: &mut W, bytes: &[u8]) -> Result<(), SinkFailed>
    ensures { WritesText W.writes W.failures sink.old bytes.now result sink.new }
{
    let mut at = 0;
    while at < bytes.len() {
        at += sink.write(&bytes[at..])?;
    }
    Ok(())
}

/// How many bytes a buffer has room for.
pub const BUFFER_SIZE: usize = 4096;

/// Up to 4,096 bytes, kept in the value itself. Contracts see them as a list.
#[derive(Drop)]
pub struct Buffer {
    bytes: [u8; BUFFER_SIZE],
    len: usize,
}

impl Model for Buffer {
    ghost use Rattle.std.specs.Prelude.{List, ℕ, take, ◌≤◌};

    ghost Value = { List ℕ };

    ghost view = { λ b. take b.len b.bytes };

    ghost invariant = { λ b. b.len ≤ 4096 };
}

impl Buffer {
    /// Makes an empty buffer.
    pub fn new() -> Buffer
        ensures { result ≡ [] }
    {
        Buffer {
            bytes: [0; BUFFER_SIZE],
            len: 0,
        }
    }

    /// Returns the bytes, in the order in which they came.
    pub fn as_bytes(&self) -> &[u8]
        ensures bytes { result.now ≡ self.now }
        ensures few { length self.now ≤ 4096 }
    {
        &self.bytes[..self.len]
    }

    /// Puts a front of the piece after the bytes, as much as there is room for, and answers how much that is.
    pub fn fill(&mut self, piece: &[u8]) -> usize
        ensures filled { self.new ≡ self.old ++ take result piece.now }
        ensures count { result ≡ min (length piece.now) (4096 - length self.old) }
    {
        let count = piece.len().min(BUFFER_SIZE - self.len);
        self.bytes[self.len..self.len + count].copy_from_slice(&piece[..count]);
        self.len += count;
        count
    }

    /// Lets all bytes go.
    pub fn clear(&mut self)
        ensures { self.new ≡ [] }
    {
        self.len = 0;
    }
}

/// A sink over another sink. It holds up to 4,096 bytes back, and passes them on to the sink below where there is no
/// room left, and where it is flushed. The buffer is a part of the value, so that no memory is taken.
///
/// Flush it before it is dropped: what it still holds is lost then.
#[derive(Drop)]
pub struct BufferedSink<'a, W> {
    pub sink: &'a mut W,
    pub held: Buffer,
    failures: u64,
}

impl<'a, W> BufferedSink<'a, W> {
    /// Makes an empty buffer over the sink.
    pub fn new(sink: &'a mut W) -> BufferedSink<'a, W>
        ensures held { result.held ≡ [] }
        ensures failures { result.failures ≡ 0 }
        ensures same_sink { result.sink.now ≡ sink.entry.now }
        ensures same_reference { result.sink.ghost_name ≡ sink.entry.ghost_name }
    {
        BufferedSink {
            sink,
            held: Buffer::new(),
            failures: 0,
        }
    }
}

impl<W> BufferedSink<'_, W> {
    /// Returns how many calls have failed, at most `u64::MAX`. Tests ask for it; contracts speak of the same number.
    pub fn failures(&self) -> u64
        ensures { result ≡ self.now.failures }
    {
        self.failures
    }
}

impl<W: Sink> BufferedSink<'_, W> {
    /// Writes what is held to the sink below. Afterwards nothing is held, even if the write failed.
    pub fn flush(&mut self) -> Result<(), SinkFailed>
        ensures written { WritesText W.writes W.failures self.old.sink.now self.old.held result
            self.new.sink.now }
        ensures held { self.new.held ≡ [] }
        ensures count { CountsFailures self.old.failures self.new.failures result }
        ensures same_reference { self.new.sink.ghost_name ≡ self.old.sink.ghost_name }
    {
        let result = write_all(self.sink, self.held.as_bytes());
        self.held.clear();
        if result.is_err() {
            self.failures = self.failures.saturating_add(1);
        }
        result
    }
}

impl<W: Sink> Sink for BufferedSink<'_, W> {
    ghost failures = { λ s. s.failures };

    // Over the same reference, so that who lent the sink below knows what it took.
    ghost writes = { λ s answer t.
        WritesBuffered W.writes W.failures s.sink.now s.held answer t.sink.now t.held
        × (t.sink.ghost_name ≡ s.sink.ghost_name) };

    fn write(&mut self, piece: &[u8]) -> Result<usize, SinkFailed> {
        if self.held.as_bytes().len() == BUFFER_SIZE {
            self.flush()?;
        }
        Ok(self.held.fill(piece))
    }
}
