//! Sources and how one is read whole; slices, and the readers and writers of the system.
ghost use Rattle.std.specs.Prelude.{◌≡◌, ◌≢◌, ◌+◌, ◌-◌, ◌^◌, ◌<◌, ◌≤◌, ℕ, List, Option, length, IfOk};
ghost use Rattle.std.specs.Prelude.{IsErrOf, take};
ghost use Rattle.polcert_text.specs.Device.{HasFailed, CountsFailures, moved_bytes};
ghost use Rattle.polcert_text.specs.Source.{Gives, GivesThenFails, IsText};
ghost use Rattle.polcert_text.specs.Memory.{ReadsSlice, WritesSlice};
ghost use Rattle.polcert_text.specs.Known.{ReadsKnown, WritesKnown};

use crate::{Sink, SinkFailed};
use std::alloc::Global;
use std::io::{Read, Write};
use thiserror::Error;

/// A read failed.
#[derive(Clone, Copy, Debug, PartialEq, Eq, Error)]
#[error("the source failed")]
pub struct SourceFailed;

/// Why a source wasn't read whole.
#[derive(Clone, Copy, Debug, PartialEq, Eq, Error)]
pub enum ReadFault {
    #[error("the source failed")]
    Device,
    #[error("out of memory")]
    Memory,
}

/// Why nothing was made of a source.
#[derive(Clone, Copy, Debug, PartialEq, Eq)]
pub enum SourceFault<F> {
    /// A read failed.
    Device,
    /// The text is refused, or there is no memory for what it says.
    Refused(F),
}

/// What bytes are read from. A read of 0 bytes into a piece that isn't empty is the true end.
pub trait Source {
    /// How many reads have failed. It stays at its last value, `u64::MAX`.
    ghost failures: { Self → ℕ };

    /// One read: the source before, the room of the piece, the bytes that were given or `None` where the read
    /// failed, and the source after.
    ghost reads: { Self → ℕ → Option (List ℕ) → Self → Type 0 };

    /// Reads bytes into the front of the piece, and returns how many.
    fn read(&mut self, piece: &mut [u8]) -> Result<usize, SourceFailed>
        ensures bound { IfOk result (λ n. n ≤ length piece.new) }
        ensures call { reads self.old (length piece.old) (moved_bytes result piece.new) self.new }
        ensures count { CountsFailures (failures self.old) (failures self.new) result };
}

const PIECE: usize = 4096;

/// Reads a source whole, or one byte past the limit (a number of bytes), where it stops. Only tests call it: readers take tokens as they
/// come.
///
/// # Errors
///
/// `Device` if a read failed, `Memory` where memory ran out.
pub fn read_all<S: Source>(alloc: Global, source: &mut S, limit: u64) -> Result<Vec<u8>, ReadFault>
    requires { limit < 2 ^ 64 - 1 }

    // Up to the limit, the bytes are the text of the source.
    ensures whole { IfOk result (λ bytes. length bytes.items ≤ limit
        → IsText S.reads source.old bytes.items source.new) }

    // Past it, they are one byte more than the limit, and the text continues from there or not.
    ensures beyond { IfOk result (λ bytes. limit < length bytes.items
        → (length bytes.items ≡ limit + 1) × Gives S.reads source.old bytes.items source.new) }

    ensures same_count { (result ≢ Err ReadFault.Device) → S.failures source.new ≡ S.failures source.old }

    ensures device { IsErrOf result ReadFault.Device
        → (bytes : List ℕ) × GivesThenFails S.reads source.old bytes source.new }
    ensures device_count { IsErrOf result ReadFault.Device
        → HasFailed (S.failures source.old) (S.failures source.new) }
    ensures memory { IsErrOf result ReadFault.Memory
        → (bytes : List ℕ) × Gives S.reads source.old bytes source.new }
{
    let most = limit as usize + 1;
    let mut bytes = Vec::new(alloc);
    let mut piece = [0u8; PIECE];
    while bytes.len() < most {
        let room = PIECE.min(most - bytes.len());
        match source.read(&mut piece[..room]) {
            Ok(0) => return Ok(bytes),
            Ok(count) => {
                if bytes.extend_from_slice(&piece[..count]).is_err() {
                    return Err(ReadFault::Memory);
                }
            }
            Err(_) => return Err(ReadFault::Device),
        }
    }
    Ok(bytes)
}

/// A slice as a source, for texts in memory. A read never fails.
#[derive(Drop)]
pub struct SliceSource<'a> {
    pub rest: &'a [u8],
}

impl<'a> SliceSource<'a> {
    pub fn new(bytes: &'a [u8]) -> SliceSource<'a>
        ensures { result.rest.now ≡ bytes.entry.now }
    {
        SliceSource { rest: bytes }
    }
}

impl Source for SliceSource<'_> {
    ghost failures = { λ _. 0 };

    ghost reads = { λ s room answer t. ReadsSlice s.rest.now room answer t.rest.now };

    fn read(&mut self, piece: &mut [u8]) -> Result<usize, SourceFailed> {
        let count = self.rest.len().min(piece.len());
        let (front, rest) = self.rest.split_at(count);
        piece[..count].copy_from_slice(front);
        self.rest = rest;
        Ok(count)
    }
}

/// A slice as a sink. A write fails if the slice is full.
#[derive(Drop)]
pub struct SliceSink<'a> {
    pub buffer: &'a mut [u8],
    pub len: usize,
    failures: u64,
    ghost in_range: { len ≤ length buffer.now },
}

impl<'a> SliceSink<'a> {
    pub fn new(buffer: &'a mut [u8]) -> SliceSink<'a>
        ensures len { result.len ≡ 0 }
        ensures failures { result.failures ≡ 0 }
        ensures same_bytes { result.buffer.now ≡ buffer.entry.now }
        ensures same_reference { result.buffer.ghost_name ≡ buffer.entry.ghost_name }
    {
        SliceSink {
            buffer,
            len: 0,
            failures: 0,
        }
    }
}

impl SliceSink<'_> {
    /// Returns the bytes that were written so far.
    pub fn written(&self) -> &[u8]
        ensures { result.now ≡ take self.now.len self.now.buffer.now }
    {
        &self.buffer[..self.len]
    }

    /// Returns how many writes have failed, at most `u64::MAX`. Tests ask for it; contracts speak of the same number.
    pub fn failures(&self) -> u64
        ensures { result ≡ self.now.failures }
    {
        self.failures
    }
}

impl Sink for SliceSink<'_> {
    ghost failures = { λ s. s.failures };

    // After the same reference, so that who lent the slice knows what it holds.
    ghost writes = { λ s answer t. WritesSlice s.buffer.now s.len answer t.buffer.now t.len
        × (t.buffer.ghost_name ≡ s.buffer.ghost_name) };

    fn write(&mut self, piece: &[u8]) -> Result<usize, SinkFailed> {
        let count = piece.len().min(self.buffer.len() - self.len);
        if count == 0 && !piece.is_empty() {
            self.failures = self.failures.saturating_add(1);
            return Err(SinkFailed);
        }
        self.buffer[self.len..self.len + count].copy_from_slice(&piece[..count]);
        self.len += count;
        Ok(count)
    }
}

/// A source over a reader of std.
#[derive(Drop)]
pub struct ReaderSource<R> {
    pub reader: R,
    failures: u64,
}

impl<R> ReaderSource<R> {
    pub fn new(reader: R) -> ReaderSource<R>
        ensures reader { result.reader ≡ reader }
        ensures failures { result.failures ≡ 0 }
    {
        ReaderSource {
            reader,
            failures: 0,
        }
    }

    /// Returns how many reads have failed, at most `u64::MAX`. Tests ask for it; contracts speak of the same number.
    pub fn failures(&self) -> u64
        ensures { result ≡ self.now.failures }
    {
        self.failures
    }
}

impl<R: Read> Source for ReaderSource<R> {
    ghost failures = { λ s. s.failures };

    ghost reads = { λ s room answer t. ReadsKnown (R.remaining s.reader) room answer (R.remaining t.reader) };

    fn read(&mut self, piece: &mut [u8]) -> Result<usize, SourceFailed> {
        match self.reader.read(piece) {
            Ok(count) => Ok(count),
            Err(_) => {
                self.failures = self.failures.saturating_add(1);
                Err(SourceFailed)
            }
        }
    }
}

/// A sink over a writer of std.
#[derive(Drop)]
pub struct WriterSink<W> {
    pub writer: W,
    failures: u64,
}

impl<W> WriterSink<W> {
    pub fn new(writer: W) -> WriterSink<W>
        ensures writer { result.writer ≡ writer }
        ensures failures { result.failures ≡ 0 }
    {
        WriterSink {
            writer,
            failures: 0,
        }
    }

    /// Returns how many writes have failed, at most `u64::MAX`. Tests ask for it; contracts speak of the same number.
    pub fn failures(&self) -> u64
        ensures { result ≡ self.now.failures }
    {
        self.failures
    }
}

impl<W: Write> Sink for WriterSink<W> {
    ghost failures = { λ s. s.failures };

    ghost writes = { λ s answer t. WritesKnown (W.contents s.writer) answer (W.contents t.writer) };

    fn write(&mut self, piece: &[u8]) -> Result<usize, SinkFailed> {
        match self.writer.write(piece) {
            Ok(count) if count > 0 || piece.is_empty() => Ok(count),
            _ => {
                self.failures = self.failures.saturating_add(1);
                Err(SinkFailed)
            }
        }
    }
}
