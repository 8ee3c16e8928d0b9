//! Readers and writers of std that give and take a few bytes at a call, and count their calls. One that fails does so once:
//! asked again, it would continue.
use std::alloc::Global;
use std::io;
use std::io::{Read, Write};

/// Gives at most `most` bytes at a read, and fails at the read of number `failing`, from 0 on.
#[derive(Drop)]
pub struct Giver<'a> {
    rest: &'a [u8],
    most: usize,
    failing: Option<u64>,
    pub reads: u64,
}

impl<'a> Giver<'a> {
    pub fn new(rest: &'a [u8], most: usize, failing: Option<u64>) -> Giver<'a> {
        Giver {
            rest,
            most,
            failing,
            reads: 0,
        }
    }
}

impl Read for Giver<'_> {
    fn read(&mut self, piece: &mut [u8]) -> io::Result<usize> {
        let number = self.reads;
        self.reads = self.reads.saturating_add(1);
        if self.failing == Some(number) {
            return Err(io::Error::from(io::ErrorKind::Interrupted));
        }
        let most = piece.len().min(self.most);
        self.rest.read(&mut piece[..most])
    }
}

/// Gives the same byte for ever.
#[derive(Drop)]
pub struct Endless {
    byte: u8,
    pub reads: u64,
}

impl Endless {
    pub fn new(byte: u8) -> Endless {
        Endless { byte, reads: 0 }
    }
}

impl Read for Endless {
    fn read(&mut self, piece: &mut [u8]) -> io::Result<usize> {
        self.reads = self.reads.saturating_add(1);
        for byte in piece.iter_mut() {
            *byte = self.byte;
        }
        Ok(piece.len())
    }
}

/// How a write fails.
#[derive(Clone, Copy, Debug, PartialEq)]
pub enum Failing {
    Never,
    /// The write of this number, from 0 on, answers an error.
    Fails(u64),
    /// The write of this number answers that it took nothing.
    TakesNothing(u64),
}

/// Takes a byte at a write.
#[derive(Drop)]
pub struct Taker {
    pub taken: Vec<u8>,
    failing: Failing,
    pub writes: u64,
}

impl Taker {
    pub fn new(alloc: Global, failing: Failing) -> Taker {
        Taker {
            taken: Vec::new(alloc),
            failing,
            writes: 0,
        }
    }
}

impl Write for Taker {
    fn write(&mut self, piece: &[u8]) -> io::Result<usize> {
        let number = self.writes;
        self.writes = self.writes.saturating_add(1);
        if self.failing == Failing::Fails(number) {
            return Err(io::Error::from(io::ErrorKind::Interrupted));
        }
        if self.failing == Failing::TakesNothing(number) {
            return Ok(0);
        }
        self.taken.write(&piece[..piece.len().min(1)])
    }

    fn flush(&mut self) -> io::Result<()> {
        Ok(())
    }
}
