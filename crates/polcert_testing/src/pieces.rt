//! A source that gives a text in pieces.
use polcert_text::{Source, SourceFailed};

/// Gives bytes in pieces of at most `most`, and then fails or ends. It counts its reads.
#[derive(Drop)]
pub struct Pieces<'a> {
    rest: &'a [u8],
    most: usize,
    fails: bool,
    pub failures: u64,
    pub reads: u64,
}

impl<'a> Pieces<'a> {
    pub fn new(rest: &'a [u8], most: usize, fails: bool) -> Pieces<'a> {
        Pieces {
            rest,
            most,
            fails,
            failures: 0,
            reads: 0,
        }
    }
}

impl Source for Pieces<'_> {
    ghost failures = { λ s. s.failures };

    ghost reads = { λ s room answer t. Unit {0} };

    fn read(&mut self, piece: &mut [u8]) -> Result<usize, SourceFailed> {
        self.reads = self.reads.saturating_add(1);
        let count = self.rest.len().min(piece.len()).min(self.most);
        if count == 0 && self.fails {
            self.failures = self.failures.saturating_add(1);
            return Err(SourceFailed);
        }
        let (front, rest) = self.rest.split_at(count);
        piece[..count].copy_from_slice(front);
        self.rest = rest;
        Ok(count)
    }
}
