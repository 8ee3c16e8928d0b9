//! Texts that come from a source in pieces.
use polcert_model::{ModelFault, read_model_from};
use polcert_text::{Source, SourceFailed, SourceFault};
use std::alloc::Global;

/// Gives bytes in pieces of at most `most` bytes, and knows whether it was read again after its end.
#[derive(Drop)]
struct Pieces<'a> {
    rest: &'a [u8],
    most: usize,
    ended: bool,
    read_again: bool,
}

impl Source for Pieces<'_> {
    ghost failures = { λ s. 0 };

    ghost reads = { λ s room answer t. Unit {0} };

    fn read(&mut self, piece: &mut [u8]) -> Result<usize, SourceFailed> {
        self.read_again = self.read_again || self.ended;
        let count = self.rest.len().min(piece.len()).min(self.most);
        self.ended = count == 0;
        let (front, rest) = self.rest.split_at(count);
        piece[..count].copy_from_slice(front);
        self.rest = rest;
        Ok(count)
    }
}

/// Why the text is refused, if it is, in pieces of this size, and where the source is not read again after its end.
pub fn refusal_in_pieces(alloc: Global, text: &[u8], most: usize) -> Option<ModelFault> {
    let mut source = Pieces {
        rest: text,
        most,
        ended: false,
        read_again: false,
    };
    match read_model_from(alloc, &mut source).err() {
        Some(SourceFault::Refused(fault)) if !source.read_again => Some(fault),
        _ => None,
    }
}
