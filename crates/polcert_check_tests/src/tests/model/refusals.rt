//! Texts that are refused, from memory and from a source in pieces. (The rows of `tests/refused-models` are refused by the program.)
use super::sources::refusal_in_pieces;
use polcert_model::{ModelFault, read_model};
use polcert_testing::{RefusedModel, expect_eq, refused_models};
use std::alloc::Global;

/// Why the text is refused, if it is, read from memory alone.
pub fn refusal_in_memory(alloc: Global, text: &[u8]) -> Option<ModelFault> {
    read_model(alloc, text).err()
}

/// Why the text is refused, if it is: from memory, and the same from a source in pieces of several sizes.
fn refusal(alloc: Global, text: &[u8]) -> Option<ModelFault> {
    let fault = refusal_in_memory(alloc, text)?;
    for most in [1usize, 7, 4096] {
        if refusal_in_pieces(alloc, text, most) != Some(fault) {
            return None;
        }
    }
    Some(fault)
}

/// The first of these texts that is not refused for its reason, in its item and at its place.
fn first_wrong_refusal(alloc: Global, rows: &[RefusedModel]) -> Option<usize> {
    for row in 0..rows.len() {
        let (text, kind, item, place) = rows[row];
        if refusal(alloc, text) != Some(ModelFault::Item { kind, item, place }) {
            return Some(row);
        }
    }
    None
}

#[test]
fn refused_texts(rt: HostRuntime) {
    expect_eq!(rt; first_wrong_refusal(rt.alloc(), &refused_models()), None);
}
