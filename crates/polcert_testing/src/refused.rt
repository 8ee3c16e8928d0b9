//! Texts of models that are refused, and where.
use polcert_format::ItemFault;
use polcert_text::{NumberFault, TokenFault};

/// A text, why it is refused, the item, and the place.
pub type RefusedModel = (&'static [u8], ItemFault, u64, u64);

const REFUSED_MODELS: [RefusedModel; 10] = [
    (b"", ItemFault::MissingLine, 1, 0),
    (b"hello discount: 1", ItemFault::BeforeFirstItem, 0, 0),
    (
        b"discount: 1 values: reward states: 0",
        ItemFault::BadCount,
        3,
        35,
    ),
    (b"discount: 2", ItemFault::DiscountRange, 1, 10),
    (b"discount: 1 discount: 1", ItemFault::DuplicateLine, 2, 12),
    (
        b"discount: 1.2.3",
        ItemFault::Token(TokenFault::Glued(10)),
        1,
        10,
    ),
    (
        b"discount: 0.1234567",
        ItemFault::Number(NumberFault::TooFine),
        1,
        10,
    ),
    (
        b"discount: 1e400",
        ItemFault::Number(NumberFault::TooLarge),
        1,
        10,
    ),
    (b"discount: 0e400", ItemFault::MissingLine, 2, 15),
    (
        b"discount: 1 values: reward states: 2 actions: 1 observations: 1 T: 0 reset",
        ItemFault::Reset,
        6,
        69,
    ),
];

/// Texts that are refused, at faults of many kinds. (A function, so that a test is proved without the table.)
pub fn refused_models() -> [RefusedModel; 10] {
    REFUSED_MODELS
}
