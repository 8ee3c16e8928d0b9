//! Numerals, tokens and devices of the text files that polcert reads and writes.
#![tactic(auto)]

mod bytes;
mod front_numerals;
mod front_tokens;
pub mod laws;
mod number;
mod numeral_ends;
mod sink;
mod source;
mod stream_tokens;
mod tokens;

pub use front_tokens::{
    FrontDigits, FrontIndex, FrontNumber, FrontValue, front_colon, front_digits, front_index,
    front_name, front_number, front_token, front_value,
};
pub use number::{
    NumberFault, Rounding, ceil_of, floor_of, rounded_of, scaled_of, whole_number, write_scaled,
    write_scaled_then,
};
pub use sink::{BUFFER_SIZE, Buffer, BufferedSink, Sink, SinkFailed, write_all};
pub use source::{
    ReadFault, ReaderSource, SliceSink, SliceSource, Source, SourceFailed, SourceFault, WriterSink,
    read_all,
};
pub use stream_tokens::{StreamFault, StreamTokens};
pub use tokens::{TEXT_LIMIT, Token, TokenFault, TokenKind, Tokens};
