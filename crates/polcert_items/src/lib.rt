//! The items of a model's text, read token by token.
#![tactic(auto)]

mod ahead;
mod entry_reader;
mod item;
mod model_so_far;
mod preamble_lines;
mod signed_number;
mod start_reader;

pub use entry_reader::{EntryReader, EntryState, ListNumber, Numbers, Word};
pub use item::{AddError, EndError, FeedError, ItemContents, ItemReader};
pub use model_so_far::ModelSoFar;
pub use preamble_lines::{DiscountReader, ElementsReader, ValuesReader};
pub use signed_number::{Refusal, Sign};
pub use start_reader::{Chosen, FirstNumber, Selection, StartReader, StateOrNumber};
