//! Why a model's text is refused.
use polcert_cells::Table;
use polcert_text::{NumberFault, TokenFault};
use std::alloc::AllocError;
use thiserror::Error;

/// Why an item of a model's text is refused. The numbers are those that the program prints.
#[derive(Clone, Copy, Debug, PartialEq, Eq, Error)]
pub enum ItemFault {
    /// M1: the text's tokens end here, K1 to K3.
    #[error("{0}")]
    Token(TokenFault),
    /// M2: the number has no value here, N1 to N4.
    #[error("{0}")]
    Number(NumberFault),
    /// M3: a token stands before the first item word.
    #[error("a token before the first item")]
    BeforeFirstItem,
    /// M4: no form of the item continues like this.
    #[error("no form of an item goes on like this")]
    BadShape,
    /// M5: a line of the preamble, or the start item, stands for the second time.
    #[error("this line stands for the second time")]
    DuplicateLine,
    /// M6: a line of the preamble after a start item or an entry, or a start item after an entry.
    #[error("this line comes too late")]
    LateLine,
    /// M7: a line of the preamble is missing where the start item, an entry or the end stands.
    #[error("a line of the preamble is missing")]
    MissingLine,
    /// M8: no count from 1 to the most elements of its kind (10,000 states, 1,000 actions, 10,000 observations), and not that many
    /// names.
    #[error("neither a count of elements within the limit nor as many names")]
    BadCount,
    /// M9: the name stands for the second time in its item.
    #[error("this name stands for the second time")]
    DuplicateName,
    /// M10: nothing has this name.
    #[error("nothing has this name")]
    UnknownName,
    /// M11: no element has so large a number.
    #[error("no element has so large a number")]
    IndexOutOfRange,
    /// M12: too few or too many numbers.
    #[error("too few or too many numbers")]
    WrongNumberCount,
    /// M13: a probability below 0 or above 1.
    #[error("a probability below 0 or above 1")]
    ProbabilityRange,
    /// M15: a discount below 0 or above 1.
    #[error("a discount below 0 or above 1")]
    DiscountRange,
    /// M14: the word `reset`, whose meaning is left out here.
    #[error("the word `reset` is not supported")]
    Reset,
    /// M16: more than 5,000,000 pairs of a state and an observation; or, of a table of more than 16,777,216 cells, an entry of T or O
    /// with which entries cover more than as many with a weight above 0, or an entry of R after 1,048,576 others.
    #[error("too many cells")]
    TooManyCells,
    /// M18: the start probabilities do not sum to one.
    #[error("the start probabilities do not sum to one")]
    StartSum,
    /// M19: no state is left to start in.
    #[error("no state is left to start in")]
    StartEmpty,
    /// M20: the text continues at the limit of 4,294,967,296 bytes.
    #[error("the text is too long")]
    TextTooLong,
}

/// Why a model's text is refused, and where.
#[derive(Clone, Copy, Debug, PartialEq, Eq, Error)]
pub enum ModelFault {
    /// M1 to M16 and M18 to M20. Items are numbered from 1; what stands before the first item word is item 0, and
    /// the text's end is one more than the last. `place` is the offset of a byte of the text, or the text's length.
    #[error("{kind}, in item {item} at byte {place}")]
    Item {
        kind: ItemFault,
        item: u64,
        place: u64,
    },
    /// M17: the row of T at this action and start state, or of O at this action and end state, is the first that
    /// does not sum to one exactly.
    #[error("row {row} of {table} under action {action} does not sum to one")]
    RowSum {
        table: Table,
        action: usize,
        row: usize,
    },
    /// M21: a growth of memory was refused.
    #[error("out of memory")]
    Memory,
}

impl From<AllocError> for ModelFault {
    ghost use Rattle.std.specs.Prelude.{◌≡◌};
    ghost use Rattle.polcert_format.specs.declared.fault.ModelFault.TheVariants.{Memory};

    ghost from_gives = { λ _ fault. fault ≡ Memory };

    fn from(_e: AllocError) -> ModelFault {
        ModelFault::Memory
    }
}
