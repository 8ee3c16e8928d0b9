//! Why vectors, one for each action, can't be raised.
use thiserror::Error;

/// Why no constant raises the vectors of actions so that the informed inequality holds, with their values in range.
#[derive(Clone, Copy, Debug, PartialEq, Eq, Error)]
pub enum InformedRaiseFault {
    /// U1: the discount is 1, so that raising doesn't help this first action and state where the inequality fails, by this amount.
    #[error("no constant helps action {action} at state {state}, where the next step comes to {amount} more")]
    NoConstant {
        action: usize,
        state: usize,
        amount: i128,
    },
    /// U2: raised by the least constant, a value is out of range.
    #[error("raised so far, a value is out of range")]
    OutOfRange,
}
