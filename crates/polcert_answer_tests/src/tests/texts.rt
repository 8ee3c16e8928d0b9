//! Texts that several tests read.

/// A loss of 1 for each step, at a discount of 1.
pub const LOSS: &[u8] =
    b"discount: 1 values: reward states: 1 actions: 1 observations: 1 T: 0 identity O: 0 uniform R: 0 : 0 : 0 : 0 -1";

/// One state that keeps to itself: 1 for each step, at a discount of 1.
pub const GAIN: &[u8] =
    b"discount: 1 values: reward states: 1 actions: 1 observations: 1 T: 0 identity O: 0 uniform R: 0 : 0 : 0 : 0 1";

/// The greatest gain, at the greatest discount below 1.
pub const GREAT_GAIN: &[u8] =
    b"discount: 0.999999 values: reward states: 1 actions: 1 observations: 1 T: 0 identity O: 0 uniform R: 0 : 0 : 0 : 0 10000000";

/// Two observations, of which either may come.
pub const EITHER: &[u8] =
    b"discount: 0.5 values: reward states: 1 actions: 1 observations: 2 T: 0 identity O: 0 0.5 0.5";

/// The fast informed bound of the tiger: listening is worth 8.5 / 0.0975 = 87.179487.., and the doors -100 and 10 plus 0.95 of that.
pub const TIGER_BOUND: &[u8] = b"0 87.1795 87.1795 1 -17.179475 92.820525 2 92.820525 -17.179475";

/// Vectors that are too low: listening is worth less than -1 + 0.95 * 92.8115 = 87.170925.
pub const TIGER_LOW: &[u8] = b"0 87.17 87.17 1 -17.1885 92.8115 2 92.8115 -17.1885";

/// A coin that stays as it is, and that nobody sees: naming its side is worth 1.
pub const COIN: &[u8] =
    b"discount: 0.5 values: reward states: heads tails actions: 2 observations: 1 T: * identity O: * uniform R: 0 : heads : * : * 1 R: 1 : tails : * : * 1";

/// Who sees the coin earns 1 a step: 2 in all, or 1 if the first word is wrong.
pub const SEEN: &[u8] = b"0 2 1 1 1 2";

/// Nobody knows more than that both sides are as likely: a word earns 0.5, and 1 in all.
pub const EVEN: &[u8] = b"0 0.5 0.5 1 0 1 0";
