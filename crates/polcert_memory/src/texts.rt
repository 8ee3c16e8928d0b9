//! Texts that the calls are made on, beside those that tests read as well.

/// The line that sums up TIGER.
pub const TIGER_LINE: &[u8] =
    b"pomdp: 2 states, 3 actions, 2 observations, discount 0.95, reward\n";

/// What listening is worth.
pub const BACKED: &[u8] = b"0 -20 -20";

/// A millionth more than that.
pub const TOO_MUCH: &[u8] = b"0 -19.999999 -19.999999";

/// A millionth less than that.
pub const TOO_LITTLE: &[u8] = b"0 -20.000001 -20.000001";

/// What listening is worth, as vectors are written.
pub const MOVED: &[u8] = b"0\n-20 -20\n\n";

/// The line that sums up MDP.
pub const MDP_LINE: &[u8] = b"mdp: 2 states, 1 actions, discount 0.5, reward\n";

/// MDP in full form.
pub const MDP_FULL: &[u8] =
    b"discount: 0.5\nvalues: reward\nstates: left right\nactions: 1\nstart: uniform\nT: 0 : 0\n0 1\nT: 0 : 1\n1 0\nR: 0 : 0\n0 1\n";

/// A node without a successor for the second observation.
pub const LACKING: &[u8] = b"0 0 0 -";

/// The value of 0 in its state.
pub const NOTHING: &[u8] = b"0 0";

/// Names, shares of the start, and entries.
pub const NAMED: &[u8] =
    b"discount: 1 values: reward states: a b actions: 1 observations: 1 start: 0.5 0.5 T: 0 identity O: 0 uniform";

/// One state, one observation, and a cost of 1 for each step, at a discount of one half.
pub const COST: &[u8] =
    b"discount: 0.5 values: cost states: 1 actions: 1 observations: 1 T: 0 identity O: 0 uniform R: * : * : * : * 1";
