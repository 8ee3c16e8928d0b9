//! Texts that the tests of several crates read.

/// The tiger problem, as the format's page has it.
pub const TIGER: &[u8] = b"discount: 0.95
values: reward
states: tiger-left tiger-right
actions: listen open-left open-right
observations: tiger-left tiger-right
T: listen
identity
T: open-left
uniform
T: open-right
uniform
O: listen
0.85 0.15
0.15 0.85
O: open-left
uniform
O: open-right
uniform
R: listen : * : * : * -1
R: open-left : tiger-left : * : * -100
R: open-left : tiger-right : * : * 10
R: open-right : tiger-left : * : * 10
R: open-right : tiger-right : * : * -100
";

/// TIGER in full form.
pub const TIGER_FORM: &[u8] = b"discount: 0.95
values: reward
states: tiger-left tiger-right
actions: listen open-left open-right
observations: tiger-left tiger-right
start: uniform
T: 0 : 0
1 0
T: 0 : 1
0 1
T: 1 : 0
uniform
T: 1 : 1
uniform
T: 2 : 0
uniform
T: 2 : 1
uniform
O: 0 : 0
0.85 0.15
O: 0 : 1
0.15 0.85
O: 1 : 0
uniform
O: 1 : 1
uniform
O: 2 : 0
uniform
O: 2 : 1
uniform
R: 0 : 0 : 0
-1 -1
R: 0 : 0 : 1
-1 -1
R: 0 : 1 : 0
-1 -1
R: 0 : 1 : 1
-1 -1
R: 1 : 0 : 0
-100 -100
R: 1 : 0 : 1
-100 -100
R: 1 : 1 : 0
10 10
R: 1 : 1 : 1
10 10
R: 2 : 0 : 0
10 10
R: 2 : 0 : 1
10 10
R: 2 : 1 : 0
-100 -100
R: 2 : 1 : 1
-100 -100
";

/// Two states that stay, seen through noise.
pub const FIRST: &[u8] = b"discount: 0.95
values: reward
states: 2
actions: 1
observations: 2
T: 0
1 0
0 1
O: 0
0.85 0.15
0.15 0.85
R: 0 : 0 : 0 : 0 -1
";

/// FIRST in full form.
pub const FIRST_FORM: &[u8] = b"discount: 0.95
values: reward
states: 2
actions: 1
observations: 2
start: uniform
T: 0 : 0
1 0
T: 0 : 1
0 1
O: 0 : 0
0.85 0.15
O: 0 : 1
0.15 0.85
R: 0 : 0 : 0
-1 0
";

/// Two states that keep to themselves, without rewards, at a discount of 1.
pub const TWO_STATES: &[u8] =
    b"discount: 1 values: reward states: 2 actions: 1 observations: 1 T: 0 identity O: 0 uniform";

/// One state that keeps to itself: a cost of 1 for each step, at a discount of one half.
pub const COST: &[u8] =
    b"discount: 0.5 values: cost states: 1 actions: 1 observations: 1 T: 0 identity O: 0 uniform R: 0 : 0 : 0 : 0 1";

/// Two observations, of which always the first comes.
pub const ALWAYS_FIRST: &[u8] =
    b"discount: 0.5 values: reward states: 1 actions: 1 observations: 2 T: 0 identity O: 0 1 0";

/// An MDP of two states, each of which leads to the other; the step from the first is worth 1.
pub const MDP: &[u8] =
    b"discount: 0.5 values: reward states: left right actions: 1 T: 0 0 1 1 0 R: 0 : left : right 1";

/// The same, with numbers for names.
pub const NUMBERED_MDP: &[u8] =
    b"discount: 0.5 values: reward states: 2 actions: 1 T: 0 0 1 1 0 R: 0 : 0 : 1 1";

/// A graph of one node that always takes the first of the actions of TIGER: it listens.
pub const LISTENING: &[u8] = b"0 0 0 0";
