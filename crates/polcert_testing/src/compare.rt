//! How a test compares what it found with what it wants.

/// Fails the test if the two differ, and prints both, and the row if it is given: `expect_eq!(rt; found, wanted)`,
/// `expect_eq!(rt; found, wanted, row)`. (Each crate of tests has the functions: they may end the program, as no library may.)
#[macro_export]
macro_rules! expect_eq {
    ($rt:expr; $found:expr, $wanted:expr $(,)?) => {
        crate::compare::expect_equal(&$rt, &$found, &$wanted)
    };
    ($rt:expr; $found:expr, $wanted:expr, $row:expr $(,)?) => {
        crate::compare::expect_equal_in(&$rt, &$row, &$found, &$wanted)
    };
}
