//! What `expect_eq!` calls.
use std::fmt::Debug;
use std::process::Abort;

/// Fails the test if the two differ, and prints both. A call costs the prover about 0.3 seconds, `assert_eq!` itself 1.1 to 3.2.
pub(crate) fn expect_equal<T: PartialEq + Debug>(rt: &impl Abort, found: &T, wanted: &T) {
    assert_eq!(rt; *found, *wanted);
}

/// The same of a row of a table, which it prints too.
pub(crate) fn expect_equal_in<R: Debug, T: PartialEq + Debug>(
    rt: &impl Abort,
    row: &R,
    found: &T,
    wanted: &T,
) {
    assert_eq!(rt; *found, *wanted, "{row:?}");
}
