//! The tests of what `polcert_robust_answer` makes public, in a crate of their own: so they are proved without proving that crate once
//! more.
#![tactic(auto)]

#[cfg(test)]
mod tests;
