//! The tests of what `polcert_answer`, `polcert_bound_answer` and `polcert_points_answer` make public, in a crate of their own: so they are
//! proved without proving the runs once more.
#![tactic(auto)]

#[cfg(test)]
mod compare;
#[cfg(test)]
mod tests;
