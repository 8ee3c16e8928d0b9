//! The tests of what `polcert_model`, `polcert_policy`, `polcert_check` and `polcert_optimum` make public, in a crate of their own: so
//! they are proved without proving those crates once more.
#![tactic(auto)]

#[cfg(test)]
mod compare;
#[cfg(test)]
mod tests;
