//! The tests of what `polcert_text`, `polcert_cells` and `polcert_rules` make public, in a crate of their own: so they are proved
//! without proving those crates once more.
#![tactic(auto)]

#[cfg(test)]
mod compare;
#[cfg(test)]
mod entries;
#[cfg(test)]
mod kept;
#[cfg(test)]
mod tests;
#[cfg(test)]
mod text;
