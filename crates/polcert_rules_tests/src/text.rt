//! Tests of what no clause says. The expected values come from the format's worked rows.
mod numbers;
mod printing;
mod reading;
mod streaming;
mod token_rows;
mod writing;
