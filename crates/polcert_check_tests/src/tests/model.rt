//! Tests of what no clause says, and no program shows. The expected answers come from the format's worked rows.
mod faults;
mod filled;
mod limits;
mod names;
mod numbers;
mod printing;
mod refusals;
mod rows;
mod sources;
