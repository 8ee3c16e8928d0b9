//! The answer to three texts, and the runs that write it: a model, a policy graph and the graph's vectors
//! go in, and a verdict, a full form, or lowered or raised vectors come out.
#![tactic(auto)]

mod answer;
mod bound;
mod fault;
pub mod laws;
mod lines;
mod runs;
mod task;

pub use answer::{check_texts, check_texts_above};
pub use fault::{Fault, RunFault};
pub use lines::write_count;
pub use runs::{
    model_of_run, run_check, run_check_above, run_check_above_watched, run_check_watched,
    run_lower, run_lower_watched, run_model, run_print, run_raise, run_raise_watched,
    write_full_vectors,
};
pub use task::{
    Outcome, Task, run_task, status_of, status_of_above_verdict, status_of_outcome,
    status_of_verdict,
};
