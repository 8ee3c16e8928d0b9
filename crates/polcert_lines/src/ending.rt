//! How a run ends: its exit status, and the line that says why it stopped.
ghost use Rattle.std.specs.Prelude.{◌≡◌};
ghost use Rattle.polcert_answer.specs.Status.{run_status};

use crate::refusal::{BoundRefusalLine, RefusalLine};
use polcert_answer::{RunFault, status_of};

/// Returns the exit status of a run: the status that it answered, or that of its fault, after the line that says why it stopped.
pub fn end_run<R: Eprint>(rt: &R, done: Result<u8, RunFault>) -> u8
    ensures { result ≡ run_status done }
{
    if let Err(fault) = done {
        let _ = rt.eprintln(RefusalLine(fault));
    }
    status_of_run(done)
}

/// Returns the exit status of a run of `polcert_bound`, as `end_run` does, after its line, which names an action in place of a node.
pub fn end_bound_run<R: Eprint>(rt: &R, done: Result<u8, RunFault>) -> u8
    ensures { result ≡ run_status done }
{
    if let Err(fault) = done {
        let _ = rt.eprintln(BoundRefusalLine(fault));
    }
    status_of_run(done)
}

/// Returns the exit status of a run. Called once its line, if it has one, is printed.
fn status_of_run(done: Result<u8, RunFault>) -> u8
    ensures { result ≡ run_status done }
{
    match done {
        Ok(status) => status,
        Err(fault) => status_of(&fault),
    }
}
