//! Checks that vectors, one for each action of a model, bound what every policy earns, or raises them so that they do.
#![tactic(auto)]

mod program;

pub use polcert_terminal::bound_command::{BoundChoice, choose_bound};
use std::io::IsTerminal;
use std::process::ExitCode;

fn main(rt: HostRuntime) -> ExitCode {
    ExitCode::from(program::run_bound_program(&rt, rt.stderr().is_terminal()))
}
