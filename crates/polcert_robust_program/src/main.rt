//! Checks that vectors bound what a policy graph earns in every model near the text's, and moves them so that they do.
#![tactic(auto)]

mod program;

use std::io::IsTerminal;
use std::process::ExitCode;

fn main(rt: HostRuntime) -> ExitCode {
    ExitCode::from(program::run_robust_program(&rt, rt.stderr().is_terminal()))
}
