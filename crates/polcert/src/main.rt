//! Reads a model, a policy graph and its value vectors, and checks exactly what the policy promises.
#![tactic(auto)]

mod program;

pub use polcert_answer::{
    Fault, Outcome, RunFault, Task, check_texts, check_texts_above, run_check, run_check_above,
    run_lower, run_model, run_print, run_raise, run_task, status_of,
};
pub use polcert_terminal::polcert_command::{Choice, choose};
use std::io::IsTerminal;
use std::process::ExitCode;

fn main(rt: HostRuntime) -> ExitCode {
    let terminals = program::Terminals {
        input: rt.stdin().is_terminal(),
        error: rt.stderr().is_terminal(),
    };
    ExitCode::from(program::run_program(&rt, terminals))
}
