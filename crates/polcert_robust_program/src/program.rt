//! What `polcert_robust` does, from the words of the command line to the exit status, over the runtime that it is given.
use polcert_answer::{Outcome, RunFault, Task, status_of_outcome};
use polcert_lines::{LoweredLine, RaisedLine, end_run};
use polcert_robust_answer::{Within, distance_of, percent_of, reward_distance_of, run_near_task};
use polcert_terminal::command_line::FileNames;
use polcert_terminal::robust_command::{DistanceWords, Nearness, RobustChoice, choose_robust};
use polcert_terminal::{
    CheckProgress, InputText, borrow_words, open_text, print_clap_error, process_words,
    refuse_for_memory, refuse_words,
};
use polcert_text::WriterSink;
use std::alloc::AllocError;
use std::io;
use std::rt::{Env, Files};
use std::time::Clock;

/// Does what the command line asks for, and returns the exit status. If standard error is a terminal, whatever takes long shows its
/// progress there.
pub fn run_robust_program<R: Env + Files + Clock + AllocGlobal + Print + Eprint>(
    rt: &R,
    shows_progress: bool,
) -> u8 {
    let words = match process_words(rt) {
        Ok(words) => words,
        Err(status) => return status,
    };
    match borrow_words(rt, &words) {
        Ok(words) => run_robust_words(rt, shows_progress, &words),
        Err(status) => status,
    }
}

/// Does what the words ask for, of which the first is the program's name.
fn run_robust_words<'a, R: Files + Clock + AllocGlobal + Print + Eprint>(
    rt: &R,
    shows_progress: bool,
    words: &'a [&'a str],
) -> u8 {
    match choose_robust(rt.alloc(), words) {
        Ok(Some(choice)) => run_robust_choice(rt, shows_progress, choice),
        Ok(None) => refuse_words(
            rt,
            "the command, just one of --within and --percent, or a file's name is missing: see polcert_robust --help",
        ),
        Err(error) => print_clap_error(rt, &error),
    }
}

/// Does what was chosen, or prints why that is not possible.
fn run_robust_choice<R: Files + Clock + AllocGlobal + Print + Eprint>(
    rt: &R,
    shows_progress: bool,
    choice: RobustChoice<'_>,
) -> u8 {
    match choice {
        RobustChoice::Check { files, distances } => {
            run_near(rt, shows_progress, Task::Check, files, distances)
        }
        RobustChoice::CheckAbove { files, distances } => {
            run_near(rt, shows_progress, Task::CheckAbove, files, distances)
        }
        RobustChoice::Lower { files, distances } => {
            run_near(rt, shows_progress, Task::Lower, files, distances)
        }
        RobustChoice::Raise { files, distances } => {
            run_near(rt, shows_progress, Task::Raise, files, distances)
        }
    }
}

/// Does the task within these distances, or prints why they are none.
fn run_near<R: Files + Clock + AllocGlobal + Print + Eprint>(
    rt: &R,
    shows_progress: bool,
    task: Task,
    files: FileNames<'_>,
    distances: DistanceWords<'_>,
) -> u8 {
    match within_of(rt, distances) {
        Ok(within) => end_run(rt, run_on_files(rt, shows_progress, task, files, &within)),
        Err(status) => status,
    }
}

/// Returns the distances that the words are, or prints why they are none, and returns the exit status.
fn within_of<'a, R: AllocGlobal + Eprint>(
    rt: &R,
    distances: DistanceWords<'a>,
) -> Result<Within<'a>, u8> {
    let rewards_text = distances.rewards_within.unwrap_or("0").as_bytes();
    let Some(rewards_by) = reward_distance_of(rewards_text) else {
        return Err(refuse_words(
            rt,
            "--rewards-within takes a number from 0 to 1000000, with at most 6 decimals",
        ));
    };
    match distances.near {
        Nearness::Within(text) => match distance_of(rt.alloc(), text.as_bytes()) {
            Ok(Some(by)) => Ok(Within {
                text: text.as_bytes(),
                is_percent: false,
                by,
                percent: 0,
                rewards_text,
                rewards_by,
            }),
            Ok(None) => Err(refuse_words(
                rt,
                "--within takes a decimal from 0 to 1, with at most 12 decimals",
            )),
            Err(AllocError) => Err(refuse_for_memory(rt)),
        },
        Nearness::Percent(text) => match percent_of(text.as_bytes()) {
            Some(percent) => Ok(Within {
                text: text.as_bytes(),
                is_percent: true,
                by: 0,
                percent,
                rewards_text,
                rewards_by,
            }),
            None => Err(refuse_words(
                rt,
                "--percent takes a number from 0 to 100, with at most 6 decimals",
            )),
        },
    }
}

/// Does the task with three files, prints by how much vectors were lowered or raised, and returns the exit status.
fn run_on_files<R: Files + Clock + AllocGlobal + Print + Eprint>(
    rt: &R,
    shows_progress: bool,
    task: Task,
    names: FileNames<'_>,
    within: &Within<'_>,
) -> Result<u8, RunFault> {
    let mut model = open_text(rt, shows_progress, InputText::Model, names.model)?;
    let mut graph = open_text(rt, shows_progress, InputText::Graph, names.graph)?;
    let mut vectors = open_text(rt, shows_progress, InputText::Vectors, names.vectors)?;
    let sink = &mut WriterSink::new(io::writer(rt));
    let progress = &mut CheckProgress::new(rt, shows_progress);
    let done = run_near_task(
        rt.alloc(),
        task,
        within,
        &mut model,
        &mut graph,
        &mut vectors,
        sink,
        progress,
    );
    model.clear_progress();
    graph.clear_progress();
    vectors.clear_progress();
    let outcome = done?;
    print_robust_constant(rt, outcome);
    Ok(status_of_outcome(outcome))
}

/// Prints by how much vectors were lowered or raised.
fn print_robust_constant<R: Eprint>(rt: &R, outcome: Outcome) {
    match outcome {
        Outcome::Checked(_) | Outcome::CheckedAbove(_) => {}
        Outcome::Lowered(by) => {
            let _ = rt.eprintln(LoweredLine(by));
        }
        Outcome::Raised(by) => {
            let _ = rt.eprintln(RaisedLine(by));
        }
    }
}
