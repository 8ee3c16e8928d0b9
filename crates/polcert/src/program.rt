//! What `polcert` does, from the words of the command line to the exit status, over the runtime that it is given.
use polcert_answer::{Outcome, RunFault, Task, run_model, run_print, run_task, status_of_outcome};
use polcert_lines::{LoweredLine, RaisedLine, end_run};
use polcert_terminal::command_line::FileNames;
use polcert_terminal::polcert_command::{Choice, Job, choose};
use polcert_terminal::{
    CheckProgress, DONE, InputText, WatchedSource, borrow_words, open_text, print_clap_error,
    process_words, refuse_words,
};
use polcert_text::{ReaderSource, Source, WriterSink};
use std::io;
use std::rt::{Env, Files};
use std::time::Clock;

/// The hint for a user who started the program without words and sees nothing happen.
const WAITS_FOR_A_MODEL: &str =
    "Waiting for a model from the terminal (Ctrl-D ends it). polcert --help lists the commands.";

/// Which of the standard streams are terminals.
#[derive(Clone, Copy, Debug)]
pub struct Terminals {
    pub input: bool,
    pub error: bool,
}

/// Does what the command line asks for, and returns the exit status. If standard error is a terminal, whatever takes long
/// shows its progress there.
pub fn run_program<R: Env + Files + Clock + AllocGlobal + Input + Print + Eprint>(
    rt: &R,
    terminals: Terminals,
) -> u8 {
    let words = match process_words(rt) {
        Ok(words) => words,
        Err(status) => return status,
    };
    match borrow_words(rt, &words) {
        Ok(words) => run_words(rt, terminals, &words),
        Err(status) => status,
    }
}

/// Does what the words ask for, of which the first is the program's name.
fn run_words<'a, R: Files + Clock + AllocGlobal + Input + Print + Eprint>(
    rt: &R,
    terminals: Terminals,
    words: &'a [&'a str],
) -> u8 {
    match choose(rt.alloc(), words) {
        Ok(Some(choice)) => run_choice(rt, terminals, choice),
        Ok(None) => refuse_words(rt, "a file's name is missing: see polcert --help"),
        Err(error) => print_clap_error(rt, &error),
    }
}

/// Does what was chosen, or prints why that is not possible.
fn run_choice<R: Files + Clock + AllocGlobal + Input + Print + Eprint>(
    rt: &R,
    terminals: Terminals,
    choice: Choice<'_>,
) -> u8 {
    let done = match choice.job() {
        Job::Summarize(None) => summarize_input(rt, terminals),
        Job::Summarize(Some(name)) => summarize_file(rt, terminals.error, name),
        Job::Print(name) => print_file(rt, terminals.error, name),
        Job::Run(task, names) => run_task_on_files(rt, terminals.error, task, names),
    };
    end_run(rt, done)
}

/// Summarizes the model on standard input. If the model is to be typed, a hint says so, and no progress disturbs the typing.
fn summarize_input<R: Clock + AllocGlobal + Input + Print + Eprint>(
    rt: &R,
    terminals: Terminals,
) -> Result<u8, RunFault> {
    if terminals.input && terminals.error {
        let _ = rt.eprintln(WAITS_FOR_A_MODEL);
    }
    let shows_progress = terminals.error && !terminals.input;
    let reader = ReaderSource::new(rt.reader());
    let mut source = WatchedSource::new(reader, InputText::Model, rt, shows_progress);
    summarize(rt, &mut source)
}

/// Summarizes the model of a file.
fn summarize_file<R: Files + Clock + AllocGlobal + Print + Eprint>(
    rt: &R,
    shows_progress: bool,
    name: &str,
) -> Result<u8, RunFault> {
    let mut source = open_text(rt, shows_progress, InputText::Model, name)?;
    summarize(rt, &mut source)
}

/// Summarizes the model of a source.
fn summarize<S: Source, R: Clock + AllocGlobal + Print + Eprint>(
    rt: &R,
    source: &mut WatchedSource<'_, S, R>,
) -> Result<u8, RunFault> {
    let mut sink = WriterSink::new(io::writer(rt));
    let done = run_model(rt.alloc(), source, &mut sink);
    source.clear_progress();
    done?;
    Ok(DONE)
}

/// Prints the model of a file in full form.
fn print_file<R: Files + Clock + AllocGlobal + Print + Eprint>(
    rt: &R,
    shows_progress: bool,
    name: &str,
) -> Result<u8, RunFault> {
    let mut source = open_text(rt, shows_progress, InputText::Model, name)?;
    let mut sink = WriterSink::new(io::writer(rt));
    let done = run_print(rt.alloc(), &mut source, &mut sink);
    source.clear_progress();
    done?;
    Ok(DONE)
}

/// Does the task with three files, prints by how much vectors were lowered or raised, and returns the exit
/// status.
fn run_task_on_files<R: Files + Clock + AllocGlobal + Print + Eprint>(
    rt: &R,
    shows_progress: bool,
    task: Task,
    names: FileNames<'_>,
) -> Result<u8, RunFault> {
    let mut model = open_text(rt, shows_progress, InputText::Model, names.model)?;
    let mut graph = open_text(rt, shows_progress, InputText::Graph, names.graph)?;
    let mut vectors = open_text(rt, shows_progress, InputText::Vectors, names.vectors)?;
    let sink = &mut WriterSink::new(io::writer(rt));
    let progress = &mut CheckProgress::new(rt, shows_progress);
    let done = run_task(
        rt.alloc(),
        task,
        &mut model,
        &mut graph,
        &mut vectors,
        sink,
        progress,
    );
    model.clear_progress();
    graph.clear_progress();
    vectors.clear_progress();
    let outcome = done?;
    print_constant(rt, outcome);
    Ok(status_of_outcome(outcome))
}

/// Prints by how much vectors were lowered or raised.
fn print_constant<R: Eprint>(rt: &R, outcome: Outcome) {
    match outcome {
        Outcome::Checked(_) | Outcome::CheckedAbove(_) => {}
        Outcome::Lowered(by) => {
            let _ = rt.eprintln(LoweredLine(by));
        }
        Outcome::Raised(by) => {
            let _ = rt.eprintln(RaisedLine(by));
        }
    }
}
