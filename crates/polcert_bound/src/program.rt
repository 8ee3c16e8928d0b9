//! What `polcert_bound` does, from the words of the command line to the exit status, over the runtime that it is given.
use polcert_answer::RunFault;
use polcert_bound_answer::{run_bound_check, run_bound_raise, status_of_bound_verdict};
use polcert_lines::{RaisedLine, end_bound_run};
use polcert_points_answer::{run_point_check, run_point_raise, status_of_point_verdict};
use polcert_terminal::bound_command::{BoundChoice, BoundFiles, choose_bound};
use polcert_terminal::{
    CheckProgress, DONE, InputText, borrow_words, open_text, print_clap_error, process_words,
    refuse_words,
};
use polcert_text::WriterSink;
use std::io;
use std::rt::{Env, Files};
use std::time::Clock;

/// Does what the command line asks for, and returns the exit status. If standard error is a terminal, whatever takes long shows its
/// progress there.
pub fn run_bound_program<R: Env + Files + Clock + AllocGlobal + Print + Eprint>(
    rt: &R,
    shows_progress: bool,
) -> u8 {
    let words = match process_words(rt) {
        Ok(words) => words,
        Err(status) => return status,
    };
    match borrow_words(rt, &words) {
        Ok(words) => run_bound_words(rt, shows_progress, &words),
        Err(status) => status,
    }
}

/// Does what the words ask for, of which the first is the program's name.
fn run_bound_words<'a, R: Files + Clock + AllocGlobal + Print + Eprint>(
    rt: &R,
    shows_progress: bool,
    words: &'a [&'a str],
) -> u8 {
    match choose_bound(rt.alloc(), words) {
        Ok(Some(choice)) => run_bound_choice(rt, shows_progress, choice),
        Ok(None) => refuse_words(
            rt,
            "the command or a file's name is missing: see polcert_bound --help",
        ),
        Err(error) => print_clap_error(rt, &error),
    }
}

/// Does what was chosen, or prints why that is not possible.
fn run_bound_choice<R: Files + Clock + AllocGlobal + Print + Eprint>(
    rt: &R,
    shows_progress: bool,
    choice: BoundChoice<'_>,
) -> u8 {
    let done = match choice {
        BoundChoice::Check(names) => check_files(rt, shows_progress, names),
        BoundChoice::CheckPoints { files, points } => {
            check_files_with_points(rt, shows_progress, files, points)
        }
        BoundChoice::Raise(names) => raise_files(rt, shows_progress, names),
        BoundChoice::RaisePoints { files, points } => {
            raise_files_with_points(rt, shows_progress, files, points)
        }
    };
    end_bound_run(rt, done)
}

/// Checks the vectors of two files, and returns the exit status.
fn check_files<R: Files + Clock + AllocGlobal + Print + Eprint>(
    rt: &R,
    shows_progress: bool,
    names: BoundFiles<'_>,
) -> Result<u8, RunFault> {
    let mut model = open_text(rt, shows_progress, InputText::Model, names.model)?;
    let mut vectors = open_text(rt, shows_progress, InputText::Vectors, names.vectors)?;
    let mut sink = WriterSink::new(io::writer(rt));
    let mut progress = CheckProgress::of_actions(rt, shows_progress);
    let done = run_bound_check(
        rt.alloc(),
        &mut model,
        &mut vectors,
        &mut sink,
        &mut progress,
    );
    model.clear_progress();
    vectors.clear_progress();
    Ok(status_of_bound_verdict(done?))
}

/// Checks the vectors and the points of three files, and returns the exit status.
fn check_files_with_points<R: Files + Clock + AllocGlobal + Print + Eprint>(
    rt: &R,
    shows_progress: bool,
    names: BoundFiles<'_>,
    points: &str,
) -> Result<u8, RunFault> {
    let mut model = open_text(rt, shows_progress, InputText::Model, names.model)?;
    let mut vectors = open_text(rt, shows_progress, InputText::Vectors, names.vectors)?;
    let mut points = open_text(rt, shows_progress, InputText::Points, points)?;
    let mut sink = WriterSink::new(io::writer(rt));
    let mut progress = CheckProgress::of_points(rt, shows_progress);
    let done = run_point_check(
        rt.alloc(),
        &mut model,
        &mut vectors,
        &mut points,
        &mut sink,
        &mut progress,
    );
    model.clear_progress();
    vectors.clear_progress();
    points.clear_progress();
    Ok(status_of_point_verdict(done?))
}

/// Raises the vectors of two files, prints by how much, and returns the exit status.
fn raise_files<R: Files + Clock + AllocGlobal + Print + Eprint>(
    rt: &R,
    shows_progress: bool,
    names: BoundFiles<'_>,
) -> Result<u8, RunFault> {
    let mut model = open_text(rt, shows_progress, InputText::Model, names.model)?;
    let mut vectors = open_text(rt, shows_progress, InputText::Vectors, names.vectors)?;
    let mut sink = WriterSink::new(io::writer(rt));
    let done = run_bound_raise(rt.alloc(), &mut model, &mut vectors, &mut sink);
    model.clear_progress();
    vectors.clear_progress();
    let by = done?;
    let _ = rt.eprintln(RaisedLine(by));
    Ok(DONE)
}

/// Raises the points of three files, prints by how much, and returns the exit status.
fn raise_files_with_points<R: Files + Clock + AllocGlobal + Print + Eprint>(
    rt: &R,
    shows_progress: bool,
    names: BoundFiles<'_>,
    points: &str,
) -> Result<u8, RunFault> {
    let mut model = open_text(rt, shows_progress, InputText::Model, names.model)?;
    let mut vectors = open_text(rt, shows_progress, InputText::Vectors, names.vectors)?;
    let mut points = open_text(rt, shows_progress, InputText::Points, points)?;
    let mut sink = WriterSink::new(io::writer(rt));
    let done = run_point_raise(rt.alloc(), &mut model, &mut vectors, &mut points, &mut sink);
    model.clear_progress();
    vectors.clear_progress();
    points.clear_progress();
    let by = done?;
    let _ = rt.eprintln(RaisedLine(by as i64));
    Ok(DONE)
}
