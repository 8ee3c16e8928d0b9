//! What the words of the command line of `polcert` ask for.
ghost use Rattle.std.specs.Prelude.{◌≡◌, List, false, IfOk, map, option_map};
ghost use Rattle.clap.specs.Words.{FailsBy, app_of, fault_of, found_of, rows_of, subcommand_of, subcommand_rows_of, with_subcommand};
ghost use Rattle.clap.specs.declared.builder.Command.TheViews.{out-Command};
ghost use Rattle.polcert_terminal.specs.Command.{one_file, three_files};
ghost use Rattle.polcert_terminal.specs.PolcertCommand.{polcert_app, check_app, chosen, chosen_of, view_of, job_of, job_view};

mod help;

use crate::command_line::{
    FileNames, HelpTexts, at_most, command_with_file, command_with_files, file_names_of,
    has_at_most, value_of,
};
use clap::{ArgMatches, Command, Error};
use polcert_answer::Task;
use std::alloc::{AllocError, Global};

/// What the words ask for.
#[derive(Clone, Copy, Debug, PartialEq, Eq)]
pub enum Choice<'a> {
    /// Summarize the model of this file, or of standard input.
    Model(Option<&'a str>),
    /// Print the model of this file in full form.
    Print(&'a str),
    /// Check that the vectors are a lower bound on what the graph earns.
    Check(FileNames<'a>),
    /// Check that the vectors, rounded up, are an upper bound.
    CheckAbove(FileNames<'a>),
    /// Lower the vectors so that they pass the check.
    Lower(FileNames<'a>),
    /// Raise the vectors so that they pass the check from above.
    Raise(FileNames<'a>),
}

/// What a choice has the program do.
#[derive(Clone, Copy)]
pub enum Job<'a> {
    /// Summarize the model of this file, or of standard input.
    Summarize(Option<&'a str>),
    /// Print the model of this file in full form.
    Print(&'a str),
    /// Do this task with the files of a model, a graph and vectors.
    Run(Task, FileNames<'a>),
}

impl<'a> Choice<'a> {
    /// Returns what the program does for this choice.
    pub fn job(self) -> Job<'a>
        ensures { job_view result ≡ job_of (view_of self.entry) }
    {
        match self {
            Choice::Model(name) => Job::Summarize(name),
            Choice::Print(name) => Job::Print(name),
            Choice::Check(names) => Job::Run(Task::Check, names),
            Choice::CheckAbove(names) => Job::Run(Task::CheckAbove, names),
            Choice::Lower(names) => Job::Run(Task::Lower, names),
            Choice::Raise(names) => Job::Run(Task::Raise, names),
        }
    }
}

/// Returns what the words ask for, of which the first is the program's name, or `None` if a file's name is missing.
///
/// # Errors
///
/// clap's, with its text: the words are no command line, or they ask for help or the version, or memory ran out.
pub fn choose<'a>(alloc: Global, words: &'a [&'a str]) -> Result<Option<Choice<'a>>, Error>
    // The row of the subcommand and the values that clap's promise for simple commands gives for these words.
    ensures choice { IfOk result (λ choice. option_map view_of choice ≡
        chosen (subcommand_of polcert_app (map (λ word. word.now) words.entry.now))) }

    // An error comes exactly if clap's promise has a fault for the words, and has one of its kinds, out of
    // memory aside.
    ensures faults { FailsBy (fault_of polcert_app (map (λ word. word.now) words.entry.now)) result }
{
    let command = polcert_command(alloc)?;
    let matches = command.try_get_matches_from(words)?;
    Ok(choice_of(&matches))
}

/// Returns the program's command, with its subcommands.
fn polcert_command<'a>(alloc: Global) -> Result<Command<'a>, AllocError>
    ensures { IfOk result (λ command. app_of command ≡ polcert_app) }
{
    let command = Command::new(alloc, "polcert")
        .version("1.0.0")
        .about(help::ABOUT)
        .after_help(help::DETAILS);
    let command = add_command_with_file(alloc, command, "model", help::MODEL)?;
    let command = add_command_with_file(alloc, command, "print", help::PRINT)?;
    let command = add_check_command(alloc, command)?;
    let command = add_command_with_files(alloc, command, "lower", help::LOWER)?;
    add_command_with_files(alloc, command, "raise", help::RAISE)
}

/// Adds the subcommand that checks.
fn add_check_command<'a>(alloc: Global, command: Command<'a>) -> Result<Command<'a>, AllocError>
    ensures { IfOk result (λ more. app_of more ≡ with_subcommand (app_of command.entry) check_app.top) }
{
    let check = check_command(alloc)?;
    command.subcommand(check)
}

/// Adds a subcommand that takes the name of a model's file.
fn add_command_with_file<'a>(
    alloc: Global,
    command: Command<'a>,
    name: &'a str,
    texts: HelpTexts<'a>,
) -> Result<Command<'a>, AllocError>
    ensures { IfOk result (λ more.
        app_of more ≡ with_subcommand (app_of command.entry) (one_file name.entry.now).top) }
{
    let added = command_with_file(alloc, name, texts)?;
    command.subcommand(added)
}

/// Adds a subcommand that takes the names of the files of a model, a graph and vectors.
fn add_command_with_files<'a>(
    alloc: Global,
    command: Command<'a>,
    name: &'a str,
    texts: HelpTexts<'a>,
) -> Result<Command<'a>, AllocError>
    ensures { IfOk result (λ more.
        app_of more ≡ with_subcommand (app_of command.entry) (three_files name.entry.now).top) }
{
    let added = command_with_files(alloc, name, texts)?;
    command.subcommand(added)
}

/// Returns the subcommand that checks, with the flag of a check from above.
fn check_command<'a>(alloc: Global) -> Result<Command<'a>, AllocError>
    ensures app { IfOk result (λ command. app_of command ≡ check_app) }
    ensures local { IfOk result (λ command. (out-Command command).has_globals ≡ false) }
{
    command_with_files(alloc, "check", help::CHECK)?.arg(at_most(alloc, help::AT_MOST))
}

/// Returns what the matches ask for. `None`: a file's name is missing.
fn choice_of<'a>(matches: &ArgMatches<'a>) -> Option<Choice<'a>>
    ensures { option_map view_of result ≡ chosen (subcommand_rows_of matches.now) }
{
    match matches.subcommand() {
        None => Some(Choice::Model(None)),
        Some((name, inner)) => choice_by_name(name, inner),
    }
}

/// Returns what the subcommand of this name asks for with its matches. `None`: a file's name is missing.
fn choice_by_name<'a>(name: &str, inner: &ArgMatches<'a>) -> Option<Choice<'a>>
    ensures { option_map view_of result ≡ chosen_of name.now (rows_of (found_of inner.now)) }
{
    match name {
        "model" => Some(Choice::Model(Some(value_of(inner, "FILE")?))),
        "print" => Some(Choice::Print(value_of(inner, "FILE")?)),
        "check" if has_at_most(inner) => Some(Choice::CheckAbove(file_names_of(inner)?)),
        "check" => Some(Choice::Check(file_names_of(inner)?)),
        "lower" => Some(Choice::Lower(file_names_of(inner)?)),
        "raise" => Some(Choice::Raise(file_names_of(inner)?)),
        _ => None,
    }
}
