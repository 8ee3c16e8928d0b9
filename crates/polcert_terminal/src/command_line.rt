//! What the command lines of the programs share: help texts, arguments, values, and how a program ends whose command line is refused.
ghost use Rattle.std.specs.Prelude.{◌≡◌, ◌⊎◌, false, IfOk, option_map};
ghost use Rattle.clap.specs.Words.{app_of, first_of, found_of, kind_of, rows_of, rule_of};
ghost use Rattle.clap.specs.declared.builder.Command.TheViews.{out-Command};
ghost use Rattle.polcert_terminal.specs.Command.{at_most_rule, bounds_above, file_rule, names_in, names_view, one_file, three_files};
ghost use Rattle.polcert_terminal.specs.Statuses.{memory_status, refused_status, unwritten_status, words_status};

use clap::error::ErrorKind;
use clap::{Arg, ArgAction, ArgMatches, Command};
use std::alloc::{AllocError, Global};

/// What the help of a subcommand says.
#[derive(Clone, Copy)]
pub struct HelpTexts<'a> {
    /// One line, which the list of commands shows too.
    pub about: &'a str,
    /// The usage line. clap's own would have brackets around the files: the parser requires none of them.
    pub usage: &'a str,
    /// What follows the options: the files, notes and an example.
    pub details: &'a str,
}

/// The names of the files of a model, of a policy graph, and of its vectors.
#[derive(Clone, Copy, Debug, PartialEq, Eq)]
pub struct FileNames<'a> {
    pub model: &'a str,
    pub graph: &'a str,
    pub vectors: &'a str,
}

/// Returns an argument that takes the name of a file. The help's details describe it, so clap lists it nowhere.
pub fn file<'a>(alloc: Global, id: &'a str) -> Arg<'a>
    ensures rule { rule_of result ≡ file_rule id.entry.now }
    ensures local { result.global ≡ false }
{
    Arg::new(alloc, id).action(ArgAction::Set).hide(true)
}

/// Returns a subcommand that takes the name of a model's file.
pub fn command_with_file<'a>(
    alloc: Global,
    name: &'a str,
    texts: HelpTexts<'a>,
) -> Result<Command<'a>, AllocError>
    ensures app { IfOk result (λ command. app_of command ≡ one_file name.entry.now) }
    ensures local { IfOk result (λ command. (out-Command command).has_globals ≡ false) }
{
    Command::new(alloc, name)
        .about(texts.about)
        .override_usage(texts.usage)
        .after_help(texts.details)
        .arg(file(alloc, "FILE"))
}

/// Returns a subcommand that takes the names of the files of a model, a graph and vectors.
pub fn command_with_files<'a>(
    alloc: Global,
    name: &'a str,
    texts: HelpTexts<'a>,
) -> Result<Command<'a>, AllocError>
    ensures app { IfOk result (λ command. app_of command ≡ three_files name.entry.now) }
    ensures local { IfOk result (λ command. (out-Command command).has_globals ≡ false) }
{
    command_with_file(alloc, name, texts)?
        .arg(file(alloc, "PG"))?
        .arg(file(alloc, "ALPHA"))
}

/// Returns the flag `--at-most`, which asks for a check from above.
pub fn at_most<'a>(alloc: Global, help: &'a str) -> Arg<'a>
    ensures rule { rule_of result ≡ at_most_rule }
    ensures local { result.global ≡ false }
{
    Arg::new(alloc, "at-most")
        .long("at-most")
        .action(ArgAction::SetTrue)
        .help(help)
}

/// Returns the value that was given for an argument. `None`: none was.
pub fn value_of<'a>(inner: &ArgMatches<'a>, id: &str) -> Option<&'a str>
    ensures { option_map (λ text. text.now) result ≡ first_of id.now (rows_of (found_of inner.now)) }
{
    inner.get_str(id)
}

/// Returns whether `--at-most` was given, which asks for a check from above.
pub fn has_at_most(inner: &ArgMatches<'_>) -> bool
    ensures { result ≡ bounds_above (rows_of (found_of inner.now)) }
{
    match value_of(inner, "at-most") {
        Some("true") => true,
        _ => false,
    }
}

/// Returns the names of the three files. `None`: one is missing.
pub fn file_names_of<'a>(inner: &ArgMatches<'a>) -> Option<FileNames<'a>>
    ensures { option_map names_view result ≡ names_in (rows_of (found_of inner.now)) }
{
    Some(FileNames {
        model: value_of(inner, "FILE")?,
        graph: value_of(inner, "PG")?,
        vectors: value_of(inner, "ALPHA")?,
    })
}

/// The exit status if all went well and there is no verdict.
pub const DONE: u8 = 0;

/// The exit status of a command line that is refused.
const REFUSED: u8 = 2;

/// The exit status if help can't be written.
const CANNOT_WRITE: u8 = 3;

/// The exit status if there is no memory for the command line.
const MEMORY: u8 = 4;

/// Prints why the command line is refused, and returns the exit status.
pub fn refuse_words<R: Eprint>(rt: &R, line: &str) -> u8
    ensures { result ≡ refused_status }
{
    let _ = rt.eprintln(line);
    REFUSED
}

/// Prints that there is no memory for the command line, and returns the exit status.
pub fn refuse_for_memory<R: Eprint>(rt: &R) -> u8
    ensures { result ≡ memory_status }
{
    let _ = rt.eprintln("out of memory");
    MEMORY
}

/// Prints help or the version to standard output, or else why clap refuses the words to standard error, and returns the exit status.
pub fn print_clap_error<R: Print + Eprint>(rt: &R, error: &clap::Error) -> u8
    // That of the error's kind, or else the text can't be written.
    ensures { (result ≡ words_status (kind_of error.now)) ⊎ (result ≡ unwritten_status) }
{
    if error.kind() == ErrorKind::OutOfMemory {
        return refuse_for_memory(rt);
    }
    match error.print(rt) {
        Ok(()) => error.exit_code() as u8,
        Err(_) => {
            let _ = rt.eprintln("cannot write");
            CANNOT_WRITE
        }
    }
}
