//! What the words of the command line of `polcert_bound` ask for.
ghost use Rattle.std.specs.Prelude.{◌≡◌, List, false, IfOk, map, option_map};
ghost use Rattle.clap.specs.Words.{FailsBy, app_of, fault_of, found_of, rows_of, subcommand_of, subcommand_rows_of, with_subcommand};
ghost use Rattle.clap.specs.declared.builder.Command.TheViews.{out-Command};
ghost use Rattle.polcert_terminal.specs.BoundCommand.{bound_app, two_files, files_and_points, check_chosen_of, raise_chosen_of, bound_chosen, bound_chosen_of, bound_names_in, bound_names_view, bound_view_of};

mod help;

use crate::command_line::{HelpTexts, command_with_file, file, value_of};
use clap::{ArgMatches, Command, Error};
use std::alloc::{AllocError, Global};

/// The names of the files of a model and of vectors, one for each of its actions.
#[derive(Clone, Copy, Debug, PartialEq, Eq)]
pub struct BoundFiles<'a> {
    pub model: &'a str,
    pub vectors: &'a str,
}

/// What the words ask for.
#[derive(Clone, Copy, Debug, PartialEq, Eq)]
pub enum BoundChoice<'a> {
    /// Check that the vectors bound what every policy earns.
    Check(BoundFiles<'a>),
    /// Check that the vectors and the belief points of the file of this name do.
    CheckPoints {
        files: BoundFiles<'a>,
        points: &'a str,
    },
    /// Raise the vectors so that they pass the check.
    Raise(BoundFiles<'a>),
    /// Raise the belief points of the file of this name so that they pass the check with the raised vectors.
    RaisePoints {
        files: BoundFiles<'a>,
        points: &'a str,
    },
}

/// Returns what the words ask for, of which the first is the program's name, or `None` if the command or a file's name is missing.
///
/// # Errors
///
/// clap's, with its text: the words are no command line, or they ask for help or the version, or memory ran out.
pub fn choose_bound<'a>(
    alloc: Global,
    words: &'a [&'a str],
) -> Result<Option<BoundChoice<'a>>, Error>
    // The row of the subcommand and the values that clap's promise for simple commands gives for these words.
    ensures choice { IfOk result (λ choice. option_map bound_view_of choice ≡
        bound_chosen (subcommand_of bound_app (map (λ word. word.now) words.entry.now))) }

    // An error comes exactly if clap's promise has a fault for the words, and has one of its kinds, out of
    // memory aside.
    ensures faults { FailsBy (fault_of bound_app (map (λ word. word.now) words.entry.now)) result }
{
    let command = bound_command(alloc)?;
    let matches = command.try_get_matches_from(words)?;
    Ok(bound_choice_of(&matches))
}

/// Returns the program's command, with its subcommands.
fn bound_command<'a>(alloc: Global) -> Result<Command<'a>, AllocError>
    ensures { IfOk result (λ command. app_of command ≡ bound_app) }
{
    let command = Command::new(alloc, "polcert_bound")
        .version("1.0.0")
        .about(help::ABOUT)
        .after_help(help::DETAILS);
    let check = command_with_points(alloc, "check", help::CHECK)?;
    let command = command.subcommand(check)?;
    let raise = command_with_points(alloc, "raise", help::RAISE)?;
    command.subcommand(raise)
}

/// Returns a subcommand that takes the names of the files of a model, of vectors, and of points, which may be left out.
fn command_with_points<'a>(
    alloc: Global,
    name: &'a str,
    texts: HelpTexts<'a>,
) -> Result<Command<'a>, AllocError>
    ensures app { IfOk result (λ command. app_of command ≡ files_and_points name.entry.now) }
    ensures local { IfOk result (λ command. (out-Command command).has_globals ≡ false) }
{
    command_with_vectors(alloc, name, texts)?.arg(file(alloc, "POINTS"))
}

/// Returns a subcommand that takes the names of the files of a model and of vectors.
fn command_with_vectors<'a>(
    alloc: Global,
    name: &'a str,
    texts: HelpTexts<'a>,
) -> Result<Command<'a>, AllocError>
    ensures app { IfOk result (λ command. app_of command ≡ two_files name.entry.now) }
    ensures local { IfOk result (λ command. (out-Command command).has_globals ≡ false) }
{
    command_with_file(alloc, name, texts)?.arg(file(alloc, "ALPHA"))
}

/// Returns what the matches ask for. `None`: the command or a file's name is missing.
fn bound_choice_of<'a>(matches: &ArgMatches<'a>) -> Option<BoundChoice<'a>>
    ensures { option_map bound_view_of result ≡ bound_chosen (subcommand_rows_of matches.now) }
{
    match matches.subcommand() {
        None => None,
        Some((name, inner)) => bound_choice_by_name(name, inner),
    }
}

/// Returns what the subcommand of this name asks for with its matches. `None`: a file's name is missing.
fn bound_choice_by_name<'a>(name: &str, inner: &ArgMatches<'a>) -> Option<BoundChoice<'a>>
    ensures { option_map bound_view_of result ≡ bound_chosen_of name.now (rows_of (found_of inner.now)) }
{
    match name {
        "check" => Some(check_choice_of(bound_files_of(inner)?, value_of(inner, "POINTS"))),
        "raise" => Some(raise_choice_of(bound_files_of(inner)?, value_of(inner, "POINTS"))),
        _ => None,
    }
}

/// Returns the check of two files, or of three if points are given.
fn check_choice_of<'a>(files: BoundFiles<'a>, points: Option<&'a str>) -> BoundChoice<'a>
    ensures { bound_view_of result ≡
        check_chosen_of (option_map (λ name. name.now) points.entry) (bound_names_view files.entry) }
{
    match points {
        Some(points) => BoundChoice::CheckPoints { files, points },
        None => BoundChoice::Check(files),
    }
}

/// Returns the raise of two files, or of three if points are given.
fn raise_choice_of<'a>(files: BoundFiles<'a>, points: Option<&'a str>) -> BoundChoice<'a>
    ensures { bound_view_of result ≡
        raise_chosen_of (option_map (λ name. name.now) points.entry) (bound_names_view files.entry) }
{
    match points {
        Some(points) => BoundChoice::RaisePoints { files, points },
        None => BoundChoice::Raise(files),
    }
}

/// Returns the names of both files. `None`: one is missing.
fn bound_files_of<'a>(inner: &ArgMatches<'a>) -> Option<BoundFiles<'a>>
    ensures { option_map bound_names_view result ≡ bound_names_in (rows_of (found_of inner.now)) }
{
    Some(BoundFiles {
        model: value_of(inner, "FILE")?,
        vectors: value_of(inner, "ALPHA")?,
    })
}
