//! What the words of the command line of `polcert_robust` ask for.
ghost use Rattle.std.specs.Prelude.{◌≡◌, List, false, IfOk, map, option_map};
ghost use Rattle.clap.specs.Words.{FailsBy, app_of, fault_of, found_of, rows_of, rule_of, subcommand_of, subcommand_rows_of, with_subcommand};
ghost use Rattle.clap.specs.declared.builder.Command.TheViews.{out-Command};
ghost use Rattle.polcert_terminal.specs.Command.{bounds_above, names_view};
ghost use Rattle.polcert_terminal.specs.RobustCommand.{robust_app, robust_check_app, files_and_distances, value_rule, robust_check_chosen, robust_chosen};
ghost use Rattle.polcert_terminal.specs.RobustCommand.{robust_chosen_of, distances_in, distances_view, just_one, near_view, robust_view_of};

mod help;

use crate::command_line::{
    FileNames, HelpTexts, at_most, command_with_files, file_names_of, has_at_most, value_of,
};
use clap::{Arg, ArgAction, ArgMatches, Command, Error};
use std::alloc::{AllocError, Global};

/// The word of the distance of probabilities: a decimal, or a percentage of each probability.
#[derive(Clone, Copy, Debug, PartialEq, Eq)]
pub enum Nearness<'a> {
    Within(&'a str),
    Percent(&'a str),
}

/// The words of the distances of probabilities, and of rewards if it was given.
#[derive(Clone, Copy, Debug, PartialEq, Eq)]
pub struct DistanceWords<'a> {
    pub near: Nearness<'a>,
    pub rewards_within: Option<&'a str>,
}

/// What the words ask for.
#[derive(Clone, Copy, Debug, PartialEq, Eq)]
pub enum RobustChoice<'a> {
    /// Check that the vectors are a lower bound in every model near the text's.
    Check {
        files: FileNames<'a>,
        distances: DistanceWords<'a>,
    },
    /// Check that the vectors, rounded up, are an upper bound in every such model.
    CheckAbove {
        files: FileNames<'a>,
        distances: DistanceWords<'a>,
    },
    /// Lower the vectors so that they pass the check.
    Lower {
        files: FileNames<'a>,
        distances: DistanceWords<'a>,
    },
    /// Raise the vectors so that they pass the check from above.
    Raise {
        files: FileNames<'a>,
        distances: DistanceWords<'a>,
    },
}

/// Returns what the words ask for, of which the first is the program's name, or `None` if the command or a file's name is missing, or not
/// just one of `--within` and `--percent` was given.
///
/// # Errors
///
/// clap's, with its text: the words are no command line, or they ask for help or the version, or memory ran out.
pub fn choose_robust<'a>(
    alloc: Global,
    words: &'a [&'a str],
) -> Result<Option<RobustChoice<'a>>, Error>
    // The row of the subcommand and the values that clap's promise for simple commands gives for these words.
    ensures choice { IfOk result (λ choice. option_map robust_view_of choice ≡
        robust_chosen (subcommand_of robust_app (map (λ word. word.now) words.entry.now))) }

    // An error comes exactly if clap's promise has a fault for the words, and has one of its kinds, out of
    // memory aside.
    ensures faults { FailsBy (fault_of robust_app (map (λ word. word.now) words.entry.now)) result }
{
    let command = robust_command(alloc)?;
    let matches = command.try_get_matches_from(words)?;
    Ok(robust_choice_of(&matches))
}

/// Returns the program's command, with its subcommands.
fn robust_command<'a>(alloc: Global) -> Result<Command<'a>, AllocError>
    ensures { IfOk result (λ command. app_of command ≡ robust_app) }
{
    let command = Command::new(alloc, "polcert_robust")
        .version("1.0.0")
        .about(help::ABOUT)
        .after_help(help::DETAILS);
    let command = add_robust_check(alloc, command)?;
    let command = add_command_with_distances(alloc, command, "lower", help::LOWER)?;
    add_command_with_distances(alloc, command, "raise", help::RAISE)
}

/// Adds the subcommand that checks.
fn add_robust_check<'a>(alloc: Global, command: Command<'a>) -> Result<Command<'a>, AllocError>
    ensures { IfOk result (λ more.
        app_of more ≡ with_subcommand (app_of command.entry) robust_check_app.top) }
{
    let check = robust_check_command(alloc)?;
    command.subcommand(check)
}

/// Adds a subcommand that takes the names of the files of a model, a graph and vectors, and the distances.
fn add_command_with_distances<'a>(
    alloc: Global,
    command: Command<'a>,
    name: &'a str,
    texts: HelpTexts<'a>,
) -> Result<Command<'a>, AllocError>
    ensures { IfOk result (λ more.
        app_of more ≡ with_subcommand (app_of command.entry) (files_and_distances name.entry.now).top) }
{
    let added = command_with_distances(alloc, name, texts)?;
    command.subcommand(added)
}

/// Returns the subcommand that checks, with the distances and the flag of a check from above.
fn robust_check_command<'a>(alloc: Global) -> Result<Command<'a>, AllocError>
    ensures app { IfOk result (λ command. app_of command ≡ robust_check_app) }
    ensures local { IfOk result (λ command. (out-Command command).has_globals ≡ false) }
{
    command_with_distances(alloc, "check", help::CHECK)?.arg(at_most(alloc, help::AT_MOST))
}

/// Returns a subcommand that takes the names of the files of a model, a graph and vectors, and the distances.
fn command_with_distances<'a>(
    alloc: Global,
    name: &'a str,
    texts: HelpTexts<'a>,
) -> Result<Command<'a>, AllocError>
    ensures app { IfOk result (λ command. app_of command ≡ files_and_distances name.entry.now) }
    ensures local { IfOk result (λ command. (out-Command command).has_globals ≡ false) }
{
    command_with_files(alloc, name, texts)?
        .arg(value(alloc, "within", "X", help::WITHIN))?
        .arg(value(alloc, "percent", "P", help::PERCENT))?
        .arg(value(alloc, "rewards-within", "Y", help::REWARDS_WITHIN))
}

/// Returns an option of this name that takes a value.
fn value<'a>(alloc: Global, id: &'a str, value: &'a str, help: &'a str) -> Arg<'a>
    ensures rule { rule_of result ≡ value_rule id.entry.now }
    ensures local { result.global ≡ false }
{
    Arg::new(alloc, id)
        .long(id)
        .value_name(value)
        .action(ArgAction::Set)
        .help(help)
}

/// Returns what the matches ask for. `None`: the command, a file's name or a distance is missing.
fn robust_choice_of<'a>(matches: &ArgMatches<'a>) -> Option<RobustChoice<'a>>
    ensures { option_map robust_view_of result ≡ robust_chosen (subcommand_rows_of matches.now) }
{
    match matches.subcommand() {
        None => None,
        Some((name, inner)) => robust_choice_by_name(name, inner),
    }
}

/// Returns what the subcommand of this name asks for with its matches. `None`: a file's name or a distance is missing.
fn robust_choice_by_name<'a>(name: &str, inner: &ArgMatches<'a>) -> Option<RobustChoice<'a>>
    ensures { option_map robust_view_of result ≡ robust_chosen_of name.now (rows_of (found_of inner.now)) }
{
    match name {
        "check" => Some(robust_check_of(
            has_at_most(inner),
            file_names_of(inner)?,
            distances_of(inner)?,
        )),
        "lower" => Some(RobustChoice::Lower {
            files: file_names_of(inner)?,
            distances: distances_of(inner)?,
        }),
        "raise" => Some(RobustChoice::Raise {
            files: file_names_of(inner)?,
            distances: distances_of(inner)?,
        }),
        _ => None,
    }
}

/// Returns the check from below, or from above if `is_above`.
fn robust_check_of<'a>(
    is_above: bool,
    files: FileNames<'a>,
    distances: DistanceWords<'a>,
) -> RobustChoice<'a>
    ensures { robust_view_of result ≡
        robust_check_chosen is_above (names_view files.entry) (distances_view distances.entry) }
{
    if is_above {
        RobustChoice::CheckAbove { files, distances }
    } else {
        RobustChoice::Check { files, distances }
    }
}

/// Returns the word of the distance of probabilities. `None`: not just one of `--within` and `--percent` was given.
fn nearness_of<'a>(within: Option<&'a str>, percent: Option<&'a str>) -> Option<Nearness<'a>>
    ensures { option_map near_view result ≡ just_one (option_map (λ text. text.now) within.entry)
        (option_map (λ text. text.now) percent.entry) }
{
    match (within, percent) {
        (Some(text), None) => Some(Nearness::Within(text)),
        (None, Some(text)) => Some(Nearness::Percent(text)),
        (None, None) | (Some(_), Some(_)) => None,
    }
}

/// Returns the words of the distances. `None`: not just one distance of probabilities was given.
fn distances_of<'a>(inner: &ArgMatches<'a>) -> Option<DistanceWords<'a>>
    ensures { option_map distances_view result ≡ distances_in (rows_of (found_of inner.now)) }
{
    Some(DistanceWords {
        near: nearness_of(value_of(inner, "within"), value_of(inner, "percent"))?,
        rewards_within: value_of(inner, "rewards-within"),
    })
}
