//! The program's arguments.
ghost use Rattle.std.specs.Prelude.{◌≡◌, IfOk, MatchResult, Some, codes, if◌then◌else◌, map, option_map};
ghost use Rattle.std.specs.String.{string_bytes};
ghost use Rattle.clap.specs.Words.{found_of, kind_of, rows_of};
ghost use Rattle.zh_arguments.specs.Arguments.{Names, ReadsArguments, kind_by, misuse_in};
ghost use Rattle.zh_arguments.specs.Commands.{ArePaths};
ghost use Rattle.zh_arguments.specs.Table.{path_in};
ghost use Rattle.zh_arguments.specs.View.{has_flag};

use crate::check::CheckPaths;
use crate::commands::{Query, command_named, zhcount};
use crate::seats::Layout;
use crate::view::has_flag;
use clap::error::ErrorKind;
use clap::{ArgMatches, Error};
use std::alloc::{AllocError, Global};
use zh_tables::Table;

/// The paths of a task's set-up and disk.
#[derive(Clone, Copy)]
pub struct Paths<'a> {
    /// The path of the set-up, a TOML file.
    pub setup: &'a str,
    /// The path of the disk.
    pub disk: &'a str,
}

/// What the program is asked to do.
#[derive(Clone, Copy)]
pub enum Task<'a> {
    /// Answer the lines of the input with the rehearsal's set-up, on a disk in memory.
    Rehearse,
    /// Format a disk that is blank or missing.
    Format(Paths<'a>),
    /// Answer the lines of the input and keep the count on a disk.
    Run(Paths<'a>),
    /// Load the returns of a CSV file as one batch.
    Load {
        paths: Paths<'a>,
        csv: &'a str,
    },
    /// Report what a load of a CSV file would do, and store nothing.
    DryRun {
        paths: Paths<'a>,
        csv: &'a str,
    },
    /// Write the answer to a query about the count on a disk.
    Show(Paths<'a>, Query),
    /// Write a table of the set-up as CSV.
    List {
        setup: &'a str,
        table: Table,
    },
    /// Check a published sheet.
    Check(CheckPaths<'a>),
    /// Check a published sheet and write its seats.
    SheetSeats {
        setup: &'a str,
        sheet: &'a str,
        layout: Layout,
    },
    /// Report the program's version.
    Version,
}

/// The value given after `--name`, a path or not, or an empty text if there is none. clap refuses a command that lacks a
/// required value.
pub(crate) fn path_in<'a>(given: &ArgMatches<'a>, name: &str) -> &'a str
    ensures { result.now ≡ path_in name.now (rows_of (found_of given.now)) }
{
    given.get_str(name).unwrap_or("")
}

/// The given paths of a set-up and a disk. clap refuses a command that lacks a required one. `seats`, for which the disk is
/// optional, calls this only if a disk was given.
pub(crate) fn paths_in<'a>(given: &ArgMatches<'a>) -> Paths<'a>
    ensures { ArePaths (rows_of (found_of given.now)) result }
{
    Paths {
        setup: path_in(given, "setup"),
        disk: path_in(given, "disk"),
    }
}

/// The task that a command asks for, or how the command was misused. Without a command it is the rehearsal.
fn task_for<'a>(command: Option<(&'a str, &ArgMatches<'a>)>) -> Result<Task<'a>, Misuse>
    ensures { MatchResult result
        (Names (option_map (λ given. (given.0.now, rows_of (found_of given.1.now))) command.entry))
        (λ misuse. misuse_in (option_map (λ given. (given.0.now, rows_of (found_of given.1.now))) command.entry) ≡ Some misuse) }
{
    let Some((name, given)) = command else {
        return Ok(Task::Rehearse);
    };
    match command_named(name) {
        Some(command) => command.task(given),
        None => Ok(Task::Rehearse),
    }
}

/// The task, or the version if its flag was given as well.
fn or_version<'a>(task: Task<'a>, given: &ArgMatches<'_>) -> Task<'a>
    ensures { result ≡ (if has_flag (codes "version") (rows_of (found_of given.now)) then Task.Version else task.entry) }
{
    if has_flag(given, "version") {
        Task::Version
    } else {
        task
    }
}

/// The kind of the refusal of a misused command, and its text.
fn words_of(misuse: Misuse) -> (ErrorKind, &'static str)
    ensures { result.0 ≡ kind_by misuse }
{
    match misuse {
        Misuse::Table => (
            ErrorKind::InvalidValue,
            "'--of' takes constituencies, municipalities, groups, lists, problems or returns (--municipality, --constituency)",
        ),
        Misuse::Flags => (
            ErrorKind::ArgumentConflict,
            "'status' takes one of '--constituencies', '--missing' and '--implausible'",
        ),
        Misuse::Source => (
            ErrorKind::ArgumentConflict,
            "'seats' takes '--disk', with '--final' or without, or else '--sheet'",
        ),
        Misuse::Votes => (ErrorKind::InvalidValue, "'--of' takes lists or groups"),
        Misuse::Layout => (
            ErrorKind::InvalidValue,
            "'--of' takes lists, groups or constituencies",
        ),
    }
}

/// The refusal of a misused command.
fn refusal(alloc: Global, misuse: Misuse) -> Result<Error, AllocError>
    ensures { IfOk result (λ error. kind_of error ≡ kind_by misuse) }
{
    let (kind, text) = words_of(misuse);
    zhcount(alloc)?.error(kind, text)
}

/// What the arguments ask for. They do not include the program's own name.
///
/// The error is refused memory, or a refusal of the arguments together with its text. A call for help is refused, too.
pub fn read_arguments<'a>(alloc: Global, arguments: &'a [String]) -> Result<Task<'a>, Error>
    ensures { ReadsArguments (map string_bytes arguments.now) result }
{
    let matches = zhcount(alloc)?.try_get_matches_from(arguments)?;
    match task_for(matches.subcommand()) {
        Ok(task) => Ok(or_version(task, &matches)),
        Err(misuse) => Err(refusal(alloc, misuse)?),
    }
}

/// How a command that clap accepts was misused.
#[derive(Clone, Copy)]
pub(crate) enum Misuse {
    /// The `--of` of `list` is not the name of a table. Or `--municipality` or `--constituency` is not a number below 2^32
    /// (without a sign or a leading zero), is given for a table other than the returns, or is given together with the other.
    Table,
    /// `status` has more than one of its three flags.
    Flags,
    /// `seats` has both `--disk` and `--sheet`, neither of them, or `--final` with `--sheet`.
    Source,
    /// The `--of` of `votes` is neither `lists` nor `groups`.
    Votes,
    /// The `--of` of `seats` is not `lists`, `groups` or `constituencies`.
    Layout,
}
