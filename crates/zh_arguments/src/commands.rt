//! The program's commands: what each accepts, and the task that it asks for.

ghost use Rattle.std.specs.Prelude.{◌≡◌, IfOk, MatchResult, Some};
ghost use Rattle.clap.specs.Words.{app_of, found_of, rows_of};
ghost use Rattle.zh_arguments.specs.Commands.{AsksWith, app_for, command_named, misuse_of, word_of, zhcount};
ghost use Rattle.zh_arguments.specs.Rules.{IsCommand};

use crate::arguments::{Misuse, Task, path_in, paths_in};
use crate::check::{check_command, check_paths_in};
use crate::load::{load_command, load_in};
use crate::rules::{bare, with_disk};
use crate::seats::{Layout, seats_command, seats_in};
use crate::table::{list_command, table_in};
use crate::view::{has_flag, status_command, view_in};
use crate::votes::{votes_asked, votes_command};
use clap::{ArgMatches, Command};
use std::alloc::{AllocError, Global};
use zh_count_tables::VotesOf;
use zh_tables::View;

/// A query about the count on a disk.
#[derive(Clone, Copy)]
pub enum Query {
    /// The returns, as CSV.
    Export,
    /// How many returns are in, or which are missing or implausible.
    Status(View),
    /// The votes so far, as CSV or as a table for people.
    Votes { of: VotesOf, is_table: bool },
    /// The seats.
    Seats { is_final: bool, layout: Layout },
}

/// The name of a command.
#[derive(Clone, Copy)]
pub(crate) enum CommandName {
    Format,
    Run,
    Load,
    Export,
    List,
    Status,
    Votes,
    Check,
    Seats,
}

/// All commands, in the order of the help.
const NAMES: [CommandName; 9] = [
    CommandName::Format,
    CommandName::Run,
    CommandName::Load,
    CommandName::Export,
    CommandName::List,
    CommandName::Status,
    CommandName::Votes,
    CommandName::Check,
    CommandName::Seats,
];

impl CommandName {
    /// The command's name as it is typed, and its description in the help.
    fn words<'a>(self) -> (&'a str, &'a str)
        ensures { result.0.now ≡ word_of self }
    {
        match self {
            CommandName::Format => ("format", "Make a new disk, without returns"),
            CommandName::Run => (
                "run",
                "Answer the lines of standard input and keep the count on the disk",
            ),
            CommandName::Load => ("load", "Load the returns of a CSV file as one batch"),
            CommandName::Export => (
                "export",
                "Write the returns held to standard output, as CSV",
            ),
            CommandName::List => (
                "list",
                "Write a table of the set-up to standard output, as CSV",
            ),
            CommandName::Status => ("status", "Write how many returns are in"),
            CommandName::Votes => ("votes", "Write the votes so far to standard output, as CSV"),
            CommandName::Check => (
                "check",
                "Check whether the seats of a published sheet follow from its votes",
            ),
            CommandName::Seats => ("seats", "Write the seats to standard output, as CSV"),
        }
    }

    /// The command with everything that it accepts.
    fn command<'a>(self, alloc: Global) -> Result<Command<'a>, AllocError>
        ensures { IfOk result (λ command. IsCommand command (app_for self)) }
    {
        let (name, about) = self.words();
        match self {
            CommandName::Format | CommandName::Run | CommandName::Export => with_disk(
                alloc, name, about,
            ),
            CommandName::Load => load_command(alloc, name, about),
            CommandName::List => list_command(alloc, name, about),
            CommandName::Status => status_command(alloc, name, about),
            CommandName::Votes => votes_command(alloc, name, about),
            CommandName::Check => check_command(alloc, name, about),
            CommandName::Seats => seats_command(alloc, name, about),
        }
    }

    /// The task that the command asks for with these arguments, or how it was misused.
    pub(crate) fn task<'a>(self, given: &ArgMatches<'a>) -> Result<Task<'a>, Misuse>
        ensures { MatchResult result (AsksWith self (rows_of (found_of given.now)))
            (λ misuse. misuse_of self (rows_of (found_of given.now)) ≡ Some misuse) }
    {
        let task = match self {
            CommandName::Format => Task::Format(paths_in(given)),
            CommandName::Run => Task::Run(paths_in(given)),
            CommandName::Load => load_in(given),
            CommandName::Export => Task::Show(paths_in(given), Query::Export),
            CommandName::List => Task::List {
                setup: path_in(given, "setup"),
                table: table_in(given).ok_or(Misuse::Table)?,
            },
            CommandName::Status => Task::Show(
                paths_in(given),
                Query::Status(view_in(given).ok_or(Misuse::Flags)?),
            ),
            CommandName::Votes => Task::Show(
                paths_in(given),
                Query::Votes {
                    of: votes_asked(given).ok_or(Misuse::Votes)?,
                    is_table: has_flag(given, "table"),
                },
            ),
            CommandName::Check => Task::Check(check_paths_in(given)),
            CommandName::Seats => seats_in(given)?,
        };
        Ok(task)
    }
}

/// The command with this name, if there is one.
pub(crate) fn command_named(text: &str) -> Option<CommandName>
    ensures { result ≡ command_named text.now }
{
    for name in NAMES {
        if text == name.words().0 {
            return Some(name);
        }
    }
    None
}

/// The arguments that the program accepts.
pub(crate) fn zhcount<'a>(alloc: Global) -> Result<Command<'a>, AllocError>
    ensures { IfOk result (λ command. app_of command ≡ zhcount) }
{
    let mut program = bare(alloc)?;
    for name in NAMES {
        program = program.subcommand(name.command(alloc)?)?;
    }
    Ok(program)
}
