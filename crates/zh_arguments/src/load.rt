//! The arguments of a load.

ghost use Rattle.std.specs.Prelude.{IfOk};
ghost use Rattle.clap.specs.Words.{found_of, rows_of};
ghost use Rattle.zh_arguments.specs.Commands.{AsksWith, rules_of};
ghost use Rattle.zh_arguments.specs.Rules.{IsCommand, command_taking};
ghost use Rattle.zh_arguments.specs.declared.commands.CommandName.TheVariants as names;

use crate::arguments::{Task, path_in, paths_in};
use crate::rules::{argument, flag, with_disk};
use crate::view::has_flag;
use clap::{ArgMatches, Command};
use std::alloc::{AllocError, Global};

/// A command that requires a set-up, a disk and a CSV file, and accepts the flag `--dry-run`.
pub(crate) fn load_command<'a>(
    alloc: Global,
    name: &'a str,
    about: &'a str,
) -> Result<Command<'a>, AllocError>
    ensures { IfOk result (λ command. IsCommand command (command_taking name.now (rules_of names.Load))) }
{
    with_disk(alloc, name, about)?
        .arg(argument(
            alloc,
            "csv",
            "FILE",
            "The CSV file, with a record for each return",
        ))?
        .arg(flag(
            alloc,
            "dry-run",
            "Say what a load would do and store nothing",
        ))
}

/// The task of a load, or of a dry run.
pub(crate) fn load_in<'a>(given: &ArgMatches<'a>) -> Task<'a>
    ensures { AsksWith names.Load (rows_of (found_of given.now)) result }
{
    let paths = paths_in(given);
    let csv = path_in(given, "csv");
    if has_flag(given, "dry-run") {
        Task::DryRun { paths, csv }
    } else {
        Task::Load { paths, csv }
    }
}
