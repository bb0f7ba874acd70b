//! The arguments of a check.

ghost use Rattle.std.specs.Prelude.{IfOk};
ghost use Rattle.clap.specs.Words.{found_of, rows_of};
ghost use Rattle.zh_arguments.specs.Commands.{AreCheckPaths, rules_of};
ghost use Rattle.zh_arguments.specs.Rules.{IsCommand, command_taking};
ghost use Rattle.zh_arguments.specs.declared.commands.CommandName.TheVariants as names;

use crate::arguments::path_in;
use crate::rules::{argument, option, with_setup};
use clap::{ArgMatches, Command};
use std::alloc::{AllocError, Global};

/// The paths of the set-up, of a published sheet, and of the export with whose sums its votes are compared, if there is
/// one.
#[derive(Clone, Copy)]
pub struct CheckPaths<'a> {
    pub setup: &'a str,
    pub sheet: &'a str,
    pub held: Option<&'a str>,
}

/// A command that requires a set-up and a sheet, and accepts an export.
pub(crate) fn check_command<'a>(
    alloc: Global,
    name: &'a str,
    about: &'a str,
) -> Result<Command<'a>, AllocError>
    ensures { IfOk result (λ command. IsCommand command (command_taking name.now (rules_of names.Check))) }
{
    with_setup(alloc, name, about)?
        .arg(argument(alloc, "sheet", "FILE", "The sheet"))?
        .arg(option(
            alloc,
            "held",
            "FILE",
            "The export of the same count, to compare its sums with the votes",
        ))
}

/// The paths of a check. The command requires the first two; the export can be left out.
pub(crate) fn check_paths_in<'a>(given: &ArgMatches<'a>) -> CheckPaths<'a>
    ensures { AreCheckPaths (rows_of (found_of given.now)) result }
{
    CheckPaths {
        setup: path_in(given, "setup"),
        sheet: path_in(given, "sheet"),
        held: given.get_str("held"),
    }
}
