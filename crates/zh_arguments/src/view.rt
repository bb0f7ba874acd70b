//! The view that the flags ask for.

ghost use Rattle.std.specs.Prelude.{◌≡◌, IfOk};
ghost use Rattle.clap.specs.Words.{found_of, rows_of};
ghost use Rattle.zh_arguments.specs.Commands.{rules_of};
ghost use Rattle.zh_arguments.specs.Rules.{IsCommand, command_taking};
ghost use Rattle.zh_arguments.specs.View.{has_flag, view_in, view_of};
ghost use Rattle.zh_arguments.specs.declared.commands.CommandName.TheVariants as names;

use crate::arguments::path_in;
use crate::rules::{flag, with_disk};
use clap::{ArgMatches, Command};
use std::alloc::{AllocError, Global};
use zh_tables::View;

/// A command that requires a set-up and a disk, and accepts three flags. `view_of` says later that they exclude one
/// another.
pub(crate) fn status_command<'a>(
    alloc: Global,
    name: &'a str,
    about: &'a str,
) -> Result<Command<'a>, AllocError>
    ensures { IfOk result (λ command. IsCommand command (command_taking name.now (rules_of names.Status))) }
{
    with_disk(alloc, name, about)?
        .arg(flag(
            alloc,
            "constituencies",
            "By constituency, not by municipality",
        ))?
        .arg(flag(alloc, "missing", "Each return that is missing"))?
        .arg(flag(alloc, "implausible", "Votes that are hardly possible"))
}

/// Whether a flag was given. clap gives it the value `true` or `false`.
pub(crate) fn has_flag(given: &ArgMatches<'_>, name: &str) -> bool
    ensures { result ≡ has_flag name.now (rows_of (found_of given.now)) }
{
    path_in(given, name) == "true"
}

/// The view by these flags, if at most one is given.
fn view_of(constituencies: bool, missing: bool, implausible: bool) -> Option<View>
    ensures { result ≡ view_of constituencies missing implausible }
{
    match (constituencies, missing, implausible) {
        (false, false, false) => Some(View::Municipalities),
        (true, false, false) => Some(View::Constituencies),
        (false, true, false) => Some(View::Missing),
        (false, false, true) => Some(View::Implausible),
        _ => None,
    }
}

/// The view that the arguments ask for, if there is one.
pub(crate) fn view_in(given: &ArgMatches<'_>) -> Option<View>
    ensures { result ≡ view_in (rows_of (found_of given.now)) }
{
    view_of(
        has_flag(given, "constituencies"),
        has_flag(given, "missing"),
        has_flag(given, "implausible"),
    )
}
