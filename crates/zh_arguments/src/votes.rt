//! The arguments of the command `votes`.

ghost use Rattle.std.specs.Prelude.{◌≡◌, IfOk, option_map};
ghost use Rattle.clap.specs.Words.{found_of, rows_of};
ghost use Rattle.zh_arguments.specs.Commands.{rules_of};
ghost use Rattle.zh_arguments.specs.Rules.{IsCommand, command_taking};
ghost use Rattle.zh_arguments.specs.Votes.{votes_by, votes_asked, votes_named};
ghost use Rattle.zh_arguments.specs.declared.commands.CommandName.TheVariants as names;

use crate::rules::{flag, option, with_disk};
use clap::{ArgMatches, Command};
use std::alloc::{AllocError, Global};
use zh_count_tables::VotesOf;

/// A command that requires a set-up and a disk, and accepts the kind of its rows and the flag `--table`.
pub(crate) fn votes_command<'a>(
    alloc: Global,
    name: &'a str,
    about: &'a str,
) -> Result<Command<'a>, AllocError>
    ensures { IfOk result (λ command. IsCommand command (command_taking name.now (rules_of names.Votes))) }
{
    with_disk(alloc, name, about)?
        .arg(option(alloc, "of", "ROWS", "lists (the default) or groups"))?
        .arg(flag(alloc, "table", "A table for reading, not CSV"))
}

/// The kind of row with this name, if there is one.
fn votes_named(name: &str) -> Option<VotesOf>
    ensures { result ≡ votes_named name.now }
{
    match name {
        "lists" => Some(VotesOf::Lists),
        "groups" => Some(VotesOf::Groups),
        _ => None,
    }
}

/// The kind of row with the given name. Without a name it is the lists.
fn votes_by(name: Option<&str>) -> Option<VotesOf>
    ensures { result ≡ votes_by (option_map (λ s. s.now) name.entry) }
{
    match name {
        Some(name) => votes_named(name),
        None => Some(VotesOf::Lists),
    }
}

/// The kind of row that the arguments ask for, if there is one.
pub(crate) fn votes_asked(given: &ArgMatches<'_>) -> Option<VotesOf>
    ensures { result ≡ votes_asked (rows_of (found_of given.now)) }
{
    votes_by(given.get_str("of"))
}
