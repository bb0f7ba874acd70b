//! The table that the arguments name.

ghost use Rattle.std.specs.Prelude.{◌≡◌, IfOk, option_map};
ghost use Rattle.clap.specs.Words.{found_of, rows_of};
ghost use Rattle.zh_arguments.specs.Commands.{rules_of};
ghost use Rattle.zh_arguments.specs.Rules.{IsCommand, command_taking};
ghost use Rattle.zh_arguments.specs.Table.{number_in, part_of, table_in, table_named};
ghost use Rattle.zh_arguments.specs.declared.commands.CommandName.TheVariants as names;

use crate::arguments::path_in;
use crate::rules::{argument, option, with_setup};
use clap::{ArgMatches, Command};
use std::alloc::{AllocError, Global};
use zh_tables::{Part, Table};
use zh_text::numeral;

/// A command that requires a set-up and a table, and accepts a municipality and a constituency. `table_named` says later
/// which table can be limited to one of them.
pub(crate) fn list_command<'a>(
    alloc: Global,
    name: &'a str,
    about: &'a str,
) -> Result<Command<'a>, AllocError>
    ensures { IfOk result (λ command. IsCommand command (command_taking name.now (rules_of names.List))) }
{
    with_setup(alloc, name, about)?
        .arg(argument(
            alloc,
            "of",
            "TABLE",
            "constituencies, municipalities, groups, lists, problems or returns",
        ))?
        .arg(option(alloc, "municipality", "M", "Only its returns"))?
        .arg(option(alloc, "constituency", "D", "Only its returns"))
}

/// The number of a numeral, below 2^32, or `None` if the text is not one.
fn number_in(text: &str) -> Option<u32>
    ensures { result ≡ number_in text.now }
{
    numeral(text.as_bytes())
}

/// The part of the set-up: a municipality or a constituency by its number, or the whole if neither is given. `None` if both
/// are given, or a text that is not a numeral.
fn part_of(municipality: Option<&str>, constituency: Option<&str>) -> Option<Part>
    ensures { result ≡ part_of (option_map (λ s. s.now) municipality.entry) (option_map (λ s. s.now) constituency.entry) }
{
    match (municipality, constituency) {
        (None, None) => Some(Part::Whole),
        (Some(number), None) => Some(Part::Municipality(number_in(number)?)),
        (None, Some(number)) => Some(Part::Constituency(number_in(number)?)),
        (Some(_), Some(_)) => None,
    }
}

/// The table with this name and part, if there is one. Only the returns can be limited to a part.
fn table_named(name: &str, part: Part) -> Option<Table>
    ensures { result ≡ table_named name.now part }
{
    match (name, part) {
        ("returns", part) => Some(Table::Returns(part)),
        ("constituencies", Part::Whole) => Some(Table::Constituencies),
        ("municipalities", Part::Whole) => Some(Table::Municipalities),
        ("groups", Part::Whole) => Some(Table::Groups),
        ("lists", Part::Whole) => Some(Table::Lists),
        ("problems", Part::Whole) => Some(Table::Problems),
        _ => None,
    }
}

/// The table that the arguments name, if there is one.
pub(crate) fn table_in(given: &ArgMatches<'_>) -> Option<Table>
    ensures { result ≡ table_in (rows_of (found_of given.now)) }
{
    let part = part_of(given.get_str("municipality"), given.get_str("constituency"))?;
    table_named(path_in(given, "of"), part)
}
