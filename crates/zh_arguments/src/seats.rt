//! The arguments of a table of the seats.

ghost use Rattle.std.specs.Prelude.{◌≡◌, IfOk, MatchResult, Some, option_map};
ghost use Rattle.clap.specs.Words.{found_of, rows_of};
ghost use Rattle.zh_arguments.specs.Commands.{AsksWith, misuse_of, rules_of, source_rules};
ghost use Rattle.zh_arguments.specs.Rules.{IsCommand, command_taking};
ghost use Rattle.zh_arguments.specs.Seats.{is_given, layout_in, layout_of, records_by, records_named, source_in, source_of};
ghost use Rattle.zh_arguments.specs.declared.commands.CommandName.TheVariants as names;

use crate::arguments::{Misuse, Task, path_in, paths_in};
use crate::commands::Query;
use crate::rules::{flag, option, with_setup};
use crate::view::has_flag;
use clap::{ArgMatches, Command};
use std::alloc::{AllocError, Global};

/// What the seats are shown for.
#[derive(Clone, Copy)]
pub enum SeatsOf {
    /// For each list that stands.
    Lists,
    /// For each group.
    Groups,
    /// For each constituency.
    Constituencies,
}

/// The form of the seats: what they are shown for, and whether as CSV or as a table for people.
#[derive(Clone, Copy)]
pub struct Layout {
    pub of: SeatsOf,
    pub is_table: bool,
}

/// Where the seats are taken from.
#[derive(Clone, Copy)]
pub(crate) enum Source {
    /// The count on a disk, as the line `final` or the line `sheet` answers.
    Disk { is_final: bool },
    /// A published sheet.
    Sheet,
}

/// A command that requires a set-up, and accepts a disk, the flag `--final` and a sheet. `source_of` says later which of
/// them can be given together.
fn with_source<'a>(alloc: Global, name: &'a str, about: &'a str) -> Result<Command<'a>, AllocError>
    ensures { IfOk result (λ command. IsCommand command (command_taking name.now source_rules)) }
{
    with_setup(alloc, name, about)?
        .arg(option(alloc, "disk", "FILE", "The disk file with the count"))?
        .arg(flag(
            alloc,
            "final",
            "The final seats: refused if a municipality is open",
        ))?
        .arg(option(
            alloc,
            "sheet",
            "FILE",
            "A published sheet, which is checked first",
        ))
}

/// A command that accepts a source of seats and their form.
pub(crate) fn seats_command<'a>(
    alloc: Global,
    name: &'a str,
    about: &'a str,
) -> Result<Command<'a>, AllocError>
    ensures { IfOk result (λ command. IsCommand command (command_taking name.now (rules_of names.Seats))) }
{
    with_source(alloc, name, about)?
        .arg(option(
            alloc,
            "of",
            "ROWS",
            "lists (the default), groups or constituencies",
        ))?
        .arg(flag(alloc, "table", "A table for reading, not CSV"))
}

/// Whether a value was given.
fn is_given(given: &ArgMatches<'_>, name: &str) -> bool
    ensures { result ≡ is_given name.now (rows_of (found_of given.now)) }
{
    given.get_str(name).is_some()
}

/// The source by these arguments: a disk or a sheet, but not both. The flag is allowed only with a disk.
fn source_of(disk: bool, sheet: bool, is_final: bool) -> Option<Source>
    ensures { result ≡ source_of disk sheet is_final }
{
    match (disk, sheet, is_final) {
        (true, false, is_final) => Some(Source::Disk { is_final }),
        (false, true, false) => Some(Source::Sheet),
        _ => None,
    }
}

/// The source that the arguments ask for, if they name exactly one.
fn source_in(given: &ArgMatches<'_>) -> Option<Source>
    ensures { result ≡ source_in (rows_of (found_of given.now)) }
{
    source_of(
        is_given(given, "disk"),
        is_given(given, "sheet"),
        has_flag(given, "final"),
    )
}

/// The kind of record with this name, if there is one.
fn records_named(name: &str) -> Option<SeatsOf>
    ensures { result ≡ records_named name.now }
{
    match name {
        "lists" => Some(SeatsOf::Lists),
        "groups" => Some(SeatsOf::Groups),
        "constituencies" => Some(SeatsOf::Constituencies),
        _ => None,
    }
}

/// The kind of record with the given name. Without a name it is the lists.
fn records_by(name: Option<&str>) -> Option<SeatsOf>
    ensures { result ≡ records_by (option_map (λ s. s.now) name.entry) }
{
    match name {
        Some(name) => records_named(name),
        None => Some(SeatsOf::Lists),
    }
}

/// The form for this kind of record, as CSV or as a table.
fn layout_of(records: Option<SeatsOf>, is_table: bool) -> Option<Layout>
    ensures { result ≡ layout_of records is_table }
{
    match records {
        Some(of) => Some(Layout { of, is_table }),
        None => None,
    }
}

/// The form that the arguments ask for, if they name a kind of record.
fn layout_in(given: &ArgMatches<'_>) -> Option<Layout>
    ensures { result ≡ layout_in (rows_of (found_of given.now)) }
{
    layout_of(records_by(given.get_str("of")), has_flag(given, "table"))
}

/// The task of showing seats from this source in this form.
fn task_from<'a>(source: Source, layout: Layout, given: &ArgMatches<'a>) -> Task<'a>
    ensures { source_in (rows_of (found_of given.now)) ≡ Some source → layout_in (rows_of (found_of given.now)) ≡ Some layout
        → AsksWith names.Seats (rows_of (found_of given.now)) result }
{
    match source {
        Source::Disk { is_final } => {
            Task::Show(paths_in(given), Query::Seats { is_final, layout })
        }
        Source::Sheet => Task::SheetSeats {
            setup: path_in(given, "setup"),
            sheet: path_in(given, "sheet"),
            layout,
        },
    }
}

/// The task of showing seats, or how the command was misused if the arguments do not name exactly one source and a form.
pub(crate) fn seats_in<'a>(given: &ArgMatches<'a>) -> Result<Task<'a>, Misuse>
    ensures { MatchResult result (AsksWith names.Seats (rows_of (found_of given.now)))
        (λ misuse. misuse_of names.Seats (rows_of (found_of given.now)) ≡ Some misuse) }
{
    let source = source_in(given).ok_or(Misuse::Source)?;
    let layout = layout_in(given).ok_or(Misuse::Layout)?;
    Ok(task_from(source, layout, given))
}
