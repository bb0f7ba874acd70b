//! The columns of tables for people: their headings, their cells in the total line, and names.
ghost use Rattle.std.specs.Prelude.{◌≡◌, ◌≤◌, length};
ghost use Rattle.zh_count_tables.specs.Fields.{field_at, field_of_all, heading};
ghost use Rattle.zh_record_text.specs.Names.{name_of_constituency, name_of_group};

use crate::quorum_so_far::all_votes;
use zh_districts::Setup;
use zh_sheet_text::{CellText, number_cell, text_cell};
use zh_totals::Totals;

/// A column of a table for people that has a line for each group or constituency.
#[derive(Clone, Copy)]
pub(crate) enum Field {
    Name,
    Persons,
    Held,
    Due,
    Quorum,
    Votes,
    Voters,
    Divisor,
    Seats,
}

/// The heading of a column. That of the names is empty.
pub(crate) fn heading_cell(field: Field) -> CellText
    ensures { result.items ≡ heading field }
{
    text_cell(match field {
        Field::Name => "",
        Field::Persons => "persons",
        Field::Held => "held",
        Field::Due => "due",
        Field::Quorum => "quorum",
        Field::Votes => "votes",
        Field::Voters => "voters",
        Field::Divisor => "divisor",
        Field::Seats => "seats",
    })
}

/// The cell of a column in the line `total`. It is empty except for the name, the votes and the seats.
pub(crate) fn total_cell(totals: &Totals, field: Field) -> CellText
    ensures { result.items ≡ field_of_all totals.now field }
{
    match field {
        Field::Name => text_cell("total"),
        Field::Votes => number_cell(all_votes(totals)),
        Field::Seats => number_cell(u64::from(totals.setup().house())),
        _ => text_cell(""),
    }
}

/// The field of a column, from 0. Past the end it is the name.
pub(crate) fn field_at(fields: &[Field], column: u32) -> Field
    ensures { result ≡ field_at fields.now column }
{
    fields.get(column as usize).copied().unwrap_or(Field::Name)
}

/// A cell with the name of a constituency.
pub(crate) fn constituency_cell(setup: &Setup, constituency: u32) -> CellText
    requires from_one { 1 ≤ constituency }
    requires there { constituency ≤ length setup.now.constituencies }
    ensures { result.items ≡ name_of_constituency setup.now constituency }
{
    let _limits = setup.constituencies();
    text_cell(setup.constituency_name(constituency))
}

/// A cell with the name of a group.
pub(crate) fn group_cell(setup: &Setup, group: u32) -> CellText
    requires from_one { 1 ≤ group }
    requires there { group ≤ length setup.now.groups }
    ensures { result.items ≡ name_of_group setup.now group }
{
    let _limits = setup.groups();
    text_cell(setup.group_name(group))
}
