//! The groups and the constituencies of a sheet as tables for people.
ghost use Rattle.std.specs.Prelude.{◌≡◌, ◌≤◌, IfOk, decimal, length};
ghost use Rattle.zh_count_tables.specs.Fields.{field_of_constituency, field_of_group};
ghost use Rattle.zh_count_tables.specs.Grids.{constituency_cell, constituency_table_text, group_cell, group_table_text};
ghost use Rattle.zh_sheet_text.specs.Table.{IsTablePlace};
ghost use Rattle.zh_text.specs.Numbers.{millionths_text, or_dash};

use crate::fields::{Field, field_at, heading_cell, total_cell};
use crate::quorum_so_far::group_votes;
use crate::sheet_lines::{SheetConstituencies, SheetGroups};
use std::alloc::{AllocError, Global};
use zh_sheet::Sheet;
use zh_sheet_text::{
    CellText, Mark, TableCells, TablePlace, marked_table, number_cell, table_place, text_cell,
    yes_or_no,
};
use zh_text::{push_divisor, push_divisor_or_dash, push_numeral_or_dash};

/// The columns of the table of groups.
const GROUP_FIELDS: [Field; 6] = [
    Field::Name,
    Field::Quorum,
    Field::Votes,
    Field::Voters,
    Field::Divisor,
    Field::Seats,
];

/// The columns of the table of constituencies.
const CONSTITUENCY_FIELDS: [Field; 5] = [
    Field::Name,
    Field::Persons,
    Field::Votes,
    Field::Divisor,
    Field::Seats,
];

impl<'a, 's> TableCells for SheetGroups<'a, 's> {
    ghost use Rattle.zh_count_tables.specs.Grids.{group_grid};

    ghost AreCells = { λ _. Unit {0} };

    ghost grid = { λ groups. group_grid groups.sheet.now };

    fn lines(&self) -> u32 {
        self.sheet.setup().groups() + 1
    }

    fn columns(&self) -> u32 {
        5
    }

    fn cell(&self, line: u32, column: u32) -> CellText {
        let line = table_place(self.sheet.setup().groups(), line);
        group_cell(self.sheet, line, field_at(&GROUP_FIELDS, column))
    }
}

impl<'a, 's> TableCells for SheetConstituencies<'a, 's> {
    ghost use Rattle.zh_count_tables.specs.Grids.{constituency_grid};

    ghost AreCells = { λ _. Unit {0} };

    ghost grid = { λ constituencies. constituency_grid constituencies.sheet.now };

    fn lines(&self) -> u32 {
        self.sheet.setup().constituencies() + 1
    }

    fn columns(&self) -> u32 {
        4
    }

    fn cell(&self, line: u32, column: u32) -> CellText {
        let line = table_place(self.sheet.setup().constituencies(), line);
        constituency_cell(self.sheet, line, field_at(&CONSTITUENCY_FIELDS, column))
    }
}

/// A cell with a divisor, given in millionths.
fn divisor_cell(millionths: u64) -> CellText
    ensures { result.items ≡ millionths_text millionths }
{
    let mut cell = CellText::new();
    push_divisor(&mut cell, millionths);
    cell
}

/// A cell with a divisor, given in millionths, or with a dash if there is none.
fn divisor_or_dash(millionths: Option<u64>) -> CellText
    ensures { result.items ≡ or_dash millionths_text millionths }
{
    let mut cell = CellText::new();
    push_divisor_or_dash(&mut cell, millionths);
    cell
}

/// A cell with a voter sum, or with a dash if there is none.
fn voters_or_dash(voters: Option<u64>) -> CellText
    ensures { result.items ≡ or_dash decimal voters }
{
    let mut cell = CellText::new();
    push_numeral_or_dash(&mut cell, voters);
    cell
}

/// The cell of a group in a column.
fn field_of_group(sheet: &Sheet<'_>, group: u32, field: Field) -> CellText
    requires from_one { 1 ≤ group }
    requires there { group ≤ length sheet.now.totals.canton.groups }
    ensures { result.items ≡ field_of_group sheet.now group field }
{
    match field {
        Field::Name => text_cell(sheet.group_name(group)),
        Field::Quorum => text_cell(yes_or_no(&sheet.takes_part(group))),
        Field::Votes => number_cell(group_votes(sheet.totals(), group)),
        Field::Voters => voters_or_dash(sheet.voters(group)),
        Field::Divisor => divisor_or_dash(sheet.group_divisor(group)),
        Field::Seats => number_cell(u64::from(sheet.group_seats(group))),
        _ => text_cell(""),
    }
}

/// The cell of a constituency in a column.
fn field_of_constituency(sheet: &Sheet<'_>, constituency: u32, field: Field) -> CellText
    requires from_one { 1 ≤ constituency }
    requires there { constituency ≤ length sheet.now.totals.canton.constituencies }
    ensures { result.items ≡ field_of_constituency sheet.now constituency field }
{
    match field {
        Field::Name => text_cell(sheet.constituency_name(constituency)),
        Field::Persons => number_cell(u64::from(sheet.setup().persons(constituency))),
        Field::Votes => number_cell(sheet.totals().constituency(constituency)),
        Field::Divisor => divisor_cell(sheet.constituency_divisor(constituency)),
        Field::Seats => number_cell(u64::from(sheet.constituency_seats(constituency))),
        _ => text_cell(""),
    }
}

/// The cell of the table of groups in a line and a column.
fn group_cell(sheet: &Sheet<'_>, line: TablePlace, field: Field) -> CellText
    requires { IsTablePlace (length sheet.now.totals.canton.groups) line }
    ensures { result.items ≡ group_cell sheet.now line field }
{
    match line {
        TablePlace::Head => heading_cell(field),
        TablePlace::At(group) => field_of_group(sheet, group, field),
        TablePlace::Total => total_cell(sheet.totals(), field),
    }
}

/// The cell of the table of constituencies in a line and a column.
fn constituency_cell(sheet: &Sheet<'_>, line: TablePlace, field: Field) -> CellText
    requires { IsTablePlace (length sheet.now.totals.canton.constituencies) line }
    ensures { result.items ≡ constituency_cell sheet.now line field }
{
    match line {
        TablePlace::Head => heading_cell(field),
        TablePlace::At(constituency) => field_of_constituency(sheet, constituency, field),
        TablePlace::Total => total_cell(sheet.totals(), field),
    }
}

/// The groups of a sheet as a table for people, below the title: a line for each group and a line `total`.
pub fn group_table(alloc: Global, sheet: &Sheet<'_>, mark: Mark) -> Result<Vec<u8>, AllocError>
    ensures { IfOk result (λ text. text.items ≡ group_table_text sheet.now mark) }
{
    marked_table(alloc, &SheetGroups { sheet, mark }, mark)
}

/// The constituencies of a sheet as a table for people, below the title: a line for each constituency and a line
/// `total`.
pub fn constituency_table(
    alloc: Global,
    sheet: &Sheet<'_>,
    mark: Mark,
) -> Result<Vec<u8>, AllocError>
    ensures { IfOk result (λ text. text.items ≡ constituency_table_text sheet.now mark) }
{
    marked_table(alloc, &SheetConstituencies { sheet, mark }, mark)
}
