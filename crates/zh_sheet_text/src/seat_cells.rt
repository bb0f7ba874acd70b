//! The seats as a table for people.
ghost use Rattle.std.specs.Prelude.{◌≡◌, ◌++◌, IfOk, OnOk, length};
ghost use Rattle.zh_sheet_text.specs.SeatTable.{seat_cell, table_text, title};
ghost use Rattle.zh_sheet_text.specs.Table.{IsTablePlace, grid_text};
ghost use Rattle.zh_sheet_text.specs.declared.table.TablePlace.TheVariants.{At};

use crate::line::finality;
use crate::mark::Mark;
use crate::table::{
    CellText, TableCells, TablePlace, number_cell, push_table, table_place, text_cell,
};
use std::alloc::{AllocError, Global};
use zh_sheet::Sheet;
use zh_text::push_number;

/// The seats of a sheet as the cells of a table.
#[derive(Drop)]
struct Seats<'a, 's> {
    sheet: &'a Sheet<'s>,
}

impl<'a, 's> TableCells for Seats<'a, 's> {
    ghost use Rattle.zh_sheet_text.specs.SeatTable.{seat_grid};

    ghost AreCells = { λ _. Unit {0} };

    ghost grid = { λ seats. seat_grid seats.sheet.now };

    fn lines(&self) -> u32 {
        self.sheet.setup().constituencies() + 1
    }

    fn columns(&self) -> u32 {
        self.sheet.setup().groups() + 1
    }

    fn cell(&self, line: u32, column: u32) -> CellText {
        let line = table_place(self.sheet.setup().constituencies(), line);
        let column = table_place(self.sheet.setup().groups(), column);
        seat_cell(self.sheet, line, column)
    }
}

/// The text of a cell.
fn seat_cell(sheet: &Sheet<'_>, line: TablePlace, column: TablePlace) -> CellText
    requires line { IsTablePlace (length sheet.now.totals.canton.constituencies) line }
    requires column { IsTablePlace (length sheet.now.totals.canton.groups) column }
    ensures { result.items ≡ seat_cell sheet.now line column }
{
    match (line, column) {
        (TablePlace::Head, TablePlace::Head) => text_cell(""),
        (TablePlace::Head, TablePlace::At(group)) => text_cell(sheet.group_name(group)),
        (TablePlace::At(constituency), TablePlace::Head) => text_cell(sheet.constituency_name(
            constituency,
        )),
        (TablePlace::Head, TablePlace::Total) | (TablePlace::Total, TablePlace::Head) => text_cell(
            "total",
        ),
        (TablePlace::At(constituency), TablePlace::At(group)) => list_cell(
            sheet,
            constituency,
            group,
        ),
        (TablePlace::At(constituency), TablePlace::Total) => {
            number_cell(u64::from(sheet.constituency_seats(constituency)))
        }
        (TablePlace::Total, TablePlace::At(group)) => number_cell(u64::from(sheet.group_seats(
            group,
        ))),
        (TablePlace::Total, TablePlace::Total) => number_cell(u64::from(sheet.setup().house())),
    }
}

/// The seats of a list, or a dash if it does not stand.
fn list_cell(sheet: &Sheet<'_>, constituency: u32, group: u32) -> CellText
    requires line { IsTablePlace (length sheet.now.totals.canton.constituencies) (At constituency) }
    requires column { IsTablePlace (length sheet.now.totals.canton.groups) (At group) }
    ensures { result.items ≡ seat_cell sheet.now (At constituency) (At group) }
{
    if sheet.setup().stands(constituency, group) {
        number_cell(u64::from(sheet.list_seats(constituency, group)))
    } else {
        text_cell("-")
    }
}

/// Appends the title, for example `provisional, 9 commands`.
fn push_title(out: &mut Vec<u8>, mark: Mark) -> Result<(), AllocError>
    ensures { OnOk result (out.new.items ≡ out.old.items ++ title mark) }
{
    let whose = mark.source.whose().as_bytes();
    out.extend_from_slice(finality(mark.is_final).as_bytes())?;
    out.extend_from_slice(whose)?;
    out.extend_from_slice(b", ")?;
    push_number(out, mark.accepted)?;
    out.extend_from_slice(b" commands")?;
    out.extend_from_slice(whose)?;
    out.extend_from_slice(b"\n")
}

/// The title and, below it, a table for people.
pub fn marked_table<T: TableCells>(
    alloc: Global,
    cells: &T,
    mark: Mark,
) -> Result<Vec<u8>, AllocError>
    requires { T.AreCells cells.now }
    ensures { IfOk result (λ text. text.items ≡ title mark ++ grid_text (T.grid cells.now)) }
{
    let mut out = Vec::new(alloc);
    push_title(&mut out, mark)?;
    push_table(&mut out, cells)?;
    Ok(out)
}

/// The seats of a sheet as a table for people, below the title: a line for each constituency and a column for each
/// group, with totals.
pub fn seat_table(alloc: Global, sheet: &Sheet<'_>, mark: Mark) -> Result<Vec<u8>, AllocError>
    ensures { IfOk result (λ text. text.items ≡ table_text sheet.now mark) }
{
    marked_table(alloc, &Seats { sheet }, mark)
}
