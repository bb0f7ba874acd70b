//! The votes so far as tables for people.
ghost use Rattle.std.specs.Prelude.{◌≡◌, ◌≤◌, ◌++◌, IfOk, OnOk, length};
ghost use Rattle.zh_count_tables.specs.Fields.{field_of_votes};
ghost use Rattle.zh_count_tables.specs.Grids.{IsVotesTable, list_cell, vote_cell, votes_title};
ghost use Rattle.zh_sheet_text.specs.Table.{IsTablePlace, grid_text};
ghost use Rattle.zh_sheet_text.specs.declared.table.TablePlace.TheVariants.{At};
ghost use Rattle.zh_totals.specs.Counting.{totals_of};

use crate::fields::{Field, constituency_cell, field_at, group_cell, heading_cell, total_cell};
use crate::quorum_so_far::{all_votes, group_votes};
use crate::returned::{Region, returned_of};
use crate::votes::{GroupRows, ListRows, VotesOf};
use std::alloc::{AllocError, Global};
use zh_quorum::participating;
use zh_returns::Count;
use zh_sheet_text::{
    CellText, TableCells, TablePlace, number_cell, push_table, table_place, text_cell, yes_or_no,
};
use zh_text::push_number;
use zh_totals::Totals;

/// The columns of the table of groups.
const VOTE_FIELDS: [Field; 5] = [
    Field::Name,
    Field::Held,
    Field::Due,
    Field::Quorum,
    Field::Votes,
];

impl<'c> TableCells for ListRows<'c> {
    ghost use Rattle.std.specs.Prelude.{◌≡◌};
    ghost use Rattle.zh_count_tables.specs.Grids.{list_grid};
    ghost use Rattle.zh_totals.specs.Counting.{totals_of};

    ghost AreCells = { λ rows. rows.totals.now ≡ totals_of rows.count.now };

    ghost grid = { λ rows. list_grid rows.count.now };

    fn lines(&self) -> u32 {
        self.count.setup().constituencies() + 1
    }

    fn columns(&self) -> u32 {
        self.count.setup().groups() + 1
    }

    fn cell(&self, line: u32, column: u32) -> CellText {
        let line = table_place(self.count.setup().constituencies(), line);
        let column = table_place(self.count.setup().groups(), column);
        list_cell(self.count, self.totals, line, column)
    }
}

impl<'c> TableCells for GroupRows<'c> {
    ghost use Rattle.std.specs.Prelude.{◌≡◌, length};
    ghost use Rattle.zh_count_tables.specs.Grids.{vote_grid};
    ghost use Rattle.zh_totals.specs.Counting.{totals_of};

    ghost AreCells = { λ rows. (rows.totals.now ≡ totals_of rows.count.now)
        × (length rows.taking.now ≡ length rows.count.now.canton.groups) };

    ghost grid = { λ rows. vote_grid rows.count.now rows.taking.now };

    fn lines(&self) -> u32 {
        self.count.setup().groups() + 1
    }

    fn columns(&self) -> u32 {
        4
    }

    fn cell(&self, line: u32, column: u32) -> CellText {
        let line = table_place(self.count.setup().groups(), line);
        let field = field_at(&VOTE_FIELDS, column);
        vote_cell(self.count, self.totals, self.taking, line, field)
    }
}

/// A cell with the votes of a list, or with a dash if it does not stand.
fn votes_or_dash(count: &Count<'_>, totals: &Totals<'_>, constituency: u32, group: u32) -> CellText
    requires totals { totals.now ≡ totals_of count.now }
    requires line { IsTablePlace (length count.now.canton.constituencies) (At constituency) }
    requires column { IsTablePlace (length count.now.canton.groups) (At group) }
    ensures { result.items ≡ list_cell count.now (At constituency) (At group) }
{
    if count.setup().stands(constituency, group) {
        number_cell(totals.votes(constituency, group))
    } else {
        text_cell("-")
    }
}

/// The cell of the table of lists in a line and a column.
fn list_cell(
    count: &Count<'_>,
    totals: &Totals<'_>,
    line: TablePlace,
    column: TablePlace,
) -> CellText
    requires totals { totals.now ≡ totals_of count.now }
    requires line { IsTablePlace (length count.now.canton.constituencies) line }
    requires column { IsTablePlace (length count.now.canton.groups) column }
    ensures { result.items ≡ list_cell count.now line column }
{
    match (line, column) {
        (TablePlace::Head, TablePlace::Head) => text_cell(""),
        (TablePlace::Head, TablePlace::At(group)) => group_cell(count.setup(), group),
        (TablePlace::At(constituency), TablePlace::Head) => constituency_cell(
            count.setup(),
            constituency,
        ),
        (TablePlace::Head, TablePlace::Total) | (TablePlace::Total, TablePlace::Head) => text_cell(
            "total",
        ),
        (TablePlace::At(constituency), TablePlace::At(group)) => {
            votes_or_dash(count, totals, constituency, group)
        }
        (TablePlace::At(constituency), TablePlace::Total) => number_cell(totals.constituency(
            constituency,
        )),
        (TablePlace::Total, TablePlace::At(group)) => number_cell(group_votes(totals, group)),
        (TablePlace::Total, TablePlace::Total) => number_cell(all_votes(totals)),
    }
}

/// The cell of a group in a column.
fn field_of_votes(
    count: &Count<'_>,
    totals: &Totals<'_>,
    taking: &[bool],
    group: u32,
    field: Field,
) -> CellText
    requires totals { totals.now ≡ totals_of count.now }
    requires each { length taking.now ≡ length count.now.canton.groups }
    requires from_one { 1 ≤ group }
    requires there { group ≤ length count.now.canton.groups }
    ensures { result.items ≡ field_of_votes count.now taking.now group field }
{
    match field {
        Field::Name => group_cell(count.setup(), group),
        Field::Held => number_cell(u64::from(returned_of(count, Region::Canton, group).held)),
        Field::Due => number_cell(u64::from(returned_of(count, Region::Canton, group).due)),
        Field::Quorum => text_cell(yes_or_no(&taking[(group - 1) as usize])),
        Field::Votes => number_cell(group_votes(totals, group)),
        _ => text_cell(""),
    }
}

/// The cell of the table of groups in a line and a column.
fn vote_cell(
    count: &Count<'_>,
    totals: &Totals<'_>,
    taking: &[bool],
    line: TablePlace,
    field: Field,
) -> CellText
    requires totals { totals.now ≡ totals_of count.now }
    requires each { length taking.now ≡ length count.now.canton.groups }
    requires line { IsTablePlace (length count.now.canton.groups) line }
    ensures { result.items ≡ vote_cell count.now taking.now line field }
{
    match line {
        TablePlace::Head => heading_cell(field),
        TablePlace::At(group) => field_of_votes(count, totals, taking, group, field),
        TablePlace::Total => total_cell(totals, field),
    }
}

/// Appends the title, for example `votes so far, 9 commands`.
fn push_votes_title(out: &mut Vec<u8>, accepted: u64) -> Result<(), AllocError>
    ensures { OnOk result (out.new.items ≡ out.old.items ++ votes_title accepted) }
{
    out.extend_from_slice(b"votes so far, ")?;
    push_number(out, accepted)?;
    out.extend_from_slice(b" commands\n")?;
    Ok(())
}

/// A table of the votes so far, below its title.
fn titled<T: TableCells>(alloc: Global, accepted: u64, cells: &T) -> Result<Vec<u8>, AllocError>
    requires { T.AreCells cells.now }
    ensures { IfOk result (λ text. text.items ≡ votes_title accepted ++ grid_text (T.grid cells.now)) }
{
    let mut out = Vec::new(alloc);
    push_votes_title(&mut out, accepted)?;
    push_table(&mut out, cells)?;
    Ok(out)
}

/// The votes so far as a table for people, from a count and its totals. For the lists it has a line for each
/// constituency and a column for each group, with totals; for the groups it has a line for each and a line `total`.
pub fn votes_table(
    alloc: Global,
    count: &Count<'_>,
    totals: &Totals<'_>,
    of: VotesOf,
) -> Result<Vec<u8>, AllocError>
    requires { totals.now ≡ totals_of count.now }
    ensures { IfOk result (λ text. IsVotesTable count.now of text.items) }
{
    match of {
        VotesOf::Lists => titled(alloc, count.accepted(), &ListRows { count, totals }),
        VotesOf::Groups => {
            let taking = participating(alloc, totals)?;
            let taking = taking.as_slice();
            let rows = GroupRows {
                count,
                totals,
                taking,
            };
            titled(alloc, count.accepted(), &rows)
        }
    }
}
