//! Seats are placed one at a time, directly or along augmenting paths, until no more can be placed.
ghost use Rattle.std.specs.Prelude.{◌≡◌, ◌+◌, ◌<◌, IfErr, OnOk, length, ◌≢◌, ◌*◌};
ghost use Rattle.zh_decided.specs.Bounds.{IsWithin, asked_in, bounds_of};
ghost use Rattle.zh_decided.specs.Ways as words;

use crate::cells::CellBounds;
use crate::impossible::MarkedRows;
use crate::ways::{Source, Way, column_lacks, reach, row_lacks};
use zh_matrices::{LINES, row_sum};

/// Marks the rows that have no way to take a seat.
fn rows_without_way(bounds: &CellBounds<'_>, ways: &[Option<Way>]) -> MarkedRows
    requires { length ways.now ≡ 32 }
    ensures { words.AreWithoutWay (asked_in bounds.now) ways.now result }
{
    let mut marks = [false; LINES];
    for row in 0..bounds.question.rows {
        marks[row] = ways[row].is_none();
    }
    MarkedRows::new(marks)
}

/// How many seats are left to place.
#[tactic(auto, using(crate::proofs::StepLemmas::sum_steps))]
fn seats_left(bounds: &CellBounds<'_>, seats: &[u32]) -> u64
    requires { words.ArePlaced (asked_in bounds.now) (bounds_of bounds.now) seats.now }
    ensures { words.placed (asked_in bounds.now) seats.now + result ≡ words.to_place (asked_in bounds.now) }
{
    let mut left = 0;
    for row in 0..bounds.question.rows {
        let total = u64::from(bounds.question.row_totals[row]);
        left += total - row_sum(bounds.question, seats, row);
    }
    left
}

/// Places one more seat or returns the rows that have no way to take one.
fn add_seat(bounds: &CellBounds<'_>, seats: &mut [u32]) -> Result<(), MarkedRows>
    requires placed { words.ArePlaced (asked_in bounds.now) (bounds_of bounds.now) seats.old }
    requires some_left { words.placed (asked_in bounds.now) seats.old < words.to_place (asked_in bounds.now) }
    ensures placed { OnOk result (words.ArePlaced (asked_in bounds.now) (bounds_of bounds.now) seats.new) }
    ensures one_more { OnOk result (words.placed (asked_in bounds.now) seats.new ≡ words.placed (asked_in bounds.now) seats.old + 1) }
    ensures blocked { IfErr result (words.AreBlocked (asked_in bounds.now) (bounds_of bounds.now) seats.new) }
{
    let mut ways = [None; LINES];
    match reach(bounds, seats, &mut ways) {
        Some(row) => {
            turn(bounds, seats, &ways, row);
            Ok(())
        }
        None => Err(rows_without_way(bounds, &ways)),
    }
}

/// Places all seats that are left or returns the rows that have no way to take one. The row totals and the column totals must
/// have the same sum.
pub(crate) fn complete(bounds: &CellBounds<'_>, seats: &mut [u32]) -> Result<(), MarkedRows>
    requires balanced { words.AreBalanced (asked_in bounds.now) }
    requires placed { words.ArePlaced (asked_in bounds.now) (bounds_of bounds.now) seats.old }
    ensures within { OnOk result (IsWithin (asked_in bounds.now) (bounds_of bounds.now) seats.new) }
    ensures blocked { IfErr result (words.AreBlocked (asked_in bounds.now) (bounds_of bounds.now) seats.new) }
{
    for _seat in 0..seats_left(bounds, seats) {
        add_seat(bounds, seats)?;
    }
    Ok(())
}

/// Fills a cell up to its upper bound, as long as both its row and its column are short of seats.
fn fill_cell(bounds: &CellBounds<'_>, seats: &mut [u32], row: usize, column: usize)
    requires placed { words.ArePlaced (asked_in bounds.now) (bounds_of bounds.now) seats.old }
    requires row { row < bounds.now.question.now.rows }
    requires column { column < bounds.now.question.now.columns }
    ensures { words.ArePlaced (asked_in bounds.now) (bounds_of bounds.now) seats.new }
{
    let at = row * bounds.question.columns + column;
    while seats[at] < bounds.most[at]
        && row_lacks(bounds.question, seats, row)
        && column_lacks(bounds.question, seats, column)
    {
        place(bounds, seats, row, column);
    }
}

/// Fills each cell in turn, as far as `fill_cell` does.
pub(crate) fn fill_cells(bounds: &CellBounds<'_>, seats: &mut [u32])
    requires { words.ArePlaced (asked_in bounds.now) (bounds_of bounds.now) seats.old }
    ensures { words.ArePlaced (asked_in bounds.now) (bounds_of bounds.now) seats.new }
{
    for place in 0..seats.len() {
        let row = place / bounds.question.columns;
        let column = place % bounds.question.columns;
        fill_cell(bounds, seats, row, column);
    }
}

/// A seat that moves from one row to another within a column.
#[derive(Clone, Copy)]
struct Handover {
    giver: usize,
    taker: usize,
    column: usize,
}

/// Adds a seat to a cell, which must be below its upper bound.
fn give(bounds: &CellBounds<'_>, seats: &mut [u32], row: usize, column: usize)
    requires seats { length seats.old ≡ bounds.now.question.now.rows * bounds.now.question.now.columns }
    requires row { row < bounds.now.question.now.rows }
    requires column { column < bounds.now.question.now.columns }
    requires room { words.IsBelowMost (asked_in bounds.now) (bounds_of bounds.now) seats.old row column }
    ensures { words.IsOneMore (asked_in bounds.now) seats.old seats.new row column }
{
    let place = row * bounds.question.columns + column;
    let has_room = seats[place] < bounds.most[place];
    prove!(has_room);
    seats[place] += 1;
}

/// Removes a seat from a cell, which must be above its lower bound.
pub(crate) fn take(bounds: &CellBounds<'_>, seats: &mut [u32], row: usize, column: usize)
    requires seats { length seats.old ≡ bounds.now.question.now.rows * bounds.now.question.now.columns }
    requires row { row < bounds.now.question.now.rows }
    requires column { column < bounds.now.question.now.columns }
    requires spare { words.IsAboveLeast (asked_in bounds.now) (bounds_of bounds.now) seats.old row column }
    ensures { words.IsOneMore (asked_in bounds.now) seats.new seats.old row column }
{
    seats[row * bounds.question.columns + column] -= 1;
}

/// Places a seat in a cell whose row and column are both short of one.
pub(crate) fn place(bounds: &CellBounds<'_>, seats: &mut [u32], row: usize, column: usize)
    requires placed { words.ArePlaced (asked_in bounds.now) (bounds_of bounds.now) seats.old }
    requires row { row < bounds.now.question.now.rows }
    requires column { column < bounds.now.question.now.columns }
    requires row_lacks { words.RowLacks (asked_in bounds.now) seats.old row }
    requires column_lacks { words.ColumnLacks (asked_in bounds.now) seats.old column }
    requires room { words.IsBelowMost (asked_in bounds.now) (bounds_of bounds.now) seats.old row column }
    ensures placed { words.ArePlaced (asked_in bounds.now) (bounds_of bounds.now) seats.new }
    ensures one_more { words.IsOneMore (asked_in bounds.now) seats.old seats.new row column }
{
    give(bounds, seats, row, column);
}

/// Moves a seat within a column, to a row that is short of one. Then the row that gave it is short of one.
fn pass(bounds: &CellBounds<'_>, seats: &mut [u32], seat: Handover)
    requires placed { words.ArePlaced (asked_in bounds.now) (bounds_of bounds.now) seats.old }
    requires giver { seat.giver < bounds.now.question.now.rows }
    requires taker { seat.taker < bounds.now.question.now.rows }
    requires differ { seat.giver ≢ seat.taker }
    requires column { seat.column < bounds.now.question.now.columns }
    requires lacks { words.RowLacks (asked_in bounds.now) seats.old seat.taker }
    requires room { words.IsBelowMost (asked_in bounds.now) (bounds_of bounds.now) seats.old seat.taker seat.column }
    requires spare { words.IsAboveLeast (asked_in bounds.now) (bounds_of bounds.now) seats.old seat.giver seat.column }
    ensures placed { words.ArePlaced (asked_in bounds.now) (bounds_of bounds.now) seats.new }
    ensures passed { words.IsPassed (asked_in bounds.now) seats.old seats.new seat.giver seat.taker }
    ensures lacks { words.RowLacks (asked_in bounds.now) seats.new seat.giver }
{
    give(bounds, seats, seat.taker, seat.column);
    take(bounds, seats, seat.giver, seat.column);
}

/// Augments along the ways: moves seats from row to row, starting at a row that is short of one, up to a column that is short
/// of one.
pub(crate) fn turn(bounds: &CellBounds<'_>, seats: &mut [u32], ways: &[Option<Way>], first: usize)
    requires placed { words.ArePlaced (asked_in bounds.now) (bounds_of bounds.now) seats.old }
    requires table { length ways.now ≡ 32 }
    requires ways { words.AreWays (asked_in bounds.now) (bounds_of bounds.now) seats.old ways.now }
    requires first { words.CanTake (asked_in bounds.now) seats.old ways.now first }
    ensures placed { words.ArePlaced (asked_in bounds.now) (bounds_of bounds.now) seats.new }
    ensures one_more { words.placed (asked_in bounds.now) seats.new ≡ words.placed (asked_in bounds.now) seats.old + 1 }
{
    let mut row = first;
    while let Some(way) = ways[row] {
        match way.source {
            Source::Spare => {
                place(bounds, seats, row, way.column);
                return;
            }
            Source::Giver(giver) => {
                let seat = Handover {
                    giver,
                    taker: row,
                    column: way.column,
                };
                pass(bounds, seats, seat);
                row = giver;
            }
        }
    }
}
