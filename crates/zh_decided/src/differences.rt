//! Where two matrices differ, and a search by augmenting paths for a different matrix within the same bounds.
ghost use Rattle.std.specs.Bool.{OnFalse, OnTrue};
ghost use Rattle.std.specs.Prelude.{◌≡◌, ℕ, ◌*◌, IfNone, IfSome, length, slice_index, List, ◌<◌, ◌≤◌, ◌+◌};
ghost use Rattle.zh_decided.specs.Bounds.{IsAnotherAt, IsFixedAt, IsWithin, asked_in, bounds_of};
ghost use Rattle.zh_decided.specs.Differences.{IsFirstPlaceApart};
ghost use Rattle.zh_matrices.specs.Asked.{asked};
ghost use Rattle.zh_matrices.specs.NearlyTied.{DifferFirstAt};
ghost use Rattle.zh_matrices.specs.Question.{cell};
ghost use Rattle.zh_decided.specs.Ways as words;

use crate::cells::{CELLS, CellBounds, copy_cells, no_seats};
use crate::completion::{complete, place, take};
use zh_matrices::Question;

/// The first place in which two lists differ. `None` if they are equal.
fn first_place(seats: &[u32], others: &[u32]) -> Option<usize>
    requires { length seats.now ≡ length others.now }
    ensures first { IfSome result (IsFirstPlaceApart seats.now others.now) }
    ensures none { IfNone result ((k : ℕ) → slice_index seats.now k ≡ slice_index others.now k) }
{
    for place in 0..seats.len() {
        if seats[place] != others[place] {
            return Some(place);
        }
    }
    None
}

/// The row and the column of the first cell in which two matrices differ, both counted from 1.
pub(crate) fn first_difference(
    question: &Question<'_>,
    seats: &[u32],
    others: &[u32],
) -> Option<(u32, u32)>
    requires seats { length seats.now ≡ question.now.rows * question.now.columns }
    requires others { length others.now ≡ question.now.rows * question.now.columns }
    ensures first { IfSome result (λ cell. DifferFirstAt (asked question.now) seats.now others.now cell.0 cell.1) }
    ensures none { IfNone result ((k : ℕ) → slice_index seats.now k ≡ slice_index others.now k) }
{
    match first_place(seats, others) {
        Some(place) => Some((
            (place / question.columns) as u32 + 1,
            (place % question.columns) as u32 + 1,
        )),
        None => None,
    }
}

/// Writes to `others` a matrix within the bounds that has fewer seats in a place than `seats` has. False if there is none.
fn fewer_at(bounds: &CellBounds<'_>, seats: &[u32], place: usize, others: &mut [u32]) -> bool
    requires within { IsWithin (asked_in bounds.now) (bounds_of bounds.now) seats.now }
    requires place { place < bounds.now.question.now.rows * bounds.now.question.now.columns }
    requires others { length others.old ≡ bounds.now.question.now.rows * bounds.now.question.now.columns }
    ensures differs { OnTrue result (IsAnotherAt (asked_in bounds.now) (bounds_of bounds.now) seats.now place others.new) }
    ensures none { OnFalse result ((t : List ℕ) → IsWithin (asked_in bounds.now) (bounds_of bounds.now) t →
        slice_index seats.now place ≤ slice_index t place) }
{
    if seats[place] <= bounds.least[place] {
        return false;
    }
    let mut most = no_seats::<CELLS>();
    copy_cells(bounds.question, bounds.most, &mut most);
    most[place] = seats[place] - 1;
    let lowered = CellBounds {
        question: bounds.question,
        least: bounds.least,
        most: &most,
    };
    others.copy_from_slice(seats);
    others[place] = seats[place] - 1;
    complete(&lowered, others).is_ok()
}

/// Writes to `others` a matrix within the bounds that has more seats in a place than `seats` has. False if there is none.
fn more_at(bounds: &CellBounds<'_>, seats: &[u32], place: usize, others: &mut [u32]) -> bool
    requires within { IsWithin (asked_in bounds.now) (bounds_of bounds.now) seats.now }
    requires place { place < bounds.now.question.now.rows * bounds.now.question.now.columns }
    requires others { length others.old ≡ bounds.now.question.now.rows * bounds.now.question.now.columns }
    ensures differs { OnTrue result (IsAnotherAt (asked_in bounds.now) (bounds_of bounds.now) seats.now place others.new) }
    ensures none { OnFalse result ((t : List ℕ) → IsWithin (asked_in bounds.now) (bounds_of bounds.now) t →
        slice_index t place ≤ slice_index seats.now place) }
{
    if seats[place] >= bounds.most[place] {
        return false;
    }
    let row = place / bounds.question.columns;
    let column = place % bounds.question.columns;
    others.copy_from_slice(seats);
    if !raise(bounds, others, row, column) {
        return false;
    }
    let mut least = no_seats::<CELLS>();
    copy_cells(bounds.question, bounds.least, &mut least);
    least[place] = seats[place] + 1;
    let raised = CellBounds {
        question: bounds.question,
        least: &least,
        most: bounds.most,
    };
    complete(&raised, others).is_ok()
}

/// Writes to `others` a matrix within the bounds that has a different number of seats in a place. False if all matrices within
/// the bounds have the same number there.
pub fn differ_at(bounds: &CellBounds<'_>, seats: &[u32], place: usize, others: &mut [u32]) -> bool
    requires within { IsWithin (asked_in bounds.now) (bounds_of bounds.now) seats.now }
    requires place { place < bounds.now.question.now.rows * bounds.now.question.now.columns }
    requires others { length others.old ≡ bounds.now.question.now.rows * bounds.now.question.now.columns }
    ensures differs { OnTrue result (IsAnotherAt (asked_in bounds.now) (bounds_of bounds.now) seats.now place others.new) }
    ensures same { OnFalse result (IsFixedAt (asked_in bounds.now) (bounds_of bounds.now) seats.now place) }
{
    fewer_at(bounds, seats, place, others) || more_at(bounds, seats, place, others)
}

/// Another column in which a row can give up a seat.
fn other_column(bounds: &CellBounds<'_>, seats: &[u32], row: usize, column: usize) -> Option<usize>
    requires seats { length seats.now ≡ bounds.now.question.now.rows * bounds.now.question.now.columns }
    requires row { row < bounds.now.question.now.rows }
    ensures some { IfSome result (words.IsOtherColumn (asked_in bounds.now) (bounds_of bounds.now) seats.now row column) }
    ensures none { IfNone result (words.HasNoOtherColumn (asked_in bounds.now) (bounds_of bounds.now) seats.now row column) }
{
    for other in 0..bounds.question.columns {
        let place = row * bounds.question.columns + other;
        if other != column && bounds.least[place] < seats[place] {
            return Some(other);
        }
    }
    None
}

/// Another row that can give up a seat in a column.
fn other_row(bounds: &CellBounds<'_>, seats: &[u32], row: usize, column: usize) -> Option<usize>
    requires seats { length seats.now ≡ bounds.now.question.now.rows * bounds.now.question.now.columns }
    requires column { column < bounds.now.question.now.columns }
    ensures some { IfSome result (words.IsOtherRow (asked_in bounds.now) (bounds_of bounds.now) seats.now row column) }
    ensures none { IfNone result (words.HasNoOtherRow (asked_in bounds.now) (bounds_of bounds.now) seats.now row column) }
{
    for other in 0..bounds.question.rows {
        let place = other * bounds.question.columns + column;
        if other != row && bounds.least[place] < seats[place] {
            return Some(other);
        }
    }
    None
}

/// Adds a seat to a cell of a matrix within the bounds and removes one elsewhere in its row and one elsewhere in its column.
/// False if no other cell of the row, or of the column, can give up a seat. Then no matrix within the bounds has more seats in
/// the cell.
pub(crate) fn raise(bounds: &CellBounds<'_>, seats: &mut [u32], row: usize, column: usize) -> bool
    requires within { IsWithin (asked_in bounds.now) (bounds_of bounds.now) seats.old }
    requires row { row < bounds.now.question.now.rows }
    requires column { column < bounds.now.question.now.columns }
    requires room { words.IsBelowMost (asked_in bounds.now) (bounds_of bounds.now) seats.old row column }
    ensures placed { OnTrue result (words.ArePlaced (asked_in bounds.now) (bounds_of bounds.now) seats.new) }
    ensures more { OnTrue result (cell bounds.now.question.now.columns seats.new row column
        ≡ cell bounds.now.question.now.columns seats.old row column + 1) }
    ensures none { OnFalse result ((t : List ℕ) → IsWithin (asked_in bounds.now) (bounds_of bounds.now) t →
        cell bounds.now.question.now.columns t row column ≤ cell bounds.now.question.now.columns seats.old row column) }
{
    let Some(giving_column) = other_column(bounds, seats, row, column) else {
        return false;
    };
    let Some(giving_row) = other_row(bounds, seats, row, column) else {
        return false;
    };
    take(bounds, seats, row, giving_column);
    take(bounds, seats, giving_row, column);
    place(bounds, seats, row, column);
    true
}
