//! Whether some matrix within the bounds of its cells has all totals: a feasible flow with lower and upper bounds, by
//! augmenting paths.
ghost use Rattle.std.specs.Bool.{OnFalse, OnTrue};
ghost use Rattle.std.specs.Prelude.{◌≡◌, ℕ, List, ◌*◌, ◌↔◌, IsTrue, length, ◌≤◌, slice_index};
ghost use Rattle.zh_decided.specs.Bounds.{AreAtMost, IsWithin, asked_in, bounds_of};
ghost use Rattle.zh_decided.specs.Ways.{AreBalanced};
ghost use Rattle.zh_divisors.specs.Sums.{sum_to};
ghost use Rattle.zh_matrices.specs.Asked.{asked};
ghost use Rattle.zh_decided.specs.Ways as words;

use crate::cells::{CellBounds, copy_cells};
use crate::completion::{complete, fill_cells};
use zh_matrices::{Question, column_sum, row_sum};

/// Whether no cell has more seats than its upper bound.
fn are_at_most(bounds: &CellBounds<'_>, seats: &[u32]) -> bool
    requires { length seats.now ≡ bounds.now.question.now.rows * bounds.now.question.now.columns }
    ensures { IsTrue result ↔ AreAtMost (asked_in bounds.now) bounds.now.most.now seats.now }
{
    for place in 0..seats.len() {
        if seats[place] > bounds.most[place] {
            return false;
        }
    }
    true
}

/// Whether no row has more seats than its total.
fn have_rows_room(question: &Question<'_>, seats: &[u32]) -> bool
    requires { length seats.now ≡ question.now.rows * question.now.columns }
    ensures { IsTrue result ↔ words.HaveRowsRoom (asked question.now) seats.now }
{
    for row in 0..question.rows {
        if row_sum(question, seats, row) > u64::from(question.row_totals[row]) {
            return false;
        }
    }
    true
}

/// Whether no column has more seats than its total.
fn have_columns_room(question: &Question<'_>, seats: &[u32]) -> bool
    requires { length seats.now ≡ question.now.rows * question.now.columns }
    ensures { IsTrue result ↔ words.HaveColumnsRoom (asked question.now) seats.now }
{
    for column in 0..question.columns {
        if column_sum(question, seats, column) > u64::from(question.column_totals[column]) {
            return false;
        }
    }
    true
}

/// Gives each cell its lower bound. False if the lower bounds exceed the upper bound of a cell or the total of a line.
fn place_least(bounds: &CellBounds<'_>, seats: &mut [u32]) -> bool
    requires { length seats.old ≡ bounds.now.question.now.rows * bounds.now.question.now.columns }
    ensures placed { OnTrue result (words.ArePlaced (asked_in bounds.now) (bounds_of bounds.now) seats.new) }
    ensures none { OnFalse result ((s : List ℕ) → ¬ IsWithin (asked_in bounds.now) (bounds_of bounds.now) s) }
{
    copy_cells(bounds.question, bounds.least, seats);
    if !are_at_most(bounds, seats) {
        return false;
    }
    if !have_rows_room(bounds.question, seats) {
        return false;
    }
    have_columns_room(bounds.question, seats)
}

/// Writes a matrix within the bounds with all totals to `seats`. False if there is none.
pub fn fill_within(bounds: &CellBounds<'_>, seats: &mut [u32]) -> bool
    requires { length seats.old ≡ bounds.now.question.now.rows * bounds.now.question.now.columns }
    ensures within { OnTrue result (IsWithin (asked_in bounds.now) (bounds_of bounds.now) seats.new) }
    ensures none { OnFalse result ((s : List ℕ) → ¬ IsWithin (asked_in bounds.now) (bounds_of bounds.now) s) }
{
    if !are_balanced(bounds.question) {
        return false;
    }
    if !place_least(bounds, seats) {
        return false;
    }
    fill_cells(bounds, seats);
    complete(bounds, seats).is_ok()
}

/// The sum of these totals.
fn sum_of(totals: &[u32]) -> u64
    requires { length totals.now ≤ 32 }
    ensures { result ≡ sum_to (length totals.now) (λ line. slice_index totals.now line) }
{
    let mut sum = 0;
    for line in 0..totals.len() {
        sum += u64::from(totals[line]);
    }
    sum
}

/// Whether the row totals and the column totals have the same sum.
pub fn are_balanced(question: &Question<'_>) -> bool
    ensures { IsTrue result ↔ AreBalanced (asked question.now) }
{
    sum_of(question.row_totals) == sum_of(question.column_totals)
}
