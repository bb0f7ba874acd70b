//! Whether a matrix on the votes has the totals. If the maximum flow falls short of them, the rows of a minimum cut show why
//! (max-flow min-cut).
ghost use Rattle.std.specs.Prelude.{◌≡◌, ◌-◌, ◌≤◌, ℕ, ◌*◌, IfErr, OnOk, length, slice_index};
ghost use Rattle.zh_decided.specs.Impossible.{is_among, HasTooFewSeats};
ghost use Rattle.zh_matrices.specs.Asked.{asked};
ghost use Rattle.zh_matrices.specs.Fitting.{FitsVotes};
ghost use Rattle.zh_matrices.specs.Question.{AreSeatTotals};
ghost use Rattle.zh_decided.specs.Ways as words;

use crate::cells::{CELLS, CellBounds, no_seats};
use crate::completion::{complete, fill_cells};
use std::marker::Model;
use zh_matrices::Question;

/// A set of rows, out of at most 32.
#[derive(Drop)]
pub struct MarkedRows {
    marks: [bool; 32],
}

impl Model for MarkedRows {
    ghost use Rattle.std.specs.Prelude.{Bool, List};

    ghost Value = { List Bool };

    ghost view = { λ rows. rows.marks };
}

impl MarkedRows {
    pub(crate) fn new(marks: [bool; 32]) -> Self
        ensures { result ≡ marks }
    {
        MarkedRows { marks }
    }

    /// Whether the set contains this row, 1 to 32.
    pub fn contains(&self, row: u32) -> bool
        requires from_1 { 1 ≤ row }
        requires at_most_32 { row ≤ 32 }
        ensures { result ≡ is_among self.now (row - 1) }
    {
        self.marks[(row - 1) as usize]
    }
}

/// An upper bound that no cell reaches: a row gets at most 400 seats.
const UNBOUNDED: u32 = 401;

/// Sets all cells to 0.
fn clear(cells: &mut [u32])
    ensures { (k : ℕ) → slice_index cells.new k ≡ 0 }
{
    for cell in cells.iter_mut() {
        *cell = 0;
    }
}

/// Sets the upper bound of each cell: 0 without votes, and more than a row can get with votes.
fn bound_by_votes(question: &Question<'_>, most: &mut [u32])
    requires { question.now.rows * question.now.columns ≤ length most.old }
    ensures { words.AreBoundByVotes (asked question.now) most.new }
{
    for place in 0..question.votes.len() {
        most[place] = if question.votes[place] > 0 {
            UNBOUNDED
        } else {
            0
        };
    }
}

/// Writes a matrix on the votes with the totals to `seats`. If there is none, returns rows whose votes lie in columns that
/// together have fewer seats than these rows. The row totals and the column totals must have the same sum.
pub fn place_all(question: &Question<'_>, seats: &mut [u32]) -> Result<(), MarkedRows>
    requires totals { AreSeatTotals question.now.rows question.now.row_totals.now }
    requires balanced { words.AreBalanced (asked question.now) }
    requires seats { length seats.old ≡ question.now.rows * question.now.columns }
    ensures fits { OnOk result (FitsVotes (asked question.now) seats.new) }
    ensures too_few { IfErr result (HasTooFewSeats (asked question.now)) }
{
    let least = no_seats::<CELLS>();
    let mut most = no_seats::<CELLS>();
    bound_by_votes(question, &mut most);
    let bounds = CellBounds {
        question,
        least: &least,
        most: &most,
    };
    clear(seats);
    fill_cells(&bounds, seats);
    complete(&bounds, seats)
}
