//! Votes in rows and columns, their limits, the seats that each row and each column is to get, and proposals of seats.
ghost use Rattle.std.specs.Prelude.{◌≡◌, ℕ, ◌<◌, length, slice_index, ◌*◌, ◌≤◌, All, ◌^◌, IfOk};
ghost use Rattle.zh_matrices.specs.Question.{IsSized};

use std::alloc::{AllocError, Global};
use std::marker::Model;

/// The greatest number of rows, and of columns.
pub const LINES: usize = 32;

/// The greatest divisor of a row, in millionths.
pub const MOST_OF_ROW: u64 = 1_000_000_000_000_000_000;

/// The greatest divisor of a column, in millionths.
pub const MOST_OF_COLUMN: u64 = 1_000_000_000_000;

/// The votes, row by row, and the seats that each row and each column is to get.
#[derive(Drop)]
pub struct Question<'a> {
    pub rows: usize,
    pub columns: usize,
    pub votes: &'a [u64],
    pub row_totals: &'a [u32],
    pub column_totals: &'a [u32],
    ghost sized: { IsSized (record {
      rows = rows;
      columns = columns;
      votes = votes.now;
      row_totals = row_totals.now;
      column_totals = column_totals.now;
    }) },
}

impl<'a> Question<'a> {
    ghost use Rattle.zh_matrices.specs.Asked.{asked};
    ghost use Rattle.zh_matrices.specs.Question.{column_votes, row_votes};

    /// The votes of a row.
    pub fn row(&self, row: usize) -> &[u64]
        requires { row < self.now.rows }
        ensures columns { length result.now ≡ self.now.columns }
        ensures votes { (g : ℕ) → g < self.now.columns → slice_index result.now g ≡ row_votes (asked self.now) row g }
    {
        &self.votes[row * self.columns..row * self.columns + self.columns]
    }

    /// Copies the votes of a column.
    pub fn copy_column(&self, column: usize, into: &mut [u64])
        requires column { column < self.now.columns }
        requires rows { length into.old ≡ self.now.rows }
        ensures { (d : ℕ) → d < self.now.rows → slice_index into.new d ≡ column_votes (asked self.now) column d }
    {
        for row in 0..self.rows {
            into[row] = self.votes[row * self.columns + column];
        }
    }
}

/// A number of seats for each cell, row by row, at most 400 for each.
#[derive(Drop)]
pub struct Proposal<'a> {
    pub question: &'a Question<'a>,
    pub seats: &'a [u32],
    ghost each_cell: { length seats.now ≡ question.now.rows * question.now.columns },
    ghost few: { All (λ s. s ≤ 400) seats.now },
}

/// The votes of each group (a column) in each constituency (a row): 1 to 32 rows, 1 to 32 columns, and at most
/// 10^14 votes in a cell.
#[derive(Drop)]
pub struct Matrix {
    rows: usize,
    columns: usize,
    votes: Vec<u64>,
}

impl Model for Matrix {
    ghost use Rattle.zh_matrices.specs.Question.{IsVoteMatrix, VoteMatrix};

    ghost Value = { VoteMatrix };

    ghost view = { λ m. record { rows = m.rows; columns = m.columns; votes = m.votes.items } };

    ghost invariant = { λ m. IsVoteMatrix (record { rows = m.rows; columns = m.columns; votes = m.votes.items }) };
}

impl Matrix {
    ghost use Rattle.zh_matrices.specs.Asked.{asked};
    ghost use Rattle.zh_matrices.specs.Question.{question};

    /// The matrix of these votes, which are given row by row.
    pub fn new(
        alloc: Global,
        rows: usize,
        columns: usize,
        votes: &[u64],
    ) -> Result<Self, AllocError>
        requires some_row { 1 ≤ rows }
        requires few_rows { rows ≤ 32 }
        requires some_column { 1 ≤ columns }
        requires few_columns { columns ≤ 32 }
        requires each_cell { length votes.now ≡ rows * columns }
        requires each_vote { All (λ v. v ≤ 10 ^ 14) votes.now }
        ensures { IfOk result (λ matrix. matrix ≡ record { rows = rows; columns = columns; votes = votes.now }) }
    {
        Ok(Matrix {
            rows,
            columns,
            votes: Vec::from_slice(alloc, votes)?,
        })
    }

    /// These votes with the seats that each row and each column is to get.
    pub fn question<'a>(&'a self, row_totals: &'a [u32], column_totals: &'a [u32]) -> Question<'a>
        requires rows { length row_totals.now ≡ self.now.rows }
        requires columns { length column_totals.now ≡ self.now.columns }
        ensures { asked result ≡ question self.now row_totals.now column_totals.now }
    {
        Question {
            rows: self.rows,
            columns: self.columns,
            votes: self.votes.as_slice(),
            row_totals,
            column_totals,
        }
    }
}
