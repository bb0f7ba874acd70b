//! Tests whether seats have their totals and follow from divisors, without a search. Seats that pass such a test, strict or
//! weak, are a biproportional apportionment.
ghost use Rattle.std.specs.Prelude.{◌≡◌, ℕ, ◌*◌, ◌^◌, ◌<◌, ◌≤◌, ◌↔◌, All, IsTrue, length, slice_index};
ghost use Rattle.zh_divisors.specs.Sums.{sum_to};
ghost use Rattle.zh_matrices.specs.Asked.{asked};
ghost use Rattle.zh_matrices.specs.Divisors.{AreWithin, AreWithinLimits, millionths};
ghost use Rattle.zh_matrices.specs.Question.{cell, question};
ghost use Rattle.zh_matrices.specs.RoundingOf.{RoundsBy};
ghost use Rattle.zh_matrices.specs.SeatMatrix.{EachRounds, Follows, IsStrict, ColumnsAddUp, RowsAddUp};

use crate::question::{Matrix, Proposal, Question};
use crate::rounding::{Rounding, product, rounds_by};

/// Seats, the divisors with which they are tested, and the kind of rounding.
#[derive(Drop)]
struct Trial<'a> {
    rounding: Rounding,
    proposal: &'a Proposal<'a>,
    of_rows: &'a [u64],
    of_columns: &'a [u64],
    ghost limits: { AreWithinLimits (asked proposal.now.question.now) of_rows.now of_columns.now },
}

impl<'a> Trial<'a> {
    /// Whether the quotients of a row round to its seats.
    fn row_rounds(&self, row: usize) -> bool
        requires { row < self.now.proposal.now.question.now.rows }
        ensures { IsTrue result ↔ ((g : ℕ) → g < self.now.proposal.now.question.now.columns →
            RoundsBy self.now.rounding
            (cell self.now.proposal.now.question.now.columns self.now.proposal.now.question.now.votes.now row g * (1000000 * 1000000))
            (slice_index self.now.of_rows.now row * slice_index self.now.of_columns.now g)
            (cell self.now.proposal.now.question.now.columns self.now.proposal.now.seats.now row g)) }
    {
        let question = self.proposal.question;
        for column in 0..question.columns {
            let place = row * question.columns + column;
            let product = product(self.of_rows[row], self.of_columns[column]);
            let seats = self.proposal.seats[place];
            if !rounds_by(self.rounding, question.votes[place], product, seats) {
                return false;
            }
        }
        true
    }

    /// Whether the quotient of each cell rounds to its seats.
    fn each_rounds(&self) -> bool
        ensures { IsTrue result ↔ EachRounds (RoundsBy self.now.rounding) (asked self.now.proposal.now.question.now)
            (millionths self.now.of_rows.now self.now.of_columns.now) self.now.proposal.now.seats.now }
    {
        for row in 0..self.proposal.question.rows {
            if !self.row_rounds(row) {
                return false;
            }
        }
        true
    }
}

/// Whether the seats have the totals and follow from the divisors by this kind of rounding. Divisors are in millionths, 1 to
/// 10^18 for a row and 1 to 10^12 for a column.
pub fn follows(
    rounding: Rounding,
    proposal: &Proposal<'_>,
    of_rows: &[u64],
    of_columns: &[u64],
) -> bool
    requires { AreWithinLimits (asked proposal.now.question.now) of_rows.now of_columns.now }
    ensures { IsTrue result ↔ Follows (RoundsBy rounding) (asked proposal.now.question.now)
        (millionths of_rows.now of_columns.now) proposal.now.seats.now }
{
    let trial = Trial {
        rounding,
        proposal,
        of_rows,
        of_columns,
    };
    rows_add_up(proposal.question, proposal.seats)
        && columns_add_up(proposal.question, proposal.seats)
        && trial.each_rounds()
}

/// Whether the seats have the totals and follow from the divisors without a quotient on a half. The seats are
/// given row by row, at most 400 for each cell. Divisors are in millionths, 1 to 10^18 for a row and 1 to 10^12
/// for a column.
pub fn is_strict(
    matrix: &Matrix,
    row_totals: &[u32],
    column_totals: &[u32],
    seats: &[u32],
    row_divisors: &[u64],
    column_divisors: &[u64],
) -> bool
    requires row_totals { length row_totals.now ≡ matrix.now.rows }
    requires column_totals { length column_totals.now ≡ matrix.now.columns }
    requires each_cell { length seats.now ≡ matrix.now.rows * matrix.now.columns }
    requires few_seats { All (λ s. s ≤ 400) seats.now }
    requires row_divisors { AreWithin matrix.now.rows (10 ^ 18) row_divisors.now }
    requires column_divisors { AreWithin matrix.now.columns (10 ^ 12) column_divisors.now }
    ensures { IsTrue result ↔ IsStrict (question matrix.now row_totals.now column_totals.now)
        (millionths row_divisors.now column_divisors.now) seats.now }
{
    let question = matrix.question(row_totals, column_totals);
    let proposal = Proposal {
        question: &question,
        seats,
    };
    follows(Rounding::Strict, &proposal, row_divisors, column_divisors)
}

/// The sum of the seats of a row.
#[tactic(auto, using(crate::proofs::SumLemmas::sum_steps))]
pub fn row_sum(question: &Question<'_>, seats: &[u32], row: usize) -> u64
    requires seats { length seats.now ≡ question.now.rows * question.now.columns }
    requires row { row < question.now.rows }
    ensures { result ≡ sum_to question.now.columns (λ g. cell question.now.columns seats.now row g) }
{
    let mut sum = 0;
    for column in 0..question.columns {
        sum += u64::from(seats[row * question.columns + column]);
    }
    sum
}

/// The sum of the seats of a column.
#[tactic(auto, using(crate::proofs::SumLemmas::sum_steps))]
pub fn column_sum(question: &Question<'_>, seats: &[u32], column: usize) -> u64
    requires seats { length seats.now ≡ question.now.rows * question.now.columns }
    requires column { column < question.now.columns }
    ensures { result ≡ sum_to question.now.rows (λ d. cell question.now.columns seats.now d column) }
{
    let mut sum = 0;
    for row in 0..question.rows {
        let place = row * question.columns + column;
        sum += u64::from(seats[place]);
    }
    sum
}

/// Whether the seats of each row add up to its total.
pub(crate) fn rows_add_up(question: &Question<'_>, seats: &[u32]) -> bool
    requires { length seats.now ≡ question.now.rows * question.now.columns }
    ensures { IsTrue result ↔ RowsAddUp (asked question.now) seats.now }
{
    for row in 0..question.rows {
        if row_sum(question, seats, row) != u64::from(question.row_totals[row]) {
            return false;
        }
    }
    true
}

/// Whether the seats of each column add up to its total.
pub(crate) fn columns_add_up(question: &Question<'_>, seats: &[u32]) -> bool
    requires { length seats.now ≡ question.now.rows * question.now.columns }
    ensures { IsTrue result ↔ ColumnsAddUp (asked question.now) seats.now }
{
    for column in 0..question.columns {
        if column_sum(question, seats, column) != u64::from(question.column_totals[column]) {
            return false;
        }
    }
    true
}
