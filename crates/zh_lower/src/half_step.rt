//! The half-steps of the alternating scaling: new divisors of the rows by those of the columns, and of the columns by those of
//! the rows.
ghost use Rattle.std.specs.List.{range_with_len};
ghost use Rattle.std.specs.Prelude.{◌≡◌, ℕ, ◌+◌, ◌*◌, ◌^◌, ◌<◌, ◌≤◌, All, map, length};
ghost use Rattle.zh_lower.specs.Outcomes.{IsProper};
ghost use Rattle.zh_lower.specs.Places.{quotients as quotients_of};
ghost use Rattle.zh_lower.specs.Quotients.{are_unsettled, kept_at};
ghost use Rattle.zh_lower.specs.States.{middle_column, middle_row, renewed_column, renewed_row};
ghost use Rattle.zh_matrices.specs.Asked.{asked};
ghost use Rattle.zh_matrices.specs.Divisors.{AreWithin, AreWithinLimits, millionths};

use crate::quotient::Quotient;
use zh_divisors::line;
use zh_matrices::{LINES, MOST_OF_COLUMN, MOST_OF_ROW, Question};

/// The places of the cells of a line in a matrix that is stored row by row.
#[derive(Drop)]
struct LinePlaces {
    first: usize,
    /// The distance from each cell to the next.
    step: usize,
    cells: usize,
}

/// Whether a line is unsettled: its quotients, rounded half up, do not add up to its total, or one of them is on a half.
#[tactic(auto, using(crate::proofs::QuotientLemmas::line_steps))]
fn is_unsettled(quotients: &[Quotient], places: LinePlaces, total: u32) -> bool
    requires cells { places.cells ≤ 32 }
    requires within { (i : ℕ) → i < places.cells → places.first + i * places.step < length quotients.now }
    requires small { All (λ quotient. quotient.rounded ≤ 10 ^ 27) quotients.now }
    ensures { result ≡ are_unsettled places.cells (λ i. kept_at quotients.now (places.first + i * places.step)) total }
{
    let mut sum = 0;
    let mut holds_half = false;
    for i in 0..places.cells {
        let quotient = quotients[places.first + i * places.step];
        sum += quotient.rounded;
        holds_half = holds_half || quotient.is_half;
    }
    sum != u128::from(total) || holds_half
}

/// Sets each row divisor by the rule of a line (`line`), given these column divisors.
pub fn middle_rows(question: &Question<'_>, of_columns: &[u64], of_rows: &mut [u64])
    requires proper { IsProper (asked question.now) }
    requires rows { length of_rows.old ≡ question.now.rows }
    requires columns { AreWithin question.now.columns (10 ^ 12) of_columns.now }
    ensures rows { of_rows.new ≡
        map (middle_row (asked question.now) (millionths of_rows.old of_columns.now)) (range_with_len 0 question.now.rows) }
    ensures limits { AreWithinLimits (asked question.now) of_rows.new of_columns.now }
{
    for row in 0..question.rows {
        of_rows[row] = line(
            question.row(row),
            of_columns,
            question.row_totals[row],
            MOST_OF_ROW,
        );
    }
}

/// Sets each column divisor by the rule of a line (`line`), given these row divisors.
pub fn middle_columns(question: &Question<'_>, of_rows: &[u64], of_columns: &mut [u64])
    requires proper { IsProper (asked question.now) }
    requires rows { AreWithin question.now.rows (10 ^ 18) of_rows.now }
    requires columns { length of_columns.old ≡ question.now.columns }
    ensures columns { of_columns.new ≡
        map (middle_column (asked question.now) (millionths of_rows.now of_columns.old)) (range_with_len 0 question.now.columns) }
    ensures limits { AreWithinLimits (asked question.now) of_rows.now of_columns.new }
{
    let mut votes = [0; LINES];
    let votes = &mut votes[..question.rows];
    for column in 0..question.columns {
        question.copy_column(column, votes);
        of_columns[column] = line(
            votes,
            of_rows,
            question.column_totals[column],
            MOST_OF_COLUMN,
        );
    }
}

/// A half-step of the rows: each unsettled row gets a new divisor. The quotients are those of the state before.
pub(crate) fn renew_rows(
    question: &Question<'_>,
    of_columns: &[u64],
    of_rows: &mut [u64],
    quotients: &[Quotient],
)
    requires proper { IsProper (asked question.now) }
    requires limits { AreWithinLimits (asked question.now) of_rows.old of_columns.now }
    requires quotients { quotients.now ≡ quotients_of (asked question.now) (millionths of_rows.old of_columns.now) }
    ensures rows { of_rows.new ≡
        map (renewed_row (asked question.now) (millionths of_rows.old of_columns.now)) (range_with_len 0 question.now.rows) }
    ensures limits { AreWithinLimits (asked question.now) of_rows.new of_columns.now }
{
    for row in 0..question.rows {
        let total = question.row_totals[row];
        let places = LinePlaces {
            first: row * question.columns,
            step: 1,
            cells: question.columns,
        };
        if is_unsettled(quotients, places, total) {
            of_rows[row] = line(question.row(row), of_columns, total, MOST_OF_ROW);
        }
    }
}

/// A half-step of the columns: each unsettled column gets a new divisor. The quotients are those of the state before.
pub(crate) fn renew_columns(
    question: &Question<'_>,
    of_rows: &[u64],
    of_columns: &mut [u64],
    quotients: &[Quotient],
)
    requires proper { IsProper (asked question.now) }
    requires limits { AreWithinLimits (asked question.now) of_rows.now of_columns.old }
    requires quotients { quotients.now ≡ quotients_of (asked question.now) (millionths of_rows.now of_columns.old) }
    ensures columns { of_columns.new ≡
        map (renewed_column (asked question.now) (millionths of_rows.now of_columns.old)) (range_with_len 0 question.now.columns) }
    ensures limits { AreWithinLimits (asked question.now) of_rows.now of_columns.new }
{
    let mut votes = [0; LINES];
    let votes = &mut votes[..question.rows];
    for column in 0..question.columns {
        question.copy_column(column, votes);
        let total = question.column_totals[column];
        let places = LinePlaces {
            first: column,
            step: question.columns,
            cells: question.rows,
        };
        if is_unsettled(quotients, places, total) {
            of_columns[column] = line(votes, of_rows, total, MOST_OF_COLUMN);
        }
    }
}
