//! The seats and divisors in an answer.
ghost use Rattle.std.specs.Prelude.{◌≡◌, ◌≤◌, length};

use crate::texts::push_numbers;
use std::alloc::AllocError;
use zh_decided::{Findings, MarkedRows};
use zh_lower::{Lower, Ranges};

/// Appends the seats of a row.
fn push_row(answer: &mut String, lower: &Lower, row: u32, columns: u32) -> Result<(), AllocError>
    requires row_from_1 { 1 ≤ row }
    requires row { row ≤ length lower.now.divisors.of_rows }
    requires columns { length lower.now.divisors.of_columns ≡ columns }
{
    answer.push(';')?;
    for column in 1..=columns {
        write!(answer, " {}", lower.seats(row, column))?;
    }
    Ok(())
}

/// Appends the seats, row by row.
fn push_rows(answer: &mut String, lower: &Lower, rows: u32, columns: u32) -> Result<(), AllocError>
    requires rows { length lower.now.divisors.of_rows ≡ rows }
    requires columns { length lower.now.divisors.of_columns ≡ columns }
{
    for row in 1..=rows {
        push_row(answer, lower, row, columns)?;
    }
    Ok(())
}

fn push_row_divisors(answer: &mut String, lower: &Lower, rows: u32) -> Result<(), AllocError>
    requires { length lower.now.divisors.of_rows ≡ rows }
{
    answer.push_str("; rows")?;
    for row in 1..=rows {
        write!(answer, " {}", lower.row_divisor(row))?;
    }
    Ok(())
}

fn push_column_divisors(answer: &mut String, lower: &Lower, columns: u32) -> Result<(), AllocError>
    requires { length lower.now.divisors.of_columns ≡ columns }
{
    answer.push_str("; columns")?;
    for column in 1..=columns {
        write!(answer, " {}", lower.column_divisor(column))?;
    }
    Ok(())
}

/// Appends the seats, row by row, and the divisors of the rows and of the columns in millionths.
pub(crate) fn push_found(
    answer: &mut String,
    lower: &Lower,
    rows: u32,
    columns: u32,
) -> Result<(), AllocError>
    requires rows { length lower.now.divisors.of_rows ≡ rows }
    requires columns { length lower.now.divisors.of_columns ≡ columns }
{
    answer.push_str("seats")?;
    push_rows(answer, lower, rows, columns)?;
    push_row_divisors(answer, lower, rows)?;
    push_column_divisors(answer, lower, columns)
}

/// Appends `impossible`, with the marked ones of this many rows.
pub(crate) fn push_impossible(
    answer: &mut String,
    marked: &MarkedRows,
    rows: u32,
) -> Result<(), AllocError>
    requires { rows ≤ 32 }
{
    answer.push_str("impossible")?;
    for row in 1..=rows {
        if marked.contains(row) {
            write!(answer, " {row}")?;
        }
    }
    Ok(())
}

/// Appends a word, and the seats row by row.
pub(crate) fn push_seats(
    answer: &mut String,
    word: &str,
    seats: &[u32],
    columns: usize,
) -> Result<(), AllocError>
    requires { 1 ≤ columns }
{
    answer.push_str(word)?;
    for (place, seats) in seats.iter().enumerate() {
        if place % columns == 0 {
            answer.push(';')?;
        }
        write!(answer, " {seats}")?;
    }
    Ok(())
}

/// Appends the fewest and the most seats of each cell.
pub(crate) fn push_ranges(
    answer: &mut String,
    ranges: &Ranges,
    columns: usize,
) -> Result<(), AllocError>
    requires { 1 ≤ columns }
{
    push_seats(answer, "least", &ranges.least, columns)?;
    push_seats(answer, "; most", &ranges.most, columns)
}

/// Appends the seats of a decision with their divisors, in the form of `push_found`.
pub(crate) fn push_findings(
    answer: &mut String,
    findings: &Findings,
    columns: usize,
) -> Result<(), AllocError>
    requires { 1 ≤ columns }
{
    push_seats(answer, "seats", &findings.seats, columns)?;
    answer.push_str("; rows")?;
    push_numbers(answer, &findings.of_rows)?;
    answer.push_str("; columns")?;
    push_numbers(answer, &findings.of_columns)
}
