//! The least row divisors and the greatest column divisors that give some seats, looked for in at most 1,000 rounds over all
//! cells, as in Bellman-Ford.
//!
//! Row divisors start at the least value and column divisors at the greatest, and each moves only as far as a cell requires. So
//! no row divisor rises above, and no column divisor falls below, that of any divisors within the limits that give these seats.
ghost use Rattle.std.specs.Bool.{OnFalse, OnTrue};
ghost use Rattle.std.specs.Prelude.{◌≡◌, ℕ, ◌+◌, ◌-◌, ◌*◌, ◌^◌, ◌<◌, ◌≤◌, length};
ghost use Rattle.zh_matrices.specs.Asked.{asked};
ghost use Rattle.zh_matrices.specs.Divisors.{AreWithin, millionths};
ghost use Rattle.zh_lower.specs.Extremes as words;
ghost use Rattle.zh_lower.specs.Extremes.{ComeTo, Enclose, IfIn, IfOut, IfStill, IsAbove, IsBelow, NoneGive};

use zh_matrices::{MOST_OF_ROW, Proposal};

const ROUNDS: u32 = 1000;

/// What a move of all rows, or of all columns, did.
#[derive(Clone, Copy)]
pub(crate) enum Move {
    Still,
    Moved,
    /// One of them left its limits.
    Out,
}

/// The least divisor of a row, from `divisor` on, that keeps a quotient below the half above its seats.
fn raised_by_cell(votes: u64, seats: u32, column: u64, divisor: u128) -> u128
    requires votes { votes ≤ 10 ^ 14 }
    requires seats { seats ≤ 400 }
    requires from_1 { 1 ≤ column }
    requires at_most { column ≤ 10 ^ 12 }
    ensures at_least { divisor ≤ result }
    ensures below { 2 * (votes * 10 ^ 12) < (2 * seats + 1) * (result * column) }
    ensures least { (other : ℕ) → divisor ≤ other → 2 * (votes * 10 ^ 12) < (2 * seats + 1) * (other * column) → result ≤ other }
{
    let twice = 2 * (u128::from(votes) * 1_000_000_000_000);
    let least = twice / ((2 * u128::from(seats) + 1) * u128::from(column)) + 1;
    divisor.max(least)
}

/// The greatest divisor of a column, up to `divisor`, that keeps a quotient above the half below its seats; 0 if there is none.
fn lowered_by_cell(votes: u64, seats: u32, row: u64, divisor: u64) -> u64
    requires votes { votes ≤ 10 ^ 14 }
    requires seats { seats ≤ 400 }
    requires from_1 { 1 ≤ row }
    requires at_most { row ≤ 10 ^ 18 }
    ensures at_most { result ≤ divisor }
    ensures above { 1 ≤ result → 1 ≤ seats → (2 * seats - 1) * (row * result) < 2 * (votes * 10 ^ 12) }
    ensures greatest { (other : ℕ) → other ≤ divisor →
        (1 ≤ seats → (2 * seats - 1) * (row * other) < 2 * (votes * 10 ^ 12)) → other ≤ result }
{
    if seats == 0 {
        return divisor;
    }
    let twice = 2 * (u128::from(votes) * 1_000_000_000_000);
    let greatest = twice.saturating_sub(1) / ((2 * u128::from(seats) - 1) * u128::from(row));
    greatest.min(u128::from(divisor)) as u64
}

/// The least divisor of a row, from `divisor` on, that keeps every quotient of the row below the half above its seats.
fn raised(proposal: &Proposal<'_>, of_columns: &[u64], row: usize, divisor: u64) -> u128
    requires columns { AreWithin proposal.now.question.now.columns (10 ^ 12) of_columns.now }
    requires row { row < proposal.now.question.now.rows }
    ensures at_least { divisor ≤ result }
    ensures below { IsBelow (asked proposal.now.question.now) proposal.now.seats.now of_columns.now row result }
    ensures least { (other : ℕ) → divisor ≤ other →
        IsBelow (asked proposal.now.question.now) proposal.now.seats.now of_columns.now row other → result ≤ other }
{
    let mut least = u128::from(divisor);
    for column in 0..proposal.question.columns {
        let place = row * proposal.question.columns + column;
        least = raised_by_cell(
            proposal.question.votes[place],
            proposal.seats[place],
            of_columns[column],
            least,
        );
    }
    least
}

/// The greatest divisor of a column, up to `divisor`, that keeps every quotient of the column above the half below its seats; 0
/// if there is none.
fn lowered(proposal: &Proposal<'_>, of_rows: &[u64], column: usize, divisor: u64) -> u64
    requires rows { AreWithin proposal.now.question.now.rows (10 ^ 18) of_rows.now }
    requires column { column < proposal.now.question.now.columns }
    ensures at_most { result ≤ divisor }
    ensures above { 1 ≤ result → IsAbove (asked proposal.now.question.now) proposal.now.seats.now of_rows.now column result }
    ensures greatest { (other : ℕ) → other ≤ divisor →
        IsAbove (asked proposal.now.question.now) proposal.now.seats.now of_rows.now column other → other ≤ result }
{
    let mut greatest = divisor;
    for row in 0..proposal.question.rows {
        let place = row * proposal.question.columns + column;
        greatest = lowered_by_cell(
            proposal.question.votes[place],
            proposal.seats[place],
            of_rows[row],
            greatest,
        );
    }
    greatest
}

/// Raises each row divisor as far as its cells require.
fn raise_rows(proposal: &Proposal<'_>, of_columns: &[u64], of_rows: &mut [u64]) -> Move
    requires columns { AreWithin proposal.now.question.now.columns (10 ^ 12) of_columns.now }
    requires rows { AreWithin proposal.now.question.now.rows (10 ^ 18) of_rows.old }
    ensures rows { AreWithin proposal.now.question.now.rows (10 ^ 18) of_rows.new }
    ensures least { IfIn result
        (words.AreLeastRows (asked proposal.now.question.now) proposal.now.seats.now of_columns.now of_rows.old of_rows.new) }
    ensures enclose { (top : ℕ) → Enclose (asked proposal.now.question.now) top proposal.now.seats.now of_rows.old of_columns.now →
        Enclose (asked proposal.now.question.now) top proposal.now.seats.now of_rows.new of_columns.now }
    ensures out { IfOut result ((top : ℕ) →
        Enclose (asked proposal.now.question.now) top proposal.now.seats.now of_rows.old of_columns.now →
        NoneGive (asked proposal.now.question.now) top proposal.now.seats.now) }
{
    let mut moved = false;
    for row in 0..proposal.question.rows {
        let divisor = raised(proposal, of_columns, row, of_rows[row]);
        if divisor > u128::from(MOST_OF_ROW) {
            return Move::Out;
        }
        moved = moved || divisor != u128::from(of_rows[row]);
        of_rows[row] = divisor as u64;
    }
    if moved { Move::Moved } else { Move::Still }
}

/// Lowers each column divisor as far as its cells require.
fn lower_columns(proposal: &Proposal<'_>, of_rows: &[u64], of_columns: &mut [u64], top: u64) -> Move
    requires rows { AreWithin proposal.now.question.now.rows (10 ^ 18) of_rows.now }
    requires columns { AreWithin proposal.now.question.now.columns top of_columns.old }
    ensures columns { AreWithin proposal.now.question.now.columns top of_columns.new }
    ensures greatest { IfIn result
        (words.AreGreatestColumns (asked proposal.now.question.now) proposal.now.seats.now of_rows.now of_columns.old of_columns.new) }
    ensures still { IfStill result (of_columns.new ≡ of_columns.old) }
    ensures enclose { Enclose (asked proposal.now.question.now) top proposal.now.seats.now of_rows.now of_columns.old →
        Enclose (asked proposal.now.question.now) top proposal.now.seats.now of_rows.now of_columns.new }
    ensures out { IfOut result
        (Enclose (asked proposal.now.question.now) top proposal.now.seats.now of_rows.now of_columns.old →
        NoneGive (asked proposal.now.question.now) top proposal.now.seats.now) }
{
    let mut moved = false;
    for column in 0..proposal.question.columns {
        let divisor = lowered(proposal, of_rows, column, of_columns[column]);
        if divisor == 0 {
            return Move::Out;
        }
        moved = moved || divisor != of_columns[column];
        of_columns[column] = divisor;
    }
    if moved { Move::Moved } else { Move::Still }
}

/// Starts with rows at 1 millionth and columns at `top` and moves them for 1,000 rounds or until nothing moves. False if one
/// leaves its limits: then no divisors within them give the seats.
pub(crate) fn settle(
    proposal: &Proposal<'_>,
    top: u64,
    of_rows: &mut [u64],
    of_columns: &mut [u64],
) -> bool
    requires from_1 { 1 ≤ top }
    requires at_most { top ≤ 10 ^ 12 }
    requires rows { length of_rows.old ≡ proposal.now.question.now.rows }
    requires columns { length of_columns.old ≡ proposal.now.question.now.columns }
    ensures rows { AreWithin proposal.now.question.now.rows (10 ^ 18) of_rows.new }
    ensures columns { AreWithin proposal.now.question.now.columns top of_columns.new }
    ensures enclose { Enclose (asked proposal.now.question.now) top proposal.now.seats.now of_rows.new of_columns.new }
    ensures rounds { OnTrue result
        (ComeTo (asked proposal.now.question.now) top proposal.now.seats.now 1000 (millionths of_rows.new of_columns.new)) }
    ensures out { OnFalse result (NoneGive (asked proposal.now.question.now) top proposal.now.seats.now) }
{
    of_rows.fill(1);
    of_columns.fill(top);
    for _round in 0..ROUNDS {
        if let Move::Out = raise_rows(proposal, of_columns, of_rows) {
            return false;
        }
        match lower_columns(proposal, of_rows, of_columns, top) {
            Move::Moved => {}
            Move::Still => return true,
            Move::Out => return false,
        }
    }
    true
}
