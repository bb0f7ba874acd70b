//! Questions: how many seats each row gets in each column.
ghost use Rattle.std.specs.Prelude.{◌≡◌, ◌*◌, ◌^◌, ◌<◌, ◌≤◌, All, IsTrue, length};
ghost use Rattle.zh_decided.specs.Ways.{AreBalanced};
ghost use Rattle.zh_matrices.specs.Asked.{asked};
ghost use Rattle.zh_matrices.specs.Question.{AreSeatTotals, EachColumnHasVotes, HasVotes, column_votes, question};

use crate::answer::{push_findings, push_found, push_impossible, push_ranges, push_seats};
use crate::fault::CaseFault;
use crate::fixture::Fixture;
use crate::texts::numbers_in;
use std::alloc::{AllocError, Global};
use zh_decided::{Decision, DecisionRoom, Findings, are_balanced, decide};
use zh_lower::{LowerFault, Matrix, NoLower, find, find_or_reason, lot};
use zh_matrices::Question;

/// What answers the question.
#[derive(Clone, Copy)]
pub(crate) enum Whom {
    /// The search. If it is exhausted, the decision gives the reason.
    Searches,
    /// The decision alone.
    Decision,
    /// The search, and at a tie the range of seats of each cell.
    Lot,
}

/// The most votes of a cell.
const MOST_VOTES: u64 = 100_000_000_000_000;

/// Whether there are 1 to 32 totals, each of 1 to 400 seats.
fn are_totals(totals: &[u32]) -> bool
    ensures some { IsTrue result → 1 ≤ length totals.now }
    ensures few { IsTrue result → length totals.now ≤ 32 }
    ensures seats { IsTrue result → AreSeatTotals (length totals.now) totals.now }
{
    (1..=32).contains(&totals.len()) && totals.iter().all(|seats| (1..=400).contains(seats))
}

/// Whether there are this many cells, none with more than 10^14 votes.
fn are_votes(cells: usize, votes: &[u64]) -> bool
    ensures cells { IsTrue result → length votes.now ≡ cells }
    ensures few { IsTrue result → All (λ v. v ≤ 10 ^ 14) votes.now }
{
    votes.len() == cells && votes.iter().all(|votes| *votes <= MOST_VOTES)
}

/// Whether a column has votes.
fn column_has_votes(question: &Question<'_>, column: usize) -> bool
    requires { column < question.now.columns }
    ensures { IsTrue result → HasVotes question.now.rows (column_votes (asked question.now) column) }
{
    for row in 0..question.rows {
        if question.votes[row * question.columns + column] > 0 {
            return true;
        }
    }
    false
}

/// Whether every column has votes.
fn each_column_has_votes(question: &Question<'_>) -> bool
    ensures { IsTrue result → EachColumnHasVotes (asked question.now) }
{
    for column in 0..question.columns {
        if !column_has_votes(question, column) {
            return false;
        }
    }
    true
}

/// Appends the result of a decision. If it has seats, they come with their divisors if the decision alone was asked; otherwise
/// they come after `missed`, because the search did not find them.
fn push_decision(
    answer: &mut String,
    decision: Decision,
    findings: &Findings,
    question: &Question<'_>,
    whom: Whom,
) -> Result<(), AllocError>
    requires some_column { 1 ≤ question.now.columns }
    requires few_rows { question.now.rows ≤ 32 }
{
    match decision {
        Decision::Impossible(marked) => push_impossible(answer, &marked, question.rows as u32),
        Decision::NearlyTied(row, column, _) => write!(answer, "nearly tied {row} {column}"),
        Decision::Beyond(_) => push_seats(answer, "beyond", &findings.seats, question.columns),
        Decision::Seats => match whom {
            Whom::Decision => push_findings(answer, findings, question.columns),
            _ => push_seats(answer, "missed", &findings.seats, question.columns),
        },
    }
}

/// Appends the result of the decision of a question.
fn push_decided(
    alloc: Global,
    question: &Question<'_>,
    whom: Whom,
    answer: &mut String,
) -> Result<(), AllocError>
    requires some_column { 1 ≤ question.now.columns }
    requires totals { AreSeatTotals question.now.rows question.now.row_totals.now }
    requires balanced { AreBalanced (asked question.now) }
{
    let mut room = DecisionRoom::new(alloc, question.rows, question.columns)?;
    let decision = decide(question, &mut room);
    push_decision(answer, decision, &room.findings, question, whom)
}

/// Appends why the search found no seats. Where it is exhausted, the decision says why.
fn push_fault(
    alloc: Global,
    fault: LowerFault,
    question: &Question<'_>,
    answer: &mut String,
) -> Result<(), AllocError>
    requires some_column { 1 ≤ question.now.columns }
    requires totals { AreSeatTotals question.now.rows question.now.row_totals.now }
    requires balanced { AreBalanced (asked question.now) }
{
    match fault {
        LowerFault::Memory => Err(AllocError),
        LowerFault::NoVotes(row) => write!(answer, "no votes {row}"),
        LowerFault::Tied(row, column) => write!(answer, "tied {row} {column}"),
        LowerFault::Exhausted => push_decided(alloc, question, Whom::Searches, answer),
    }
}

/// Appends the result of the search for votes with these totals.
fn push_searched(
    alloc: Global,
    matrix: &Matrix,
    row_totals: &[u32],
    column_totals: &[u32],
    answer: &mut String,
) -> Result<(), AllocError>
    requires few_rows { matrix.now.rows ≤ 32 }
    requires some_column { 1 ≤ matrix.now.columns }
    requires few_columns { matrix.now.columns ≤ 32 }
    requires row_totals { AreSeatTotals matrix.now.rows row_totals.now }
    requires column_totals { AreSeatTotals matrix.now.columns column_totals.now }
    requires votes { EachColumnHasVotes (question matrix.now row_totals.now column_totals.now) }
    requires balanced { AreBalanced (question matrix.now row_totals.now column_totals.now) }
{
    let (rows, columns) = (row_totals.len() as u32, column_totals.len() as u32);
    match find(alloc, matrix, row_totals, column_totals) {
        Ok(lower) => push_found(answer, &lower, rows, columns),
        Err(fault) => push_fault(
            alloc,
            fault,
            &matrix.question(row_totals, column_totals),
            answer,
        ),
    }
}

/// Appends the fewest and the most seats of each cell, if the search ends in a tie.
fn push_drawn(
    alloc: Global,
    matrix: &Matrix,
    row_totals: &[u32],
    column_totals: &[u32],
    answer: &mut String,
) -> Result<(), AllocError>
    requires some_column { 1 ≤ matrix.now.columns }
    requires row_totals { AreSeatTotals matrix.now.rows row_totals.now }
    requires column_totals { AreSeatTotals matrix.now.columns column_totals.now }
    requires votes { EachColumnHasVotes (question matrix.now row_totals.now column_totals.now) }
{
    match find_or_reason(alloc, matrix, row_totals, column_totals) {
        Err(NoLower::Tied(tie)) => {
            let question = matrix.question(row_totals, column_totals);
            push_ranges(answer, &lot(alloc, &question, &tie)?, question.columns)
        }
        Err(NoLower::Memory) => Err(AllocError),
        _ => answer.push_str("no tie"),
    }
}

/// The totals of rows or of columns.
fn totals_in(alloc: Global, numbers: &[u64]) -> Result<Vec<u32>, AllocError> {
    let mut totals = Vec::new(alloc);
    for number in numbers {
        totals.push((*number).min(401) as u32)?;
    }
    Ok(totals)
}

/// Appends the answer to a question about these votes.
fn push_of_matrix(
    alloc: Global,
    whom: Whom,
    matrix: &Matrix,
    row_totals: &[u32],
    column_totals: &[u32],
    answer: &mut String,
) -> Result<(), CaseFault>
    requires few_rows { matrix.now.rows ≤ 32 }
    requires some_column { 1 ≤ matrix.now.columns }
    requires few_columns { matrix.now.columns ≤ 32 }
    requires row_totals { AreSeatTotals matrix.now.rows row_totals.now }
    requires column_totals { AreSeatTotals matrix.now.columns column_totals.now }
{
    let question = matrix.question(row_totals, column_totals);
    if !each_column_has_votes(&question) || !are_balanced(&question) {
        return Err(CaseFault::Text(
            "each column has votes, and rows and columns are to get as many seats",
        ));
    }
    match whom {
        Whom::Searches => push_searched(alloc, matrix, row_totals, column_totals, answer)?,
        Whom::Decision => push_decided(alloc, &question, whom, answer)?,
        Whom::Lot => push_drawn(alloc, matrix, row_totals, column_totals, answer)?,
    }
    Ok(())
}

/// Appends the answer to the question with these totals and votes, row by row.
fn push_of_totals(
    alloc: Global,
    whom: Whom,
    row_totals: &[u32],
    column_totals: &[u32],
    votes: &[u64],
    answer: &mut String,
) -> Result<(), CaseFault> {
    let (rows, columns) = (row_totals.len(), column_totals.len());
    if !are_totals(row_totals) || !are_totals(column_totals) {
        return Err(CaseFault::Text("there are 1 to 32 rows and columns, each with 1 to 400 seats"));
    }
    if !are_votes(rows * columns, votes) {
        return Err(CaseFault::Text("each row has the votes of each column, at most 10^14"));
    }
    let matrix = Matrix::new(alloc, rows, columns, votes)?;
    push_of_matrix(alloc, whom, &matrix, row_totals, column_totals, answer)
}

/// Appends the answer to the question in these numbers: how many rows and columns there are, the seats of each row and of each
/// column, and the votes, row by row.
fn push_answer(
    alloc: Global,
    whom: Whom,
    numbers: &[u64],
    answer: &mut String,
) -> Result<(), CaseFault> {
    let [rows, columns, rest @ ..] = numbers else {
        return Err(CaseFault::Text("a question has rows and columns"));
    };
    let (rows, columns) = (*rows as usize, *columns as usize);
    let (Some(of_rows), Some(rest)) = (rest.get(..rows), rest.get(rows..)) else {
        return Err(CaseFault::Text("a question has a total for each row"));
    };
    let (Some(of_columns), Some(votes)) = (rest.get(..columns), rest.get(columns..)) else {
        return Err(CaseFault::Text("a question has a total for each column"));
    };
    let (of_rows, of_columns) = (totals_in(alloc, of_rows)?, totals_in(alloc, of_columns)?);
    push_of_totals(alloc, whom, &of_rows, &of_columns, votes, answer)
}

/// Answers the question in these numbers.
///
/// The answer is `seats`, row by row, with the divisors of the rows and of the columns in millionths; `no votes` with a row;
/// `tied` with a row and a column; or, if the search is exhausted, the reason: `impossible` with the rows, `nearly tied` with a
/// row and a column, or `beyond` or `missed` with the seats. The decision answers `seats` with its own divisors, or a reason
/// other than `missed`. The lot answers `least` and `most` with seats, or `no tie`.
pub(crate) fn ask(
    fixture: &mut Fixture<'_>,
    whom: Whom,
    numbers: &str,
    answer: &mut String,
) -> Result<(), CaseFault> {
    let numbers = numbers_in(fixture.alloc, numbers)?;
    fixture.begin()?;
    let answered = push_answer(fixture.alloc, whom, &numbers, answer);
    fixture.end();
    if let Err(CaseFault::Memory(_)) = answered {
        answer.clear();
        return Ok(answer.push_str("memory")?);
    }
    answered
}
