//! A sheet from given seats of the lists and given divisors, without a search.
ghost use Rattle.std.specs.Prelude.{◌≡◌, ◌≤◌, ◌↔◌, IfOk, IsTrue, length};
ghost use Rattle.zh_matrices.specs.Divisors.{AreWithin};
ghost use Rattle.zh_sheet.specs.Given.{DoFit, DoFollow, IsGiven, given_lists};
ghost use Rattle.zh_sheet.specs.Stages.{CanBeAsked, IsAsked, question_in};
ghost use Rattle.zh_totals.specs.Hidden.{NoneHidden, NoneHiddenIn};

use crate::fault::SheetFault;
use crate::list_question::ListQuestion;
use crate::sheet::Sheet;
use std::alloc::{AllocError, Global};
use zh_lower::Lower;
use zh_matrices::{MOST_OF_COLUMN, MOST_OF_ROW, is_strict};
use zh_totals::Totals;

/// Whether each list with votes in a constituency stands there.
fn none_hidden_in(totals: &Totals<'_>, constituency: u32) -> bool
    requires from_one { 1 ≤ constituency }
    requires there { constituency ≤ length totals.now.canton.constituencies }
    ensures { IsTrue result ↔ NoneHiddenIn totals.now constituency }
{
    let setup = totals.setup();
    for place in 0..setup.groups() {
        if !setup.stands(constituency, place + 1) && totals.votes(constituency, place + 1) > 0 {
            return false;
        }
    }
    true
}

/// Whether each list with votes stands in the constituency where it has them.
fn none_hidden(totals: &Totals<'_>) -> bool
    ensures { IsTrue result ↔ NoneHidden totals.now }
{
    for place in 0..totals.setup().constituencies() {
        if !none_hidden_in(totals, place + 1) {
            return false;
        }
    }
    true
}

/// Whether there is one divisor for each of these lines, from 1 to `most`.
fn are_within(lines: usize, most: u64, divisors: &[u64]) -> bool
    ensures { IsTrue result ↔ AreWithin lines most divisors.now }
{
    divisors.len() == lines && divisors.iter().all(|x| *x >= 1 && *x <= most)
}

/// Whether seats and divisors have these sizes, the divisors are within the limits, and each list has at most 400 seats.
fn do_fit(
    rows: usize,
    columns: usize,
    seats: &[u32],
    row_divisors: &[u64],
    column_divisors: &[u64],
) -> bool
    requires rows { rows ≤ 32 }
    requires columns { columns ≤ 32 }
    ensures { IsTrue result ↔ DoFit rows columns (given_lists seats.now row_divisors.now column_divisors.now) }
{
    are_within(rows, MOST_OF_ROW, row_divisors)
        && are_within(columns, MOST_OF_COLUMN, column_divisors)
        && seats.len() == rows * columns
        && seats.iter().all(|x| *x <= 400)
}

/// Whether the divisors are within the limits, and the seats of the lists follow from them.
fn do_follow(
    asked: &ListQuestion,
    seats: &[u32],
    row_divisors: &[u64],
    column_divisors: &[u64],
) -> bool
    requires { CanBeAsked (question_in asked.now) }
    ensures { IsTrue result ↔ DoFollow (question_in asked.now) (given_lists seats.now row_divisors.now column_divisors.now) }
{
    let row_totals = asked.above.seats.seats();
    let column_totals = asked.column_totals.as_slice();
    let (rows, columns) = (row_totals.len(), column_totals.len());
    do_fit(rows, columns, seats, row_divisors, column_divisors)
        && is_strict(
            &asked.matrix,
            row_totals,
            column_totals,
            seats,
            row_divisors,
            column_divisors,
        )
}

/// The sheet with these seats and divisors of the lists. None if the divisors are not within the limits, or if the seats do not
/// follow from them.
fn with_given<'s>(
    alloc: Global,
    totals: &Totals<'s>,
    asked: ListQuestion,
    seats: Vec<u32>,
    row_divisors: Vec<u64>,
    column_divisors: Vec<u64>,
) -> Result<Option<Sheet<'s>>, AllocError>
    requires asked { IsAsked totals.now asked }
    requires votes { NoneHidden totals.now }
    ensures { IfOk result (IsGiven totals.now (given_lists seats.items row_divisors.items column_divisors.items)) }
{
    if !do_follow(&asked, &seats, &row_divisors, &column_divisors) {
        return Ok(None);
    }
    let totals = totals.copy(alloc)?;
    let lower = Lower::new(seats, row_divisors, column_divisors);
    Ok(Some(Sheet::with_lists(totals, asked, lower)))
}

/// The sheet of these totals with these seats of the lists and these divisors. None if they are not a distribution of these
/// totals. There is no search: any divisors within the limits will do if they give the seats with no quotient on a half. Fails
/// if memory is refused.
///
/// `seats` are those of the groups with seats in the whole canton, constituency by constituency. Divisors are in millionths: 1
/// to 10^18 for each constituency, and 1 to 10^12 for each of those groups. If a list has votes where it does not stand, there
/// is no sheet of the totals, since no sheet shows such votes.
pub fn given<'s>(
    alloc: Global,
    totals: &Totals<'s>,
    seats: Vec<u32>,
    row_divisors: Vec<u64>,
    column_divisors: Vec<u64>,
) -> Result<Option<Sheet<'s>>, AllocError>
    ensures { IfOk result (IsGiven totals.now (given_lists seats.items row_divisors.items column_divisors.items)) }
{
    if !none_hidden(totals) {
        return Ok(None);
    }
    match ListQuestion::of(alloc, totals) {
        Ok(asked) => with_given(alloc, totals, asked, seats, row_divisors, column_divisors),
        Err(fault) => match fault {
            SheetFault::Memory => Err(AllocError),
            _ => Ok(None),
        },
    }
}
