//! Biproportional apportionment by discrete alternating scaling: a start, and then rounds of two half-steps, first of the
//! columns and then of the rows. docs/DEFINITIONS.md calls it the search.
ghost use Rattle.std.specs.Prelude.{◌≡◌, IfNone, IfSome};
ghost use Rattle.zh_lower.specs.Outcomes.{IsEnding, EndsRound, RoundGoesOn, IsProper, IsReached, NoneBefore};
ghost use Rattle.zh_lower.specs.Places.{quotients as quotients_of};
ghost use Rattle.zh_lower.specs.SearchRooms.{IsSearchRoom, IsBeforeStart, divisors_of};
ghost use Rattle.zh_lower.specs.States.{start, with_columns_renewed, with_rows_renewed};
ghost use Rattle.zh_matrices.specs.Asked.{asked};
ghost use Rattle.zh_matrices.specs.Divisors.{AreWithinLimits};

use crate::end_test::{Ending, end_test};
use crate::half_step::{middle_rows, renew_columns, renew_rows};
use crate::quotient::Quotient;
use std::alloc::{AllocError, Global};
use zh_matrices::Question;

/// A state: the divisors of all rows and of all columns, in millionths.
#[derive(Drop)]
pub struct SearchState {
    pub of_rows: Vec<u64>,
    pub of_columns: Vec<u64>,
}

impl SearchState {
    ghost use Rattle.std.specs.Prelude.{IfOk};
    ghost use Rattle.zh_matrices.specs.Asked.{asked};
    ghost use Rattle.zh_lower.specs.SearchRooms.{IsBeforeStart};

    /// The state before the start: every column has the divisor 1, and the rows have none yet. Fails if memory is refused.
    pub fn new(alloc: Global, question: &Question<'_>) -> Result<SearchState, AllocError>
        ensures { IfOk result (IsBeforeStart (asked question.now)) }
    {
        Ok(SearchState {
            of_rows: vec![in alloc; 0; question.rows]?,
            of_columns: vec![in alloc; 1_000_000; question.columns]?,
        })
    }
}

/// The working memory of a search: the quotients of the cells, two matrices of seats, and the bounds of each cell.
#[derive(Drop)]
pub struct SearchRoom {
    pub(crate) quotients: Vec<Quotient>,
    pub seats: Vec<u32>,
    /// The other matrix of a tie: the same divisors give it if halves are rounded differently.
    pub others: Vec<u32>,
    /// The fewest and the most seats that the divisors allow each cell.
    pub(crate) least: Vec<u32>,
    pub(crate) most: Vec<u32>,
}

impl SearchRoom {
    ghost use Rattle.std.specs.Prelude.{IfOk};
    ghost use Rattle.zh_matrices.specs.Asked.{asked};
    ghost use Rattle.zh_lower.specs.SearchRooms.{IsSearchRoom};

    /// Room for the cells of a question. Fails if memory is refused.
    pub fn new(alloc: Global, question: &Question<'_>) -> Result<SearchRoom, AllocError>
        ensures { IfOk result (IsSearchRoom (asked question.now)) }
    {
        let cells = question.votes.len();
        Ok(SearchRoom {
            quotients: vec![in alloc; Quotient::NONE; cells]?,
            seats: vec![in alloc; 0; cells]?,
            others: vec![in alloc; 0; cells]?,
            least: vec![in alloc; 0; cells]?,
            most: vec![in alloc; 0; cells]?,
        })
    }
}

/// The most rounds of a search.
const ROUNDS: u32 = 1000;

/// A half-step of the columns. `room` must contain the quotients of the state before it.
fn step_columns(question: &Question<'_>, state: &mut SearchState, room: &SearchRoom)
    requires proper { IsProper (asked question.now) }
    requires limits { AreWithinLimits (asked question.now) state.old.of_rows.items state.old.of_columns.items }
    requires quotients { room.now.quotients.items ≡ quotients_of (asked question.now) (divisors_of state.old) }
    ensures columns { divisors_of state.new ≡ with_columns_renewed (asked question.now) (divisors_of state.old) }
    ensures limits { AreWithinLimits (asked question.now) state.new.of_rows.items state.new.of_columns.items }
{
    renew_columns(
        question,
        &state.of_rows,
        &mut state.of_columns,
        &room.quotients,
    );
}

/// A half-step of the rows. `room` must contain the quotients of the state before it.
fn step_rows(question: &Question<'_>, state: &mut SearchState, room: &SearchRoom)
    requires proper { IsProper (asked question.now) }
    requires limits { AreWithinLimits (asked question.now) state.old.of_rows.items state.old.of_columns.items }
    requires quotients { room.now.quotients.items ≡ quotients_of (asked question.now) (divisors_of state.old) }
    ensures rows { divisors_of state.new ≡ with_rows_renewed (asked question.now) (divisors_of state.old) }
    ensures limits { AreWithinLimits (asked question.now) state.new.of_rows.items state.new.of_columns.items }
{
    renew_rows(
        question,
        &state.of_columns,
        &mut state.of_rows,
        &room.quotients,
    );
}

/// The start: each row gets its divisor by the rule of a line (`line`), with the divisor 1 for every column.
fn start_rows(question: &Question<'_>, state: &mut SearchState)
    requires proper { IsProper (asked question.now) }
    requires unstarted { IsBeforeStart (asked question.now) state.old }
    ensures start { divisors_of state.new ≡ start (asked question.now) }
    ensures limits { AreWithinLimits (asked question.now) state.new.of_rows.items state.new.of_columns.items }
{
    middle_rows(question, &state.of_columns, &mut state.of_rows);
}

/// A half-step of the columns, the end test and, if that does not end the search, a half-step of the rows and the end test again.
/// `room` contains the quotients of the state before the round, and afterwards those of the last state.
fn round(question: &Question<'_>, state: &mut SearchState, room: &mut SearchRoom) -> Option<Ending>
    requires proper { IsProper (asked question.now) }
    requires limits { AreWithinLimits (asked question.now) state.old.of_rows.items state.old.of_columns.items }
    requires room { IsSearchRoom (asked question.now) room.old }
    requires quotients { room.old.quotients.items ≡ quotients_of (asked question.now) (divisors_of state.old) }
    ensures quotients { room.new.quotients.items ≡ quotients_of (asked question.now) (divisors_of state.new) }
    ensures limits { AreWithinLimits (asked question.now) state.new.of_rows.items state.new.of_columns.items }
    ensures ends { IfSome result
        (IsEnding (asked question.now) (divisors_of state.new) room.new.seats.items room.new.others.items) }
    ensures ends_round { IfSome result (λ _. EndsRound (asked question.now) (divisors_of state.old) (divisors_of state.new)) }
    ensures goes_on { IfNone result (RoundGoesOn (asked question.now) (divisors_of state.old) (divisors_of state.new)) }
    ensures room { IsSearchRoom (asked question.now) room.new }
{
    step_columns(question, state, room);
    if let Some(ending) = end_test(question, state, room) {
        return Some(ending);
    }
    step_rows(question, state, room);
    end_test(question, state, room)
}

/// The end test at the start, and then up to 1,000 rounds. `None` if none of these 2,001 states ends the search.
fn rounds(question: &Question<'_>, state: &mut SearchState, room: &mut SearchRoom) -> Option<Ending>
    requires proper { IsProper (asked question.now) }
    requires limits { AreWithinLimits (asked question.now) state.old.of_rows.items state.old.of_columns.items }
    requires room { IsSearchRoom (asked question.now) room.old }
    requires start { divisors_of state.old ≡ start (asked question.now) }
    ensures limits { AreWithinLimits (asked question.now) state.new.of_rows.items state.new.of_columns.items }
    ensures ends { IfSome result
        (IsEnding (asked question.now) (divisors_of state.new) room.new.seats.items room.new.others.items) }
    ensures reached { IfSome result (λ _. IsReached (asked question.now) (divisors_of state.new)) }
    ensures none { IfNone result (NoneBefore (asked question.now) 2001) }
    ensures room { IsSearchRoom (asked question.now) room.new }
{
    if let Some(ending) = end_test(question, state, room) {
        return Some(ending);
    }
    for _round in 0..ROUNDS {
        if let Some(ending) = round(question, state, room) {
            return Some(ending);
        }
    }
    None
}

/// The search: from the start, with the divisor 1 for every column, through up to 1,000 rounds. All divisors are in millionths.
///
/// `None` if none of the 2,001 states gives seats or is tied. Otherwise `state` is the first that gives seats or is tied, and
/// `room` contains the seats that were found, or both matrices of the tie.
pub fn search(
    question: &Question<'_>,
    state: &mut SearchState,
    room: &mut SearchRoom,
) -> Option<Ending>
    requires proper { IsProper (asked question.now) }
    requires unstarted { IsBeforeStart (asked question.now) state.old }
    requires room { IsSearchRoom (asked question.now) room.old }
    ensures limits { AreWithinLimits (asked question.now) state.new.of_rows.items state.new.of_columns.items }
    ensures ends { IfSome result
        (IsEnding (asked question.now) (divisors_of state.new) room.new.seats.items room.new.others.items) }
    ensures reached { IfSome result (λ _. IsReached (asked question.now) (divisors_of state.new)) }
    ensures none { IfNone result (NoneBefore (asked question.now) 2001) }
    ensures room { IsSearchRoom (asked question.now) room.new }
{
    start_rows(question, state);
    rounds(question, state, room)
}
