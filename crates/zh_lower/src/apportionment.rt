//! The lower apportionment as a whole (biproportional): seats by the search or, if it finds none, by the decision.
ghost use Rattle.std.specs.Prelude.{◌≡◌, ℕ, ◌*◌, IfOk, IsErrOf, List, length, ◌<◌, ◌↔◌, IfNone, IfSome, IsTrue};
ghost use Rattle.zh_decided.specs.Ways.{AreBalanced};
ghost use Rattle.zh_lower.specs.Outcomes.{IsProper, NoneBefore};
ghost use Rattle.zh_lower.specs.Reasons.{HandsOver};
ghost use Rattle.zh_lower.specs.SearchRooms.{divisors_of};
ghost use Rattle.zh_lower.specs.Seating.{LowerOutcome};
ghost use Rattle.zh_lower.specs.Tables.{AreStarted, AreTables};
ghost use Rattle.zh_matrices.specs.Asked.{asked};
ghost use Rattle.zh_matrices.specs.Divisors.{Divisors};
ghost use Rattle.zh_matrices.specs.Question.{AreSeatTotals, EachColumnHasVotes, IsFirstWithoutVotes, question, EachRowHasVotes, HasVotes};
ghost use Rattle.zh_matrices.specs.Question.{row_votes};
ghost use Rattle.zh_matrices.specs.SeatMatrix.{IsStrict, IsWeak};

use crate::alternating_scaling::{SearchRoom, SearchState, search};
use crate::divisors::DivisorRoom;
use crate::end_test::Ending;
use crate::fallback::{Decided, seats_by_decision};
use crate::lower::{Lower, LowerFault, NoLower};
use crate::tie::Tie;
use std::alloc::{AllocError, Global};
use zh_decided::{DecisionRoom, are_balanced, decide};
use zh_matrices::{Matrix, Question};

/// A state of the search, and the room for the search, for the decision and for the divisors. All memory is allocated before
/// the search begins.
#[derive(Drop)]
pub(crate) struct Tables {
    pub state: SearchState,
    pub room: SearchRoom,
    pub decision: DecisionRoom,
    pub divisors: DivisorRoom,
}

impl Tables {
    ghost use Rattle.std.specs.Prelude.{IfOk};
    ghost use Rattle.zh_matrices.specs.Asked.{asked};
    ghost use Rattle.zh_lower.specs.Tables.{AreStarted};

    /// The tables of a search that has not begun. Fails if memory is refused.
    pub fn new(alloc: Global, question: &Question<'_>) -> Result<Tables, AllocError>
        ensures { IfOk result (AreStarted (asked question.now)) }
    {
        Ok(Tables {
            state: SearchState::new(alloc, question)?,
            room: SearchRoom::new(alloc, question)?,
            decision: DecisionRoom::new(alloc, question.rows, question.columns)?,
            divisors: DivisorRoom::new(alloc, question)?,
        })
    }
}

/// The seats and divisors that the search found.
fn found_on(tables: Tables) -> Lower
    requires { length tables.room.seats.items ≡ length tables.state.of_rows.items * length tables.state.of_columns.items }
    ensures { result ≡ record { seats = tables.room.seats.items; divisors = divisors_of tables.state } }
{
    let Tables { state, room, .. } = tables;
    Lower::new(room.seats, state.of_rows, state.of_columns)
}

/// The tie that the search reached.
fn tie_on(tables: Tables, row: u32, column: u32) -> Tie
    ensures { result ≡ record { row = row; column = column; divisors = tables.state; seats = tables.room.seats } }
{
    let Tables { state, room, .. } = tables;
    Tie {
        row,
        column,
        divisors: state,
        seats: room.seats,
    }
}

/// Seats with divisors by the decision, after a search that found none.
fn decided_seats_on(tables: Tables, question: &Question<'_>) -> Result<Lower, NoLower>
    requires proper { IsProper (asked question.now) }
    requires balanced { AreBalanced (asked question.now) }
    requires tables { AreTables (asked question.now) tables }
    requires none { NoneBefore (asked question.now) 2001 }
    ensures { HandsOver (asked question.now) result }
{
    let Tables {
        mut room,
        decision: mut decision_room,
        mut divisors,
        ..
    } = tables;
    let decision = decide(question, &mut decision_room);
    let decided = Decided {
        decision,
        findings: decision_room.findings,
    };
    if !seats_by_decision(question, &decided, &mut room.seats, &mut divisors) {
        return Err(NoLower::Exhausted(decided));
    }
    Ok(Lower::new(room.seats, divisors.of_rows, divisors.of_columns))
}

/// Seats with divisors, by the search on these tables, or else by the decision.
fn seats_on(mut tables: Tables, question: &Question<'_>) -> Result<Lower, NoLower>
    requires proper { IsProper (asked question.now) }
    requires balanced { AreBalanced (asked question.now) }
    requires started { AreStarted (asked question.now) tables }
    ensures { HandsOver (asked question.now) result }
{
    let ending = search(question, &mut tables.state, &mut tables.room);
    match ending {
        Some(Ending::Found) => Ok(found_on(tables)),
        Some(Ending::Tied(row, column)) => Err(NoLower::Tied(tie_on(tables, row, column))),
        None => decided_seats_on(tables, question),
    }
}

/// The seats of each group in each constituency, as `find` gives them, or why there are none. A tie comes with what `lot` needs,
/// and an exhausted search with the decision that followed it. All memory is allocated before the search begins.
pub fn find_or_reason(
    alloc: Global,
    matrix: &Matrix,
    row_totals: &[u32],
    column_totals: &[u32],
) -> Result<Lower, NoLower>
    requires row_totals { AreSeatTotals matrix.now.rows row_totals.now }
    requires column_totals { AreSeatTotals matrix.now.columns column_totals.now }
    requires votes { EachColumnHasVotes (question matrix.now row_totals.now column_totals.now) }
    ensures outcome { HandsOver (question matrix.now row_totals.now column_totals.now) result }

    // A row without votes is reported even if memory is refused.
    ensures no_votes { (d : ℕ) → IsFirstWithoutVotes (question matrix.now row_totals.now column_totals.now) d →
        IsErrOf result (NoLower.NoVotes d) }
{
    let question = matrix.question(row_totals, column_totals);
    if let Some(row) = first_without_votes(&question) {
        return Err(NoLower::NoVotes(row));
    }
    if !are_balanced(&question) {
        return Err(NoLower::Unbalanced);
    }
    seats_on(Tables::new(alloc, &question)?, &question)
}

/// The seats of each group in each constituency (GPR section 104), with divisors that give them.
///
/// The votes of each cell, divided by its two divisors, round to its seats, with no quotient on a half, and all totals are met.
/// No divisors of any scale give other seats. The divisors are those of the first state of the search (docs/DEFINITIONS.md)
/// that gives seats. If none does, they are the middle of those that give the seats, or else those of the decision, made easier
/// to read if possible.
///
/// `Tied` is returned if the search reaches a state from which two different matrices follow weakly. `Exhausted` is returned if no
/// state gives seats or is tied, and the decision does not give seats either; or if the row totals and the column totals have
/// different sums. `Memory` can be returned in place of every answer but `NoVotes`.
pub fn find(
    alloc: Global,
    matrix: &Matrix,
    row_totals: &[u32],
    column_totals: &[u32],
) -> Result<Lower, LowerFault>
    requires row_totals { AreSeatTotals matrix.now.rows row_totals.now }
    requires column_totals { AreSeatTotals matrix.now.columns column_totals.now }
    requires votes { EachColumnHasVotes (question matrix.now row_totals.now column_totals.now) }
    ensures outcome { LowerOutcome (question matrix.now row_totals.now column_totals.now) result }

    // A row without votes is reported even if memory is refused.
    ensures no_votes { (d : ℕ) → IsFirstWithoutVotes (question matrix.now row_totals.now column_totals.now) d →
        IsErrOf result (LowerFault.NoVotes d) }

    // No other seats follow from any divisors. At a tie, no seats follow strictly.
    ensures one_answer { IfOk result (λ lower. (divisors : Divisors) (seats : List ℕ) →
        IsWeak (question matrix.now row_totals.now column_totals.now) divisors seats → seats ≡ lower.seats) }
    ensures no_answer { (d g : ℕ) → IsErrOf result (LowerFault.Tied d g) → (divisors : Divisors) (seats : List ℕ) →
        ¬ IsStrict (question matrix.now row_totals.now column_totals.now) divisors seats }
{
    Ok(find_or_reason(alloc, matrix, row_totals, column_totals)?)
}

/// Whether a row has a vote.
#[tactic(auto, using(crate::proofs::StepLemmas::sum_steps))]
fn row_has_votes(question: &Question<'_>, row: usize) -> bool
    requires { row < question.now.rows }
    ensures { IsTrue result ↔ HasVotes question.now.columns (row_votes (asked question.now) row) }
{
    for column in 0..question.columns {
        if question.votes[row * question.columns + column] > 0 {
            return true;
        }
    }
    false
}

/// The first row without a vote, counted from 1.
pub(crate) fn first_without_votes(question: &Question<'_>) -> Option<u32>
    ensures first { IfSome result (IsFirstWithoutVotes (asked question.now)) }
    ensures none { IfNone result (EachRowHasVotes (asked question.now)) }
{
    for row in 0..question.rows {
        if !row_has_votes(question, row) {
            return Some(row as u32 + 1);
        }
    }
    None
}
