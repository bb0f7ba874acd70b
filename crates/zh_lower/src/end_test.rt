//! The end test of the alternating scaling: whether a state gives seats or is tied.
ghost use Rattle.std.specs.Bool.{OnFalse, OnTrue};
ghost use Rattle.std.specs.Prelude.{◌≡◌, ◌≤◌, ◌↔◌, All, IfNone, IfSome, IsTrue, ◌≢◌, ℕ, ◌*◌, List, length};
ghost use Rattle.zh_decided.specs.Bounds.{IsWithin, asked_in, bounds_of};
ghost use Rattle.zh_lower.specs.Outcomes.{IsEnding, IsNoEnd, IsProper, AreTwoWays, IsNotTied};
ghost use Rattle.zh_lower.specs.Places.{quotients as quotients_of};
ghost use Rattle.zh_lower.specs.SearchRooms.{IsSearchRoom, divisors_of};
ghost use Rattle.zh_matrices.specs.Asked.{asked};
ghost use Rattle.zh_matrices.specs.Divisors.{AreWithinLimits};
ghost use Rattle.zh_matrices.specs.SeatMatrix.{IsStrict};

use crate::alternating_scaling::{SearchRoom, SearchState};
use crate::quotient::{first_half, round_cells};
use crate::tie::bound_room;
use zh_decided::{CellBounds, differ_at, fill_within};
use zh_matrices::{Proposal, Question, Rounding, follows};

/// How a search ends.
#[derive(Clone, Copy)]
pub enum Ending {
    /// The seats in the room follow strictly from the divisors of the state.
    Found,
    /// Two different matrices follow weakly from the divisors of the state. The first quotient on a half is in this row and this
    /// column, both counted from 1.
    Tied(u32, u32),
}

/// Whether the seats in the room follow strictly from the divisors of a state.
fn are_strict(question: &Question<'_>, state: &SearchState, room: &SearchRoom) -> bool
    requires limits { AreWithinLimits (asked question.now) state.now.of_rows.items state.now.of_columns.items }
    requires room { IsSearchRoom (asked question.now) room.now }
    requires few { All (λ s. s ≤ 400) room.now.seats.items }
    ensures { IsTrue result ↔ IsStrict (asked question.now) (divisors_of state.now) room.now.seats.items }
{
    let proposal = Proposal {
        question: &*question,
        seats: room.seats.as_slice(),
    };
    follows(
        Rounding::Strict,
        &proposal,
        &state.of_rows,
        &state.of_columns,
    )
}

/// The end test at a state of the search. It leaves in the room the quotients of the state, and the seats that were found or
/// both matrices of a tie. `None` if the state neither gives seats nor is tied.
pub(crate) fn end_test(
    question: &Question<'_>,
    state: &SearchState,
    room: &mut SearchRoom,
) -> Option<Ending>
    requires proper { IsProper (asked question.now) }
    requires limits { AreWithinLimits (asked question.now) state.now.of_rows.items state.now.of_columns.items }
    requires room { IsSearchRoom (asked question.now) room.old }
    ensures quotients { room.new.quotients.items ≡ quotients_of (asked question.now) (divisors_of state.now) }
    ensures ends { IfSome result
        (IsEnding (asked question.now) (divisors_of state.now) room.new.seats.items room.new.others.items) }
    ensures none { IfNone result (IsNoEnd (asked question.now) (divisors_of state.now)) }
    ensures room { IsSearchRoom (asked question.now) room.new }
{
    round_cells(question, state, room);
    if are_strict(question, state, room) {
        return Some(Ending::Found);
    }
    if let Some((row, column)) = first_half(question, room) {
        if find_two_ways(question, state, room) {
            return Some(Ending::Tied(row, column));
        }
    }
    None
}

/// Writes a different matrix within the bounds to `others`. False if there is none.
fn find_other(bounds: &CellBounds<'_>, seats: &[u32], others: &mut [u32]) -> bool
    requires within { IsWithin (asked_in bounds.now) (bounds_of bounds.now) seats.now }
    requires others { length others.old ≡ bounds.now.question.now.rows * bounds.now.question.now.columns }
    ensures within { OnTrue result (IsWithin (asked_in bounds.now) (bounds_of bounds.now) others.new) }
    ensures differ { IsTrue result → seats.now ≢ others.new }
    ensures only { OnFalse result ((s : List ℕ) → IsWithin (asked_in bounds.now) (bounds_of bounds.now) s → s ≡ seats.now) }
{
    for place in 0..seats.len() {
        if differ_at(bounds, seats, place, others) {
            return true;
        }
    }
    false
}

/// Writes two different matrices within the bounds to `seats` and `others`. False if there are none.
fn find_both(bounds: &CellBounds<'_>, seats: &mut [u32], others: &mut [u32]) -> bool
    requires seats { length seats.old ≡ bounds.now.question.now.rows * bounds.now.question.now.columns }
    requires others { length others.old ≡ bounds.now.question.now.rows * bounds.now.question.now.columns }
    ensures one { OnTrue result (IsWithin (asked_in bounds.now) (bounds_of bounds.now) seats.new) }
    ensures other { OnTrue result (IsWithin (asked_in bounds.now) (bounds_of bounds.now) others.new) }
    ensures differ { IsTrue result → seats.new ≢ others.new }
    ensures none { OnFalse result ((s t : List ℕ) → IsWithin (asked_in bounds.now) (bounds_of bounds.now) s →
        IsWithin (asked_in bounds.now) (bounds_of bounds.now) t → s ≡ t) }
{
    if !fill_within(bounds, seats) {
        return false;
    }
    find_other(bounds, seats, others)
}

/// Leaves in the room two different matrices that follow weakly from the divisors of a state. False if there are none.
pub(crate) fn find_two_ways(
    question: &Question<'_>,
    state: &SearchState,
    room: &mut SearchRoom,
) -> bool
    requires proper { IsProper (asked question.now) }
    requires limits { AreWithinLimits (asked question.now) state.now.of_rows.items state.now.of_columns.items }
    requires room { IsSearchRoom (asked question.now) room.old }
    ensures two { OnTrue result
        (AreTwoWays (asked question.now) (divisors_of state.now) room.new.seats.items room.new.others.items) }
    ensures none { OnFalse result (IsNotTied (asked question.now) (divisors_of state.now)) }
    ensures room { IsSearchRoom (asked question.now) room.new }
    ensures quotients { room.new.quotients.items ≡ room.old.quotients.items }
{
    bound_room(question, state, room);
    let bounds = CellBounds {
        question: &*question,
        least: room.least.as_slice(),
        most: room.most.as_slice(),
    };
    find_both(&bounds, &mut room.seats, &mut room.others)
}
