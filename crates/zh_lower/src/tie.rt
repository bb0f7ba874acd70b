//! A tie: the divisors from which two different matrices follow weakly, and the seats that the lot decides.
ghost use Rattle.std.specs.Bool.{OnFalse, OnTrue};
ghost use Rattle.std.specs.Prelude.{◌≡◌, ℕ, ◌*◌, ◌<◌, IfOk, length, slice_index, min};
ghost use Rattle.zh_decided.specs.Bounds.{IsAnotherAt, IsFixedAt, IsWithin, asked_in, bounds_of};
ghost use Rattle.zh_lower.specs.SearchRooms.{IsSearchRoom, divisors_of};
ghost use Rattle.zh_lower.specs.Ties.{EncloseDraws, HasRangeAt, IsLowerTie};
ghost use Rattle.zh_matrices.specs.Asked.{asked};
ghost use Rattle.zh_matrices.specs.Divisors.{AreWithinLimits};
ghost use Rattle.zh_matrices.specs.Lots.{AreRanges};
ghost use Rattle.zh_lower.specs.SeatBounds as words;

use crate::alternating_scaling::{SearchRoom, SearchState};
use crate::quotient::{half_down, product_at, quotient_at};
use std::alloc::{AllocError, Global};
use zh_decided::{CellBounds, differ_at};
use zh_matrices::Question;

/// A tie that the search reached: its divisors, and one of the matrices that follow weakly from them.
#[derive(Drop)]
pub struct Tie {
    /// The row and the column of the first quotient on a half, counted from 1.
    pub row: u32,
    pub column: u32,
    pub divisors: SearchState,
    pub seats: Vec<u32>,
}

/// The fewest and the most seats of each cell over all matrices that may be drawn, row by row.
#[derive(Drop)]
pub struct Ranges {
    pub least: Vec<u32>,
    pub most: Vec<u32>,
}

/// Whether some matrix within the bounds has a different number of seats in a cell. If so, one is written to `others`.
fn may_change(bounds: &CellBounds<'_>, seats: &[u32], place: usize, others: &mut [u32]) -> bool
    requires within { IsWithin (asked_in bounds.now) (bounds_of bounds.now) seats.now }
    requires place { place < bounds.now.question.now.rows * bounds.now.question.now.columns }
    requires others { length others.old ≡ bounds.now.question.now.rows * bounds.now.question.now.columns }
    ensures differs { OnTrue result (IsAnotherAt (asked_in bounds.now) (bounds_of bounds.now) seats.now place others.new) }
    ensures same { OnFalse result (IsFixedAt (asked_in bounds.now) (bounds_of bounds.now) seats.now place) }
{
    bounds.least[place] < bounds.most[place] && differ_at(bounds, seats, place, others)
}

/// The fewest and the most seats of a cell over all matrices that may be drawn: its two bounds, or the one number that all of
/// them have there. Overwrites `others`.
fn range_at(bounds: &CellBounds<'_>, seats: &[u32], place: usize, others: &mut [u32]) -> (u32, u32)
    requires enclose { EncloseDraws (asked_in bounds.now) (bounds_of bounds.now) }
    requires within { IsWithin (asked_in bounds.now) (bounds_of bounds.now) seats.now }
    requires place { place < bounds.now.question.now.rows * bounds.now.question.now.columns }
    requires others { length others.old ≡ bounds.now.question.now.rows * bounds.now.question.now.columns }
    ensures { HasRangeAt (asked_in bounds.now) place result.0 result.1 }
{
    if may_change(bounds, seats, place, others) {
        (bounds.least[place], bounds.most[place])
    } else {
        (seats[place], seats[place])
    }
}

/// Writes the range of each cell to `ranges`.
fn take_ranges(bounds: &CellBounds<'_>, seats: &[u32], others: &mut [u32], ranges: &mut Ranges)
    requires enclose { EncloseDraws (asked_in bounds.now) (bounds_of bounds.now) }
    requires within { IsWithin (asked_in bounds.now) (bounds_of bounds.now) seats.now }
    requires others { length others.old ≡ bounds.now.question.now.rows * bounds.now.question.now.columns }
    requires least { length ranges.old.least.items ≡ bounds.now.question.now.rows * bounds.now.question.now.columns }
    requires most { length ranges.old.most.items ≡ bounds.now.question.now.rows * bounds.now.question.now.columns }
    ensures { AreRanges (asked_in bounds.now) ranges.new.least.items ranges.new.most.items }
{
    for place in 0..seats.len() {
        let (least, most) = range_at(bounds, seats, place, others);
        ranges.least[place] = least;
        ranges.most[place] = most;
    }
}

/// The fewest and the most seats of each cell over all matrices that may be drawn at a tie.
///
/// The matrices between which the lot decides differ exactly in the cells whose two numbers differ. Fails if memory is refused;
/// all memory is allocated at the start.
pub fn lot(alloc: Global, question: &Question<'_>, tie: &Tie) -> Result<Ranges, AllocError>
    requires { IsLowerTie (asked question.now) tie.now }
    ensures { IfOk result (λ ranges. AreRanges (asked question.now) ranges.least.items ranges.most.items) }
{
    let cells = question.votes.len();
    let mut least = vec![in alloc; 0; cells]?;
    let mut most = vec![in alloc; 0; cells]?;
    let mut others = vec![in alloc; 0; cells]?;
    let mut ranges = Ranges {
        least: vec![in alloc; 0; cells]?,
        most: vec![in alloc; 0; cells]?,
    };
    bound_cells(question, &tie.divisors, &mut least, &mut most);
    let bounds = CellBounds {
        question,
        least: least.as_slice(),
        most: most.as_slice(),
    };
    take_ranges(&bounds, &tie.seats, &mut others, &mut ranges);
    Ok(ranges)
}

/// A quotient as a number of seats, capped at 401, which is more than any row gets.
fn bounded(quotient: u128) -> u32
    ensures { result ≡ min 401 quotient }
{
    quotient.min(401) as u32
}

/// The fewest seats that the divisors of a state allow the cell in a place.
fn least_at(question: &Question<'_>, state: &SearchState, place: usize) -> u32
    requires limits { AreWithinLimits (asked question.now) state.now.of_rows.items state.now.of_columns.items }
    requires place { place < question.now.rows * question.now.columns }
    ensures { result ≡ words.least_at (asked question.now) (divisors_of state.now) place }
{
    let product = product_at(question, &state.of_rows, &state.of_columns, place);
    bounded(half_down(question.votes[place], product))
}

/// The most seats that the divisors of a state allow the cell in a place.
fn most_at(question: &Question<'_>, state: &SearchState, place: usize) -> u32
    requires limits { AreWithinLimits (asked question.now) state.now.of_rows.items state.now.of_columns.items }
    requires place { place < question.now.rows * question.now.columns }
    ensures { result ≡ words.most_at (asked question.now) (divisors_of state.now) place }
{
    bounded(quotient_at(question, state, place).rounded)
}

/// The fewest and the most seats that the divisors of a state allow each cell, row by row.
pub fn bound_cells(
    question: &Question<'_>,
    state: &SearchState,
    least: &mut [u32],
    most: &mut [u32],
)
    requires limits { AreWithinLimits (asked question.now) state.now.of_rows.items state.now.of_columns.items }
    requires least { length least.old ≡ question.now.rows * question.now.columns }
    requires most { length most.old ≡ question.now.rows * question.now.columns }
    ensures least { least.new ≡ words.least_seats (asked question.now) (divisors_of state.now) }
    ensures most { most.new ≡ words.most_seats (asked question.now) (divisors_of state.now) }
{
    for place in 0..question.votes.len() {
        least[place] = least_at(question, state, place);
        most[place] = most_at(question, state, place);
    }
}

/// Leaves in the room the fewest and the most seats that the divisors of a state allow each cell.
pub(crate) fn bound_room(question: &Question<'_>, state: &SearchState, room: &mut SearchRoom)
    requires limits { AreWithinLimits (asked question.now) state.now.of_rows.items state.now.of_columns.items }
    requires room { IsSearchRoom (asked question.now) room.old }
    ensures least { room.new.least.items ≡ words.least_seats (asked question.now) (divisors_of state.now) }
    ensures most { room.new.most.items ≡ words.most_seats (asked question.now) (divisors_of state.now) }
    ensures room { IsSearchRoom (asked question.now) room.new }
    ensures quotients { room.new.quotients.items ≡ room.old.quotients.items }
{
    bound_cells(question, state, &mut room.least, &mut room.most);
}
