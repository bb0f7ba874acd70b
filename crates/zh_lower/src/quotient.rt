//! Quotients of votes by products of divisors, in 128 bits, cell by cell.
ghost use Rattle.std.specs.List.{position};
ghost use Rattle.std.specs.Prelude.{◌≡◌, ◌*◌, ◌/◌, ◌%◌, ◌^◌, ◌≤◌, ◌==◌, ℕ, List, ◌<◌, IfNone, IfSome, min, length};
ghost use Rattle.zh_lower.specs.Outcomes.{IsFirstHalf};
ghost use Rattle.zh_lower.specs.SearchRooms.{IsSearchRoom, divisors_of};
ghost use Rattle.zh_matrices.specs.Asked.{asked};
ghost use Rattle.zh_matrices.specs.Divisors.{AreWithinLimits, millionths};
ghost use Rattle.zh_divisors.specs.Line as lines;
ghost use Rattle.zh_lower.specs.Places as places;
ghost use Rattle.zh_lower.specs.States as states;

use crate::alternating_scaling::{SearchRoom, SearchState};
use zh_matrices::Question;

/// A quotient, rounded to the nearest whole number (half up), and whether it is on a half.
#[derive(Clone, Copy)]
pub struct Quotient {
    pub rounded: u128,
    pub is_half: bool,
}

impl Quotient {
    pub const NONE: Quotient = Quotient {
        rounded: 0,
        is_half: false,
    };
}

/// The product of two divisors.
pub(crate) fn product(one: u64, other: u64) -> u128
    requires from_1 { 1 ≤ one }
    requires at_most { one ≤ 10 ^ 18 }
    requires other_from_1 { 1 ≤ other }
    requires other_at_most { other ≤ 10 ^ 18 }
    ensures product { result ≡ one * other }
    ensures from_1 { 1 ≤ result }
    ensures at_most { result ≤ 10 ^ 36 }
{
    u128::from(one) * u128::from(other)
}

/// The quotient as [`divided`] gives it, from numbers that fit into 64 bits, as they do for most cells.
fn divided_short(raised: u64, double: u64) -> Quotient
    requires { 1 ≤ double }
    ensures rounded { result.rounded ≡ raised / double }
    ensures half { result.is_half ≡ (raised % double == 0) }
{
    Quotient {
        rounded: u128::from(raised / double),
        is_half: raised % double == 0,
    }
}

/// The quotient n / p, rounded half up, from `raised`, which is 2 n + p, and `double`, which is 2 p.
fn divided(raised: u128, double: u128) -> Quotient
    requires { 1 ≤ double }
    ensures rounded { result.rounded ≡ raised / double }
    ensures half { result.is_half ≡ (raised % double == 0) }
{
    if let (Ok(raised), Ok(double)) = (u64::try_from(raised), u64::try_from(double)) {
        return divided_short(raised, double);
    }
    let rounded = raised / double;
    Quotient {
        rounded,
        is_half: raised - rounded * double == 0,
    }
}

/// The quotient of votes over a product of two divisors in millionths, rounded to the nearest whole number (half down).
pub(crate) fn half_down(votes: u64, product: u128) -> u128
    requires votes { votes ≤ 10 ^ 14 }
    requires from_1 { 1 ≤ product }
    requires at_most { product ≤ 10 ^ 36 }
    ensures { result ≡ lines.half_down (votes * 10 ^ 12) product }
{
    let twice = 2 * (u128::from(votes) * 1_000_000_000_000);
    (twice + product - 1) / (2 * product)
}

/// The quotient of votes over a product of two divisors in millionths.
pub(crate) fn votes_over(votes: u64, product: u128) -> Quotient
    requires votes { votes ≤ 10 ^ 14 }
    requires from_1 { 1 ≤ product }
    requires at_most { product ≤ 10 ^ 36 }
    ensures rounded { result.rounded ≡ lines.half_up (votes * 10 ^ 12) product }
    ensures at_most { result.rounded ≤ 10 ^ 27 }
    ensures half { result.is_half ≡ states.is_half (votes * 10 ^ 12) product }
{
    let twice = 2 * (u128::from(votes) * 1_000_000_000_000);
    divided(twice + product, 2 * product)
}

/// The product of the two divisors of the cell in a place.
pub(crate) fn product_at(
    question: &Question<'_>,
    of_rows: &[u64],
    of_columns: &[u64],
    place: usize,
) -> u128
    requires limits { AreWithinLimits (asked question.now) of_rows.now of_columns.now }
    requires place { place < question.now.rows * question.now.columns }
    ensures product { result ≡ places.product_at (asked question.now) (millionths of_rows.now of_columns.now) place }
    ensures from_1 { 1 ≤ result }
    ensures at_most { result ≤ 10 ^ 36 }
{
    product(
        of_rows[place / question.columns],
        of_columns[place % question.columns],
    )
}

/// The quotient of the cell in a place.
pub(crate) fn quotient_at(question: &Question<'_>, state: &SearchState, place: usize) -> Quotient
    requires limits { AreWithinLimits (asked question.now) state.now.of_rows.items state.now.of_columns.items }
    requires place { place < question.now.rows * question.now.columns }
    ensures { result ≡ places.quotient_at (asked question.now) (divisors_of state.now) place }
{
    let product = product_at(question, &state.of_rows, &state.of_columns, place);
    votes_over(question.votes[place], product)
}

/// A quotient as a number of seats, capped at 400.
fn capped(quotient: u128) -> u32
    ensures { result ≡ min 400 quotient }
{
    quotient.min(400) as u32
}

/// Writes the quotient of each cell, and the seats that it rounds to (half up).
fn round_each(
    question: &Question<'_>,
    state: &SearchState,
    quotients: &mut [Quotient],
    seats: &mut [u32],
)
    requires limits { AreWithinLimits (asked question.now) state.now.of_rows.items state.now.of_columns.items }
    requires quotients { length quotients.old ≡ question.now.rows * question.now.columns }
    requires seats { length seats.old ≡ question.now.rows * question.now.columns }
    ensures quotients { quotients.new ≡ places.quotients (asked question.now) (divisors_of state.now) }
    ensures seats { seats.new ≡ places.rounded (asked question.now) (divisors_of state.now) }
{
    for place in 0..question.votes.len() {
        let quotient = quotient_at(question, state, place);
        quotients[place] = quotient;
        seats[place] = capped(quotient.rounded);
    }
}

/// Leaves in the room the quotient of each cell, and the seats that it rounds to (half up).
pub(crate) fn round_cells(question: &Question<'_>, state: &SearchState, room: &mut SearchRoom)
    requires limits { AreWithinLimits (asked question.now) state.now.of_rows.items state.now.of_columns.items }
    requires room { IsSearchRoom (asked question.now) room.old }
    ensures quotients { room.new.quotients.items ≡ places.quotients (asked question.now) (divisors_of state.now) }
    ensures seats { room.new.seats.items ≡ places.rounded (asked question.now) (divisors_of state.now) }
    ensures room { IsSearchRoom (asked question.now) room.new }
{
    round_each(question, state, &mut room.quotients, &mut room.seats);
}

/// The place of the first quotient on a half, if there is one.
fn first_half_place(quotients: &[Quotient]) -> Option<usize>
    ensures { result ≡ position (λ quotient. quotient.is_half) quotients.now }
{
    quotients.iter().position(|quotient| quotient.is_half)
}

/// The row and the column of the first quotient on a half, both counted from 1.
pub(crate) fn first_half(question: &Question<'_>, room: &SearchRoom) -> Option<(u32, u32)>
    requires { length room.now.quotients.items ≡ question.now.rows * question.now.columns }
    ensures first { (of_rows of_columns : List ℕ) →
        room.now.quotients.items ≡ places.quotients (asked question.now) (millionths of_rows of_columns) →
        IfSome result (λ cell. IsFirstHalf (asked question.now) (millionths of_rows of_columns) cell.0 cell.1) }
    ensures none { (of_rows of_columns : List ℕ) →
        room.now.quotients.items ≡ places.quotients (asked question.now) (millionths of_rows of_columns) →
        IfNone result (places.HasNoHalf (asked question.now) (millionths of_rows of_columns)) }
{
    match first_half_place(&room.quotients) {
        Some(place) => Some((
            (place / question.columns) as u32 + 1,
            (place % question.columns) as u32 + 1,
        )),
        None => None,
    }
}
