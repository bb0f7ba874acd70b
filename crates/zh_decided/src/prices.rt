//! Prices of seats, which are the costs of the least-cost flow, and the potentials that they allow a row or a column.
ghost use Rattle.std.specs.Prelude.{◌≡◌, ◌*◌, ◌≤◌, All, length};
ghost use Rattle.zh_decided.specs.Prices.{AreLogs};

use crate::sweep_bounds::Bounds;
use zh_matrices::{LINES, Question};

/// The potential of a row or column, and the crossing line that lowered it to this value, if one did.
#[derive(Clone, Copy)]
pub(crate) struct Mark {
    pub potential: u64,
    pub maker: Option<usize>,
}

/// What is added to each price, so that it is above 0 whatever the votes.
const BASE: u64 = 1 << 60;

/// Logarithms, to any base and in any unit, not necessarily exact, and each at most 2^36. `of_votes` has those of twice the votes
/// of each cell, row by row, with any such number for a cell without votes. `of_odds` has those of the odd numbers from 1 to at
/// least 801, and none of these is below the one before it.
#[derive(Drop)]
pub struct LogTable<'a> {
    pub of_votes: &'a [u64],
    pub of_odds: &'a [u64],
    ghost taken: { AreLogs (record { of_votes = of_votes.now; of_odds = of_odds.now }) },
}

impl<'a> LogTable<'a> {
    ghost use Rattle.std.specs.Prelude.{◌+◌, ◌-◌, ◌^◌, ◌<◌};
    ghost use Rattle.zh_decided.specs.Prices.{seat_price};
    ghost use Rattle.zh_decided.specs.Taken.{logs};

    /// The price of a seat of the cell in this place: 2^60, plus the logarithm of 2 `seat` + 1, less that of twice the cell's
    /// votes. The seats of a cell are numbered from 0, and `seat` is at most 400.
    pub(crate) fn seat_price(&self, place: usize, seat: u32) -> u64
        requires place { place < length self.now.of_votes.now }
        requires seat { seat ≤ 400 }
        ensures price { result ≡ seat_price (logs self.now) place seat }
        ensures at_least { 2 ^ 60 - 2 ^ 36 ≤ result }
        ensures at_most { result ≤ 2 ^ 60 + 2 ^ 36 }
    {
        BASE + self.of_odds[seat as usize] - self.of_votes[place]
    }
}

/// Seats with their prices. `seats` has the number of seats of each cell of the question, row by row, at most 400 each.
#[derive(Drop)]
pub struct PricedSeats<'a> {
    pub question: &'a Question<'a>,
    pub logarithms: &'a LogTable<'a>,
    pub seats: &'a [u32],
    ghost votes: { length logarithms.now.of_votes.now ≡ question.now.rows * question.now.columns },
    ghost each_cell: { length seats.now ≡ question.now.rows * question.now.columns },
    ghost few: { All (λ s. s ≤ 400) seats.now },
}

impl<'a> PricedSeats<'a> {
    ghost use Rattle.std.specs.Prelude.{ℕ, ◌^◌, ◌<◌};
    ghost use Rattle.zh_decided.specs.Levels as words;
    ghost use Rattle.zh_decided.specs.Taken.{priced_in};

    /// The greatest potential that the cap and these columns allow a row. A column in which it has no votes allows any.
    pub(crate) fn row_mark(&self, bounds: Bounds, columns: &[Mark; LINES], row: usize) -> Mark
        requires columns { (g : ℕ) → g < self.now.question.now.columns → words.potential_at columns.now g ≤ 2 ^ 44 }
        requires row { row < self.now.question.now.rows }
        ensures { words.IsRowMark (priced_in self.now) bounds columns.now row result }
    {
        let mut mark = Mark {
            potential: bounds.row_cap,
            maker: None,
        };
        for column in 0..self.question.columns {
            let place = row * self.question.columns + column;
            if self.question.votes[place] == 0 {
                continue;
            }
            let next = self.logarithms.seat_price(place, self.seats[place]);
            let potential = columns[column].potential + next - bounds.given;
            if potential < mark.potential {
                mark = Mark {
                    potential,
                    maker: Some(column),
                };
            }
        }
        mark
    }

    /// The greatest potential, at most `before`, that these rows allow a column. A row that has no seat in it allows any. The
    /// potential is 0 if a row would allow only a negative one.
    pub(crate) fn column_mark(
        &self,
        bounds: Bounds,
        rows: &[Mark; LINES],
        before: u64,
        column: usize,
    ) -> Mark
        requires column { column < self.now.question.now.columns }
        ensures { words.IsColumnMark (priced_in self.now) bounds rows.now before column result }
    {
        let mut mark = Mark {
            potential: before,
            maker: None,
        };
        for row in 0..self.question.rows {
            let place = row * self.question.columns + column;
            if self.seats[place] == 0 {
                continue;
            }
            let last = self.logarithms.seat_price(place, self.seats[place] - 1);
            let potential = rows[row].potential.saturating_sub(last + bounds.taken);
            if potential < mark.potential {
                mark = Mark {
                    potential,
                    maker: Some(row),
                };
            }
        }
        mark
    }
}
