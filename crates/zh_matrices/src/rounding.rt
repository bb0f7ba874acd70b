//! Standard rounding: whether a quotient rounds to a number of seats, tested by cross products below 2^127.
ghost use Rattle.std.specs.Prelude.{◌≡◌, ◌+◌, ◌*◌, ◌^◌, ◌≤◌, ◌↔◌, IsTrue};
ghost use Rattle.zh_divisors.specs.Rounding.{Rounds};
ghost use Rattle.zh_matrices.specs.NearlyTied.{NearlyRounds};
ghost use Rattle.zh_matrices.specs.RoundingOf.{RoundsBy};
ghost use Rattle.zh_matrices.specs.SeatMatrix.{MayRound};

/// What becomes of a quotient on a half.
#[derive(Clone, Copy)]
pub enum Rounding {
    /// It does not round to any number.
    Strict,
    /// It rounds to the number below it and to the number above it.
    Weak,
    /// It rounds to both, and so does a quotient that differs from a half by at most the factor 131073 / 131072 = 1 + 2^-17.
    Near,
}

/// Whether the quotient of votes over a product of divisors rounds to the seats and is not on a half.
fn rounds(votes: u128, product: u128, seats: u128) -> bool
    requires votes { votes ≤ 10 ^ 26 }
    requires product { product ≤ 10 ^ 30 }
    requires seats { seats ≤ 400 }
    ensures { IsTrue result ↔ Rounds votes product seats }
{
    if 2 * votes >= (2 * seats + 1) * product {
        return false;
    }
    seats == 0 || (2 * seats - 1) * product < 2 * votes
}

/// Whether this quotient rounds to the seats, a half either way.
fn may_round(votes: u128, product: u128, seats: u128) -> bool
    requires votes { votes ≤ 10 ^ 26 }
    requires product { product ≤ 10 ^ 30 }
    requires seats { seats ≤ 400 }
    ensures { IsTrue result ↔ MayRound votes product seats }
{
    if 2 * votes > (2 * seats + 1) * product {
        return false;
    }
    seats == 0 || (2 * seats - 1) * product <= 2 * votes
}

/// Whether this quotient rounds to the seats, or passes a half next to them by at most the factor 1 + 2^-17.
fn nearly_rounds(votes: u128, product: u128, seats: u128) -> bool
    requires votes { votes ≤ 10 ^ 26 }
    requires product { product ≤ 10 ^ 30 }
    requires seats { seats ≤ 400 }
    ensures { IsTrue result ↔ NearlyRounds votes product seats }
{
    if 131_072 * (2 * votes) > 131_073 * ((2 * seats + 1) * product) {
        return false;
    }
    seats == 0 || 131_072 * ((2 * seats - 1) * product) <= 131_073 * (2 * votes)
}

/// The product of the divisors of a row and of a column, which are in millionths.
pub(crate) fn product(row_divisor: u64, column_divisor: u64) -> u128
    requires row { row_divisor ≤ 10 ^ 18 }
    requires column { column_divisor ≤ 10 ^ 12 }
    ensures product { result ≡ row_divisor * column_divisor }
    ensures at_most { result ≤ 10 ^ 30 }
{
    u128::from(row_divisor) * u128::from(column_divisor)
}

/// Whether the votes of a cell over the product of its two divisors, which are in millionths, round to its seats by this kind of
/// rounding.
pub(crate) fn rounds_by(rounding: Rounding, votes: u64, product: u128, seats: u32) -> bool
    requires votes { votes ≤ 10 ^ 14 }
    requires product { product ≤ 10 ^ 30 }
    requires seats { seats ≤ 400 }
    ensures { IsTrue result ↔ RoundsBy rounding (votes * (1000000 * 1000000)) product seats }
{
    let votes = u128::from(votes) * 1_000_000_000_000;
    let seats = u128::from(seats);
    match rounding {
        Rounding::Strict => rounds(votes, product, seats),
        Rounding::Weak => may_round(votes, product, seats),
        Rounding::Near => nearly_rounds(votes, product, seats),
    }
}
