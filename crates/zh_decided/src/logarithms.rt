//! Logarithms, computed bit by bit; tables of them; and numbers from logarithms.
ghost use Rattle.std.specs.Prelude.{◌^◌, ◌<◌, ◌≤◌, ◌+◌, ◌-◌, ◌*◌, ◌≡◌, length};
ghost use Rattle.zh_decided.specs.Logarithms.{HasLogarithm, IsCutSquare, IsLog, IsAntilogarithm, log_unit, power};
ghost use Rattle.zh_decided.specs.Tables.{AreOddLogs, AreVoteLogs};

use zh_matrices::Question;

/// The number of binary places of a logarithm.
const PLACES: u32 = 30;

/// The square of a mantissa, truncated to 64 bits, and whether 64 bits were cut off instead of 63.
fn cut_square(mantissa: u64) -> (u64, bool)
    requires { 2 ^ 63 ≤ mantissa }
    ensures { IsCutSquare mantissa result.0 result.1 }
{
    let square = u128::from(mantissa) * u128::from(mantissa);
    if square < 1 << 127 {
        ((square >> 63) as u64, false)
    } else {
        ((square >> 64) as u64, true)
    }
}

/// The logarithm to base 2 of a number from 1 on, in units of 2^-30. It is rounded down, or one unit less than that.
pub fn logarithm(number: u64) -> u64
    requires { 1 ≤ number }
    ensures log { IsLog 0 2 number result }
    ensures squared { HasLogarithm number result }
    ensures small { result < 2 ^ 36 }
{
    let zeros = number.leading_zeros();
    let mut mantissa = number << zeros;
    let mut logarithm = u64::from(63 - zeros);
    for _place in 0..PLACES {
        let (square, twice) = cut_square(mantissa);
        mantissa = square;
        logarithm = 2 * logarithm + u64::from(twice);
    }
    logarithm
}

/// The greatest number from 2^bits to `most` whose logarithm is at most this one. It is found by bisection.
pub fn antilogarithm(logarithm_of_it: u64, bits: u32, most: u64) -> u64
    requires from_2 { 1 ≤ bits }
    requires to_31 { bits ≤ 31 }
    requires least { bits * log_unit ≤ logarithm_of_it }
    requires most { power 2 logarithm_of_it ≤ power most log_unit }
    requires room { 2 ^ bits ≤ most }
    requires fits { most < 2 ^ 63 }
    ensures log { IsLog (2 ^ (31 - bits)) 2 result logarithm_of_it }
    ensures greatest { IsAntilogarithm logarithm_of_it most result }
    ensures from_least { 2 ^ bits ≤ result }
    ensures at_most { result ≤ most }
{
    let mut low = 1 << bits;
    let mut high = most + 1;
    while high - low > 1 {
        let middle = low + (high - low) / 2;
        if logarithm(middle) <= logarithm_of_it {
            low = middle;
        } else {
            high = middle;
        }
    }
    low
}

/// Writes the logarithm of twice the votes of each cell to `into`; 0 for a cell without votes.
pub(crate) fn take_vote_logarithms(question: &Question<'_>, into: &mut [u64])
    requires { length into.old ≡ length question.now.votes.now }
    ensures { AreVoteLogs question.now.votes.now into.new }
{
    for place in 0..question.votes.len() {
        into[place] = match question.votes[place] {
            0 => 0,
            votes => logarithm(2 * votes),
        };
    }
}

/// Writes the logarithms of the odd numbers from 1 on to `into`.
pub(crate) fn take_odd_logarithms(into: &mut [u64])
    requires { length into.old ≤ 401 }
    ensures logs { AreOddLogs into.new }
    ensures length { length into.new ≡ length into.old }
{
    for place in 0..into.len() {
        into[place] = logarithm(2 * place as u64 + 1);
    }
}
