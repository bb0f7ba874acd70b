//! The divisor of a line, and the seats of a house.
ghost use Rattle.std.specs.Prelude.{◌≤◌, ◌<◌, ◌^◌, All, Any, IsTrue, length};
ghost use Rattle.zh_divisors.specs.Line.{IsMatrixLine};

use crate::fault::CaseFault;
use crate::texts::numbers_in;
use std::alloc::{AllocError, Global};
use zh_divisors::{ShareFault, Shares, Weights, apportion, line};

/// The largest divisor of a line, in millionths.
const LARGEST: u64 = 1_000_000_000_000_000_000;

/// Whether these are weights, at least one of which is positive.
fn are_weights(numbers: &[u64]) -> bool
    ensures some { IsTrue result → 1 ≤ length numbers.now }
    ensures few { IsTrue result → length numbers.now ≤ 32 }
    ensures small { IsTrue result → All (λ w. w ≤ 10 ^ 14) numbers.now }
    ensures positive { IsTrue result → Any (λ w. 0 < w) numbers.now }
{
    (1..=32).contains(&numbers.len())
        && numbers.iter().all(|w| *w <= 100_000_000_000_000)
        && numbers.iter().any(|w| *w > 0)
}

/// Whether these cells form a line, the first of which has votes.
fn is_line(votes: &[u64], others: &[u64]) -> bool
    ensures { IsTrue result → IsMatrixLine votes.now others.now }
{
    (1..=32).contains(&votes.len())
        && others.len() == votes.len()
        && votes[0] > 0
        && votes.iter().all(|v| *v <= 100_000_000_000_000)
        && others.iter().all(|o| (1..=LARGEST).contains(o))
}

/// Appends the divisor of a line, in millionths. The numbers are the line's seats, the largest divisor allowed, the votes of the
/// cells, and the divisors of the lines that cross there.
fn push_divisor(numbers: &[u64], answer: &mut String) -> Result<(), CaseFault> {
    let [target, most, cells @ ..] = numbers else {
        return Err(CaseFault::Text("a line has seats and a largest divisor"));
    };
    let (votes, others) = cells.split_at(cells.len() / 2);
    if !is_line(votes, others) || !(1..=400).contains(target) || *most == 0 {
        return Err(CaseFault::Text("this is no line"));
    }
    let divisor = line(votes, others, *target as u32, *most);
    Ok(write!(answer, "{divisor}")?)
}

/// Answers with the divisor of the line in these numbers.
pub(crate) fn divisor(alloc: Global, text: &str, answer: &mut String) -> Result<(), CaseFault> {
    push_divisor(&numbers_in(alloc, text)?, answer)
}

/// Appends the seats of shares, and their divisor.
fn push_shares(shares: &Shares, answer: &mut String) -> Result<(), AllocError> {
    answer.push_str("seats")?;
    for seats in shares.seats() {
        write!(answer, " {seats}")?;
    }
    write!(answer, "; divisor {} {}", shares.num(), shares.den())
}

/// Appends the seats of shares, or why there are none.
fn push_apportioned(
    apportioned: Result<Shares, ShareFault>,
    answer: &mut String,
) -> Result<(), AllocError> {
    match apportioned {
        Ok(shares) => push_shares(&shares, answer),
        Err(ShareFault::Tied) => answer.push_str("tied"),
        Err(ShareFault::Memory) => answer.push_str("memory"),
    }
}

/// Appends the seats of a house and their divisor, as its numerator and its denominator; or `tied`. The numbers are the house's
/// seats and the weights.
fn push_house(alloc: Global, numbers: &[u64], answer: &mut String) -> Result<(), CaseFault> {
    let [house, weights @ ..] = numbers else {
        return Err(CaseFault::Text("a house has seats"));
    };
    if !are_weights(weights) || !(1..=400).contains(house) {
        return Err(CaseFault::Text("these are no weights"));
    }
    let weights = Weights::new(alloc, weights)?;
    Ok(push_apportioned(apportion(alloc, &weights, *house as u32), answer)?)
}

/// Answers with the seats of the house in these numbers.
pub(crate) fn shares(alloc: Global, text: &str, answer: &mut String) -> Result<(), CaseFault> {
    push_house(alloc, &numbers_in(alloc, text)?, answer)
}
