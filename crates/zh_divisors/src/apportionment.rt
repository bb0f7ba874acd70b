//! The divisor method with standard rounding (Sainte-Laguë, Webster): seats are given one by one. If a weight has s seats, its
//! next seat is worth the weight over 2 s + 1, and its last seat the weight over 2 s - 1.
ghost use Rattle.std.specs.Prelude.{◌<◌, ◌≤◌, Any, IfOk, ◌≡◌, ◌+◌, ◌-◌, ◌*◌, ◌^◌, ◌↔◌, IsTrue, length, slice_index, sum};
ghost use Rattle.zh_divisors.specs.Claims.{TellClaims};
ghost use Rattle.zh_divisors.specs.Fit.{IsFit, NextAgainstLast};
ghost use Rattle.zh_divisors.specs.SameWorth.{IsWorthAsMuch};
ghost use Rattle.zh_divisors.specs.Shares.{Apportions};
ghost use Rattle.zh_divisors.specs.Weights.{AreWeights, AreSmall};
ghost use Rattle.zh_divisors.specs.Worth.{IsLeastLast, IsMostNext};

use crate::shares::{ShareFault, Shares};
use crate::weights::Weights;
use std::alloc::{AllocError, Global};

/// The seats of a house in proportion to weights, rounded to the nearest whole number (GPR sections 88 and 103).
///
/// The divisor is given as a fraction that is not reduced: the sum of two weights over the sum of their seats.
/// The two are the first weight whose last seat is worth least, and the first weight whose next seat would be worth
/// most. `Tied` is returned if no divisor gives seats that add up to the house without a quotient on a half.
/// `Memory` can be returned in place of any other answer.
pub fn apportion(alloc: Global, weights: &Weights, house: u32) -> Result<Shares, ShareFault>
    requires at_least_one { 1 ≤ house }
    requires at_most_400 { house ≤ 400 }
    requires positive { Any (λ w. 0 < w) weights.now }
    ensures { Apportions weights.now house result }
{
    let weights = weights.as_slice();
    let seats = give_seats(alloc, weights, house)?;
    let last = least_last(weights, &seats);
    let next = most_next(weights, &seats);
    if !next_is_worth_less(weights, &seats, last, next) {
        return Err(ShareFault::Tied);
    }
    let num = weights[last] + weights[next];
    let den = seats[last] + seats[next];
    Ok(Shares::new(seats, num, den))
}

/// Gives the seats of the house one by one, each to the first weight to which it is worth most. At a tie the seats
/// are one of several fits.
fn give_seats(alloc: Global, weights: &[u64], house: u32) -> Result<Vec<u32>, AllocError>
    requires limits { AreWeights weights.now }
    requires house { house ≤ 400 }
    ensures { IfOk result (λ seats. IsFit weights.now house seats.items) }
{
    let mut seats = vec![in alloc; 0u32; weights.len()]?;
    for _given in 0..house {
        let next = most_next(weights, &seats);
        seats[next] += 1;
    }
    Ok(seats)
}

/// A weight times a number of half seats. The product fits into 64 bits.
fn times(weight: u64, halves: u32) -> u64
    requires weight { weight ≤ 10 ^ 14 }
    requires halves { halves ≤ 801 }
    ensures { result ≡ weight * halves }
{
    weight * u64::from(halves)
}

/// Whether the next seat of `j` is worth more than that of `k`.
fn next_is_worth_more(weights: &[u64], seats: &[u32], j: usize, k: usize) -> bool
    requires small { AreSmall weights.now seats.now }
    requires j { j < length weights.now }
    requires k { k < length weights.now }
    ensures { IsTrue result ↔ (slice_index weights.now k * (2 * slice_index seats.now j + 1)
        < slice_index weights.now j * (2 * slice_index seats.now k + 1)) }
{
    times(weights[k], 2 * seats[j] + 1) < times(weights[j], 2 * seats[k] + 1)
}

/// Whether `i` has a seat, and its last seat is worth less than that of `k` if `k` has one.
fn last_is_worth_less(weights: &[u64], seats: &[u32], i: usize, k: usize) -> bool
    requires small { AreSmall weights.now seats.now }
    requires i { i < length weights.now }
    requires k { k < length weights.now }
    ensures { IsTrue result ↔ ((1 ≤ slice_index seats.now i) × (1 ≤ slice_index seats.now k →
        slice_index weights.now i * (2 * slice_index seats.now k - 1)
        < slice_index weights.now k * (2 * slice_index seats.now i - 1))) }
{
    if seats[i] == 0 || seats[k] == 0 {
        return seats[i] > 0;
    }
    times(weights[i], 2 * seats[k] - 1) < times(weights[k], 2 * seats[i] - 1)
}

/// Whether the next seat of `j` is worth less than the last seat of `i`.
fn next_is_worth_less(weights: &[u64], seats: &[u32], i: usize, j: usize) -> bool
    requires small { AreSmall weights.now seats.now }
    requires i { i < length weights.now }
    requires j { j < length weights.now }
    requires seated { 1 ≤ slice_index seats.now i }
    ensures { IsTrue result ↔ NextAgainstLast ◌<◌ weights.now seats.now i j }
{
    times(weights[j], 2 * seats[i] - 1) < times(weights[i], 2 * seats[j] + 1)
}

/// Whether the next seat or the last seat of `k` is worth as much as the last seat of `i`.
fn is_worth_as_much(weights: &[u64], seats: &[u32], i: usize, k: usize) -> bool
    requires small { AreSmall weights.now seats.now }
    requires i { i < length weights.now }
    requires k { k < length weights.now }
    requires seated { 1 ≤ slice_index seats.now i }
    ensures { IsTrue result ↔ IsWorthAsMuch weights.now seats.now i k }
{
    let lasts = 2 * seats[i] - 1;
    let claim = times(weights[k], lasts);
    if claim == times(weights[i], 2 * seats[k] + 1) {
        return true;
    }
    seats[k] > 0 && claim == times(weights[i], 2 * seats[k] - 1)
}

/// The first weight whose next seat is worth most.
fn most_next(weights: &[u64], seats: &[u32]) -> usize
    requires not_empty { 1 ≤ length weights.now }
    requires small { AreSmall weights.now seats.now }
    ensures { IsMostNext weights.now seats.now (length weights.now) result }
{
    let mut most = 0;
    for j in 1..weights.len() {
        if next_is_worth_more(weights, seats, j, most) {
            most = j;
        }
    }
    most
}

/// The first weight whose last seat is worth least.
fn least_last(weights: &[u64], seats: &[u32]) -> usize
    requires small { AreSmall weights.now seats.now }
    requires seated { 0 < sum seats.now }
    ensures { IsLeastLast weights.now seats.now (length weights.now) result }
{
    let mut least = 0;
    for i in 1..weights.len() {
        if last_is_worth_less(weights, seats, i, least) {
            least = i;
        }
    }
    least
}

/// For each weight, whether it has the same claim as another, so that a seat is tied between them: in some fit, the next seat of
/// one is worth as much as the last seat of the other.
pub fn same_claims(alloc: Global, weights: &Weights, house: u32) -> Result<Vec<bool>, AllocError>
    requires at_least_one { 1 ≤ house }
    requires at_most_400 { house ≤ 400 }
    requires positive { Any (λ w. 0 < w) weights.now }
    ensures { IfOk result (λ claims. TellClaims weights.now house claims.items) }
{
    let weights = weights.as_slice();
    let seats = give_seats(alloc, weights, house)?;
    let last = least_last(weights, &seats);
    let next = most_next(weights, &seats);
    let mut claims = vec![in alloc; false; weights.len()]?;
    if next_is_worth_less(weights, &seats, last, next) {
        return Ok(claims);
    }
    for k in 0..weights.len() {
        claims[k] = is_worth_as_much(weights, &seats, last, k);
    }
    Ok(claims)
}
