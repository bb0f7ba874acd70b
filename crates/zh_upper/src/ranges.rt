//! How many seats each group can get if the seats are tied.
ghost use Rattle.std.specs.Prelude.{◌≡◌, ◌+◌, ◌*◌, ◌^◌, ◌<◌, ◌≤◌, ℕ, All, Any, IfOk, IsTrue, false, length, map, slice_index_or};
ghost use Rattle.zh_divisors.specs.Fit.{IsTied};
ghost use Rattle.zh_upper.specs.Halves.{AreFewHalves, IsFirstAbove, rounded_down, rounded_up, total_up};
ghost use Rattle.zh_upper.specs.Ranges.{AreSeatRanges, AreUpperRanges};
ghost use Rattle.zh_upper.specs.Refusals.{HaveNoUpperSeats};
ghost use Rattle.zh_upper.specs.declared.fault.UpperRefusal.TheVariants.{Tied};

use crate::apportionment::{of_participants, spread};
use std::alloc::{AllocError, Global};
use zh_divisors::{Weights, same_claims};

/// The fewest and the most seats of each weight or group, in order, over all fits.
#[derive(Drop)]
pub struct SeatRanges {
    pub least: Vec<u32>,
    pub most: Vec<u32>,
}

/// A divisor that puts a weight on a half: twice that weight over an odd number.
#[derive(Clone, Copy)]
struct HalfDivisor {
    weight: u64,
    odd: u32,
}

/// A weight over this divisor, rounded to the nearest whole number, a half up.
fn rounded_up(divisor: HalfDivisor, weight: u64) -> u64
    requires few { AreFewHalves divisor.weight divisor.odd }
    requires small { weight ≤ 10 ^ 14 }
    ensures value { result ≡ rounded_up divisor.weight divisor.odd weight }
    ensures most { result ≤ 10 ^ 17 }
{
    (weight * u64::from(divisor.odd) + divisor.weight) / (2 * divisor.weight)
}

/// A weight over this divisor, rounded to the nearest whole number, a half down.
fn rounded_down(divisor: HalfDivisor, weight: u64) -> u64
    requires few { AreFewHalves divisor.weight divisor.odd }
    requires small { weight ≤ 10 ^ 14 }
    ensures { result ≡ rounded_down divisor.weight divisor.odd weight }
{
    (weight * u64::from(divisor.odd) + divisor.weight - 1) / (2 * divisor.weight)
}

/// The sum of the weights over this divisor, each rounded to the nearest whole number, a half up.
fn total_up(divisor: HalfDivisor, weights: &[u64]) -> u64
    requires few { AreFewHalves divisor.weight divisor.odd }
    requires at_most_32 { length weights.now ≤ 32 }
    requires each_small { All (λ w. w ≤ 10 ^ 14) weights.now }
    ensures { result ≡ total_up divisor.weight divisor.odd weights.now }
{
    let mut total = 0;
    for weight in weights {
        total += rounded_up(divisor, *weight);
    }
    total
}

/// The divisor that puts this weight on the first half at which the seats, rounded half up, add up to more than the house.
fn first_above(weights: &[u64], weight: u64, house: u32) -> HalfDivisor
    requires at_most_32 { length weights.now ≤ 32 }
    requires each_small { All (λ w. w ≤ 10 ^ 14) weights.now }
    requires some { 1 ≤ weight }
    requires small { weight ≤ 10 ^ 14 }
    requires at_most_400 { house ≤ 400 }
    ensures weight { result.weight ≡ weight }
    ensures first { (h : ℕ) → IsFirstAbove weights.now house weight h → result.odd ≡ 2 * h + 1 }
{
    for half in 0..house {
        let divisor = HalfDivisor {
            weight,
            odd: 2 * half + 1,
        };
        if total_up(divisor, weights) > u64::from(house) {
            return divisor;
        }
    }
    HalfDivisor {
        weight,
        odd: 2 * house + 1,
    }
}

/// The fewest seats of each weight under this divisor: halves are rounded down.
fn each_down(alloc: Global, divisor: HalfDivisor, weights: &[u64]) -> Result<Vec<u32>, AllocError>
    requires few { AreFewHalves divisor.weight divisor.odd }
    requires each_small { All (λ w. w ≤ 10 ^ 14) weights.now }
    requires fit { All (λ w. rounded_down divisor.weight divisor.odd w < 2 ^ 32) weights.now }
    ensures { IfOk result (λ seats. seats.items ≡ map (rounded_down divisor.weight divisor.odd) weights.now) }
{
    let mut seats = Vec::with_capacity(alloc, weights.len())?;
    for weight in weights {
        seats.push(rounded_down(divisor, *weight) as u32)?;
    }
    Ok(seats)
}

/// The most seats of each weight under this divisor: halves are rounded up.
fn each_up(alloc: Global, divisor: HalfDivisor, weights: &[u64]) -> Result<Vec<u32>, AllocError>
    requires few { AreFewHalves divisor.weight divisor.odd }
    requires each_small { All (λ w. w ≤ 10 ^ 14) weights.now }
    requires fit { All (λ w. rounded_up divisor.weight divisor.odd w < 2 ^ 32) weights.now }
    ensures { IfOk result (λ seats. seats.items ≡ map (rounded_up divisor.weight divisor.odd) weights.now) }
{
    let mut seats = Vec::with_capacity(alloc, weights.len())?;
    for weight in weights {
        seats.push(rounded_up(divisor, *weight) as u32)?;
    }
    Ok(seats)
}

/// The place of the first mark that is set, or 0 if none is.
fn first_marked(marks: &[bool]) -> usize
    ensures { (k : ℕ) → IsTrue (slice_index_or marks.now k false) → IsTrue (slice_index_or marks.now result false) }
{
    for (place, mark) in marks.iter().enumerate() {
        if *mark {
            return place;
        }
    }
    0
}

/// The ranges of the seats of weights that are not all 0, if the seats are tied.
fn ranges_of(alloc: Global, sums: &[u64], house: u32) -> Result<SeatRanges, AllocError>
    requires tied { IsTied sums.now house }
    requires positive { Any (λ w. 0 < w) sums.now }
    requires at_most_32 { length sums.now ≤ 32 }
    requires each_small { All (λ w. w ≤ 10 ^ 14) sums.now }
    requires at_least_one { 1 ≤ house }
    requires at_most_400 { house ≤ 400 }
    ensures { IfOk result (λ ranges. AreSeatRanges sums.now house ranges.least.items ranges.most.items) }
{
    let weights = Weights::new(alloc, sums)?;
    let claims = same_claims(alloc, &weights, house)?;
    let divisor = first_above(sums, sums[first_marked(&claims)], house);
    Ok(SeatRanges {
        least: each_down(alloc, divisor, sums)?,
        most: each_up(alloc, divisor, sums)?,
    })
}

/// The fewest and the most seats of each group, if the seats of the groups that take part are tied (GPR section 103). The lot
/// decides between the groups for which the two differ. A group that does not take part has 0 and 0.
pub fn upper_ranges(
    alloc: Global,
    voters: &[u64],
    taking: &[bool],
    house: u32,
) -> Result<SeatRanges, AllocError>
    requires one_each { length taking.now ≡ length voters.now }
    requires at_most_32 { length voters.now ≤ 32 }
    requires each_small { All (λ v. v ≤ 10 ^ 14) voters.now }
    requires at_least_one { 1 ≤ house }
    requires at_most_400 { house ≤ 400 }
    requires tied { HaveNoUpperSeats voters.now taking.now house Tied }
    ensures { IfOk result (λ ranges. AreUpperRanges voters.now taking.now house ranges.least.items ranges.most.items) }
{
    let sums = of_participants(alloc, voters, taking)?;
    let ranges = ranges_of(alloc, &sums, house)?;
    Ok(SeatRanges {
        least: spread(alloc, &ranges.least, taking)?,
        most: spread(alloc, &ranges.most, taking)?,
    })
}
