//! The seats of the groups in the whole canton.
ghost use Rattle.std.specs.Prelude.{◌≡◌, ◌^◌, ◌<◌, ◌≤◌, All, Any, IfOk, MatchBool, length, ℕ, false, Some, count_by, slice_get};
ghost use Rattle.std.specs.Prelude.{slice_index};
ghost use Rattle.zh_divisors.specs.Shares.{Apportions, HasDivisor, RoundsEach};
ghost use Rattle.zh_upper.specs.Refusals.{HaveNoUpperSeats, IsRefusedExactly};
ghost use Rattle.zh_upper.specs.UpperSeats.{AreUpperSeats, of_participants, shares_of_participants};

use crate::fault::{UpperFault, UpperRefusal};
use crate::seats::Upper;
use std::alloc::{AllocError, Global};
use zh_divisors::{ShareFault, Shares, Weights, apportion};

/// Whether some voter sum is not 0.
fn has_voters(sums: &[u64]) -> bool
    ensures { MatchBool result (Any (λ v. 0 < v) sums.now) (All (λ v. v ≡ 0) sums.now) }
{
    sums.iter().any(|sum| *sum > 0)
}

/// The seats of the house in proportion to these sums, with the divisor. At least one of the sums must not be 0. Fails if the
/// seats are tied or memory is refused.
fn shares_of(alloc: Global, sums: &[u64], house: u32) -> Result<Shares, ShareFault>
    requires some_voters { Any (λ v. 0 < v) sums.now }
    requires at_most_32 { length sums.now ≤ 32 }
    requires each_small { All (λ v. v ≤ 10 ^ 14) sums.now }
    requires at_least_one { 1 ≤ house }
    requires at_most_400 { house ≤ 400 }
    ensures { Apportions sums.now house result }
{
    let weights = Weights::new(alloc, sums)?;
    apportion(alloc, &weights, house)
}

/// The seats of the house, apportioned to the groups that take part in proportion to their voter sums (GPR section 103), with
/// the divisor. Each other group gets 0 seats.
///
/// The groups get no seats if no group takes part, if the voter sums of all groups that do are 0, or if the seats are tied. The
/// first of these cases that holds, in this order, is the fault. In place of any answer, the fault can be refused memory.
pub fn upper(
    alloc: Global,
    voters: &[u64],
    taking: &[bool],
    house: u32,
) -> Result<Upper, UpperFault>
    requires one_each { length taking.now ≡ length voters.now }
    requires at_most_32 { length voters.now ≤ 32 }
    requires each_small { All (λ v. v ≤ 10 ^ 14) voters.now }
    requires at_least_one { 1 ≤ house }
    requires at_most_400 { house ≤ 400 }
    ensures seats { IfOk result (λ upper. AreUpperSeats voters.now taking.now house upper.seats) }
    ensures divisor { IfOk result (λ upper. HasDivisor (of_participants voters.now taking.now)
        (shares_of_participants upper taking.now)) }
    ensures rounds { IfOk result (λ upper. RoundsEach (of_participants voters.now taking.now)
        (shares_of_participants upper taking.now)) }
    ensures refused { IsRefusedExactly (HaveNoUpperSeats voters.now taking.now house) result }
{
    if !taking.contains(&true) {
        return Err(UpperFault::Refused(UpperRefusal::NoGroup));
    }
    let sums = of_participants(alloc, voters, taking)?;
    if !has_voters(&sums) {
        return Err(UpperFault::Refused(UpperRefusal::NoVoters));
    }
    let shares = shares_of(alloc, &sums, house)?;
    let seats = spread(alloc, shares.seats(), taking)?;
    Ok(Upper {
        shares: Shares::new(seats, shares.num(), shares.den()),
    })
}

/// The voter sums of the groups that take part, in their order.
pub(crate) fn of_participants(
    alloc: Global,
    voters: &[u64],
    taking: &[bool],
) -> Result<Vec<u64>, AllocError>
    requires { length taking.now ≡ length voters.now }
    ensures { IfOk result (λ sums. sums.items ≡ of_participants voters.now taking.now) }
{
    voters
        .iter()
        .zip(taking)
        .filter(|(_, takes_part)| **takes_part)
        .map(|(sum, _)| *sum)
        .collect(alloc)
}

/// The seats of all groups, given those of the groups that take part. Each other group gets 0.
pub(crate) fn spread(alloc: Global, seats: &[u32], taking: &[bool]) -> Result<Vec<u32>, AllocError>
    requires { length seats.now ≡ count_by (λ takes_part. takes_part) taking.now }
    ensures one_each { IfOk result (λ all. length all.items ≡ length taking.now) }
    ensures participants { IfOk result (λ all. of_participants all.items taking.now ≡ seats.now) }
    ensures others { IfOk result (λ all. (place : ℕ) → slice_get taking.now place ≡ Some false → slice_index all.items place ≡ 0) }
{
    let mut all = Vec::with_capacity(alloc, taking.len())?;
    let mut next = 0;
    for takes_part in taking {
        if *takes_part {
            all.push(seats[next])?;
            next += 1;
        } else {
            all.push(0)?;
        }
    }
    Ok(all)
}
