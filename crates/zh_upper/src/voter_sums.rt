//! The voter numbers of the lists and the voter sums of the groups.
ghost use Rattle.std.specs.Prelude.{◌≡◌, ◌^◌, ◌≤◌, All, IfOk, length};
ghost use Rattle.zh_totals.specs.Totals.{AreTotals};
ghost use Rattle.zh_upper.specs.VoterNumbers.{RoundsHalfUp, voter_number, AreVoterSums, voter_sum};

use std::alloc::{AllocError, Global};
use zh_totals::Totals;

/// The voter number of a list: its votes, at most 10^14, over the seats of its constituency, at least 1, rounded to the nearest
/// whole number, a half up (GPR section 103). It is at most the votes.
pub fn voter_number(votes: u64, seats: u32) -> u64
    requires small { votes ≤ 10 ^ 14 }
    requires seated { 1 ≤ seats }
    ensures formula { result ≡ voter_number votes seats }
    ensures nearest { RoundsHalfUp votes seats result }
    ensures at_most_votes { result ≤ votes }
{
    let seats = u64::from(seats);
    (2 * votes + seats) / (2 * seats)
}

/// The voter numbers of the lists of a group, added over all constituencies: at most 10^14.
fn voter_sum(totals: &Totals, seats: &[u32], group: u32) -> u64
    requires limits { AreTotals totals.now }
    requires one_each { length seats.now ≡ length totals.now.canton.constituencies }
    requires each_seated { All (λ r. 1 ≤ r) seats.now }
    requires from_one { 1 ≤ group }
    requires there { group ≤ length totals.now.canton.groups }
    ensures sum { result ≡ voter_sum totals.now seats.now group }
    ensures small { result ≤ 10 ^ 14 }
{
    let mut voters = 0;
    for (place, seats) in seats.iter().enumerate() {
        let votes = totals.votes(place as u32 + 1, group);
        voters += voter_number(votes, *seats);
    }
    voters
}

/// The voter sum of each group, in order and at most 10^14 each, given the seats of each constituency, at least 1 each. The
/// voter number of each list is rounded before the numbers are added (GPR section 103). Fails if memory is refused.
pub fn voters(alloc: Global, totals: &Totals, seats: &[u32]) -> Result<Vec<u64>, AllocError>
    requires one_each { length seats.now ≡ length totals.now.canton.constituencies }
    requires each_seated { All (λ r. 1 ≤ r) seats.now }
    ensures sums { IfOk result (λ sums. AreVoterSums totals.now seats.now sums.items) }
    ensures small { IfOk result (λ sums. All (λ v. v ≤ 10 ^ 14) sums.items) }
{
    let groups = totals.setup().groups();
    let mut sums = Vec::with_capacity(alloc, groups as usize)?;
    for place in 0..groups {
        sums.push(voter_sum(totals, seats, place + 1))?;
    }
    Ok(sums)
}
