//! The quorum: which groups take part.
ghost use Rattle.std.specs.Prelude.{◌≤◌, ◌↔◌, IfOk, IsTrue, length};
ghost use Rattle.zh_quorum.specs.Quorum.{AreParticipating, ReachesQuorum, ReachesSomewhere, TakesPart};

use crate::canton_quorum::reaches_canton_quorum;
use std::alloc::{AllocError, Global};
use zh_totals::Totals;

/// Whether the list of a group has votes in a constituency and at least 5 per cent of all votes there.
fn reaches_quorum(totals: &Totals, constituency: u32, group: u32) -> bool
    requires from_one { 1 ≤ constituency }
    requires there { constituency ≤ length totals.now.canton.constituencies }
    requires group_from_one { 1 ≤ group }
    requires group_there { group ≤ length totals.now.canton.groups }
    ensures { IsTrue result ↔ ReachesQuorum totals.now constituency group }
{
    let votes = totals.votes(constituency, group);
    votes > 0 && 100 * votes >= 5 * totals.constituency(constituency)
}

/// Whether the list of a group reaches the quorum in some constituency.
fn reaches_somewhere(totals: &Totals, group: u32) -> bool
    requires from_one { 1 ≤ group }
    requires there { group ≤ length totals.now.canton.groups }
    ensures { IsTrue result ↔ ReachesSomewhere totals.now group }
{
    for place in 0..totals.setup().constituencies() {
        if reaches_quorum(totals, place + 1, group) {
            return true;
        }
    }
    false
}

/// Whether a group reaches the quorum in some constituency, or the canton-wide quorum.
fn takes_part(totals: &Totals, group: u32) -> bool
    requires from_one { 1 ≤ group }
    requires there { group ≤ length totals.now.canton.groups }
    ensures { IsTrue result ↔ TakesPart totals.now group }
{
    reaches_somewhere(totals, group) || reaches_canton_quorum(totals, group)
}

/// For each group, in order, whether it takes part in the apportionment. It does if one of its lists has votes and at least
/// 5 per cent of the votes of its constituency (GPR section 102). If the set-up has a canton-wide quorum, it also does if it
/// has votes and at least that share of all votes of the canton. Fails if memory is refused.
pub fn participating(alloc: Global, totals: &Totals) -> Result<Vec<bool>, AllocError>
    ensures { IfOk result (λ taking. AreParticipating totals.now taking.items) }
{
    let groups = totals.setup().groups();
    let mut taking = Vec::with_capacity(alloc, groups as usize)?;
    for place in 0..groups {
        taking.push(takes_part(totals, place + 1))?;
    }
    Ok(taking)
}
