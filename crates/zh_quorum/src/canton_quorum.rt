//! The canton-wide quorum.
ghost use Rattle.std.specs.Prelude.{◌≡◌, ◌≤◌, ◌↔◌, IsTrue, length};
ghost use Rattle.zh_quorum.specs.Quorum.{ReachesCantonQuorum, group_votes};
ghost use Rattle.zh_totals.specs.Totals.{all_votes};

use zh_totals::Totals;

/// The votes of a group in all constituencies.
fn group_votes(totals: &Totals, group: u32) -> u64
    requires from_one { 1 ≤ group }
    requires there { group ≤ length totals.now.canton.groups }
    ensures { result ≡ group_votes totals.now group }
{
    let mut votes = 0;
    for place in 0..totals.setup().constituencies() {
        votes += totals.votes(place + 1, group);
    }
    votes
}

/// The votes of all groups in all constituencies.
fn all_votes(totals: &Totals) -> u64
    ensures { result ≡ all_votes totals.now }
{
    let mut votes = 0;
    for place in 0..totals.setup().constituencies() {
        votes += totals.constituency(place + 1);
    }
    votes
}

/// Whether the set-up has a canton-wide quorum, and the group has votes and at least that share, in per mille, of all votes
/// of the canton.
pub(crate) fn reaches_canton_quorum(totals: &Totals, group: u32) -> bool
    requires from_one { 1 ≤ group }
    requires there { group ≤ length totals.now.canton.groups }
    ensures { IsTrue result ↔ ReachesCantonQuorum totals.now group }
{
    let Some(per_mille) = totals.setup().canton_quorum() else {
        return false;
    };
    let votes = group_votes(totals, group);
    votes > 0 && 1000 * votes >= u64::from(per_mille) * all_votes(totals)
}
