//! The quorum by the votes so far, and the sums of votes.

ghost use Rattle.std.specs.Prelude.{◌≡◌, ◌≤◌, ◌*◌, ◌^◌, length};
ghost use Rattle.zh_count_tables.specs.Quorums.{reaches_quorum};
ghost use Rattle.zh_quorum.specs.Quorum.{group_votes};
ghost use Rattle.zh_totals.specs.Totals.{all_votes};

use zh_totals::Totals;

/// Whether the list of a group in a constituency has any votes, and at least 5 per cent of the votes there.
pub(crate) fn reaches_quorum(totals: &Totals, constituency: u32, group: u32) -> bool
    requires from_one { 1 ≤ constituency }
    requires there { constituency ≤ length totals.now.canton.constituencies }
    requires group_from_one { 1 ≤ group }
    requires group_there { group ≤ length totals.now.canton.groups }
    ensures { result ≡ reaches_quorum totals.now constituency group }
{
    let votes = totals.votes(constituency, group);
    votes > 0 && 100 * votes >= 5 * totals.constituency(constituency)
}

/// The votes of a group, added over all constituencies.
pub(crate) fn group_votes(totals: &Totals, group: u32) -> u64
    requires from_one { 1 ≤ group }
    requires there { group ≤ length totals.now.canton.groups }
    ensures { result ≡ group_votes totals.now group }
{
    let mut votes = 0;
    for place in 0..totals.setup().constituencies() {
        votes += totals.votes(place + 1, group);
    }
    votes
}

/// The votes of all groups, added over all constituencies.
pub(crate) fn all_votes(totals: &Totals) -> u64
    ensures { result ≡ all_votes totals.now }
{
    let mut votes = 0;
    for place in 0..totals.setup().constituencies() {
        votes += totals.constituency(place + 1);
    }
    votes
}
