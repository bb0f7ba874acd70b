//! The vote totals of a count.
ghost use Rattle.std.specs.Prelude.{◌≡◌, ◌+◌, ◌-◌, ◌*◌, ◌^◌, ◌≤◌, ◌<◌, length, replicate, set, slice_index, IfOk};
ghost use Rattle.zh_returns.specs.Limits.{IsTally};
ghost use Rattle.zh_returns.specs.Tally.{empty};
ghost use Rattle.zh_totals.specs.Changes.{IsChange, noted};
ghost use Rattle.zh_totals.specs.Counting.{totals_of};
ghost use Rattle.zh_totals.specs.GivenVotes.{AreTotalsOf};
ghost use Rattle.zh_totals.specs.Parts.{held_before};
ghost use Rattle.zh_totals.specs.Totals.{AreTotals, votes_in, constituency_votes, place_in};

use crate::row_sums::row_sums;
use std::alloc::{AllocError, Global};
use std::marker::Model;
use zh_districts::Setup;
use zh_returns::Count;

/// A change of the votes of a list in one municipality, from `before` to `after`. If nothing is held, or the list is
/// withdrawn, there are 0 votes. Constituencies and lists are numbered from 1.
#[derive(Clone, Copy)]
pub struct Change {
    pub constituency: u32,
    pub list: u32,
    pub before: u32,
    pub after: u32,
}

/// The votes of each group in each constituency, for one set-up. Constituencies and groups are numbered from 1. All votes
/// together are at most 10^14. Memory is allocated in `new`, `from_votes`, `copy` and `of`; no other call allocates any.
#[derive(Drop)]
pub struct Totals<'s> {
    setup: &'s Setup,
    votes: Vec<u64>,
    constituencies: Vec<u64>,
}

impl<'s> Model for Totals<'s> {
    ghost use Rattle.zh_totals.specs.Totals.{VoteTotals};

    ghost Value = { VoteTotals };

    ghost use Rattle.zh_totals.specs.Inside.{totals_in, AreTotalsInside};

    ghost view = { totals_in };

    ghost invariant = { AreTotalsInside };
}

/// A table of sums that are all 0.
fn no_votes(alloc: Global, sums: usize) -> Result<Vec<u64>, AllocError>
    ensures { IfOk result (λ votes. votes.items ≡ replicate sums 0) }
{
    vec![in alloc; 0; sums]
}

/// Replaces the votes before a change by those after it in one sum.
fn replace(sums: &mut [u64], place: usize, change: &Change)
    requires place { place < length sums.old }
    requires before { change.now.before ≤ slice_index sums.old place }
    requires most { slice_index sums.old place ≤ 10 ^ 14 }
    ensures { sums.new ≡ set sums.old place (slice_index sums.old place - change.now.before + change.now.after) }
{
    sums[place] = sums[place] - u64::from(change.before) + u64::from(change.after);
}

impl<'s> Totals<'s> {
    /// The totals of an election before its first return. Fails if memory is refused.
    pub fn new(alloc: Global, setup: &'s Setup) -> Result<Totals<'s>, AllocError>
        ensures { IfOk result (λ totals. totals ≡ totals_of (empty setup.now)) }
    {
        let constituencies = setup.constituencies() as usize;
        let groups = setup.groups() as usize;
        Ok(Totals {
            setup,
            votes: no_votes(alloc, constituencies * groups)?,
            constituencies: no_votes(alloc, constituencies)?,
        })
    }

    /// The totals with these votes: one sum for each group, constituency by constituency. None if there is not one for each, or
    /// if there are more than 10^14 votes in all. Fails if memory is refused.
    pub fn from_votes(
        alloc: Global,
        setup: &'s Setup,
        votes: Vec<u64>,
    ) -> Result<Option<Totals<'s>>, AllocError>
        ensures { IfOk result (λ totals. AreTotalsOf (record { canton = setup.now; votes = votes.items }) totals) }
    {
        let rows = setup.constituencies() as usize;
        let columns = setup.groups() as usize;
        if votes.len() != rows * columns {
            return Ok(None);
        }
        let Some(constituencies) = row_sums(alloc, &votes, rows, columns)? else {
            return Ok(None);
        };
        Ok(Some(Totals {
            setup,
            votes,
            constituencies,
        }))
    }

    /// The set-up that the totals are for.
    pub fn setup(&self) -> &'s Setup
        ensures setup { result.now ≡ self.now.canton }
        ensures limits { AreTotals self.now }
    {
        self.setup
    }

    /// The votes of every group, constituency by constituency.
    pub fn all(&self) -> &[u64]
        ensures { result.now ≡ self.now.votes }
    {
        self.votes.as_slice()
    }

    /// The votes of a group in a constituency.
    pub fn votes(&self, constituency: u32, group: u32) -> u64
        requires from_one { 1 ≤ constituency }
        requires there { constituency ≤ length self.now.canton.constituencies }
        requires group_from_one { 1 ≤ group }
        requires group_there { group ≤ length self.now.canton.groups }
        ensures votes { result ≡ votes_in self.now constituency group }
        ensures most { result ≤ 10 ^ 14 }
    {
        self.votes[self.place(constituency, group)]
    }

    /// The votes of all groups in a constituency.
    pub fn constituency(&self, constituency: u32) -> u64
        requires from_one { 1 ≤ constituency }
        requires there { constituency ≤ length self.now.canton.constituencies }
        ensures votes { result ≡ constituency_votes self.now constituency }
        ensures most { result ≤ 10 ^ 14 }
    {
        self.constituencies[(constituency - 1) as usize]
    }

    /// Replaces the votes before a change by those after it, in the sum of its list and in that of its constituency.
    pub fn note(&mut self, change: &Change)
        requires { IsChange self.old change.now }
        ensures { self.new ≡ noted self.old change.now }
    {
        let place = self.place(change.constituency, change.list);
        replace(&mut self.votes, place, change);
        let constituency = (change.constituency - 1) as usize;
        replace(&mut self.constituencies, constituency, change);
    }

    /// A copy of these totals, for a reader that outlives them. Fails if memory is refused.
    pub fn copy(&self, alloc: Global) -> Result<Totals<'s>, AllocError>
        ensures { IfOk result (λ totals. totals ≡ self.now) }
    {
        Ok(Totals {
            setup: self.setup,
            votes: Vec::from_slice(alloc, &self.votes)?,
            constituencies: Vec::from_slice(alloc, &self.constituencies)?,
        })
    }

    /// The place of a sum in the table.
    fn place(&self, constituency: u32, group: u32) -> usize
        requires from_one { 1 ≤ constituency }
        requires there { constituency ≤ length self.now.canton.constituencies }
        requires group_from_one { 1 ≤ group }
        requires group_there { group ≤ length self.now.canton.groups }
        ensures place { result ≡ place_in self.now.canton constituency group }
        ensures within { result < length self.now.canton.constituencies * length self.now.canton.groups }
    {
        (constituency - 1) as usize * self.setup.groups() as usize + (group - 1) as usize
    }
}

impl<'s> Totals<'s> {
    /// The totals of a count, from one pass over its entries. Fails if memory is refused.
    pub fn of(alloc: Global, count: &Count<'s>) -> Result<Totals<'s>, AllocError>
        ensures { IfOk result (λ totals. totals ≡ totals_of count.now) }
    {
        let mut totals = Totals::new(alloc, count.setup())?;
        totals.note_count(count);
        Ok(totals)
    }

    /// Notes each entry of a count in totals without votes, which become the totals of the count.
    pub fn note_count(&mut self, count: &Count<'_>)
        requires { self.old ≡ totals_of (empty count.now.canton) }
        ensures { self.new ≡ totals_of count.now }
    {
        // This call is made for what it ensures: the count is within its limits.
        count.accepted();
        for municipality in 1..=count.setup().municipalities() {
            self.note_municipality(count, municipality);
        }
    }

    /// Notes the entries of a municipality after those of the municipalities before it.
    fn note_municipality(&mut self, count: &Count<'_>, municipality: u32)
        requires limits { IsTally count.now }
        requires from_one { 1 ≤ municipality }
        requires there { municipality ≤ length count.now.canton.municipalities }
        requires before { self.old ≡ totals_of (held_before count.now municipality 1) }
        ensures { self.new ≡ totals_of (held_before count.now (municipality + 1) 1) }
    {
        for list in 1..=count.setup().groups() {
            self.note_entry(count, municipality, list);
        }
    }

    /// Notes the entry of a list in a municipality, if there is one, after the entries of the keys before it.
    fn note_entry(&mut self, count: &Count<'_>, municipality: u32, list: u32)
        requires limits { IsTally count.now }
        requires from_one { 1 ≤ municipality }
        requires there { municipality ≤ length count.now.canton.municipalities }
        requires list_from_one { 1 ≤ list }
        requires list_there { list ≤ length count.now.canton.groups }
        requires before { self.old ≡ totals_of (held_before count.now municipality list) }
        ensures { self.new ≡ totals_of (held_before count.now municipality (list + 1)) }
    {
        if let Some(entry) = count.entry(municipality, list) {
            self.note(&Change {
                constituency: count.setup().constituency_of(municipality),
                list,
                before: 0,
                after: entry.votes.unwrap_or(0),
            });
        }
    }
}
