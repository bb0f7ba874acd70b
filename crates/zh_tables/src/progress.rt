//! How many returns are in.

ghost use Rattle.std.specs.Prelude.{◌≡◌, ◌≤◌, length};
ghost use Rattle.zh_tables.specs.Progress.{AreFew, both, entry_votes, is_missing, is_within, one_if, progress_of, progress_over, within};

use zh_returns::{Count, Entry};

/// How many returns are in from some municipalities.
#[derive(Clone, Copy)]
pub(crate) struct Progress {
    /// Returns that are held, including withdrawals.
    pub held: u32,
    /// Returns that are due: one for each list that stands, in each municipality.
    pub due: u32,
    /// Returns that are due and not held.
    pub missing: u32,
    /// The votes of the returns that are held.
    pub votes: u64,
    pub municipalities: u32,
    /// How many of the municipalities have a return or a withdrawal.
    pub begun: u32,
    /// How many of the municipalities are closed.
    pub closed: u32,
}

/// A set of municipalities.
#[derive(Clone, Copy)]
pub(crate) enum Region {
    /// All of them.
    Whole,
    /// Those of one constituency.
    Constituency(u32),
    /// Those of one constituency, except one.
    Others { constituency: u32, besides: u32 },
}

fn one_if(holds: bool) -> u32
    ensures { result ≡ one_if holds }
{
    if holds { 1 } else { 0 }
}

/// The votes of an entry. A withdrawn list, or no entry, has none.
pub(crate) fn entry_votes(held: Option<Entry>) -> u64
    ensures { result ≡ entry_votes held }
{
    match held {
        Some(entry) => u64::from(entry.votes.unwrap_or(0)),
        None => 0,
    }
}

/// Whether a return is due and not held.
pub(crate) fn is_missing(count: &Count<'_>, municipality: u32, list: u32) -> bool
    requires from_one { 1 ≤ municipality }
    requires there { municipality ≤ length count.now.canton.municipalities }
    requires list_from_one { 1 ≤ list }
    requires list_there { list ≤ length count.now.canton.groups }
    ensures { result ≡ is_missing count.now municipality list }
{
    let setup = count.setup();
    setup.stands(setup.constituency_of(municipality), list)
        && count.entry(municipality, list).is_none()
}

/// The sum of two, field by field.
fn both(one: Progress, other: Progress) -> Progress
    requires few { AreFew 511 one }
    requires one { AreFew 1 other }
    ensures { result ≡ both one other }
{
    Progress {
        held: one.held + other.held,
        due: one.due + other.due,
        missing: one.missing + other.missing,
        votes: one.votes + other.votes,
        municipalities: one.municipalities + other.municipalities,
        begun: one.begun + other.begun,
        closed: one.closed + other.closed,
    }
}

/// How many returns are in from a municipality.
pub(crate) fn progress_of(count: &Count<'_>, municipality: u32) -> Progress
    requires from_one { 1 ≤ municipality }
    requires there { municipality ≤ length count.now.canton.municipalities }
    ensures progress { result ≡ progress_of count.now municipality }
    ensures few { AreFew 1 result }
{
    let setup = count.setup();
    let constituency = setup.constituency_of(municipality);
    let mut held = 0;
    let mut due = 0;
    let mut missing = 0;
    let mut votes = 0;
    for place in 0..setup.groups() {
        let entry = count.entry(municipality, place + 1);
        held += one_if(entry.is_some());
        due += one_if(setup.stands(constituency, place + 1));
        missing += one_if(is_missing(count, municipality, place + 1));
        votes += entry_votes(entry);
    }
    Progress {
        held,
        due,
        missing,
        votes,
        municipalities: 1,
        begun: one_if(held > 0),
        closed: one_if(count.closed(municipality)),
    }
}

/// How many returns are in from a region.
pub(crate) fn progress_within(count: &Count<'_>, region: Region) -> Progress
    ensures progress { result ≡ progress_over count.now (within count.now.canton region) }
    ensures few { AreFew 512 result }
{
    let mut progress = Progress {
        held: 0,
        due: 0,
        missing: 0,
        votes: 0,
        municipalities: 0,
        begun: 0,
        closed: 0,
    };
    for place in 0..count.setup().municipalities() {
        let municipality = place + 1;
        if is_within(count, municipality, region) {
            progress = both(progress, progress_of(count, municipality));
        }
    }
    progress
}

/// Whether a municipality is in a region.
fn is_within(count: &Count<'_>, municipality: u32, region: Region) -> bool
    requires from_one { 1 ≤ municipality }
    requires there { municipality ≤ length count.now.canton.municipalities }
    ensures { result ≡ is_within count.now.canton region municipality }
{
    let home = count.setup().constituency_of(municipality);
    match region {
        Region::Whole => true,
        Region::Constituency(constituency) => home == constituency,
        Region::Others {
            constituency,
            besides,
        } => home == constituency && municipality != besides,
    }
}
