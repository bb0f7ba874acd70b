//! Why no sheet follows from what a text shows.
ghost use Rattle.std.specs.Prelude.{◌≡◌, ◌+◌, IfOk, length, ◌-◌, ◌*◌, ◌<◌, ◌≤◌, ℕ, All, IfSome, slice_index, option_map};
ghost use Rattle.zh_check.specs.Reading.{IsRead, lines_above, seats_read, votes_read};
ghost use Rattle.zh_check.specs.Totals.{FindsOffAmong, FindsOffTotal, constituency_sum, group_sum, FindsUnmet, IsSaid, spaced_sum};
ghost use Rattle.zh_check.specs.Totals.{AreConstituencySeats, AreMet, FindsConstituencySeats, FindsGroupSeats};
ghost use Rattle.zh_check.specs.Verdicts.{IsWhyNone};
ghost use Rattle.zh_sheet.specs.Distribution.{HaveSeats};

use crate::checked::{OffTotal, SheetVerdict};
use crate::lines::line_after;
use crate::lists::{first_off_list, lines_above};
use crate::recomputed::Values;
use std::alloc::{AllocError, Global};
use zh_districts::{SeatFault, Setup, seats};
use zh_divisors::Shares;
use zh_quorum::participating;
use zh_totals::Totals;
use zh_upper::{Upper, UpperFault, upper, voters};

/// The first constituency whose lists do not add up to its total.
fn first_off_constituency(
    alloc: Global,
    setup: &Setup,
    text: &[u8],
    seats: &[u32],
    totals: &[u32],
) -> Result<Option<OffTotal>, AllocError>
    requires seats { seats.now ≡ seats_read setup.now text.now }
    requires totals { length totals.now ≡ length setup.now.constituencies }
    ensures { IfOk result (FindsOffAmong (constituency_sum setup.now text.now) totals.now text.now (1 + lines_above setup.now)) }
{
    let groups = setup.groups() as usize;
    let Some(unmet) = first_unmet(seats, totals, groups, groups, 1) else {
        return Ok(None);
    };
    let before = 1 + lines_above(setup) + unmet.place as u32;
    let off = off_total(alloc, text, before, unmet.seats, totals[unmet.place])?;
    Ok(Some(off))
}

/// The first group whose lists do not add up to its total.
fn first_off_group(
    alloc: Global,
    setup: &Setup,
    text: &[u8],
    seats: &[u32],
    totals: &[u32],
) -> Result<Option<OffTotal>, AllocError>
    requires seats { seats.now ≡ seats_read setup.now text.now }
    requires totals { length totals.now ≡ length setup.now.groups }
    ensures { IfOk result (FindsOffAmong (group_sum setup.now text.now) totals.now text.now
        (1 + lines_above setup.now + length setup.now.constituencies)) }
{
    let (rows, columns) = (setup.constituencies(), setup.groups());
    let Some(unmet) = first_unmet(seats, totals, 1, rows as usize, columns as usize) else {
        return Ok(None);
    };
    let before = 1 + lines_above(setup) + rows + unmet.place as u32;
    let off = off_total(alloc, text, before, unmet.seats, totals[unmet.place])?;
    Ok(Some(off))
}

/// The first group whose lists do not add up to its total, if the totals of the groups follow from these votes. The lists
/// add up to the seats of the constituencies.
fn first_off_group_by_votes(
    alloc: Global,
    setup: &Setup,
    text: &[u8],
    seats: &[u32],
    votes: Vec<u64>,
    rows: &[u32],
) -> Result<Option<OffTotal>, AllocError>
    requires seats { seats.now ≡ seats_read setup.now text.now }
    requires votes { votes.items ≡ votes_read setup.now text.now }
    requires rows { AreConstituencySeats setup.now rows.now }
    requires met { AreMet (constituency_sum setup.now text.now) rows.now }
    ensures { IfOk result (FindsOffTotal setup.now text.now) }
{
    let Some(totals) = Totals::from_votes(alloc, setup, votes)? else {
        return Ok(None);
    };
    match group_seats(alloc, &totals, rows)? {
        Some(columns) => first_off_group(alloc, setup, text, seats, &columns),
        None => Ok(None),
    }
}

/// The first total that the seats of the lists do not add up to, among those that follow. Constituencies come before
/// groups.
fn first_off_total(
    alloc: Global,
    setup: &Setup,
    text: &[u8],
    seats: &[u32],
    votes: Vec<u64>,
) -> Result<Option<OffTotal>, AllocError>
    requires seats { seats.now ≡ seats_read setup.now text.now }
    requires votes { votes.items ≡ votes_read setup.now text.now }
    ensures { IfOk result (FindsOffTotal setup.now text.now) }
{
    let Some(rows) = constituency_seats(alloc, setup)? else {
        return Ok(None);
    };
    if let Some(off) = first_off_constituency(alloc, setup, text, seats, rows.seats())? {
        return Ok(Some(off));
    }
    first_off_group_by_votes(alloc, setup, text, seats, votes, rows.seats())
}

/// Why no sheet follows from what was read from a text, given that none does.
pub(crate) fn why_none<'s>(
    alloc: Global,
    setup: &'s Setup,
    text: &[u8],
    values: Values,
) -> Result<SheetVerdict<'s>, AllocError>
    requires { IsRead setup.now text.now values }
    ensures { IfOk result (IsWhyNone setup.now text.now) }
{
    if let Some(off) = first_off_list(alloc, setup, text, &values)? {
        return Ok(SheetVerdict::OffList(off));
    }
    let votes = values.votes;
    match first_off_total(alloc, setup, text, &values.seats, votes)? {
        Some(off) => Ok(SheetVerdict::OffTotal(off)),
        None => Ok(SheetVerdict::NoSheet),
    }
}

/// A total that the seats of the lists do not add up to: its place, and their sum.
#[derive(Clone, Copy)]
pub(crate) struct Unmet {
    pub place: usize,
    pub seats: u32,
}

/// The sum of `terms` seats: the first is at index `first`, and each of the others is `step` after the one before.
fn spaced_sum(seats: &[u32], first: usize, terms: usize, step: usize) -> u32
    requires few { All (λ s. s ≤ 400) seats.now }
    requires terms { terms ≤ 32 }
    requires there { (k : ℕ) → k < terms → first + k * step < length seats.now }
    ensures { result ≡ spaced_sum seats.now first terms step }
{
    let mut sum = 0;
    for term in 0..terms {
        sum += seats[first + term * step];
    }
    sum
}

/// The first total that its seats do not add up to. Those of total k begin at index k * `between`; there are `terms` of
/// them, each `step` after the one before.
pub(crate) fn first_unmet(
    seats: &[u32],
    totals: &[u32],
    between: usize,
    terms: usize,
    step: usize,
) -> Option<Unmet>
    requires few { All (λ s. s ≤ 400) seats.now }
    requires some { 1 ≤ terms }
    requires terms { terms ≤ 32 }
    requires there { (line k : ℕ) → line < length totals.now → k < terms → line * between + k * step < length seats.now }
    ensures { FindsUnmet (λ line. spaced_sum seats.now (line * between) terms step) totals.now result }
{
    for (place, total) in totals.iter().enumerate() {
        let sum = spaced_sum(seats, place * between, terms, step);
        if sum != *total {
            return Some(Unmet { place, seats: sum });
        }
    }
    None
}

/// The report of a total that is not met, on the line after the first `before` lines.
pub(crate) fn off_total(
    alloc: Global,
    text: &[u8],
    before: u32,
    seats: u32,
    total: u32,
) -> Result<OffTotal, AllocError>
    ensures { IfOk result (IsSaid text.now before seats total) }
{
    Ok(OffTotal {
        line: u64::from(before) + 1,
        found: line_after(alloc, text, before)?,
        seats,
        total,
    })
}

/// The seats of the constituencies, or `None` if they are tied or one of them gets no seat.
pub(crate) fn constituency_seats(alloc: Global, setup: &Setup) -> Result<Option<Shares>, AllocError>
    ensures { IfOk result (FindsConstituencySeats setup.now) }
{
    match seats(alloc, setup) {
        Ok(seats) => Ok(Some(seats)),
        Err(SeatFault::Memory) => Err(AllocError),
        Err(_) => Ok(None),
    }
}

/// The seats of all groups.
fn each_seats(alloc: Global, upper: &Upper, groups: u32) -> Result<Vec<u32>, AllocError>
    requires { groups ≡ length upper.now.seats }
    ensures { IfOk result (λ seats. seats.items ≡ upper.now.seats) }
{
    let mut seats = Vec::with_capacity(alloc, groups as usize)?;
    for place in 0..groups {
        seats.push(upper.seats(place + 1))?;
    }
    Ok(seats)
}

/// The seats of the groups that follow from the votes and the seats of the constituencies, or `None` if no group takes
/// part, none has voters, or the seats are tied.
pub(crate) fn group_seats(
    alloc: Global,
    totals: &Totals<'_>,
    seats: &[u32],
) -> Result<Option<Vec<u32>>, AllocError>
    requires { HaveSeats totals.now seats.now }
    ensures { IfOk result (λ found. FindsGroupSeats totals.now seats.now (option_map (λ upper. upper.items) found)) }
{
    let setup = totals.setup();
    let taking = participating(alloc, totals)?;
    let voters = voters(alloc, totals, seats)?;
    match upper(alloc, &voters, &taking, setup.house()) {
        Ok(upper) => Ok(Some(each_seats(alloc, &upper, setup.groups())?)),
        Err(UpperFault::Memory) => Err(AllocError),
        Err(UpperFault::Refused(_)) => Ok(None),
    }
}
