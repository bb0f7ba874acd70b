//! The lists of a sheet by place, and the first one whose seats do not follow.
ghost use Rattle.std.specs.Prelude.{◌+◌, ◌*◌, ◌^◌, ◌<◌, ◌≡◌, ◌↔◌, IfOk, IsTrue, length, ◌≤◌, false, slice_index_or};
ghost use Rattle.zh_check.specs.Cells.{DoSeatsFollow, FindsOffList, IsOffAs, IsQuotient, shown_list};
ghost use Rattle.zh_check.specs.Lines.{after_lines, first_line};
ghost use Rattle.zh_check.specs.Others.{line_of_votes};
ghost use Rattle.zh_check.specs.Reading.{IsRead, lines_above, standing};

use crate::checked::{ListQuotient, OffList};
use crate::lines::line_after;
use crate::recomputed::Values;
use std::alloc::{AllocError, Global};
use zh_districts::Setup;

/// What `votes` over `product` rounds to, unless it is on a half or `product` is 0.
fn rounded(votes: u128, product: u128) -> ListQuotient
    requires { votes < 2 ^ 110 }
    ensures { IsQuotient votes product result }
{
    if product == 0 {
        return ListQuotient::NoDivisor;
    }
    let whole = votes / product;
    let rest = votes % product;
    let missing = product - rest;
    if rest < missing {
        return ListQuotient::RoundsTo(whole);
    }
    if rest > missing {
        return ListQuotient::RoundsTo(whole + 1);
    }
    ListQuotient::OnHalf
}

/// A list as a text shows it: its votes, the divisors of its constituency and of its group in millionths (0 if there is
/// none), and its seats.
#[derive(Clone, Copy)]
pub(crate) struct ShownList {
    pub votes: u64,
    pub row_divisor: u64,
    pub column_divisor: u64,
    pub seats: u32,
}

/// What the votes of a list over both of its divisors round to, unless they are on a half or a divisor is missing.
fn quotient(list: ShownList) -> ListQuotient
    ensures { IsQuotient (list.votes * (1000000 * 1000000)) (list.row_divisor * list.column_divisor) result }
{
    rounded(
        u128::from(list.votes) * 1_000_000_000_000,
        u128::from(list.row_divisor) * u128::from(list.column_divisor),
    )
}

/// Whether the seats of a list follow from its votes and its divisors. Without a divisor of its group it must have no
/// seats.
fn do_seats_follow(list: ShownList) -> bool
    ensures { IsTrue result ↔ DoSeatsFollow list }
{
    match quotient(list) {
        ListQuotient::RoundsTo(number) => number == u128::from(list.seats),
        ListQuotient::OnHalf => false,
        ListQuotient::NoDivisor => list.column_divisor == 0 && list.seats == 0,
    }
}

/// The report of a list on the line after the first `before` lines, with its quotient.
fn off_list(alloc: Global, text: &[u8], before: u32, list: ShownList) -> Result<OffList, AllocError>
    ensures line { IfOk result (λ off. off.line ≡ before + 1) }
    ensures found { IfOk result (λ off. off.found.items ≡ first_line (after_lines before text.now)) }
    ensures list { IfOk result (IsOffAs list) }
{
    Ok(OffList {
        line: u64::from(before) + 1,
        found: line_after(alloc, text, before)?,
        votes: list.votes,
        row_divisor: list.row_divisor,
        column_divisor: list.column_divisor,
        quotient: quotient(list),
    })
}

/// The list at a place, as it was read from a text.
fn list_at(setup: &Setup, text: &[u8], values: &Values, place: usize) -> ShownList
    requires read { IsRead setup.now text.now values.now }
    requires there { place < length setup.now.constituencies * length setup.now.groups }
    ensures { result ≡ shown_list setup.now text.now place }
{
    let groups = setup.groups() as usize;
    let votes = values.votes.as_slice();
    let of_rows = values.row_divisors.as_slice();
    let of_groups = values.group_divisors.as_slice();
    let seats = values.seats.as_slice();
    ShownList {
        votes: votes[place],
        row_divisor: of_rows[place / groups],
        column_divisor: of_groups[place % groups],
        seats: seats[place],
    }
}

/// The first list that stands and whose seats do not follow from its votes and divisors, as a text shows them.
pub(crate) fn first_off_list(
    alloc: Global,
    setup: &Setup,
    text: &[u8],
    values: &Values,
) -> Result<Option<OffList>, AllocError>
    requires { IsRead setup.now text.now values.now }
    ensures { IfOk result (FindsOffList setup.now text.now) }
{
    let votes = values.votes.as_slice();
    let mut before = lines_before_lists(setup);
    for place in 0..votes.len() {
        if stands_at(setup, place) {
            let list = list_at(setup, text, values, place);
            if !do_seats_follow(list) {
                return Ok(Some(off_list(alloc, text, before, list)?));
            }
            before += 1;
        }
    }
    Ok(None)
}

/// The number of lines between the first line and the constituencies.
pub(crate) fn lines_above(setup: &Setup) -> u32
    ensures { result ≡ lines_above setup.now }
{
    match setup.canton_quorum() {
        Some(_) => 4,
        None => 3,
    }
}

/// The number of lines before those of the lists.
fn lines_before_lists(setup: &Setup) -> u32
    ensures count { result ≡ 1 + lines_above setup.now + length setup.now.constituencies + length setup.now.groups }
    ensures few { result ≤ 69 }
{
    1 + lines_above(setup) + setup.constituencies() + setup.groups()
}

/// Whether the list at a place stands.
fn stands_at(setup: &Setup, place: usize) -> bool
    requires { place < length setup.now.constituencies * length setup.now.groups }
    ensures { result ≡ slice_index_or (standing setup.now) place false }
{
    let groups = setup.groups() as usize;
    let row = (place / groups) as u32;
    let column = (place % groups) as u32;
    setup.stands(row + 1, column + 1)
}

/// The number of lines before that of the list at a place. If it does not stand, those before the line of its
/// constituency.
pub(crate) fn lines_before(setup: &Setup, place: usize) -> u32
    requires { place < length setup.now.constituencies * length setup.now.groups }
    ensures { line_of_votes setup.now place ≡ result + 1 }
{
    if !stands_at(setup, place) {
        let groups = setup.groups() as usize;
        return 1 + lines_above(setup) + (place / groups) as u32;
    }
    let mut before = lines_before_lists(setup);
    for earlier in 0..place {
        if stands_at(setup, earlier) {
            before += 1;
        }
    }
    before
}
