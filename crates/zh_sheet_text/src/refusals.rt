//! The report of why there are no seats.

ghost use Rattle.std.specs.Prelude.{◌≡◌, ◌≤◌, ◌++◌, ◌∷◌, [], IfOk, OnOk, codes, decimal, length};
ghost use Rattle.zh_text.specs.Each.{each_to};
ghost use Rattle.zh_sheet_text.specs.Reported.{refusal_text};
ghost use Rattle.zh_sheet_text.specs.Refusals.{number_if_among, only_seats_text, reason_text, refusal_line, seats_line, seats_line_of};

use crate::lots::push_lot;
use crate::mark::NoSeats;
use std::alloc::{AllocError, Global};
use zh_commands::{Refusal, Reply, answer_line};
use zh_decided::MarkedRows;
use zh_districts::Setup;
use zh_sheet::{ExhaustedReason, ListSeats, SheetRefusal};
use zh_text::push_number;

/// Appends the line of a refusal.
fn push_refusal(out: &mut Vec<u8>, refusal: Refusal) -> Result<(), AllocError>
    ensures { OnOk result (out.new.items ≡ out.old.items ++ refusal_line refusal) }
{
    out.extend_from_slice(b"zhcount: ")?;
    out.extend_from_slice(&answer_line(&Reply::Refused(refusal)))
}

/// Appends a space and a number.
pub(crate) fn push_spaced(out: &mut Vec<u8>, number: u32) -> Result<(), AllocError>
    ensures { OnOk result (out.new.items ≡ out.old.items ++ (32 ∷ decimal number)) }
{
    out.push(b' ')?;
    push_number(out, number)
}

/// Appends a space and the number of a constituency, if it is marked.
fn push_if_marked(
    out: &mut Vec<u8>,
    marked: &MarkedRows,
    constituency: u32,
) -> Result<(), AllocError>
    requires from_one { 1 ≤ constituency }
    requires most { constituency ≤ 32 }
    ensures { OnOk result (out.new.items ≡ out.old.items ++ number_if_among marked.now constituency) }
{
    if marked.contains(constituency) {
        push_spaced(out, constituency)
    } else {
        Ok(())
    }
}

/// Appends the numbers of the marked constituencies.
fn push_marked(out: &mut Vec<u8>, setup: &Setup, marked: &MarkedRows) -> Result<(), AllocError>
    ensures { OnOk result (out.new.items ≡ out.old.items
        ++ each_to (length setup.now.constituencies) (number_if_among marked.now)) }
{
    for place in 0..setup.constituencies() {
        push_if_marked(out, marked, place + 1)?;
    }
    Ok(())
}

/// Appends `nearly tied`, the constituency and the group.
fn push_near_tie(out: &mut Vec<u8>, constituency: u32, group: u32) -> Result<(), AllocError>
    ensures { OnOk result (out.new.items
        ≡ out.old.items ++ (codes "nearly tied" ++ 32 ∷ decimal constituency ++ 32 ∷ decimal group)) }
{
    out.extend_from_slice(b"nearly tied")?;
    push_spaced(out, constituency)?;
    push_spaced(out, group)
}

/// Appends a line feed and then three numbers, with a space between them.
pub(crate) fn push_line(out: &mut Vec<u8>, one: u32, two: u32, three: u32) -> Result<(), AllocError>
    ensures { OnOk result (out.new.items ≡ out.old.items ++ (10 ∷ decimal one ++ 32 ∷ decimal two ++ 32 ∷ decimal three)) }
{
    out.push(b'\n')?;
    push_number(out, one)?;
    push_spaced(out, two)?;
    push_spaced(out, three)
}

/// Appends the line of a list, if it has seats.
pub(crate) fn push_list(
    out: &mut Vec<u8>,
    constituency: u32,
    group: u32,
    seats: u32,
) -> Result<(), AllocError>
    ensures { OnOk result (out.new.items ≡ out.old.items ++ seats_line constituency group seats) }
{
    if seats > 0 {
        push_line(out, constituency, group, seats)
    } else {
        Ok(())
    }
}

/// Appends the lines of the lists of a constituency that have seats.
fn push_lists(out: &mut Vec<u8>, lists: &ListSeats, constituency: u32) -> Result<(), AllocError>
    requires from_one { 1 ≤ constituency }
    requires there { constituency ≤ lists.now.constituencies }
    ensures { OnOk result (out.new.items ≡ out.old.items ++ each_to (length lists.now.groups) (seats_line_of lists.now constituency)) }
{
    let groups = lists.groups();
    for place in 0..groups.len() {
        let seats = lists.seats(constituency, place as u32 + 1);
        push_list(out, constituency, groups[place], seats)?;
    }
    Ok(())
}

/// Appends `: no sheet, but these are the only seats` and a line for each list that has seats.
fn push_only_seats(out: &mut Vec<u8>, lists: &ListSeats) -> Result<(), AllocError>
    ensures { OnOk result (out.new.items ≡ out.old.items ++ only_seats_text lists.now) }
{
    out.extend_from_slice(b": no sheet, but these are the only seats")?;
    for place in 0..lists.constituencies() {
        push_lists(out, lists, place + 1)?;
    }
    Ok(())
}

/// Appends the reason of an exhausted search, without a line feed at its end.
fn push_reason(out: &mut Vec<u8>, setup: &Setup, reason: &ExhaustedReason) -> Result<(), AllocError>
    ensures { OnOk result (out.new.items ≡ out.old.items ++ reason_text setup.now reason.now) }
{
    match reason {
        ExhaustedReason::Impossible(marked) => {
            out.extend_from_slice(b"impossible")?;
            push_marked(out, setup, marked)
        }
        ExhaustedReason::NearlyTied(constituency, group) => {
            push_near_tie(out, *constituency, *group)
        }
        ExhaustedReason::Beyond(lists) => {
            out.extend_from_slice(b"beyond")?;
            push_only_seats(out, lists)
        }
    }
}

/// The report of why there are no seats. Its first line is the refusal, or that the sheet is wrong. After `exhausted`
/// the next lines are the reason; after a tie they are what the lot decides.
pub fn refusal_text(alloc: Global, setup: &Setup, why: &NoSeats) -> Result<Vec<u8>, AllocError>
    ensures { IfOk result (λ text. text.items ≡ refusal_text setup.now why.now) }
{
    let mut out = Vec::new(alloc);
    match why {
        NoSeats::Refused(refusal) => push_refusal(&mut out, *refusal)?,
        NoSeats::Exhausted(reason) => {
            push_refusal(&mut out, Refusal::Sheet(SheetRefusal::Exhausted))?;
            push_reason(&mut out, setup, reason)?;
            out.push(b'\n')?;
        }
        NoSeats::Tied(refusal, lot) => {
            push_refusal(&mut out, Refusal::Sheet(*refusal))?;
            push_lot(&mut out, setup, lot)?;
            out.push(b'\n')?;
        }
        NoSeats::Wrong => out.extend_from_slice(b"zhcount: sheet wrong\n")?,
    }
    Ok(out)
}
