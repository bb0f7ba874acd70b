//! Why there are no seats.
ghost use Rattle.std.specs.Prelude.{◌≤◌};

use crate::answer::push_impossible;
use std::alloc::AllocError;
use zh_sheet::{ExhaustedReason, ListSeats, NoSheet, Sheet, SheetFault};

/// Appends the lists of a constituency that have seats, each as its constituency, its group and its seats.
fn push_lists(answer: &mut String, lists: &ListSeats, constituency: u32) -> Result<(), AllocError>
    requires from_one { 1 ≤ constituency }
    requires there { constituency ≤ lists.now.constituencies }
{
    let groups = lists.groups();
    for place in 0..groups.len() {
        let seats = lists.seats(constituency, place as u32 + 1);
        if seats > 0 {
            write!(answer, "; {constituency} {} {seats}", groups[place])?;
        }
    }
    Ok(())
}

/// Appends, for each list that has seats, its constituency, its group and its seats.
fn push_beyond(answer: &mut String, lists: &ListSeats) -> Result<(), AllocError> {
    answer.push_str("beyond")?;
    for place in 0..lists.constituencies() {
        push_lists(answer, lists, place + 1)?;
    }
    Ok(())
}

/// Appends the reason for an exhausted search over this many constituencies.
fn push_exhausted(
    answer: &mut String,
    reason: &ExhaustedReason,
    constituencies: u32,
) -> Result<(), AllocError>
    requires { constituencies ≤ 32 }
{
    match reason {
        ExhaustedReason::Impossible(marked) => push_impossible(answer, marked, constituencies),
        ExhaustedReason::NearlyTied(constituency, group) => {
            write!(answer, "nearly tied {constituency} {group}")
        }
        ExhaustedReason::Beyond(lists) => push_beyond(answer, lists),
    }
}

/// Appends why a count has no sheet: why the search for the seats of its lists is exhausted, or the earlier fault.
fn push_reason(answer: &mut String, none: NoSheet, constituencies: u32) -> Result<(), AllocError>
    requires { constituencies ≤ 32 }
{
    match none {
        NoSheet::Exhausted(reason) => push_exhausted(answer, &reason, constituencies),
        none => write!(answer, "{}", SheetFault::from(none)),
    }
}

/// Appends why a count has no sheet, or `a sheet` if it has one.
pub(crate) fn push_made(
    answer: &mut String,
    made: Result<Sheet, NoSheet>,
    constituencies: u32,
) -> Result<(), AllocError>
    requires { constituencies ≤ 32 }
{
    match made {
        Ok(_) => answer.push_str("a sheet"),
        Err(none) => push_reason(answer, none, constituencies),
    }
}
