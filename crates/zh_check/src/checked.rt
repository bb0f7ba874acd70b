//! The check of a sheet and its verdict.
ghost use Rattle.std.specs.Option.{option_copied};
ghost use Rattle.std.specs.Prelude.{◌≡◌, ◌≢◌, IfOk, IfSome, IsNone};
ghost use Rattle.zh_check.specs.Differences.{DiffersAt};
ghost use Rattle.zh_check.specs.Form.{IsFormed};
ghost use Rattle.zh_check.specs.Reading.{IsRead};
ghost use Rattle.zh_check.specs.Verdicts.{IsReasonOf, IsRightExactly, right_text};

use crate::form::first_off_form;
use crate::lines::{first_difference, is_same};
use crate::others::first_other_votes;
use crate::reasons::why_none;
use crate::recomputed::{Values, read, recomputed, text_of};
use std::alloc::{AllocError, Global};
use zh_districts::Setup;
use zh_sheet::Sheet;
use zh_sheet_text::Head;
use zh_totals::Totals;

/// A right sheet: its distribution, and what its first line says.
#[derive(Drop)]
pub struct RightSheet<'s> {
    pub sheet: Sheet<'s>,
    pub head: Head,
}

/// A line that is wrong.
#[derive(Drop)]
pub struct WrongLine {
    /// Its line number, from 1.
    pub line: u64,
    /// The line as found, without its end.
    pub found: Vec<u8>,
    /// What it should be.
    pub should: Vec<u8>,
}

/// The quotient of a list: its votes over the divisors of its constituency and its group.
#[derive(Clone, Copy)]
pub enum ListQuotient {
    /// It rounds to this number and is not on a half.
    RoundsTo(u128),
    /// It is on a half.
    OnHalf,
    /// One of the divisors is missing.
    NoDivisor,
}

/// A list whose seats do not follow from its votes and its divisors.
#[derive(Drop)]
pub struct OffList {
    /// Its line number, from 1.
    pub line: u64,
    /// The line as found, without its end.
    pub found: Vec<u8>,
    pub votes: u64,
    /// The divisor of its constituency in millionths, 0 if there is none.
    pub row_divisor: u64,
    /// The divisor of its group in millionths, 0 if there is none.
    pub column_divisor: u64,
    /// The votes over both divisors.
    pub quotient: ListQuotient,
}

/// A constituency or a group whose lists do not add up to its seats.
#[derive(Drop)]
pub struct OffTotal {
    /// Its line number, from 1.
    pub line: u64,
    /// The line as found, without its end.
    pub found: Vec<u8>,
    /// The sum of the seats of its lists.
    pub seats: u32,
    /// Its seats. Those of a constituency follow from the persons, those of a group from the votes.
    pub total: u32,
}

/// A list whose votes differ from those held.
#[derive(Drop)]
pub struct OtherVotes {
    /// Its line number, from 1. A list that does not stand has no line; then this is the line of its constituency.
    pub line: u64,
    /// The line as found, without its end.
    pub found: Vec<u8>,
    /// The votes that are held for the list.
    pub held: u64,
}

/// The verdict of a check. A wrong sheet gets the first of these reasons that applies.
#[derive(Drop)]
pub enum SheetVerdict<'s> {
    /// The sheet is right.
    Right(RightSheet<'s>),
    /// The first line that is not of its kind. If only CRs are wrong in the text, `should` is the line without them.
    /// Otherwise `should` has two dots for each word that the set-up does not give.
    OffForm(WrongLine),
    /// The first list whose votes differ from those held.
    OtherVotes(OtherVotes),
    /// A sheet follows from the first line of the text and from its votes, divisors and seats of lists. This is the first
    /// line that differs from that sheet.
    Differs(WrongLine),
    /// No sheet follows. This is the first list whose seats do not follow from its votes and its divisors.
    OffList(OffList),
    /// No sheet follows. This is the first constituency, or else the first group, whose lists do not add up to its
    /// seats.
    OffTotal(OffTotal),
    /// No sheet follows, although the seats of each list follow, and the lists add up to each total that follows. Then
    /// the constituencies or the groups get no seats, there are too many votes, or a divisor is beyond its limits or
    /// belongs to a group without seats.
    NoSheet,
}

/// Checks whether a text is a right sheet of this set-up. If `held` is given (totals of the same set-up), the sheet's
/// votes have to be those.
///
/// The sheet is right if its divisors are within their limits and give its seats with no quotient on a half, no list
/// that does not stand has votes, and all its other numbers follow. Then no other seats follow from these votes,
/// whatever the divisors. The check does not search for divisors.
pub fn check<'s>(
    alloc: Global,
    setup: &'s Setup,
    text: &[u8],
    held: Option<&Totals<'_>>,
) -> Result<SheetVerdict<'s>, AllocError>
    ensures exactly { IfOk result (IsRightExactly setup.now (option_copied held.entry) text.now) }
    ensures reason { IfOk result (IsReasonOf setup.now (option_copied held.entry) text.now) }
{
    if let Some(wrong) = first_off_form(alloc, setup, text)? {
        return Ok(SheetVerdict::OffForm(wrong));
    }
    let values = read(alloc, setup, text)?;
    verdict_of_values(alloc, setup, text, values, held)
}

/// The verdict on a text that is in the form of a sheet, by the values that were read from it.
fn verdict_of_values<'s>(
    alloc: Global,
    setup: &'s Setup,
    text: &[u8],
    values: Values,
    held: Option<&Totals<'_>>,
) -> Result<SheetVerdict<'s>, AllocError>
    requires formed { IsFormed setup.now text.now }
    requires read { IsRead setup.now text.now values }
    ensures exactly { IfOk result (IsRightExactly setup.now (option_copied held.entry) text.now) }
    ensures reason { IfOk result (IsReasonOf setup.now (option_copied held.entry) text.now) }
{
    if let Some(other) = first_other_votes(alloc, setup, text, &values.votes, held)? {
        return Ok(SheetVerdict::OtherVotes(other));
    }
    let Some(right) = recomputed(alloc, setup, text, &values)? else {
        return why_none(alloc, setup, text, values);
    };
    if let Some(line) = first_other_line(alloc, text, &right)? {
        return Ok(SheetVerdict::Differs(line));
    }
    Ok(SheetVerdict::Right(right))
}

/// The first line of a text that differs from the text of a sheet, if the two differ.
fn first_other_line(
    alloc: Global,
    text: &[u8],
    right: &RightSheet<'_>,
) -> Result<Option<WrongLine>, AllocError>
    ensures same { IfOk result (λ wrong. IsNone wrong → text.now ≡ right_text right.now) }
    ensures other { IfOk result (λ wrong. IfSome wrong (λ w. text.now ≢ right_text right.now)) }
    ensures line { IfOk result (λ wrong. IfSome wrong (DiffersAt text.now (right_text right.now) (right_text right.now))) }
{
    let expected = text_of(alloc, right)?;
    if is_same(text, &expected) {
        return Ok(None);
    }
    Ok(Some(first_difference(alloc, text, &expected, &expected)?))
}
