//! The text of a verdict on a sheet.
ghost use Rattle.std.specs.Prelude.{◌≡◌, OnOk, ◌++◌, IfOk};
ghost use Rattle.zh_verdicts.specs.Text.{verdict_text, difference_text, no_sheet_text, off_form_text, off_list_text, off_total_text};
ghost use Rattle.zh_verdicts.specs.Text.{other_votes_text};

use crate::quotient::push_off;
use crate::right::{push_form_and_votes, push_parts_above, push_right};
use crate::wrong_line::{push_differs, push_held, push_total};
use std::alloc::{AllocError, Global};
use zh_check::{OffList, OffTotal, OtherVotes, SheetVerdict, WrongLine};
use zh_tables::HeldRows;

/// Appends the first line that is not of its kind, what it should be, and `sheet wrong`.
fn push_off_form(text: &mut Vec<u8>, wrong: &WrongLine) -> Result<(), AllocError>
    ensures { OnOk result (text.new.items ≡ text.old.items ++ off_form_text wrong.now) }
{
    push_differs(text, wrong)?;
    text.extend_from_slice(b"sheet wrong\n")
}

/// Appends `form ok`, the line of the first list whose votes differ from those held, these votes, and `sheet wrong`.
fn push_other_votes(text: &mut Vec<u8>, other: &OtherVotes) -> Result<(), AllocError>
    ensures { OnOk result (text.new.items ≡ text.old.items ++ other_votes_text other.now) }
{
    text.extend_from_slice(b"form ok\n")?;
    push_held(text, other)?;
    text.extend_from_slice(b"sheet wrong\n")
}

/// Appends the lines of the parts that are right, the first line that differs from the sheet that follows, what it should
/// be, and `sheet wrong`.
fn push_difference(
    text: &mut Vec<u8>,
    wrong: &WrongLine,
    held: Option<HeldRows>,
) -> Result<(), AllocError>
    ensures { OnOk result (text.new.items ≡ text.old.items ++ difference_text held wrong.now) }
{
    push_form_and_votes(text, held)?;
    push_parts_above(text, &wrong.should)?;
    push_differs(text, wrong)?;
    text.extend_from_slice(b"sheet wrong\n")
}

/// Appends `form ok`, the line about the votes, the first list whose seats do not follow, and `sheet wrong`.
fn push_off_list(
    text: &mut Vec<u8>,
    off: &OffList,
    held: Option<HeldRows>,
) -> Result<(), AllocError>
    ensures { OnOk result (text.new.items ≡ text.old.items ++ off_list_text held off.now) }
{
    push_form_and_votes(text, held)?;
    push_off(text, off)?;
    text.extend_from_slice(b"sheet wrong\n")
}

/// Appends `form ok`, the line about the votes, the first total that the lists do not add up to, and `sheet wrong`.
fn push_off_total(
    text: &mut Vec<u8>,
    off: &OffTotal,
    held: Option<HeldRows>,
) -> Result<(), AllocError>
    ensures { OnOk result (text.new.items ≡ text.old.items ++ off_total_text held off.now) }
{
    push_form_and_votes(text, held)?;
    push_total(text, off)?;
    text.extend_from_slice(b"sheet wrong\n")
}

/// Appends `form ok`, the line about the votes, the line `no sheet follows ..`, and `sheet wrong`.
fn push_no_sheet(text: &mut Vec<u8>, held: Option<HeldRows>) -> Result<(), AllocError>
    ensures { OnOk result (text.new.items ≡ text.old.items ++ no_sheet_text held) }
{
    push_form_and_votes(text, held)?;
    text.extend_from_slice(b"no sheet follows from these votes, divisors and seats\nsheet wrong\n")
}

/// The text of a verdict on a sheet. Its votes were compared with the sums of these rows, or with nothing.
pub(crate) fn verdict_text(
    alloc: Global,
    verdict: &SheetVerdict<'_>,
    held: Option<HeldRows>,
) -> Result<Vec<u8>, AllocError>
    ensures { IfOk result (λ text. text.items ≡ verdict_text held verdict.now) }
{
    let mut text = Vec::new(alloc);
    match verdict {
        SheetVerdict::Right(right) => push_right(&mut text, right, held)?,
        SheetVerdict::OffForm(wrong) => push_off_form(&mut text, wrong)?,
        SheetVerdict::OtherVotes(other) => push_other_votes(&mut text, other)?,
        SheetVerdict::Differs(wrong) => push_difference(&mut text, wrong, held)?,
        SheetVerdict::OffList(off) => push_off_list(&mut text, off, held)?,
        SheetVerdict::OffTotal(off) => push_off_total(&mut text, off, held)?,
        SheetVerdict::NoSheet => push_no_sheet(&mut text, held)?,
    }
    Ok(text)
}
