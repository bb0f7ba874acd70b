//! The quotient of a list whose seats do not follow, and what it rounds to.
ghost use Rattle.std.specs.Prelude.{◌≡◌, ◌++◌, OnOk, codes, decimal};
ghost use Rattle.zh_sheet_text.specs.SheetText.{divisor_text};
ghost use Rattle.zh_verdicts.specs.Quotient.{cut_off, off_text, quotient_text, rounding_text};

use crate::wrong_line::push_wrong_line;
use std::alloc::AllocError;
use zh_check::{ListQuotient, OffList};
use zh_text::{millionths_text, padded, push_number};

/// Appends a divisor, given in millionths, with six digits after the dot.
fn push_divisor(text: &mut Vec<u8>, millionths: u64) -> Result<(), AllocError>
    ensures { OnOk result (text.new.items ≡ text.old.items ++ divisor_text millionths) }
{
    text.extend_from_slice(millionths_text(u128::from(millionths)).as_slice())
}

/// Appends a number of thousandths with three digits after the dot, and two dots if more digits follow.
fn push_cut_off(text: &mut Vec<u8>, thousandths: u128, is_exact: bool) -> Result<(), AllocError>
    ensures { OnOk result (text.new.items ≡ text.old.items ++ cut_off thousandths is_exact) }
{
    push_number(text, thousandths / 1000)?;
    text.extend_from_slice(b".")?;
    text.extend_from_slice(padded((thousandths % 1000) as u32, 3).as_slice())?;
    if is_exact {
        return Ok(());
    }
    text.extend_from_slice(b"..")
}

/// Appends the division of the votes by both divisors, which are in millionths.
fn push_division(
    text: &mut Vec<u8>,
    votes: u64,
    row_divisor: u64,
    column_divisor: u64,
) -> Result<(), AllocError>
    ensures { OnOk result (text.new.items ≡ text.old.items
        ++ (decimal votes ++ codes " / (" ++ divisor_text row_divisor ++ codes " x " ++ divisor_text column_divisor ++ codes ")")) }
{
    push_number(text, votes)?;
    text.extend_from_slice(b" / (")?;
    push_divisor(text, row_divisor)?;
    text.extend_from_slice(b" x ")?;
    push_divisor(text, column_divisor)?;
    text.extend_from_slice(b")")
}

/// Appends the division of the votes by both divisors and its quotient, or `a divisor is missing`.
fn push_quotient(
    text: &mut Vec<u8>,
    votes: u64,
    row_divisor: u64,
    column_divisor: u64,
) -> Result<(), AllocError>
    ensures { OnOk result (text.new.items ≡ text.old.items ++ quotient_text votes row_divisor column_divisor) }
{
    let product = u128::from(row_divisor) * u128::from(column_divisor);
    if product == 0 {
        return text.extend_from_slice(b"a divisor is missing");
    }
    let thousandths = u128::from(votes) * 1_000_000_000_000_000;
    push_division(text, votes, row_divisor, column_divisor)?;
    text.extend_from_slice(b" = ")?;
    push_cut_off(text, thousandths / product, thousandths % product == 0)
}

/// Appends what a quotient rounds to, or that it lies on a half. If a divisor is missing, nothing is appended.
fn push_rounding(text: &mut Vec<u8>, quotient: ListQuotient) -> Result<(), AllocError>
    ensures { OnOk result (text.new.items ≡ text.old.items ++ rounding_text quotient) }
{
    match quotient {
        ListQuotient::RoundsTo(seats) => {
            text.extend_from_slice(b" rounds to ")?;
            push_number(text, seats)
        }
        ListQuotient::OnHalf => text.extend_from_slice(b" lies on a half"),
        ListQuotient::NoDivisor => Ok(()),
    }
}

/// Appends the line of a list whose seats do not follow, with its quotient.
pub(crate) fn push_off(text: &mut Vec<u8>, off: &OffList) -> Result<(), AllocError>
    ensures { OnOk result (text.new.items ≡ text.old.items ++ off_text off.now) }
{
    push_wrong_line(text, off.line, &off.found)?;
    text.extend_from_slice(b": ")?;
    push_quotient(text, off.votes, off.row_divisor, off.column_divisor)?;
    push_rounding(text, off.quotient)?;
    text.extend_from_slice(b"\n")
}
