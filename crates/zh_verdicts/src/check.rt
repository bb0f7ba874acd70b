//! The check of a sheet, with the text of its verdict.
ghost use Rattle.std.specs.Option.{option_copied};
ghost use Rattle.std.specs.Prelude.{◌≡◌, IfOk, MatchBool, option_map};
ghost use Rattle.zh_check.specs.declared.checked.RightSheet.{RightSheet};
ghost use Rattle.zh_check.specs.declared.checked.SheetVerdict.TheVariants.{Right};
ghost use Rattle.zh_tables.specs.HeldRows.{rows_held};
ghost use Rattle.zh_verdicts.specs.Checks.{IsVerdict, SaysWrong};
ghost use Rattle.zh_verdicts.specs.Text.{verdict_text};

use crate::verdict_text::verdict_text;
use std::alloc::{AllocError, Global};
use zh_check::{SheetVerdict, check};
use zh_csv::HeldSums;
use zh_districts::Setup;
use zh_tables::HeldRows;
use zh_totals::Totals;

/// The most bytes of a sheet that are read: one more than `LONGEST_SHEET`, so that a longer text is noticed.
pub const SHEET_FRONT: usize = 280_065;

/// The sums of an export, if there is one.
fn totals_in<'a, 's>(held: Option<&'a HeldSums<'s>>) -> Option<&'a Totals<'s>>
    ensures { option_copied result ≡ option_map (λ sums. sums.totals) (option_copied held.entry) }
{
    match held {
        Some(sums) => Some(&sums.totals),
        None => None,
    }
}

/// How many rows an export has, and how many returns are due, if there is an export.
fn rows_in(setup: &Setup, held: Option<&HeldSums<'_>>) -> Option<HeldRows>
    ensures { result ≡ option_map (λ sums. rows_held setup.now sums.rows) (option_copied held.entry) }
{
    match held {
        Some(sums) => Some(HeldRows::new(setup, sums.rows)),
        None => None,
    }
}

/// The text of a verdict, and whether the sheet is right.
#[derive(Drop)]
pub struct SpelledVerdict {
    pub is_right: bool,
    pub text: Vec<u8>,
}

/// The text of this verdict on a sheet whose votes were compared with the sums of these rows, or with nothing, and whether it
/// is `Right`.
fn spelled(
    alloc: Global,
    verdict: &SheetVerdict<'_>,
    held: Option<HeldRows>,
) -> Result<SpelledVerdict, AllocError>
    ensures { IfOk result (λ spelled. (spelled.text.items ≡ verdict_text held verdict.now)
        × MatchBool spelled.is_right ((right : RightSheet) × (verdict.now ≡ Right right)) (SaysWrong verdict.now)) }
{
    let text = verdict_text(alloc, verdict, held)?;
    match verdict {
        SheetVerdict::Right(_) => Ok(SpelledVerdict {
            is_right: true,
            text,
        }),
        _ => Ok(SpelledVerdict {
            is_right: false,
            text,
        }),
    }
}

/// Checks a sheet, given a set-up and the sums of an export if there is one, and spells the verdict.
pub fn spelled_verdict(
    alloc: Global,
    setup: &Setup,
    sheet: &[u8],
    held: Option<&HeldSums<'_>>,
) -> Result<SpelledVerdict, AllocError>
    ensures { IfOk result (λ spelled. IsVerdict
        (record { canton = setup.now; sheet = sheet.now; held = option_copied held.entry }) spelled.is_right spelled.text.items) }
{
    let verdict = check(alloc, setup, sheet, totals_in(held))?;
    spelled(alloc, &verdict, rows_in(setup, held))
}
