//! The check of a sheet, given as texts.

ghost use Rattle.std.specs.Prelude.{◌≡◌, [], take};
ghost use Rattle.std.specs.Option.{option_copied};
ghost use Rattle.zh_page.specs.Answers.{AddsUpIfGiven, AreNoRows, IsNoSetup, IsVerdictOn, AnswersPage};

use crate::answer::{PageAnswer, PageStatus};
use std::alloc::Global;
use zh_csv::{HeldFault, HeldSums, LoadFault, NotedReader, read_held};
use zh_districts::Setup;
use zh_setups::{SetupFault, SetupRefusal, read_setup};
use zh_verdicts::{SHEET_FRONT, SpelledVerdict, rows_report, setup_report, spelled_verdict};

/// The first 280,065 bytes of a sheet's text, which are read, or all if there are fewer.
fn front_of(sheet: &[u8]) -> &[u8]
    ensures { result.now ≡ take 280065 sheet.now }
{
    if sheet.len() <= SHEET_FRONT {
        return sheet;
    }
    &sheet[..SHEET_FRONT]
}

/// The sums of an export, if there is one.
fn sums_if_given<'s>(
    alloc: Global,
    setup: &'s Setup,
    held: Option<&[u8]>,
) -> Result<Option<HeldSums<'s>>, LoadFault>
    ensures { AddsUpIfGiven setup.now (option_copied held.entry) result }
{
    match held {
        Some(text) => {
            let sums = read_held(alloc, setup, &mut NotedReader::new(text))?;
            Ok(Some(sums))
        }
        None => Ok(None),
    }
}

/// The answer if an allocation was refused.
fn no_memory(alloc: Global) -> PageAnswer
    ensures status { result.status ≡ PageStatus.Memory }
    ensures empty { result.text.items ≡ [] }
{
    PageAnswer {
        status: PageStatus::Memory,
        text: Vec::new(alloc),
    }
}

/// The answer for a text that is not a set-up.
fn no_setup(alloc: Global, refusal: &SetupRefusal) -> PageAnswer
    ensures { IsNoSetup refusal.now result.status result.text.items }
{
    if refusal.fault == SetupFault::Memory {
        return no_memory(alloc);
    }
    match setup_report(alloc, refusal) {
        Ok(text) => PageAnswer {
            status: PageStatus::NoSetup,
            text,
        },
        Err(_) => no_memory(alloc),
    }
}

/// The answer for a text that is not an export. A read from memory can't fail, so a fault that is not of a record means
/// that memory was refused.
fn no_rows(alloc: Global, fault: LoadFault) -> PageAnswer
    ensures { AreNoRows fault result.status result.text.items }
{
    let Some(fault) = HeldFault::of(fault) else {
        return no_memory(alloc);
    };
    match rows_report(alloc, fault) {
        Ok(text) => PageAnswer {
            status: PageStatus::NoRows,
            text,
        },
        Err(_) => no_memory(alloc),
    }
}

/// The answer for a sheet: its verdict.
fn verdict_on(alloc: Global, setup: &Setup, sheet: &[u8], held: Option<&HeldSums<'_>>) -> PageAnswer
    ensures { IsVerdictOn (record { canton = setup.now; sheet = take 280065 sheet.now; held = option_copied held.entry })
        result.status result.text.items }
{
    match spelled_verdict(alloc, setup, front_of(sheet), held) {
        Ok(
            SpelledVerdict {
                is_right: true,
                text,
            },
        ) => PageAnswer {
            status: PageStatus::Right,
            text,
        },
        Ok(
            SpelledVerdict {
                is_right: false,
                text,
            },
        ) => PageAnswer {
            status: PageStatus::Wrong,
            text,
        },
        Err(_) => no_memory(alloc),
    }
}

/// Checks a sheet, given the texts of a set-up and of an export if there is one, as `zhcount check` does with files.
pub fn check_texts(alloc: Global, setup: &[u8], sheet: &[u8], held: Option<&[u8]>) -> PageAnswer
    ensures { AnswersPage (record { setup = setup.now; sheet = sheet.now; held = option_copied held.entry })
        result.status result.text.items }
{
    let setup = match read_setup(alloc, setup) {
        Ok(setup) => setup,
        Err(refusal) => return no_setup(alloc, &refusal),
    };
    match sums_if_given(alloc, &setup, held) {
        Ok(sums) => verdict_on(alloc, &setup, sheet, sums.as_ref()),
        Err(fault) => no_rows(alloc, fault),
    }
}
