//! Writing the seats of a published sheet.

ghost use Rattle.std.specs.Prelude.{◌≡◌, ◌≤◌, ℕ, Err, MatchResult, Ok, IfErr, IfOk, None};
ghost use Rattle.zh_program.specs.SheetSeats.{AreStated, HasShownSheet, MayShowSheet, ReadsBoth, stated};
ghost use Rattle.zh_program.specs.Shown.{GivesShown};
ghost use Rattle.zh_program.specs.World.{AreCalls, known};
ghost use Rattle.zh_check.specs.Verdicts.{IsRight};
ghost use Rattle.zh_program.specs.Results.{IsNoSheetOf};

use crate::fault::TaskFault;
use crate::sheet_front::sheet_at;
use crate::shown::{Shown, shown_reason, text_of, write_shown};
use crate::texts::setup_at;
use std::alloc::Global;
use std::io::{Read, Write};
use zh_arguments::Layout;
use zh_check::{RightSheet, SheetVerdict, check};
use zh_commands::Refusal;
use zh_districts::Setup;
use zh_file::{Files, World};
use zh_sheet_text::{Mark, MarkedSheet, NoSeats, Source};
use zh_verdicts::unchecked_line;

/// The paths of a set-up and of a published sheet, and the layout in which the seats of the sheet are shown.
#[derive(Clone, Copy)]
pub(crate) struct SheetPaths<'a> {
    pub setup: &'a str,
    pub sheet: &'a str,
    pub layout: Layout,
}

/// Reads the set-up and the sheet at these paths.
fn read_both<F: Files>(
    alloc: Global,
    paths: SheetPaths<'_>,
    files: &mut F,
) -> Result<(Setup, Vec<u8>), TaskFault>
    ensures calls { (n : ℕ) × (n ≤ 2) × AreCalls F.Files n files.old files.new }
    ensures read { MatchResult result (λ both. ReadsBoth F.Files paths.entry files.old files.new (Ok (both.0, both.1.items)))
        (λ fault. ReadsBoth F.Files paths.entry files.old files.new (Err fault)) }
{
    let setup = setup_at(alloc, files, paths.setup)?;
    let text = sheet_at(alloc, files, paths.sheet)?;
    Ok((setup, text))
}

/// The seats of a sheet, marked with what the sheet states: whether it is final, and how many commands were accepted.
fn stated(right: RightSheet<'_>) -> MarkedSheet<'_>
    ensures { result ≡ stated right.entry }
{
    let mark = Mark {
        is_final: right.head.is_final,
        accepted: right.head.accepted,
        source: Source::Sheet,
    };
    MarkedSheet {
        sheet: right.sheet,
        mark,
    }
}

/// The seats of a right sheet, and a remark on what no check can verify about them.
fn shown_stated(alloc: Global, right: RightSheet<'_>, layout: Layout) -> Result<Shown, TaskFault>
    ensures { GivesShown (AreStated layout right.entry) result }
{
    let line = unchecked_line(alloc, &right)?;
    let text = text_of(alloc, &stated(right), layout)?;
    Ok(Shown::Advised(text, line))
}

/// The seats of a text that is a right sheet of a set-up, or the reason why there are none.
fn shown_of(alloc: Global, setup: &Setup, text: &[u8], layout: Layout) -> Result<Shown, TaskFault>
    ensures { GivesShown (MayShowSheet setup.now text.now layout) result }
{
    match seats_by_sheet(alloc, setup, text) {
        Ok(right) => shown_stated(alloc, right, layout),
        Err(why) => shown_reason(alloc, setup, &why),
    }
}

/// Writes the seats of a published sheet, if the sheet is right.
pub(crate) fn sheet_seats<I: Read, O: Write, E: Write, F: Files>(
    alloc: Global,
    paths: SheetPaths<'_>,
    world: &mut World<I, O, E, F>,
) -> Result<(), TaskFault>
    ensures { HasShownSheet (known I.Read O.Write E.Write F.Files F.Disk.Disk) paths.entry world.old world.new result }
{
    let (setup, text) = read_both(alloc, paths, &mut world.files)?;
    let shown = shown_of(alloc, &setup, &text, paths.layout)?;
    write_shown(&shown, world)
}

/// Checks a published sheet of a set-up. If it is right, the result has its seats and what its first line states about them.
pub(crate) fn seats_by_sheet<'s>(
    alloc: Global,
    setup: &'s Setup,
    text: &[u8],
) -> Result<RightSheet<'s>, NoSeats>
    ensures right { IfOk result (IsRight setup.now None text.now) }
    ensures wrong { IfErr result (IsNoSheetOf setup.now text.now) }
{
    let Ok(verdict) = check(alloc, setup, text, None) else {
        return Err(NoSeats::Refused(Refusal::Memory));
    };
    match verdict {
        SheetVerdict::Right(right) => Ok(right),
        _ => Err(NoSeats::Wrong),
    }
}
