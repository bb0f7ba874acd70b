//! What a task shows: a text, for example the seats, or the reason why there are none; and the version.

ghost use Rattle.std.specs.Prelude.{◌≡◌, IfErr, IfOk};
ghost use Rattle.zh_program.specs.Shown.{OnlyWrites, WritesShown, GivesShown};
ghost use Rattle.zh_program.specs.World.{known};
ghost use Rattle.zh_program.specs.Seats.{AreShownSeats, IsShownReason, laid_out, seat_records, seat_table};
ghost use Rattle.zh_program.specs.declared.fault.TaskFault.TheVariants as faults;
ghost use Rattle.zh_program.specs.Version.{WritesVersion};

use crate::fault::TaskFault;
use crate::report::make_remark;
use std::alloc::Global;
use std::io::{Read, Write};
use zh_arguments::{Layout, SeatsOf};
use zh_count_tables::{constituency_table, group_table, write_constituencies, write_groups};
use zh_districts::Setup;
use zh_file::{Files, World};
use zh_sheet_text::{MarkedSheet, NoSeats, refusal_text, seat_table, write_seats};
use zh_text::put;

/// What a task shows.
#[derive(Drop)]
pub(crate) enum Shown {
    /// A text for standard output.
    Text(Vec<u8>),
    /// A text for standard output and a remark for standard error.
    Advised(Vec<u8>, Vec<u8>),
    /// No text; the reason goes to standard error.
    Nothing(Vec<u8>),
}

/// Writes what is shown: first a text, then a remark or the reason why there is no text. The fault is `Write` if the text
/// can't be written whole, and then no remark is written; it is `Refused` if there is no text.
///
/// If the remark or the reason can't be written whole to standard error, the result is the same, and the world notes it.
pub(crate) fn write_shown<I: Read, O: Write, E: Write, F: Files>(
    shown: &Shown,
    world: &mut World<I, O, E, F>,
) -> Result<(), TaskFault>
    ensures rest { OnlyWrites world.old world.new }
    ensures written { WritesShown (known I.Read O.Write E.Write F.Files F.Disk.Disk) world.old world.new shown.now result }
{
    match shown {
        Shown::Text(text) => put(&mut world.output, text)?,
        Shown::Advised(text, advice) => {
            put(&mut world.output, text)?;
            world.remark = make_remark(advice, &mut world.faults);
        }
        Shown::Nothing(why) => {
            world.remark = make_remark(why, &mut world.faults);
            return Err(TaskFault::Refused);
        }
    }
    Ok(())
}

/// The seats as CSV: by list, by group or by constituency.
fn records_of(alloc: Global, seats: &MarkedSheet<'_>, of: SeatsOf) -> Result<Vec<u8>, TaskFault>
    ensures text { IfOk result (λ text. text.items ≡ seat_records of seats.now) }
    ensures fault { IfErr result (λ fault. fault ≡ faults.Memory) }
{
    match of {
        SeatsOf::Lists => {
            let text = write_seats(&seats.sheet, seats.mark, Vec::new(alloc))?;
            Ok(text)
        }
        SeatsOf::Groups => {
            let text = write_groups(&seats.sheet, seats.mark, Vec::new(alloc))?;
            Ok(text)
        }
        SeatsOf::Constituencies => {
            let text = write_constituencies(&seats.sheet, seats.mark, Vec::new(alloc))?;
            Ok(text)
        }
    }
}

/// The seats as a table for people: by list, by group or by constituency.
fn table_of(alloc: Global, seats: &MarkedSheet<'_>, of: SeatsOf) -> Result<Vec<u8>, TaskFault>
    ensures text { IfOk result (λ text. text.items ≡ seat_table of seats.now) }
    ensures fault { IfErr result (λ fault. fault ≡ faults.Memory) }
{
    match of {
        SeatsOf::Lists => {
            let text = seat_table(alloc, &seats.sheet, seats.mark)?;
            Ok(text)
        }
        SeatsOf::Groups => {
            let text = group_table(alloc, &seats.sheet, seats.mark)?;
            Ok(text)
        }
        SeatsOf::Constituencies => {
            let text = constituency_table(alloc, &seats.sheet, seats.mark)?;
            Ok(text)
        }
    }
}

/// The seats in this layout, as CSV or as a table. The only fault is refused memory.
pub(crate) fn text_of(
    alloc: Global,
    seats: &MarkedSheet<'_>,
    layout: Layout,
) -> Result<Vec<u8>, TaskFault>
    ensures text { IfOk result (λ text. text.items ≡ laid_out layout seats.now) }
    ensures fault { IfErr result (λ fault. fault ≡ faults.Memory) }
{
    if layout.is_table {
        table_of(alloc, seats, layout.of)
    } else {
        records_of(alloc, seats, layout.of)
    }
}

/// The reason why there are no seats, as text for standard error. The only fault is refused memory.
pub(crate) fn shown_reason(alloc: Global, setup: &Setup, why: &NoSeats) -> Result<Shown, TaskFault>
    ensures { GivesShown (IsShownReason setup.now why.now) result }
{
    Ok(Shown::Nothing(refusal_text(alloc, setup, why)?))
}

/// The seats in this layout, or the reason why there are none. The only fault is refused memory.
pub(crate) fn shown_seats(
    alloc: Global,
    setup: &Setup,
    seats: Result<MarkedSheet<'_>, NoSeats>,
    layout: Layout,
) -> Result<Shown, TaskFault>
    ensures { GivesShown (AreShownSeats setup.now layout seats.entry) result }
{
    match seats {
        Ok(seats) => Ok(Shown::Text(text_of(alloc, &seats, layout)?)),
        Err(why) => shown_reason(alloc, setup, &why),
    }
}

/// Writes the version line. The file `VERSION` at the root of the repository contains the same version.
pub(crate) fn write_version<O: Write>(out: &mut O) -> Result<(), TaskFault>
    ensures { WritesVersion (O.contents out.old) (O.contents out.new) result }
{
    put(out, b"zhcount 1.0.0\n")?;
    Ok(())
}
