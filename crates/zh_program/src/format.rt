//! Formatting a disk.

ghost use Rattle.std.specs.Prelude.{◌≡◌, nat_lt, IfErr};
ghost use Rattle.zh_disk.specs.History.{Call};
ghost use Rattle.zh_program.specs.Format.{Formatted, FormatsBlank, IsOfFormat, SaysIf, format_fails};
ghost use Rattle.zh_program.specs.Remarks.{BecameOf};
ghost use Rattle.zh_program.specs.World.{known};

use crate::fault::TaskFault;
use crate::report::make_remark;
use std::alloc::Global;
use std::io::{Read, Write};
use zh_disk::Disk;
use zh_districts::Setup;
use zh_file::{Files, Remark, World};
use zh_office::Office;
use zh_snapshot::{OpenFault, Store};
use zh_tables::{problems_line, setup_problems};

/// Formats a disk, if it is blank.
pub(crate) fn format_blank<D: Disk>(
    alloc: Global,
    setup: &Setup,
    disk: &mut D,
) -> Result<(), TaskFault>
    // The disk is opened, and formatted only if it is blank. specs/Format.antt describes the moments.
    ensures call { Call format_fails (FormatsBlank setup.now) (D.history disk.old) (D.history disk.new) result }
    ensures fault { IfErr result IsOfFormat }
{
    match Store::open(alloc, disk) {
        Err(OpenFault::Blank) => Ok(Office::format(alloc, setup, disk)?),
        Err(OpenFault::Device) => Err(TaskFault::Device),
        Err(OpenFault::Memory) => Err(TaskFault::Memory),
        Err(OpenFault::Damaged) | Ok(_) => Err(TaskFault::InUse),
    }
}

/// Writes to standard error how many problems a set-up has, unless it has none. If this can't be written, the disk is formatted
/// all the same.
fn say_problems<E: Write>(count: usize, line: &[u8], faults: &mut E, remark: &mut Remark)
    ensures { SaysIf (nat_lt 0 count) (BecameOf remark.new (E.contents faults.old) (E.contents faults.new) line.now)
        ((faults.new ≡ faults.old) × (remark.new ≡ remark.old)) }
{
    if count == 0 {
        return;
    }
    *remark = make_remark(line, faults);
}

/// Formats a disk if it is blank and writes how many problems the set-up has.
pub(crate) fn format_with<I: Read, O: Write, E: Write, F: Files>(
    alloc: Global,
    setup: &Setup,
    world: &mut World<I, O, E, F>,
    disk: &mut F::Disk,
) -> Result<(), TaskFault>
    ensures { Formatted (known I.Read O.Write E.Write F.Files F.Disk.Disk) setup.now
        (world.old, disk.old) (world.new, disk.new) result }
{
    let problems = setup_problems(alloc, setup)?;
    let line = problems_line(&problems);
    format_blank(alloc, setup, disk)?;
    say_problems(
        problems.count(),
        &line,
        &mut world.faults,
        &mut world.remark,
    );
    Ok(())
}
