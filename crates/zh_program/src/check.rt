//! Checking a published sheet.

ghost use Rattle.std.specs.Prelude.{◌≡◌, IfErr, IfOk, Ok, option_map};
ghost use Rattle.std.specs.Option.{option_copied};
ghost use Rattle.zh_program.specs.Check.{Answers, Checked, HeldFaultAs, IsExportAt, IsOfHeld, ReadsHeld};
ghost use Rattle.zh_program.specs.World.{AreCalls, IsMetAt, known};

use crate::fault::TaskFault;
use crate::place::TaskFile;
use crate::sheet_front::sheet_at;
use crate::texts::{open_text, setup_at};
use std::alloc::Global;
use std::io::{Read, Write};
use zh_arguments::CheckPaths;
use zh_csv::{HeldFault, HeldSums, LoadFault, NotedReader, read_held};
use zh_districts::Setup;
use zh_file::{Files, World};
use zh_text::put;
use zh_verdicts::spelled_verdict;

/// Turns the fault of an export into the fault of the task.
fn held_fault(fault: LoadFault) -> TaskFault
    ensures { HeldFaultAs fault result }
{
    match HeldFault::of(fault) {
        Some(fault) => TaskFault::Held(fault),
        None if fault == LoadFault::Read => TaskFault::Unreadable(TaskFile::Held),
        None => TaskFault::Memory,
    }
}

/// Reads the export at a path and returns its sums.
fn held_at<'s, F: Files>(
    alloc: Global,
    files: &mut F,
    setup: &'s Setup,
    path: &str,
) -> Result<HeldSums<'s>, TaskFault>
    ensures call { AreCalls F.Files 1 files.old files.new }
    ensures sums { IfOk result (λ sums. IsExportAt (F.text_at files.old path.now) setup.now (Ok sums)) }
    ensures fault { IfErr result (IsOfHeld (F.text_at files.old path.now) setup.now (IsMetAt F.Files path.now files.old files.new)) }
{
    let file = open_text(files, path, TaskFile::Held)?;
    let mut text = NotedReader::new(file);
    match read_held(alloc, setup, &mut text) {
        Ok(sums) => Ok(sums),
        Err(fault) => Err(held_fault(fault)),
    }
}

/// Reads the export and returns its sums, if a path is given.
fn held_if_named<'s, F: Files>(
    alloc: Global,
    files: &mut F,
    setup: &'s Setup,
    path: Option<&str>,
) -> Result<Option<HeldSums<'s>>, TaskFault>
    ensures { ReadsHeld F.Files setup.now (option_map (λ p. p.now) path.entry) files.old files.new result }
{
    match path {
        Some(path) => {
            let sums = held_at(alloc, files, setup, path)?;
            Ok(Some(sums))
        }
        None => Ok(None),
    }
}

/// Checks a sheet and writes the verdict on it. The fault is `Refused` if the sheet is not right.
fn answer<O: Write>(
    alloc: Global,
    setup: &Setup,
    sheet: &[u8],
    held: Option<&HeldSums<'_>>,
    out: &mut O,
) -> Result<(), TaskFault>
    ensures { Answers (out.new ≡ out.old) (O.contents out.old) (O.contents out.new)
        (record { canton = setup.now; sheet = sheet.now; held = option_copied held.entry }) result }
{
    let verdict = spelled_verdict(alloc, setup, sheet, held)?;
    put(out, &verdict.text)?;
    if verdict.is_right {
        Ok(())
    } else {
        Err(TaskFault::Refused)
    }
}

/// Checks the sheet at a path: reads all files first, then checks and answers.
pub(crate) fn check_files<I: Read, O: Write, E: Write, F: Files>(
    alloc: Global,
    paths: CheckPaths<'_>,
    world: &mut World<I, O, E, F>,
) -> Result<(), TaskFault>
    ensures { Checked (known I.Read O.Write E.Write F.Files F.Disk.Disk) paths.entry world.old world.new result }
{
    let setup = setup_at(alloc, &mut world.files, paths.setup)?;
    let sheet = sheet_at(alloc, &mut world.files, paths.sheet)?;
    let held = held_if_named(alloc, &mut world.files, &setup, paths.held)?;
    answer(alloc, &setup, &sheet, held.as_ref(), &mut world.output)
}
