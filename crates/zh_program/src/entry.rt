//! The program, from its arguments to the status, and the dispatch to its tasks.

ghost use Rattle.std.specs.Prelude.{◌≡◌, ◌≢◌, ◌≤◌, ◌⊎◌, [], Err, IfErr, MatchResult, None, Ok, Some, map};
ghost use Rattle.std.specs.String.{string_bytes};
ghost use Rattle.clap.specs.Words.{kind_of};
ghost use Rattle.zh_arguments.specs.Arguments.{AsksFor, refusals};
ghost use Rattle.zh_arguments.specs.declared.arguments.Task.{Task};
ghost use Rattle.zh_program.specs.Remarks.{BecameOf};
ghost use Rattle.zh_program.specs.Tasks.{Does};
ghost use Rattle.zh_program.specs.declared.on_disk.Filmed.{Filmed};
ghost use Rattle.zh_program.specs.declared.on_disk.Used.TheVariants as used_as;
ghost use Rattle.zh_program.specs.World.{known};
ghost use Rattle.zh_disk.specs.declared.memory.MemoryDisk.{MemoryDisk};
ghost use Rattle.zh_film.specs.declared.film.Film.{Film};
ghost use Rattle.zh_program.specs.Promise.{Promise, RehearsalPromise};
ghost use Rattle.zh_program.specs.Program.{LeavesAsFound, MetFault, NothingDone, disk_path, ends};
ghost use Rattle.zh_file.specs.Places.{Touches};
ghost use Rattle.zh_program.specs.Paths.{fault_path};
ghost use Rattle.zh_program.specs.Reports.{report_text};

use crate::check::check_files;
use crate::fault::TaskFault;
use crate::list::list_at;
use crate::on_disk::{Used, Work, on_disk};
use crate::paths::fault_path;
use crate::report::report;
use crate::run::rehearse;
use crate::sheet_seats::{SheetPaths, sheet_seats};
use crate::shown::write_version;
use clap::Error;
use clap::error::ErrorKind;
use std::alloc::Global;
use std::io::{Read, Write};
use zh_arguments::{Task, read_arguments};
use zh_file::{Ended, Files, Remark, World};

/// Returns the status of a task with this result: 0 if it was done, 1 after a fault. A fault is reported, except for `Refused`:
/// then the task has already said why.
fn end<I, O, E: Write, F>(
    ended: Result<(), TaskFault>,
    task: Task<'_>,
    world: &mut World<I, O, E, F>,
) -> u8
    ensures status { MatchResult ended (λ _. (result ≡ 0) × (world.new ≡ world.old)) (λ _. result ≡ 1) }
    ensures rest { world.new ≡ record world.old { faults = world.new.faults; remark = world.new.remark } }
    ensures refused { ended ≡ Err TaskFault.Refused → world.new ≡ world.old }
    ensures reported { IfErr ended (λ fault. fault ≢ TaskFault.Refused → BecameOf world.new.remark
        (E.contents world.old.faults) (E.contents world.new.faults) (report_text (fault_path task.entry fault) fault)) }
{
    match ended {
        Ok(()) => 0,
        Err(TaskFault::Refused) => 1,
        Err(fault) => {
            world.remark = report(fault_path(task, &fault), fault, &mut world.faults);
            1
        }
    }
}

/// Returns the status of refused arguments and reports the reason: 1 if memory was refused, 2 otherwise.
fn refuse<I, O, E: Write, F>(refusal: &Error, world: &mut World<I, O, E, F>) -> u8
    ensures memory { kind_of refusal.now ≡ ErrorKind.OutOfMemory → result ≡ 1 }
    ensures refused { kind_of refusal.now ≢ ErrorKind.OutOfMemory → result ≡ 2 }
    ensures rest { world.new ≡ record world.old { faults = world.new.faults; remark = world.new.remark } }
    ensures reported { result ≡ 1 → BecameOf world.new.remark
        (E.contents world.old.faults) (E.contents world.new.faults) (report_text None TaskFault.Memory) }
{
    if refusal.kind() == ErrorKind::OutOfMemory {
        world.remark = report(None, TaskFault::Memory, &mut world.faults);
        return 1;
    }
    world.remark = match write!(&mut world.faults, "{refusal}") {
        Ok(()) => Remark::Whole,
        Err(_) => Remark::Broken,
    };
    2
}

/// The program on its arguments, without its name, in a world. It returns the status: 0 if the task was done; 1 after a
/// fault, which is reported to `faults`; 2 if the arguments ask for no task (`--help` included), with the reason on `faults`.
/// The world's remark says whether that text was written completely.
///
/// Whatever the status, a task that used a disk hands it over, with the record of its calls and the film of the task.
///
/// Without arguments, it runs a rehearsal. docs/MANUAL.md describes the other tasks.
pub fn program<I: Read, O: Write, E: Write, F: Files>(
    alloc: Global,
    arguments: &[String],
    right: F::Right,
    world: &mut World<I, O, E, F>,
) -> Ended<u8, Used<I, O, F::Disk, F::Text>>
    ensures status { result.result ≤ 2 }
    ensures done { result.result ≡ 0 → (task : Task) × AsksFor (map string_bytes arguments.now) task
        × Does (known I.Read O.Write E.Write F.Files F.Disk.Disk) task world.old world.new (ends (Ok tt) result.used) }
    // If memory is refused before the task is known, that is reported and nothing is done.
    ensures fault { result.result ≡ 1 → (NothingDone world.old world.new result.used
        × BecameOf world.new.remark (E.contents world.old.faults) (E.contents world.new.faults) (report_text None TaskFault.Memory))
        ⊎ ((task : Task) × AsksFor (map string_bytes arguments.now) task
        × MetFault (known I.Read O.Write E.Write F.Files F.Disk.Disk) task world.old world.new result.used) }
    ensures headline { (used : Filmed I O F.Disk F.Text) → result.used ≡ Some (used_as.Disk used)
        → Promise (known I.Read O.Write E.Write F.Files F.Disk.Disk) (map string_bytes arguments.now)
        world.old world.new result.result used }
    ensures rehearsed { (film : Film I O MemoryDisk) → result.used ≡ Some (used_as.Rehearsal film)
        → RehearsalPromise (known I.Read O.Write E.Write F.Files F.Disk.Disk) world.old world.new result.result film }
    // Apart from the disk's own calls, the only effects on files are these: an empty file can be created at `--disk`, and its
    // companion, if empty, can be created or removed. If no disk is handed over, a stop at any moment leaves the file at
    // `--disk` as it was found or, if a formatting found it empty, with at most as many bytes as a disk has.
    ensures touches { (world.new.files ≡ world.old.files) ⊎ ((task : Task) × AsksFor (map string_bytes arguments.now) task
        × Touches (disk_path task) (F.places world.old.files) (F.places world.new.files)
        × (result.used ≡ None → LeavesAsFound task (F.disk_at world.old.files) (F.left world.old.files) (F.left world.new.files))) }
    ensures refused { result.result ≡ 2 → (refusals (map string_bytes arguments.now) ≢ []) × NothingDone world.old world.new result.used }
{
    match read_arguments(alloc, arguments) {
        Ok(task) => {
            let Ended { result, used } = carry_out(alloc, task, right, world);
            Ended {
                result: end(result, task, world),
                used,
            }
        }
        Err(refusal) => Ended {
            result: refuse(&refusal, world),
            used: None,
        },
    }
}

/// Carries out a task. Whatever the result, a disk that the task used is handed over with its film.
///
/// The error says why the task was not done. The program reports it (docs/MANUAL.md).
pub fn carry_out<I: Read, O: Write, E: Write, F: Files>(
    alloc: Global,
    task: Task<'_>,
    right: F::Right,
    world: &mut World<I, O, E, F>,
) -> Ended<Result<(), TaskFault>, Used<I, O, F::Disk, F::Text>>
    ensures { Does (known I.Read O.Write E.Write F.Files F.Disk.Disk) task.entry world.old world.new result }
{
    match task {
        Task::Rehearse => rehearse(alloc, world),
        Task::Format(paths) => on_disk(alloc, paths, right, Work::Format, world),
        Task::Run(paths) => on_disk(alloc, paths, right, Work::Run, world),
        Task::Load { paths, csv } => on_disk(alloc, paths, right, Work::Load(csv), world),
        Task::DryRun { paths, csv } => on_disk(alloc, paths, right, Work::DryRun(csv), world),
        Task::Show(paths, query) => on_disk(alloc, paths, right, Work::Show(query), world),
        Task::List { setup, table } => Ended {
            result: list_at(alloc, setup, table, world),
            used: None,
        },
        Task::Check(paths) => Ended {
            result: check_files(alloc, paths, world),
            used: None,
        },
        Task::SheetSeats {
            setup,
            sheet,
            layout,
        } => {
            let paths = SheetPaths {
                setup,
                sheet,
                layout,
            };
            Ended {
                result: sheet_seats(alloc, paths, world),
                used: None,
            }
        }
        Task::Version => Ended {
            result: write_version(&mut world.output),
            used: None,
        },
    }
}
