//! Tasks on a disk: reading the set-up, opening the disk, doing the work, and handing over the disk.

ghost use Rattle.std.specs.Prelude.{◌≡◌, ◌≤◌, ◌+◌, [], IfErr, IfOk, Some, None};
ghost use Rattle.zh_file.specs.Causes.{EndsAt};
ghost use Rattle.zh_file.specs.Failures.{Meets};
ghost use Rattle.zh_file.specs.Files.{IsCallOfFiles, LeavesOf};
ghost use Rattle.zh_file.specs.Places.{IfKnown, Touches, TouchesOnly};
ghost use Rattle.zh_film.specs.Scenes.{scenes};
ghost use Rattle.zh_program.specs.OnDisk.{DoesOn, IsEarly, UsesDisk};
ghost use Rattle.zh_program.specs.World.{AsksForDisk, BeginsAt, IsMetAt, IsSetupAt, LeftAt, known};

use crate::fault::TaskFault;
use crate::format::format_with;
use crate::load::{dry_run, load_from};
use crate::query::show;
use crate::run::run_from;
use crate::texts::setup_at;
use std::alloc::Global;
use std::io::{BufReader, Read, Write};
use zh_arguments::{Paths, Query};
use zh_disk::MemoryDisk;
use zh_districts::Setup;
use zh_file::{Ended, FileFault, Files, World};
use zh_film::Film;
use zh_office::NotedReader;

/// What a task does with its disk.
#[derive(Clone, Copy)]
pub enum Work<'a> {
    /// Formats it, if it is blank. A file that is missing is created first.
    Format,
    /// Answers the lines of the input.
    Run,
    /// Loads the CSV file at this path.
    Load(&'a str),
    /// Reports what loading the CSV file at this path would do.
    DryRun(&'a str),
    /// Shows what this query asks for.
    Show(Query),
}

/// Opens the disk at a path. For a formatting, a file that is missing or empty becomes a new disk.
fn disk_at<F: Files>(
    files: &mut F,
    right: F::Right,
    path: &str,
    work: Work<'_>,
) -> Result<F::Disk, FileFault>
    ensures call { IsCallOfFiles F.text_at F.disk_at F.calls files.old files.new }
    ensures touches { IfKnown (TouchesOnly path.now) (F.places files.old) (F.places files.new) }
    ensures ends { EndsAt (F.places files.old) path.now (F.fault files.new) result }
    ensures meets { Meets path.now result (F.failed files.old) (F.failed files.new) }
    ensures leaves { LeavesOf (LeftAt work.entry) (F.disk_at files.old path.now) (F.left files.old) (F.left files.new) }
    ensures begins { IfOk result (λ disk. BeginsAt work.entry (F.disk_at files.old path.now) (F.Disk.history disk)) }
{
    match work {
        Work::Format => files.disk_or_make(right, path),
        _ => files.disk(right, path),
    }
}

/// Reads the set-up and opens the disk.
fn begin<F: Files>(
    alloc: Global,
    paths: Paths<'_>,
    right: F::Right,
    work: Work<'_>,
    files: &mut F,
) -> Result<(Setup, F::Disk), TaskFault>
    ensures setup { IfOk result (λ begun. IsSetupAt (F.text_at files.old paths.entry.setup.now) begun.0) }
    ensures asked { IfOk result (λ _. AsksForDisk F.Files paths.entry.disk.now files.old files.new) }
    ensures begins { IfOk result (λ begun. BeginsAt work.entry (F.disk_at files.old paths.entry.disk.now) (F.Disk.history begun.1)) }
    ensures counted { F.calls files.new ≤ F.calls files.old + 2 }
    ensures touches { Touches (Some paths.entry.disk.now) (F.places files.old) (F.places files.new) }
    ensures leaves { LeavesOf (LeftAt work.entry) (F.disk_at files.old paths.entry.disk.now) (F.left files.old) (F.left files.new) }
    ensures early { IfErr result (IsEarly (F.text_at files.old paths.entry.setup.now)
        (IsMetAt F.Files paths.entry.setup.now files.old files.new) (IsMetAt F.Files paths.entry.disk.now files.old files.new)
        (λ n. F.calls files.new ≡ F.calls files.old + n)) }
{
    let setup = setup_at(alloc, files, paths.setup)?;
    let disk = disk_at(files, right, paths.disk, work)?;
    Ok((setup, disk))
}

/// Does the work on an open disk. Of a run and of a load, what was read, written and done to the disk is noted in `filmed`.
fn work_on<I: Read, O: Write, E: Write, F: Files>(
    alloc: Global,
    setup: &Setup,
    work: Work<'_>,
    world: &mut World<I, O, E, F>,
    filmed: &mut Filmed<I, O, F::Disk, F::Text>,
) -> Result<(), TaskFault>
    requires { scenes filmed.old.film ≡ [] }
    ensures { DoesOn (known I.Read O.Write E.Write F.Files F.Disk.Disk) work.entry setup.now
        (world.old, filmed.old.disk) (world.new, filmed.new) result }
{
    match work {
        Work::Format => format_with(alloc, setup, world, &mut filmed.disk),
        Work::Run => run_from(alloc, setup, world, filmed),
        Work::Load(csv) => load_from(alloc, setup, csv, world, filmed),
        Work::DryRun(csv) => dry_run(alloc, setup, csv, world, &mut filmed.disk),
        Work::Show(query) => show(alloc, setup, query, world, &mut filmed.disk),
    }
}

/// Reads the set-up, opens the disk, does the work, and hands over the disk whatever the result.
pub(crate) fn on_disk<I: Read, O: Write, E: Write, F: Files>(
    alloc: Global,
    paths: Paths<'_>,
    right: F::Right,
    work: Work<'_>,
    world: &mut World<I, O, E, F>,
) -> Ended<Result<(), TaskFault>, Used<I, O, F::Disk, F::Text>>
    ensures { UsesDisk (known I.Read O.Write E.Write F.Files F.Disk.Disk) work.entry paths.entry world.old world.new result }
{
    match begin(alloc, paths, right, work, &mut world.files) {
        Ok((setup, disk)) => {
            let mut filmed = Filmed::new(disk);
            let result = work_on(alloc, &setup, work, world, &mut filmed);
            Ended {
                result,
                used: Some(Used::Disk(filmed)),
            }
        }
        Err(fault) => Ended {
            result: Err(fault),
            used: None,
        },
    }
}

/// The reader of the text that is loaded. It notes whether a read failed.
pub type LoadReader<T> = NotedReader<BufReader<T>>;

/// A disk with the record of its calls, and what is noted of the task that used it. Only clauses look at the notes.
#[derive(Drop)]
pub struct Filmed<I, O, D, T> {
    pub disk: D,
    /// What was read and written, and the state of the disk at each of these times. For a task that answers no lines and loads
    /// no text, it is empty.
    pub film: Film<I, O, D>,
    /// The reader of the text, if one was loaded.
    pub text: Option<LoadReader<T>>,
}

impl<I, O, D, T> Filmed<I, O, D, T> {
    /// This disk, with nothing noted yet.
    pub(crate) fn new(disk: D) -> Filmed<I, O, D, T>
        ensures disk { result.disk ≡ disk }
        ensures film { scenes result.film ≡ [] }
        ensures text { result.text ≡ None }
    {
        Filmed {
            disk,
            film: Film::new(),
            text: None,
        }
    }
}

/// What a task hands over, whatever its result.
#[derive(Drop)]
pub enum Used<I, O, D, T> {
    /// The disk that it opened.
    Disk(Filmed<I, O, D, T>),
    /// The film of a rehearsal. Its disk was in memory and no longer exists.
    Rehearsal(Film<I, O, MemoryDisk>),
}
