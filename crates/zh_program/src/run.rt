//! Serving the lines of the input, on a disk or as a rehearsal.

ghost use Rattle.std.specs.Prelude.{◌≡◌, ◌^◌, [], false};
ghost use Rattle.zh_film.specs.Frames.{frames};
ghost use Rattle.zh_film.specs.Scenes.{scenes};
ghost use Rattle.zh_office.specs.Served.{session};
ghost use Rattle.zh_program.specs.Opened.{LeavesDisk};
ghost use Rattle.zh_program.specs.Run.{HasServed, Ran, RunsWithin, streams, UsesUpReads};
ghost use Rattle.zh_program.specs.World.{known};
ghost use Rattle.zh_program.specs.Rehearse.{Rehearsed, Rehearses, announcement};
ghost use Rattle.zh_program.specs.Remarks.{BecameOf};

use crate::fault::TaskFault;
use crate::format::format_blank;
use crate::on_disk::{Filmed, Used};
use crate::report::make_remark;
use std::alloc::Global;
use std::io::{Read, Write};
use zh_disk::{Disk, MemoryDisk};
use zh_districts::Setup;
use zh_file::{Ended, Files, Remark, World};
use zh_film::Film;
use zh_office::Office;
use zh_setups::rehearsal;

/// The most reads of the input that a run makes.
fn most_reads() -> u64
    ensures { result ≡ 2 ^ 32 }
{
    1 << 32
}

/// Serves the lines of the input with an open office. A failure of the device during the run is reported at the end.
fn serve_lines<I: Read, O: Write, D: Disk>(
    office: &mut Office<'_>,
    disk: &mut D,
    input: &mut I,
    out: &mut O,
    film: &mut Film<I, O, D>,
) -> Result<(), TaskFault>
    requires whole { office.old.ledger.store.broken ≡ false }
    requires film { scenes film.old ≡ [] }
    ensures disk { LeavesDisk (D.history disk.old) (D.history disk.new) result }
    ensures served { HasServed result
        (session (O.contents out.old) office.old (D.history disk.old) (I.remaining input.old) [])
        (session (O.contents out.new) office.new (D.history disk.new) (I.remaining input.new) (frames I.Read O.Write D.Disk film.new)) }
    ensures reads { RunsWithin result (frames I.Read O.Write D.Disk film.new) (I.remaining input.old) (I.remaining input.new) (2 ^ 32) }
{
    office.serve(input, out, disk, film, most_reads())?;
    if office.faulted() {
        return Err(TaskFault::Faulted);
    }
    Ok(())
}

/// Opens the office on the disk of a task and serves the lines of the input.
pub(crate) fn run_from<I: Read, O: Write, E: Write, F: Files>(
    alloc: Global,
    setup: &Setup,
    world: &mut World<I, O, E, F>,
    filmed: &mut Filmed<I, O, F::Disk, F::Text>,
) -> Result<(), TaskFault>
    requires { scenes filmed.old.film ≡ [] }
    ensures { Ran (known I.Read O.Write E.Write F.Files F.Disk.Disk) setup.now
        (world.old, filmed.old.disk) (world.new, filmed.new) result }
{
    let mut office = Office::open(alloc, setup, &mut filmed.disk)?;
    serve_lines(
        &mut office,
        &mut filmed.disk,
        &mut world.input,
        &mut world.output,
        &mut filmed.film,
    )
}

/// Announces that a rehearsal keeps nothing. If this can't be written, the rehearsal goes on.
fn announce<E: Write>(faults: &mut E) -> Remark
    ensures { BecameOf result (E.contents faults.old) (E.contents faults.new) announcement }
{
    make_remark(b"zhcount: rehearsal, nothing is kept\n", faults)
}

/// Serves the lines of the input on a new disk in memory, with the built-in set-up of the rehearsal.
fn serve_rehearsal<I: Read, O: Write>(
    alloc: Global,
    input: &mut I,
    out: &mut O,
    film: &mut Film<I, O, MemoryDisk>,
) -> Result<(), TaskFault>
    requires { scenes film.old ≡ [] }
    ensures served { Rehearsed ((input.new ≡ input.old) × (out.new ≡ out.old) × (scenes film.new ≡ []))
        (streams (I.remaining input.old) (O.contents out.old) [])
        (streams (I.remaining input.new) (O.contents out.new) (frames I.Read O.Write ⟦<MemoryDisk as Disk>⟧ film.new)) result }
    ensures reads { UsesUpReads result (frames I.Read O.Write ⟦<MemoryDisk as Disk>⟧ film.new)
        (I.remaining input.old) (I.remaining input.new) (2 ^ 32) }
{
    let setup = rehearsal(alloc)?;
    let mut disk = MemoryDisk::blank(alloc)?;
    // Formatting and opening a new disk in memory fails only if memory is refused.
    let Ok(()) = format_blank(alloc, &setup, &mut disk) else {
        return Err(TaskFault::Memory);
    };
    let Ok(mut office) = Office::open(alloc, &setup, &mut disk) else {
        return Err(TaskFault::Memory);
    };
    serve_lines(&mut office, &mut disk, input, out, film)
}

/// Announces and runs a rehearsal, then hands over its film. Nothing is kept.
pub(crate) fn rehearse<I: Read, O: Write, E: Write, F: Files>(
    alloc: Global,
    world: &mut World<I, O, E, F>,
) -> Ended<Result<(), TaskFault>, Used<I, O, F::Disk, F::Text>>
    ensures { Rehearses (known I.Read O.Write E.Write F.Files F.Disk.Disk) world.old world.new result }
{
    world.remark = announce(&mut world.faults);
    let mut film = Film::new();
    let result = serve_rehearsal(alloc, &mut world.input, &mut world.output, &mut film);
    Ended {
        result,
        used: Some(Used::Rehearsal(film)),
    }
}
