//! Loading a CSV file, and dry runs of a load.

ghost use Rattle.std.specs.Prelude.{◌≡◌, [], false, IfErr, IfOk, OnErr, OnOk, IsErrOf, Some, true};
ghost use Rattle.std.specs.Io.Buffered.{reader_buffer};
ghost use Rattle.std.specs.Io.KnownBytes.{Appends, Keeps};
ghost use Rattle.zh_csv.specs.Noted.{has_failed, inner_reader};
ghost use Rattle.zh_film.specs.Frames.{frames};
ghost use Rattle.zh_film.specs.Scenes.{scenes};
ghost use Rattle.zh_program.specs.Load.{HasBegun, HasLoaded, IsUnreadable, LoadsText, WritesPart, given_text, printed};
ghost use Rattle.zh_program.specs.Opened.{LeavesDisk};
ghost use Rattle.zh_program.specs.World.{AreCalls, IsMetAt, known};
ghost use Rattle.zh_office.specs.Judged.{Judges};
ghost use Rattle.zh_office.specs.Served.{session};
ghost use Rattle.zh_program.specs.DryRun.{JudgedAs, JudgesText, MakesDryRun};

use crate::fault::TaskFault;
use crate::on_disk::Filmed;
use crate::place::TaskFile;
use crate::texts::open_text;
use std::alloc::Global;
use std::io::{BufRead, BufReader, Read, Write};
use zh_commands::{Reply, answer_line};
use zh_disk::Disk;
use zh_districts::Setup;
use zh_file::{Files, World};
use zh_film::Film;
use zh_office::{JudgementFault, NotedReader, Office, ServeFault, write_judgement};
use zh_text::{WriteFault, put};

/// Opens the CSV file at a path and fills the buffer of its reader once, so that an unreadable file is reported before a load.
pub(crate) fn text_at<F: Files>(
    alloc: Global,
    files: &mut F,
    path: &str,
) -> Result<BufReader<F::Text>, TaskFault>
    ensures call { AreCalls F.Files 1 files.old files.new }
    ensures text { IfOk result (λ text. Keeps (F.text_at files.old path.now) (⟦<BufReader<F::Text> as Read>⟧.remaining text)) }
    ensures begun { IfOk result (λ text. HasBegun (F.text_at files.old path.now) (reader_buffer text)) }
    ensures fault { IfErr result (IsUnreadable (IsMetAt F.Files path.now files.old files.new)) }
{
    let file = open_text(files, path, TaskFile::Csv)?;
    let Ok(mut text) = BufReader::new(alloc, file) else {
        return Err(TaskFault::Memory);
    };
    if text.fill_buf().is_err() {
        return Err(TaskFault::Unreadable(TaskFile::Csv));
    }
    Ok(text)
}

/// Writes a reply without the number of a desk.
fn print_reply<O: Write>(reply: &Reply, out: &mut O) -> Result<(), WriteFault>
    ensures all { OnOk result (Appends (O.contents out.old) (O.contents out.new) (printed reply.now)) }
    ensures front { OnErr result (WritesPart (O.contents out.old) (O.contents out.new) (printed reply.now)) }
{
    put(out, &answer_line(reply))
}

/// Loads a text into an office, then writes the reply. The film notes that the reply comes after the work on the disk.
fn load_text<I: Read, R: Read, O: Write, D: Disk>(
    office: &mut Office<'_>,
    disk: &mut D,
    reader: &mut NotedReader<R>,
    input: &I,
    out: &mut O,
    film: &mut Film<I, O, D>,
) -> Result<(), TaskFault>
    requires whole { office.old.ledger.store.broken ≡ false }
    requires film { scenes film.old ≡ [] }
    ensures disk { LeavesDisk (D.history disk.old) (D.history disk.new) result }
    ensures loaded { LoadsText (given_text (R.remaining (inner_reader reader.old)) (has_failed reader.new)) result
        (session (O.contents out.old) office.old (D.history disk.old) (I.remaining input.now) [])
        (session (O.contents out.new) office.new (D.history disk.new) (I.remaining input.now) (frames I.Read O.Write D.Disk film.new)) }
{
    film.note(input, out, disk);
    let reply = office.load(disk, reader);
    film.note(input, out, disk);
    print_reply(&reply, out)?;
    film.note(input, out, disk);
    if office.faulted() {
        return Err(TaskFault::Faulted);
    }
    match reply {
        Reply::Refused(_) => Err(TaskFault::Refused),
        _ => Ok(()),
    }
}

/// Opens the office on the disk, loads the text at a path, and writes the reply. The reader of the text is handed over in
/// `filmed`.
pub(crate) fn load_from<I: Read, O: Write, E: Write, F: Files>(
    alloc: Global,
    setup: &Setup,
    csv: &str,
    world: &mut World<I, O, E, F>,
    filmed: &mut Filmed<I, O, F::Disk, F::Text>,
) -> Result<(), TaskFault>
    requires { scenes filmed.old.film ≡ [] }
    ensures { HasLoaded (known I.Read O.Write E.Write F.Files F.Disk.Disk) csv.now setup.now
        (world.old, filmed.old.disk) (world.new, filmed.new) result }
{
    let mut office = Office::open(alloc, setup, &mut filmed.disk)?;
    let text = text_at(alloc, &mut world.files, csv)?;
    let mut noted = NotedReader::new(text);
    let result = load_text(
        &mut office,
        &mut filmed.disk,
        &mut noted,
        &world.input,
        &mut world.output,
        &mut filmed.film,
    );
    filmed.text = Some(noted);
    result
}

impl From<JudgementFault> for TaskFault {
    ghost from_gives = { JudgedAs };

    fn from(fault: JudgementFault) -> Self {
        match fault {
            JudgementFault::Memory => TaskFault::Memory,
            JudgementFault::Read => TaskFault::Unreadable(TaskFile::Csv),
            JudgementFault::Turns => TaskFault::Serve(ServeFault::Turns),
            JudgementFault::Write => TaskFault::Write,
        }
    }
}

/// Writes what a load of a text would do with an office's count. The fault is `Refused` if a record would be refused.
fn judge_text<R: Read, O: Write>(
    alloc: Global,
    office: &Office<'_>,
    text: &mut NotedReader<R>,
    out: &mut O,
) -> Result<(), TaskFault>
    ensures runs { JudgesText (Judges office.now.ledger.tally (λ bytes. R.remaining (inner_reader text.old) ≡ Some bytes)
        (O.contents out.old) (O.contents out.new)) result }
    ensures read { IsErrOf result (TaskFault.Unreadable TaskFile.Csv) → has_failed text.new ≡ true }
{
    let forecast = write_judgement(alloc, office.count(), text, out)?;
    if forecast.refused > 0 {
        return Err(TaskFault::Refused);
    }
    Ok(())
}

/// Writes what a load of the CSV file at a path would do with the count on a disk. Nothing is stored.
pub(crate) fn dry_run<I: Read, O: Write, E: Write, F: Files>(
    alloc: Global,
    setup: &Setup,
    csv: &str,
    world: &mut World<I, O, E, F>,
    disk: &mut F::Disk,
) -> Result<(), TaskFault>
    ensures { MakesDryRun (known I.Read O.Write E.Write F.Files F.Disk.Disk) csv.now setup.now
        (world.old, disk.old) (world.new, disk.new) result }
{
    let office = Office::open(alloc, setup, disk)?;
    let rows = text_at(alloc, &mut world.files, csv)?;
    let mut reader = NotedReader::new(rows);
    judge_text(alloc, &office, &mut reader, &mut world.output)
}
