//! A film: a record of what a reader, a writer and a disk were at successive times.
ghost use Rattle.std.specs.Prelude.{◌≡◌, ◌∷◌, []};
ghost use Rattle.std.specs.Io.{ReadsAtMost};
ghost use Rattle.std.specs.Io.KnownBytes.{ReadConsumes};
ghost use Rattle.zh_film.specs.Past.{items};
ghost use Rattle.zh_film.specs.Scenes.{answers_noted, kind_after, scene, scenes};

use crate::kind::FrameKind;
use crate::past::Past;
use std::io;
use std::io::Read;
use std::snapshot::Snapshot;

/// What is noted after a read with this result.
fn kind_after(given: &io::Result<usize>) -> FrameKind
    ensures { result ≡ kind_after given.now }
{
    match given {
        Ok(0) => FrameKind::Ended,
        Ok(_) => FrameKind::Between,
        Err(_) => FrameKind::Failed,
    }
}

/// Reads once, notes the result and returns it. That it reads only once and returns what the reader gave must be believed:
/// no clause of a reader says so.
fn ask<R: Read>(reader: &mut R, into: &mut [u8], answers: &mut Past<FrameKind>) -> io::Result<usize>
    ensures bound { ReadsAtMost result into.new }
    ensures bytes { ReadConsumes (R.remaining reader.old) (R.remaining reader.new) result into.new }
    ensures noted { items answers.new ≡ kind_after result ∷ items answers.old }
{
    let given = reader.read(into);
    let kind = kind_after(&given);
    answers.push(Snapshot::of(&kind));
    given
}

/// What a reader, a writer and a disk were at one time.
#[derive(Drop)]
struct Scene<R, W, D> {
    kind: FrameKind,
    reader: Snapshot<R>,
    writer: Snapshot<W>,
    disk: Snapshot<D>,
}

/// What a reader, a writer and a disk were at successive times.
///
/// Each note takes all three at once, and generic code has only one of each. So a film can leave out a time, but it can't
/// show one that never was.
#[derive(Drop)]
pub struct Film<R, W, D> {
    scenes: Past<Scene<R, W, D>>,
    answers: Past<FrameKind>,
}

impl<R, W, D> Film<R, W, D> {
    /// A film without notes.
    pub fn new() -> Film<R, W, D>
        ensures { scenes result ≡ [] }
    {
        Film {
            scenes: Past::new(),
            answers: Past::new(),
        }
    }

    /// Notes what the three are now.
    pub fn note(&mut self, reader: &R, writer: &W, disk: &D)
        ensures { scenes self.new ≡ scene FrameKind.Between reader.now writer.now disk.now ∷ scenes self.old }
    {
        self.add(FrameKind::Between, reader, writer, disk);
    }

    /// Notes what the three are now. `kind` says what is noted about a read.
    fn add(&mut self, kind: FrameKind, reader: &R, writer: &W, disk: &D)
        ensures noted { scenes self.new ≡ scene kind reader.now writer.now disk.now ∷ scenes self.old }
        ensures unasked { answers_noted self.new ≡ answers_noted self.old }
    {
        let scene = Scene {
            kind,
            reader: Snapshot::of(reader),
            writer: Snapshot::of(writer),
            disk: Snapshot::of(disk),
        };
        self.scenes.push(Snapshot::of(&scene));
    }

    /// Reads once and notes what the three are before and after the read. A read that gives no byte is noted as the end
    /// of the input.
    pub fn read(
        &mut self,
        reader: &mut R,
        writer: &W,
        disk: &D,
        into: &mut [u8],
    ) -> io::Result<usize>
    where
        R: Read,
        ensures bound { ReadsAtMost result into.new }
        ensures bytes { ReadConsumes (R.remaining reader.old) (R.remaining reader.new) result into.new }
        ensures noted { answers_noted self.new ≡ kind_after result ∷ answers_noted self.old }
        ensures scenes { scenes self.new ≡ scene (kind_after result) reader.new writer.now disk.now
            ∷ (scene FrameKind.Asks reader.old writer.now disk.now ∷ scenes self.old) }
    {
        self.add(FrameKind::Asks, reader, writer, disk);
        let given = ask(reader, into, &mut self.answers);
        self.add(kind_after(&given), reader, writer, disk);
        given
    }
}
