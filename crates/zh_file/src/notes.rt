//! The notes of a folder, which only clauses read: the calls that failed and the files that were unlocked.
ghost use Rattle.std.specs.Prelude.{◌≡◌, ◌∷◌};
ghost use Rattle.zh_film.specs.Past.{items};
ghost use Rattle.zh_file.specs.Failures.{failed_call, asked_with, locked_with};
ghost use Rattle.zh_file.specs.Folder.{noted_at};
ghost use Rattle.zh_file.specs.Locked.{noted_all, setbacks_of};
ghost use Rattle.zh_file.specs.Notes.{failed_among, unlocked_among};

use crate::stored::Locked;
use sqlite_disk::Disk as File;
use sqlite_std_file::OpenError;
use std::io::{self, ErrorKind};
use std::snapshot::Snapshot;
use zh_film::Past;

/// How a call failed, or that a locked file is not fit to be a disk's.
#[derive(Drop)]
pub enum Setback {
    /// An error of a call at a path.
    Asked(ErrorKind),
    /// An error of locking a disk.
    Locking(ErrorKind),
    /// An error of a call of a disk's file after it was locked.
    Used(ErrorKind),
    /// The lock is held elsewhere.
    Busy,
    /// A journal that another program left is next to the file.
    Journal,
    /// The locked file does not have the length of a disk, or it gave a wrong answer.
    Unfit,
}

/// A call that failed: its path, and how it failed.
#[derive(Drop)]
pub struct Failure {
    path: Past<u8>,
    setback: Setback,
}

/// The bytes of a path, as they are noted.
pub(crate) fn noted_path(path: &[u8]) -> Past<u8>
    ensures { items result ≡ path.now }
{
    let mut noted = Past::new();
    for k in (0..path.len()).rev() {
        noted.push(Snapshot::of(&path[k]));
    }
    noted
}

impl Failure {
    /// A failed call at this path.
    pub fn at(path: &str, setback: Setback) -> Failure
        ensures { failed_call result ≡ record { path = path.now; setback = setback } }
    {
        Failure {
            path: noted_path(path.as_bytes()),
            setback,
        }
    }
}

/// A note of a folder.
#[derive(Drop)]
pub(crate) enum Note<D: File> {
    /// A call failed.
    Failed(Failure),
    /// The file at this path was unlocked. It is noted as it was then.
    Unlocked(Past<u8>, Locked<D>),
}

/// Notes a call at this path that failed in this way.
fn note_failure<D: File + Drop>(notes: &mut Past<Note<D>>, path: &str, setback: Setback)
    ensures failed { failed_among D.Disk (items notes.new)
        ≡ record { path = path.now; setback = setback } ∷ failed_among D.Disk (items notes.old) }
    ensures unlocked { unlocked_among (items notes.new) ≡ unlocked_among (items notes.old) }
{
    let failed = Note::Failed(Failure::at(path, setback));
    notes.push(Snapshot::of(&failed));
}

/// Notes a call at this path if it failed.
pub(crate) fn note_call<D: File + Drop, T>(
    notes: &mut Past<Note<D>>,
    path: &str,
    done: &io::Result<T>,
)
    ensures failed { failed_among D.Disk (items notes.new)
        ≡ noted_at path.now asked_with done.now (failed_among D.Disk (items notes.old)) }
    ensures unlocked { unlocked_among (items notes.new) ≡ unlocked_among (items notes.old) }
{
    if let Err(error) = done {
        note_failure(notes, path, Setback::Asked(error.kind()));
    }
}

/// How a lock failed.
fn setback_of(error: &OpenError) -> Setback
    ensures { result ≡ locked_with error.now }
{
    match error {
        OpenError::Io(error) => Setback::Locking(error.kind()),
        OpenError::OutOfMemory => Setback::Locking(io::ErrorKind::OutOfMemory),
        OpenError::Busy => Setback::Busy,
        OpenError::HotJournal => Setback::Journal,
    }
}

/// Notes a lock at this path if it failed.
pub(crate) fn note_lock<D: File + Drop, T>(
    notes: &mut Past<Note<D>>,
    path: &str,
    done: &Result<T, OpenError>,
)
    ensures failed { failed_among D.Disk (items notes.new)
        ≡ noted_at path.now locked_with done.now (failed_among D.Disk (items notes.old)) }
    ensures unlocked { unlocked_among (items notes.new) ≡ unlocked_among (items notes.old) }
{
    if let Err(error) = done {
        note_failure(notes, path, setback_of(error));
    }
}

/// Notes a file at this path that is unlocked.
pub(crate) fn note_unlocked<D: File + Drop>(
    notes: &mut Past<Note<D>>,
    path: &str,
    locked: Locked<D>,
)
    ensures failed { failed_among D.Disk (items notes.new)
        ≡ noted_all path.now (setbacks_of D.Disk locked) (failed_among D.Disk (items notes.old)) }
    ensures unlocked { unlocked_among (items notes.new) ≡ locked ∷ unlocked_among (items notes.old) }
{
    let unlocked = Note::Unlocked(noted_path(path.as_bytes()), locked);
    notes.push(Snapshot::of(&unlocked));
}
