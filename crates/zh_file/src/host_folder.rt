//! The folders of the operating system.
ghost use Rattle.std.specs.Prelude.{◌≡◌, Some, None};
ghost use Rattle.zh_film.specs.Past.{items, number};
ghost use Rattle.zh_file.specs.Folder.{Unlocks};
ghost use Rattle.zh_file.specs.Locked.{IsLeftOf, IsLeftOfOne, noted_all, setbacks_of};
ghost use Rattle.zh_file.specs.Notes.{failed_among, unlocked_among};

use crate::FileOf;
use crate::folder::{Folder, Found};
use crate::notes::{Note, note_call, note_lock, note_unlocked};
use crate::stored::{KnownFile, Locked};
use sqlite_disk::Disk;
use sqlite_std_file::{OpenError, Start};
use std::fs::{self, File, OpenOptions};
use std::io::{self, ErrorKind};
use std::marker::PhantomData;
use std::os::unix::fs::OpenOptionsExt;
use zh_film::Past;

/// The folders of the operating system. That each method does what [`Folder`] says must be believed: the clauses are proved
/// for every folder, but no contents of this one are known.
///
/// `S` stands for what the file of the disk holds. A value of it is the right to that disk, and a lock uses it up.
#[derive(Drop)]
pub struct HostFolder<'a, S: Start> {
    rt: &'a HostRuntime,
    // the calls that failed, and the files that were unlocked, which only clauses read
    notes: Past<Note<FileOf<S>>>,
    // how often a text was asked for
    asked: Past<()>,
    content: PhantomData<S>,
}

impl<'a, S: Start> HostFolder<'a, S> {
    /// The folders of this runtime, with nothing noted.
    pub fn new(rt: &'a HostRuntime) -> HostFolder<'a, S> {
        HostFolder {
            rt,
            notes: Past::new(),
            asked: Past::new(),
            content: PhantomData,
        }
    }
}

/// What is at this path.
fn kind_at(rt: &HostRuntime, path: &str) -> io::Result<Found> {
    let found = fs::metadata(rt, path)?;
    Ok(if found.is_file() {
        Found::File(found.len())
    } else if found.is_dir() {
        Found::Folder
    } else {
        Found::Other
    })
}

/// The path of the companion of the disk at this path.
fn companion_at(rt: &HostRuntime, path: &str) -> io::Result<String> {
    let real = fs::canonicalize(rt, path)?;
    Ok(format!(in rt.alloc(); "{}-wal", real.as_str())?)
}

/// Opens the text at this path. Fails for a folder, which the system would open, so that only a read would fail.
fn text_at(rt: &HostRuntime, path: &str) -> io::Result<File> {
    let text = File::open(rt, path)?;
    if text.metadata()?.is_dir() {
        return Err(ErrorKind::IsADirectory.into());
    }
    Ok(text)
}

/// Makes an empty file, for its owner alone, if there is nothing at this path.
fn make_at(rt: &HostRuntime, path: &str) -> io::Result<()> {
    let made = OpenOptions::new()
        .read(true)
        .write(true)
        .create_new(true)
        .mode(0o600)
        .open(rt, path);
    match made {
        Err(error) if error.kind() != ErrorKind::AlreadyExists => Err(error),
        _ => Ok(()),
    }
}

impl<S: Start> KnownFile for FileOf<S> {}

impl<S: Start> Folder for HostFolder<'_, S> {
    type Text = File;

    type File = FileOf<S>;

    type Companion = FileOf<S>;

    type Right = S;

    ghost known = { λ folder. None };

    ghost left = { λ folder. IsLeftOfOne ⟦<FileOf<S> as Disk>⟧ (unlocked_among (items folder.notes)) };

    ghost disk_at = { λ folder path. Some S.Start.db };

    ghost failed = { λ folder. failed_among ⟦<FileOf<S> as Disk>⟧ (items folder.notes) };

    ghost texts = { λ folder. number folder.asked };

    fn kind(&mut self, path: &str) -> io::Result<Found> {
        let found = kind_at(self.rt, path);
        note_call(&mut self.notes, path, &found);
        found
    }

    fn companion(&mut self, path: &str) -> io::Result<String> {
        let name = companion_at(self.rt, path);
        note_call(&mut self.notes, path, &name);
        name
    }

    fn text(&mut self, path: &str) -> io::Result<File> {
        self.asked.add();
        let text = text_at(self.rt, path);
        note_call(&mut self.notes, path, &text);
        text
    }

    fn make(&mut self, path: &str) -> io::Result<()> {
        let made = make_at(self.rt, path);
        note_call(&mut self.notes, path, &made);
        made
    }

    fn lock(&mut self, right: S, path: &str) -> Result<(Locked<FileOf<S>>, FileOf<S>), OpenError> {
        let opened = sqlite_std_file::open(self.rt, path, right);
        note_lock(&mut self.notes, path, &opened);
        let files = opened?;
        Ok((Locked::new(files.db), files.log))
    }

    fn remove(&mut self, path: &str, _locked: &FileOf<S>) -> io::Result<()> {
        let removed = fs::remove_file(self.rt, path);
        note_call(&mut self.notes, path, &removed);
        removed
    }

    fn unlock(&mut self, path: &str, locked: Locked<FileOf<S>>)
        ensures unlocks { Unlocks (λ folder path. Some S.Start.db) (λ folder. None)
            (λ folder. IsLeftOfOne ⟦<FileOf<S> as Disk>⟧ (unlocked_among (items folder.notes)))
            (IsLeftOf ⟦<FileOf<S> as Disk>⟧ locked) self.old self.new }
        ensures texts { number self.new.asked ≡ number self.old.asked }
        ensures noted { failed_among ⟦<FileOf<S> as Disk>⟧ (items self.new.notes)
            ≡ noted_all path.now (setbacks_of ⟦<FileOf<S> as Disk>⟧ locked) (failed_among ⟦<FileOf<S> as Disk>⟧ (items self.old.notes)) }
    {
        note_unlocked(&mut self.notes, path, locked);
    }
}
