//! The file of a disk, from its lock until it becomes a disk.
ghost use Rattle.std.specs.Prelude.{◌≡◌, ◌<◌, ◌∷◌, [], length, false, is_ok, IfOk, IsTrue, OnOk};
ghost use Rattle.zh_file.specs.Locked.{kinds_after};
ghost use Rattle.sqlite_disk.specs.Disk.{Cut, Holds, Only, Torn};
ghost use Rattle.zh_disk.specs.Disk.{disk_length, fresh_trail};
ghost use Rattle.zh_film.specs.Past.{items};

use super::{HeldFile, Stored};
use sqlite_disk::Disk as File;
use std::io::{self, ErrorKind};
use std::snapshot::Snapshot;
use zh_film::Past;

/// A locked file. It notes what it was before each of its calls, and the kinds of the errors of those that failed. Only clauses
/// read these notes. No other call reaches the file: code that is generic over folders can neither drop a locked file nor take
/// the file out.
#[derive(Drop)]
pub struct Locked<D: File> {
    file: D,
    before: Past<D>,
    // the kinds of the errors of its failed calls
    failed: Past<ErrorKind>,
}

/// Notes the kind of the error of a call of a file, if it failed.
fn note<T>(failed: &mut Past<ErrorKind>, done: &io::Result<T>)
    ensures { items failed.new ≡ kinds_after done.now (items failed.old) }
{
    if let Err(error) = done {
        failed.push(Snapshot::of(&error.kind()));
    }
}

impl<D: File> Locked<D> {
    ghost use Rattle.zh_file.specs.Locked.{IsNotedCall, Stays, moments};
    ghost use Rattle.zh_file.specs.Stored.{opening_moments, stored_history, is_over};

    /// This file as it is, with no call noted.
    pub fn new(file: D) -> Locked<D>
        ensures file { result.file ≡ file }
        ensures begun { items result.before ≡ [] }
        ensures unmet { items result.failed ≡ [] }
    {
        Locked {
            file,
            before: Past::new(),
            failed: Past::new(),
        }
    }

    /// Whether the file can still be used. It can't after a failed sync.
    pub(crate) fn may_be_used(&self) -> bool
        ensures { result ≡ D.is_usable self.now.file }
    {
        self.file.may_be_used()
    }

    /// The length of the file.
    pub(crate) fn len(&mut self) -> io::Result<usize>
        requires { IsTrue (D.is_usable self.old.file) }
        ensures call { IsNotedCall D.Disk Stays result self.old self.new }
        ensures told { IfOk result (λ n. IsTrue (D.is_clean self.new.file) → n ≡ length (D.seen self.old.file)) }
        ensures usable { IsTrue (D.is_usable self.new.file) }
    {
        self.before.push(Snapshot::of(&self.file));
        let done = self.file.len();
        note(&mut self.failed, &done);
        done
    }

    /// Sets the length of the file.
    pub(crate) fn set_len(&mut self, n: usize) -> io::Result<()>
        requires { IsTrue (D.is_usable self.old.file) }
        ensures call { IsNotedCall D.Disk (Cut n) result self.old self.new }
        ensures long { OnOk result (length (D.seen self.new.file) ≡ n) }
        ensures usable { IsTrue (D.is_usable self.new.file) }
    {
        self.before.push(Snapshot::of(&self.file));
        let done = self.file.set_len(n);
        note(&mut self.failed, &done);
        done
    }

    /// Writes these bytes at this place.
    pub(crate) fn write_at(&mut self, at: usize, bytes: &[u8]) -> io::Result<()>
        requires { IsTrue (D.is_usable self.old.file) }
        ensures call { IsNotedCall D.Disk (Torn at (length bytes.now)) result self.old self.new }
        ensures written { OnOk result (0 < length bytes.now → Holds (D.seen self.new.file) at bytes.now) }
        ensures usable { IsTrue (D.is_usable self.new.file) }
    {
        self.before.push(Snapshot::of(&self.file));
        let done = self.file.write_at(at, bytes);
        note(&mut self.failed, &done);
        done
    }

    /// Syncs the file.
    pub(crate) fn sync(&mut self) -> io::Result<()>
        requires { IsTrue (D.is_usable self.old.file) }
        ensures call { IsNotedCall D.Disk Stays result self.old self.new }
        ensures durable { OnOk result (Only (D.seen self.old.file) (D.may_leave self.new.file)) }
        ensures usable { D.is_usable self.new.file ≡ is_ok result }
    {
        self.before.push(Snapshot::of(&self.file));
        let done = self.file.sync();
        note(&mut self.failed, &done);
        done
    }

    /// Makes the file, which is synced, a disk.
    pub(crate) fn start(self) -> Stored<D>
        requires usable { IsTrue (D.is_usable self.file) }
        requires synced { Only (D.seen self.file) (D.may_leave self.file) }
        requires long { IsTrue (D.is_clean self.file) → length (D.seen self.file) ≡ disk_length }
        ensures kept { IsTrue (stored_history result).honest → IsTrue (D.is_clean self.file) }
        ensures begins { (stored_history result).trail ≡ fresh_trail (D.seen self.file) }
        ensures failures { (stored_history result).failures ≡ D.faults self.file }
        ensures whole { is_over result ≡ false }
        ensures opening { opening_moments result ≡ moments self }
    {
        let Locked {
            file,
            before: mut opening,
            failed: _,
        } = self;
        opening.push(Snapshot::of(&file));
        Stored {
            held: HeldFile {
                file,
                written: Past::new(),
            },
            opening,
            before: Past::new(),
            is_over: false,
            refusals: 0,
        }
    }
}
