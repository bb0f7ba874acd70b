//! A disk over a file, which is of the library's trait `sqlite_disk::Disk`.
mod locked;

ghost use Rattle.std.specs.Prelude.{◌≡◌, ◌≤◌, ◌+◌, ◌||◌, ℕ, List, length, slice_index, true, false, is_ok, is_err, IsTrue, IsErr};
ghost use Rattle.std.proofs.Common.{sym, ◌∙◌};
ghost use Rattle.zh_disk.specs.declared.disk.TheConstants.{DISK_LENGTH};
ghost use Rattle.zh_disk.specs.Disk.{IsSettled, Reads, Writes, Syncs};
ghost use Rattle.zh_disk.specs.History.{Call, Counts};
ghost use Rattle.zh_film.specs.Past.{items};

pub use locked::Locked;
use sqlite_disk::Disk as File;
use std::io;
use std::snapshot::Snapshot;
use zh_disk::{DISK_LENGTH, Disk, DiskFault};
use zh_film::Past;

/// A file, and the ranges that were written since its last sync. Only clauses read the ranges.
#[derive(Drop)]
pub(crate) struct HeldFile<D: File> {
    pub(crate) file: D,
    pub(crate) written: Past<(u64, usize)>,
}

/// A disk over a file. Once a write or a sync has failed, the disk is over: each call fails and does
/// not use the file. The reason is that a failed write might have reached the file, and that a sync
/// after a failed one does not report what was lost.
#[derive(Drop)]
pub struct Stored<D: File> {
    held: HeldFile<D>,
    // what the file was at each moment from its lock until it became a disk
    opening: Past<D>,
    // what was held before each write and before each sync that succeeded
    before: Past<HeldFile<D>>,
    // whether a write or a sync has failed
    is_over: bool,
    // the number of calls since then, which did not use the file
    refusals: u64,
    ghost usable: { is_over ≡ false → IsTrue (D.is_usable held.file) },
    ghost size: { IsTrue (D.is_clean held.file) → length (D.seen held.file) ≡ DISK_LENGTH },
    // a stop can leave only images of the present moment
    ghost sizes: { IsTrue (D.is_clean held.file) → (c : List ℕ) → D.may_leave held.file c → length c ≡ DISK_LENGTH },
    ghost same: { IsTrue (D.is_clean held.file) → (c : List ℕ) → D.may_leave held.file c → (k : ℕ)
        → IsSettled (items held.written) k → slice_index c k ≡ slice_index (D.seen held.file) k },
    ghost unrefused: { is_over ≡ false → refusals ≡ 0 },
}

/// A file of a known type, which can be taken out of its disk. Code that is generic over folders can't take a file out and make
/// another disk of it, because it does not know the type of the folder's files.
pub trait KnownFile: File {}

impl<D: KnownFile> Stored<D> {
    ghost use Rattle.zh_file.specs.Stored.{stored_file};

    /// Takes the file out of the disk.
    pub fn into_file(self) -> D
        ensures { result ≡ stored_file self }
    {
        self.held.file
    }
}

/// The answer of a call of the file.
/// An error becomes `Device`, whatever its kind.
fn reported(done: io::Result<()>) -> Result<(), DiskFault>
    ensures { is_ok result ≡ is_ok done }
{
    done.map_err(|_| DiskFault::Device)
}

/// The answer of a call that is refused without using the file. The refusal is counted.
fn refused(refusals: &mut u64) -> Result<(), DiskFault>
    ensures fails { IsErr result }
    ensures counts { Counts (is_err result) refusals.old refusals.new }
{
    *refusals = refusals.saturating_add(1);
    Err(DiskFault::Device)
}

impl<D: File> Disk for Stored<D> {
    ghost use Rattle.zh_file.specs.Stored.{stored_history, is_over, Reports};

    ghost history = { stored_history };

    ghost leaves = { λ d. D.may_leave d.held.file };

    ghost leaves_images = { λ d h c left. record { size = d.sizes h c left ∙ sym (d.size h); same = d.same h c left } };

    ghost size = { λ d h. d.size h };

    fn read_at(&mut self, at: u64, into: &mut [u8]) -> Result<(), DiskFault>
        requires { at + length into.old ≤ DISK_LENGTH }
        ensures call { Call is_err (Reads at (length into.old) into.new)
            (stored_history self.old) (stored_history self.new) result }
        ensures reports { Reports self.old self.new result }
        ensures stays { is_over self.new ≡ is_over self.old }
    {
        if self.is_over {
            return refused(&mut self.refusals);
        }
        let done = self.held.file.read_at(at as usize, into);
        reported(done)
    }

    fn write_at(&mut self, at: u64, from: &[u8]) -> Result<(), DiskFault>
        requires { at + length from.now ≤ DISK_LENGTH }
        ensures call { Call is_err (Writes at from.now) (stored_history self.old) (stored_history self.new) result }
        ensures reports { Reports self.old self.new result }
        ensures ends { is_over self.new ≡ (is_err result || is_over self.old) }
    {
        if self.is_over {
            return refused(&mut self.refusals);
        }
        self.before.push(Snapshot::of(&self.held));
        let done = self.held.file.write_at(at as usize, from);
        let done = reported(done);
        self.held.written.push(Snapshot::of(&(at, from.len())));
        self.is_over = done.is_err();
        done
    }

    fn sync(&mut self) -> Result<(), DiskFault>
        ensures call { Call is_err Syncs (stored_history self.old) (stored_history self.new) result }
        ensures reports { Reports self.old self.new result }
        ensures ends { is_over self.new ≡ (is_err result || is_over self.old) }
    {
        if self.is_over {
            return refused(&mut self.refusals);
        }
        let before = Snapshot::of(&self.held);
        let done = self.held.file.sync();
        let done = reported(done);
        if done.is_ok() {
            self.before.push(before);
            self.held.written = Past::new();
        } else {
            self.is_over = true;
        }
        done
    }
}
