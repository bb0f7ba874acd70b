//! The files of a folder in memory.
ghost use Rattle.std.proofs.Common.{inl};
ghost use Rattle.std.specs.Prelude.{◌≡◌, refl};
ghost use Rattle.sqlite_disk.specs.Fuse.{IsFresh, calls_left, inner_of};
ghost use Rattle.zh_file.specs.MemoryFolder.{file_of};

use crate::stored::KnownFile;
use sqlite_disk::{Disk as File, Fuse, Memory, Tally};
use std::alloc::Global;
use std::io;
use zh_disk::{DISK_LENGTH, Disk, MemoryDisk};

/// A file in memory. A given number of calls pass, and then each call fails.
///
/// If the file had the length of a disk when it was made or last synced, it also has a device, on which a stop can be tried; it
/// has none if memory for it was refused. A write that fails still reaches the device.
#[derive(Drop)]
pub struct MemoryFile {
    alloc: Global,
    file: Fuse<Memory>,
    device: Option<MemoryDisk>,
}

/// The device of a file with these bytes, synced. `None` if they do not have the length of a disk, or if memory is refused.
fn device_of(alloc: Global, bytes: &[u8]) -> Option<MemoryDisk> {
    if bytes.len() as u64 != DISK_LENGTH {
        return None;
    }
    MemoryDisk::new(alloc, bytes).ok()
}

/// Writes to the device, if there is one and the bytes fit.
fn reach(device: &mut Option<MemoryDisk>, at: usize, bytes: &[u8]) {
    let (at, length) = (at as u64, bytes.len() as u64);
    let fits = length <= DISK_LENGTH && at <= DISK_LENGTH - length;
    if let Some(device) = device
        && fits
    {
        let _reached = device.write_at(at, bytes);
    }
}

impl MemoryFile {
    /// A synced file of which this many calls pass.
    pub(crate) fn new(alloc: Global, file: Memory, calls: u64) -> MemoryFile
        ensures file { inner_of (file_of result) ≡ file }
        ensures fresh { IsFresh (file_of result) }
        ensures calls { calls_left (file_of result) ≡ calls }
    {
        let device = device_of(alloc, file.bytes());
        MemoryFile {
            alloc,
            file: Fuse::new(file, calls),
            device,
        }
    }

    /// The device, if there is one, with the writes that a stop can still undo.
    pub fn into_disk(self) -> Option<MemoryDisk> {
        self.device
    }
}

impl KnownFile for MemoryFile {}

impl File for MemoryFile {
    ghost seen = { λ f. ⟦<Fuse<Memory> as File>⟧.seen f.file };

    ghost may_leave = { λ f. ⟦<Fuse<Memory> as File>⟧.may_leave f.file };

    ghost is_usable = { λ f. ⟦<Fuse<Memory> as File>⟧.is_usable f.file };

    ghost faults = { λ f. ⟦<Fuse<Memory> as File>⟧.faults f.file };

    ghost tally_of = { λ f. ⟦<Fuse<Memory> as File>⟧.tally_of f.file };

    ghost is_clean = { λ f. ⟦<Fuse<Memory> as File>⟧.is_clean f.file };

    ghost key_of = { λ f. ⟦<Fuse<Memory> as File>⟧.key_of f.file };

    ghost is_fair = { λ f. ⟦<Fuse<Memory> as File>⟧.is_fair f.file };

    ghost is_frozen = { λ f. ⟦<Fuse<Memory> as File>⟧.is_frozen f.file };

    ghost is_rotten = { λ f. ⟦<Fuse<Memory> as File>⟧.is_rotten f.file };

    ghost is_mixing = { λ f. ⟦<Fuse<Memory> as File>⟧.is_mixing f.file };

    ghost seen_may_stay = { λ f. inl refl };

    ghost fair_if_clean = { λ f key clean. refl };

    fn mixes(&self) -> bool {
        self.file.mixes()
    }

    fn key(&self) -> u64 {
        self.file.key()
    }

    fn tally(&self) -> Tally {
        self.file.tally()
    }

    fn may_be_used(&self) -> bool {
        self.file.may_be_used()
    }

    fn len(&mut self) -> io::Result<usize> {
        self.file.len()
    }

    fn read_at(&mut self, at: usize, buf: &mut [u8]) -> io::Result<()> {
        self.file.read_at(at, buf)
    }

    fn read_checked(&mut self, key: u64, want: u64, at: usize, buf: &mut [u8]) -> io::Result<()> {
        self.file.read_checked(key, want, at, buf)
    }

    fn write_at(&mut self, at: usize, bytes: &[u8]) -> io::Result<()> {
        reach(&mut self.device, at, bytes);
        self.file.write_at(at, bytes)
    }

    fn set_len(&mut self, len: usize) -> io::Result<()> {
        self.file.set_len(len)
    }

    fn sync(&mut self) -> io::Result<()> {
        self.file.sync()?;
        self.device = device_of(self.alloc, self.file.inner().bytes());
        Ok(())
    }
}
