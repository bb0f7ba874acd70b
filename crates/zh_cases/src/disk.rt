//! The disk of a case, which counts its calls and can fail.

use crate::fault::CaseFault;
use std::alloc::Global;
use zh_disk::{DISK_LENGTH, Disk, DiskFault, FailingDisk, MemoryDisk, OnceDisk};

/// The disk of a case, which can fail permanently or once.
pub(crate) type Device = CountingDisk<OnceDisk<FailingDisk<MemoryDisk>>>;

/// More calls than are ever made.
pub(crate) const NEVER: u64 = u64::MAX;

/// Passes each call on to the inner disk and counts the calls of each kind.
#[derive(Drop)]
pub(crate) struct CountingDisk<D: Disk + Drop> {
    pub(crate) inner: D,
    pub(crate) reads: u64,
    pub(crate) writes: u64,
    pub(crate) syncs: u64,
}

/// A disk that fails permanently after `for_good` calls, or once after `once` calls. No call is counted yet.
pub(crate) fn device(disk: MemoryDisk, for_good: u64, once: u64) -> Device {
    CountingDisk {
        inner: OnceDisk::new(FailingDisk::new(disk, for_good), once),
        reads: 0,
        writes: 0,
        syncs: 0,
    }
}

/// A disk of these bytes that does not fail.
pub(crate) fn disk_of(alloc: Global, image: &[u8]) -> Result<Device, CaseFault> {
    if image.len() as u64 != DISK_LENGTH {
        return Err(CaseFault::Text("a disk has another length"));
    }
    Ok(device(MemoryDisk::new(alloc, image)?, NEVER, NEVER))
}

/// The bytes of a disk. The call is not counted.
pub(crate) fn image_of(alloc: Global, disk: &mut Device) -> Result<Vec<u8>, CaseFault> {
    let mut image = vec![in alloc; 0; DISK_LENGTH as usize]?;
    disk.inner.read_at(0, &mut image)?;
    Ok(image)
}

impl<D: Disk + Drop> Disk for CountingDisk<D> {
    ghost history = { λ disk. D.history disk.inner };

    ghost leaves = { λ disk. D.leaves disk.inner };

    ghost leaves_images = { λ disk honest. D.leaves_images disk.inner honest };

    ghost size = { λ disk honest. D.size disk.inner honest };

    fn read_at(&mut self, at: u64, into: &mut [u8]) -> Result<(), DiskFault> {
        self.reads = self.reads.saturating_add(1);
        self.inner.read_at(at, into)
    }

    fn write_at(&mut self, at: u64, from: &[u8]) -> Result<(), DiskFault> {
        self.writes = self.writes.saturating_add(1);
        self.inner.write_at(at, from)
    }

    fn sync(&mut self) -> Result<(), DiskFault> {
        self.syncs = self.syncs.saturating_add(1);
        self.inner.sync()
    }
}
