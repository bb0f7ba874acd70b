//! The fixture of a case: a set-up, a disk, and the office that is open on it.

use crate::disk::{Device, NEVER, device, disk_of, image_of};
use crate::fault::CaseFault;
use crate::texts::number;
use std::alloc::Global;
use std::fs::{self, File};
use zh_disk::{DISK_LENGTH, MemoryDisk, Stop};
use zh_districts::Setup;
use zh_office::Office;

/// tests/refuse.c counts the allocations that are made while a file with this name is open.
const MARK: &str = "refuse";

/// Room for the output of most lines, so that writing it takes no memory.
const ROOM: usize = 4_000;

const NO_CASE: CaseFault = CaseFault::Text("no case has begun");

/// The state that a case works on. There is no disk before a case has begun.
#[derive(Drop)]
pub struct Fixture<'s> {
    pub(crate) rt: &'s HostRuntime,
    pub(crate) alloc: Global,
    setups: &'s [Setup],
    pub(crate) setup: &'s Setup,
    pub(crate) device: Option<Device>,
    /// The disk's bytes at the last turn `mark`.
    marked: Vec<u8>,
    pub(crate) office: Option<Office<'s>>,
    /// What the office wrote in this turn.
    pub(crate) output: Vec<u8>,
    /// Whether memory can be refused to a call of this turn, and the file that is open during such a call.
    pub(crate) is_refusing: bool,
    pub(crate) mark: Option<File>,
}

/// The disk, for a call.
pub(crate) fn present(device: &mut Option<Device>) -> Result<&mut Device, CaseFault> {
    match device {
        Some(device) => Ok(device),
        None => Err(NO_CASE),
    }
}

impl<'s> Fixture<'s> {
    /// A fixture with the first set-up and no disk.
    pub fn new(rt: &'s HostRuntime, setups: &'s [Setup]) -> Result<Fixture<'s>, CaseFault> {
        let alloc = rt.alloc();
        let Some(setup) = setups.first() else {
            return Err(CaseFault::Text("a file begins with a set-up"));
        };
        let output = Vec::with_capacity(alloc, ROOM)?;
        Ok(Fixture {
            rt,
            alloc,
            setups,
            setup,
            device: None,
            marked: Vec::new(alloc),
            office: None,
            output,
            is_refusing: false,
            mark: None,
        })
    }

    /// Begins a call to which memory is refused if the turn says so.
    pub(crate) fn begin(&mut self) -> Result<(), CaseFault> {
        if self.is_refusing {
            self.mark = Some(File::create(self.rt, MARK)?);
        }
        Ok(())
    }

    /// Ends that call.
    pub(crate) fn end(&mut self) {
        self.mark = None;
    }

    pub(crate) fn close(&mut self) {
        self.office = None;
    }

    fn put(&mut self, device: Device) {
        self.device = Some(device);
    }

    /// Takes a disk, with no office open on it.
    fn take(&mut self, device: Device) {
        self.close();
        self.put(device);
    }

    /// Takes the set-up with this number, counted from 0, and closes the office.
    pub(crate) fn take_setup(&mut self, word: &str) -> Result<(), CaseFault> {
        self.close();
        match self.setups.get(number(word)? as usize) {
            Some(setup) => {
                self.setup = setup;
                Ok(())
            }
            None => Err(CaseFault::Text("there is no such set-up")),
        }
    }

    /// Takes a disk of these bytes.
    fn take_image(&mut self, image: &[u8]) -> Result<(), CaseFault> {
        self.take(disk_of(self.alloc, image)?);
        Ok(())
    }

    /// Takes a disk of zeros.
    pub(crate) fn take_zeros(&mut self) -> Result<(), CaseFault> {
        let image = vec![in self.alloc; 0; DISK_LENGTH as usize]?;
        self.take_image(&image)
    }

    /// Takes the disk that is in a file.
    pub(crate) fn take_file(&mut self, name: &str) -> Result<(), CaseFault> {
        let image = fs::read(self.rt, name)?;
        self.take_image(&image)
    }

    /// The bytes of the disk.
    pub(crate) fn image(&mut self) -> Result<Vec<u8>, CaseFault> {
        image_of(self.alloc, present(&mut self.device)?)
    }

    /// Writes the bytes of the disk into a file.
    pub(crate) fn save_image(&mut self, name: &str) -> Result<(), CaseFault> {
        let image = self.image()?;
        fs::write(self.rt, name, &image)?;
        Ok(())
    }

    /// Keeps a copy of the disk.
    pub(crate) fn mark(&mut self) -> Result<(), CaseFault> {
        self.marked = self.image()?;
        Ok(())
    }

    /// Takes a disk like the one that was kept.
    pub(crate) fn back(&mut self) -> Result<(), CaseFault> {
        let device = disk_of(self.alloc, &self.marked)?;
        self.take(device);
        Ok(())
    }

    /// Takes the disk in memory out of its wrappers.
    fn take_memory(&mut self) -> Result<MemoryDisk, CaseFault> {
        match self.device.take() {
            Some(device) => Ok(device.inner.into_inner().into_inner()),
            None => Err(NO_CASE),
        }
    }

    /// Has the disk fail after this many calls, permanently (`fail`) or once (`once`), or work again (`mend`).
    pub(crate) fn fail(&mut self, word: &str, calls: &str) -> Result<(), CaseFault> {
        let (for_good, once) = match word {
            "fail" => (number(calls)?, NEVER),
            "once" => (NEVER, number(calls)?),
            "mend" => (NEVER, NEVER),
            _ => return Err(CaseFault::Text("there is no such turn")),
        };
        let memory = self.take_memory()?;
        self.put(device(memory, for_good, once));
        Ok(())
    }

    /// A power failure, which also closes the office. The word says what it leaves of the bytes that were not synced.
    pub(crate) fn stop(&mut self, word: &str) -> Result<(), CaseFault> {
        let how = stop_of(word)?;
        let mut disk = self.take_memory()?;
        disk.stop(how);
        self.take(device(disk, NEVER, NEVER));
        Ok(())
    }

    /// Appends the number of calls of each kind since `calls` was last asked or a disk was taken.
    pub(crate) fn calls(&mut self, answer: &mut String) -> Result<(), CaseFault> {
        let disk = present(&mut self.device)?;
        let (reads, writes, syncs) = (disk.reads, disk.writes, disk.syncs);
        (disk.reads, disk.writes, disk.syncs) = (0, 0, 0);
        Ok(write!(answer, "{reads} reads, {writes} writes, {syncs} syncs")?)
    }
}

/// What a power failure leaves of the bytes that were not synced: `keep`, `old`, or a byte.
fn stop_of(word: &str) -> Result<Stop, CaseFault> {
    match word {
        "keep" => Ok(Stop::Keep),
        "old" => Ok(Stop::Old),
        _ => Ok(Stop::Fill(number(word)?.min(255) as u8)),
    }
}
