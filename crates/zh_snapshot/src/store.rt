//! A store: the set-up bytes and, in one of two shadow slots, a snapshot with the write-ahead log of the records after it.
ghost use Rattle.std.specs.Prelude.{◌≡◌, ◌≢◌, ◌<◌, ◌≤◌, ◌↔◌, ℕ, true, false, length, slice_get, slice_index, Some, IfOk, OnOk, IsErrOf};
ghost use Rattle.std.specs.Prelude.{is_err, ◌+◌, slice_range, IsTrue};
ghost use Rattle.zh_disk.specs.Disk.{Asks};
ghost use Rattle.zh_disk.specs.History.{Call};
ghost use Rattle.zh_disk.specs.declared.disk.TheConstants.{DISK_LENGTH};
ghost use Rattle.zh_journal.specs.Pages.{pages_of};
ghost use Rattle.zh_journal.specs.Place.{pages_left};
ghost use Rattle.zh_snapshot.specs.Calls.{OpensStore, ReadsStore, ComparesSetup, StoreAppends};
ghost use Rattle.zh_snapshot.specs.Faults.{store_open_fails, store_append_fails};
ghost use Rattle.zh_snapshot.specs.Image.{Content, IsFramed};
ghost use Rattle.zh_snapshot.specs.Slots.{IsInUse};
ghost use Rattle.zh_snapshot.specs.Store.{longer};

use crate::fault::{AppendFault, OpenFault, StoreFault};
use crate::heads::{find_slot, open_header};
use crate::layout::{SETUP, SNAPSHOT_LENGTH, Slot};
use crate::refill::zeros;
use std::alloc::Global;
use std::marker::Model;
use zh_disk::{Disk, DiskFault};
use zh_journal::{AREA_LENGTH, Area, LONGEST_PAYLOAD, Reader};

mod switch;

/// What is known of a disk: the slot in use with its generation, where its records end, and the length of the set-up bytes.
///
/// A call that uses the disk takes it as an argument, which must be the disk on which the store was opened. After a device
/// fault in a call that writes, the store is broken and must be opened again.
#[derive(Drop)]
pub struct Store {
    setup_length: u32,
    slot: Slot,
    generation: u64,
    // whether the gate of the other slot is open too
    other_open: bool,
    area: Area,
    broken: bool,
    // the zeros that clear a journal area
    zeros: Vec<u8>,
}

impl Model for Store {
    ghost use Rattle.std.specs.Prelude.{◌≡◌, ◌≤◌, ℕ, length, slice_index};
    ghost use Rattle.zh_journal.specs.declared.page.TheConstants.{AREA_LENGTH};
    ghost use Rattle.zh_snapshot.specs.Layout.{journal_at};
    ghost use Rattle.zh_snapshot.specs.Store.{State};
    ghost use Rattle.zh_snapshot.specs.declared.layout.TheConstants.{SETUP_LIMIT};

    ghost Value = { State };

    ghost view = { λ s. record {
      setup_length = s.setup_length;
      slot = s.slot;
      generation = s.generation;
      other_open = s.other_open;
      area = s.area;
      broken = s.broken;
    } };

    ghost invariant = { λ s. (s.setup_length ≤ SETUP_LIMIT) × (s.area.base ≡ journal_at s.slot)
        × (length s.zeros.items ≡ AREA_LENGTH) × ((k : ℕ) → slice_index s.zeros.items k ≡ 0) };
}

impl Store {
    /// Opens the store on a disk. Returns it with a reader, which goes through its records in order. Allocates memory, then
    /// syncs the disk, and after that only reads. The journal is read once. If memory is refused, the disk is untouched.
    pub fn open<D: Disk>(alloc: Global, disk: &mut D) -> Result<(Store, Reader), OpenFault>
        ensures call { Call store_open_fails OpensStore (D.history disk.old) (D.history disk.new) result }
        ensures whole { IfOk result (λ opened. opened.0.broken ≡ false) }
        ensures untouched { IsErrOf result OpenFault.Memory → disk.new ≡ disk.old }
    {
        let pages = zeros(alloc, AREA_LENGTH as usize)?;
        let zeros = zeros(alloc, AREA_LENGTH as usize)?;
        disk.sync()?;
        Store::read(disk, zeros, pages)
    }

    /// Opens the store on a disk, with reads only.
    fn read<D: Disk>(
        disk: &mut D,
        zeros: Vec<u8>,
        pages: Vec<u8>,
    ) -> Result<(Store, Reader), OpenFault>
        requires size { length zeros.items ≡ AREA_LENGTH }
        requires pages { length pages.items ≡ AREA_LENGTH }
        requires zero { (k : ℕ) → slice_index zeros.items k ≡ 0 }

        ensures call { Call store_open_fails (Asks ReadsStore) (D.history disk.old) (D.history disk.new) result }
        ensures whole { IfOk result (λ opened. opened.0.broken ≡ false) }
        ensures memory { result ≢ Err OpenFault.Memory }
    {
        let setup_length = open_header(disk)?;
        let Some(found) = find_slot(disk)? else {
            return Err(OpenFault::Damaged);
        };
        let (area, reader) = Area::open(disk, found.slot.journal(), pages)?;
        let store = Store {
            setup_length,
            slot: found.slot,
            generation: found.generation,
            other_open: found.other_open,
            area,
            broken: false,
            zeros,
        };
        Ok((store, reader))
    }

    /// Whether these are the disk's set-up bytes.
    pub fn setup_equals<D: Disk>(&self, disk: &mut D, setup: &[u8]) -> Result<bool, StoreFault>
        ensures call { Call is_err (Asks (ComparesSetup self.now.setup_length setup.now))
            (D.history disk.old) (D.history disk.new) result }
    {
        if setup.len() != self.setup_length as usize {
            return Ok(false);
        }
        stand_at(disk, SETUP, setup)
    }

    /// Reads the snapshot into the caller's buffer and returns that part of the buffer.
    pub fn snapshot<'b, D: Disk>(
        &self,
        disk: &mut D,
        buffer: &'b mut [u8],
    ) -> Result<&'b [u8], StoreFault>
        requires { SNAPSHOT_LENGTH ≤ length buffer.old }

        ensures call { Call is_err (Asks (λ bytes answer. (x : Content) (j : ℕ) → IsFramed x j bytes
            → IsInUse self.now.slot bytes → IfOk answer (λ payload. payload.now ≡ x.snapshot)))
            (D.history disk.old) (D.history disk.new) result }
        ensures len { IfOk result (λ payload. length payload.now ≡ SNAPSHOT_LENGTH) }
    {
        lend(disk, self.slot.snapshot(), SNAPSHOT_LENGTH, buffer)
    }

    /// Reads the payload of record `i`, counted from 0, into the caller's buffer and returns that part of the buffer, as
    /// `Area::record` does.
    pub fn record<'b, D: Disk>(
        &self,
        disk: &mut D,
        i: u32,
        buffer: &'b mut [u8],
    ) -> Result<&'b [u8], StoreFault>
        requires i { i < self.now.area.count }
        requires buffer { LONGEST_PAYLOAD ≤ length buffer.old }

        ensures call { Call is_err (Asks (λ bytes answer. (x : Content) (j : ℕ) → IsFramed x j bytes
            → IsInUse self.now.slot bytes → i < length x.records
            → IfOk answer (λ payload. slice_get x.records i ≡ Some payload.now)))
            (D.history disk.old) (D.history disk.new) result }
        ensures most { IfOk result (λ payload. length payload.now ≤ LONGEST_PAYLOAD) }
    {
        self.area.record(disk, i, buffer)
    }

    /// Whether a call that writes met a device fault, so that the store must be opened again.
    pub fn is_broken(&self) -> bool
        ensures { result ≡ self.now.broken }
    {
        self.broken
    }

    /// The number of records since the snapshot.
    pub fn records(&self) -> u32
        ensures { result ≡ self.now.area.count }
    {
        self.area.records()
    }

    /// The number of pages after the last record.
    pub fn pages_left(&self) -> u32
        ensures { result ≡ pages_left self.now.area }
    {
        self.area.pages_left()
    }

    /// The generation of the snapshot. Formatting begins at 1, and each switch adds 1, up to 2^64 - 1.
    pub fn generation(&self) -> u64
        ensures { result ≡ self.now.generation }
    {
        self.generation
    }

    /// Appends a record, as `Area::append` does. If the fault is `Device`, the store is broken from then on. If it is `Broken`
    /// or `Full`, nothing changes.
    pub fn append<D: Disk>(&mut self, disk: &mut D, payload: &[u8]) -> Result<(), AppendFault>
        requires some { 1 ≤ length payload.now }
        requires most { length payload.now ≤ LONGEST_PAYLOAD }

        ensures call { Call store_append_fails (StoreAppends self.old payload.now)
            (D.history disk.old) (D.history disk.new) result }
        ensures ok { OnOk result (self.new ≡ longer self.old (length payload.now)) }
        ensures device { IsErrOf result AppendFault.Device → self.new ≡ record self.old { broken = true } }
        ensures broken { (result ≡ Err AppendFault.Broken) ↔ (self.old.broken ≡ true) }
        ensures full { (result ≡ Err AppendFault.Full)
            ↔ ((self.old.broken ≡ false) × (pages_left self.old.area < pages_of (length payload.now))) }
        ensures untouched { (IsErrOf result AppendFault.Broken → (disk.new ≡ disk.old) × (self.new ≡ self.old))
            × (IsErrOf result AppendFault.Full → (disk.new ≡ disk.old) × (self.new ≡ self.old)) }
    {
        if self.broken {
            return Err(AppendFault::Broken);
        }
        match self.area.append(disk, payload) {
            Ok(()) => Ok(()),
            Err(zh_journal::AppendFault::Full) => Err(AppendFault::Full),
            Err(zh_journal::AppendFault::Device) => {
                self.broken = true;
                Err(AppendFault::Device)
            }
        }
    }
}

/// Whether the disk contains these bytes from this place on.
pub(crate) fn stand_at<D: Disk>(disk: &mut D, at: u64, bytes: &[u8]) -> Result<bool, DiskFault>
    requires { at + length bytes.now ≤ DISK_LENGTH }

    ensures call { Call is_err (Asks (λ stored answer. IfOk answer (λ equal.
        IsTrue equal ↔ (slice_range stored at (at + length bytes.now) ≡ bytes.now))))
        (D.history disk.old) (D.history disk.new) result }
{
    let mut buffer = [0; 256];
    let mut compared = 0;
    while compared < bytes.len() {
        let n = (bytes.len() - compared).min(256);
        let stored = lend(disk, at + compared as u64, n, &mut buffer)?;
        if stored != &bytes[compared..compared + n] {
            return Ok(false);
        }
        compared += n;
    }
    Ok(true)
}

/// Reads the `n` bytes from this place on into the caller's buffer and returns that part of the buffer.
pub(crate) fn lend<'b, D: Disk>(
    disk: &mut D,
    at: u64,
    n: usize,
    buffer: &'b mut [u8],
) -> Result<&'b [u8], DiskFault>
    requires room { at + n ≤ DISK_LENGTH }
    requires buffer { n ≤ length buffer.old }

    ensures call { Call is_err (Asks (λ stored answer. IfOk answer (λ lent. lent.now ≡ slice_range stored at (at + n))))
        (D.history disk.old) (D.history disk.new) result }
    ensures len { IfOk result (λ bytes. length bytes.now ≡ n) }
{
    disk.read_at(at, &mut buffer[..n])?;
    Ok(&buffer[..n])
}
