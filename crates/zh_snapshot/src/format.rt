//! Formatting a disk.
ghost use Rattle.std.specs.Prelude.{◌≡◌, ◌≤◌, ℕ, length, slice_index, IsErrOf, is_err};
ghost use Rattle.zh_disk.specs.History.{Call};
ghost use Rattle.zh_snapshot.specs.Faults.{store_format_fails};
ghost use Rattle.zh_snapshot.specs.Calls.{ClosesDisk, WritesParts, EmptiesSlots, FormatsStore};
ghost use Rattle.zh_snapshot.specs.declared.layout.TheConstants.{SETUP_LIMIT, SNAPSHOT_LENGTH};

use crate::fault::FormatFault;
use crate::layout::{HEADER, SETUP, Slot, header_bytes};
use crate::refill::zeros;
use crate::store::Store;
use std::alloc::Global;
use zh_disk::{Disk, DiskFault};
use zh_journal::{AREA_LENGTH, Area, OPEN_GATE, open_gate};

/// Syncs the disk and closes its gate if that is open.
fn close_disk<D: Disk>(disk: &mut D) -> Result<(), DiskFault>
    ensures call { Call is_err ClosesDisk (D.history disk.old) (D.history disk.new) result }
{
    disk.sync()?;
    let mut gate = [0];
    disk.read_at(0, &mut gate)?;
    if gate[0] == OPEN_GATE {
        disk.write_at(0, &[0])?;
        disk.sync()?;
    }
    Ok(())
}

/// Writes the header, the set-up bytes, and the first slot's head and snapshot.
fn write_parts<D: Disk>(disk: &mut D, setup: &[u8], first: &[u8]) -> Result<(), DiskFault>
    requires setup { length setup.now ≤ SETUP_LIMIT }
    requires first { length first.now ≡ SNAPSHOT_LENGTH }

    ensures call { Call is_err (WritesParts setup.now first.now)
        (D.history disk.old) (D.history disk.new) result }
{
    disk.write_at(HEADER, &header_bytes(setup.len() as u32))?;
    disk.write_at(SETUP, setup)?;
    disk.write_at(Slot::First.head(), &[OPEN_GATE, 0, 0, 0, 0, 0, 0, 0, 1])?;
    disk.write_at(Slot::First.snapshot(), first)
}

/// Writes zeros over the first slot's journal and the second slot's head.
fn empty_slots<D: Disk>(disk: &mut D, zeros: &[u8]) -> Result<(), DiskFault>
    requires size { length zeros.now ≡ AREA_LENGTH }
    requires zero { (k : ℕ) → slice_index zeros.now k ≡ 0 }

    ensures call { Call is_err EmptiesSlots (D.history disk.old) (D.history disk.new) result }
{
    Area::clear(disk, Slot::First.journal(), zeros)?;
    disk.write_at(Slot::Second.head(), &[0; 9])?;
    Ok(())
}

impl Store {
    /// Formats a disk, whatever it holds, as a store with these set-up bytes, this snapshot and no records.
    pub fn format<D: Disk>(
        alloc: Global,
        disk: &mut D,
        setup: &[u8],
        first: &[u8],
    ) -> Result<(), FormatFault>
        requires setup { length setup.now ≤ SETUP_LIMIT }
        requires first { length first.now ≡ SNAPSHOT_LENGTH }

        ensures call { Call store_format_fails (FormatsStore setup.now first.now)
            (D.history disk.old) (D.history disk.new) result }
        ensures untouched { IsErrOf result FormatFault.Memory → disk.new ≡ disk.old }
    {
        let zeros = zeros(alloc, AREA_LENGTH as usize)?;
        close_disk(disk)?;
        write_parts(disk, setup, first)?;
        empty_slots(disk, &zeros)?;
        open_gate(disk, 0)?;
        Ok(())
    }
}
