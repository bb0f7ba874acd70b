//! Rewriting a shadow slot: its gate, the commit byte, is closed first and opened last.
ghost use Rattle.std.specs.Prelude.{◌≡◌, ℕ, length, slice_index, IfOk, is_err};
ghost use Rattle.zh_disk.specs.Disk.{Changes, Lands};
ghost use Rattle.zh_disk.specs.History.{Call};
ghost use Rattle.zh_snapshot.specs.Calls.{ClosesSlot, FillsSlot};
ghost use Rattle.zh_snapshot.specs.Layout.{journal_at};
ghost use Rattle.zh_snapshot.specs.Slots.{Refills, IsRefilled};
ghost use Rattle.zh_snapshot.specs.declared.layout.TheConstants.{SNAPSHOT_LENGTH};

use crate::layout::Slot;
use std::alloc::{AllocError, Global};
use zh_disk::{Disk, DiskFault};
use zh_journal::{AREA_LENGTH, Area, open_gate};

/// Closes the slot's gate if `is_open` says that it is open.
fn close_slot<D: Disk>(disk: &mut D, slot: Slot, is_open: bool) -> Result<(), DiskFault>
    ensures call { Call is_err (ClosesSlot slot is_open) (D.history disk.old) (D.history disk.new) result }
{
    if is_open {
        disk.write_at(slot.head(), &[0])?;
        disk.sync()?;
    }
    Ok(())
}

/// Writes everything after the slot's gate: the generation, the snapshot, and a journal without records.
fn fill_slot<D: Disk>(
    disk: &mut D,
    slot: Slot,
    generation: u64,
    payload: &[u8],
    zeros: &[u8],
) -> Result<Area, DiskFault>
    requires payload { length payload.now ≡ SNAPSHOT_LENGTH }
    requires size { length zeros.now ≡ AREA_LENGTH }
    requires zero { (k : ℕ) → slice_index zeros.now k ≡ 0 }

    ensures call { Call is_err (FillsSlot slot generation payload.now)
        (D.history disk.old) (D.history disk.new) result }
    ensures empty { IfOk result (λ a. a ≡ record { base = journal_at slot; end = 0; count = 0 }) }
{
    disk.write_at(slot.generation(), &generation.to_be_bytes())?;
    disk.write_at(slot.snapshot(), payload)?;
    Area::clear(disk, slot.journal(), zeros)
}

/// Closes a slot's gate if `is_open` says that it is open, rewrites the slot, and opens the gate at the end.
pub(crate) fn refill<D: Disk>(
    disk: &mut D,
    slot: Slot,
    is_open: bool,
    generation: u64,
    payload: &[u8],
    zeros: &[u8],
) -> Result<Area, DiskFault>
    requires payload { length payload.now ≡ SNAPSHOT_LENGTH }
    requires size { length zeros.now ≡ AREA_LENGTH }
    requires zero { (k : ℕ) → slice_index zeros.now k ≡ 0 }

    ensures call { Call is_err
        (Changes (Refills slot is_open generation payload.now) (Lands (IsRefilled slot generation payload.now)))
        (D.history disk.old) (D.history disk.new) result }
    ensures empty { IfOk result (λ a. a ≡ record { base = journal_at slot; end = 0; count = 0 }) }
{
    close_slot(disk, slot, is_open)?;
    let area = fill_slot(disk, slot, generation, payload, zeros)?;
    open_gate(disk, slot.head())?;
    Ok(area)
}

/// A vector of `n` zeros.
pub(crate) fn zeros(alloc: Global, n: usize) -> Result<Vec<u8>, AllocError>
    ensures len { IfOk result (λ v. length v.items ≡ n) }
    ensures zero { IfOk result (λ v. (k : ℕ) → slice_index v.items k ≡ 0) }
{
    vec![in alloc; 0; n]
}
