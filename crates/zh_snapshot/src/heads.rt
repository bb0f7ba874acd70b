//! Reading the heads of a disk and of its slots.
ghost use Rattle.std.specs.Prelude.{◌≢◌, ◌≤◌, ℕ, List, Some, IfOk, is_err};
ghost use Rattle.zh_disk.specs.Disk.{Asks};
ghost use Rattle.zh_disk.specs.History.{Call};
ghost use Rattle.zh_snapshot.specs.Faults.{store_open_fails};
ghost use Rattle.zh_snapshot.specs.Calls.{FindsHeader};
ghost use Rattle.zh_snapshot.specs.Slots.{HasHead, IsFound};
ghost use Rattle.zh_snapshot.specs.declared.layout.Slot.TheVariants.{First, Second};
ghost use Rattle.zh_snapshot.specs.declared.layout.TheConstants.{SETUP_LIMIT};

use crate::fault::OpenFault;
use crate::layout::{Slot, setup_length};
use zh_disk::{Disk, DiskFault};
use zh_journal::OPEN_GATE;

/// Reads the disk's gate and header. Returns the length of the set-up bytes.
pub(crate) fn open_header<D: Disk>(disk: &mut D) -> Result<u32, OpenFault>
    ensures call { Call store_open_fails (Asks FindsHeader) (D.history disk.old) (D.history disk.new) result }
    ensures most { IfOk result (λ len. len ≤ SETUP_LIMIT) }
    ensures memory { result ≢ Err OpenFault.Memory }
{
    let mut head = [0; 15];
    disk.read_at(0, &mut head)?;
    if head[0] != OPEN_GATE {
        return Err(OpenFault::Blank);
    }
    let Some(len) = setup_length(&head[1..]) else {
        return Err(OpenFault::Damaged);
    };
    Ok(len)
}

/// Reads the generation of a slot. `None` if its gate is closed.
fn read_head<D: Disk>(disk: &mut D, slot: Slot) -> Result<Option<u64>, DiskFault>
    ensures call { Call is_err (Asks (λ bytes answer. IfOk answer (λ found. HasHead slot found bytes)))
        (D.history disk.old) (D.history disk.new) result }
{
    let mut head = [0; 9];
    disk.read_at(slot.head(), &mut head)?;
    let [gate, a, b, c, d, e, f, g, h] = head;
    if gate != OPEN_GATE {
        return Ok(None);
    }
    Ok(Some(u64::from_be_bytes([a, b, c, d, e, f, g, h])))
}

/// The slot in use.
#[derive(Clone, Copy)]
pub(crate) struct InUse {
    pub(crate) slot: Slot,
    pub(crate) generation: u64,
    /// whether the gate of the other slot is open too
    pub(crate) other_open: bool,
}

/// The slot in use if both gates are open: the one with the greater generation. `None` if the generations are equal.
fn newer(first: u64, second: u64) -> Option<InUse>
    ensures { (c : List ℕ) → HasHead First (Some first) c → HasHead Second (Some second) c → IsFound result c }
{
    let (slot, generation) = if first > second {
        (Slot::First, first)
    } else if second > first {
        (Slot::Second, second)
    } else {
        return None;
    };
    Some(InUse {
        slot,
        generation,
        other_open: true,
    })
}

/// The slot in use: the one with an open gate or, if both are open, the newer one. `None` if no gate is open, or if both are open
/// with equal generations.
fn in_use(first: Option<u64>, second: Option<u64>) -> Option<InUse>
    ensures { (c : List ℕ) → HasHead First first c → HasHead Second second c → IsFound result c }
{
    let (slot, generation) = match (first, second) {
        (None, None) => return None,
        (Some(generation), None) => (Slot::First, generation),
        (None, Some(generation)) => (Slot::Second, generation),
        (Some(one), Some(two)) => return newer(one, two),
    };
    Some(InUse {
        slot,
        generation,
        other_open: false,
    })
}

/// Reads the heads of both slots and finds the slot in use, as `in_use` does.
pub(crate) fn find_slot<D: Disk>(disk: &mut D) -> Result<Option<InUse>, DiskFault>
    ensures call { Call is_err (Asks (λ bytes answer. IfOk answer (λ found. IsFound found bytes)))
        (D.history disk.old) (D.history disk.new) result }
{
    let first = read_head(disk, Slot::First)?;
    let second = read_head(disk, Slot::Second)?;
    Ok(in_use(first, second))
}
