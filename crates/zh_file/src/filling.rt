//! Measuring and filling a locked file before it becomes a disk.
ghost use Rattle.std.specs.Prelude.{◌≡◌, ◌⊎◌, ◌<◌, ℕ, List, [], length, IfErr, IfOk, IsTrue, slice_index};
ghost use Rattle.std.specs.IoError.{error_kind};
ghost use Rattle.sqlite_disk.specs.Disk.{Only};
ghost use Rattle.zh_disk.specs.Disk.{disk_length};
ghost use Rattle.zh_film.specs.Past.{items};
ghost use Rattle.zh_file.specs.Files.{IsAsFound, IsFilling, LeavesNoMore};
ghost use Rattle.zh_file.specs.Stored.{IsZeroed};
ghost use Rattle.zh_file.specs.Locked.{IsAmong, IsFaultOf, IsLeftOf, LeavesOnly, setbacks_of, IsShort};
ghost use Rattle.zh_file.specs.Steps.{IsSetBack, IsUnfit, IsUnstarted};
ghost use Rattle.zh_file.specs.declared.filling.TheConstants.{BLOCK};

use crate::fault::{FileCause, FileFault, fault_of_found};
use crate::stored::Locked;
use sqlite_disk::Disk as File;
use std::io;
use zh_disk::DISK_LENGTH;

/// The length in bytes of a block, which is written in one call.
const BLOCK: usize = 9_728;

/// The number of blocks in a disk.
const BLOCKS: usize = 115;

/// A block of zeros.
fn block_of_zeros() -> [u8; BLOCK]
    ensures { (k : ℕ) → slice_index result k ≡ 0 }
{
    [0; BLOCK]
}

/// Writes a block of zeros over each block of a file that has the length of a disk.
fn write_blocks<D: File>(locked: &mut Locked<D>, zeros: &[u8]) -> io::Result<()>
    requires usable { IsTrue (D.is_usable locked.old.file) }
    requires long { length (D.seen locked.old.file) ≡ disk_length }
    requires block { length zeros.now ≡ BLOCK }
    requires zeros { (k : ℕ) → slice_index zeros.now k ≡ 0 }
    ensures kept { IsTrue (D.is_clean locked.new.file) → IsTrue (D.is_clean locked.old.file) }
    ensures usable { IsTrue (D.is_usable locked.new.file) }
    ensures unfailed { IfOk result (λ _. D.faults locked.new.file ≡ D.faults locked.old.file) }
    ensures failed { IfErr result (λ _. D.faults locked.old.file ≡ 0 → 0 < D.faults locked.new.file) }
    ensures zeroed { IfOk result (λ _. IsZeroed (D.seen locked.new.file)) }
    ensures short { LeavesOnly D.Disk IsShort locked.old → LeavesOnly D.Disk IsShort locked.new }
    ensures met { IfErr result (λ error. IsAmong (error_kind error) (items locked.new.failed)) }
{
    for block in 0..BLOCKS {
        locked.write_at(block * BLOCK, zeros)?;
    }
    Ok(())
}

/// Gives a file the length of a disk, writes zeros over all of it, and syncs it. If the volume has no room for them, this fails
/// here, and not when a command is stored.
pub(crate) fn take_space<D: File>(locked: &mut Locked<D>) -> io::Result<()>
    requires { IsTrue (D.is_usable locked.old.file) }
    ensures kept { IsTrue (D.is_clean locked.new.file) → IsTrue (D.is_clean locked.old.file) }
    ensures usable { IfOk result (λ _. IsTrue (D.is_usable locked.new.file)) }
    ensures unfailed { IfOk result (λ _. D.faults locked.new.file ≡ D.faults locked.old.file) }
    ensures failed { IfErr result (λ _. D.faults locked.old.file ≡ 0 → 0 < D.faults locked.new.file) }
    ensures synced { IfOk result (λ _. Only (D.seen locked.new.file) (D.may_leave locked.new.file)) }
    ensures zeroed { IfOk result (λ _. IsZeroed (D.seen locked.new.file)) }
    ensures short { LeavesOnly D.Disk IsShort locked.old → LeavesOnly D.Disk IsShort locked.new }
    ensures met { IfErr result (λ error. IsAmong (error_kind error) (items locked.new.failed)) }
{
    locked.set_len(DISK_LENGTH as usize)?;
    write_blocks(locked, &block_of_zeros())?;
    locked.sync()
}

impl<D: File> Locked<D> {
    /// Checks that the file has the length of a disk, now that it is locked.
    pub(crate) fn measure(&mut self) -> Result<(), FileFault>
        requires { IsTrue (D.is_usable self.old.file) }
        ensures kept { IsTrue (D.is_clean self.new.file) → IsTrue (D.is_clean self.old.file) }
        ensures same { D.seen self.new.file ≡ D.seen self.old.file }
        ensures usable { IsTrue (D.is_usable self.new.file) }
        ensures unfailed { IfOk result (λ _. D.faults self.new.file ≡ D.faults self.old.file) }
        ensures leaves { (c : List ℕ) → D.may_leave self.new.file c → D.may_leave self.old.file c }
        ensures left { LeavesNoMore (IsLeftOf D.Disk self.old) (IsLeftOf D.Disk self.new) }
        ensures long { IfOk result (λ _. IsTrue (D.is_clean self.new.file) → length (D.seen self.new.file) ≡ disk_length) }
        ensures fault { IfErr result (IsUnstarted (IsUnfit D.is_clean D.faults D.seen self.old.file)) }
        ensures met { IfErr result (IsFaultOf (setbacks_of D.Disk self.new)) }
    {
        let length = match self.len() {
            Ok(length) => length,
            Err(error) => return Err(fault_of_found(error)),
        };
        if length as u64 != DISK_LENGTH {
            return Err(FileFault::Device(FileCause::Failed));
        }
        Ok(())
    }

    /// Fills the file with zeros if it is empty. If that fails, tries to set its length back to 0, so that it can be filled another
    /// time, unless the sync failed: after that the file must not be used. A file that is not empty keeps its bytes at each moment.
    pub(crate) fn fill(&mut self) -> io::Result<()>
        requires usable { IsTrue (D.is_usable self.old.file) }
        requires synced { Only (D.seen self.old.file) (D.may_leave self.old.file) }
        ensures kept { IsTrue (D.is_clean self.new.file) → IsTrue (D.is_clean self.old.file) }
        ensures same { IsTrue (D.is_clean self.new.file) → (D.seen self.old.file ≡ []) ⊎ (D.seen self.new.file ≡ D.seen self.old.file) }
        ensures usable { IfOk result (λ _. IsTrue (D.is_usable self.new.file)) }
        ensures unfailed { IfOk result (λ _. D.faults self.new.file ≡ D.faults self.old.file) }
        ensures failed { IfErr result (λ _. D.faults self.old.file ≡ 0 → 0 < D.faults self.new.file) }
        ensures synced { IfOk result (λ _. Only (D.seen self.new.file) (D.may_leave self.new.file)) }
        ensures zeroed { IfOk result (λ _. IsTrue (D.is_clean self.new.file) → D.seen self.old.file ≡ []
            → IsZeroed (D.seen self.new.file)) }
        ensures set_back { IfErr result (λ _. IsTrue (D.is_clean self.new.file)
            → IsSetBack D.seen D.is_usable D.faults self.old.file self.new.file) }
        ensures met { IfErr result (λ error. IsAmong (error_kind error) (items self.new.failed)) }
        ensures left { LeavesOnly D.Disk (IsAsFound (D.seen self.old.file)) self.old
            → LeavesOnly D.Disk (IsFilling (D.seen self.old.file)) self.new }
    {
        if self.len()? != 0 {
            return Ok(());
        }
        let taken = take_space(self);
        if taken.is_err() && self.may_be_used() {
            let _also_failed = self.set_len(0);
        }
        taken
    }
}
