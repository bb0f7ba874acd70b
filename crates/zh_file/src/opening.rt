//! Opening a disk over the file at a path in a folder.
ghost use Rattle.std.specs.Prelude.{◌≡◌, ◌↔◌, ◌⊎◌, ℕ, List, length, false, IfErr, IfOk, IfSome, IsTrue};
ghost use Rattle.sqlite_disk.specs.Disk.{Only};
ghost use Rattle.zh_disk.specs.Disk.{disk_length, fresh_trail};
ghost use Rattle.zh_file.specs.Failures.{ForgetsNone, Meets};
ghost use Rattle.zh_file.specs.Files.{BeginsWith, IsAsFound, IsFilling, LeavesOf};
ghost use Rattle.zh_file.specs.Places.{IfKnown, companion_of};
ghost use Rattle.zh_file.specs.Folder.{LeavesRest};
ghost use Rattle.zh_file.specs.Locked.{IsJustLocked, IsLeftOf};
ghost use Rattle.zh_file.specs.Opening.{HasFailed, OpensDisk, OpensOrMakesDisk};
ghost use Rattle.zh_file.specs.Steps.{IsRidOfCompanion, IsUnfit, IsUnstarted, LeavesCompanion, Measures, TakesLock};
ghost use Rattle.zh_file.specs.Stored.{IsLeftOpening, stored_history, is_over, IsWhole};

use crate::fault::{FileCause, FileFault, fault_of_found, fault_of_opening};
use crate::folder::{Folder, Found};
use crate::stored::{Locked, Stored};
use std::io;
use zh_disk::DISK_LENGTH;

/// Opens the file at this path as a disk, for this program alone. Fails if it does not have [`DISK_LENGTH`] bytes.
pub fn open<F: Folder>(
    folder: &mut F,
    right: F::Right,
    path: &str,
) -> Result<Stored<F::File>, FileFault>
    ensures disks { F.disk_at folder.new ≡ F.disk_at folder.old }
    ensures texts { F.texts folder.new ≡ F.texts folder.old }
    ensures meets { Meets path.now result (F.failed folder.old) (F.failed folder.new) }
    ensures begins { IfOk result (λ d. IfSome (F.disk_at folder.old path.now) (λ bytes. (stored_history d).trail ≡ fresh_trail bytes)) }
    ensures whole { IfOk result IsWhole }
    ensures opening { IfOk result (λ d. (c : List ℕ) → IsLeftOpening d c → IfSome (F.disk_at folder.old path.now) (λ bytes. c ≡ bytes)) }
    ensures leaves { LeavesOf IsAsFound (F.disk_at folder.old path.now) (F.left folder.old) (F.left folder.new) }
    ensures cleared { IfOk result (λ _. IfSome (F.known folder.new)
        (IsRidOfCompanion path.now (F.failed folder.old) (F.failed folder.new))) }
    ensures opens { IfKnown (OpensDisk (HasFailed F.File.is_clean F.File.faults) path.now
        (λ d. (stored_history d).trail.now.bytes) result) (F.known folder.old) (F.known folder.new) }
{
    // What is no disk is left alone: the lock makes a file that is missing, and one beside it.
    let length = length_at(folder, path)?;
    if length != DISK_LENGTH {
        return Err(FileFault::Size(length));
    }
    let locked = lock(folder, right, path)?;
    hand_over(folder, path, locked)
}

/// Opens the file at this path as [`open`] does. If there is none, makes one of zeros, for its owner
/// alone.
///
/// An empty file is taken for one that an earlier call of this function made before it was stopped, and is filled.
pub fn open_or_make<F: Folder>(
    folder: &mut F,
    right: F::Right,
    path: &str,
) -> Result<Stored<F::File>, FileFault>
    ensures disks { F.disk_at folder.new ≡ F.disk_at folder.old }
    ensures texts { F.texts folder.new ≡ F.texts folder.old }
    ensures meets { Meets path.now result (F.failed folder.old) (F.failed folder.new) }
    ensures begins { IfOk result (λ d. IsTrue (stored_history d).honest
        → IfSome (F.disk_at folder.old path.now) (λ bytes. BeginsWith bytes (stored_history d).trail)) }
    ensures whole { IfOk result IsWhole }
    ensures opening { IfOk result (λ d. (c : List ℕ) → IsLeftOpening d c
        → IfSome (F.disk_at folder.old path.now) (λ bytes. IsFilling bytes c)) }
    ensures leaves { LeavesOf IsFilling (F.disk_at folder.old path.now) (F.left folder.old) (F.left folder.new) }
    ensures long { IfOk result (λ d. IsTrue (stored_history d).honest → length (stored_history d).trail.now.bytes ≡ disk_length) }
    ensures cleared { IfOk result (λ _. IfSome (F.known folder.new)
        (IsRidOfCompanion path.now (F.failed folder.old) (F.failed folder.new))) }
    ensures opens { IfKnown (OpensOrMakesDisk (HasFailed F.File.is_clean F.File.faults) path.now (λ d. stored_history d) result)
        (F.known folder.old) (F.known folder.new) }
{
    folder.make(path)?;
    let length = length_at(folder, path)?;
    if length != 0 && length != DISK_LENGTH {
        return Err(FileFault::Size(length));
    }
    let mut locked = lock(folder, right, path)?;
    match locked.fill() {
        Ok(()) => hand_over(folder, path, locked),
        Err(error) => {
            folder.unlock(path, locked);
            Err(fault_of_found(error))
        }
    }
}

/// The length of the regular file at this path, after links are followed.
fn length_at<F: Folder>(folder: &mut F, path: &str) -> Result<u64, FileFault>
    ensures rest { LeavesRest F.disk_at F.left F.texts folder.old folder.new }
    ensures meets { Meets path.now result (F.failed folder.old) (F.failed folder.new) }
    ensures measures { IfKnown (Measures path.now result) (F.known folder.old) (F.known folder.new) }
{
    let found = folder.kind(path)?;
    match found {
        Found::File(length) => Ok(length),
        Found::Folder => Err(FileFault::Device(FileCause::Folder)),
        Found::Other => Err(FileFault::Device(FileCause::Special)),
    }
}

/// Opens and locks the file at this path, and tries to remove its companion if that is empty. After that the device has what a
/// read gives.
fn lock<F: Folder>(
    folder: &mut F,
    right: F::Right,
    path: &str,
) -> Result<Locked<F::File>, FileFault>
    ensures rest { LeavesRest F.disk_at F.left F.texts folder.old folder.new }
    ensures fresh { IfOk result (IsJustLocked F.File.Disk) }
    ensures begins { IfOk result (λ locked. IfSome (F.disk_at folder.old path.now) (λ bytes. F.File.seen locked.file ≡ bytes)) }
    ensures meets { Meets path.now result (F.failed folder.old) (F.failed folder.new) }
    ensures cleared { IfOk result (λ _. IfSome (F.known folder.new)
        (IsRidOfCompanion path.now (F.failed folder.old) (F.failed folder.new))) }
    ensures locks { IfKnown (TakesLock path.now (λ locked. F.File.seen locked.file) result) (F.known folder.old) (F.known folder.new) }
{
    let (locked, companion) = match folder.lock(right, path) {
        Ok(both) => both,
        Err(error) => return Err(fault_of_opening(error)),
    };
    let _left_there = clear_companion(folder, path, &companion);
    Ok(locked)
}

/// Whether this is an empty file.
fn is_empty(found: Found) -> bool
    ensures { IsTrue result ↔ (found ≡ Found.File 0) }
{
    matches!(found, Found::File(0))
}

/// Removes the companion, which the library makes next to the disk, if it is empty. Only the holder of the lock does so. If a
/// stop comes first, the companion stays, and the next opening removes it.
fn clear_companion<F: Folder>(folder: &mut F, path: &str, locked: &F::Companion) -> io::Result<()>
    requires { IfSome (F.known folder.old)
        (λ now. now.places.leads (companion_of now.places path.now) ≡ companion_of now.places path.now) }
    ensures rest { LeavesRest F.disk_at F.left F.texts folder.old folder.new }
    ensures goes { ForgetsNone (F.failed folder.old) (F.failed folder.new) }
    ensures cleared { IfSome (F.known folder.new) (IsRidOfCompanion path.now (F.failed folder.old) (F.failed folder.new)) }
    ensures clears { IfKnown (LeavesCompanion path.now) (F.known folder.old) (F.known folder.new) }
{
    let companion = folder.companion(path)?;
    let name = companion.as_str();
    let found = folder.kind(name)?;
    if is_empty(found) {
        return folder.remove(name, locked);
    }
    Ok(())
}

/// Makes a locked file a disk if it has the length of one. If not, or if it can't be measured, unlocks it.
fn hand_over<F: Folder>(
    folder: &mut F,
    path: &str,
    mut locked: Locked<F::File>,
) -> Result<Stored<F::File>, FileFault>
    requires usable { IsTrue (F.File.is_usable locked.file) }
    requires synced { Only (F.File.seen locked.file) (F.File.may_leave locked.file) }
    ensures kept { IfOk result (λ d. IsTrue (stored_history d).honest → IsTrue (F.File.is_clean locked.file)) }
    ensures begins { IfOk result (λ d. (stored_history d).trail ≡ fresh_trail (F.File.seen locked.file)) }
    ensures failures { IfOk result (λ d. (stored_history d).failures ≡ F.File.faults locked.file) }
    ensures whole { IfOk result (λ d. is_over d ≡ false) }
    ensures fault { IfErr result (IsUnstarted (IsUnfit F.File.is_clean F.File.faults F.File.seen locked.file)) }
    ensures same { (F.disk_at folder.new ≡ F.disk_at folder.old) × (F.known folder.new ≡ F.known folder.old) }
    ensures texts { F.texts folder.new ≡ F.texts folder.old }
    ensures meets { Meets path.now result (F.failed folder.old) (F.failed folder.new) }
    ensures opening { IfOk result (λ d. (c : List ℕ) → IsLeftOpening d c → IsLeftOf F.File.Disk locked c) }
    ensures leaves { (c : List ℕ) → F.left folder.new c → IsLeftOf F.File.Disk locked c ⊎ F.left folder.old c }
{
    match locked.measure() {
        Ok(()) => Ok(locked.start()),
        Err(fault) => {
            folder.unlock(path, locked);
            Err(fault)
        }
    }
}
