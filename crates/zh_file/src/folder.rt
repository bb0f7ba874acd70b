//! The calls at paths.
ghost use Rattle.std.specs.Prelude.{◌≡◌, ℕ, List, Option, IfOk, IfSome, string_bytes};
ghost use Rattle.zh_file.specs.Failures.{FailedCall, asked_with, locked_with};
ghost use Rattle.zh_file.specs.Places.{IfKnown, companion_of, found_at};
ghost use Rattle.zh_file.specs.Places.Standing.{nothing};
ghost use Rattle.zh_file.specs.Folder.{AsksForText, LooksAt, ActsAt, Folders, IsEmptyFile, IsKind, LeavesRest, Locks, Makes, Removes};
ghost use Rattle.zh_file.specs.Folder.{SaysWhy, Unlocks, bytes_known, noted_at};
ghost use Rattle.zh_file.specs.Locked.{IsJustLocked, IsLeftOf, noted_all, setbacks_of};

use crate::stored::Locked;
use sqlite_disk::Disk as File;
use sqlite_std_file::OpenError;
use std::io::{self, Read};

/// What is at a path, after links are followed.
#[derive(Clone, Copy)]
pub enum Found {
    /// A regular file with this many bytes.
    File(u64),
    Folder,
    /// Anything else, for example a pipe or a device.
    Other,
}

/// The calls at paths.
///
/// `known` is a model of what is at each path. Of some folders nothing is known. A file that was locked is changed by its own
/// calls, which the model does not follow.
pub trait Folder {
    /// The reader of a text.
    type Text: Read + Drop;
    /// The file of a disk. Code that is generic over folders can't drop one: it must hand over or unlock what it has locked.
    type File: File;
    /// The companion of a disk, locked with it. It has no calls.
    type Companion: Drop;
    /// The right to lock one disk. Code that is generic over folders can neither make nor copy one.
    type Right: Drop;

    /// What is at each path, how many calls have failed, and how many locks were refused, if that is known.
    ghost known: { Self → Option Folders };

    /// What a stop can have left of a file that was locked and then unlocked, at any moment in between, if all of its answers
    /// were right.
    ghost left: { Self → List ℕ → Type 0 };

    /// The bytes of the disk's file at this path when it is locked, if they are known; empty if there is no file.
    ghost disk_at: { Self → List ℕ → Option (List ℕ) };

    /// The calls that failed, the latest first, each with its path and how it failed.
    ghost failed: { Self → List FailedCall };

    /// How often a text was asked for.
    ghost texts: { Self → ℕ };

    /// Looks at what is at this path. Fails if nothing is there. If an error says what is there, or that nothing is, this is true.
    fn kind(&mut self, path: &str) -> io::Result<Found>
        ensures rest { LeavesRest disk_at left texts self.old self.new }
        ensures noted { failed self.new ≡ noted_at path.now asked_with result (failed self.old) }
        ensures call { IfKnown (LooksAt (λ places. IsKind (found_at places path.now)) result) (known self.old) (known self.new) }
        ensures why { SaysWhy (known self.old) path.now result };

    /// The path of the companion of the disk at this path, after links are followed.
    fn companion(&mut self, path: &str) -> io::Result<String>
        ensures rest { LeavesRest disk_at left texts self.old self.new }
        ensures noted { failed self.new ≡ noted_at path.now asked_with result (failed self.old) }
        ensures call { IfKnown (LooksAt (λ places name. string_bytes name ≡ companion_of places path.now) result)
            (known self.old) (known self.new) };

    /// Opens the text at this path for reading, from its first byte.
    fn text(&mut self, path: &str) -> io::Result<Self::Text>
        ensures rest { AsksForText disk_at left texts self.old self.new }
        ensures noted { failed self.new ≡ noted_at path.now asked_with result (failed self.old) }
        ensures bytes { IfOk result (λ text. Self.Text.remaining text ≡ bytes_known (known self.old) path.now) }
        ensures call { IfKnown (LooksAt (λ _ _. Unit {0}) result) (known self.old) (known self.new) }
        ensures why { SaysWhy (known self.old) path.now result };

    /// Makes an empty file if there is nothing at this path.
    fn make(&mut self, path: &str) -> io::Result<()>
        ensures rest { LeavesRest disk_at left texts self.old self.new }
        ensures noted { failed self.new ≡ noted_at path.now asked_with result (failed self.old) }
        ensures call { IfKnown (ActsAt (Makes path.now) result) (known self.old) (known self.new) }
        ensures why { SaysWhy (known self.old) path.now result };

    /// Opens and locks the disk at this path and its companion, for this program alone, until both are dropped. Makes each of
    /// them if it is missing. After that the device has what a read gives.
    fn lock(
        &mut self,
        right: Self::Right,
        path: &str,
    ) -> Result<(Locked<Self::File>, Self::Companion), OpenError>
        ensures rest { LeavesRest disk_at left texts self.old self.new }
        ensures noted { failed self.new ≡ noted_at path.now locked_with result (failed self.old) }
        ensures fresh { IfOk result (λ both. IsJustLocked Self.File.Disk both.0) }
        ensures begins { IfOk result (λ both. IfSome (disk_at self.old path.now) (λ bytes. Self.File.seen both.0.file ≡ bytes)) }
        ensures call { IfKnown (Locks path.now (λ both. Self.File.seen both.0.file) result) (known self.old) (known self.new) };

    /// Removes the companion at this path. It was found empty while it was locked, and it is still locked.
    fn remove(&mut self, path: &str, locked: &Self::Companion) -> io::Result<()>
        requires { IfSome (known self.old) (λ now. IsEmptyFile path.now now.places) }
        ensures rest { LeavesRest disk_at left texts self.old self.new }
        ensures noted { failed self.new ≡ noted_at path.now asked_with result (failed self.old) }
        ensures call { IfKnown (ActsAt (Removes path.now) result) (known self.old) (known self.new) }
        ensures gone { IfOk result (λ _. IfSome (known self.new) (λ now. now.places.stands path.now ≡ nothing)) };

    /// Unlocks the file of the disk at this path by dropping it, as it is. Notes its failed calls and, if it is not fit to be a
    /// disk's, that too.
    fn unlock(&mut self, path: &str, locked: Locked<Self::File>)
        ensures unlocks { Unlocks disk_at known left (IsLeftOf Self.File.Disk locked) self.old self.new }
        ensures texts { texts self.new ≡ texts self.old }
        ensures noted { failed self.new ≡ noted_all path.now (setbacks_of Self.File.Disk locked) (failed self.old) };
}
