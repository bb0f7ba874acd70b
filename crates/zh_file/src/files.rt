//! The texts and disks that the program opens by their paths, and those in a folder.
ghost use Rattle.std.specs.Prelude.{◌≡◌, ℕ, List, Option, IfOk, ◌+◌, None, Some, MatchResult, option_map};
ghost use Rattle.zh_film.specs.Past.{number};
ghost use Rattle.zh_file.specs.Causes.{EndsAt};
ghost use Rattle.zh_file.specs.Failures.{FailedCall, Meets};
ghost use Rattle.zh_file.specs.Files.{Begins, BeginsOrIsMade, IsAsFound, IsCallOfFiles, IsFilling, IsReadOfFiles, LeavesNoMore, LeavesOf};
ghost use Rattle.zh_file.specs.Places.{IfKnown, Places, TouchesOnly};
ghost use Rattle.zh_file.specs.Folder.{bytes_known};

use crate::fault::FileFault;
use crate::folder::Folder;
use crate::opening::{open, open_or_make};
use crate::stored::Stored;
use std::io::Read;
use zh_disk::Disk;
use zh_film::Past;

/// Texts and disks by their paths.
pub trait Files {
    ghost use Rattle.zh_file.specs.declared.fault.FileFault.{FileFault};

    /// The reader of a text.
    type Text: Read + Drop;
    /// A disk. Code that is generic over files can't drop one: it must hand over what it has opened.
    type Disk: Disk;
    /// The right to one disk. Code that is generic over files can neither make nor copy one, so it opens at most as many disks as
    /// it has rights.
    type Right: Drop;

    /// The bytes of the text at this path, if they are known.
    ghost text_at: { Self → List ℕ → Option (List ℕ) };

    /// The bytes with which the disk at this path begins, if they are known; empty if there is no disk.
    ghost disk_at: { Self → List ℕ → Option (List ℕ) };

    /// What is at each path, if that is known: as it was found or left, except for what is written through the disks that were
    /// opened.
    ghost places: { Self → Option Places };

    /// What a stop can have left of a file that was locked but did not become a disk, at any moment since its lock, if all of its
    /// answers were right.
    ghost left: { Self → List ℕ → Type 0 };

    /// How many calls were made.
    ghost calls: { Self → ℕ };

    /// The fault of the last call, if it failed.
    ghost fault: { Self → Option FileFault };

    /// The calls of the system that failed, the latest first.
    ghost failed: { Self → List FailedCall };

    /// Opens the text at this path, from its first byte.
    fn text(&mut self, path: &str) -> Result<Self::Text, FileFault>
        ensures call { IsReadOfFiles text_at disk_at places calls self.old self.new }
        ensures leaves { LeavesNoMore (left self.old) (left self.new) }
        ensures ends { EndsAt (places self.old) path.now (fault self.new) result }
        ensures meets { Meets path.now result (failed self.old) (failed self.new) }
        ensures bytes { IfOk result (λ text. Self.Text.remaining text ≡ text_at self.old path.now) };

    /// Opens the disk at this path.
    fn disk(&mut self, right: Self::Right, path: &str) -> Result<Self::Disk, FileFault>
        ensures call { IsCallOfFiles text_at disk_at calls self.old self.new }
        ensures touches { IfKnown (TouchesOnly path.now) (places self.old) (places self.new) }
        ensures leaves { LeavesOf IsAsFound (disk_at self.old path.now) (left self.old) (left self.new) }
        ensures ends { EndsAt (places self.old) path.now (fault self.new) result }
        ensures meets { Meets path.now result (failed self.old) (failed self.new) }
        ensures begins { IfOk result (λ disk. Begins (disk_at self.old path.now) (Self.Disk.history disk)) };

    /// Opens the disk at this path. If there is no file or an empty one, makes a disk of zeros.
    fn disk_or_make(&mut self, right: Self::Right, path: &str) -> Result<Self::Disk, FileFault>
        ensures call { IsCallOfFiles text_at disk_at calls self.old self.new }
        ensures touches { IfKnown (TouchesOnly path.now) (places self.old) (places self.new) }
        ensures leaves { LeavesOf IsFilling (disk_at self.old path.now) (left self.old) (left self.new) }
        ensures ends { EndsAt (places self.old) path.now (fault self.new) result }
        ensures meets { Meets path.now result (failed self.old) (failed self.new) }
        ensures begins { IfOk result (λ disk. BeginsOrIsMade (disk_at self.old path.now) (Self.Disk.history disk)) };
}

/// The texts and the disks in a folder.
#[derive(Drop)]
pub struct FolderFiles<F: Folder + Drop> {
    folder: F,
    // how many disks were asked for
    disks: Past<()>,
    // the fault of the last call, if it failed
    fault: Option<FileFault>,
}

impl<F: Folder + Drop> FolderFiles<F> {
    /// The files of this folder.
    pub fn new(folder: F) -> FolderFiles<F>
        ensures folder { result.folder ≡ folder }
        ensures unmade { number result.disks ≡ 0 }
        ensures unfailed { result.fault ≡ None }
    {
        FolderFiles {
            folder,
            disks: Past::new(),
            fault: None,
        }
    }
}

/// Notes how a call ended, and returns its result.
fn noted<T>(fault: &mut Option<FileFault>, opened: Result<T, FileFault>) -> Result<T, FileFault>
    ensures same { result ≡ opened }
    ensures noted { MatchResult result (λ _. fault.new ≡ None) (λ met. fault.new ≡ Some met) }
{
    match opened {
        Ok(it) => {
            *fault = None;
            Ok(it)
        }
        Err(met) => {
            *fault = Some(met);
            Err(met)
        }
    }
}

impl<F: Folder + Drop> Files for FolderFiles<F> {
    type Text = F::Text;

    type Disk = Stored<F::File>;

    type Right = F::Right;

    ghost text_at = { λ files. bytes_known (F.known files.folder) };

    ghost disk_at = { λ files. F.disk_at files.folder };

    ghost places = { λ files. option_map (λ known. known.places) (F.known files.folder) };

    ghost left = { λ files. F.left files.folder };

    // The folder counts how often a text was asked for.
    ghost calls = { λ files. number files.disks + F.texts files.folder };

    ghost fault = { λ files. files.fault };

    ghost failed = { λ files. F.failed files.folder };

    fn text(&mut self, path: &str) -> Result<F::Text, FileFault> {
        let opened = self.folder.text(path).map_err(FileFault::from);
        noted(&mut self.fault, opened)
    }

    fn disk(&mut self, right: F::Right, path: &str) -> Result<Stored<F::File>, FileFault> {
        self.disks.add();
        let opened = open(&mut self.folder, right, path);
        noted(&mut self.fault, opened)
    }

    fn disk_or_make(&mut self, right: F::Right, path: &str) -> Result<Stored<F::File>, FileFault> {
        self.disks.add();
        let opened = open_or_make(&mut self.folder, right, path);
        noted(&mut self.fault, opened)
    }
}
