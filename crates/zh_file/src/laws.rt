//! What is known of the disk that the program hands over to `main`, at exactly its type, and of the files that gave it.
ghost use Rattle.std.specs.Prelude.{◌≡◌, ◌↔◌, ◌+◌, ℕ, List, Some, None, option_map};
ghost use Rattle.sqlite_disk.specs.Events.{replay};
ghost use Rattle.sqlite_disk.specs.History.{MayLeave};
ghost use Rattle.sqlite_disk.specs.Modelled.{calls_of, start_of};
ghost use Rattle.zh_film.specs.Past.{items, number};
ghost use Rattle.zh_file.specs.Folder.{bytes_known};
ghost use Rattle.zh_file.specs.Locked.{IsLeftOfOne};
ghost use Rattle.zh_file.specs.Notes.{failed_among, unlocked_among};

use crate::FileOf;
use crate::files::{Files, FolderFiles};
use crate::folder::Folder;
use crate::host_folder::HostFolder;
use sqlite_disk::Calls;
use sqlite_std_file::{Host, Start};
use zh_disk::Disk;

/// A disk in the folders of the operating system.
type HostDisk<'a, S> = <FolderFiles<HostFolder<'a, S>> as Files>::Disk;

/// Returns the disk's file, which is of the library's type. Replay the calls that this file has recorded, with their answers,
/// from what `S` says that it held: the disk is honest exactly if the replay is, has the bytes that the replay gives, and a stop
/// can leave of it what the replay says. (For the companion, which has the same type, `S` says what that held.)
pub fn honest_as_replayed<'a, S: Start>(disk: HostDisk<'a, S>) -> FileOf<S>
    ensures honest { (⟦<HostDisk<'a, S> as Disk>⟧.history disk).honest
        ≡ (replay (start_of S.Start result) (⟦<Host as Calls>⟧.history (calls_of result))).is_honest }
    ensures seen { (⟦<HostDisk<'a, S> as Disk>⟧.history disk).trail.now.bytes
        ≡ (replay (start_of S.Start result) (⟦<Host as Calls>⟧.history (calls_of result))).seen }
    ensures left { (c : List ℕ) → ⟦<HostDisk<'a, S> as Disk>⟧.leaves disk c
        ↔ (let m = replay (start_of S.Start result) (⟦<Host as Calls>⟧.history (calls_of result)) in
        MayLeave S.Start.is_mixing m.seen m.synced m.steps c) }
{
    disk.into_file()
}

/// What is known of the files in a folder is exactly what is known of the folder.
pub fn files_of_a_folder<F: Folder + Drop>(files: &FolderFiles<F>)
    ensures same { (⟦<FolderFiles<F> as Files>⟧.text_at files.now ≡ bytes_known (F.known files.now.folder))
        × (⟦<FolderFiles<F> as Files>⟧.disk_at files.now ≡ F.disk_at files.now.folder)
        × (⟦<FolderFiles<F> as Files>⟧.places files.now ≡ option_map (λ known. known.places) (F.known files.now.folder))
        × (⟦<FolderFiles<F> as Files>⟧.calls files.now ≡ number files.now.disks + F.texts files.now.folder)
        × (⟦<FolderFiles<F> as Files>⟧.failed files.now ≡ F.failed files.now.folder) }
    ensures left { (c : List ℕ) → ⟦<FolderFiles<F> as Files>⟧.left files.now c ↔ F.left files.now.folder c }
{}

/// What is known of the files of the operating system is what was noted: which calls failed, and what a stop can have left of a
/// file that was unlocked. A disk begins with what `S` says that its file held. Nothing is known of texts, or of what is at a path.
pub fn host_files_as_noted<'a, S: Start>(files: &FolderFiles<HostFolder<'a, S>>)
    ensures { (⟦<FolderFiles<HostFolder<'a, S>> as Files>⟧.failed files.now
        ≡ failed_among ⟦<FileOf<S> as sqlite_disk::Disk>⟧ (items files.now.folder.notes))
        × ((c : List ℕ) → ⟦<FolderFiles<HostFolder<'a, S>> as Files>⟧.left files.now c
        ↔ IsLeftOfOne ⟦<FileOf<S> as sqlite_disk::Disk>⟧ (unlocked_among (items files.now.folder.notes)) c)
        × (⟦<FolderFiles<HostFolder<'a, S>> as Files>⟧.disk_at files.now ≡ (λ path. Some S.Start.db))
        × (⟦<FolderFiles<HostFolder<'a, S>> as Files>⟧.text_at files.now ≡ (λ path. None))
        × (⟦<FolderFiles<HostFolder<'a, S>> as Files>⟧.places files.now ≡ None) }
{}
