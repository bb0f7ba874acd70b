//! The calls of a folder in memory. Each passes or fails, and is noted if it failed.
ghost use Rattle.std.specs.Prelude.{◌≡◌, ◌≢◌, ◌-◌, ◌++◌, ◌↔◌, ℕ, List, codes, string_bytes};
ghost use Rattle.std.specs.Prelude.{None, Some, Err, IfErr, IfOk, IsErr, IsTrue, OnErr, OnOk};
ghost use Rattle.std.specs.IoError.{error_kind};
ghost use Rattle.sqlite_disk.specs.Disk.{Only};
ghost use Rattle.sqlite_disk.specs.Fuse.{calls_left};
ghost use Rattle.zh_film.specs.Past.{items, number};
ghost use Rattle.zh_file.specs.Causes.{IsCauseAt, cause_of};
ghost use Rattle.zh_file.specs.Places.{IsSameOrMade};
ghost use Rattle.zh_file.specs.Places.Standing.{nothing, file as filed};
ghost use Rattle.zh_file.specs.Folder.{IsCounted, IsCountedLock, IsKind, MakesBoth, Unlocks, noted_at};
ghost use Rattle.zh_file.specs.Failures.{asked_with, locked_with};
ghost use Rattle.zh_file.specs.Locked.{IsLeftOf, IsLeftOfOne, noted_all, setbacks_of};
ghost use Rattle.zh_file.specs.Notes.{failed_among, unlocked_among};
ghost use Rattle.zh_file.specs.MemoryFolder.{PutsAt, Spends, disk_in, file_of, folders_of, standing_at};

use super::{MemoryFolder, Stood, stood_at};
use crate::folder::{Folder, Found};
use crate::memory_file::MemoryFile;
use crate::memory_text::MemoryText;
use crate::notes::{note_call, note_lock, note_unlocked};
use crate::stored::Locked;
use sqlite_disk::{Disk as File, Files};
use sqlite_std_file::OpenError;
use std::alloc::AllocError;
use std::io::{self, Cursor, ErrorKind, Read};

impl<R> MemoryFolder<R> {
    /// Counts down the calls that still pass. Fails if none is left.
    fn pass(&mut self) -> io::Result<()>
        ensures same { self.new ≡ record self.old { calls = self.new.calls } }
        ensures spent { self.new.calls ≡ self.old.calls - 1 }
        ensures blown { IsErr result ↔ (self.old.calls ≡ 0) }
        ensures kind { IfErr result (λ error. error_kind error ≡ ErrorKind.Other) }
    {
        match self.calls.checked_sub(1) {
            Some(left) => {
                self.calls = left;
                Ok(())
            }
            None => Err(ErrorKind::Other.into()),
        }
    }

    /// Notes and counts a call at this path, other than a lock, if it failed. Returns its result.
    fn note<T>(&mut self, path: &str, done: io::Result<T>) -> io::Result<T>
        ensures result { result ≡ done }
        ensures rest { self.new ≡ record self.old { failed = self.new.failed; notes = self.new.notes } }
        ensures counted { IsCounted done (folders_of self.old) (folders_of self.new) }
        ensures noted { failed_among ⟦<MemoryFile as File>⟧ (items self.new.notes)
            ≡ noted_at path.now asked_with done (failed_among ⟦<MemoryFile as File>⟧ (items self.old.notes)) }
        ensures unlocked { unlocked_among (items self.new.notes) ≡ unlocked_among (items self.old.notes) }
    {
        note_call(&mut self.notes, path, &done);
        if done.is_err() {
            self.failed.add();
        }
        done
    }

    /// What is at this path.
    fn found_at(&self, path: &str) -> io::Result<Found>
        ensures said { IfOk result (IsKind (standing_at self.now path.now)) }
        ensures missing { IfErr result (λ error. (error_kind error ≡ ErrorKind.NotFound) × (standing_at self.now path.now ≡ nothing)) }
    {
        match stood_at(&self.placed, path) {
            Some(Stood::File(bytes)) => Ok(Found::File(bytes.len() as u64)),
            Some(Stood::Other) => Ok(Found::Other),
            Some(Stood::Nothing) | None => Err(ErrorKind::NotFound.into()),
        }
    }

    fn kind_at(&mut self, path: &str) -> io::Result<Found>
        ensures rest { self.new ≡ record self.old { calls = self.new.calls } }
        ensures spends { Spends (standing_at self.old path.now ≡ nothing) result self.old self.new }
        ensures said { IfOk result (IsKind (standing_at self.old path.now)) }
        ensures why { IfErr result (λ error. IsCauseAt (standing_at self.old path.now) (cause_of (error_kind error))) }
    {
        self.pass()?;
        self.found_at(path)
    }

    fn companion_at(&mut self, path: &str) -> io::Result<String>
        ensures rest { self.new ≡ record self.old { calls = self.new.calls } }
        ensures spends { Spends ⊥ result self.old self.new }
        ensures said { IfOk result (λ name. string_bytes name ≡ path.now ++ codes "-wal") }
    {
        self.pass()?;
        Ok(self.beside(path)?)
    }

    fn text_at(&mut self, path: &str) -> io::Result<MemoryText>
        ensures rest { self.new ≡ record self.old { calls = self.new.calls } }
        ensures spends { Spends ((bytes : List ℕ) → standing_at self.old path.now ≢ filed bytes) result self.old self.new }
        ensures said { IfOk result (λ text. ⟦<MemoryText as Read>⟧.remaining text ≡ disk_in self.old path.now) }
        ensures why { IfErr result (λ error. IsCauseAt (standing_at self.old path.now) (cause_of (error_kind error))) }
    {
        self.pass()?;
        Ok(MemoryText {
            text: Cursor::new(self.bytes_at(path)?),
            reads: self.reads,
        })
    }

    fn make_at(&mut self, path: &str) -> io::Result<()>
        ensures rest { self.new ≡ record self.old { calls = self.new.calls; placed = self.new.placed } }
        ensures spends { Spends ⊥ result self.old self.new }
        ensures made { IsSameOrMade (standing_at self.old path.now) (standing_at self.new path.now) }
        ensures others { (place : List ℕ) → place ≢ path.now → standing_at self.new place ≡ standing_at self.old place }
        ensures there { OnOk result (standing_at self.new path.now ≢ nothing) }
        ensures why { IfErr result (λ error. IsCauseAt (standing_at self.old path.now) (cause_of (error_kind error))) }
    {
        self.pass()?;
        Ok(self.place(path)?)
    }

    /// Makes an empty file at the path of a disk and at that of its companion, each if there is nothing.
    fn place_both(&mut self, path: &str, companion: &str) -> Result<(), AllocError>
        requires { companion.now ≡ path.now ++ codes "-wal" }
        ensures rest { self.new ≡ record self.old { placed = self.new.placed } }
        ensures made { MakesBoth path.now (folders_of self.old).places (folders_of self.new).places }
    {
        self.place(path)?;
        self.place(companion)
    }

    /// The disk at this path and its companion at the other.
    fn files_at(&self, path: &str, companion: &str) -> io::Result<Files<MemoryFile>>
        ensures locked { IfOk result (λ files. standing_at self.now path.now ≡ filed (⟦<MemoryFile as File>⟧.seen files.db)) }
        ensures usable { IfOk result (λ files. IsTrue (⟦<MemoryFile as File>⟧.is_usable files.db)) }
        ensures synced { IfOk result (λ files.
            Only (⟦<MemoryFile as File>⟧.seen files.db) (⟦<MemoryFile as File>⟧.may_leave files.db)) }
        ensures unfailed { IfOk result (λ files. ⟦<MemoryFile as File>⟧.faults files.db ≡ 0) }
        ensures calls { IfOk result (λ files. calls_left (file_of files.db) ≡ self.now.file_calls) }
    {
        Ok(Files {
            log: self.file_at(companion)?,
            db: self.file_at(path)?,
        })
    }

    /// The disk at this path and its companion. Makes each of them if there is nothing at its path.
    fn both_at(&mut self, path: &str) -> io::Result<Files<MemoryFile>>
        ensures rest { self.new ≡ record self.old { placed = self.new.placed } }
        ensures made { MakesBoth path.now (folders_of self.old).places (folders_of self.new).places }
        ensures locked { IfOk result (λ files. standing_at self.new path.now ≡ filed (⟦<MemoryFile as File>⟧.seen files.db)) }
        ensures usable { IfOk result (λ files. IsTrue (⟦<MemoryFile as File>⟧.is_usable files.db)) }
        ensures synced { IfOk result (λ files.
            Only (⟦<MemoryFile as File>⟧.seen files.db) (⟦<MemoryFile as File>⟧.may_leave files.db)) }
        ensures unfailed { IfOk result (λ files. ⟦<MemoryFile as File>⟧.faults files.db ≡ 0) }
        ensures calls { IfOk result (λ files. calls_left (file_of files.db) ≡ self.old.file_calls) }
    {
        let companion = self.beside(path)?;
        self.place_both(path, &companion)?;
        self.files_at(path, &companion)
    }

    fn lock_at(&mut self, path: &str) -> Result<Files<MemoryFile>, OpenError>
        ensures rest { self.new ≡ record self.old { calls = self.new.calls; placed = self.new.placed } }
        ensures made { MakesBoth path.now (folders_of self.old).places (folders_of self.new).places }
        ensures locked { IfOk result (λ files. standing_at self.new path.now ≡ filed (⟦<MemoryFile as File>⟧.seen files.db)) }
        ensures usable { IfOk result (λ files. IsTrue (⟦<MemoryFile as File>⟧.is_usable files.db)) }
        ensures synced { IfOk result (λ files.
            Only (⟦<MemoryFile as File>⟧.seen files.db) (⟦<MemoryFile as File>⟧.may_leave files.db)) }
        ensures unfailed { IfOk result (λ files. ⟦<MemoryFile as File>⟧.faults files.db ≡ 0) }
        ensures calls { IfOk result (λ files. calls_left (file_of files.db) ≡ self.old.file_calls) }
        ensures spent { self.new.calls ≡ self.old.calls - 1 }
        ensures blown { self.old.calls ≡ 0 → IsErr result × (result ≢ Err OpenError.Busy) }
        ensures busy { self.old.calls ≢ 0 → (result ≡ Err OpenError.Busy) ↔ IsTrue self.old.is_busy }
    {
        if let Err(error) = self.pass() {
            return Err(OpenError::Io(error));
        }
        if self.is_busy {
            return Err(OpenError::Busy);
        }
        match self.both_at(path) {
            Ok(files) => Ok(files),
            Err(error) => Err(OpenError::Io(error)),
        }
    }

    /// Notes a lock at this path if it failed or was refused, and counts it as the one or the other. Returns its result.
    fn note_lock<T>(&mut self, path: &str, done: Result<T, OpenError>) -> Result<T, OpenError>
        ensures result { result ≡ done }
        ensures rest { self.new
            ≡ record self.old { failed = self.new.failed; refused = self.new.refused; notes = self.new.notes } }
        ensures counted { IsCountedLock done (folders_of self.old) (folders_of self.new) }
        ensures noted { failed_among ⟦<MemoryFile as File>⟧ (items self.new.notes)
            ≡ noted_at path.now locked_with done (failed_among ⟦<MemoryFile as File>⟧ (items self.old.notes)) }
        ensures unlocked { unlocked_among (items self.new.notes) ≡ unlocked_among (items self.old.notes) }
    {
        note_lock(&mut self.notes, path, &done);
        match &done {
            Ok(_) => {}
            Err(OpenError::Busy) => self.refused.add(),
            Err(_) => self.failed.add(),
        }
        done
    }

    fn remove_at(&mut self, path: &str) -> io::Result<()>
        ensures rest { self.new ≡ record self.old { calls = self.new.calls; placed = self.new.placed } }
        ensures spends { Spends ⊥ result self.old self.new }
        ensures removed { OnOk result (PutsAt path.now nothing self.old self.new) }
        ensures err { OnErr result (standing_at self.new ≡ standing_at self.old) }
    {
        self.pass()?;
        Ok(self.put(path, Stood::Nothing)?)
    }
}

impl<R: Drop> Folder for MemoryFolder<R> {
    type Text = MemoryText;

    type File = MemoryFile;

    type Companion = MemoryFile;

    type Right = R;

    ghost known = { λ folder. Some (folders_of folder) };

    ghost left = { λ folder. IsLeftOfOne ⟦<MemoryFile as File>⟧ (unlocked_among (items folder.notes)) };

    ghost disk_at = { disk_in };

    ghost failed = { λ folder. failed_among ⟦<MemoryFile as File>⟧ (items folder.notes) };

    ghost texts = { λ folder. number folder.asked };

    fn kind(&mut self, path: &str) -> io::Result<Found> {
        let found = self.kind_at(path);
        self.note(path, found)
    }

    fn companion(&mut self, path: &str) -> io::Result<String> {
        let name = self.companion_at(path);
        self.note(path, name)
    }

    fn text(&mut self, path: &str) -> io::Result<MemoryText> {
        self.asked.add();
        let text = self.text_at(path);
        self.note(path, text)
    }

    fn make(&mut self, path: &str) -> io::Result<()> {
        let made = self.make_at(path);
        self.note(path, made)
    }

    fn lock(
        &mut self,
        _right: R,
        path: &str,
    ) -> Result<(Locked<MemoryFile>, MemoryFile), OpenError> {
        let locked = self.lock_at(path);
        match self.note_lock(path, locked) {
            Ok(files) => Ok((Locked::new(files.db), files.log)),
            Err(error) => Err(error),
        }
    }

    fn remove(&mut self, path: &str, _locked: &MemoryFile) -> io::Result<()> {
        let removed = self.remove_at(path);
        self.note(path, removed)
    }

    fn unlock(&mut self, path: &str, locked: Locked<MemoryFile>)
        ensures unlocks { Unlocks disk_in (λ folder. Some (folders_of folder))
            (λ folder. IsLeftOfOne ⟦<MemoryFile as File>⟧ (unlocked_among (items folder.notes)))
            (IsLeftOf ⟦<MemoryFile as File>⟧ locked) self.old self.new }
        ensures texts { number self.new.asked ≡ number self.old.asked }
        ensures noted { failed_among ⟦<MemoryFile as File>⟧ (items self.new.notes)
            ≡ noted_all path.now (setbacks_of ⟦<MemoryFile as File>⟧ locked)
            (failed_among ⟦<MemoryFile as File>⟧ (items self.old.notes)) }
    {
        note_unlocked(&mut self.notes, path, locked);
    }
}
