//! A folder in memory. No task uses it: it shows that a folder can meet all clauses of `Folder`.
mod calls;

ghost use Rattle.std.specs.Prelude.{◌≡◌, ◌≢◌, ◌⊎◌, ◌-◌, ◌^◌, ◌++◌, ◌↔◌, ℕ, List, codes, length, string_bytes};
ghost use Rattle.std.specs.Prelude.{None, Some, Err, IfErr, IfOk, IsTrue, MatchOption, OnErr, OnOk};
ghost use Rattle.std.specs.IoError.{error_kind};
ghost use Rattle.sqlite_disk.specs.Disk.{Only};
ghost use Rattle.sqlite_disk.specs.Fuse.{calls_left};
ghost use Rattle.zh_file.specs.Causes.{IsCauseAt, cause_of};
ghost use Rattle.zh_file.specs.Places.{IsSameOrMade};
ghost use Rattle.zh_file.specs.Places.Standing.{nothing, file as filed};
ghost use Rattle.zh_file.specs.MemoryFolder.{PutsAt, file_of, standing_at, stood_as, placed_at};

use crate::memory_file::MemoryFile;
use crate::notes::Note;
use sqlite_disk::{Disk as File, Memory};
use std::alloc::{AllocError, Global};
use std::io::{self, ErrorKind};
use std::marker::PhantomData;
use zh_film::Past;

/// What is at a path.
#[derive(Drop)]
pub enum Stood {
    File(Vec<u8>),
    Other,
    Nothing,
}

/// A path and what is there.
#[derive(Drop)]
pub struct Placed {
    path: String,
    stood: Stood,
}

/// A folder in memory, without links. A given number of calls at paths pass, and then each fails. Unlocking does not count as one.
#[derive(Drop)]
pub struct MemoryFolder<R> {
    alloc: Global,
    // the latest first
    placed: Vec<Placed>,
    /// How many more calls at paths pass.
    pub calls: u64,
    /// How many reads of each text pass.
    pub reads: u64,
    /// How many calls of each file pass.
    pub file_calls: u64,
    /// Whether the lock of each disk is held elsewhere.
    pub is_busy: bool,
    // how many calls failed, and how many locks were refused
    failed: Past<()>,
    refused: Past<()>,
    // the calls that failed, and the files that were unlocked
    notes: Past<Note<MemoryFile>>,
    // how often a text was asked for
    asked: Past<()>,
    // the type of the right to a disk
    right: PhantomData<R>,
}

/// What was put at this path: the first entry if there are several.
fn stood_at<'a>(all: &'a [Placed], path: &str) -> Option<&'a Stood>
    ensures { MatchOption result (placed_at all.now path.now ≡ nothing) (λ stood. placed_at all.now path.now ≡ stood_as stood.now) }
{
    let (first, others) = all.split_first()?;
    if first.path.as_str() == path {
        return Some(&first.stood);
    }
    stood_at(others, path)
}

impl<R> MemoryFolder<R> {
    /// An empty folder. More calls pass than are ever made.
    pub fn new(alloc: Global) -> MemoryFolder<R>
        ensures empty { (path : List ℕ) → standing_at result path ≡ nothing }
        ensures passing { (result.calls ≡ 2 ^ 64 - 1) × (result.reads ≡ 2 ^ 64 - 1) × (result.file_calls ≡ 2 ^ 64 - 1) }
    {
        MemoryFolder {
            alloc,
            placed: Vec::new(alloc),
            calls: u64::MAX,
            reads: u64::MAX,
            file_calls: u64::MAX,
            is_busy: false,
            failed: Past::new(),
            refused: Past::new(),
            notes: Past::new(),
            asked: Past::new(),
            right: PhantomData,
        }
    }

    /// Puts this at a path in place of what is there.
    pub fn put(&mut self, path: &str, stood: Stood) -> Result<(), AllocError>
        ensures put { OnOk result (PutsAt path.now (stood_as stood) self.old self.new) }
        ensures rest { self.new ≡ record self.old { placed = self.new.placed } }
        ensures err { OnErr result (standing_at self.new ≡ standing_at self.old) }
    {
        let path = String::from_str(self.alloc, path)?;
        self.placed.insert(0, Placed { path, stood })?;
        Ok(())
    }

    /// The length of the file at this path. `None` if there is no file.
    pub fn length_at(&self, path: &str) -> Option<u64>
        ensures { MatchOption result ((bytes : List ℕ) → standing_at self.now path.now ≢ filed bytes)
            (λ n. (bytes : List ℕ) × (standing_at self.now path.now ≡ filed bytes) × (n ≡ length bytes)) }
    {
        match stood_at(&self.placed, path) {
            Some(Stood::File(bytes)) => Some(bytes.len() as u64),
            _ => None,
        }
    }

    /// A copy of the bytes of the file at this path.
    fn bytes_at(&self, path: &str) -> io::Result<Vec<u8>>
        ensures bytes { IfOk result (λ bytes. standing_at self.now path.now ≡ filed bytes.items) }
        ensures cause { IfErr result (λ error. (error_kind error ≡ ErrorKind.OutOfMemory)
            ⊎ ((bytes : List ℕ) → standing_at self.now path.now ≢ filed bytes)) }
        ensures why { IfErr result (λ error. IsCauseAt (standing_at self.now path.now) (cause_of (error_kind error))) }
    {
        match stood_at(&self.placed, path) {
            Some(Stood::File(bytes)) => Ok(bytes.clone()?),
            Some(Stood::Other) => Err(ErrorKind::Unsupported.into()),
            Some(Stood::Nothing) | None => Err(ErrorKind::NotFound.into()),
        }
    }

    /// Whether there is nothing at this path.
    fn is_free(&self, path: &str) -> bool
        ensures { IsTrue result ↔ (standing_at self.now path.now ≡ nothing) }
    {
        matches!(stood_at(&self.placed, path), None | Some(Stood::Nothing))
    }

    /// Makes an empty file if there is nothing at this path.
    fn place(&mut self, path: &str) -> Result<(), AllocError>
        ensures made { IsSameOrMade (standing_at self.old path.now) (standing_at self.new path.now) }
        ensures others { (place : List ℕ) → place ≢ path.now → standing_at self.new place ≡ standing_at self.old place }
        ensures rest { self.new ≡ record self.old { placed = self.new.placed } }
        ensures there { OnOk result (standing_at self.new path.now ≢ nothing) }
    {
        if self.is_free(path) {
            return self.put(path, Stood::File(Vec::new(self.alloc)));
        }
        Ok(())
    }

    /// The file at this path, synced.
    fn file_at(&self, path: &str) -> io::Result<MemoryFile>
        ensures bytes { IfOk result (λ file. standing_at self.now path.now ≡ filed (⟦<MemoryFile as File>⟧.seen file)) }
        ensures usable { IfOk result (λ file. IsTrue (⟦<MemoryFile as File>⟧.is_usable file)) }
        ensures synced { IfOk result (λ file. Only (⟦<MemoryFile as File>⟧.seen file) (⟦<MemoryFile as File>⟧.may_leave file)) }
        ensures unfailed { IfOk result (λ file. ⟦<MemoryFile as File>⟧.faults file ≡ 0) }
        ensures calls { IfOk result (λ file. calls_left (file_of file) ≡ self.now.file_calls) }
    {
        let bytes = self.bytes_at(path)?;
        let mut file = Memory::new(self.alloc);
        file.write_at(0, &bytes)?;
        file.sync()?;
        Ok(MemoryFile::new(self.alloc, file, self.file_calls))
    }

    /// The path of the companion of the disk at this path.
    fn beside(&self, path: &str) -> Result<String, AllocError>
        ensures { IfOk result (λ name. string_bytes name ≡ path.now ++ codes "-wal") }
    {
        format!(in self.alloc; "{path}-wal")
    }
}
