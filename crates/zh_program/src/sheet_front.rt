//! Reading the sheet at a path, up to a fixed number of bytes.

ghost use Rattle.std.specs.Prelude.{◌≡◌, IfErr, IfOk, ◌≤◌, ◌+◌, ◌++◌, ◌⊎◌, ℕ, List, false, length};
ghost use Rattle.std.specs.Io.KnownBytes.{Consumes, IsAtEnd};
ghost use Rattle.zh_csv.specs.Noted.{has_failed, inner_reader};
ghost use Rattle.zh_program.specs.Check.{IsOfSheet, IsSheetAt, LacksSheetFile};
ghost use Rattle.zh_program.specs.World.{AreCalls, IsMetAt};

use crate::fault::TaskFault;
use crate::place::TaskFile;
use crate::texts::open_text;
use std::alloc::Global;
use std::io::{Error, ErrorKind, Read};
use zh_csv::NotedReader;
use zh_file::Files;
use zh_verdicts::SHEET_FRONT;

/// The most bytes that one read asks for.
const PIECE: usize = 4096;

/// A buffer of N zeros.
fn room<const N: usize>() -> [u8; N] {
    [0; N]
}

/// Turns the error of a read into the fault of the task.
fn read_fault(error: Error) -> TaskFault
    ensures { IsOfSheet result }
{
    match error.kind() {
        ErrorKind::OutOfMemory => TaskFault::Memory,
        _ => TaskFault::Unreadable(TaskFile::Sheet),
    }
}

/// Reads the next piece of a file, appends it to a text, and returns whether to read on: `false` at the end of the file, or
/// once the text has 280,065 bytes. Any error ends the reading, even an interrupted read.
fn read_piece<R: Read>(file: &mut NotedReader<R>, text: &mut Vec<u8>) -> Result<bool, TaskFault>
    requires few { length text.old.items ≤ 280065 }
    requires unfailed { has_failed file.old ≡ false }
    ensures read { (bytes : List ℕ) × Consumes (R.remaining (inner_reader file.old)) (R.remaining (inner_reader file.new)) bytes
        × (length text.old.items + length bytes ≤ 280065) × IfOk result (λ _. text.new.items ≡ text.old.items ++ bytes) }
    ensures end { IfOk result (λ more. (more ≡ false)
        → IsAtEnd (R.remaining (inner_reader file.new)) ⊎ (length text.new.items ≡ 280065)) }
    ensures unfailed { IfOk result (λ _. has_failed file.new ≡ false) }
    ensures fault { IfErr result IsOfSheet }
{
    let mut piece = room::<PIECE>();
    let most = PIECE.min(SHEET_FRONT - text.len());
    match file.read(&mut piece[..most]) {
        Ok(0) => Ok(false),
        Ok(length) => {
            text.extend_from_slice(&piece[..length])?;
            Ok(true)
        }
        Err(error) => Err(read_fault(error)),
    }
}

/// Reads the text of a sheet, up to 280,065 bytes, which is more than any sheet has.
fn read_front<R: Read>(alloc: Global, file: &mut NotedReader<R>) -> Result<Vec<u8>, TaskFault>
    requires { has_failed file.old ≡ false }
    ensures read { (bytes : List ℕ) × Consumes (R.remaining (inner_reader file.old)) (R.remaining (inner_reader file.new)) bytes
        × (length bytes ≤ 280065) }
    ensures few { IfOk result (λ text. length text.items ≤ 280065) }
    ensures sheet { IfOk result (λ text. IsSheetAt (R.remaining (inner_reader file.old)) text.items) }
    ensures unfailed { IfOk result (λ _. has_failed file.new ≡ false) }
    ensures fault { IfErr result IsOfSheet }
{
    let mut text = Vec::new(alloc);
    for _ in 0..u32::MAX {
        if !read_piece(file, &mut text)? {
            return Ok(text);
        }
    }
    Err(TaskFault::Unreadable(TaskFile::Sheet))
}

/// Reads the text of the sheet at a path, up to 280,065 bytes.
pub(crate) fn sheet_at<F: Files>(
    alloc: Global,
    files: &mut F,
    path: &str,
) -> Result<Vec<u8>, TaskFault>
    ensures call { AreCalls F.Files 1 files.old files.new }
    ensures sheet { IfOk result (λ text. IsSheetAt (F.text_at files.old path.now) text.items) }
    ensures fault { IfErr result (LacksSheetFile (IsMetAt F.Files path.now files.old files.new)) }
{
    let file = open_text(files, path, TaskFile::Sheet)?;
    let mut text = NotedReader::new(file);
    read_front(alloc, &mut text)
}
