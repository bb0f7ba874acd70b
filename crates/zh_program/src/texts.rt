//! Opening the text at a path, and reading a set-up.

ghost use Rattle.std.specs.Prelude.{◌≡◌, IfErr, IfOk};
ghost use Rattle.zh_program.specs.Texts.{IsOfSetup, IsUnopened};
ghost use Rattle.zh_program.specs.World.{AreCalls, IsFrontAt, IsMetAt, IsSetupAt};

use crate::fault::TaskFault;
use crate::place::TaskFile;
use std::alloc::Global;
use std::io::{ErrorKind, Read};
use zh_districts::Setup;
use zh_file::{FileFault, Files};
use zh_setups::read_setup;

/// The most bytes that are read of a set-up's file: one more than a set-up may have, to detect a longer file.
const LONGEST_SETUP: u64 = 1_048_577;

/// Opens the text at a path. `file` is the role of the file in the task and names it in a fault.
pub(crate) fn open_text<F: Files>(
    files: &mut F,
    path: &str,
    file: TaskFile,
) -> Result<F::Text, TaskFault>
    ensures call { AreCalls F.Files 1 files.old files.new }
    ensures bytes { IfOk result (λ text. F.Text.remaining text ≡ F.text_at files.old path.now) }
    ensures fault { IfErr result (IsUnopened file (IsMetAt F.Files path.now files.old files.new)) }
{
    match files.text(path) {
        Ok(text) => Ok(text),
        Err(FileFault::Device(cause)) => Err(TaskFault::Unopened(file, cause)),
        Err(_) => Err(TaskFault::Memory),
    }
}

/// Reads the text of a set-up at a path, up to 1,048,577 bytes.
fn front_of_text<F: Files>(alloc: Global, files: &mut F, path: &str) -> Result<Vec<u8>, TaskFault>
    ensures call { AreCalls F.Files 1 files.old files.new }
    ensures front { IfOk result (λ text. IsFrontAt (F.text_at files.old path.now) text.items) }
    ensures fault { IfErr result (IsOfSetup (F.text_at files.old path.now) (IsMetAt F.Files path.now files.old files.new)) }
{
    let file = open_text(files, path, TaskFile::Setup)?;
    let mut text = Vec::new(alloc);
    match file.take(LONGEST_SETUP).read_to_end(&mut text) {
        Ok(_) => Ok(text),
        Err(error) if error.kind() == ErrorKind::OutOfMemory => Err(TaskFault::Memory),
        Err(_) => Err(TaskFault::Unreadable(TaskFile::Setup)),
    }
}

/// Reads the set-up at a path.
pub(crate) fn setup_at<F: Files>(
    alloc: Global,
    files: &mut F,
    path: &str,
) -> Result<Setup, TaskFault>
    ensures call { AreCalls F.Files 1 files.old files.new }
    ensures setup { IfOk result (IsSetupAt (F.text_at files.old path.now)) }
    ensures fault { IfErr result (IsOfSetup (F.text_at files.old path.now) (IsMetAt F.Files path.now files.old files.new)) }
{
    let text = front_of_text(alloc, files, path)?;
    match read_setup(alloc, &text) {
        Ok(setup) => Ok(setup),
        Err(refusal) => Err(TaskFault::Setup(refusal)),
    }
}
