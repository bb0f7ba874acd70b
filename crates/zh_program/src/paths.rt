//! The path of the file in which a fault occurred.

ghost use Rattle.std.specs.Prelude.{◌≡◌, None, Some, MatchOption};
ghost use Rattle.zh_program.specs.Paths.{fault_path, file_path, path_among, path_stated};

use crate::fault::TaskFault;
use crate::place::TaskFile;
use zh_arguments::{Paths, Task};

/// The path of the file, for a task that is given a set-up and a disk.
fn path_among<'a>(paths: Paths<'a>, file: TaskFile) -> Option<&'a str>
    ensures { MatchOption result (path_among paths.entry file ≡ None) (λ path. path_among paths.entry file ≡ Some path.now) }
{
    match file {
        TaskFile::Setup => Some(paths.setup),
        TaskFile::Disk => Some(paths.disk),
        _ => None,
    }
}

/// The path of the file, for a task that is given a set-up and a sheet.
fn path_stated<'a>(setup: &'a str, sheet: &'a str, file: TaskFile) -> Option<&'a str>
    ensures { MatchOption result (path_stated setup.now sheet.now file ≡ None)
        (λ path. path_stated setup.now sheet.now file ≡ Some path.now) }
{
    match file {
        TaskFile::Setup => Some(setup),
        TaskFile::Sheet => Some(sheet),
        _ => None,
    }
}

/// The path of the file, if the task is given one.
fn file_path<'a>(task: Task<'a>, file: TaskFile) -> Option<&'a str>
    ensures { MatchOption result (file_path task.entry file ≡ None) (λ path. file_path task.entry file ≡ Some path.now) }
{
    match task {
        Task::Rehearse | Task::Version => None,
        Task::Format(paths) | Task::Run(paths) | Task::Show(paths, _) => path_among(paths, file),
        Task::Load { paths, csv } | Task::DryRun { paths, csv } => match file {
            TaskFile::Csv => Some(csv),
            _ => path_among(paths, file),
        },
        Task::List { setup, .. } => match file {
            TaskFile::Setup => Some(setup),
            _ => None,
        },
        Task::Check(paths) => match file {
            TaskFile::Held => paths.held,
            _ => path_stated(paths.setup, paths.sheet, file),
        },
        Task::SheetSeats { setup, sheet, .. } => path_stated(setup, sheet, file),
    }
}

/// The path of the file in which a fault of a task occurred, if it was a file with a path.
pub(crate) fn fault_path<'a>(task: Task<'a>, fault: &TaskFault) -> Option<&'a str>
    ensures { MatchOption result (fault_path task.entry fault.now ≡ None) (λ path. fault_path task.entry fault.now ≡ Some path.now) }
{
    match fault.file() {
        Some(file) => file_path(task, file),
        None => None,
    }
}
