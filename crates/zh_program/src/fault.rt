//! Why a task was not done.

ghost use Rattle.std.specs.Prelude.{◌≡◌};
ghost use Rattle.zh_program.specs.Format.{FormattedAs};
ghost use Rattle.zh_program.specs.List.{RefusedAs};
ghost use Rattle.zh_program.specs.OnDisk.{FoundAs};
ghost use Rattle.zh_program.specs.Places.{named_place, role_of};
ghost use Rattle.zh_program.specs.declared.fault.TaskFault.TheVariants as faults;

use crate::place::{TaskFile, TaskPlace};
use std::alloc::AllocError;
use zh_csv::HeldFault;
use zh_file::{FileCause, FileFault};
use zh_office::{OpenFault, ServeFault};
use zh_record_text::RecordFault;
use zh_setups::{SetupFault, SetupRefusal};
use zh_tables::ListFault;
use zh_text::WriteFault;

/// Why a task was not done (docs/MANUAL.md, "How the program ends").
#[derive(Clone, Copy)]
pub enum TaskFault {
    /// A file could not be opened or created, with the cause.
    Unopened(TaskFile, FileCause),
    /// A file was opened, but a read of it failed. When a CSV file is loaded, only its first read gives this fault, and a
    /// later one gives `Refused`. In a dry run each read gives it.
    Unreadable(TaskFile),
    Setup(SetupRefusal),
    /// The device failed while a disk was opened to be formatted, or while it was formatted.
    Device,
    /// Another program has the disk open.
    Busy,
    /// The disk's file has this length in bytes, which is not that of a disk.
    Size(u64),
    /// The disk to be formatted is not blank.
    InUse,
    /// No office could be opened on the disk.
    Open(OpenFault),
    /// A record of the export is refused.
    Held(HeldFault),
    /// A table of the set-up could not be made.
    Table(ListFault),
    Memory,
    Serve(ServeFault),
    /// The output of the task could not be written to its end.
    Write,
    /// Everything was answered, but the device failed during the run or load.
    Faulted,
    /// The task refused: its output, or a remark on standard error, says why. Nothing else is reported.
    Refused,
}

impl TaskFault {
    /// Why a file could not be opened or created, the place of a fault of the set-up if it is known, or the length of a file
    /// that is not a disk. `None` for all other faults.
    pub fn place(&self) -> Option<TaskPlace>
        ensures { result ≡ named_place self.now }
    {
        match self {
            TaskFault::Unopened(_, cause) => Some(TaskPlace::Cause(*cause)),
            TaskFault::Setup(refusal) => match refusal.fault {
                SetupFault::Range => refusal.place.map(TaskPlace::Range),
                _ => refusal.place.map(TaskPlace::Setup),
            },
            TaskFault::Size(length) => Some(TaskPlace::Length(*length)),
            _ => None,
        }
    }

    /// Which of the files of the task the fault is about. `None` if it is about none of them: refused memory, a table, the
    /// input, the output, and `Refused`.
    pub fn file(&self) -> Option<TaskFile>
        ensures { result ≡ role_of self.now }
    {
        match self {
            TaskFault::Unopened(file, _) | TaskFault::Unreadable(file) => Some(*file),
            TaskFault::Setup(refusal) => match refusal.fault {
                SetupFault::Memory => None,
                _ => Some(TaskFile::Setup),
            },
            TaskFault::Open(OpenFault::Memory) => None,
            TaskFault::Device
            | TaskFault::Busy
            | TaskFault::Size(_)
            | TaskFault::InUse
            | TaskFault::Open(_)
            | TaskFault::Faulted => Some(TaskFile::Disk),
            TaskFault::Held(_) => Some(TaskFile::Held),
            _ => None,
        }
    }
}

impl From<AllocError> for TaskFault {
    ghost from_gives = { λ _ e. e ≡ faults.Memory };

    fn from(_: AllocError) -> Self {
        TaskFault::Memory
    }
}

impl From<FileFault> for TaskFault {
    ghost from_gives = { FoundAs };

    fn from(fault: FileFault) -> Self {
        match fault {
            FileFault::Memory => TaskFault::Memory,
            FileFault::Device(cause) => TaskFault::Unopened(TaskFile::Disk, cause),
            FileFault::Size(length) => TaskFault::Size(length),
            FileFault::Busy => TaskFault::Busy,
        }
    }
}

impl From<zh_snapshot::FormatFault> for TaskFault {
    ghost from_gives = { FormattedAs };

    fn from(fault: zh_snapshot::FormatFault) -> Self {
        match fault {
            zh_snapshot::FormatFault::Memory => TaskFault::Memory,
            zh_snapshot::FormatFault::Device => TaskFault::Device,
        }
    }
}

impl From<OpenFault> for TaskFault {
    ghost from_gives = { λ fault e. e ≡ faults.Open fault };

    fn from(fault: OpenFault) -> Self {
        TaskFault::Open(fault)
    }
}

impl From<ServeFault> for TaskFault {
    ghost from_gives = { λ fault e. e ≡ faults.Serve fault };

    fn from(fault: ServeFault) -> Self {
        TaskFault::Serve(fault)
    }
}

impl From<RecordFault> for TaskFault {
    // The text is made in memory, where nothing else can fail.
    ghost from_gives = { λ _ e. e ≡ faults.Memory };

    fn from(_: RecordFault) -> Self {
        TaskFault::Memory
    }
}

impl From<WriteFault> for TaskFault {
    ghost from_gives = { λ _ e. e ≡ faults.Write };

    fn from(_: WriteFault) -> Self {
        TaskFault::Write
    }
}

impl From<ListFault> for TaskFault {
    ghost from_gives = { RefusedAs };

    fn from(fault: ListFault) -> Self {
        match fault {
            // The text is made in memory, where nothing else can fail.
            ListFault::Memory | ListFault::Write => TaskFault::Memory,
            fault => TaskFault::Table(fault),
        }
    }
}
