//! Why a turn can't be made.

use std::alloc::AllocError;
use std::io;
use thiserror::Error;
use zh_disk::DiskFault;

/// Why a turn can't be made.
#[derive(Clone, Copy, Debug, Error)]
pub enum CaseFault {
    #[error("memory")]
    Memory(#[from(alloc)] AllocError),
    #[error("a file can't be read or written")]
    File,
    #[error("{0}")]
    Disk(#[from] DiskFault),
    /// What is wrong with a turn or with a set-up.
    #[error("{0}")]
    Text(&'static str),
}

impl From<io::Error> for CaseFault {
    fn from(_: io::Error) -> CaseFault {
        CaseFault::File
    }
}
