//! The errors of the calls of a store.
use std::alloc::AllocError;
use thiserror::Error;
use zh_disk::DiskFault;

/// Why a disk could not be formatted.
#[derive(Clone, Copy, Debug, Error)]
pub enum FormatFault {
    #[error("out of memory")]
    Memory,
    #[error("the device failed")]
    Device,
}

impl From<AllocError> for FormatFault {
    ghost use Rattle.std.specs.Prelude.{◌≡◌};
    ghost use Rattle.zh_snapshot.specs.declared.fault.FormatFault.TheVariants.{Memory};

    ghost from_gives = { λ _ e. e ≡ Memory };

    fn from(_: AllocError) -> Self {
        FormatFault::Memory
    }
}

impl From<DiskFault> for FormatFault {
    ghost use Rattle.std.specs.Prelude.{◌≡◌};
    ghost use Rattle.zh_snapshot.specs.declared.fault.FormatFault.TheVariants.{Device};

    ghost from_gives = { λ _ e. e ≡ Device };

    fn from(_: DiskFault) -> Self {
        FormatFault::Device
    }
}

/// Why a store could not be opened.
#[derive(Clone, Copy, Debug, Error)]
pub enum OpenFault {
    #[error("the device failed")]
    Device,
    /// The disk's gate is closed.
    #[error("the disk is blank")]
    Blank,
    /// The disk's gate is open, but what comes after it breaks a rule of the format.
    #[error("the disk is damaged")]
    Damaged,
    #[error("out of memory")]
    Memory,
}

impl From<AllocError> for OpenFault {
    ghost use Rattle.std.specs.Prelude.{◌≡◌};
    ghost use Rattle.zh_snapshot.specs.declared.fault.OpenFault.TheVariants.{Memory};

    ghost from_gives = { λ _ e. e ≡ Memory };

    fn from(_: AllocError) -> Self {
        OpenFault::Memory
    }
}

impl From<DiskFault> for OpenFault {
    ghost use Rattle.std.specs.Prelude.{◌≡◌};
    ghost use Rattle.zh_snapshot.specs.declared.fault.OpenFault.TheVariants.{Device};

    ghost from_gives = { λ _ e. e ≡ Device };

    fn from(_: DiskFault) -> Self {
        OpenFault::Device
    }
}

impl From<zh_journal::OpenFault> for OpenFault {
    ghost use Rattle.zh_snapshot.specs.Faults.{AsStoreFault};

    ghost from_gives = { AsStoreFault };

    fn from(fault: zh_journal::OpenFault) -> Self {
        match fault {
            zh_journal::OpenFault::Device => OpenFault::Device,
            zh_journal::OpenFault::Damaged => OpenFault::Damaged,
        }
    }
}

/// Why a store could not be read.
pub type StoreFault = DiskFault;

/// Why a record could not be appended.
#[derive(Clone, Copy, Debug, Error)]
pub enum AppendFault {
    #[error("the device failed")]
    Device,
    /// Too few pages are left.
    #[error("the journal is full")]
    Full,
    /// The device failed in an earlier call that writes, so the store must be opened again.
    #[error("the store is broken")]
    Broken,
}

/// Why a store could not switch slots.
#[derive(Clone, Copy, Debug, Error)]
pub enum SwitchFault {
    #[error("the device failed")]
    Device,
    /// The generation is the last one, 2^64 - 1.
    #[error("the generations are spent")]
    Spent,
    /// The device failed in an earlier call that writes, so the store must be opened again.
    #[error("the store is broken")]
    Broken,
}
