//! The errors of the calls of an area.
use thiserror::Error;
use zh_disk::DiskFault;

/// Why an area could not be read or cleared.
pub type AreaFault = DiskFault;

/// Why an area could not be opened.
#[derive(Clone, Copy, Debug, Error)]
pub enum OpenFault {
    #[error("the device failed")]
    Device,
    /// A first page with an open gate breaks a rule of the format.
    #[error("the area is damaged")]
    Damaged,
}

impl From<DiskFault> for OpenFault {
    ghost use Rattle.std.specs.Prelude.{◌≡◌};
    ghost use Rattle.zh_journal.specs.declared.fault.OpenFault.TheVariants.{Device};

    ghost from_gives = { λ _ e. e ≡ Device };

    fn from(_: DiskFault) -> Self {
        OpenFault::Device
    }
}

/// Why a record could not be appended.
#[derive(Clone, Copy, Debug, Error)]
pub enum AppendFault {
    #[error("the device failed")]
    Device,
    /// Too few pages are left.
    #[error("the area is full")]
    Full,
}

impl From<DiskFault> for AppendFault {
    ghost use Rattle.std.specs.Prelude.{◌≡◌};
    ghost use Rattle.zh_journal.specs.declared.fault.AppendFault.TheVariants.{Device};

    ghost from_gives = { λ _ e. e ≡ Device };

    fn from(_: DiskFault) -> Self {
        AppendFault::Device
    }
}
