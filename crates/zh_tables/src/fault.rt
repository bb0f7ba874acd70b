//! Why a table was not written.

ghost use Rattle.std.specs.Prelude.{◌≡◌};
ghost use Rattle.zh_districts.specs.declared.shares.SeatFault.{SeatFault as Refusal};
ghost use Rattle.zh_tables.specs.Tables.{RecordedAs};
ghost use Rattle.zh_tables.specs.declared.fault.ListFault.TheVariants as faults;

use std::alloc::AllocError;
use thiserror::Error;
use zh_districts::SeatFault;
use zh_record_text::RecordFault;
use zh_text::Name;

/// Why a table was not written in full.
#[derive(Clone, Copy, Debug, Error)]
#[error("{}", self.name())]
pub enum ListFault {
    /// The constituencies get no seats, or an allocation was refused while the seats were computed.
    Seats(SeatFault),
    /// The returns of this municipality are wanted, but the set-up does not have it.
    NoMunicipality(u32),
    /// The returns of this constituency are wanted, but the set-up does not have it.
    NoConstituency(u32),
    /// An allocation was refused.
    Memory,
    /// A record was not written in full, for a reason other than refused memory (`RecordFault::Write`).
    Write,
}

impl ListFault {
    ghost use Rattle.zh_tables.specs.Faults.{list_name};
    ghost use Rattle.zh_text.specs.Names.{ArePartsOf};

    /// The name of the fault in reports.
    pub fn name(self) -> Name
        ensures { ArePartsOf (list_name self) result }
    {
        match self {
            ListFault::Seats(fault) => fault.name(),
            ListFault::NoMunicipality(number) => Name::Number("nomunicipality", number),
            ListFault::NoConstituency(number) => Name::Number("noconstituency", number),
            ListFault::Memory => SeatFault::Memory.name(),
            ListFault::Write => Name::Words("write"),
        }
    }
}

impl From<SeatFault> for ListFault {
    ghost from_gives = { λ refusal fault. fault ≡ faults.Seats refusal };

    fn from(refusal: SeatFault) -> Self {
        ListFault::Seats(refusal)
    }
}

impl From<RecordFault> for ListFault {
    ghost from_gives = { RecordedAs };

    fn from(fault: RecordFault) -> Self {
        match fault {
            RecordFault::Memory => ListFault::Memory,
            RecordFault::Write => ListFault::Write,
        }
    }
}

impl From<AllocError> for ListFault {
    ghost from_gives = { λ _ fault. fault ≡ faults.Memory };

    fn from(_: AllocError) -> Self {
        ListFault::Memory
    }
}
