//! Why there is no sheet.
ghost use Rattle.std.specs.Prelude.{◌≡◌};
ghost use Rattle.zh_sheet.specs.declared.fault.SheetFault.TheVariants.{Memory};

use std::alloc::AllocError;
use std::fmt;
use thiserror::Error;
use zh_districts::SeatFault;
use zh_text::Name;
use zh_upper::{UpperFault, UpperRefusal};

/// Why no sheet is made.
#[derive(Clone, Copy, Debug, Error)]
pub enum SheetFault {
    /// Memory was refused, at any time.
    #[error("out of memory")]
    Memory,
    /// There is no sheet, for this reason.
    #[error("{0}")]
    Refused(SheetRefusal),
}

impl From<AllocError> for SheetFault {
    ghost from_gives = { λ _ fault. fault ≡ Memory };

    fn from(_error: AllocError) -> SheetFault {
        SheetFault::Memory
    }
}

impl From<SeatFault> for SheetFault {
    ghost use Rattle.zh_sheet.specs.Stages.{of_seats};

    ghost from_gives = { λ seats fault. fault ≡ of_seats seats };

    fn from(fault: SeatFault) -> SheetFault {
        match fault {
            SeatFault::Memory => SheetFault::Memory,
            SeatFault::Tied => SheetFault::Refused(SheetRefusal::TiedSeats),
            SeatFault::NoSeat(constituency) => {
                SheetFault::Refused(SheetRefusal::NoSeat(constituency))
            }
        }
    }
}

impl From<UpperFault> for SheetFault {
    ghost use Rattle.zh_sheet.specs.Stages.{of_upper};

    ghost from_gives = { λ upper fault. fault ≡ of_upper upper };

    fn from(fault: UpperFault) -> SheetFault {
        match fault {
            UpperFault::Memory => SheetFault::Memory,
            UpperFault::Refused(refusal) => {
                SheetFault::Refused(SheetRefusal::NoUpperSeats(refusal))
            }
        }
    }
}

/// Why there is no sheet, in the order in which the cases are checked (docs/FORMATS.md, "Replies"). Constituencies and groups
/// are numbered from 1, as in the set-up.
#[derive(Clone, Copy, Debug)]
pub enum SheetRefusal {
    /// A seat of the house is worth as much to one constituency as to another.
    TiedSeats,
    /// The number of the first constituency that gets no seat.
    NoSeat(u32),
    /// The groups get no seats, for this reason.
    NoUpperSeats(UpperRefusal),
    /// The number of the first constituency in which the groups with upper seats have no votes.
    NoVotes(u32),
    /// The seats of the lists are tied: two different matrices follow from the same divisors, with halves rounded either way. The
    /// first quotient on a half is that of this constituency and this group.
    TiedLower(u32, u32),
    /// The search found neither seats nor a tie, and the decision gave no divisors for a sheet either.
    Exhausted,
}

impl SheetRefusal {
    ghost use Rattle.zh_sheet.specs.Refusals.{refusal_name};
    ghost use Rattle.zh_text.specs.Names.{ArePartsOf};

    /// Its name, as replies spell it.
    pub fn name(self) -> Name
        ensures { ArePartsOf (refusal_name self) result }
    {
        match self {
            SheetRefusal::TiedSeats => SeatFault::Tied.name(),
            SheetRefusal::NoSeat(constituency) => SeatFault::NoSeat(constituency).name(),
            SheetRefusal::NoUpperSeats(refusal) => Name::Words(refusal.name()),
            SheetRefusal::NoVotes(constituency) => Name::Number("novotes", constituency),
            SheetRefusal::TiedLower(constituency, group) => {
                Name::Pair("tied lower", constituency, group)
            }
            SheetRefusal::Exhausted => Name::Words("exhausted"),
        }
    }
}

impl fmt::Display for SheetRefusal {
    ghost use Rattle.std.specs.Prelude.{Some};
    ghost use Rattle.zh_sheet.specs.Refusals.{refusal_name};

    ghost output = { λ refusal. Some (refusal_name refusal) };

    fn fmt<W: fmt::Write>(&self, f: &mut fmt::Formatter<W>) -> fmt::Result {
        write!(f, "{}", self.name())
    }
}
