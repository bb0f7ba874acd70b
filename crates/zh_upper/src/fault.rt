//! Why the groups get no seats.
ghost use Rattle.std.specs.Prelude.{◌≡◌, ◌≤◌, length};
ghost use Rattle.zh_upper.specs.Refusals.{upper_refusal_name};
ghost use Rattle.zh_upper.specs.declared.fault.UpperFault.TheVariants.{Memory};

use std::alloc::AllocError;
use thiserror::Error;
use zh_divisors::ShareFault;

/// Why the groups get no seats, including refused memory.
#[derive(Clone, Copy, Debug, Error)]
pub enum UpperFault {
    /// Memory was refused.
    #[error("out of memory")]
    Memory,
    /// There are no seats for this reason.
    #[error("the groups get no seats")]
    Refused(UpperRefusal),
}

impl From<AllocError> for UpperFault {
    ghost from_gives = { λ _ fault. fault ≡ Memory };

    fn from(_error: AllocError) -> UpperFault {
        UpperFault::Memory
    }
}

impl From<ShareFault> for UpperFault {
    ghost use Rattle.zh_upper.specs.Refusals.{of_share_fault};

    ghost from_gives = { λ shares fault. fault ≡ of_share_fault shares };

    fn from(fault: ShareFault) -> UpperFault {
        match fault {
            ShareFault::Memory => UpperFault::Memory,
            ShareFault::Tied => UpperFault::Refused(UpperRefusal::Tied),
        }
    }
}

/// Why the groups get no seats, in the order in which the cases are checked.
#[derive(Clone, Copy, Debug)]
pub enum UpperRefusal {
    /// No group takes part.
    NoGroup,
    /// The voter sums of all groups that take part are 0.
    NoVoters,
    /// The seats are tied: a seat is worth as much to one group that takes part as to another.
    Tied,
}

impl UpperRefusal {
    /// Its name as replies spell it: at most 12 bytes.
    pub fn name(self) -> &'static str
        ensures name { upper_refusal_name self ≡ result.now }
        ensures short { length result.now ≤ 12 }
    {
        match self {
            UpperRefusal::NoGroup => "nogroup",
            UpperRefusal::NoVoters => "novoters",
            UpperRefusal::Tied => "tied upper",
        }
    }
}
