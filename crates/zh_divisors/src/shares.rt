//! The result of an apportionment: the seats of each weight, or why there are none.
ghost use Rattle.std.specs.Prelude.{◌≡◌};
ghost use Rattle.zh_divisors.specs.declared.shares.ShareFault.TheVariants.{Memory};

use std::alloc::AllocError;
use std::marker::Model;
use thiserror::Error;

/// Why an apportionment gives no seats: an allocation was refused, or a seat is worth as much to two weights,
/// so that no divisor gives seats without a quotient on a half.
#[derive(Clone, Copy, Debug, Error)]
pub enum ShareFault {
    #[error("out of memory")]
    Memory,
    #[error("the seats are tied")]
    Tied,
}

impl From<AllocError> for ShareFault {
    ghost from_gives = { λ _ fault. fault ≡ Memory };

    fn from(_error: AllocError) -> ShareFault {
        ShareFault::Memory
    }
}

/// The seats of an apportionment and the divisor `num / den` that gives them.
///
/// The fraction is not reduced: `num` is from 1 to 2 * 10^14, `den` from 1 to 800.
#[derive(Drop)]
pub struct Shares {
    seats: Vec<u32>,
    num: u64,
    den: u32,
}

impl Model for Shares {
    ghost use Rattle.zh_divisors.specs.Shares.{Apportionment};

    ghost Value = { Apportionment };

    ghost view = { λ s. record { seats = s.seats.items; num = s.num; den = s.den } };
}

impl Shares {
    /// These seats and the divisor that gives them.
    pub fn new(seats: Vec<u32>, num: u64, den: u32) -> Self
        ensures { result ≡ record { seats = seats.items; num = num; den = den } }
    {
        Shares { seats, num, den }
    }

    /// The seats of each weight, in the order of the weights.
    pub fn seats(&self) -> &[u32]
        ensures { result.now ≡ self.now.seats }
    {
        self.seats.as_slice()
    }

    /// The numerator of the divisor.
    pub fn num(&self) -> u64
        ensures { result ≡ self.now.num }
    {
        self.num
    }

    /// The denominator of the divisor.
    pub fn den(&self) -> u32
        ensures { result ≡ self.now.den }
    {
        self.den
    }
}
