//! The seats of the groups in the whole canton, and the divisor from which they follow.
ghost use Rattle.std.specs.Prelude.{◌≡◌, ◌-◌, ◌≤◌, length, slice_index};

use std::marker::Model;
use zh_divisors::Shares;

/// The seats of each group in the whole canton and the divisor `num / den` that gives them.
///
/// The fraction is not reduced. `upper` makes it from two voter sums and the seats of their groups.
#[derive(Drop)]
pub struct Upper {
    pub(crate) shares: Shares,
}

impl Model for Upper {
    ghost use Rattle.zh_divisors.specs.Shares.{Apportionment};

    ghost Value = { Apportionment };

    ghost view = { λ u. u.shares };
}

impl Upper {
    /// The seats of a group, numbered from 1.
    pub fn seats(&self, group: u32) -> u32
        requires from_one { 1 ≤ group }
        requires there { group ≤ length self.now.seats }
        ensures { result ≡ slice_index self.now.seats (group - 1) }
    {
        self.shares.seats()[(group - 1) as usize]
    }

    /// The numerator of the divisor.
    pub fn num(&self) -> u64
        ensures { result ≡ self.now.num }
    {
        self.shares.num()
    }

    /// The denominator of the divisor.
    pub fn den(&self) -> u32
        ensures { result ≡ self.now.den }
    {
        self.shares.den()
    }
}
