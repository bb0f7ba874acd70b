//! The weights to which seats are apportioned.
ghost use Rattle.std.specs.Prelude.{◌≡◌, ◌^◌, ◌≤◌, All, IfOk, length};

use std::alloc::{AllocError, Global};
use std::marker::Model;

/// The weights of an apportionment, for example persons or voter sums: 1 to 32 of them, each at most 10^14.
#[derive(Drop)]
pub struct Weights {
    numbers: Vec<u64>,
}

impl Model for Weights {
    ghost use Rattle.std.specs.Prelude.{ℕ, List};
    ghost use Rattle.zh_divisors.specs.Weights.{AreWeights};

    ghost Value = { List ℕ };

    ghost view = { λ w. w.numbers.items };

    ghost invariant = { λ w. AreWeights w.numbers.items };
}

impl Weights {
    ghost use Rattle.zh_divisors.specs.Weights.{AreWeights};

    /// Takes these numbers as weights.
    pub fn new(alloc: Global, numbers: &[u64]) -> Result<Self, AllocError>
        requires not_empty { 1 ≤ length numbers.now }
        requires at_most_32 { length numbers.now ≤ 32 }
        requires each_small { All (λ w. w ≤ 10 ^ 14) numbers.now }
        ensures { IfOk result (λ weights. weights ≡ numbers.now) }
    {
        Ok(Weights {
            numbers: Vec::from_slice(alloc, numbers)?,
        })
    }

    pub(crate) fn as_slice(&self) -> &[u64]
        ensures value { result.now ≡ self.now }
        ensures limits { AreWeights self.now }
    {
        self.numbers.as_slice()
    }
}
