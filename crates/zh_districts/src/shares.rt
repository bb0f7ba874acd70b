//! The seats of the constituencies (GPR section 88), the constituencies that are tied, and those that get no seat.
ghost use Rattle.std.specs.Prelude.{◌≡◌, ◌≤◌, ◌<◌, ℕ, List, MatchOption, IfOk, IsErrOf, length, slice_index, ◌==◌, false, map, replicate};
ghost use Rattle.zh_districts.specs.Canton.{IsCanton};
ghost use Rattle.zh_districts.specs.Claims.{IsTiedIn, IsUnseated, Tell};
ghost use Rattle.zh_districts.specs.Seats.{persons, AreSeats, IsFirstWithout};
ghost use Rattle.zh_divisors.specs.Fit.{IsTied};
ghost use Rattle.zh_divisors.specs.Shares.{Apportions, HasDivisor, RoundsEach};

use crate::setup::Setup;
use std::alloc::{AllocError, Global};
use thiserror::Error;
use zh_divisors::{ShareFault, Shares, Weights, apportion, same_claims};
use zh_text::Name;

/// Why the constituencies get no seats.
#[derive(Clone, Copy, Debug, Error)]
#[error("{}", self.name())]
pub enum SeatFault {
    Memory,
    /// A seat is worth as much to one constituency as to another.
    Tied,
    /// The number of the first constituency that gets no seat.
    NoSeat(u32),
}

impl SeatFault {
    ghost use Rattle.zh_districts.specs.SeatNames.{seats_name};
    ghost use Rattle.zh_text.specs.Names.{ArePartsOf};

    /// Its name, as replies and reports spell it.
    pub fn name(self) -> Name
        ensures { ArePartsOf (seats_name self) result }
    {
        match self {
            SeatFault::Memory => Name::Words("memory"),
            SeatFault::Tied => Name::Words("tied seats"),
            SeatFault::NoSeat(constituency) => Name::Number("noseat", constituency),
        }
    }
}

impl From<AllocError> for SeatFault {
    ghost use Rattle.zh_districts.specs.declared.shares.SeatFault.TheVariants as faults;

    ghost from_gives = { λ _ fault. fault ≡ faults.Memory };

    fn from(_: AllocError) -> Self {
        SeatFault::Memory
    }
}

fn fault_of(fault: ShareFault) -> SeatFault
    ensures memory { fault ≡ ShareFault.Memory → result ≡ SeatFault.Memory }
    ensures tied { fault ≡ ShareFault.Tied → result ≡ SeatFault.Tied }
{
    match fault {
        ShareFault::Memory => SeatFault::Memory,
        ShareFault::Tied => SeatFault::Tied,
    }
}

/// The number of the first constituency without a seat. None if each has one.
fn first_without(seats: &[u32]) -> Option<u32>
    requires { length seats.now ≤ 32 }
    ensures { MatchOption result ((k : ℕ) → k < length seats.now → 1 ≤ slice_index seats.now k) (IsFirstWithout seats.now) }
{
    for (place, count) in seats.iter().enumerate() {
        if *count == 0 {
            return Some(place as u32 + 1);
        }
    }
    None
}

/// The seats of the constituencies in proportion to their persons. A constituency can get none. Fails if the seats are tied or
/// memory is refused.
pub(crate) fn proportion(alloc: Global, setup: &Setup) -> Result<Shares, ShareFault>
    ensures shares { Apportions (persons setup.now) setup.now.house result }
    ensures limits { IsCanton setup.now }
{
    let persons = setup.each_persons(alloc)?;
    let weights = Weights::new(alloc, &persons)?;
    apportion(alloc, &weights, setup.house())
}

/// The seats of the constituencies in proportion to their persons (GPR section 88), each at least 1.
pub fn seats(alloc: Global, setup: &Setup) -> Result<Shares, SeatFault>
    ensures seats { IfOk result (λ shares. AreSeats setup.now shares.seats) }
    ensures each { IfOk result (λ shares. (k : ℕ) → k < length shares.seats → 1 ≤ slice_index shares.seats k) }
    ensures divisor { IfOk result (HasDivisor (persons setup.now)) }
    ensures rounds { IfOk result (RoundsEach (persons setup.now)) }

    // The cases exclude each other. So, unless the fault is `Memory`, each answer is given if and only if its case holds.
    ensures tied { IsErrOf result SeatFault.Tied → IsTied (persons setup.now) setup.now.house }
    ensures no_seat { (d : ℕ) → IsErrOf result (SeatFault.NoSeat d) → (seats : List ℕ) × AreSeats setup.now seats × IsFirstWithout seats d }
{
    let shares = match proportion(alloc, setup) {
        Ok(shares) => shares,
        Err(fault) => return Err(fault_of(fault)),
    };
    match first_without(shares.seats()) {
        Some(constituency) => Err(SeatFault::NoSeat(constituency)),
        None => Ok(shares),
    }
}

/// For each constituency, in order, whether it is one of those between which seats are tied. Fails if memory is refused.
pub fn tied(alloc: Global, setup: &Setup) -> Result<Vec<bool>, AllocError>
    ensures { IfOk result (λ marks. Tell (IsTiedIn setup.now) (length setup.now.constituencies) marks.items) }
{
    let persons = setup.each_persons(alloc)?;
    let weights = Weights::new(alloc, &persons)?;
    same_claims(alloc, &weights, setup.house())
}

/// For each number of seats, in order, whether it is 0.
fn nothing(alloc: Global, seats: &[u32]) -> Result<Vec<bool>, AllocError>
    ensures { IfOk result (λ marks. marks.items ≡ map (λ n. n == 0) seats.now) }
{
    seats.iter().map(|count| *count == 0).collect(alloc)
}

/// `count` marks, none of them set.
fn unmarked(alloc: Global, count: usize) -> Result<Vec<bool>, AllocError>
    ensures { IfOk result (λ marks. marks.items ≡ replicate count false) }
{
    vec![in alloc; false; count]
}

/// For each constituency, in order, whether it gets no seat. If the seats are tied, no constituency is marked. Fails if memory
/// is refused.
pub fn unseated(alloc: Global, setup: &Setup) -> Result<Vec<bool>, AllocError>
    ensures { IfOk result (λ marks. Tell (IsUnseated setup.now) (length setup.now.constituencies) marks.items) }
{
    match proportion(alloc, setup) {
        Ok(shares) => nothing(alloc, shares.seats()),
        Err(ShareFault::Tied) => unmarked(alloc, setup.constituencies() as usize),
        Err(ShareFault::Memory) => Err(AllocError),
    }
}
