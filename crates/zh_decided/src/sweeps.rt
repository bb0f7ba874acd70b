//! Sweeps (Bellman-Ford): potentials are lowered until they no longer change, until a cycle is found along which seats would cost
//! less, or until one falls below its floor. And a bisection for a slack with which a sweep ends at potentials, while there is a
//! cycle with one unit more.
ghost use Rattle.std.specs.Prelude.{◌≡◌, ℕ, ◌<◌, ◌+◌, ◌-◌, ◌≤◌};
ghost use Rattle.zh_decided.specs.Gaps.{IsGap};
ghost use Rattle.zh_decided.specs.Levels.{potential_at};
ghost use Rattle.zh_decided.specs.Sweeps.{EndsSweep};
ghost use Rattle.zh_decided.specs.Taken.{priced_in};

use crate::cycles::Cycle;
use crate::levels::{Descent, descend};
use crate::prices::{Mark, PricedSeats};
use crate::sweep_bounds::Bounds;
use zh_matrices::LINES;

/// Potentials of the rows and of the columns.
#[derive(Clone, Copy)]
pub struct Potentials {
    pub of_rows: [u64; LINES],
    pub of_columns: [u64; LINES],
}

/// How a sweep ends.
#[derive(Clone, Copy)]
pub enum Swept {
    /// The potentials no longer change: they are the greatest that the bounds and the prices allow.
    Still(Potentials),
    /// Seats can move along this cycle. They then cost less than before plus both slacks for each step.
    Cycle(Cycle),
    /// The potential of a row or a column fell below its floor.
    Out,
}

/// Marks that all have this potential.
fn marks_at(potential: u64) -> [Mark; LINES]
    ensures { (g : ℕ) → g < 32 → potential_at result g ≡ potential }
{
    [Mark {
        potential,
        maker: None,
    }; LINES]
}

/// Lowers the potentials of rows and columns from their caps until they no longer change, a cycle is found, or one falls below
/// its floor.
pub fn sweep(priced: &PricedSeats<'_>, bounds: Bounds) -> Swept
    ensures { EndsSweep (priced_in priced.now) bounds result }
{
    let columns = marks_at(bounds.column_cap);
    match descend(priced, bounds, &columns, priced.question.columns) {
        Descent::Still(potentials) => Swept::Still(potentials),
        Descent::Cycle(cycle) => Swept::Cycle(cycle),
        Descent::Out => Swept::Out,
        Descent::Falls(_) => unreachable!(),
    }
}

/// Two slacks of next seats, at most 2^36. With `still_at` the sweep ends at these potentials. `cycle_at` is larger: the seats
/// that this cycle adds cost less than those that it removes plus `cycle_at` for each step.
#[derive(Clone, Copy)]
pub struct Gap {
    pub still_at: u64,
    pub cycle_at: u64,
    pub potentials: Potentials,
    pub cycle: Cycle,
}

/// One step of the bisection: the half of a gap that is a gap again.
fn halve(priced: &PricedSeats<'_>, gap: Gap) -> Gap
    requires gap { IsGap (priced_in priced.now) gap }
    requires wide { gap.still_at + 1 < gap.cycle_at }
    ensures gap { IsGap (priced_in priced.now) result }
    ensures narrower { result.cycle_at - result.still_at < gap.cycle_at - gap.still_at }
    ensures within { result.cycle_at ≤ gap.cycle_at }
{
    let middle = gap.still_at + (gap.cycle_at - gap.still_at) / 2;
    match sweep(priced, Bounds::free(middle, 0)) {
        Swept::Still(potentials) => Gap {
            still_at: middle,
            cycle_at: gap.cycle_at,
            potentials,
            cycle: gap.cycle,
        },
        Swept::Cycle(cycle) => Gap {
            still_at: gap.still_at,
            cycle_at: middle,
            potentials: gap.potentials,
            cycle,
        },
        Swept::Out => unreachable!(),
    }
}

/// Narrows a gap to one unit, by bisection.
pub fn close_gap(priced: &PricedSeats<'_>, gap: Gap) -> Gap
    requires gap { IsGap (priced_in priced.now) gap }
    ensures gap { IsGap (priced_in priced.now) result }
    ensures one_unit { result.cycle_at ≡ result.still_at + 1 }
    ensures within { result.cycle_at ≤ gap.cycle_at }
{
    let mut gap = gap;
    while gap.still_at + 1 < gap.cycle_at {
        gap = halve(priced, gap);
    }
    gap
}
