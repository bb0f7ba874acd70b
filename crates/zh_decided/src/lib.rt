//! The decision on votes and the seats that rows and columns are to get: no seats fit, divisors of a sheet give seats, there is
//! a near tie, or no divisors in millionths within narrower limits give seats. One of these is found for every question within
//! the limits, if its row totals and its column totals have the same sum.
#![tactic(auto)]

mod boxes;
mod cells;
mod completion;
mod cycles;
mod decision;
mod differences;
mod floating;
mod impossible;
mod laws;
mod levels;
mod logarithms;
mod prices;
mod sweep_bounds;
mod sweeps;
mod ways;
mod within;

pub use cells::CellBounds;
pub use decision::{Decision, DecisionRoom, Findings, decide};
pub use differences::differ_at;
pub use impossible::{MarkedRows, place_all};
pub use laws::{impossible_totals, near_tie};
pub use within::{are_balanced, fill_within};
