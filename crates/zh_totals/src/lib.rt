//! Vote totals: the votes of each group in each constituency.
#![tactic(auto)]

mod laws;
mod row_sums;
mod running_count;
mod totals;

pub use laws::{changes_are_noted, no_votes_are_hidden, totals_are_few};
pub use running_count::RunningCount;
pub use totals::{Change, Totals};
