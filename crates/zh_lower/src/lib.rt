//! Lower apportionment: the seats of each group in each constituency (GPR section 104).
//!
//! Each constituency and each group has a divisor. The votes of a group in a constituency, divided by both divisors, round to
//! its seats there. The seats of each constituency and of each group add up to their totals. If some divisors do this with no
//! quotient on a half, no divisors give other seats.
#![tactic(auto)]

mod alternating_scaling;
mod apportionment;
mod divisors;
mod end_test;
mod extremes;
mod fallback;
mod half_step;
mod laws;
mod lower;
mod quotient;
mod tie;

pub use alternating_scaling::{SearchRoom, SearchState, search};
pub use apportionment::{find, find_or_reason};
pub use end_test::Ending;
pub use fallback::Decided;
pub use half_step::{middle_columns, middle_rows};
pub use laws::{one_answer, seats_within_bounds};
pub use lower::{Lower, LowerFault, NoLower};
pub use tie::{Ranges, Tie, bound_cells, lot};
pub use zh_matrices::{Matrix, is_strict};
