//! Voter numbers and upper seats: the seats of each group in the whole canton (GPR section 103).
//!
//! The votes of a list are divided by the seats of its constituency and rounded, which gives its voter number: a
//! voter has as many votes as the constituency has seats. The voter numbers of a group are added up over the canton.
//! The seats of the house are then apportioned, in proportion to these sums, to the groups that take part.
#![tactic(auto)]

pub use apportionment::upper;
pub use fault::{UpperFault, UpperRefusal};
pub use laws::one_voter_number;
pub use ranges::{SeatRanges, upper_ranges};
pub use seats::Upper;
pub use voter_sums::{voter_number, voters};

mod apportionment;
mod fault;
mod laws;
mod ranges;
mod seats;
mod voter_sums;
