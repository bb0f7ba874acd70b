//! The set-up of an election: the house, the constituencies with their municipalities, and the groups.
#![tactic(auto)]

mod bytes;
mod laws;
mod setup;
mod shares;

pub use laws::equal_bytes;
pub use setup::{Constituency, Draft, Group, Misplaced, Municipality, Setup, setup_bytes};
pub use shares::{SeatFault, seats, tied, unseated};
