//! Seats in proportion to weights, and the divisor of a line of a matrix of votes.
//!
//! Each weight is divided by the same divisor and rounded to the nearest whole number, so that the seats add up to the
//! house. The constituencies get their seats in this way (GPR section 88), and so do the groups in the whole canton (GPR
//! section 103). If no divisor does this without a quotient on a half, the seats are tied.
//!
//! In a matrix each row and each column has its own divisor (GPR section 104). `line` gives one row or column a divisor
//! that suits its total, while the divisors of the lines that cross it stay the same.
#![tactic(auto)]

pub use apportionment::{apportion, same_claims};
pub use laws::{line_rule, one_fit};
pub use lines::line;
pub use shares::{ShareFault, Shares};
pub use weights::Weights;

mod apportionment;
mod laws;
mod lines;
mod shares;
mod weights;
