//! Matrices of votes with the seats that their rows and columns are to get, and which seats follow from them under
//! divisors (GPR section 104). This needs no search: anyone who has the seats and the divisors can test them.
#![tactic(auto)]

pub use certificates::{column_sum, follows, is_strict, row_sum};
pub use laws::one_set_of_divisors;
pub use question::{LINES, MOST_OF_COLUMN, MOST_OF_ROW, Matrix, Proposal, Question};
pub use rounding::Rounding;

mod certificates;
mod laws;
mod question;
mod rounding;
