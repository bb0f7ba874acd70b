//! Sheets: the distribution of the seats of an election with all that it follows from, so that anyone can
//! check each seat (GPR sections 88 and 102 to 104).
#![tactic(auto)]

mod above;
mod fault;
mod given_lists;
mod laws;
mod list_question;
mod list_ranges;
mod list_seats;
mod lot;
mod made;
mod reason;
mod sheet;

pub use fault::{SheetFault, SheetRefusal};
pub use given_lists::given;
pub use laws::{made_is_given, one_result, one_sheet};
pub use list_ranges::ListRanges;
pub use list_seats::ListSeats;
pub use lot::{Lot, explain_tie};
pub use made::{make, make_or_reason};
pub use reason::{ExhaustedReason, ListTie, NoSheet};
pub use sheet::Sheet;
pub use zh_upper::{SeatRanges, UpperRefusal};
