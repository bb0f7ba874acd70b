//! The check of a published sheet: whether it follows from its votes, and whether these are the votes held.
#![tactic(auto)]

mod checked;
mod form;
mod laws;
mod lines;
mod lists;
mod others;
mod reasons;
mod recomputed;

pub use checked::{
    ListQuotient, OffList, OffTotal, OtherVotes, RightSheet, SheetVerdict, WrongLine, check,
};
pub use laws::{made_sheet_is_right, right_sheets_agree, sheet_is_in_its_form};
