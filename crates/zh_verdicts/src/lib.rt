//! The check of a sheet, with its votes compared with an export if there is one, and the text of the verdict.
#![tactic(auto)]

mod check;
mod quotient;
mod reports;
mod right;
mod verdict_text;
mod wrong_line;

pub use check::{SHEET_FRONT, SpelledVerdict, spelled_verdict};
pub use reports::{push_shown, rows_report, setup_report, shown_place};
pub use right::unchecked_line;
