//! The module of the page: the check of a sheet, for a caller that is not written in Rattle.
#![tactic(auto)]

mod export;

pub use export::check_sheet;
