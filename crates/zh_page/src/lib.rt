//! The check of a published sheet for a page, which hands in texts: there are no files.
#![tactic(auto)]

mod answer;
mod checked;

pub use answer::{HandedStatus, PageAnswer, PageStatus, hand_over};
pub use checked::check_texts;
