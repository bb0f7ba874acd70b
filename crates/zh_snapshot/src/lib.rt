//! The set-up bytes of a disk and, in one of its slots, a snapshot and the records after it.
//!
//! docs/FORMATS.md describes the layout of the disk, and which disk calls each call here makes.
#![tactic(auto)]

mod fault;
mod format;
mod heads;
mod laws;
mod layout;
mod refill;
mod store;

pub use fault::{AppendFault, FormatFault, OpenFault, StoreFault, SwitchFault};
pub use laws::one_content;
pub use layout::SNAPSHOT_LENGTH;
pub use store::Store;
