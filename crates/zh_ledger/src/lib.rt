//! The count on a disk.
//!
//! A command is judged, stored on the disk, and only then counted. After a stop at any moment, the next opening of an honest
//! disk finds the count after a prefix of the accepted commands, which includes every one that was acknowledged.
#![tactic(auto)]

mod laws;
mod ledger;
mod opening;
mod outcome;
mod storage;

pub use laws::{nights, one_count, submissions};
pub use ledger::Ledger;
pub use opening::OpenFault;
pub use outcome::Outcome;
pub use zh_snapshot::FormatFault;
