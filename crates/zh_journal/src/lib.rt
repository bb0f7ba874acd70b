//! Records in one area of a disk, each with a gate.
//!
//! An area is 1,024 pages of 256 bytes. Byte 0 of a page is its gate. A record counts once the gate of its first page
//! is open on the disk. docs/FORMATS.md describes the layout and each disk call.
#![tactic(auto)]

mod area;
mod fault;
mod gate;
mod page;
mod reader;
mod record;

pub use area::Area;
pub use fault::{AppendFault, AreaFault, OpenFault};
pub use gate::{OPEN_GATE, open_gate};
pub use page::{AREA_LENGTH, LONGEST_PAYLOAD, pages_of};
pub use reader::Reader;
