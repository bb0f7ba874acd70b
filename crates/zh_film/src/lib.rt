//! Values that only clauses read: a list of earlier values, and a film of a reader, a writer and a disk.
#![tactic(auto)]

mod film;
mod kind;
mod past;

pub use film::Film;
pub use kind::FrameKind;
pub use past::Past;
