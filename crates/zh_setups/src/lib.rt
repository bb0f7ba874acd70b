//! Set-ups that are read from a text in TOML.
#![tactic(auto)]

mod checks;
mod document;
mod doubles;
mod example;
mod keys;
mod place;
mod table;
mod text;

pub use example::rehearsal;
pub use place::{FaultPlace, Key};
pub use text::{SetupFault, SetupRefusal, read_setup};
