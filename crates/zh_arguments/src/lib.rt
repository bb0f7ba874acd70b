//! The arguments of the program `zhcount`, read by clap.
#![tactic(auto)]

mod arguments;
mod check;
mod commands;
mod load;
mod rules;
mod seats;
mod table;
mod view;
mod votes;

pub use arguments::{Paths, Task, read_arguments};
pub use check::CheckPaths;
pub use commands::Query;
pub use seats::{Layout, SeatsOf};
