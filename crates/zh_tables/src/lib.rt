//! Tables of a set-up, and of how many of its returns are in, as comma-separated text: constituencies with their seats,
//! municipalities, groups, lists, the returns that are due or missing, implausible votes, and what keeps the set-up from ever
//! giving seats.
#![tactic(auto)]

mod due;
mod fault;
mod held_rows;
mod implausible;
mod problems;
mod progress;
mod status;
mod tables;
mod view;

pub use due::exceeds_load;
pub use fault::ListFault;
pub use held_rows::HeldRows;
pub use problems::{SetupProblems, problems_line, setup_problems};
pub use status::write_status;
pub use tables::{Part, Table, write_list};
pub use view::{View, said_of};
