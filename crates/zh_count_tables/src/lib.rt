//! The votes so far, and the groups and constituencies of a sheet: as comma-separated text and as tables for people.
#![tactic(auto)]

mod fields;
mod quorum_so_far;
mod returned;
mod sheet_cells;
mod sheet_lines;
mod vote_cells;
mod votes;

pub use sheet_cells::{constituency_table, group_table};
pub use sheet_lines::{write_constituencies, write_groups};
pub use vote_cells::votes_table;
pub use votes::{VotesOf, write_votes};
