//! The quorum: which groups take part in the apportionment (GPR section 102, and in addition a canton-wide quorum).
#![tactic(auto)]

pub use quorum::participating;

mod canton_quorum;
mod quorum;
