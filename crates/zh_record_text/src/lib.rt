//! Records of comma-separated text, written one after the other.
#![tactic(auto)]

mod records;

pub use records::{
    NumberedRows, RecordFault, close_table, open_table, write_each, write_record, write_table,
};
