//! Returns as comma-separated text: a batch read from it, the count written to it, and the sums of such an export read
//! back.
#![tactic(auto)]

mod batch_reader;
mod export;
mod front_reader;
mod held_sums;
mod laws;
mod noted_reader;
mod records;
mod row_reader;

pub use batch_reader::{LoadFault, hold, read_batch};
pub use export::write_count;
pub use held_sums::{HeldFault, HeldSums, read_held};
pub use laws::{
    export_adds_up, few_records, few_rows, one_holding, one_loading, short_records_are_read,
};
pub use noted_reader::NotedReader;
pub use records::{ReadFault, field, is_names, may_be_row, next_record, reader_of, row_of};
pub use row_reader::{Takes, read_rows};
