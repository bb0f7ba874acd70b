//! The count: what the municipalities returned, the verdict on a command, the batches of the desks, and the bytes of a count.
#![tactic(auto)]

mod batch;
mod command;
mod command_bytes;
mod count;
mod entry;
mod judgement;
mod laws;
mod payload;
mod row;
mod row_checks;
mod rows;
mod step;

pub use batch::{Batch, BatchWriter, Desk};
pub use command::{Command, Format, LAST_DESK};
pub use command_bytes::{decode_command, encode_command};
pub use count::{Count, MOST_VOTES};
pub use entry::{Entry, Origin};
pub use judgement::{Reason, Verdict};
pub use laws::{
    accepted_fits, accepted_is_speakable, batch_is_held, one_command, one_payload, speakable_fits,
};
pub use payload::{PAYLOAD_LENGTH, payload_format};
pub use row::{Row, RowFault, unfit};
pub use rows::{MOST_ROWS, Rows};
