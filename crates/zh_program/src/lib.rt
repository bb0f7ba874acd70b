//! The program `zhcount`: it reads its arguments, carries out its task in a world, and says how it ended.
#![tactic(auto)]

mod check;
mod entry;
mod fault;
mod format;
mod laws;
mod list;
mod load;
mod on_disk;
mod paths;
mod place;
mod query;
mod report;
mod run;
mod seats_counted;
mod sheet_front;
mod sheet_seats;
mod shown;
mod texts;
mod unread;

pub use entry::program;
pub use laws::{
    headline_excludes, kept_commands, opening_excludes, promise_excludes, reopenings,
    whole_file_is_checked,
};
pub use on_disk::{Filmed, LoadReader, Used};
pub use unread::refuse_unread;
