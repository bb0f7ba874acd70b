//! The lines that the desks send, and the replies that they get, byte for byte.
#![tactic(auto)]

mod laws;
mod lines;
mod parser;
mod replies;

pub use laws::{one_desk, one_reading, one_reply, one_spelling};
pub use lines::{BatchStep, DeskCommand, DeskQuery, Line, LineFault, Request};
pub use parser::{desk_of, parse_line};
pub use replies::{Refusal, Reply, ReplyLine, answer_line, write_reply};
pub use zh_sheet::SheetRefusal;
pub use zh_text::{WriteFault, put};
