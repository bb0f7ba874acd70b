//! Text and numbers, as they are read, written and shown.
#![tactic(auto)]

mod fixed_text;
mod name;
mod numbers;
mod output;
mod shown;
mod signs;

pub use fixed_text::{
    push, push_bytes, push_divisor, push_divisor_or_dash, push_fraction, push_numbered,
    push_numeral, push_numeral_or_dash,
};
pub use name::{Name, push_name};
pub use numbers::{DecimalText, Padded, millionths_text, numeral, padded, push_number};
pub use output::{WriteFault, put};
pub use shown::{ShownNames, push_shown, shown_at};
