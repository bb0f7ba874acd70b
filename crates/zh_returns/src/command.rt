//! Commands, and their formats.

use crate::row::Row;
use crate::rows::Rows;

/// What a desk, or `load`, asks the count to do. Municipalities and lists are numbered from 1, the first replacement number
/// is 1, and desks have the numbers 1 to 8. Desk 0 is `load`, or the command was read in format One, which has no desks.
#[derive(Drop)]
pub enum Command<'a> {
    Return {
        desk: u8,
        row: Row,
    },
    /// The entry of a list in a municipality is withdrawn: the list then has no votes there. Like a return, a withdrawal has a
    /// replacement number.
    Withdraw {
        desk: u8,
        municipality: u32,
        list: u32,
        number: u32,
    },
    /// A municipality is complete. Until it is opened again, its returns and withdrawals are refused.
    Close {
        municipality: u32,
    },
    Reopen {
        municipality: u32,
    },
    /// Returns, 1 to 1,000. If one of them is refused, none is put into the count.
    Batch {
        desk: u8,
        rows: Rows<'a>,
    },
}

/// How commands and counts are spelled as bytes. Format One has no desks. It is still read but no longer written.
#[derive(Clone, Copy)]
pub enum Format {
    One,
    Two,
}

/// The greatest desk number that a command in format Two can have.
pub const LAST_DESK: u8 = 8;

/// The first byte of a return in format One.
pub(crate) const RETURN_ONE: u8 = 1;

/// The first byte of a withdrawal in format One.
pub(crate) const WITHDRAW_ONE: u8 = 2;

/// The first byte of a closing, in either format.
pub(crate) const CLOSE: u8 = 3;

/// The first byte of a reopening, in either format.
pub(crate) const REOPEN: u8 = 4;

/// The first byte of a batch in format One.
pub(crate) const BATCH_ONE: u8 = 5;

/// The first byte of a return in format Two.
pub(crate) const RETURN_TWO: u8 = 6;

/// The first byte of a withdrawal in format Two.
pub(crate) const WITHDRAW_TWO: u8 = 7;

/// The first byte of a batch in format Two.
pub(crate) const BATCH_TWO: u8 = 8;
