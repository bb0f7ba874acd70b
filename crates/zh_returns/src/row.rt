//! A row: a return of one list in one municipality, why a batch does not take it, and its bytes.
ghost use Rattle.std.specs.Prelude.{◌≡◌, ◌≤◌, IfNone, length};
ghost use Rattle.zh_returns.specs.Decoding.{Decodes};
ghost use Rattle.zh_returns.specs.RowBytes.{row_from};
ghost use Rattle.zh_returns.specs.RowFaults.{unfit};
ghost use Rattle.zh_returns.specs.Rows.{FitsRow, row_spelling, IsSpeakableRow};
ghost use Rattle.zh_returns.specs.declared.row.Row.{Row};

use crate::count::MOST_VOTES;
use crate::judgement::Reason;
use byteorder::{BigEndian, ByteOrder};
use thiserror::Error;
use zh_districts::Setup;

/// A return of one list in one municipality: its votes and its replacement number, of which the first is 1.
#[derive(Clone, Copy)]
pub struct Row {
    pub municipality: u32,
    pub list: u32,
    pub number: u32,
    pub votes: u32,
}

/// Why a batch does not take a row: the first reason that applies.
#[derive(Clone, Copy, Debug, PartialEq, Eq, Error)]
#[error("{}", self.name())]
pub enum RowFault {
    /// The batch already has a row with this municipality and list.
    Twice,
    /// The batch already has 1,000 rows.
    BatchFull,
}

impl RowFault {
    ghost use Rattle.zh_returns.specs.RowFaults.{row_fault_name};

    /// Its name, as replies spell it.
    pub fn name(self) -> &'static str
        ensures name { result.now ≡ row_fault_name self }
        ensures short { length result.now ≤ 9 }
    {
        match self {
            RowFault::Twice => "twice",
            RowFault::BatchFull => "batchfull",
        }
    }
}

/// Why a row is refused whatever the batch contains: the first of `Municipality`, `List` and `Votes` that applies. None if none
/// of them does. The replacement number plays no part.
pub fn unfit(setup: &Setup, row: Row) -> Option<Reason>
    ensures first { result ≡ unfit setup.now row }
    ensures fits { IfNone result (FitsRow row) }
{
    if let Some(place) = setup.misplaced(row.municipality, row.list) {
        return Some(Reason::from(place));
    }
    if row.votes > MOST_VOTES {
        return Some(Reason::Votes);
    }
    // So the municipality and the list fit into the bytes of a row.
    let is_small = setup.municipalities() <= 512 && setup.groups() <= 32;
    prove!(is_small);
    None
}

/// The length of a row, in bytes.
pub(crate) const ROW_LENGTH: usize = 11;

pub(crate) fn write_row(row: Row, out: &mut [u8])
    requires fits { FitsRow row }
    requires room { length out.old ≡ ROW_LENGTH }
    ensures { out.new ≡ row_spelling row }
{
    BigEndian::write_u16(out, row.municipality as u16);
    out[2] = row.list as u8;
    BigEndian::write_u32(&mut out[3..], row.number);
    BigEndian::write_u32(&mut out[7..], row.votes);
}

/// The row that these bytes spell. Its replacement number can be 0.
pub(crate) fn row_of(bytes: &[u8]) -> Row
    requires { length bytes.now ≡ ROW_LENGTH }
    ensures row { result ≡ row_from bytes.now }
    ensures fits { FitsRow result }
    ensures spelling { row_spelling result ≡ bytes.now }
{
    Row {
        municipality: BigEndian::read_u16(bytes) as u32,
        list: bytes[2] as u32,
        number: BigEndian::read_u32(&bytes[3..]),
        votes: BigEndian::read_u32(&bytes[7..]),
    }
}

/// The row that these bytes spell. None if there are not 11 bytes, or if the replacement number is 0.
pub(crate) fn read_row(bytes: &[u8]) -> Option<Row>
    ensures { Decodes IsSpeakableRow row_spelling bytes.now result }
{
    if bytes.len() != ROW_LENGTH {
        return None;
    }
    let row = row_of(bytes);
    if row.number == 0 { None } else { Some(row) }
}
