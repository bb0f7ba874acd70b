//! The records of a text and their fields.
ghost use Rattle.std.specs.Bool.{MatchBool};
ghost use Rattle.std.specs.Prelude.{◌≡◌, ◌++◌, ◌∷◌, [], ℕ, List, Some, IfOk, option_map, ◌≢◌, ◌↔◌, ◌<◌, IsTrue, MatchResult, MatchOption};
ghost use Rattle.std.specs.Prelude.{get_or, length};
ghost use Rattle.csv.specs.Records.{fields_of};
ghost use Rattle.zh_csv.specs.Front.{front_of};
ghost use Rattle.zh_csv.specs.Fronts.{front_left};
ghost use Rattle.zh_csv.specs.Load.{fields, IsReadable};
ghost use Rattle.zh_csv.specs.Reading.{IsUnread};
ghost use Rattle.zh_csv.specs.Records.{Record, AreAll, HasRead, may_be_row, names};
ghost use Rattle.zh_returns.specs.declared.row.Row.{Row};

use crate::batch_reader::LoadFault;
use crate::front_reader::FrontReader;
use csv::{ByteRecord, Error, ErrorKind, Reader, ReaderBuilder};
use std::alloc::Global;
use std::io::Read;
use zh_returns::Row;
use zh_text::numeral;

/// Why there is no record, although the text has not ended.
#[derive(Clone, Copy)]
pub enum ReadFault {
    /// An allocation was refused.
    Memory,
    /// The reader failed.
    Read,
}

/// A CSV reader of the front of a text. It treats no record as a header row and accepts any number of fields in a
/// record.
pub fn reader_of<R: Read>(alloc: Global, text: R) -> Reader<FrontReader<R>>
    ensures { (front : List ℕ) → option_map front_of (R.remaining text) ≡ Some front
        → HasRead (front_left R.remaining) front [] result }
{
    let front = FrontReader::new(text);
    ReaderBuilder::new()
        .has_headers(false)
        .flexible(true)
        .from_reader(alloc, front)
}

/// The fault for an error of the CSV reader.
fn fault_by(error: &Error) -> ReadFault {
    match error.kind() {
        ErrorKind::OutOfMemory => ReadFault::Memory,
        // Records can have any number of fields, so the other errors should be those of the underlying reader. The contract of `csv`
        // does not say so.
        _ => ReadFault::Read,
    }
}

/// Reads the next record. Returns whether there was one.
pub fn next_record<R: Read>(
    reader: &mut Reader<R>,
    csv_record: &mut ByteRecord,
) -> Result<bool, ReadFault>
    ensures { (text : List ℕ) (given : List Record) → HasRead R.remaining text given reader.old → IfOk result
        (λ found. MatchBool found (HasRead R.remaining text (given ++ fields_of csv_record.new ∷ []) reader.new) (AreAll text given)) }
{
    match reader.read_byte_record(csv_record) {
        Ok(found) => Ok(found),
        Err(error) => Err(fault_by(&error)),
    }
}

/// The number of fields in a record.
pub const FIELDS: usize = 4;

/// The most bytes of a record: those of its fields, and one more for each field.
pub(crate) const MOST_BYTES: usize = 1_000;

/// The field of a record at an index, from 0.
pub fn field(csv_record: &ByteRecord, place: usize) -> &[u8]
    requires { place < length (fields_of csv_record.now) }
    ensures { result.now ≡ get_or (fields_of csv_record.now) place [] }
{
    csv_record.get(place).unwrap()
}

/// Whether these four fields are the names of the columns.
fn are_names(municipality: &[u8], list: &[u8], number: &[u8], votes: &[u8]) -> bool
    ensures { IsTrue result ↔ (municipality.now ∷ list.now ∷ number.now ∷ votes.now ∷ [] ≡ names) }
{
    municipality == b"municipality".as_slice()
        && list == b"list".as_slice()
        && number == b"number".as_slice()
        && votes == b"votes".as_slice()
}

/// Whether a record consists of the names of the columns.
pub fn is_names(csv_record: &ByteRecord) -> bool
    ensures { IsTrue result ↔ (fields_of csv_record.now ≡ names) }
{
    csv_record.len() == FIELDS
        && are_names(
            field(csv_record, 0),
            field(csv_record, 1),
            field(csv_record, 2),
            field(csv_record, 3),
        )
}

/// The row in a record of four fields.
fn row_in(csv_record: &ByteRecord) -> Option<Row>
    requires { length (fields_of csv_record.now) ≡ FIELDS }
    ensures { MatchOption result
        ((row : Row) → IsReadable row → fields_of csv_record.now ≢ fields row)
        (λ row. IsReadable row × (fields_of csv_record.now ≡ fields row)) }
{
    let row = Row {
        municipality: numeral(field(csv_record, 0))?,
        list: numeral(field(csv_record, 1))?,
        number: numeral(field(csv_record, 2))?,
        votes: numeral(field(csv_record, 3))?,
    };
    if row.number == 0 { None } else { Some(row) }
}

/// Whether a record can be that of a row: it has four fields, and at most `MOST_BYTES` bytes.
pub fn may_be_row(csv_record: &ByteRecord) -> bool
    ensures { result ≡ may_be_row (fields_of csv_record.now) }
{
    if csv_record.len() != FIELDS {
        return false;
    }
    let front = field(csv_record, 0)
        .len()
        .saturating_add(field(csv_record, 1).len());
    let back = field(csv_record, 2)
        .len()
        .saturating_add(field(csv_record, 3).len());
    front.saturating_add(back) <= MOST_BYTES - FIELDS
}

/// The row of a record, or why the record is not a row.
pub fn row_of(csv_record: &ByteRecord) -> Result<Row, LoadFault>
    ensures { MatchResult result
        (λ row. IsReadable row × (fields_of csv_record.now ≡ fields row))
        (IsUnread fields IsReadable (fields_of csv_record.now)) }
{
    if !may_be_row(csv_record) {
        return Err(LoadFault::Csv);
    }
    row_in(csv_record).ok_or(LoadFault::Syntax)
}
