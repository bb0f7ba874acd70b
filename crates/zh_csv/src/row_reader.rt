//! The rows of a text, read one after another.

ghost use Rattle.std.specs.Prelude.{◌≡◌, ◌≢◌, ◌<◌, ◌⊎◌, ◌++◌, ◌∷◌, [], ℕ, List, Some, IsErrOf, MatchResult, length, option_map, true};
ghost use Rattle.csv.specs.Records.{fields_of};
ghost use Rattle.zh_districts.specs.Canton.{Canton};
ghost use Rattle.zh_csv.specs.Front.{front_of};
ghost use Rattle.zh_csv.specs.Noted.{has_failed, inner_reader};
ghost use Rattle.zh_csv.specs.Reading.{IsUnheld, IsUnread, ReadsRows};
ghost use Rattle.zh_csv.specs.Records.{HasRead, names};
ghost use Rattle.zh_csv.specs.declared.batch_reader.LoadFault.{LoadFault};

use crate::batch_reader::LoadFault;
use crate::noted_reader::NotedReader;
use crate::records::{is_names, next_record, reader_of};
use csv::{ByteRecord, Reader};
use std::alloc::Global;
use std::io::Read;

/// A type that takes rows of one kind, one after another, and holds them.
pub trait Takes {
    ghost use Rattle.zh_districts.specs.Canton.{Canton};
    ghost use Rattle.zh_csv.specs.Reading.{RowKind};

    /// The type of a row.
    type Row;

    /// The kind of its rows, given the set-up.
    ghost kind: { Canton → RowKind Self.Row };

    /// Says that these rows of a set-up are held.
    ghost holds: { Canton → Self → List Self.Row → Type 0 };

    /// Takes the row in a record, after those that it already holds.
    fn take(&mut self, csv_record: &ByteRecord) -> Result<(), LoadFault>
        requires { (canton : Canton) × (rows : List Self.Row) × holds canton self.old rows }
        ensures { (canton : Canton) (rows : List Self.Row) → holds canton self.old rows → MatchResult result
            (λ _. (length rows < 16384)
            × ((row : Self.Row) × (fields_of csv_record.now ≡ (kind canton).fields row) × holds canton self.new (rows ++ row ∷ [])))
            (λ fault. (kind canton).AreHeld rows
            × (fault ≢ LoadFault.Memory → IsUnread (kind canton).fields (kind canton).IsReadable (fields_of csv_record.now) fault
            ⊎ IsUnheld (kind canton) rows (fields_of csv_record.now) fault)) };
}

/// The most rows that there can be: one for each list in each municipality.
const MOST_HELD: u32 = 16_384;

/// Takes the rows after the names of the columns. Returns their number.
fn take_rows<R: Read, T: Takes>(
    reader: &mut Reader<R>,
    csv_record: &mut ByteRecord,
    taker: &mut T,
) -> Result<u32, LoadFault>
    requires { (canton : Canton) × T.holds canton taker.old [] }
    ensures { (canton : Canton) → T.holds canton taker.old [] → ReadsRows (T.kind canton)
        (λ text. HasRead R.remaining text (names ∷ []) reader.old) (T.holds canton taker.new) result }
{
    for rows in 0..=MOST_HELD {
        if !next_record(reader, csv_record)? {
            return Ok(rows);
        }
        taker.take(csv_record)?;
    }
    unreachable!()
}

/// Takes the rows in the front of a text. Returns their number.
fn take_text<R: Read + Drop, T: Takes>(
    alloc: Global,
    text: R,
    taker: &mut T,
) -> Result<u32, LoadFault>
    requires { (canton : Canton) × T.holds canton taker.old [] }
    ensures { (canton : Canton) → T.holds canton taker.old [] → ReadsRows (T.kind canton)
        (λ front. option_map front_of (R.remaining text) ≡ Some front) (T.holds canton taker.new) result }
{
    let mut reader = reader_of(alloc, text);
    let mut csv_record = ByteRecord::new(alloc);
    if !next_record(&mut reader, &mut csv_record)? || !is_names(&csv_record) {
        return Err(LoadFault::Csv);
    }
    take_rows(&mut reader, &mut csv_record, taker)
}

/// Takes the rows of a text and returns their number. The first record is the names of the columns, and each further
/// record is a row. Holds one record at a time and reads at most 16,386.
pub fn read_rows<R: Read, T: Takes>(
    alloc: Global,
    text: &mut NotedReader<R>,
    taker: &mut T,
) -> Result<u32, LoadFault>
    requires { (canton : Canton) × T.holds canton taker.old [] }
    ensures rows { (canton : Canton) → T.holds canton taker.old [] → ReadsRows (T.kind canton)
        (λ front. option_map front_of (R.remaining (inner_reader text.old)) ≡ Some front) (T.holds canton taker.new) result }
    ensures read { IsErrOf result LoadFault.Read → has_failed text.new ≡ true }
{
    match take_text(alloc, &mut *text, taker) {
        // The contract of `csv` does not say that a read failed. If none did, the error is reported as refused memory.
        Err(LoadFault::Read) if !text.has_failed() => Err(LoadFault::Memory),
        taken => taken,
    }
}
