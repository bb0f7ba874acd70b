//! Records of comma-separated text, and tables: a record with the names of the columns, then the rows.
ghost use Rattle.std.specs.Io.KnownBytes.{Appends};
ghost use Rattle.std.specs.Prelude.{OnOk, map, ◌++◌, ℕ, List, Option, IfOk};
ghost use Rattle.zh_record_text.specs.Records.{IsBetweenRecords, PutsText, record_text, HasWritten};
ghost use Rattle.zh_text.specs.Each.{each_to};

use csv::{Error, ErrorKind, Writer, WriterBuilder};
use std::io::Write;
use thiserror::Error as ErrorOfLibrary;

/// Why a record was not written in full.
#[derive(Clone, Copy, Debug, ErrorOfLibrary)]
pub enum RecordFault {
    /// An allocation was refused.
    #[error("memory")]
    Memory,
    /// The writer failed, or the crate `csv` reported an error other than refused memory.
    #[error("write")]
    Write,
}

/// The fault for an error of the CSV writer.
fn fault_by(error: &Error) -> RecordFault {
    match error.kind() {
        ErrorKind::OutOfMemory => RecordFault::Memory,
        _ => RecordFault::Write,
    }
}

/// Writes these fields as one record. On an error, a prefix of it might have been written.
pub fn write_record<W: Write + Drop>(
    writer: &mut Writer<W>,
    fields: &[&[u8]],
) -> Result<(), RecordFault>
    requires { IsBetweenRecords writer.old }
    ensures { OnOk result (PutsText W.contents (record_text (map (λ field. field.now) fields.now)) writer.old writer.new) }
{
    match writer.write_fields(fields) {
        Ok(()) => Ok(()),
        Err(error) => Err(fault_by(&error)),
    }
}

/// Writes these names as one record. On an error, a prefix of it might have been written.
pub(crate) fn write_names<W: Write + Drop>(
    writer: &mut Writer<W>,
    names: &[&str],
) -> Result<(), RecordFault>
    requires { IsBetweenRecords writer.old }
    ensures { OnOk result (PutsText W.contents (record_text (map (λ name. name.now) names.now)) writer.old writer.new) }
{
    match writer.write_record(names.iter().copied()) {
        Ok(()) => Ok(()),
        Err(error) => Err(fault_by(&error)),
    }
}

/// Rows that are written number by number, from 1 to a last number. A number has one record, several, or none.
pub trait NumberedRows<W: Write + Drop> {
    ghost use Rattle.std.specs.Prelude.{◌≡◌, ◌≤◌, ℕ, List, OnOk};
    ghost use Rattle.zh_record_text.specs.Records.{IsBetweenRecords, PutsText};

    /// What must hold for the rows to be written.
    ghost AreRows: { Self → Type 0 };

    /// The last number; 0 if there are none.
    ghost numbers: { Self → ℕ };

    /// The text that is written for a number.
    ghost text: { Self → ℕ → List ℕ };

    /// The last number; 0 if there are none.
    fn last(&self) -> u32
        ensures { result ≡ numbers self.now };

    /// Writes the text of a number, 1 to the last. On an error, a prefix of it might have been written.
    fn write_row(&self, writer: &mut Writer<W>, number: u32) -> Result<(), RecordFault>
        requires whole { AreRows self.now }
        requires ready { IsBetweenRecords writer.old }
        requires from_one { 1 ≤ number }
        requires there { number ≤ numbers self.now }
        ensures { OnOk result (PutsText W.contents (text self.now number) writer.old writer.new) };
}

/// Writes the text of each number, in order. On an error, a prefix of the whole text might have been written.
pub fn write_each<W: Write + Drop, T: NumberedRows<W>>(
    writer: &mut Writer<W>,
    rows: &T,
) -> Result<(), RecordFault>
    requires whole { T.AreRows rows.now }
    requires ready { IsBetweenRecords writer.old }
    ensures { OnOk result (PutsText W.contents (each_to (T.numbers rows.now) (T.text rows.now)) writer.old writer.new) }
{
    for place in 0..rows.last() {
        rows.write_row(writer, place + 1)?;
    }
    Ok(())
}

/// Begins a table: writes the names of its columns. On an error, a prefix of them might have been written.
pub fn open_table<W: Write + Drop>(columns: &[&str], writer: W) -> Result<Writer<W>, RecordFault>
    ensures { IfOk result (HasWritten W.contents (W.contents writer) (record_text (map (λ column. column.now) columns.now))) }
{
    let mut writer = WriterBuilder::new().from_writer(writer);
    write_names(&mut writer, columns)?;
    Ok(writer)
}

/// Ends a table: writes what the CSV writer still holds, and returns the underlying writer, which then has all of the table.
pub fn close_table<W: Write + Drop>(writer: Writer<W>) -> Result<W, RecordFault>
    ensures { (under : Option (List ℕ)) (text : List ℕ) → HasWritten W.contents under text writer
        → IfOk result (λ after. Appends under (W.contents after) text) }
{
    match writer.into_inner() {
        Ok(writer) => Ok(writer),
        Err(_) => Err(RecordFault::Write),
    }
}

/// Writes a table: the names of its columns, then the text of each number. Returns the writer. On an error, a prefix of
/// the table might have been written.
pub fn write_table<W: Write + Drop, T: NumberedRows<W>>(
    columns: &[&str],
    rows: &T,
    writer: W,
) -> Result<W, RecordFault>
    requires { T.AreRows rows.now }
    ensures { IfOk result (λ after. Appends (W.contents writer) (W.contents after)
        (record_text (map (λ column. column.now) columns.now) ++ each_to (T.numbers rows.now) (T.text rows.now))) }
{
    let mut writer = open_table(columns, writer)?;
    write_each(&mut writer, rows)?;
    close_table(writer)
}
