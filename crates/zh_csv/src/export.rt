//! Writing the count as text.

ghost use Rattle.std.specs.Prelude.{◌≡◌, OnOk, IfOk};
ghost use Rattle.std.specs.Io.KnownBytes.{Appends};
ghost use Rattle.zh_record_text.specs.Records.{IsBetweenRecords, PutsText};
ghost use Rattle.zh_csv.specs.Export.{line, record_of, export_text, votes_field};

use csv::Writer;
use itoa::Buffer;
use std::io::Write;
use zh_record_text::{NumberedRows, RecordFault, write_each, write_record, write_table};
use zh_returns::{Count, Entry};

/// The field of votes: their numeral, or `withdrawn`.
fn votes_field(votes: Option<u32>, numeral: &mut Buffer) -> &[u8]
    ensures { result.now ≡ votes_field votes }
{
    match votes {
        Some(votes) => numeral.format(votes).as_bytes(),
        None => b"withdrawn",
    }
}

/// Writes the record of an entry.
fn write_entry<W: Write + Drop>(
    writer: &mut Writer<W>,
    municipality: u32,
    list: u32,
    entry: Entry,
) -> Result<(), RecordFault>
    requires { IsBetweenRecords writer.old }
    ensures { OnOk result (PutsText W.contents (line (record_of municipality list entry)) writer.old writer.new) }
{
    let mut municipality_numeral = Buffer::new();
    let mut list_numeral = Buffer::new();
    let mut number_numeral = Buffer::new();
    let mut votes_numeral = Buffer::new();
    let fields = [
        municipality_numeral.format(municipality).as_bytes(),
        list_numeral.format(list).as_bytes(),
        number_numeral.format(entry.number).as_bytes(),
        votes_field(entry.votes, &mut votes_numeral),
    ];
    write_record(writer, &fields)
}

/// What is held in a municipality.
#[derive(Drop)]
struct HeldIn<'c> {
    count: &'c Count<'c>,
    municipality: u32,
}

impl<'c, W: Write + Drop> NumberedRows<W> for HeldIn<'c> {
    ghost use Rattle.std.specs.Prelude.{◌≤◌, length};
    ghost use Rattle.zh_csv.specs.Export.{list_text};

    ghost AreRows = { λ rows. (1 ≤ rows.municipality) × (rows.municipality ≤ length rows.count.now.canton.municipalities) };

    ghost numbers = { λ rows. length rows.count.now.canton.groups };

    ghost text = { λ rows list. list_text rows.count.now rows.municipality list };

    fn last(&self) -> u32 {
        self.count.setup().groups()
    }

    fn write_row(&self, writer: &mut Writer<W>, list: u32) -> Result<(), RecordFault> {
        match self.count.entry(self.municipality, list) {
            Some(entry) => write_entry(writer, self.municipality, list, entry),
            None => Ok(()),
        }
    }
}

/// What is held, by municipality.
#[derive(Drop)]
struct Held<'c> {
    count: &'c Count<'c>,
}

impl<'c, W: Write + Drop> NumberedRows<W> for Held<'c> {
    ghost use Rattle.std.specs.Prelude.{length};
    ghost use Rattle.zh_csv.specs.Export.{municipality_text};

    ghost AreRows = { λ _. Unit {0} };

    ghost numbers = { λ held. length held.count.now.canton.municipalities };

    ghost text = { λ held m. municipality_text held.count.now m };

    fn last(&self) -> u32 {
        self.count.setup().municipalities()
    }

    fn write_row(&self, writer: &mut Writer<W>, municipality: u32) -> Result<(), RecordFault> {
        let held = HeldIn {
            count: self.count,
            municipality,
        };
        write_each(writer, &held)
    }
}

/// Writes the count: a record with the names of the columns, then one for each municipality and list that has an entry,
/// in order. Returns the writer. On an error, a prefix of the text might have been written.
pub fn write_count<W: Write + Drop>(count: &Count<'_>, writer: W) -> Result<W, RecordFault>
    ensures { IfOk result (λ after. Appends (W.contents writer) (W.contents after) (export_text count.now)) }
{
    let columns = ["municipality", "list", "number", "votes"];
    write_table(&columns, &Held { count }, writer)
}
