//! The views, written row by row.
ghost use Rattle.std.specs.Io.KnownBytes.{Appends};
ghost use Rattle.std.specs.Prelude.{List, IfOk, ℕ, ◌≡◌, OnOk};
ghost use Rattle.zh_record_text.specs.Records.{IsBetweenRecords, PutsText};
ghost use Rattle.zh_tables.specs.Status.{IsStatusText, progress_row, state_of};

use crate::implausible::{ImplausibleRows, found_seats};
use crate::progress::{Progress, Region, is_missing, progress_of, progress_within};
use crate::view::View;
use csv::Writer;
use itoa::Buffer;
use std::alloc::Global;
use std::io::Write;
use zh_record_text::{NumberedRows, RecordFault, write_each, write_record, write_table};
use zh_returns::Count;

/// How many returns are in, for each municipality.
#[derive(Drop)]
struct MunicipalityRows<'c> {
    count: &'c Count<'c>,
}

impl<'c, W: Write + Drop> NumberedRows<W> for MunicipalityRows<'c> {
    ghost use Rattle.std.specs.Prelude.{length};
    ghost use Rattle.zh_tables.specs.Status.{municipality_progress};

    ghost AreRows = { λ _. Unit {0} };

    ghost numbers = { λ rows. length rows.count.now.canton.municipalities };

    ghost text = { λ rows m. municipality_progress rows.count.now m };

    fn last(&self) -> u32 {
        self.count.setup().municipalities()
    }

    fn write_row(&self, writer: &mut Writer<W>, municipality: u32) -> Result<(), RecordFault> {
        let progress = progress_of(self.count, municipality);
        let name = self.count.setup().municipality_name(municipality);
        write_progress(writer, municipality, progress, name)
    }
}

/// How many returns are in, for each constituency.
#[derive(Drop)]
struct ConstituencyRows<'c> {
    count: &'c Count<'c>,
}

impl<'c, W: Write + Drop> NumberedRows<W> for ConstituencyRows<'c> {
    ghost use Rattle.std.specs.Prelude.{length};
    ghost use Rattle.zh_tables.specs.Status.{constituency_progress};

    ghost AreRows = { λ _. Unit {0} };

    ghost numbers = { λ rows. length rows.count.now.canton.constituencies };

    ghost text = { λ rows d. constituency_progress rows.count.now d };

    fn last(&self) -> u32 {
        self.count.setup().constituencies()
    }

    fn write_row(&self, writer: &mut Writer<W>, constituency: u32) -> Result<(), RecordFault> {
        let progress = progress_within(self.count, Region::Constituency(constituency));
        let name = self.count.setup().constituency_name(constituency);
        write_progress(writer, constituency, progress, name)
    }
}

/// The missing returns of a municipality.
#[derive(Drop)]
struct MissingIn<'c> {
    count: &'c Count<'c>,
    municipality: u32,
}

impl<'c, W: Write + Drop> NumberedRows<W> for MissingIn<'c> {
    ghost use Rattle.std.specs.Prelude.{◌≤◌, length};
    ghost use Rattle.zh_tables.specs.Status.{missing_row};

    ghost AreRows = { λ rows. (1 ≤ rows.municipality) × (rows.municipality ≤ length rows.count.now.canton.municipalities) };

    ghost numbers = { λ rows. length rows.count.now.canton.groups };

    ghost text = { λ rows list. missing_row rows.count.now rows.municipality list };

    fn last(&self) -> u32 {
        self.count.setup().groups()
    }

    fn write_row(&self, writer: &mut Writer<W>, list: u32) -> Result<(), RecordFault> {
        if !is_missing(self.count, self.municipality, list) {
            return Ok(());
        }
        let setup = self.count.setup();
        let mut municipality = Buffer::new();
        let mut numeral = Buffer::new();
        let fields = [
            municipality.format(self.municipality).as_bytes(),
            numeral.format(list).as_bytes(),
            setup.municipality_name(self.municipality).as_bytes(),
            setup.group_name(list).as_bytes(),
        ];
        write_record(writer, &fields)
    }
}

/// The missing returns, by municipality.
#[derive(Drop)]
struct MissingRows<'c> {
    count: &'c Count<'c>,
}

impl<'c, W: Write + Drop> NumberedRows<W> for MissingRows<'c> {
    ghost use Rattle.std.specs.Prelude.{length};
    ghost use Rattle.zh_tables.specs.Status.{missing_in};

    ghost AreRows = { λ _. Unit {0} };

    ghost numbers = { λ rows. length rows.count.now.canton.municipalities };

    ghost text = { λ rows m. missing_in rows.count.now m };

    fn last(&self) -> u32 {
        self.count.setup().municipalities()
    }

    fn write_row(&self, writer: &mut Writer<W>, municipality: u32) -> Result<(), RecordFault> {
        let missing = MissingIn {
            count: self.count,
            municipality,
        };
        write_each(writer, &missing)
    }
}

/// Writes a view of a count: a record with the names of the columns, then one for each of its rows, in order. Returns
/// the writer. On an error, a prefix of the text might have been written.
pub fn write_status<W: Write + Drop>(
    alloc: Global,
    count: &Count<'_>,
    view: View,
    writer: W,
) -> Result<W, RecordFault>
    ensures { IfOk result
        (λ after. (text : List ℕ) × IsStatusText count.now view text × Appends (W.contents writer) (W.contents after) text) }
{
    let progress = ["number", "held", "due", "state", "votes", "name"];
    match view {
        View::Municipalities => write_table(&progress, &MunicipalityRows { count }, writer),
        View::Constituencies => write_table(&progress, &ConstituencyRows { count }, writer),
        View::Missing => {
            let columns = ["municipality", "list", "municipality_name", "list_name"];
            write_table(&columns, &MissingRows { count }, writer)
        }
        View::Implausible => {
            let Ok(found) = found_seats(alloc, count.setup()) else {
                return Err(RecordFault::Memory);
            };
            let columns = [
                "municipality",
                "list",
                "votes",
                "limit",
                "municipality_name",
                "list_name",
            ];
            let rows = ImplausibleRows {
                count,
                found: &found,
            };
            write_table(&columns, &rows, writer)
        }
    }
}

/// The state in one word: `empty` if there are no municipalities, as a constituency can have none; `closed` if all of them are
/// closed; otherwise `open`.
fn state_of(progress: &Progress) -> &str
    ensures { result.now ≡ state_of progress.now }
{
    if progress.municipalities == 0 {
        "empty"
    } else if progress.closed == progress.municipalities {
        "closed"
    } else {
        "open"
    }
}

/// Writes the record of a municipality, or of a constituency, with this progress.
pub(crate) fn write_progress<W: Write + Drop>(
    writer: &mut Writer<W>,
    number: u32,
    progress: Progress,
    name: &str,
) -> Result<(), RecordFault>
    requires { IsBetweenRecords writer.old }
    ensures { OnOk result (PutsText W.contents (progress_row number progress name.now) writer.old writer.new) }
{
    let mut numeral = Buffer::new();
    let mut held = Buffer::new();
    let mut due = Buffer::new();
    let mut votes = Buffer::new();
    let fields = [
        numeral.format(number).as_bytes(),
        held.format(progress.held).as_bytes(),
        due.format(progress.due).as_bytes(),
        state_of(&progress).as_bytes(),
        votes.format(progress.votes).as_bytes(),
        name.as_bytes(),
    ];
    write_record(writer, &fields)
}
