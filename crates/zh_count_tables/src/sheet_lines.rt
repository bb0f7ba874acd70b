//! The groups and the constituencies of a sheet, written row by row.
ghost use Rattle.std.specs.Io.KnownBytes.{Appends};
ghost use Rattle.std.specs.Prelude.{◌≡◌, ◌≤◌, ◌++◌, IfOk, OnOk, codes, decimal, length};
ghost use Rattle.zh_record_text.specs.Records.{IsBetweenRecords, PutsText};
ghost use Rattle.zh_count_tables.specs.SheetLines.{constituencies_text, groups_text, seats_of_constituency, seats_of_group};

use crate::quorum_so_far::group_votes;
use arrayvec::ArrayVec;
use csv::Writer;
use itoa::Buffer;
use std::io::Write;
use zh_record_text::{NumberedRows, RecordFault, write_record, write_table};
use zh_sheet::Sheet;
use zh_sheet_text::{Mark, millionths_or_nothing, number_or_nothing, yes_or_no};
use zh_text::{millionths_text, push_fraction};

/// The divisor of the persons or of the voter sums, as a fraction that is not reduced.
fn key_text(num: u64, den: u32) -> ArrayVec<u8, 48>
    ensures { result.items ≡ decimal num ++ (codes "/" ++ decimal den) }
{
    let mut text = ArrayVec::new();
    push_fraction(&mut text, num, den);
    text
}

/// The groups of a sheet.
#[derive(Drop)]
pub(crate) struct SheetGroups<'a, 's> {
    pub(crate) sheet: &'a Sheet<'s>,
    pub(crate) mark: Mark,
}

impl<'a, 's, W: Write + Drop> NumberedRows<W> for SheetGroups<'a, 's> {
    ghost use Rattle.std.specs.Prelude.{length};
    ghost use Rattle.zh_count_tables.specs.SheetLines.{seats_of_group};

    ghost AreRows = { λ _. Unit {0} };

    ghost numbers = { λ rows. length rows.sheet.now.totals.canton.groups };

    ghost text = { λ rows g. seats_of_group rows.sheet.now rows.mark g };

    fn last(&self) -> u32 {
        self.sheet.setup().groups()
    }

    fn write_row(&self, writer: &mut Writer<W>, group: u32) -> Result<(), RecordFault> {
        write_sheet_group(writer, self.sheet, self.mark, group)
    }
}

/// The constituencies of a sheet.
#[derive(Drop)]
pub(crate) struct SheetConstituencies<'a, 's> {
    pub(crate) sheet: &'a Sheet<'s>,
    pub(crate) mark: Mark,
}

impl<'a, 's, W: Write + Drop> NumberedRows<W> for SheetConstituencies<'a, 's> {
    ghost use Rattle.std.specs.Prelude.{length};
    ghost use Rattle.zh_count_tables.specs.SheetLines.{seats_of_constituency};

    ghost AreRows = { λ _. Unit {0} };

    ghost numbers = { λ rows. length rows.sheet.now.totals.canton.constituencies };

    ghost text = { λ rows d. seats_of_constituency rows.sheet.now rows.mark d };

    fn last(&self) -> u32 {
        self.sheet.setup().constituencies()
    }

    fn write_row(&self, writer: &mut Writer<W>, constituency: u32) -> Result<(), RecordFault> {
        write_sheet_constituency(writer, self.sheet, self.mark, constituency)
    }
}

/// Writes the record of a group.
fn write_sheet_group<W: Write + Drop>(
    writer: &mut Writer<W>,
    sheet: &Sheet<'_>,
    mark: Mark,
    group: u32,
) -> Result<(), RecordFault>
    requires ready { IsBetweenRecords writer.old }
    requires from_one { 1 ≤ group }
    requires there { group ≤ length sheet.now.totals.canton.groups }
    ensures { OnOk result (PutsText W.contents (seats_of_group sheet.now mark group) writer.old writer.new) }
{
    let takes_part = sheet.takes_part(group);
    let voters = number_or_nothing(sheet.voters(group));
    let divisor = millionths_or_nothing(sheet.group_divisor(group).map(u128::from));
    let key = key_text(sheet.upper().num(), sheet.upper().den());
    let mut numeral = Buffer::new();
    let mut votes = Buffer::new();
    let mut seats = Buffer::new();
    let mut accepted = Buffer::new();
    let fields = [
        numeral.format(group).as_bytes(),
        yes_or_no(&takes_part).as_bytes(),
        votes.format(group_votes(sheet.totals(), group)).as_bytes(),
        voters.as_slice(),
        seats.format(sheet.group_seats(group)).as_bytes(),
        divisor.as_slice(),
        key.as_slice(),
        mark.kind().as_bytes(),
        accepted.format(mark.accepted).as_bytes(),
        sheet.group_name(group).as_bytes(),
    ];
    write_record(writer, &fields)
}

/// Writes the record of a constituency.
fn write_sheet_constituency<W: Write + Drop>(
    writer: &mut Writer<W>,
    sheet: &Sheet<'_>,
    mark: Mark,
    constituency: u32,
) -> Result<(), RecordFault>
    requires ready { IsBetweenRecords writer.old }
    requires from_one { 1 ≤ constituency }
    requires there { constituency ≤ length sheet.now.totals.canton.constituencies }
    ensures { OnOk result (PutsText W.contents (seats_of_constituency sheet.now mark constituency) writer.old writer.new) }
{
    let setup = sheet.setup();
    let divisor = millionths_text(u128::from(sheet.constituency_divisor(constituency)));
    let key = key_text(sheet.seats().num(), sheet.seats().den());
    let mut numeral = Buffer::new();
    let mut persons = Buffer::new();
    let mut seats = Buffer::new();
    let mut votes = Buffer::new();
    let mut accepted = Buffer::new();
    let fields = [
        numeral.format(constituency).as_bytes(),
        persons.format(setup.persons(constituency)).as_bytes(),
        seats
            .format(sheet.constituency_seats(constituency))
            .as_bytes(),
        votes
            .format(sheet.totals().constituency(constituency))
            .as_bytes(),
        divisor.as_slice(),
        key.as_slice(),
        mark.kind().as_bytes(),
        accepted.format(mark.accepted).as_bytes(),
        sheet.constituency_name(constituency).as_bytes(),
    ];
    write_record(writer, &fields)
}

/// Writes the groups of a sheet with their mark: a record with the names of the columns, then one for each group.
/// Returns the writer. On an error, a prefix of the text might have been written.
pub fn write_groups<W: Write + Drop>(
    sheet: &Sheet<'_>,
    mark: Mark,
    writer: W,
) -> Result<W, RecordFault>
    ensures { IfOk result (λ after. Appends (W.contents writer) (W.contents after) (groups_text sheet.now mark)) }
{
    let columns = [
        "group",
        "quorum",
        "votes",
        "voters",
        "seats",
        "divisor",
        "key",
        "kind",
        "commands",
        "group_name",
    ];
    write_table(&columns, &SheetGroups { sheet, mark }, writer)
}

/// Writes the constituencies of a sheet with their mark, in the same way: a record with the names of the columns, then
/// one for each constituency. Returns the writer. On an error, a prefix of the text might have been written.
pub fn write_constituencies<W: Write + Drop>(
    sheet: &Sheet<'_>,
    mark: Mark,
    writer: W,
) -> Result<W, RecordFault>
    ensures { IfOk result (λ after. Appends (W.contents writer) (W.contents after) (constituencies_text sheet.now mark)) }
{
    let columns = [
        "constituency",
        "persons",
        "seats",
        "votes",
        "divisor",
        "key",
        "kind",
        "commands",
        "constituency_name",
    ];
    write_table(&columns, &SheetConstituencies { sheet, mark }, writer)
}
