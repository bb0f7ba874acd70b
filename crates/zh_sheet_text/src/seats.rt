//! The seats as comma-separated text, written record by record.
ghost use Rattle.std.specs.Io.KnownBytes.{Appends};
ghost use Rattle.std.specs.Option.{option_map_or};
ghost use Rattle.std.specs.Prelude.{IfOk, ◌≤◌, OnOk, length, ◌≡◌, ◌^◌, [], decimal};
ghost use Rattle.zh_record_text.specs.Records.{IsBetweenRecords, PutsText};
ghost use Rattle.zh_sheet_text.specs.Lists.{seats_text, seats_row, list_quotient};
ghost use Rattle.zh_sheet_text.specs.Quotients.{quotient};
ghost use Rattle.zh_sheet_text.specs.SheetText.{divisor_text};

use crate::mark::Mark;
use arrayvec::ArrayVec;
use csv::Writer;
use itoa::Buffer;
use std::io::Write;
use zh_record_text::{NumberedRows, RecordFault, write_each, write_record, write_table};
use zh_sheet::Sheet;
use zh_text::{DecimalText, millionths_text, push_numeral};

/// The lists that stand in a constituency.
#[derive(Drop)]
struct StandingIn<'a, 's> {
    sheet: &'a Sheet<'s>,
    mark: Mark,
    constituency: u32,
}

impl<'a, 's, W: Write + Drop> NumberedRows<W> for StandingIn<'a, 's> {
    ghost use Rattle.std.specs.Prelude.{◌≤◌, length};
    ghost use Rattle.zh_sheet_text.specs.Lists.{standing_row};

    ghost AreRows = { λ rows.
        (1 ≤ rows.constituency) × (rows.constituency ≤ length rows.sheet.now.totals.canton.constituencies) };

    ghost numbers = { λ rows. length rows.sheet.now.totals.canton.groups };

    ghost text = { λ rows g. standing_row rows.sheet.now rows.mark rows.constituency g };

    fn last(&self) -> u32 {
        self.sheet.setup().groups()
    }

    fn write_row(&self, writer: &mut Writer<W>, group: u32) -> Result<(), RecordFault> {
        if !self.sheet.setup().stands(self.constituency, group) {
            return Ok(());
        }
        write_list(writer, self.sheet, self.mark, self.constituency, group)
    }
}

/// The lists that stand, by constituency.
#[derive(Drop)]
struct Standing<'a, 's> {
    sheet: &'a Sheet<'s>,
    mark: Mark,
}

impl<'a, 's, W: Write + Drop> NumberedRows<W> for Standing<'a, 's> {
    ghost use Rattle.std.specs.Prelude.{length};
    ghost use Rattle.zh_sheet_text.specs.Lists.{standing_rows_in};

    ghost AreRows = { λ _. Unit {0} };

    ghost numbers = { λ rows. length rows.sheet.now.totals.canton.constituencies };

    ghost text = { λ rows d. standing_rows_in rows.sheet.now rows.mark d };

    fn last(&self) -> u32 {
        self.sheet.setup().constituencies()
    }

    fn write_row(&self, writer: &mut Writer<W>, constituency: u32) -> Result<(), RecordFault> {
        let standing = StandingIn {
            sheet: self.sheet,
            mark: self.mark,
            constituency,
        };
        write_each(writer, &standing)
    }
}

/// Writes the seats of a sheet with their mark: a record with the names of the columns, then one for each list that
/// stands, by constituency and group. Returns the writer. On an error, a prefix of the text might have been written.
pub fn write_seats<W: Write + Drop>(
    sheet: &Sheet<'_>,
    mark: Mark,
    writer: W,
) -> Result<W, RecordFault>
    ensures { IfOk result (λ after. Appends (W.contents writer) (W.contents after) (seats_text sheet.now mark)) }
{
    let columns = [
        "constituency",
        "group",
        "votes",
        "voters",
        "seats",
        "constituency_divisor",
        "group_divisor",
        "quotient_cut_off_after_6_digits",
        "kind",
        "commands",
        "constituency_name",
        "group_name",
    ];
    write_table(&columns, &Standing { sheet, mark }, writer)
}

/// Writes the record of a list.
fn write_list<W: Write + Drop>(
    writer: &mut Writer<W>,
    sheet: &Sheet<'_>,
    mark: Mark,
    constituency: u32,
    group: u32,
) -> Result<(), RecordFault>
    requires ready { IsBetweenRecords writer.old }
    requires from_one { 1 ≤ constituency }
    requires there { constituency ≤ length sheet.now.totals.canton.constituencies }
    requires group_from_one { 1 ≤ group }
    requires group_there { group ≤ length sheet.now.totals.canton.groups }
    ensures { OnOk result (PutsText W.contents (seats_row sheet.now mark constituency group) writer.old writer.new) }
{
    let voters = number_or_nothing(sheet.list_voters(constituency, group));
    let of_constituency = millionths_text(u128::from(sheet.constituency_divisor(constituency)));
    let of_group = millionths_or_nothing(sheet.group_divisor(group).map(u128::from));
    let quotient = millionths_or_nothing(list_quotient(sheet, constituency, group));
    let mut constituency_numeral = Buffer::new();
    let mut group_numeral = Buffer::new();
    let mut votes = Buffer::new();
    let mut seats = Buffer::new();
    let mut accepted = Buffer::new();
    let fields = [
        constituency_numeral.format(constituency).as_bytes(),
        group_numeral.format(group).as_bytes(),
        votes
            .format(sheet.totals().votes(constituency, group))
            .as_bytes(),
        voters.as_slice(),
        seats
            .format(sheet.list_seats(constituency, group))
            .as_bytes(),
        of_constituency.as_slice(),
        of_group.as_slice(),
        quotient.as_slice(),
        mark.kind().as_bytes(),
        accepted.format(mark.accepted).as_bytes(),
        sheet.constituency_name(constituency).as_bytes(),
        sheet.group_name(group).as_bytes(),
    ];
    write_record(writer, &fields)
}

/// The quotient of votes and two divisors, in millionths, rounded down. The divisors are in millionths too.
fn quotient(votes: u64, of_constituency: u64, of_group: u64) -> u128
    requires votes { votes ≤ 10 ^ 14 }
    requires constituency { 1 ≤ of_constituency }
    requires group { 1 ≤ of_group }
    ensures { result ≡ quotient votes of_constituency of_group }
{
    let product = u128::from(of_constituency) * u128::from(of_group);
    u128::from(votes) * 1_000_000_000_000_000_000 / product
}

/// The quotient of a list in millionths, rounded down, or `None` if its group has no seats.
fn list_quotient(sheet: &Sheet<'_>, constituency: u32, group: u32) -> Option<u128>
    requires from_one { 1 ≤ constituency }
    requires there { constituency ≤ length sheet.now.totals.canton.constituencies }
    requires group_from_one { 1 ≤ group }
    requires group_there { group ≤ length sheet.now.totals.canton.groups }
    ensures { result ≡ list_quotient sheet.now constituency group }
{
    let _setup = sheet.setup();
    let of_group = sheet.group_divisor(group)?;
    let of_constituency = sheet.constituency_divisor(constituency);
    let votes = sheet.totals().votes(constituency, group);
    Some(quotient(votes, of_constituency, of_group))
}

/// A number of millionths, with six digits after the dot, or an empty text for `None`.
pub fn millionths_or_nothing(millionths: Option<u128>) -> DecimalText
    ensures { result.items ≡ option_map_or divisor_text millionths [] }
{
    match millionths {
        Some(millionths) => millionths_text(millionths),
        None => DecimalText::new(),
    }
}

/// A number, or an empty text for `None`.
pub fn number_or_nothing(number: Option<u64>) -> ArrayVec<u8, 20>
    ensures { result.items ≡ option_map_or decimal number [] }
{
    let mut text = ArrayVec::new();
    if let Some(number) = number {
        push_numeral(&mut text, number);
    }
    text
}
