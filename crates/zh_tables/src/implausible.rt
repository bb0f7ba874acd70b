//! Implausible votes, written row by row, and why votes are not compared with persons.

ghost use Rattle.std.specs.Prelude.{◌≡◌, ◌++◌, ◌≤◌, [], IfOk, OnOk, length};
ghost use Rattle.zh_record_text.specs.Records.{IsBetweenRecords, PutsText};
ghost use Rattle.zh_tables.specs.Implausible.{AreFound, IsSeated, exceeding_in, found_note, implausible_row, most_in, outweighing_row};
ghost use Rattle.zh_tables.specs.Implausible.{outweighs};
ghost use Rattle.zh_tables.specs.Progress.{AreFew};

use crate::progress::{Progress, Region, entry_votes, progress_of, progress_within};
use crate::view::Said;
use csv::Writer;
use itoa::Buffer;
use std::alloc::{AllocError, Global};
use std::io::Write;
use zh_districts::{SeatFault, Setup, seats};
use zh_divisors::Shares;
use zh_record_text::{NumberedRows, RecordFault, write_each, write_record};
use zh_returns::Count;
use zh_text::{push, push_name};

/// The seats of the constituencies, or why they get none. The reason is never `Memory`.
pub(crate) type Found = Result<Shares, SeatFault>;

/// The seats of the constituencies of a set-up, or why they get none. Fails if memory is refused.
pub(crate) fn found_seats(alloc: Global, setup: &Setup) -> Result<Found, AllocError>
    ensures { IfOk result (AreFound setup.now) }
{
    match seats(alloc, setup) {
        Err(SeatFault::Memory) => Err(AllocError),
        found => Ok(found),
    }
}

/// If the constituencies get no seats, appends a line that says why votes are not compared with persons.
pub(crate) fn push_note(text: &mut Said, found: &Found)
    requires { text.old.items ≡ [] }
    ensures note { text.new.items ≡ found_note found.now }
    ensures short { length text.new.items ≤ 74 }
{
    if let Err(fault) = found {
        push_name(text, fault.name());
        push(text, ": votes are not compared with persons\n");
    }
}

/// Votes, and the limit that they exceed.
#[derive(Clone, Copy)]
struct Excess {
    votes: u64,
    limit: u64,
}

/// Writes the record of a list's votes in a municipality. If `list` is empty, it is the record of all lists together.
fn write_implausible<'a, W: Write + Drop>(
    writer: &mut Writer<W>,
    municipality: u32,
    list: &'a [u8],
    excess: Excess,
    name: &'a str,
    list_name: &'a str,
) -> Result<(), RecordFault>
    requires { IsBetweenRecords writer.old }
    ensures { OnOk result (PutsText W.contents
        (implausible_row municipality list.now excess.votes excess.limit name.now list_name.now) writer.old writer.new) }
{
    let mut numeral = Buffer::new();
    let mut votes = Buffer::new();
    let mut limit = Buffer::new();
    let fields = [
        numeral.format(municipality).as_bytes(),
        list,
        votes.format(excess.votes).as_bytes(),
        limit.format(excess.limit).as_bytes(),
        name.as_bytes(),
        list_name.as_bytes(),
    ];
    write_record(writer, &fields)
}

/// The most votes that a list can have in a constituency: each person has one vote for each seat.
fn most_in(setup: &Setup, seats: &[u32], constituency: u32) -> u64
    requires from_one { 1 ≤ constituency }
    requires there { constituency ≤ length setup.now.constituencies }
    requires each { length seats.now ≡ length setup.now.constituencies }
    ensures { result ≡ most_in setup.now seats.now constituency }
{
    u64::from(setup.persons(constituency)) * u64::from(seats[(constituency - 1) as usize])
}

/// The returns of a municipality with more votes than a list can have there.
#[derive(Drop)]
struct ExceedingIn<'c> {
    count: &'c Count<'c>,
    seats: &'c [u32],
    municipality: u32,
}

impl<'c, W: Write + Drop> NumberedRows<W> for ExceedingIn<'c> {
    ghost use Rattle.std.specs.Prelude.{length};
    ghost use Rattle.zh_tables.specs.Implausible.{IsSeated, exceeding_row};

    ghost AreRows = { λ rows. IsSeated rows.count.now.canton rows.seats.now rows.municipality };

    ghost numbers = { λ rows. length rows.count.now.canton.groups };

    ghost text = { λ rows list. exceeding_row rows.count.now rows.seats.now rows.municipality list };

    fn last(&self) -> u32 {
        self.count.setup().groups()
    }

    fn write_row(&self, writer: &mut Writer<W>, list: u32) -> Result<(), RecordFault> {
        let setup = self.count.setup();
        let limit = most_in(setup, self.seats, setup.constituency_of(self.municipality));
        let votes = entry_votes(self.count.entry(self.municipality, list));
        if votes <= limit {
            return Ok(());
        }
        let mut numeral = Buffer::new();
        write_implausible(
            writer,
            self.municipality,
            numeral.format(list).as_bytes(),
            Excess { votes, limit },
            setup.municipality_name(self.municipality),
            setup.group_name(list),
        )
    }
}

/// Writes the returns of a municipality with more votes than a list can have there.
fn write_each_exceeding<W: Write + Drop>(
    writer: &mut Writer<W>,
    count: &Count<'_>,
    shares: &Shares,
    municipality: u32,
) -> Result<(), RecordFault>
    requires ready { IsBetweenRecords writer.old }
    requires seated { IsSeated count.now.canton shares.now.seats municipality }
    ensures { OnOk result (PutsText W.contents (exceeding_in count.now (Ok shares.now) municipality) writer.old writer.new) }
{
    let exceeding = ExceedingIn {
        count,
        seats: shares.seats(),
        municipality,
    };
    write_each(writer, &exceeding)
}

/// Whether `votes` are more than ten times those of the others. There must be others, and each must have a return or a
/// withdrawal.
fn outweighs(votes: u64, others: &Progress) -> bool
    requires { AreFew 512 others.now }
    ensures { result ≡ outweighs votes others.now }
{
    others.municipalities > 0 && others.begun == others.municipalities && votes > 10 * others.votes
}

/// Writes the record of a municipality if it outweighs the others of its constituency.
fn write_outweighing<W: Write + Drop>(
    writer: &mut Writer<W>,
    count: &Count<'_>,
    municipality: u32,
) -> Result<(), RecordFault>
    requires ready { IsBetweenRecords writer.old }
    requires from_one { 1 ≤ municipality }
    requires there { municipality ≤ length count.now.canton.municipalities }
    ensures { OnOk result (PutsText W.contents (outweighing_row count.now municipality) writer.old writer.new) }
{
    let setup = count.setup();
    let constituency = setup.constituency_of(municipality);
    let others = Region::Others {
        constituency,
        besides: municipality,
    };
    let others = progress_within(count, others);
    let own = progress_of(count, municipality);
    if !outweighs(own.votes, &others) {
        return Ok(());
    }
    let excess = Excess {
        votes: own.votes,
        limit: 10 * others.votes,
    };
    let name = setup.municipality_name(municipality);
    write_implausible(writer, municipality, b"", excess, name, "")
}

/// The implausible votes, by municipality.
#[derive(Drop)]
pub(crate) struct ImplausibleRows<'c> {
    pub count: &'c Count<'c>,
    pub found: &'c Found,
}

impl<'c, W: Write + Drop> NumberedRows<W> for ImplausibleRows<'c> {
    ghost use Rattle.std.specs.Prelude.{length};
    ghost use Rattle.zh_tables.specs.Implausible.{AreFound, implausible_in};

    ghost AreRows = { λ rows. AreFound rows.count.now.canton rows.found.now };

    ghost numbers = { λ rows. length rows.count.now.canton.municipalities };

    ghost text = { λ rows m. implausible_in rows.count.now rows.found.now m };

    fn last(&self) -> u32 {
        self.count.setup().municipalities()
    }

    fn write_row(&self, writer: &mut Writer<W>, municipality: u32) -> Result<(), RecordFault> {
        if let Ok(shares) = self.found {
            write_each_exceeding(writer, self.count, shares, municipality)?;
        }
        write_outweighing(writer, self.count, municipality)
    }
}
