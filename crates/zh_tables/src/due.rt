//! The returns that are due: in each municipality one for each list that stands in its constituency.
ghost use Rattle.std.specs.Io.KnownBytes.{Appends};
ghost use Rattle.std.specs.List.{flat_map};
ghost use Rattle.std.specs.Prelude.{◌≡◌, ◌≤◌, ◌++◌, length, IfOk, MatchResult, OnOk};
ghost use Rattle.zh_record_text.specs.Records.{IsBetweenRecords, PutsText, record_text};
ghost use Rattle.zh_tables.specs.Returns.{HasPart, IsMissing, due_of, exceeds_load, is_in, returns_due, returns_in, returns_within};
ghost use Rattle.zh_tables.specs.Returns.{return_columns, return_row};

use crate::fault::ListFault;
use crate::tables::{Part, Table};
use csv::Writer;
use itoa::Buffer;
use std::alloc::{AllocError, Global};
use std::io::Write;
use zh_districts::Setup;
use zh_record_text::{RecordFault, close_table, open_table, write_record};

/// The most returns that one `load` takes.
const MOST_LOADED: usize = 1_000;

/// A return that is due.
#[derive(Clone, Copy)]
pub struct Due {
    pub municipality: u32,
    pub list: u32,
}

impl Part {
    /// Whether a municipality is in this part of the set-up.
    fn has(self, setup: &Setup, municipality: u32) -> bool
        requires from_one { 1 ≤ municipality }
        requires there { municipality ≤ length setup.now.municipalities }
        ensures { result ≡ is_in setup.now self municipality }
    {
        match self {
            Part::Whole => true,
            Part::Municipality(number) => municipality == number,
            Part::Constituency(number) => setup.constituency_of(municipality) == number,
        }
    }

    /// Whether the set-up has this part. If not, the fault says which number does not exist.
    pub(crate) fn found_in(self, setup: &Setup) -> Result<(), ListFault>
        ensures { MatchResult result (λ _. HasPart setup.now self) (IsMissing setup.now self) }
    {
        match self {
            Part::Municipality(number) if !setup.has_municipality(number) => {
                Err(ListFault::NoMunicipality(number))
            }
            Part::Constituency(number) if number == 0 || number > setup.constituencies() => {
                Err(ListFault::NoConstituency(number))
            }
            _ => Ok(()),
        }
    }
}

/// Adds the return of a list in a municipality to `due`, if the list stands there.
fn push_due(
    setup: &Setup,
    municipality: u32,
    list: u32,
    due: &mut Vec<Due>,
) -> Result<(), AllocError>
    requires from_one { 1 ≤ municipality }
    requires there { municipality ≤ length setup.now.municipalities }
    requires list_from_one { 1 ≤ list }
    requires list_there { list ≤ length setup.now.groups }
    ensures { OnOk result (due.new.items ≡ due.old.items ++ due_of setup.now municipality list) }
{
    if setup.stands(setup.constituency_of(municipality), list) {
        due.push(Due { municipality, list })?;
    }
    Ok(())
}

/// Adds the returns that are due in a municipality, by list.
fn push_each_due(setup: &Setup, municipality: u32, due: &mut Vec<Due>) -> Result<(), AllocError>
    requires from_one { 1 ≤ municipality }
    requires there { municipality ≤ length setup.now.municipalities }
    ensures { OnOk result (due.new.items ≡ due.old.items ++ returns_in setup.now municipality) }
{
    for place in 0..setup.groups() {
        push_due(setup, municipality, place + 1, due)?;
    }
    Ok(())
}

/// Adds the returns that are due in a municipality, if it is in this part of the set-up.
fn push_each_within(
    setup: &Setup,
    part: Part,
    municipality: u32,
    due: &mut Vec<Due>,
) -> Result<(), AllocError>
    requires from_one { 1 ≤ municipality }
    requires there { municipality ≤ length setup.now.municipalities }
    ensures { OnOk result (due.new.items ≡ due.old.items ++ returns_within setup.now part municipality) }
{
    if !part.has(setup, municipality) {
        return Ok(());
    }
    push_each_due(setup, municipality, due)
}

/// The returns that are due in a part of the set-up, by municipality and list.
pub(crate) fn returns_due(alloc: Global, setup: &Setup, part: Part) -> Result<Vec<Due>, AllocError>
    ensures { IfOk result (λ due. due.items ≡ returns_due setup.now part) }
{
    let mut due = Vec::new(alloc);
    for place in 0..setup.municipalities() {
        push_each_within(setup, part, place + 1, &mut due)?;
    }
    Ok(due)
}

/// Whether a table has more returns than one `load` takes. Fails if memory is refused.
pub fn exceeds_load(alloc: Global, setup: &Setup, table: Table) -> Result<bool, AllocError>
    ensures { IfOk result (λ exceeds. exceeds ≡ exceeds_load setup.now table) }
{
    match table {
        Table::Returns(part) => Ok(returns_due(alloc, setup, part)?.len() > MOST_LOADED),
        _ => Ok(false),
    }
}

/// Writes the record of a return: number 1, and an empty field for the votes.
fn write_return<W: Write + Drop>(writer: &mut Writer<W>, due: &Due) -> Result<(), RecordFault>
    requires { IsBetweenRecords writer.old }
    ensures { OnOk result (PutsText W.contents (return_row due.now) writer.old writer.new) }
{
    let mut municipality = Buffer::new();
    let mut list = Buffer::new();
    let fields = [
        municipality.format(due.municipality).as_bytes(),
        list.format(due.list).as_bytes(),
        b"1".as_slice(),
        b"".as_slice(),
    ];
    write_record(writer, &fields)
}

/// Writes the record of each of these returns.
fn write_each_return<W: Write + Drop>(
    writer: &mut Writer<W>,
    returns: &[Due],
) -> Result<(), RecordFault>
    requires { IsBetweenRecords writer.old }
    ensures { OnOk result (PutsText W.contents (flat_map return_row returns.now) writer.old writer.new) }
{
    for due in returns {
        write_return(writer, due)?;
    }
    Ok(())
}

/// Writes the table of these returns.
pub(crate) fn write_returns<W: Write + Drop>(returns: &[Due], writer: W) -> Result<W, RecordFault>
    ensures { IfOk result (λ after. Appends (W.contents writer) (W.contents after)
        (record_text return_columns ++ flat_map return_row returns.now)) }
{
    let mut writer = open_table(&["municipality", "list", "number", "votes"], writer)?;
    write_each_return(&mut writer, returns)?;
    close_table(writer)
}
