//! The tables, written row by row.
ghost use Rattle.std.specs.Io.KnownBytes.{Appends};
ghost use Rattle.std.specs.Prelude.{ℕ, List, IfErr, IfOk};
ghost use Rattle.zh_tables.specs.Tables.{RefusesTable, IsTableText};
ghost use Rattle.zh_tables.specs.declared.tables.Table.TheVariants.{Constituencies};

use crate::due::{returns_due, write_returns};
use crate::fault::ListFault;
use crate::problems::{setup_problems, write_problems};
use csv::Writer;
use itoa::Buffer;
use std::alloc::Global;
use std::io::Write;
use zh_districts::{Setup, seats};
use zh_record_text::{NumberedRows, RecordFault, write_each, write_record, write_table};

/// A part of a set-up.
#[derive(Clone, Copy)]
pub enum Part {
    /// All of it.
    Whole,
    /// The municipality with this number.
    Municipality(u32),
    /// The municipalities of the constituency with this number.
    Constituency(u32),
}

/// A table of a set-up.
#[derive(Clone, Copy)]
pub enum Table {
    /// Each constituency with its persons and its seats.
    Constituencies,
    /// Each municipality with its constituency.
    Municipalities,
    /// Each group.
    Groups,
    /// Each list that stands: a group in a constituency.
    Lists,
    /// Each constituency with a problem that keeps the set-up from ever giving seats, and the problem.
    Problems,
    /// The returns that are due in a part of the set-up. With their votes filled in, up to 1,000 of them can be loaded.
    Returns(Part),
}

/// The constituencies, with these seats.
#[derive(Drop)]
struct ConstituencyRows<'a> {
    setup: &'a Setup,
    seats: &'a [u32],
}

impl<'a, W: Write + Drop> NumberedRows<W> for ConstituencyRows<'a> {
    ghost use Rattle.std.specs.Prelude.{◌≡◌, ◌-◌, length, slice_index};
    ghost use Rattle.zh_tables.specs.Tables.{constituency_row};

    ghost AreRows = { λ rows. length rows.seats.now ≡ length rows.setup.now.constituencies };

    ghost numbers = { λ rows. length rows.setup.now.constituencies };

    ghost text = { λ rows d. constituency_row rows.setup.now d (slice_index rows.seats.now (d - 1)) };

    fn last(&self) -> u32 {
        self.setup.constituencies()
    }

    fn write_row(&self, writer: &mut Writer<W>, constituency: u32) -> Result<(), RecordFault> {
        let mut number = Buffer::new();
        let mut persons = Buffer::new();
        let mut numeral = Buffer::new();
        let seats = self.seats[(constituency - 1) as usize];
        let fields = [
            number.format(constituency).as_bytes(),
            self.setup.constituency_name(constituency).as_bytes(),
            persons.format(self.setup.persons(constituency)).as_bytes(),
            numeral.format(seats).as_bytes(),
        ];
        write_record(writer, &fields)
    }
}

/// The municipalities.
#[derive(Drop)]
struct MunicipalityRows<'a> {
    setup: &'a Setup,
}

impl<'a, W: Write + Drop> NumberedRows<W> for MunicipalityRows<'a> {
    ghost use Rattle.std.specs.Prelude.{length};
    ghost use Rattle.zh_tables.specs.Tables.{municipality_row};

    ghost AreRows = { λ _. Unit {0} };

    ghost numbers = { λ rows. length rows.setup.now.municipalities };

    ghost text = { λ rows m. municipality_row rows.setup.now m };

    fn last(&self) -> u32 {
        self.setup.municipalities()
    }

    fn write_row(&self, writer: &mut Writer<W>, municipality: u32) -> Result<(), RecordFault> {
        let mut number = Buffer::new();
        let mut constituency = Buffer::new();
        let home = self.setup.constituency_of(municipality);
        let fields = [
            number.format(municipality).as_bytes(),
            self.setup.municipality_name(municipality).as_bytes(),
            constituency.format(home).as_bytes(),
        ];
        write_record(writer, &fields)
    }
}

/// The groups.
#[derive(Drop)]
struct GroupRows<'a> {
    setup: &'a Setup,
}

impl<'a, W: Write + Drop> NumberedRows<W> for GroupRows<'a> {
    ghost use Rattle.std.specs.Prelude.{length};
    ghost use Rattle.zh_tables.specs.Tables.{group_row};

    ghost AreRows = { λ _. Unit {0} };

    ghost numbers = { λ rows. length rows.setup.now.groups };

    ghost text = { λ rows g. group_row rows.setup.now g };

    fn last(&self) -> u32 {
        self.setup.groups()
    }

    fn write_row(&self, writer: &mut Writer<W>, group: u32) -> Result<(), RecordFault> {
        let mut number = Buffer::new();
        let fields = [
            number.format(group).as_bytes(),
            self.setup.group_name(group).as_bytes(),
        ];
        write_record(writer, &fields)
    }
}

/// The lists that stand in a constituency.
#[derive(Drop)]
struct ListsIn<'a> {
    setup: &'a Setup,
    constituency: u32,
}

impl<'a, W: Write + Drop> NumberedRows<W> for ListsIn<'a> {
    ghost use Rattle.std.specs.Prelude.{◌≤◌, length};
    ghost use Rattle.zh_tables.specs.Tables.{list_row};

    ghost AreRows = { λ rows. (1 ≤ rows.constituency) × (rows.constituency ≤ length rows.setup.now.constituencies) };

    ghost numbers = { λ rows. length rows.setup.now.groups };

    ghost text = { λ rows g. list_row rows.setup.now rows.constituency g };

    fn last(&self) -> u32 {
        self.setup.groups()
    }

    fn write_row(&self, writer: &mut Writer<W>, group: u32) -> Result<(), RecordFault> {
        if !self.setup.stands(self.constituency, group) {
            return Ok(());
        }
        let mut constituency = Buffer::new();
        let mut list = Buffer::new();
        let fields = [
            constituency.format(self.constituency).as_bytes(),
            list.format(group).as_bytes(),
            self.setup.constituency_name(self.constituency).as_bytes(),
            self.setup.group_name(group).as_bytes(),
        ];
        write_record(writer, &fields)
    }
}

/// The lists that stand, by constituency.
#[derive(Drop)]
struct ListRows<'a> {
    setup: &'a Setup,
}

impl<'a, W: Write + Drop> NumberedRows<W> for ListRows<'a> {
    ghost use Rattle.std.specs.Prelude.{length};
    ghost use Rattle.zh_tables.specs.Tables.{lists_in};

    ghost AreRows = { λ _. Unit {0} };

    ghost numbers = { λ rows. length rows.setup.now.constituencies };

    ghost text = { λ rows d. lists_in rows.setup.now d };

    fn last(&self) -> u32 {
        self.setup.constituencies()
    }

    fn write_row(&self, writer: &mut Writer<W>, constituency: u32) -> Result<(), RecordFault> {
        let lists = ListsIn {
            setup: self.setup,
            constituency,
        };
        write_each(writer, &lists)
    }
}

/// Writes the constituencies with their seats.
fn write_constituencies<W: Write + Drop>(
    alloc: Global,
    setup: &Setup,
    writer: W,
) -> Result<W, ListFault>
    ensures written { IfOk result
        (λ after. (text : List ℕ) × IsTableText setup.now Constituencies text × Appends (W.contents writer) (W.contents after) text) }
    ensures fault { IfErr result (RefusesTable setup.now Constituencies) }
{
    let shares = seats(alloc, setup)?;
    let columns = ["number", "name", "persons", "seats"];
    let rows = ConstituencyRows {
        setup,
        seats: shares.seats(),
    };
    Ok(write_table(&columns, &rows, writer)?)
}

/// Writes a table of the set-up: a record with the names of its columns, then one for each of its rows, in order.
/// Returns the writer. On an error, a prefix of the text might have been written. The table of the constituencies is not begun
/// if they get no seats, and that of the returns is not if the set-up does not have the part that is wanted.
pub fn write_list<W: Write + Drop>(
    alloc: Global,
    setup: &Setup,
    table: Table,
    writer: W,
) -> Result<W, ListFault>
    ensures written { IfOk result
        (λ after. (text : List ℕ) × IsTableText setup.now table text × Appends (W.contents writer) (W.contents after) text) }
    ensures fault { IfErr result (RefusesTable setup.now table) }
{
    let place = "constituency";
    match table {
        Table::Constituencies => write_constituencies(alloc, setup, writer),
        Table::Municipalities => {
            let columns = ["number", "name", place];
            Ok(write_table(&columns, &MunicipalityRows { setup }, writer)?)
        }
        Table::Groups => Ok(write_table(&["number", "name"], &GroupRows { setup }, writer)?),
        Table::Lists => {
            let columns = [place, "list", "constituency_name", "list_name"];
            Ok(write_table(&columns, &ListRows { setup }, writer)?)
        }
        Table::Problems => {
            let problems = setup_problems(alloc, setup)?;
            Ok(write_problems(setup, &problems, writer)?)
        }
        Table::Returns(part) => {
            part.found_in(setup)?;
            let due = returns_due(alloc, setup, part)?;
            Ok(write_returns(&due, writer)?)
        }
    }
}
