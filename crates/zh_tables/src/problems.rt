//! The problems of a set-up that keep it from ever giving seats.
ghost use Rattle.std.specs.Io.KnownBytes.{Appends};
ghost use Rattle.std.specs.List.{count_by};
ghost use Rattle.std.specs.Prelude.{◌≡◌, ◌≤◌, ◌↔◌, IfOk, IsTrue, length, ◌++◌, OnOk};
ghost use Rattle.zh_districts.specs.Claims.{Tell};
ghost use Rattle.zh_record_text.specs.Records.{IsBetweenRecords, PutsText, record_text};
ghost use Rattle.zh_tables.specs.Problems.{HasFewMarks, AreProblems, LacksList, LacksMunicipality, problem_count, problems_line};
ghost use Rattle.zh_tables.specs.Tables.{header, marked_rows, problem_rows};
ghost use Rattle.zh_tables.specs.declared.tables.Table.TheVariants.{Problems};

use arrayvec::ArrayVec;
use csv::Writer;
use itoa::Buffer;
use std::alloc::{AllocError, Global};
use std::io::Write;
use zh_districts::{Setup, tied, unseated};
use zh_record_text::{
    NumberedRows, RecordFault, close_table, open_table, write_each, write_record,
};
use zh_text::{push, push_numeral};

/// For each constituency, in order, whether it has each of these problems.
#[derive(Drop)]
pub struct SetupProblems {
    /// No municipality is in it.
    pub no_municipality: Vec<bool>,
    /// No list stands in it.
    pub no_list: Vec<bool>,
    /// Its persons give it no seat. If seats are tied, no constituency is marked.
    pub no_seat: Vec<bool>,
    /// Seats are tied between it and another: the next seat of one of them is worth as much as the last seat of the other.
    pub tied_seats: Vec<bool>,
}

/// The number of marks that are set.
fn marked(marks: &[bool]) -> usize
    ensures number { result ≡ count_by (λ mark. mark) marks.now }
    ensures most { result ≤ length marks.now }
{
    marks.iter().filter(|mark| **mark).count()
}

impl SetupProblems {
    /// The number of problems, over all constituencies.
    pub fn count(&self) -> usize
        requires { HasFewMarks self.now }
        ensures { result ≡ problem_count self.now }
    {
        marked(&self.no_municipality)
            + marked(&self.no_list)
            + marked(&self.no_seat)
            + marked(&self.tied_seats)
    }
}

/// Whether a constituency has no municipality.
fn lacks_municipality(setup: &Setup, constituency: u32) -> bool
    ensures { IsTrue result ↔ LacksMunicipality setup.now constituency }
{
    for place in 0..setup.municipalities() {
        if setup.constituency_of(place + 1) == constituency {
            return false;
        }
    }
    true
}

/// Whether no list stands in a constituency.
fn lacks_list(setup: &Setup, constituency: u32) -> bool
    requires from_one { 1 ≤ constituency }
    requires there { constituency ≤ length setup.now.constituencies }
    ensures { IsTrue result ↔ LacksList setup.now constituency }
{
    for place in 0..setup.groups() {
        if setup.stands(constituency, place + 1) {
            return false;
        }
    }
    true
}

/// For each constituency, whether it has no municipality.
fn without_municipality(alloc: Global, setup: &Setup) -> Result<Vec<bool>, AllocError>
    ensures { IfOk result (λ marks. Tell (LacksMunicipality setup.now) (length setup.now.constituencies) marks.items) }
{
    let mut marks = Vec::new(alloc);
    for place in 0..setup.constituencies() {
        marks.push(lacks_municipality(setup, place + 1))?;
    }
    Ok(marks)
}

/// For each constituency, whether no list stands in it.
fn without_list(alloc: Global, setup: &Setup) -> Result<Vec<bool>, AllocError>
    ensures { IfOk result (λ marks. Tell (LacksList setup.now) (length setup.now.constituencies) marks.items) }
{
    let mut marks = Vec::new(alloc);
    for place in 0..setup.constituencies() {
        marks.push(lacks_list(setup, place + 1))?;
    }
    Ok(marks)
}

/// The problems that keep this set-up from giving seats. Fails if memory is refused.
pub fn setup_problems(alloc: Global, setup: &Setup) -> Result<SetupProblems, AllocError>
    ensures problems { IfOk result (AreProblems setup.now) }
    ensures few { IfOk result HasFewMarks }
{
    let _at_most_32 = setup.constituencies();
    Ok(SetupProblems {
        no_municipality: without_municipality(alloc, setup)?,
        no_list: without_list(alloc, setup)?,
        no_seat: unseated(alloc, setup)?,
        tied_seats: tied(alloc, setup)?,
    })
}

/// The line for standard error, with its LF: how many problems there are, and which command lists them.
pub fn problems_line(problems: &SetupProblems) -> ArrayVec<u8, 96>
    requires { HasFewMarks problems.now }
    ensures { result.items ≡ problems_line (problem_count problems.now) }
{
    let mut line = ArrayVec::new();
    push(&mut line, "zhcount: problems of the set-up: ");
    push_numeral(&mut line, problems.count() as u64);
    push(&mut line, ", named by list --of problems\n");
    line
}

/// The constituencies with one of the problems.
#[derive(Drop)]
struct MarkedRows<'a> {
    setup: &'a Setup,
    problem: &'a [u8],
    marks: &'a [bool],
}

impl<'a, W: Write + Drop> NumberedRows<W> for MarkedRows<'a> {
    ghost use Rattle.std.specs.Prelude.{◌≡◌, length};
    ghost use Rattle.zh_tables.specs.Tables.{problem_row};

    ghost AreRows = { λ rows. length rows.marks.now ≡ length rows.setup.now.constituencies };

    ghost numbers = { λ rows. length rows.setup.now.constituencies };

    ghost text = { λ rows d. problem_row rows.setup.now rows.problem.now rows.marks.now d };

    fn last(&self) -> u32 {
        self.setup.constituencies()
    }

    fn write_row(&self, writer: &mut Writer<W>, constituency: u32) -> Result<(), RecordFault> {
        if !self.marks[(constituency - 1) as usize] {
            return Ok(());
        }
        let mut number = Buffer::new();
        let fields = [
            self.problem,
            number.format(constituency).as_bytes(),
            self.setup.constituency_name(constituency).as_bytes(),
        ];
        write_record(writer, &fields)
    }
}

/// Writes the record of this problem for each constituency that is marked.
fn write_marked<W: Write + Drop>(
    writer: &mut Writer<W>,
    setup: &Setup,
    problem: &[u8],
    marks: &[bool],
) -> Result<(), RecordFault>
    requires ready { IsBetweenRecords writer.old }
    requires each { length marks.now ≡ length setup.now.constituencies }
    ensures { OnOk result (PutsText W.contents (marked_rows setup.now problem.now marks.now) writer.old writer.new) }
{
    let rows = MarkedRows {
        setup,
        problem,
        marks,
    };
    write_each(writer, &rows)
}

/// Writes the records of all problems, one problem after another.
fn write_each_problem<W: Write + Drop>(
    writer: &mut Writer<W>,
    setup: &Setup,
    problems: &SetupProblems,
) -> Result<(), RecordFault>
    requires ready { IsBetweenRecords writer.old }
    requires problems { AreProblems setup.now problems.now }
    ensures { OnOk result (PutsText W.contents (problem_rows setup.now problems.now) writer.old writer.new) }
{
    let no_municipality = b"no municipality".as_slice();
    write_marked(writer, setup, no_municipality, &problems.no_municipality)?;
    write_marked(writer, setup, b"no list".as_slice(), &problems.no_list)?;
    write_marked(writer, setup, b"no seat".as_slice(), &problems.no_seat)?;
    write_marked(
        writer,
        setup,
        b"tied seats".as_slice(),
        &problems.tied_seats,
    )?;
    Ok(())
}

/// Writes the table of these problems, after the names of its columns, and returns the writer.
pub(crate) fn write_problems<W: Write + Drop>(
    setup: &Setup,
    problems: &SetupProblems,
    writer: W,
) -> Result<W, RecordFault>
    requires { AreProblems setup.now problems.now }
    ensures { IfOk result (λ after. Appends (W.contents writer) (W.contents after)
        (record_text (header Problems) ++ problem_rows setup.now problems.now)) }
{
    let mut writer = open_table(&["problem", "number", "name"], writer)?;
    write_each_problem(&mut writer, setup, problems)?;
    close_table(writer)
}
