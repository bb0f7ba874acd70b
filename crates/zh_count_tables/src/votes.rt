//! The votes so far, written row by row.
ghost use Rattle.std.specs.Io.KnownBytes.{Appends};
ghost use Rattle.std.specs.Prelude.{◌≡◌, ◌≤◌, ℕ, List, IfOk, OnOk, length};
ghost use Rattle.zh_count_tables.specs.Quorums.{reaches_quorum};
ghost use Rattle.zh_count_tables.specs.Votes.{IsVotesText, list_votes, votes_of_group};
ghost use Rattle.zh_quorum.specs.Quorum.{AreParticipating};
ghost use Rattle.zh_record_text.specs.Records.{IsBetweenRecords, PutsText};
ghost use Rattle.zh_totals.specs.Counting.{totals_of};

use crate::quorum_so_far::{all_votes, group_votes, reaches_quorum};
use crate::returned::{Region, returned_of};
use csv::Writer;
use itoa::Buffer;
use std::alloc::Global;
use std::io::Write;
use zh_quorum::participating;
use zh_record_text::{NumberedRows, RecordFault, write_each, write_record, write_table};
use zh_returns::Count;
use zh_sheet_text::yes_or_no;
use zh_totals::Totals;

/// What each row of the votes so far is about.
#[derive(Clone, Copy)]
pub enum VotesOf {
    /// The lists that stand.
    Lists,
    /// The groups, in the whole canton.
    Groups,
}

/// The lists that stand in a constituency.
#[derive(Drop)]
struct ListsIn<'c> {
    count: &'c Count<'c>,
    totals: &'c Totals<'c>,
    constituency: u32,
}

impl<'c, W: Write + Drop> NumberedRows<W> for ListsIn<'c> {
    ghost use Rattle.std.specs.Prelude.{◌≡◌, ◌≤◌, length};
    ghost use Rattle.zh_count_tables.specs.Quorums.{reaches_quorum};
    ghost use Rattle.zh_count_tables.specs.Votes.{standing_votes};
    ghost use Rattle.zh_totals.specs.Counting.{totals_of};

    ghost AreRows = { λ rows. (1 ≤ rows.constituency) × (rows.constituency ≤ length rows.count.now.canton.constituencies)
        × (rows.totals.now ≡ totals_of rows.count.now) };

    ghost numbers = { λ rows. length rows.count.now.canton.groups };

    ghost text = { λ rows g. standing_votes rows.count.now (reaches_quorum (totals_of rows.count.now)) rows.constituency g };

    fn last(&self) -> u32 {
        self.count.setup().groups()
    }

    fn write_row(&self, writer: &mut Writer<W>, group: u32) -> Result<(), RecordFault> {
        if !self.count.setup().stands(self.constituency, group) {
            return Ok(());
        }
        write_list(writer, self.count, self.totals, self.constituency, group)
    }
}

/// The lists that stand, by constituency.
#[derive(Drop)]
pub(crate) struct ListRows<'c> {
    pub(crate) count: &'c Count<'c>,
    pub(crate) totals: &'c Totals<'c>,
}

impl<'c, W: Write + Drop> NumberedRows<W> for ListRows<'c> {
    ghost use Rattle.std.specs.Prelude.{◌≡◌, length};
    ghost use Rattle.zh_count_tables.specs.Quorums.{reaches_quorum};
    ghost use Rattle.zh_count_tables.specs.Votes.{votes_of_lists_in};
    ghost use Rattle.zh_totals.specs.Counting.{totals_of};

    ghost AreRows = { λ rows. rows.totals.now ≡ totals_of rows.count.now };

    ghost numbers = { λ rows. length rows.count.now.canton.constituencies };

    ghost text = { λ rows d. votes_of_lists_in rows.count.now (reaches_quorum (totals_of rows.count.now)) d };

    fn last(&self) -> u32 {
        self.count.setup().constituencies()
    }

    fn write_row(&self, writer: &mut Writer<W>, constituency: u32) -> Result<(), RecordFault> {
        let lists = ListsIn {
            count: self.count,
            totals: self.totals,
            constituency,
        };
        write_each(writer, &lists)
    }
}

/// The groups, and whether each would take part in the apportionment.
#[derive(Drop)]
pub(crate) struct GroupRows<'c> {
    pub(crate) count: &'c Count<'c>,
    pub(crate) totals: &'c Totals<'c>,
    pub(crate) taking: &'c [bool],
}

impl<'c, W: Write + Drop> NumberedRows<W> for GroupRows<'c> {
    ghost use Rattle.std.specs.Prelude.{◌≡◌, length};
    ghost use Rattle.zh_count_tables.specs.Votes.{votes_of_group};
    ghost use Rattle.zh_quorum.specs.Quorum.{AreParticipating};
    ghost use Rattle.zh_totals.specs.Counting.{totals_of};

    ghost AreRows = { λ rows. (rows.totals.now ≡ totals_of rows.count.now)
        × AreParticipating (totals_of rows.count.now) rows.taking.now };

    ghost numbers = { λ rows. length rows.count.now.canton.groups };

    ghost text = { λ rows g. votes_of_group rows.count.now rows.taking.now g };

    fn last(&self) -> u32 {
        self.count.setup().groups()
    }

    fn write_row(&self, writer: &mut Writer<W>, group: u32) -> Result<(), RecordFault> {
        write_group(writer, self.count, self.totals, self.taking, group)
    }
}

/// Writes the record of a list.
fn write_list<W: Write + Drop>(
    writer: &mut Writer<W>,
    count: &Count<'_>,
    totals: &Totals<'_>,
    constituency: u32,
    group: u32,
) -> Result<(), RecordFault>
    requires ready { IsBetweenRecords writer.old }
    requires totals { totals.now ≡ totals_of count.now }
    requires from_one { 1 ≤ constituency }
    requires there { constituency ≤ length count.now.canton.constituencies }
    requires group_from_one { 1 ≤ group }
    requires group_there { group ≤ length count.now.canton.groups }
    ensures { OnOk result (PutsText W.contents
        (list_votes count.now (reaches_quorum (totals_of count.now)) constituency group) writer.old writer.new) }
{
    let setup = count.setup();
    let returns = returned_of(count, Region::Constituency(constituency), group);
    let reaches = reaches_quorum(totals, constituency, group);
    let mut constituency_numeral = Buffer::new();
    let mut group_numeral = Buffer::new();
    let mut votes = Buffer::new();
    let mut all = Buffer::new();
    let mut held = Buffer::new();
    let mut due = Buffer::new();
    let mut accepted = Buffer::new();
    let fields = [
        constituency_numeral.format(constituency).as_bytes(),
        group_numeral.format(group).as_bytes(),
        votes.format(totals.votes(constituency, group)).as_bytes(),
        all.format(totals.constituency(constituency)).as_bytes(),
        yes_or_no(&reaches).as_bytes(),
        held.format(returns.held).as_bytes(),
        due.format(returns.due).as_bytes(),
        accepted.format(count.accepted()).as_bytes(),
        setup.constituency_name(constituency).as_bytes(),
        setup.group_name(group).as_bytes(),
    ];
    write_record(writer, &fields)
}

/// Writes the record of a group.
fn write_group<W: Write + Drop>(
    writer: &mut Writer<W>,
    count: &Count<'_>,
    totals: &Totals<'_>,
    taking: &[bool],
    group: u32,
) -> Result<(), RecordFault>
    requires ready { IsBetweenRecords writer.old }
    requires totals { totals.now ≡ totals_of count.now }
    requires each { length taking.now ≡ length count.now.canton.groups }
    requires from_one { 1 ≤ group }
    requires there { group ≤ length count.now.canton.groups }
    ensures { OnOk result (PutsText W.contents (votes_of_group count.now taking.now group) writer.old writer.new) }
{
    let returns = returned_of(count, Region::Canton, group);
    let takes_part = taking[(group - 1) as usize];
    let mut numeral = Buffer::new();
    let mut votes = Buffer::new();
    let mut all = Buffer::new();
    let mut held = Buffer::new();
    let mut due = Buffer::new();
    let mut accepted = Buffer::new();
    let fields = [
        numeral.format(group).as_bytes(),
        votes.format(group_votes(totals, group)).as_bytes(),
        all.format(all_votes(totals)).as_bytes(),
        yes_or_no(&takes_part).as_bytes(),
        held.format(returns.held).as_bytes(),
        due.format(returns.due).as_bytes(),
        accepted.format(count.accepted()).as_bytes(),
        count.setup().group_name(group).as_bytes(),
    ];
    write_record(writer, &fields)
}

/// Writes the votes so far, from a count and its totals: a record with the names of the columns, then one for each list
/// that stands, by constituency and group, or for each group. Returns the writer. On an error, a prefix of the text
/// might have been written.
pub fn write_votes<W: Write + Drop>(
    alloc: Global,
    count: &Count<'_>,
    totals: &Totals<'_>,
    of: VotesOf,
    writer: W,
) -> Result<W, RecordFault>
    requires { totals.now ≡ totals_of count.now }
    ensures { IfOk result
        (λ after. (text : List ℕ) × IsVotesText count.now of text × Appends (W.contents writer) (W.contents after) text) }
{
    match of {
        VotesOf::Lists => {
            let columns = [
                "constituency",
                "group",
                "votes",
                "constituency_votes",
                "reaches_quorum",
                "held",
                "due",
                "commands",
                "constituency_name",
                "group_name",
            ];
            write_table(&columns, &ListRows { count, totals }, writer)
        }
        VotesOf::Groups => {
            let Ok(taking) = participating(alloc, totals) else {
                return Err(RecordFault::Memory);
            };
            let columns = [
                "group",
                "votes",
                "all_votes",
                "reaches_quorum",
                "held",
                "due",
                "commands",
                "group_name",
            ];
            let taking = taking.as_slice();
            let rows = GroupRows {
                count,
                totals,
                taking,
            };
            write_table(&columns, &rows, writer)
        }
    }
}
