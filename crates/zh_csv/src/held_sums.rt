//! The sums of an export, row by row, and why a row is refused.
ghost use Rattle.std.specs.Ordering.{eq_by_cmp};
ghost use Rattle.std.specs.Prelude.{◌≡◌, Some, IsErrOf, true, ◌≢◌, ◌++◌, ◌∷◌, [], ◌||◌, ℕ, List, MatchResult, IfOk, false, ◌<◌, ◌≤◌, ◌^◌};
ghost use Rattle.std.specs.Prelude.{Option, IfSome, MatchOption, length};
ghost use Rattle.csv.specs.Records.{fields_of};
ghost use Rattle.zh_csv.specs.Export.{votes_field};
ghost use Rattle.zh_csv.specs.Faults.{held_name, named};
ghost use Rattle.zh_csv.specs.Held.{IsHolding, row_fault};
ghost use Rattle.zh_csv.specs.Noted.{has_failed, inner_reader};
ghost use Rattle.zh_csv.specs.Reading.{IsUnread};
ghost use Rattle.zh_csv.specs.Rows.{holds_key, IsHeldRow, held_fields};
ghost use Rattle.zh_csv.specs.Running.{has_seen, AreKeysOf, HasTaken};
ghost use Rattle.zh_csv.specs.declared.batch_reader.LoadFault.{LoadFault};
ghost use Rattle.zh_csv.specs.declared.held_sums.HeldRow.{HeldRow};
ghost use Rattle.zh_districts.specs.Canton.{Canton};
ghost use Rattle.zh_returns.specs.Keys.{key_cmp};
ghost use Rattle.zh_returns.specs.declared.row.RowFault.TheVariants.{Twice};

use crate::batch_reader::LoadFault;
use crate::noted_reader::NotedReader;
use crate::records::{field, may_be_row};
use crate::row_reader::{Takes, read_rows};
use csv::ByteRecord;
use std::alloc::{AllocError, Global};
use std::collections::BTreeSet;
use std::io::Read;
use zh_districts::Setup;
use zh_returns::{Reason, Row, RowFault, unfit};
use zh_text::numeral;
use zh_totals::{Change, Totals};

/// The number of rows in an export, and the sum of their votes for each list in each constituency.
#[derive(Drop)]
pub struct HeldSums<'s> {
    pub rows: u32,
    pub totals: Totals<'s>,
}

/// Reads an export and sums up its rows, which can be in any order. Holds one record at a time and reads at most
/// 16,386.
pub fn read_held<'s, R: Read>(
    alloc: Global,
    setup: &'s Setup,
    text: &mut NotedReader<R>,
) -> Result<HeldSums<'s>, LoadFault>
    ensures held { IsHolding setup.now (λ bytes. R.remaining (inner_reader text.old) ≡ Some bytes) result }
    ensures read { IsErrOf result LoadFault.Read → has_failed text.new ≡ true }
{
    let mut sums = RunningSums::new(alloc, setup)?;
    let rows = read_rows(alloc, text, &mut sums)?;
    Ok(HeldSums {
        rows,
        totals: sums.totals(),
    })
}

/// The keys of the rows that were read so far, and the sums of their votes.
#[derive(Drop)]
pub(crate) struct RunningSums<'s> {
    keys: BTreeSet<(u32, u32)>,
    totals: Totals<'s>,
}

/// Adds the key of a row. A key that an earlier row has is refused.
fn note_key(keys: &mut BTreeSet<(u32, u32)>, municipality: u32, list: u32) -> Result<(), LoadFault>
    ensures { (rows : List HeldRow) → AreKeysOf rows keys.old → MatchResult result
        (λ _. (holds_key rows (municipality, list) ≡ false)
        × ((key : ℕ × ℕ) → has_seen keys.new key ≡ (eq_by_cmp key_cmp key (municipality, list) || holds_key rows key)))
        (λ fault. fault ≢ LoadFault.Memory → (fault ≡ LoadFault.Row Twice) × (holds_key rows (municipality, list) ≡ true)) }
{
    match keys.insert((municipality, list)) {
        Ok(true) => Ok(()),
        Ok(false) => Err(LoadFault::Row(RowFault::Twice)),
        Err(_) => Err(LoadFault::Memory),
    }
}

impl<'s> RunningSums<'s> {
    /// The keys and sums of no rows.
    pub(crate) fn new(alloc: Global, setup: &'s Setup) -> Result<RunningSums<'s>, AllocError>
        ensures { IfOk result (HasTaken setup.now []) }
    {
        Ok(RunningSums {
            keys: BTreeSet::new(alloc),
            totals: Totals::new(alloc, setup)?,
        })
    }

    /// Adds one row. Fails with the first reason why it can't follow the rows before it, or if memory is refused.
    fn note(&mut self, row: &HeldRow) -> Result<(), LoadFault>
        requires readable { IsHeldRow row.now }
        requires taken { (canton : Canton) × (rows : List HeldRow) × HasTaken canton rows self.old }
        ensures { (canton : Canton) (rows : List HeldRow) → HasTaken canton rows self.old → MatchResult result
            (λ _. HasTaken canton (rows ++ row.now ∷ []) self.new)
            (λ fault. fault ≢ LoadFault.Memory → row_fault canton rows row.now ≡ Some fault) }
    {
        let votes = row.votes.unwrap_or(0);
        let as_row = Row {
            municipality: row.municipality,
            list: row.list,
            number: row.number,
            votes,
        };
        if let Some(reason) = unfit(self.totals.setup(), as_row) {
            return Err(LoadFault::Judged(reason));
        }
        note_key(&mut self.keys, row.municipality, row.list)?;
        self.totals.note(&Change {
            constituency: self.totals.setup().constituency_of(row.municipality),
            list: row.list,
            before: 0,
            after: votes,
        });
        Ok(())
    }

    /// The sums of the rows.
    pub(crate) fn totals(self) -> Totals<'s>
        ensures { result ≡ self.entry.totals }
    {
        self.totals
    }
}

impl<'s> Takes for RunningSums<'s> {
    ghost use Rattle.zh_csv.specs.Held.{holding};
    ghost use Rattle.zh_csv.specs.Running.{HasTaken};

    type Row = HeldRow;

    ghost kind = { holding };

    ghost holds = { λ canton sums rows. HasTaken canton rows sums };

    fn take(&mut self, csv_record: &ByteRecord) -> Result<(), LoadFault> {
        // The limits of a set-up bound the number of its rows.
        let setup = self.totals.setup();
        let is_small = setup.municipalities() <= 512 && setup.groups() <= 32;
        prove!(is_small);
        self.note(&held_row_of(csv_record)?)
    }
}

/// What is held for a municipality and a list: the replacement number, from 1, and the votes, or `None` if the list is
/// withdrawn.
#[derive(Clone, Copy)]
pub struct HeldRow {
    pub municipality: u32,
    pub list: u32,
    pub number: u32,
    pub votes: Option<u32>,
}

/// The votes in a field: `Some(None)` if it is `withdrawn`, and `None` if it is neither that nor a numeral.
fn votes_in(field: &[u8]) -> Option<Option<u32>>
    ensures { MatchOption result
        ((votes : Option ℕ) → IfSome votes (λ n. n < 2 ^ 32) → field.now ≢ votes_field votes)
        (λ votes. IfSome votes (λ n. n < 2 ^ 32) × (field.now ≡ votes_field votes)) }
{
    if field == b"withdrawn".as_slice() {
        return Some(None);
    }
    let votes = numeral(field)?;
    Some(Some(votes))
}

/// The row in a record of four fields. `None` if a field is not spelled as in an export, or the replacement number is 0.
fn held_row_in(csv_record: &ByteRecord) -> Option<HeldRow>
    requires { length (fields_of csv_record.now) ≡ 4 }
    ensures { MatchOption result
        ((row : HeldRow) → IsHeldRow row → fields_of csv_record.now ≢ held_fields row)
        (λ row. IsHeldRow row × (fields_of csv_record.now ≡ held_fields row)) }
{
    let row = HeldRow {
        municipality: numeral(field(csv_record, 0))?,
        list: numeral(field(csv_record, 1))?,
        number: numeral(field(csv_record, 2))?,
        votes: votes_in(field(csv_record, 3))?,
    };
    if row.number == 0 { None } else { Some(row) }
}

/// The row of a record, or why the record is not a row.
fn held_row_of(csv_record: &ByteRecord) -> Result<HeldRow, LoadFault>
    ensures { MatchResult result
        (λ row. IsHeldRow row × (fields_of csv_record.now ≡ held_fields row))
        (IsUnread held_fields IsHeldRow (fields_of csv_record.now)) }
{
    if !may_be_row(csv_record) {
        return Err(LoadFault::Csv);
    }
    held_row_in(csv_record).ok_or(LoadFault::Syntax)
}

/// What is wrong with a record of an export.
#[derive(Clone, Copy)]
pub enum HeldFault {
    /// The first record is missing or does not name the columns, or a record does not have four fields or is too long.
    Csv,
    /// A field is neither a numeral nor, for votes, `withdrawn`; or a replacement number is 0.
    Syntax,
    /// The set-up has no municipality with this number.
    Municipality,
    /// The list does not stand in the constituency of the municipality.
    List,
    /// There are more than 1,000,000,000 votes.
    Votes,
    /// An earlier record has the same municipality and list.
    Twice,
}

impl HeldFault {
    /// What is wrong with the record at which the reading of an export ended with this fault. `None` if memory was refused or
    /// the reader failed: then no record is wrong.
    pub fn of(fault: LoadFault) -> Option<HeldFault>
        ensures { result ≡ named fault }
    {
        match fault {
            LoadFault::Csv => Some(HeldFault::Csv),
            LoadFault::Syntax => Some(HeldFault::Syntax),
            LoadFault::Judged(Reason::Municipality) => Some(HeldFault::Municipality),
            LoadFault::Judged(Reason::List) => Some(HeldFault::List),
            LoadFault::Judged(_) => Some(HeldFault::Votes),
            LoadFault::Row(_) => Some(HeldFault::Twice),
            LoadFault::Memory | LoadFault::Read => None,
        }
    }

    /// The name of the fault in reports: at most 17 bytes.
    pub fn name(self) -> &'static str
        ensures name { result.now ≡ held_name self }
        ensures short { length result.now ≤ 17 }
    {
        match self {
            HeldFault::Csv => "held csv",
            HeldFault::Syntax => "held syntax",
            HeldFault::Municipality => "held municipality",
            HeldFault::List => "held list",
            HeldFault::Votes => "held votes",
            HeldFault::Twice => "held twice",
        }
    }
}
