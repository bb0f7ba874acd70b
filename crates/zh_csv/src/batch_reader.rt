//! Reading a batch from a text.
ghost use Rattle.std.specs.Prelude.{◌≡◌, ◌≢◌, List, ◌++◌, ◌∷◌, [], ℕ, Some, None, IfOk, IfErr, IsErrOf, OnOk, OnErr, true};
ghost use Rattle.zh_csv.specs.Load.{fault_after, Loads, AreLoaded, IsReadable};
ghost use Rattle.zh_csv.specs.Noted.{has_failed, inner_reader};
ghost use Rattle.zh_csv.specs.declared.batch_reader.LoadFault.{LoadFault};
ghost use Rattle.zh_csv.specs.declared.batch_reader.LoadFault.TheVariants.{Memory};

use crate::noted_reader::NotedReader;
use crate::records::{ReadFault, row_of};
use crate::row_reader::{Takes, read_rows};
use csv::ByteRecord;
use std::alloc::{AllocError, Global};
use std::io::Read;
use zh_districts::Setup;
use zh_returns::{Batch, Reason, Row, RowFault, unfit};

/// Adds a row to the end of a batch. If the row can't follow the others, or memory is refused, the batch is unchanged.
pub fn hold(setup: &Setup, batch: &mut Batch, row: Row) -> Result<(), LoadFault>
    requires { IsReadable row }
    ensures held { OnOk result ((batch.new ≡ batch.old ++ row ∷ []) × (fault_after setup.now batch.old row ≡ None)) }
    ensures kept { OnErr result (batch.new ≡ batch.old) }
    ensures loaded { AreLoaded setup.now batch.old → OnOk result (AreLoaded setup.now batch.new) }
    ensures refused { IfErr result (λ fault. fault ≢ LoadFault.Memory → fault_after setup.now batch.old row ≡ Some fault) }
    ensures memory { IsErrOf result LoadFault.Memory → fault_after setup.now batch.old row ≡ None }
{
    if let Some(reason) = unfit(setup, row) {
        return Err(LoadFault::Judged(reason));
    }
    if let Some(fault) = batch.refuses(row) {
        return Err(LoadFault::Row(fault));
    }
    batch.push(row)?;
    Ok(())
}

/// The rows that were read so far, and the set-up for which they are read.
#[derive(Drop)]
struct Loading<'s> {
    setup: &'s Setup,
    rows: Batch,
}

impl<'s> Takes for Loading<'s> {
    ghost use Rattle.std.specs.Prelude.{◌≡◌};
    ghost use Rattle.zh_csv.specs.Load.{AreLoaded, loading};

    type Row = Row;

    ghost kind = { loading };

    ghost holds = { λ canton taker rows. (taker.setup.now ≡ canton) × (taker.rows ≡ rows) × AreLoaded canton rows };

    fn take(&mut self, csv_record: &ByteRecord) -> Result<(), LoadFault> {
        hold(self.setup, &mut self.rows, row_of(csv_record)?)
    }
}

/// Reads a batch from a text: a record with the names of the columns, then one for each row. Reads at most 1,002
/// records and holds one of them at a time.
pub fn read_batch<R: Read>(
    alloc: Global,
    setup: &Setup,
    text: &mut NotedReader<R>,
) -> Result<Batch, LoadFault>
    ensures loads { (bytes : List ℕ) → R.remaining (inner_reader text.old) ≡ Some bytes → Loads setup.now bytes result }
    ensures loaded { IfOk result (AreLoaded setup.now) }
    ensures read { IsErrOf result LoadFault.Read → has_failed text.new ≡ true }
{
    let mut loading = Loading {
        setup,
        rows: Batch::new(alloc),
    };
    read_rows(alloc, text, &mut loading)?;
    Ok(loading.rows)
}

/// Why a text gives no batch: the first reason that applies to the first record that is refused.
#[derive(Clone, Copy, PartialEq, Eq)]
pub enum LoadFault {
    /// The first record is missing or does not name the columns, or a record does not have four fields or is too long.
    Csv,
    /// A field is not a numeral, or a replacement number is 0.
    Syntax,
    /// No batch can have this row, for the reason given.
    Judged(Reason),
    /// The batch can't take this row after those before it: one of them has the same municipality and list, or there
    /// are 1,000.
    Row(RowFault),
    /// An allocation was refused.
    Memory,
    /// The reader failed.
    Read,
}

impl From<AllocError> for LoadFault {
    ghost from_gives = { λ _ fault. fault ≡ Memory };

    fn from(_error: AllocError) -> LoadFault {
        LoadFault::Memory
    }
}

impl From<ReadFault> for LoadFault {
    ghost use Rattle.zh_csv.specs.declared.batch_reader.LoadFault.TheVariants as faults;
    ghost use Rattle.zh_csv.specs.declared.records.ReadFault.TheVariants as reading;

    ghost from_gives = { λ error fault. (error ≡ reading.Memory → fault ≡ faults.Memory) × (error ≡ reading.Read → fault ≡ faults.Read) };

    fn from(error: ReadFault) -> LoadFault {
        match error {
            ReadFault::Memory => LoadFault::Memory,
            ReadFault::Read => LoadFault::Read,
        }
    }
}
