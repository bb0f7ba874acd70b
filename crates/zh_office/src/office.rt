//! The office.

ghost use Rattle.std.specs.Prelude.{◌≡◌, ◌≢◌, false, length, IfOk, IsErrOf};
ghost use Rattle.std.specs.Io.KnownBytes.{Appends};
ghost use Rattle.zh_commands.specs.Lines.{desk_of};
ghost use Rattle.zh_csv.specs.Export.{export_text};
ghost use Rattle.zh_disk.specs.History.{Call};
ghost use Rattle.zh_office.specs.DeskBatches.{no_batches, rows_of};
ghost use Rattle.zh_returns.specs.declared.batch.Desk.{Desk};
ghost use Rattle.zh_ledger.specs.Opening.{MakesNew, Opening};
ghost use Rattle.zh_ledger.specs.Submissions.{on_disk};
ghost use Rattle.zh_office.specs.Opened.{ledger_of_opened};
ghost use Rattle.zh_office.specs.Requests.{answer_may_write};
ghost use Rattle.zh_office.specs.Runs.{LineTurn};
ghost use Rattle.zh_snapshot.specs.Faults.{store_format_fails};
ghost use Rattle.zh_totals.specs.Counting.{totals_of};

use crate::answer::Answer;
use crate::desks::Desks;
use std::alloc::{AllocError, Global};
use std::io::Write;
use std::marker::Model;
use zh_commands::{LineFault, Refusal, Reply, parse_line};
use zh_csv::write_count;
use zh_disk::Disk;
use zh_districts::Setup;
use zh_ledger::{FormatFault, Ledger, OpenFault};
use zh_record_text::RecordFault;
use zh_returns::Count;
use zh_totals::Totals;

/// The most bytes of the rows of a batch: 1,000 rows of 11 bytes.
const ROWS_LENGTH: usize = 11_000;

/// The count of an election on a disk, and the batches of the desks that change it.
///
/// The disk is lent to each call that may use it, and must be the one that the office was opened on. After a fault of the
/// device the office answers `reopen-disk` to each line that it can read and to each loading, until a new office is opened on
/// the disk.
#[derive(Drop)]
pub struct Office<'s> {
    // the count, without its disk
    pub(crate) ledger: Ledger<'s>,
    // the batches of the desks
    pub(crate) desks: Desks,
    // where rows and sheets are allocated
    pub(crate) alloc: Global,
    // room for the rows of a batch that is being submitted
    pub(crate) rows: Vec<u8>,
}

impl<'s> Model for Office<'s> {
    ghost use Rattle.std.specs.Prelude.{◌≤◌, vec_len};
    ghost use Rattle.zh_returns.specs.Rows.{rows_length};
    ghost use Rattle.zh_office.specs.Office as office;

    ghost Value = { office.Office };

    ghost use Rattle.zh_office.specs.Code.{office_code};

    ghost coded = { office_code };

    ghost view = { λ office. record { ledger = office.ledger; held = office.desks } };

    ghost invariant = { λ office. rows_length ≤ vec_len office.rows };
}

/// Room for the rows of a batch.
fn row_bytes(alloc: Global) -> Result<Vec<u8>, AllocError>
    ensures { IfOk result (λ bytes. length bytes.items ≡ ROWS_LENGTH) }
{
    vec![in alloc; 0; ROWS_LENGTH]
}

impl<'s> Office<'s> {
    /// Formats a disk, whatever it contains, as `Ledger::format` does. On success an honest disk holds the empty count of this
    /// set-up. If memory is refused, the disk is not called.
    pub fn format<D: Disk>(alloc: Global, setup: &Setup, disk: &mut D) -> Result<(), FormatFault>
        ensures call { Call store_format_fails (MakesNew setup.now) (D.history disk.old) (D.history disk.new) result }
        ensures untouched { IsErrOf result FormatFault.Memory → disk.new ≡ disk.old }
    {
        Ledger::format(alloc, setup, disk)
    }

    /// Opens the office on a disk, as `Ledger::open` does. No desk has a batch. All memory that the opening needs is allocated
    /// before the first call of the disk.
    pub fn open<D: Disk>(
        alloc: Global,
        setup: &'s Setup,
        disk: &mut D,
    ) -> Result<Office<'s>, OpenFault>
        // If the disk is honest, this also says what a stop can leave on it, at each moment since the call began.
        ensures opening { Opening setup.now (D.history disk.old) (D.history disk.new) (ledger_of_opened result) }

        // No desk has a batch yet.
        ensures held { IfOk result (λ office. office.held ≡ no_batches) }

        ensures untouched { IsErrOf result OpenFault.Memory → disk.new ≡ disk.old }
    {
        let rows = row_bytes(alloc)?;
        let ledger = Ledger::open(alloc, setup, disk)?;
        Ok(Office {
            ledger,
            desks: Desks::new(),
            alloc,
            rows,
        })
    }

    /// The current count.
    pub fn count(&self) -> &Count<'s>
        ensures { result.now ≡ self.now.ledger.tally }
    {
        self.ledger.count()
    }

    /// The votes of each group in each constituency, in the current count.
    pub fn totals(&self) -> &Totals<'s>
        ensures { result.now ≡ totals_of self.now.ledger.tally }
    {
        self.ledger.totals()
    }

    /// Whether the device failed under this office, so that the disk must be reopened.
    pub fn faulted(&self) -> bool
        ensures { result ≡ self.now.ledger.store.broken }
    {
        self.ledger.is_broken()
    }

    /// Answers a line, given without its LF. Only the lines `row`, `sheet` and `final` can be answered `memory`.
    ///
    /// An accepted command is on the disk before it is answered `stored`. After `device` the disk may or may not hold it,
    /// and the count is without it.
    pub fn line<D: Disk>(&mut self, disk: &mut D, bytes: &[u8]) -> Answer<'s>
        // If the disk is honest, the turn also says what a stop can leave on it, at each moment since the call began.
        ensures turn { LineTurn (on_disk self.old (D.history disk.old)) bytes.now result (on_disk self.new (D.history disk.new)) }

        ensures others { (desk : Desk) → desk.number ≢ desk_of bytes.now → rows_of self.new.held desk ≡ rows_of self.old.held desk }
        ensures untouched { answer_may_write result ≡ false → disk.new ≡ disk.old }
    {
        match parse_line(bytes) {
            Err(LineFault::Syntax) => Answer::Reply(Reply::Refused(Refusal::Syntax)),
            Err(LineFault::Desk) => Answer::Reply(Reply::Refused(Refusal::Desk)),
            Ok(line) => self.answer_to(disk, line),
        }
    }

    /// Writes what is held as comma-separated text, withdrawn lists included, and returns the writer. After the names of the
    /// columns the records are ordered by municipality and then by list.
    pub fn export<W: Write + Drop>(&self, writer: W) -> Result<W, RecordFault>
        ensures { IfOk result (λ after. Appends (W.contents writer) (W.contents after) (export_text self.now.ledger.tally)) }
    {
        write_count(self.count(), writer)
    }
}
