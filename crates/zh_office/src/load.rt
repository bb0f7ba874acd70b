//! Loading the returns of a text.

ghost use Rattle.std.specs.Prelude.{◌≡◌, false, true, ℕ, Bool, List, Option, Ok};
ghost use Rattle.zh_csv.specs.Load.{LoadsFrom};
ghost use Rattle.zh_csv.specs.Noted.{has_failed, inner_reader};
ghost use Rattle.zh_ledger.specs.Submissions.{on_disk};
ghost use Rattle.zh_office.specs.Load.{load_refusal};
ghost use Rattle.zh_office.specs.Requests.{answer_may_write};
ghost use Rattle.zh_office.specs.Runs.{Continues, LoadTurn};
ghost use Rattle.zh_office.specs.declared.answer.Answer.TheVariants as answers;

use crate::answer::submit_rows;
use crate::office::Office;
use std::io::Read;
use zh_commands::{Refusal, Reply};
use zh_csv::{LoadFault, NotedReader, read_batch};
use zh_disk::Disk;
use zh_returns::Batch;

/// The desk number of a batch that no desk sent.
const NO_DESK: u8 = 0;

/// The refusal of a text, or of a desk's row, for this fault.
pub(crate) fn load_refusal(fault: LoadFault) -> Refusal
    ensures { result ≡ load_refusal fault }
{
    match fault {
        LoadFault::Csv | LoadFault::Read => Refusal::Csv,
        LoadFault::Syntax => Refusal::Syntax,
        LoadFault::Judged(reason) => Refusal::Judged(reason),
        LoadFault::Row(fault) => Refusal::Row(fault),
        LoadFault::Memory => Refusal::Memory,
    }
}

impl<'s> Office<'s> {
    /// Loads the returns of a comma-separated text as one batch that belongs to no desk. The batch is stored as a whole or
    /// not at all.
    ///
    /// The text is read record by record, only up to the record that decides, apart from what the crate `csv` reads ahead.
    /// After a fault of the device nothing is read.
    pub fn load<R: Read, D: Disk>(&mut self, disk: &mut D, reader: &mut NotedReader<R>) -> Reply
        // If the disk is honest, the turn also says what a stop can leave on it, at each moment since the call began.
        ensures turn { LoadTurn (on_disk self.old (D.history disk.old))
            (R.remaining (inner_reader reader.old)) (has_failed reader.new) result
            (on_disk self.new (D.history disk.new)) }

        ensures disk { Continues (on_disk self.old.ledger (D.history disk.old)) (on_disk self.new.ledger (D.history disk.new)) }
        ensures untouched { answer_may_write (answers.Reply result) ≡ false → disk.new ≡ disk.old }
        ensures unread { self.old.ledger.store.broken ≡ true → reader.new ≡ reader.old }
    {
        if self.faulted() {
            return Reply::Refused(Refusal::ReopenDisk);
        }
        match read_batch(self.alloc, self.count().setup(), reader) {
            Ok(batch) => self.store(disk, &batch),
            Err(fault) => Reply::Refused(load_refusal(fault)),
        }
    }

    /// Stores the rows of a text, if it has any.
    fn store<D: Disk>(&mut self, disk: &mut D, batch: &Batch) -> Reply
        requires whole { self.old.ledger.store.broken ≡ false }
        ensures turn { (text : Option (List ℕ)) (failed : Bool) → LoadsFrom self.old.ledger.tally.canton text failed (Ok batch.now)
            → LoadTurn (on_disk self.old (D.history disk.old)) text failed result (on_disk self.new (D.history disk.new)) }
        ensures disk { Continues (on_disk self.old.ledger (D.history disk.old)) (on_disk self.new.ledger (D.history disk.new)) }
        ensures untouched { answer_may_write (answers.Reply result) ≡ false → disk.new ≡ disk.old }
    {
        if batch.len() == 0 {
            return Reply::Same;
        }
        submit_rows(&mut self.ledger, disk, NO_DESK, batch, &mut self.rows)
    }
}
