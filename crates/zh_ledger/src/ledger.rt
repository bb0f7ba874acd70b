//! The ledger: the count, and the disk on which it is stored.

ghost use Rattle.std.specs.Prelude.{◌≡◌, IfOk, IsErrOf, false, length};
ghost use Rattle.zh_disk.specs.History.{Call};
ghost use Rattle.zh_snapshot.specs.Faults.{store_format_fails};
ghost use Rattle.zh_totals.specs.Counting.{totals_of};
ghost use Rattle.zh_returns.specs.Spelling.{HasNumbers};
ghost use Rattle.zh_ledger.specs.Faults.{may_write};
ghost use Rattle.zh_ledger.specs.Opening.{MakesNew};
ghost use Rattle.zh_ledger.specs.Submissions.{Submission, on_disk};

use crate::outcome::Outcome;
use crate::storage::keep;
use std::alloc::{AllocError, Global};
use std::marker::Model;
use zh_disk::Disk;
use zh_districts::{Setup, setup_bytes};
use zh_returns::{Command, Count, Format, PAYLOAD_LENGTH, Verdict};
use zh_snapshot::{FormatFault, Store};
use zh_totals::{RunningCount, Totals};

/// The count of an election on a disk.
///
/// The disk is passed to each call. It must be the one on which the ledger was opened. After a fault of the device, every
/// command is answered `Broken` until a new ledger is opened on the disk.
#[derive(Drop)]
pub struct Ledger<'s> {
    pub(crate) count: RunningCount<'s>,
    pub(crate) store: Store,
    // of the slot in use: format One only if no switch is left
    pub(crate) format: Format,
    // room for a snapshot or a record
    pub(crate) buffer: Vec<u8>,
}

impl<'s> Model for Ledger<'s> {
    ghost use Rattle.std.specs.Prelude.{◌≡◌, length};
    ghost use Rattle.zh_snapshot.specs.declared.layout.TheConstants.{SNAPSHOT_LENGTH};
    ghost use Rattle.zh_ledger.specs.Ledger as ledger;

    ghost Value = { ledger.Ledger };

    ghost use Rattle.zh_ledger.specs.Code.{ledger_code};

    ghost coded = { ledger_code };

    ghost view = { λ ledger. record { tally = ledger.count; store = ledger.store; format = ledger.format } };

    ghost invariant = { λ ledger. length ledger.buffer.items ≡ SNAPSHOT_LENGTH };
}

/// Room for a snapshot or a record. Fails if memory is refused.
pub(crate) fn buffer(alloc: Global) -> Result<Vec<u8>, AllocError>
    ensures { IfOk result (λ buffer. length buffer.items ≡ PAYLOAD_LENGTH) }
{
    vec![in alloc; 0; PAYLOAD_LENGTH]
}

impl<'s> Ledger<'s> {
    /// Formats a disk. On success an honest disk holds the empty count, whatever it held before. All memory is allocated before
    /// the first call of the disk.
    pub fn format<D: Disk>(alloc: Global, setup: &Setup, disk: &mut D) -> Result<(), FormatFault>
        // If the disk is honest, this also says what a stop can leave, at each moment since the call began.
        ensures call { Call store_format_fails (MakesNew setup.now) (D.history disk.old) (D.history disk.new) result }

        ensures untouched { IsErrOf result FormatFault.Memory → disk.new ≡ disk.old }
    {
        let bytes = setup_bytes(alloc, setup)?;
        let mut first = buffer(alloc)?;
        Count::new(alloc, setup)?.encode(&mut first);
        Store::format(alloc, disk, &bytes, &first)
    }

    /// The current count.
    pub fn count(&self) -> &Count<'s>
        ensures { result.now ≡ self.now.tally }
    {
        self.count.count()
    }

    /// The votes of each group in each constituency, in the current count.
    pub fn totals(&self) -> &Totals<'s>
        ensures { result.now ≡ totals_of self.now.tally }
    {
        self.count.totals()
    }

    /// Whether a command met a fault of the device, so that the disk must be opened again.
    pub fn is_broken(&self) -> bool
        ensures { result ≡ self.now.store.broken }
    {
        self.store.is_broken()
    }

    /// Judges a command. If it is accepted, stores it and then counts it. Allocates no memory.
    pub fn submit<D: Disk>(&mut self, disk: &mut D, command: &Command<'_>) -> Outcome
        requires numbers { HasNumbers command.now }

        // If the disk is honest, this also says what a stop can leave, at each moment since the call began, and that nothing
        // outside the two slots changes, whatever the disk held.
        ensures submission { Submission (on_disk self.old (D.history disk.old)) command.now result
            (on_disk self.new (D.history disk.new)) }

        ensures untouched { may_write result ≡ false → disk.new ≡ disk.old }
    {
        if self.is_broken() {
            return Outcome::Broken;
        }
        match self.count().judge(command) {
            Verdict::Accept if self.format == Format::One => Outcome::Spent,
            Verdict::Accept => keep(
                &mut self.count,
                &mut self.store,
                &mut self.buffer,
                disk,
                command,
            ),
            Verdict::Same => Outcome::Same,
            Verdict::Refused(reason) => Outcome::Refused(reason),
        }
    }
}
