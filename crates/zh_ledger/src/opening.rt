//! The opening of the ledger on a disk.

ghost use Rattle.std.specs.Prelude.{◌≡◌, ◌≢◌, ◌≤◌, ◌-◌, ◌^◌, false, length, IfOk, OnOk, IsErrOf, is_err, ◌<◌, ℕ, ◌∷◌, true, List, []};
ghost use Rattle.zh_disk.specs.Disk.{Asks};
ghost use Rattle.zh_disk.specs.History.{Call};
ghost use Rattle.zh_districts.specs.Spelling.{setup_spelling};
ghost use Rattle.zh_returns.specs.Tally.{empty, Tally};
ghost use Rattle.zh_ledger.specs.Faults.{open_fails};
ghost use Rattle.zh_ledger.specs.Ledger.{ledger_in};
ghost use Rattle.zh_ledger.specs.Opening.{MigratesFrom, Opening, ReadsCount};
ghost use Rattle.zh_journal.specs.Pages.{Frames};
ghost use Rattle.zh_journal.specs.declared.page.TheConstants.{LONGEST_PAYLOAD};
ghost use Rattle.zh_returns.specs.Judgement.{judge};
ghost use Rattle.zh_returns.specs.Spelling.{IsSpeakable, command_spelling};
ghost use Rattle.zh_ledger.specs.Stands.{Replays};

use crate::ledger::{Ledger, buffer};
use crate::storage::switch;
use std::alloc::{AllocError, Global};
use thiserror::Error;
use zh_disk::{Disk, DiskFault};
use zh_districts::{Setup, setup_bytes};
use zh_journal::Reader;
use zh_returns::{Command, Format, PAYLOAD_LENGTH, Verdict, decode_command, payload_format};
use zh_snapshot::{Store, StoreFault, SwitchFault};
use zh_totals::RunningCount;

/// Why the ledger on a disk is not opened.
#[derive(Clone, Copy, Debug, Error)]
#[error("{}", self.name())]
pub enum OpenFault {
    Memory,
    Device,
    /// The disk gate is closed: the disk is not formatted.
    Blank,
    /// The disk gate is open, but the disk is not framed, or its content represents no count of this set-up.
    Damaged,
    /// The disk is framed, but its set-up bytes are not those of this set-up.
    SetupDiffers,
}

impl OpenFault {
    ghost use Rattle.zh_ledger.specs.Faults.{opening_name};

    /// Its name, as reports spell it.
    pub fn name(self) -> &'static str
        ensures name { result.now ≡ opening_name self }
        ensures short { length result.now ≤ 12 }
    {
        match self {
            OpenFault::Memory => "memory",
            OpenFault::Device => "disk device",
            OpenFault::Blank => "disk blank",
            OpenFault::Damaged => "disk damaged",
            OpenFault::SetupDiffers => "disk differs",
        }
    }
}

impl From<AllocError> for OpenFault {
    ghost use Rattle.std.specs.Prelude.{◌≡◌};
    ghost use Rattle.zh_ledger.specs.declared.opening.OpenFault.TheVariants as faults;

    ghost from_gives = { λ _ e. e ≡ faults.Memory };

    fn from(_: AllocError) -> Self {
        OpenFault::Memory
    }
}

impl From<DiskFault> for OpenFault {
    ghost use Rattle.std.specs.Prelude.{◌≡◌};
    ghost use Rattle.zh_ledger.specs.declared.opening.OpenFault.TheVariants as faults;

    ghost from_gives = { λ _ e. e ≡ faults.Device };

    fn from(_: DiskFault) -> Self {
        OpenFault::Device
    }
}

impl From<zh_snapshot::OpenFault> for OpenFault {
    ghost use Rattle.std.specs.Prelude.{◌≡◌};
    ghost use Rattle.zh_ledger.specs.Faults.{fault_of_store};

    ghost from_gives = { λ fault e. e ≡ fault_of_store fault };

    fn from(fault: zh_snapshot::OpenFault) -> Self {
        match fault {
            zh_snapshot::OpenFault::Device => OpenFault::Device,
            zh_snapshot::OpenFault::Blank => OpenFault::Blank,
            zh_snapshot::OpenFault::Damaged => OpenFault::Damaged,
            zh_snapshot::OpenFault::Memory => OpenFault::Memory,
        }
    }
}

impl<'s> Ledger<'s> {
    /// Opens the ledger on a disk: a sync, and then only reads. If the slot in use has format One, a switch to the same count
    /// in format Two follows, provided that a generation is left for it. All memory is allocated before the first call of the
    /// disk.
    ///
    /// A disk that can't be opened is judged in this order (docs/FORMATS.md). `Blank`: the disk gate is closed. `Damaged`: the
    /// disk is not framed. `SetupDiffers`: its set-up bytes are not those of `setup`. `Damaged` again: the snapshot is not a
    /// count of this set-up, or a record has no command that is accepted in its turn. If a call of the disk fails, the fault is
    /// `Device`.
    pub fn open<D: Disk>(
        alloc: Global,
        setup: &'s Setup,
        disk: &mut D,
    ) -> Result<Ledger<'s>, OpenFault>
        // If the disk is honest, this also says what a stop can leave, at each moment since the call began.
        ensures opening { Opening setup.now (D.history disk.old) (D.history disk.new) result }

        ensures untouched { IsErrOf result OpenFault.Memory → disk.new ≡ disk.old }
    {
        let bytes = setup_bytes(alloc, setup)?;
        let mut buffer = buffer(alloc)?;
        let mut count = RunningCount::new(alloc, setup)?;
        let (mut store, mut reader) = Store::open(alloc, disk)?;
        let found = read_count(disk, &store, &bytes, &mut reader, &mut buffer, &mut count)?;
        let format = migrate(found, &count, &mut store, &mut buffer, disk)?;
        Ok(Ledger {
            count,
            store,
            format,
            buffer,
        })
    }
}

/// Compares the set-up bytes on a store's disk with `setup` and reads the count there: the snapshot, and then the records that
/// the reader has not read yet. Returns its format. `count` must be the empty count of the set-up with the bytes `setup`.
fn read_count<D: Disk>(
    disk: &mut D,
    store: &Store,
    setup: &[u8],
    reader: &mut Reader,
    buffer: &mut [u8],
    count: &mut RunningCount<'_>,
) -> Result<Format, OpenFault>
    requires setup { setup.now ≡ setup_spelling count.old.canton }
    requires buffer { PAYLOAD_LENGTH ≤ length buffer.old }
    requires count { count.old ≡ empty count.old.canton }
    ensures call { Call open_fails (Asks (ReadsCount store.now reader.old count.old.canton count.new))
        (D.history disk.old) (D.history disk.new) result }
    ensures canton { count.new.canton ≡ count.old.canton }
    ensures blank { result ≢ Err OpenFault.Blank }
    ensures memory { result ≢ Err OpenFault.Memory }
{
    if !store.setup_equals(disk, setup)? {
        return Err(OpenFault::SetupDiffers);
    }
    let payload = store.snapshot(disk, buffer)?;
    let Some(format) = payload_format(payload) else {
        return Err(OpenFault::Damaged);
    };
    if !count.decode(payload) {
        return Err(OpenFault::Damaged);
    }
    if !replay(reader, format, buffer, count) {
        return Err(OpenFault::Damaged);
    }
    Ok(format)
}

/// If the slot in use has format One, switches to the same count in format Two. Returns the format of the slot that is in use
/// afterwards: it is still One at the last generation, at which no switch is left.
fn migrate<D: Disk>(
    format: Format,
    count: &RunningCount<'_>,
    store: &mut Store,
    buffer: &mut [u8],
    disk: &mut D,
) -> Result<Format, StoreFault>
    requires buffer { length buffer.old ≡ PAYLOAD_LENGTH }
    requires whole { store.old.broken ≡ false }

    ensures call { Call is_err (MigratesFrom (ledger_in format count.now store.old) store.new)
        (D.history disk.old) (D.history disk.new) result }
    ensures whole { OnOk result (store.new.broken ≡ false) }
    ensures last { IfOk result (λ format. format ≡ Format.One → store.new.generation ≡ 2 ^ 64 - 1) }
{
    match format {
        Format::Two => Ok(Format::Two),
        Format::One => match switch(count, store, buffer, disk) {
            Ok(()) => Ok(Format::Two),
            Err(SwitchFault::Spent) => Ok(Format::One),
            Err(SwitchFault::Device) => Err(StoreFault::Device),
            Err(SwitchFault::Broken) => unreachable!(),
        },
    }
}

/// Applies the commands of the records that a reader has not read yet, in this format and in order, to the count. False at the
/// first record that has no accepted command.
fn replay(
    reader: &mut Reader,
    format: Format,
    buffer: &mut [u8],
    count: &mut RunningCount<'_>,
) -> bool
    requires { LONGEST_PAYLOAD ≤ length buffer.old }

    ensures replayed { result ≡ true → (records : List (List ℕ))
        → Frames 0 reader.old.pages reader.old.page records reader.old.end → Replays format count.old records count.new }
    ensures refused { result ≡ false → (records : List (List ℕ))
        → Frames 0 reader.old.pages reader.old.page records reader.old.end
        → (tally : Tally) → Replays format count.old records tally → ⊥ }
    ensures canton { count.new.canton ≡ count.old.canton }
{
    while let Some(payload) = reader.next(buffer) {
        if !replay_record(payload, format, count) {
            return false;
        }
    }
    true
}

/// Applies the command of a record to the count. False if the record spells no command, if the command is not accepted, or if
/// 2^64 - 1 commands already are; then the count is unchanged.
fn replay_record(payload: &[u8], format: Format, count: &mut RunningCount<'_>) -> bool
    ensures replayed { result ≡ true → Replays format count.old (payload.now ∷ []) count.new }
    ensures refused { result ≡ false → (command : Command) → IsSpeakable format command
        → command_spelling format command ≡ payload.now → judge count.old command ≡ Verdict.Accept
        → count.old.accepted < 2 ^ 64 - 1 → ⊥ }
    ensures unchanged { result ≡ false → count.new ≡ count.old }
    ensures canton { count.new.canton ≡ count.old.canton }
{
    let Some(command) = decode_command(payload, format) else {
        return false;
    };
    let now = count.count();
    if now.judge(&command) != Verdict::Accept || now.accepted() == u64::MAX {
        return false;
    }
    count.apply(&command);
    true
}
