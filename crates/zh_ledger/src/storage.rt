//! A command on the disk: its record is appended, after a switch if too little room is left, and then it is applied to the
//! count.

ghost use Rattle.std.specs.Prelude.{◌≡◌, ◌≢◌, ◌↔◌, ◌<◌, ◌-◌, ◌^◌, true, false, length, take, OnOk, IfOk, IsErrOf};
ghost use Rattle.zh_disk.specs.History.{Call};
ghost use Rattle.zh_returns.specs.Judgement.{judge};
ghost use Rattle.zh_returns.specs.declared.command.Format.{Format};
ghost use Rattle.zh_returns.specs.Spelling.{HasNumbers, IsSpeakable, command_spelling};
ghost use Rattle.zh_ledger.specs.Ledger.{MayStore, StoredOrDevice, Becomes, ledger_of, ready, has_room, lacks_room};
ghost use Rattle.zh_ledger.specs.Faults.{fails, may_write};
ghost use Rattle.zh_ledger.specs.Images.{KeepsCommand, MakesRoom};
ghost use Rattle.zh_snapshot.specs.Faults.{store_switch_fails};
ghost use Rattle.zh_returns.specs.Limits.{IsTally};
ghost use Rattle.zh_returns.specs.Payload.{payload_spelling};
ghost use Rattle.zh_snapshot.specs.Calls.{StoreSwitch};
ghost use Rattle.zh_snapshot.specs.Store.{switched};

use crate::outcome::Outcome;
use zh_disk::Disk;
use zh_journal::pages_of;
use zh_returns::{Command, PAYLOAD_LENGTH, Verdict, encode_command};
use zh_snapshot::{AppendFault, Store, SwitchFault};
use zh_totals::RunningCount;

/// Stores a command that was judged acceptable, if the count has a number left for it and the disk has room, and then applies
/// it to the count. The buffer is used for a snapshot or a record.
pub(crate) fn keep<D: Disk>(
    count: &mut RunningCount<'_>,
    store: &mut Store,
    buffer: &mut [u8],
    disk: &mut D,
    command: &Command<'_>,
) -> Outcome
    requires buffer { length buffer.old ≡ PAYLOAD_LENGTH }
    requires accept { judge count.old command.now ≡ Verdict.Accept }
    requires whole { store.old.broken ≡ false }
    requires numbers { HasNumbers command.now }
    ensures results { MayStore (ledger_of count.old store.old) command.now result }
    ensures after { Becomes (ledger_of count.old store.old) command.now result (ledger_of count.new store.new) }
    ensures call { Call fails (KeepsCommand (ledger_of count.old store.old) command.now)
        (D.history disk.old) (D.history disk.new) result }
    ensures untouched { may_write result ≡ false → disk.new ≡ disk.old }
{
    if count.count().accepted() == u64::MAX {
        return Outcome::Spent;
    }
    match make_room(count, store, buffer, disk, command) {
        Ok(len) => append(count, store, disk, command, &buffer[..len]),
        Err(SwitchFault::Spent) => Outcome::Spent,
        Err(SwitchFault::Device) => Outcome::Device,
        Err(SwitchFault::Broken) => unreachable!(),
    }
}

/// Writes the record of a command to the front of the buffer, returns its length, and makes room for it on the disk. If too few
/// pages are left, the store switches to the disk's other slot, with the count as its snapshot. The snapshot uses the same
/// buffer, so the record is written again after it.
fn make_room<D: Disk>(
    count: &RunningCount<'_>,
    store: &mut Store,
    buffer: &mut [u8],
    disk: &mut D,
    command: &Command<'_>,
) -> Result<usize, SwitchFault>
    requires buffer { length buffer.old ≡ PAYLOAD_LENGTH }
    requires whole { store.old.broken ≡ false }
    requires speakable { IsSpeakable Format.Two command.now }
    ensures length { IfOk result (λ len. len ≡ length (command_spelling Format.Two command.now)) }
    ensures written { IfOk result (λ len. take len buffer.new ≡ command_spelling Format.Two command.now) }
    ensures ok { OnOk result (ledger_of count.now store.new ≡ ready (ledger_of count.now store.old) command.now) }
    ensures device { IsErrOf result SwitchFault.Device → store.new.broken ≡ true }
    ensures spent { (result ≡ Err SwitchFault.Spent) ↔ (lacks_room (ledger_of count.now store.old) command.now ≡ true) }
    ensures broken { result ≢ Err SwitchFault.Broken }
    ensures untouched { IsErrOf result SwitchFault.Spent → (disk.new ≡ disk.old) × (store.new ≡ store.old) }
    ensures call { Call store_switch_fails (MakesRoom (ledger_of count.now store.old) command.now)
        (D.history disk.old) (D.history disk.new) result }
{
    let len = encode_command(command, buffer);
    if pages_of(len as u32) <= store.pages_left() {
        return Ok(len);
    }
    switch(count, store, buffer, disk)?;
    Ok(encode_command(command, buffer))
}

/// Appends the record of a command, for which there is room, and then applies the command to the count.
fn append<D: Disk>(
    count: &mut RunningCount<'_>,
    store: &mut Store,
    disk: &mut D,
    command: &Command<'_>,
    payload: &[u8],
) -> Outcome
    requires accept { judge count.old command.now ≡ Verdict.Accept }
    requires whole { store.old.broken ≡ false }
    requires number { count.old.accepted < 2 ^ 64 - 1 }
    requires speakable { IsSpeakable Format.Two command.now }
    requires spelled { payload.now ≡ command_spelling Format.Two command.now }
    requires room { has_room (ledger_of count.old store.old) command.now ≡ true }
    ensures results { StoredOrDevice count.old.accepted result }
    ensures after { Becomes (ledger_of count.old store.old) command.now result (ledger_of count.new store.new) }
    ensures call { Call fails (KeepsCommand (ledger_of count.old store.old) command.now)
        (D.history disk.old) (D.history disk.new) result }
{
    match store.append(disk, payload) {
        Ok(()) => {
            count.apply(command);
            Outcome::Stored(count.count().accepted())
        }
        Err(AppendFault::Device) => Outcome::Device,
        Err(AppendFault::Full | AppendFault::Broken) => unreachable!(),
    }
}

/// Writes the count as a snapshot in format Two into the other slot of its store. From then on, that slot is in use, one
/// generation later and without records. The buffer is used for the snapshot.
pub(crate) fn switch<D: Disk>(
    count: &RunningCount<'_>,
    store: &mut Store,
    buffer: &mut [u8],
    disk: &mut D,
) -> Result<(), SwitchFault>
    requires buffer { length buffer.old ≡ PAYLOAD_LENGTH }
    requires whole { store.old.broken ≡ false }

    // If the disk is honest, each image has, at each moment, the content from the start or the count as its snapshot. Nothing
    // outside the other slot changes, whatever the image was.
    ensures call { Call store_switch_fails (StoreSwitch store.old (payload_spelling Format.Two count.now))
        (D.history disk.old) (D.history disk.new) result }

    ensures limits { IsTally count.now }
    ensures ok { OnOk result (store.new ≡ switched store.old) }
    ensures device { IsErrOf result SwitchFault.Device → store.new.broken ≡ true }
    ensures broken { result ≢ Err SwitchFault.Broken }
    ensures spent { (result ≡ Err SwitchFault.Spent) ↔ (store.old.generation ≡ 2 ^ 64 - 1) }
    ensures untouched { IsErrOf result SwitchFault.Spent → (disk.new ≡ disk.old) × (store.new ≡ store.old) }
{
    count.count().encode(buffer);
    store.switch(disk, buffer)
}
