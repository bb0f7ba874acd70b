//! The switch from the slot in use to the other slot.
ghost use Rattle.std.specs.Prelude.{◌≡◌, ◌↔◌, ◌-◌, ◌^◌, true, false, length, OnOk, IsErrOf};
ghost use Rattle.zh_disk.specs.History.{Call};
ghost use Rattle.zh_snapshot.specs.Faults.{store_switch_fails};
ghost use Rattle.zh_snapshot.specs.Calls.{StoreSwitch};
ghost use Rattle.zh_snapshot.specs.Store.{switched};
ghost use Rattle.zh_snapshot.specs.declared.layout.TheConstants.{SNAPSHOT_LENGTH};

use super::Store;
use crate::fault::SwitchFault;
use crate::refill::refill;
use zh_disk::Disk;

impl Store {
    /// Writes a snapshot into the other slot, one generation later and without records. From then on that slot is in use.
    pub fn switch<D: Disk>(&mut self, disk: &mut D, payload: &[u8]) -> Result<(), SwitchFault>
        requires { length payload.now ≡ SNAPSHOT_LENGTH }

        ensures call { Call store_switch_fails (StoreSwitch self.old payload.now)
            (D.history disk.old) (D.history disk.new) result }
        ensures ok { OnOk result (self.new ≡ switched self.old) }
        ensures device { IsErrOf result SwitchFault.Device → self.new ≡ record self.old { broken = true } }
        ensures broken { (result ≡ Err SwitchFault.Broken) ↔ (self.old.broken ≡ true) }
        ensures spent { (result ≡ Err SwitchFault.Spent) ↔ ((self.old.broken ≡ false) × (self.old.generation ≡ 2 ^ 64 - 1)) }
        ensures untouched { (IsErrOf result SwitchFault.Broken → (disk.new ≡ disk.old) × (self.new ≡ self.old))
            × (IsErrOf result SwitchFault.Spent → (disk.new ≡ disk.old) × (self.new ≡ self.old)) }
    {
        if self.broken {
            return Err(SwitchFault::Broken);
        }
        if self.generation == u64::MAX {
            return Err(SwitchFault::Spent);
        }
        let slot = self.slot.other();
        let generation = self.generation + 1;
        match refill(
            disk,
            slot,
            self.other_open,
            generation,
            payload,
            &self.zeros,
        ) {
            Ok(area) => {
                self.slot = slot;
                self.generation = generation;
                self.other_open = true;
                self.area = area;
                Ok(())
            }
            Err(_) => {
                self.broken = true;
                Err(SwitchFault::Device)
            }
        }
    }
}
