//! The vault's file, apart from the disk that holds it.
ghost use Rattle.std.specs.Prelude.{◌≡◌, ◌<◌, ◌≤◌, length, IfOk, IsTrue, MatchResult};
ghost use Rattle.key_vault.specs.Calls.{Loads, Formats, Reserves, IsSettled};

use crate::faults::{DiskFault, LoadFault, VaultFault};
use crate::range::LeafRange;
use crate::slots::{FILE, GATE, both_slots, next_number, opened, other_slot, slot};
use crate::writes::write_in_order;
use cp_outside::Disk;

// A key's file on a disk, as it was read or written last: the key's id and its number of leaves, how
// many leaves are reserved, and which slot is current. It does not borrow its disk, so whoever loaded
// one disk twice could reserve its leaves twice: only `Vault` has one, together with the disk.
#[derive(Drop)]
pub(crate) struct VaultFile {
    id: [u8; 32],
    leaves: u64,
    reserved: u64,
    gate: u64,
}

impl VaultFile {
    ghost use Rattle.key_vault.specs.Vaults.{file_id, file_leaves, file_number, file_gate};

    // Opens the file of the key with this id and so many leaves. It begins with a sync, so that what
    // it reads stays. Refusals, in this order:
    // - `DiskFault`: the disk failed in this call;
    // - `Blank`: the file has fewer than 129 bytes;
    // - `OtherKey`: its current slot names another id;
    // - `Damaged`: its number is above `leaves`.
    pub(crate) fn load<K: Disk>(
        disk: &mut K,
        id: [u8; 32],
        leaves: u64,
    ) -> Result<VaultFile, LoadFault>
        ensures loads { MatchResult result
            (λ file. Loads K.Disk id leaves disk.old disk.new (Ok (file_number file)))
            (λ fault. Loads K.Disk id leaves disk.old disk.new (Err fault)) }
        ensures key { IfOk result (λ file. (file_id file ≡ id) × (file_leaves file ≡ leaves)) }
        ensures within { IfOk result (λ file. file_number file ≤ leaves) }
        ensures settled { IfOk result (λ file. IsTrue (K.tells disk.old)
            → IsSettled K.Disk disk.new id (file_number file) (file_gate file)) }
    {
        disk.sync()?;
        let mut bytes = [0; FILE];
        let count = disk.read(0, &mut bytes)?;
        match opened(&bytes[..count], &id, leaves) {
            Ok(found) => Ok(VaultFile {
                id,
                leaves,
                reserved: found.reserved,
                gate: found.gate,
            }),
            Err(fault) => Err(fault),
        }
    }

    // Makes the file of a key where the disk holds a blank one: both slots with no leaf reserved,
    // and then the gate byte. `DiskFault`: the disk failed in this call.
    pub(crate) fn format<K: Disk>(
        disk: &mut K,
        id: [u8; 32],
        leaves: u64,
    ) -> Result<VaultFile, DiskFault>
        requires { IsTrue (K.tells disk.old) → length (K.seen disk.old) < 129 }
        ensures formats { Formats K.Disk id disk.old disk.new result }
        ensures key { IfOk result (λ file. (file_id file ≡ id) × (file_leaves file ≡ leaves)) }
        ensures number { IfOk result (λ file. file_number file ≡ 0) }
        ensures settled { IfOk result (λ file. IsTrue (K.tells disk.old)
            → IsSettled K.Disk disk.new id 0 (file_gate file)) }
    {
        match write_in_order(disk, 0, &both_slots(&id), GATE, &[0]) {
            Ok(()) => Ok(VaultFile {
                id,
                leaves,
                reserved: 0,
                gate: 0,
            }),
            Err(_) => Err(DiskFault),
        }
    }

    // How many leaves are reserved: all below this number.
    pub(crate) fn reserved(&self) -> u64
        ensures { result ≡ file_number self.now }
    {
        self.reserved
    }

    // Reserves the next `n` leaves, at least one, on the disk that holds the file: writes the slot
    // that is not current, syncs, makes it current, syncs, and only then hands them out. Refusals,
    // in this order, after which the file is to be loaded again:
    // - `Over`: fewer leaves are left, and the disk is not touched;
    // - `DiskFault`: the disk failed in this call.
    pub(crate) fn reserve<K: Disk>(
        self,
        disk: &mut K,
        n: u64,
    ) -> Result<(VaultFile, LeafRange), VaultFault>
        requires some { 0 < n }
        requires settled { IsTrue (K.tells disk.old)
            → IsSettled K.Disk disk.old (file_id self) (file_number self) (file_gate self) }
        ensures reserves { MatchResult result
            (λ made. Reserves K.Disk (file_id self) (file_leaves self) (file_number self) n disk.old disk.new (Ok made.1))
            (λ fault. Reserves K.Disk (file_id self) (file_leaves self) (file_number self) n disk.old disk.new (Err fault)) }
        ensures key { IfOk result (λ made. (file_id made.0 ≡ file_id self) × (file_leaves made.0 ≡ file_leaves self)) }
        ensures number { IfOk result (λ made. file_number made.0 ≡ made.1.to) }
        ensures settled { IfOk result (λ made. IsTrue (K.tells disk.old)
            → IsSettled K.Disk disk.new (file_id self) (file_number made.0) (file_gate made.0)) }
    {
        let Some(next) = next_number(self.reserved, n, self.leaves) else {
            return Err(VaultFault::Over {
                reserved: self.reserved,
                leaves: self.leaves,
            });
        };
        let other = other_slot(self.gate);
        let bytes = slot(&self.id, next);
        match write_in_order(disk, 64 * other, &bytes, GATE, &[other as u8]) {
            Ok(()) => {
                let range = LeafRange::new(self.id, self.reserved, next);
                let file = VaultFile {
                    id: self.id,
                    leaves: self.leaves,
                    reserved: next,
                    gate: other,
                };
                Ok((file, range))
            }
            Err(_) => Err(VaultFault::DiskFault),
        }
    }
}
