//! The vault.
ghost use Rattle.std.specs.Prelude.{◌≡◌, ◌<◌, ◌≤◌, length, IfOk, IsTrue, MatchResult};
ghost use Rattle.key_vault.specs.Calls.{Loads, Formats, Reserves, IsSettled};

use crate::faults::{DiskFault, LoadFault, Refused, VaultFault};
use crate::file::VaultFile;
use crate::range::LeafRange;
use cp_outside::Disk;

/// The count of a key's reserved leaves, on a disk that may crash. The file names the key by its id,
/// the SHA-256 hash of the 56-byte public key. A refusal gives the disk back.
#[derive(Drop)]
pub struct Vault<'a, K: Disk> {
    disk: &'a mut K,
    file: VaultFile,
    ghost settled: { IsTrue (K.tells disk.now) → IsSettled K.Disk disk.now file.id file.reserved file.gate },
}

impl<'a, K: Disk> Vault<'a, K> {
    ghost use Rattle.key_vault.specs.Vaults.{disk_of, disk_name, vault_id, vault_leaves, vault_number};

    /// Opens the vault of the key with this id and so many leaves. It begins with a sync, so that
    /// what it reads stays. Refusals, in this order:
    /// - `DiskFault`: the disk failed in this call;
    /// - `Blank`: the file has fewer than 129 bytes;
    /// - `OtherKey`: its current slot names another id;
    /// - `Damaged`: its number is above `leaves`.
    pub fn load(
        disk: &'a mut K,
        id: [u8; 32],
        leaves: u64,
    ) -> Result<Vault<'a, K>, Refused<'a, K, LoadFault>>
        ensures same_disk { MatchResult result
            (λ vault. disk_name vault ≡ disk.entry.ghost_name)
            (λ refused. refused.disk.ghost_name ≡ disk.entry.ghost_name) }
        ensures loads { MatchResult result
            (λ vault. Loads K.Disk id leaves disk.old (disk_of vault) (Ok (vault_number vault)))
            (λ refused. Loads K.Disk id leaves disk.old refused.disk.now (Err refused.why)) }
        ensures key { IfOk result (λ vault. (vault_id vault ≡ id) × (vault_leaves vault ≡ leaves)) }
        ensures within { IfOk result (λ vault. vault_number vault ≤ leaves) }
    {
        match VaultFile::load(disk, id, leaves) {
            Ok(file) => Ok(Vault { disk, file }),
            Err(why) => Err(Refused { disk, why }),
        }
    }

    /// Makes the vault of a key over a blank file: both slots with no leaf reserved, and then the
    /// gate byte. `DiskFault`: the disk failed in this call.
    pub fn format(
        disk: &'a mut K,
        id: [u8; 32],
        leaves: u64,
    ) -> Result<Vault<'a, K>, Refused<'a, K, DiskFault>>
        requires { IsTrue (K.tells disk.old) → length (K.seen disk.old) < 129 }
        ensures same_disk { MatchResult result
            (λ vault. disk_name vault ≡ disk.entry.ghost_name)
            (λ refused. refused.disk.ghost_name ≡ disk.entry.ghost_name) }
        ensures formats { MatchResult result
            (λ vault. Formats K.Disk id disk.old (disk_of vault) result)
            (λ refused. Formats K.Disk id disk.old refused.disk.now result) }
        ensures key { IfOk result (λ vault. (vault_id vault ≡ id) × (vault_leaves vault ≡ leaves)) }
        ensures number { IfOk result (λ vault. vault_number vault ≡ 0) }
    {
        match VaultFile::format(disk, id, leaves) {
            Ok(file) => Ok(Vault { disk, file }),
            Err(why) => Err(Refused { disk, why }),
        }
    }

    /// The disk, given back as it is.
    pub fn into_disk(self) -> &'a mut K
        ensures same_disk { result.ghost_name ≡ disk_name self.entry }
        ensures kept { result.now ≡ disk_of self.entry }
    {
        let Vault { disk, file: _ } = self;
        disk
    }

    /// How many leaves are reserved: all below this number.
    pub fn reserved(&self) -> u64
        ensures { result ≡ vault_number self.now }
    {
        self.file.reserved()
    }

    /// Reserves the next `n` leaves, at least one: writes the slot that is not current, syncs, makes
    /// it current, syncs, and only then hands them out. Refusals, in this order, after which the
    /// vault is to be loaded again:
    /// - `Over`: fewer leaves are left, and the disk is not touched;
    /// - `DiskFault`: the disk failed in this call.
    pub fn reserve(self, n: u64) -> Result<(Vault<'a, K>, LeafRange), Refused<'a, K, VaultFault>>
        requires { 0 < n }
        ensures same_disk { MatchResult result
            (λ made. disk_name made.0 ≡ disk_name self.entry)
            (λ refused. refused.disk.ghost_name ≡ disk_name self.entry) }
        ensures reserves { MatchResult result
            (λ made. Reserves K.Disk (vault_id self.entry) (vault_leaves self.entry) (vault_number self.entry) n
            (disk_of self.entry) (disk_of made.0) (Ok made.1))
            (λ refused. Reserves K.Disk (vault_id self.entry) (vault_leaves self.entry) (vault_number self.entry) n
            (disk_of self.entry) refused.disk.now (Err refused.why)) }
        ensures key { IfOk result (λ made. (vault_id made.0 ≡ vault_id self.entry)
            × (vault_leaves made.0 ≡ vault_leaves self.entry)) }
        ensures number { IfOk result (λ made. vault_number made.0 ≡ made.1.to) }
    {
        let Vault { disk, file } = self;
        match file.reserve(disk, n) {
            Ok((file, range)) => Ok((Vault { disk, file }, range)),
            Err(why) => Err(Refused { disk, why }),
        }
    }
}
