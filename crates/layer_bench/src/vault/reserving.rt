//! Making a vault, and reserving leaves one by one.
use cp_outside::Disk;
use key_vault::{LoadFault, Refused, Vault};

const ID: [u8; 32] = [7; 32];

// As many leaves as a bench ever reserves.
const LEAVES: u64 = 1 << 40;

/// The vault of a key on a blank disk. Nothing where the disk holds more, or fails.
pub fn format_blank<K: Disk>(disk: &mut K) -> Option<Vault<'_, K>> {
    let Err(
        Refused {
            disk,
            why: LoadFault::Blank { .. },
        },
    ) = Vault::load(disk, ID, LEAVES)
    else {
        return None;
    };
    match Vault::format(disk, ID, LEAVES) {
        Ok(vault) => Some(vault),
        Err(_) => None,
    }
}

/// The vault after so many reservations of one leaf. Nothing where the disk fails.
pub fn reserve_each<'a, K: Disk>(vault: Vault<'a, K>, count: u64) -> Option<Vault<'a, K>> {
    let mut vault = vault;
    for _turn in 0..count {
        match vault.reserve(1) {
            Ok((next, _leaf)) => vault = next,
            Err(_) => return None,
        }
    }
    Some(vault)
}
