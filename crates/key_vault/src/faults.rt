//! Why a vault refused, and the disk that it gives back.
ghost use Rattle.std.specs.Prelude.{◌≡◌};
ghost use Rattle.key_vault.specs.declared.faults.LoadFault.TheVariants as load;
ghost use Rattle.key_vault.specs.declared.faults.VaultFault.TheVariants as vault;

use cp_outside::{Disk, Failed};

/// The disk failed in this call.
#[derive(Clone, Copy, Debug, PartialEq, Eq)]
pub struct DiskFault;

/// Why a vault was not loaded.
#[derive(Clone, Copy, Debug, PartialEq, Eq)]
pub enum LoadFault {
    /// The disk failed in this call.
    DiskFault,
    /// The file has fewer than 129 bytes, so that nothing was reserved yet.
    Blank { length: u64 },
    /// The current slot names another key.
    OtherKey,
    /// More leaves are reserved than the key has.
    Damaged { reserved: u64, leaves: u64 },
}

/// Why no leaves were reserved.
#[derive(Clone, Copy, Debug, PartialEq, Eq)]
pub enum VaultFault {
    /// Fewer leaves are left than were asked for.
    Over { reserved: u64, leaves: u64 },
    /// The disk failed in this call.
    DiskFault,
}

/// A refused call: the disk that it was given, as the call left it, and why it was refused.
#[derive(Drop)]
pub struct Refused<'a, K: Disk, E> {
    /// The disk, given back.
    pub disk: &'a mut K,
    /// Why the call was refused.
    pub why: E,
}

impl From<Failed> for DiskFault {
    fn from(_: Failed) -> DiskFault {
        DiskFault
    }
}

impl From<Failed> for LoadFault {
    ghost from_gives = { λ _ fault. fault ≡ load.DiskFault };

    fn from(_: Failed) -> LoadFault {
        LoadFault::DiskFault
    }
}

impl From<Failed> for VaultFault {
    ghost from_gives = { λ _ fault. fault ≡ vault.DiskFault };

    fn from(_: Failed) -> VaultFault {
        VaultFault::DiskFault
    }
}
