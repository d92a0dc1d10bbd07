//! The key vault: how many leaves of a hash-based key were reserved, kept on a disk that may crash.
//! A leaf that signs two texts breaks the key, so a leaf counts as used from the moment on at which
//! the disk holds for good that it was reserved.
#![tactic(auto)]

mod faults;
mod file;
mod law;
mod range;
mod slots;
mod vault;
mod writes;

pub use faults::{DiskFault, LoadFault, Refused, VaultFault};
pub use law::ranges_are_disjoint;
pub use range::LeafRange;
pub use vault::Vault;
