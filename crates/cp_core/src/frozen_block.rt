//! What one block gained in an epoch.

use cp_bytes::Bytes;
use cp_tips::Tip;

/// A block's entries of an epoch (this project's own).
#[derive(Debug, Drop)]
pub struct FrozenBlock {
    /// The block.
    pub block: u64,
    /// Its tip at the epoch's end.
    pub after: Tip,
    /// The texts of its entries of that epoch, in order.
    pub entries: Vec<Bytes>,
}
