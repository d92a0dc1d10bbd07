//! What one shard gained in an epoch.

use crate::FrozenBlock;

/// A shard's entries of an epoch, block by block (this project's own).
#[derive(Debug, Drop)]
pub struct FrozenPart {
    /// The shard, of the sixteen from 0.
    pub shard: u32,
    /// The epoch, from 1.
    pub epoch: u64,
    /// The blocks with an entry in that epoch, ascending.
    pub blocks: Vec<FrozenBlock>,
}
