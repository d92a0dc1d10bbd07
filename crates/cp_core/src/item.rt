//! One item of a shard's life.

use cp_bytes::Bytes;
use cp_families::SharedList;

/// What a shard appends to its life (this project's own).
#[derive(Drop)]
pub enum Item {
    /// An entry's text, with the number of the one who called, the leaf that signs its attestation and
    /// the pages of its content, which are 0 at a get.
    Row {
        pass: u32,
        leaf: u32,
        pages: u32,
        entry: Bytes,
    },
    /// The end of this epoch, with the families list of the next one.
    Frozen {
        epoch: u64,
        next: SharedList,
    },
}
