//! What can happen to the store.

use crate::Request;
use cp_bytes::Bytes;

/// One atomic step of the store (this project's own).
#[derive(Debug, Drop)]
pub enum Event {
    /// A call at the block's shard; `pass` is the number of the one who makes it.
    Call { pass: u32, request: Request },
    /// The closing of an epoch begins; `next` is the text of the next epoch's families list, or none
    /// where that is to have the epoch's own.
    Begin { next: Option<Bytes> },
    /// A shard, of the sixteen from 0, ends the epoch.
    Freeze { shard: u32 },
    /// The closing's text is made.
    Seal,
    /// The closing is published.
    Publish,
    /// The text of an epoch, from 1, is asked for.
    Read { epoch: u64 },
}
