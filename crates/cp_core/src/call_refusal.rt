//! Why a put or a get is refused.

use crate::LeavesOver;

/// The refusals of a call, in the order of the rules (this project's own).
#[derive(Clone, Copy, Debug, PartialEq, Eq)]
pub enum CallRefusal {
    /// The request's epoch is not the shard's, which is `current`.
    WrongEpoch { current: u64 },
    /// A put, and the shard's families list of the epoch has no row of this family and client.
    NotAWriter { family: u32, client: u32 },
    /// A put whose request the row's key doesn't verify.
    BadSignature,
    /// The entry at `position` of this block and epoch has the request's client and nonce, but answers
    /// another request.
    NonceUsed { position: u64 },
    /// A get is asked again, and a put came after it: `latest` is the block's latest version now.
    Overtaken { latest: u64 },
    /// A put's version is not the one after `latest`, the block's latest version.
    StaleVersion { latest: u64 },
    /// Memory is wanted.
    OutOfMemory,
    /// A put needs `need` pages, and the shard has `free`.
    PoolFull { free: u32, need: u32 },
    /// No leaf is left for a new entry.
    LeavesOver(LeavesOver),
}
