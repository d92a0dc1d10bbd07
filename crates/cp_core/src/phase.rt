//! Where the closing of an epoch stands.

/// The phases of an epoch's closing, in the order in which they come (this project's own).
#[derive(Clone, Copy, Debug, PartialEq, Eq)]
pub enum Phase {
    /// No closing has begun: this is the epoch to be closed next.
    Running { epoch: u64 },
    /// The first `taken` shards, at most 15, have frozen the epoch.
    Half { epoch: u64, taken: u32 },
    /// All sixteen shards have frozen the epoch.
    Full { epoch: u64 },
    /// The epoch's closing stands, and isn't published yet.
    Sealed { epoch: u64 },
}
