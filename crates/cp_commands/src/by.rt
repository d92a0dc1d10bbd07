//! What a replay's store is served by.

/// What serves the store of a replay. The answers are the same.
#[derive(Clone, Copy, Debug, PartialEq, Eq)]
pub enum By {
    /// `core`: the plain machine.
    Core,
    /// `shards`: the shards.
    Shards,
}
