//! What serves a store.

/// What serves a store (this project's own). The answers are the same.
#[derive(Clone, Copy, Debug, PartialEq, Eq)]
pub enum By {
    /// The plain machine, which searches lists.
    Core,
    /// Sixteen shards with indexes, and a closer.
    Shards,
}
