//! The refusal of a reader.

/// Why a reader has no text for an epoch.
#[derive(Clone, Copy, Debug, PartialEq, Eq)]
pub enum EpochRefusal {
    /// The reader has `count` texts, fewer than the epoch's number.
    NotClosed { count: u64 },
    /// There was no memory for the reader's list or its answer.
    OutOfMemory,
}
