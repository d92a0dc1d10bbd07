//! Why an audit has no verdict.
use crate::What;
use cp_bytes::OutOfMemory;

/// Why there is no verdict (this project's own).
#[derive(Clone, Copy, Debug, PartialEq, Eq)]
pub enum AuditRefusal {
    /// The first part of the material that isn't given.
    NotGiven { what: What },
    /// The hand-ins aren't envelopes to their end: the offset of the first byte that doesn't fit.
    Malformed { at: u64 },
    /// Memory was wanted, or the evidence needs a part of 2^32 bytes or more.
    OutOfMemory,
}
