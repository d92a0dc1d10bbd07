//! What an audit ends with.
use cp_bytes::Bytes;

/// The verdict on an epoch's material and what was handed in (this project's own). It is a function
/// of these bytes.
#[derive(Debug, Drop)]
pub enum Verdict {
    /// Each block has one serial chain in the epoch, in which every get returns the latest put, and
    /// all that was handed in and verifies fits it.
    Clean {
        /// The number of entries in the log.
        entries: u64,
        /// The number of hand-ins that verify as attestations of the epoch.
        handed: u64,
        /// The number of all other hand-ins.
        aside: u64,
    },
    /// The store is guilty.
    Guilty {
        /// The bytes of the evidence, which convict it.
        evidence: Bytes,
    },
}
