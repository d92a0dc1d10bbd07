//! Why bytes aren't a public key.

/// Why bytes aren't a public key.
#[derive(Clone, Copy, Debug, PartialEq, Eq)]
pub enum KeyFault {
    /// There aren't 56 bytes, but `found`.
    Length { found: u64 },
    /// There are 56 bytes, and one of their two codes isn't one of the standard's tables.
    Code { lms: u32, ots: u32 },
}
