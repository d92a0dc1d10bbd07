//! Why bytes aren't a public key of two levels.

/// Why bytes aren't a public key of two levels (RFC 8554, 6.1). The cases are tried in this order.
#[derive(Clone, Copy, Debug, PartialEq, Eq)]
pub enum HssFault {
    /// There aren't 60 bytes, but `found`.
    Length { found: u64 },
    /// The key has another number of levels than two.
    Levels { found: u32 },
    /// One of the top tree's two codes isn't one of the standard's tables.
    Code { lms: u32, ots: u32 },
}
