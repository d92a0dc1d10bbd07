//! The most bytes of the files that several commands read.

/// The most bytes of an evidence file: 512 MiB.
pub const EVIDENCE_LIMIT: u64 = 536_870_912;

/// The most bytes of a file with a signed text, whose signature stands in a file of its own: 1 MiB.
pub const SIGNED_TEXT_LIMIT: u64 = 1_048_576;

/// The most bytes of a file with a signature: 16 KiB.
pub const SIGNATURE_LIMIT: u64 = 16_384;

/// The most bytes of a request, and of the store's reply to it: 128 KiB.
pub const REPLY_LIMIT: u64 = 131_072;
