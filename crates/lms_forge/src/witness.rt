//! What must have failed where a signature verifies that the key didn't make.
use cp_bytes::Bytes;

/// A witness against a key, its signed pairs, a text and a signature that verifies (this project's
/// own).
#[derive(Debug, Drop)]
pub enum Witness {
    /// Two different texts with one SHA-256 digest (FIPS 180-4): `first` is one that the key hashed,
    /// `second` the one that the signature has in its place.
    Twins {
        first: Bytes,
        second: Bytes,
    },
    /// A value of a one-time chain that the key hasn't shown: `value`, the signature's y[`chain`] at
    /// the leaf `leaf`, stands before the step `step` and leads to the key's own value before the
    /// later step `revealed`, the first that the key showed: its digit of the leaf's text, or 2^w - 1
    /// where the leaf has none (RFC 8554, 4.5).
    Low {
        leaf: u32,
        chain: u16,
        step: u8,
        revealed: u8,
        value: [u8; 32],
    },
}

/// Why a pair isn't added (this project's own).
#[derive(Debug, Drop)]
pub enum AddRefusal {
    /// The leaf has another text.
    LeafUsed { leaf: u32 },
    /// Memory is wanted.
    OutOfMemory,
}

/// Why there is no witness (this project's own).
#[derive(Debug, Drop)]
pub enum ForgeryRefusal {
    /// The signature doesn't verify under the public key.
    Invalid,
    /// The pair of the signature's leaf and the text was added.
    Known,
    /// Memory is wanted.
    OutOfMemory,
}
