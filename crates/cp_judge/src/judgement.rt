//! What the judge finds.

/// What bytes are under a store's key.
#[derive(Clone, Copy, Debug, PartialEq, Eq)]
pub enum Judgement {
    /// The key's bytes are no LMS public key.
    BadKey,
    /// The bytes aren't evidence: `at` is the offset of the first byte of the first field that
    /// doesn't fit, counted from the first byte of the evidence.
    Malformed { at: u64 },
    /// They are evidence of this kind, and `condition` is the number of the first of its conditions
    /// that fails.
    NotEvidence { kind: u8, condition: u8 },
    /// They are evidence of this kind, and convict the store.
    Guilty { kind: u8 },
}
