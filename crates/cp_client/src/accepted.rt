//! An answer that was accepted.

use cp_statements::{Attestation, Envelope};

/// What a client accepted. It borrows the reply.
#[derive(Clone, Copy, Debug, PartialEq, Eq)]
pub struct Accepted<'a> {
    /// What the store attests.
    pub attestation: Attestation,
    /// The attestation's text and the store's signature on it, fit to be handed in.
    pub envelope: Envelope<'a>,
    /// The content; empty at a put.
    pub content: &'a [u8],
}
