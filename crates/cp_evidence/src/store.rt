//! The store that is judged or audited, and what is asked of one envelope.
ghost use Rattle.std.specs.Prelude.{◌≡◌, option_map};
ghost use Rattle.sha2.specs.Sha256.{sha256};
ghost use Rattle.cp_statements.specs.View.{envelope_view, attestation_view, closing_view};
ghost use Rattle.cp_evidence.specs.Conditions.{signed_by, attestation_by, closing_by, is_statement};

use cp_bytes::digest;
use cp_statements::{Attestation, Closing, Envelope};
use lms_tree::{PublicKey, verify};

/// A store's key, and the id by which texts name the store (this project's own).
#[derive(Clone, Copy)]
pub struct Store {
    /// The key that its signatures verify under.
    pub key: PublicKey,
    /// SHA-256 of the key's 56 bytes.
    pub id: [u8; 32],
    ghost is_id: { id ≡ sha256 key },
}

impl Store {
    /// The store of this key.
    pub fn new(key: PublicKey) -> Store
        ensures { result.key ≡ key }
    {
        let id = digest(&key.bytes());
        Store { key, id }
    }

    /// Whether the envelope's signature verifies under the key (RFC 8554, section 5.4.2).
    pub fn signed(&self, x: &Envelope) -> bool
        ensures { result ≡ signed_by self.now.key (envelope_view x.now) }
    {
        verify(&self.key, x.text, x.signature)
    }

    /// The attestation of this store that the text spells.
    pub fn attestation(&self, text: &[u8]) -> Option<Attestation>
        ensures { option_map attestation_view result
            ≡ attestation_by (sha256 self.now.key) text.now }
    {
        let a = Attestation::read(text).ok()?;
        if a.store == self.id { Some(a) } else { None }
    }

    /// The closing of this store that the text spells.
    pub fn closing(&self, text: &[u8]) -> Option<Closing>
        ensures { option_map closing_view result ≡ closing_by (sha256 self.now.key) text.now }
    {
        let c = Closing::read(text).ok()?;
        if c.store == self.id { Some(c) } else { None }
    }

    /// Whether the text is a statement of this store, an attestation or a closing.
    pub fn is_statement(&self, text: &[u8]) -> bool
        ensures { result ≡ is_statement (sha256 self.now.key) text.now }
    {
        self.attestation(text).is_some() || self.closing(text).is_some()
    }
}
