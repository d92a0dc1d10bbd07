//! What the store signs of an entry.
ghost use Rattle.std.specs.Prelude.{◌≡◌};
ghost use Rattle.cp_statements.specs.Attestation.{attestation_of, attestation_text};
ghost use Rattle.cp_statements.specs.Reading.{Reads};
ghost use Rattle.cp_statements.specs.View.{attestation_view};

use crate::pieces::joined;
use crate::{Kind, Malformed, take_epoch, take_tag};
use cp_bytes::Cut;

/// The text that the store signs of each entry of a block's chain (this project's own).
#[derive(Clone, Copy, Debug, PartialEq, Eq)]
pub struct Attestation {
    /// SHA-256 of the store's key.
    pub store: [u8; 32],
    /// Whether the entry is a put or a get.
    pub kind: Kind,
    /// The entry's epoch. At least 1 in a text: epoch 0 has a text that no reader takes.
    pub epoch: u64,
    /// The block's number.
    pub block: u64,
    /// The number of entries of the block before this one, over its whole life.
    pub position: u64,
    /// The number of the client that called.
    pub client: u32,
    /// The client's own number for this call.
    pub nonce: u64,
    /// The version that was put, or the latest one at a get; 0 before the first put.
    pub version: u64,
    /// SHA-256 of that version's content; 32 zero bytes at version 0.
    pub content: [u8; 32],
    /// The head of the block's chain before the entry.
    pub prev: [u8; 32],
    /// The head of the block's chain after the entry.
    pub head: [u8; 32],
}

impl Attestation {
    /// The attestation that all of the bytes spell.
    #[tactic(auto, unfolding(crate::specs::Attestation::attestation_of, cp_bytes::specs::Fields::read_fields, cp_bytes::specs::Fields::fields_at))]
    pub fn read(bytes: &[u8]) -> Result<Attestation, Malformed>
        ensures { Reads attestation_view result (attestation_of bytes.now) }
    {
        let mut cut = Cut::new(bytes);
        take_tag(&mut cut, b"CPa1")?;
        let store = cut.array32()?;
        let kind = Kind::take(&mut cut)?;
        let epoch = take_epoch(&mut cut)?;
        let block = cut.be_u64()?;
        let position = cut.be_u64()?;
        let client = cut.be_u32()?;
        let nonce = cut.be_u64()?;
        let version = cut.be_u64()?;
        let content = cut.array32()?;
        let prev = cut.array32()?;
        let head = cut.array32()?;
        cut.end()?;
        Ok(Attestation {
            store,
            kind,
            epoch,
            block,
            position,
            client,
            nonce,
            version,
            content,
            prev,
            head,
        })
    }

    /// Its text of 177 bytes.
    #[tactic(auto, unfolding(crate::specs::Attestation::attestation_text, cp_bytes::specs::Fields::spell))]
    pub fn text(&self) -> [u8; 177]
        ensures { result ≡ attestation_text (attestation_view self.now) }
    {
        joined(&[
            b"CPa1",
            &self.store,
            &[self.kind.byte()],
            &self.epoch.to_be_bytes(),
            &self.block.to_be_bytes(),
            &self.position.to_be_bytes(),
            &self.client.to_be_bytes(),
            &self.nonce.to_be_bytes(),
            &self.version.to_be_bytes(),
            &self.content,
            &self.prev,
            &self.head,
        ])
    }
}
