//! An entry of a block's chain.
ghost use Rattle.std.specs.Prelude.{◌≡◌, ◌++◌, OnOk, OnErr};
ghost use Rattle.cp_statements.specs.Entry.{entry_fields, entry_of, entry_tag, entry_text, entry_values};
ghost use Rattle.cp_statements.specs.Reading.{Reads};
ghost use Rattle.cp_statements.specs.Tagged.{tagged_text};
ghost use Rattle.cp_statements.specs.View.{entry_view};

use crate::pieces::joined;
use crate::{Kind, Malformed, OutOfMemory, take_epoch, take_tag};
use cp_bytes::Cut;

/// A put or a get, as the chain of its block records it (this project's own). It borrows the writer's
/// signature.
#[derive(Clone, Copy, Debug, PartialEq, Eq)]
pub struct Entry<'a> {
    /// Whether it is a put or a get.
    pub kind: Kind,
    /// The entry's epoch. At least 1 in a text: epoch 0 has a text that no reader takes.
    pub epoch: u64,
    /// The block's number.
    pub block: u64,
    /// The number of entries of the block before this one, over its whole life.
    pub position: u64,
    /// The number of the client that called.
    pub client: u32,
    /// The client's own number for this call.
    pub nonce: u64,
    /// The version that was put, or the latest one at a get; 0 before the first put.
    pub version: u64,
    /// SHA-256 of that version's content; 32 zero bytes at version 0.
    pub content: [u8; 32],
    /// The writer's signature on the put request, of fewer than 2^32 bytes; empty at a get.
    pub signature: &'a [u8],
}

impl<'a> Entry<'a> {
    /// The entry that all of the bytes spell. Where a put's signature is cut short, the refusal names
    /// the first byte after its length.
    #[tactic(auto, unfolding(crate::specs::Entry::entry_of, crate::specs::Entry::entry_at, crate::specs::Entry::signature_at, cp_bytes::specs::Fields::fields_at))]
    pub fn read(bytes: &'a [u8]) -> Result<Entry<'a>, Malformed>
        ensures { Reads entry_view result (entry_of bytes.now) }
    {
        let mut cut = Cut::new(bytes);
        take_tag(&mut cut, b"CPe1")?;
        let kind = Kind::take(&mut cut)?;
        let epoch = take_epoch(&mut cut)?;
        let block = cut.be_u64()?;
        let position = cut.be_u64()?;
        let client = cut.be_u32()?;
        let nonce = cut.be_u64()?;
        let version = cut.be_u64()?;
        let content = cut.array32()?;
        let signature = match kind {
            Kind::Put => cut.part()?,
            Kind::Get => &[],
        };
        cut.end()?;
        Ok(Entry {
            kind,
            epoch,
            block,
            position,
            client,
            nonce,
            version,
            content,
            signature,
        })
    }

    /// Appends its text: 81 bytes, and at a put four bytes of length and the signature. Where memory is
    /// wanted, `out` stays as it was.
    #[tactic(auto, unfolding(crate::specs::Entry::entry_text, cp_bytes::specs::Fields::spell))]
    pub fn write_into(&self, out: &mut Vec<u8>) -> Result<(), OutOfMemory>
        ensures written { OnOk result (out.new.items ≡ out.old.items ++ entry_text (entry_view self.now)) }
        ensures unchanged { OnErr result (out.new.items ≡ out.old.items) }
    {
        let fields = self.fields_text();
        match self.kind {
            Kind::Put => {
                // Four bytes hold the length of each signature that fits.
                let [_, _, _, _, a, b, c, d] = (self.signature.len() as u64).to_be_bytes();
                out.reserve(fields.len() + 4 + self.signature.len())?;
                out.extend_from_slice(&fields)?;
                out.extend_from_slice(&[a, b, c, d])?;
                out.extend_from_slice(self.signature)
            }
            Kind::Get => out.extend_from_slice(&fields),
        }
    }

    /// The tag and the fields that each entry has, 81 bytes. The signature is no part of them, so a
    /// get's are its whole text.
    #[tactic(auto, unfolding(cp_bytes::specs::Fields::spell))]
    pub fn fields_text(&self) -> [u8; 81]
        ensures { result ≡ tagged_text entry_tag entry_fields (entry_values (entry_view self.now)) }
    {
        joined(&[
            b"CPe1",
            &[self.kind.byte()],
            &self.epoch.to_be_bytes(),
            &self.block.to_be_bytes(),
            &self.position.to_be_bytes(),
            &self.client.to_be_bytes(),
            &self.nonce.to_be_bytes(),
            &self.version.to_be_bytes(),
            &self.content,
        ])
    }
}
