//! A writer's put.
ghost use Rattle.std.specs.Prelude.{◌≡◌};
ghost use Rattle.cp_statements.specs.PutRequest.{put_request_of, put_request_text};
ghost use Rattle.cp_statements.specs.Reading.{Reads};
ghost use Rattle.cp_statements.specs.View.{put_request_view};

use crate::pieces::joined;
use crate::{Malformed, take_epoch, take_tag};
use cp_bytes::Cut;

/// The text that a writer signs to put a block's next version (this project's own).
#[derive(Clone, Copy, Debug, PartialEq, Eq)]
pub struct PutRequest {
    /// SHA-256 of the store's key.
    pub store: [u8; 32],
    /// The epoch that the put is for. At least 1 in a text: epoch 0 has a text that no reader takes.
    pub epoch: u64,
    /// The block's number.
    pub block: u64,
    /// The writer's number in the block's family.
    pub client: u32,
    /// The writer's own number for this call.
    pub nonce: u64,
    /// The version that the put makes.
    pub version: u64,
    /// SHA-256 of the content.
    pub content: [u8; 32],
}

impl PutRequest {
    /// The put request that all of the bytes spell.
    #[tactic(auto, unfolding(crate::specs::PutRequest::put_request_of, cp_bytes::specs::Fields::read_fields, cp_bytes::specs::Fields::fields_at))]
    pub fn read(bytes: &[u8]) -> Result<PutRequest, Malformed>
        ensures { Reads put_request_view result (put_request_of bytes.now) }
    {
        let mut cut = Cut::new(bytes);
        take_tag(&mut cut, b"CPp1")?;
        let store = cut.array32()?;
        let epoch = take_epoch(&mut cut)?;
        let block = cut.be_u64()?;
        let client = cut.be_u32()?;
        let nonce = cut.be_u64()?;
        let version = cut.be_u64()?;
        let content = cut.array32()?;
        cut.end()?;
        Ok(PutRequest {
            store,
            epoch,
            block,
            client,
            nonce,
            version,
            content,
        })
    }

    /// Its text of 104 bytes.
    #[tactic(auto, unfolding(crate::specs::PutRequest::put_request_text, cp_bytes::specs::Fields::spell))]
    pub fn text(&self) -> [u8; 104]
        ensures { result ≡ put_request_text (put_request_view self.now) }
    {
        joined(&[
            b"CPp1",
            &self.store,
            &self.epoch.to_be_bytes(),
            &self.block.to_be_bytes(),
            &self.client.to_be_bytes(),
            &self.nonce.to_be_bytes(),
            &self.version.to_be_bytes(),
            &self.content,
        ])
    }
}
