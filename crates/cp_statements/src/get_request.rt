//! A client's get.
ghost use Rattle.std.specs.Prelude.{◌≡◌};
ghost use Rattle.cp_statements.specs.GetRequest.{get_request_of, get_request_text};
ghost use Rattle.cp_statements.specs.Reading.{Reads};
ghost use Rattle.cp_statements.specs.View.{get_request_view};

use crate::pieces::joined;
use crate::{Malformed, take_epoch, take_tag};
use cp_bytes::Cut;

/// The text by which a client asks for a block (this project's own).
#[derive(Clone, Copy, Debug, PartialEq, Eq)]
pub struct GetRequest {
    /// SHA-256 of the store's key.
    pub store: [u8; 32],
    /// The epoch that the get is for. At least 1 in a text: epoch 0 has a text that no reader takes.
    pub epoch: u64,
    /// The block's number.
    pub block: u64,
    /// The reader's number in the block's family.
    pub client: u32,
    /// The reader's own number for this call.
    pub nonce: u64,
}

impl GetRequest {
    /// The get request that all of the bytes spell.
    #[tactic(auto, unfolding(crate::specs::GetRequest::get_request_of, cp_bytes::specs::Fields::read_fields, cp_bytes::specs::Fields::fields_at))]
    pub fn read(bytes: &[u8]) -> Result<GetRequest, Malformed>
        ensures { Reads get_request_view result (get_request_of bytes.now) }
    {
        let mut cut = Cut::new(bytes);
        take_tag(&mut cut, b"CPg1")?;
        let store = cut.array32()?;
        let epoch = take_epoch(&mut cut)?;
        let block = cut.be_u64()?;
        let client = cut.be_u32()?;
        let nonce = cut.be_u64()?;
        cut.end()?;
        Ok(GetRequest {
            store,
            epoch,
            block,
            client,
            nonce,
        })
    }

    /// Its text of 64 bytes.
    #[tactic(auto, unfolding(crate::specs::GetRequest::get_request_text, cp_bytes::specs::Fields::spell))]
    pub fn text(&self) -> [u8; 64]
        ensures { result ≡ get_request_text (get_request_view self.now) }
    {
        joined(&[
            b"CPg1",
            &self.store,
            &self.epoch.to_be_bytes(),
            &self.block.to_be_bytes(),
            &self.client.to_be_bytes(),
            &self.nonce.to_be_bytes(),
        ])
    }
}
