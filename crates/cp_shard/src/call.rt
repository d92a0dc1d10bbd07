//! What the index of repeats keeps of a call.

ghost use Rattle.std.specs.Prelude.{◌≡◌, false, bytes_eq};
ghost use Rattle.cp_statements.specs.PutRequest.{put_request_text};
ghost use Rattle.cp_statements.specs.GetRequest.{get_request_text};
ghost use Rattle.cp_statements.specs.View.{put_request_view, get_request_view, attestation_view};
ghost use Rattle.cp_shard.specs.Asked.{asked_by};

use cp_statements::{Attestation, GetRequest, Kind, PutRequest};

/// A call that was booked in this epoch: the leaf that signs its attestation, and the attestation.
#[derive(Clone, Copy, Debug)]
pub struct Call {
    /// The number of the leaf.
    pub leaf: u32,
    /// What the leaf signs.
    pub attestation: Attestation,
}

impl Call {
    /// Whether the call was this put.
    pub fn is_put(&self, request: &PutRequest) -> bool
        ensures { result ≡ bytes_eq (asked_by (attestation_view self.now.attestation))
            (put_request_text (put_request_view request.now)) }
    {
        let a = &self.attestation;
        match a.kind {
            Kind::Get => false,
            Kind::Put => {
                let asked = PutRequest {
                    store: a.store,
                    epoch: a.epoch,
                    block: a.block,
                    client: a.client,
                    nonce: a.nonce,
                    version: a.version,
                    content: a.content,
                };
                asked.text() == request.text()
            }
        }
    }

    /// Whether the call was this get.
    pub fn is_get(&self, request: &GetRequest) -> bool
        ensures { result ≡ bytes_eq (asked_by (attestation_view self.now.attestation))
            (get_request_text (get_request_view request.now)) }
    {
        let a = &self.attestation;
        match a.kind {
            Kind::Put => false,
            Kind::Get => {
                let asked = GetRequest {
                    store: a.store,
                    epoch: a.epoch,
                    block: a.block,
                    client: a.client,
                    nonce: a.nonce,
                };
                asked.text() == request.text()
            }
        }
    }
}
