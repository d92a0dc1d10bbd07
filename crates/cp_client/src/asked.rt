//! What was asked.
ghost use Rattle.std.specs.Prelude.{◌≡◌};

use crate::Field;
use crate::comparing::{other_than_get, other_than_put};
use crate::head::head_after;
use cp_bytes::{Cut, digest};
use cp_statements::{Attestation, Entry, Envelope, GetRequest, Malformed, PutRequest};

/// A put as it is asked. It borrows the bytes that it was read from.
#[derive(Clone, Copy, Debug, PartialEq, Eq)]
pub struct AskedPut<'a> {
    /// The writer's request.
    pub request: PutRequest,
    /// The writer's signature on the request's text.
    pub signature: &'a [u8],
    /// The content.
    pub content: &'a [u8],
}

/// What a client asked a store.
#[derive(Clone, Copy, Debug, PartialEq, Eq)]
pub enum Asked<'a> {
    /// A get request.
    Get(GetRequest),
    /// A put body.
    Put(AskedPut<'a>),
}

impl<'a> Asked<'a> {
    ghost use Rattle.cp_statements.specs.Reading.{Reads};
    ghost use Rattle.cp_statements.specs.View.{attestation_view};
    ghost use Rattle.cp_client.specs.Asking.{asked_of};
    ghost use Rattle.cp_client.specs.Accepting.{other_field, content_fits, head_fits, asked_signature};
    ghost use Rattle.cp_client.specs.View.{asked_view};

    /// What the bytes ask: 64 bytes that begin with "CPg1" are a get request, and all others must be a
    /// put body: the envelope of a put request, and the content to the end. In the request the place of
    /// a fault is counted from the request's first byte. It takes no memory.
    #[tactic(auto, unfolding(crate::specs::Asking::asked_of, crate::specs::Asking::put_body_of))]
    pub fn read(bytes: &'a [u8]) -> Result<Asked<'a>, Malformed>
        ensures { Reads asked_view result (asked_of bytes.now) }
    {
        if bytes.len() == 64 && bytes.starts_with(b"CPg1") {
            let request = GetRequest::read(bytes)?;
            return Ok(Asked::Get(request));
        }
        let mut cut = Cut::new(bytes);
        let envelope = Envelope::take(&mut cut)?;
        let content = cut.take_rest();
        let request = PutRequest::read(envelope.text)?;
        Ok(Asked::Put(AskedPut {
            request,
            signature: envelope.signature,
            content,
        }))
    }

    // The first field in which the attestation is of another call.
    pub(crate) fn other_field(&self, attestation: &Attestation) -> Option<Field>
        ensures { result ≡ other_field (asked_view self.now) (attestation_view attestation.now) }
    {
        match self {
            Asked::Get(request) => other_than_get(request, attestation),
            Asked::Put(put) => other_than_put(&put.request, attestation),
        }
    }

    // Whether the content fits what is attested.
    pub(crate) fn content_fits(&self, attestation: &Attestation, content: &[u8]) -> bool
        ensures { result ≡ content_fits (asked_view self.now) (attestation_view attestation.now) content.now }
    {
        match self {
            Asked::Put(_) => content.is_empty(),
            Asked::Get(_) if attestation.version == 0 => {
                content.is_empty() && attestation.content == [0; 32]
            }
            Asked::Get(_) => digest(content) == attestation.content,
        }
    }

    // Whether the attested head is that of the attested entry.
    pub(crate) fn head_fits(&self, attestation: &Attestation) -> bool
        ensures { result ≡ head_fits (asked_view self.now) (attestation_view attestation.now) }
    {
        let entry = Entry {
            kind: attestation.kind,
            epoch: attestation.epoch,
            block: attestation.block,
            position: attestation.position,
            client: attestation.client,
            nonce: attestation.nonce,
            version: attestation.version,
            content: attestation.content,
            signature: self.signature(),
        };
        attestation.head == head_after(&attestation.prev, &entry)
    }

    // The writer's signature that the entry has.
    fn signature(&self) -> &'a [u8]
        ensures { result.now ≡ asked_signature (asked_view self.now) }
    {
        match self {
            Asked::Get(_) => &[],
            Asked::Put(put) => put.signature,
        }
    }
}
