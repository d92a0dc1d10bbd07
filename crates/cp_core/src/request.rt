//! What a client asks of the store.
ghost use Rattle.std.specs.Prelude.{◌≡◌, bytes_eq};
ghost use Rattle.cp_core.specs.Machine.{content_in};
ghost use Rattle.cp_core.specs.Requests.{block_of, client_of, epoch_of, nonce_of, request_text};

use crate::Content;
use cp_bytes::Bytes;
use cp_statements::{GetRequest, PutRequest};

/// A put with its writer's signature and its content, or a get (this project's own).
#[derive(Debug, Drop)]
pub enum Request {
    /// A put.
    Put {
        /// What is put.
        request: PutRequest,
        /// The writer's, on the request's text; fewer than 2^32 bytes.
        signature: Bytes,
        /// At most 65,536 bytes.
        content: Bytes,
    },
    /// A get.
    Get(GetRequest),
}

impl Request {
    /// The epoch that it names.
    pub fn epoch(&self) -> u64
        ensures { result ≡ epoch_of self.now }
    {
        match self {
            Request::Put { request, .. } => request.epoch,
            Request::Get(request) => request.epoch,
        }
    }

    /// The block that it is about.
    pub fn block(&self) -> u64
        ensures { result ≡ block_of self.now }
    {
        match self {
            Request::Put { request, .. } => request.block,
            Request::Get(request) => request.block,
        }
    }

    /// The number of the client that calls.
    pub fn client(&self) -> u32
        ensures { result ≡ client_of self.now }
    {
        match self {
            Request::Put { request, .. } => request.client,
            Request::Get(request) => request.client,
        }
    }

    /// The client's own number for this call.
    pub fn nonce(&self) -> u64
        ensures { result ≡ nonce_of self.now }
    {
        match self {
            Request::Put { request, .. } => request.nonce,
            Request::Get(request) => request.nonce,
        }
    }

    /// The content that it brings, with its block.
    pub(crate) fn into_content(self) -> Option<Content>
        ensures { result ≡ content_in self }
    {
        match self {
            Request::Put {
                request,
                signature: _signature,
                content,
            } => Some(Content {
                block: request.block,
                bytes: content,
            }),
            Request::Get(_request) => None,
        }
    }

    /// Whether the bytes are its text.
    pub(crate) fn has_text(&self, text: &[u8]) -> bool
        ensures { result ≡ bytes_eq text.now (request_text self.now) }
    {
        match self {
            Request::Put { request, .. } => text == &request.text()[..],
            Request::Get(request) => text == &request.text()[..],
        }
    }
}
