//! The entry that a call would make, and what is signed of an entry.
ghost use Rattle.std.specs.Prelude.{◌≡◌, bytes_eq, IfOk};
ghost use Rattle.cp_statements.specs.Entry.{entry_text};
ghost use Rattle.cp_statements.specs.View.{attestation_view, entry_view};
ghost use Rattle.cp_core.specs.Calls.{asked_text, attested, content_for, new_entry};
ghost use Rattle.cp_core.specs.Requests.{request_text};
ghost use Rattle.cp_core.specs.Running.{Stands};

use crate::content::content_at;
use crate::running::tip_of;
use crate::{Content, Item, OutOfMemory, Request};
use cp_bytes::{Bytes, head};
use cp_statements::{Attestation, Entry, GetRequest, Kind, PutRequest};
use std::alloc::Global;

/// The entry that the call would append.
pub(crate) fn new_entry<'a>(items: &[Item], request: &'a Request) -> Entry<'a>
    requires { Stands items.now }
    ensures { entry_view result ≡ new_entry items.now request.now }
{
    let tip = tip_of(items, request.block());
    match request {
        Request::Put {
            request,
            signature,
            ..
        } => {
            let content = request.content;
            Entry {
                kind: Kind::Put,
                epoch: request.epoch,
                block: request.block,
                position: tip.count,
                client: request.client,
                nonce: request.nonce,
                version: request.version,
                content,
                signature: signature.as_slice(),
            }
        }
        Request::Get(request) => {
            let content = tip.content;
            Entry {
                kind: Kind::Get,
                epoch: request.epoch,
                block: request.block,
                position: tip.count,
                client: request.client,
                nonce: request.nonce,
                version: tip.version,
                content,
                signature: &[],
            }
        }
    }
}

/// What is signed of an entry with this text, where `prev` is the chain's head before it.
#[tactic(auto, unfolding(crate::specs::Calls::attested))]
pub(crate) fn attested(
    store: &[u8; 32],
    prev: &[u8; 32],
    entry: &Entry<'_>,
    text: &[u8],
) -> Attestation
    requires { text.now ≡ entry_text (entry_view entry.now) }
    ensures { attestation_view result ≡ attested store.now prev.now (entry_view entry.now) }
{
    Attestation {
        store: *store,
        kind: entry.kind,
        epoch: entry.epoch,
        block: entry.block,
        position: entry.position,
        client: entry.client,
        nonce: entry.nonce,
        version: entry.version,
        content: entry.content,
        prev: *prev,
        head: head(prev, text),
    }
}

/// Whether the entry answers this very request.
pub(crate) fn answers(store: &[u8; 32], entry: &Entry<'_>, request: &Request) -> bool
    ensures { result ≡ bytes_eq (asked_text store.now (entry_view entry.now)) (request_text request.now) }
{
    match entry.kind {
        Kind::Put => {
            let asked = PutRequest {
                store: *store,
                epoch: entry.epoch,
                block: entry.block,
                client: entry.client,
                nonce: entry.nonce,
                version: entry.version,
                content: entry.content,
            };
            request.has_text(&asked.text())
        }
        Kind::Get => {
            let asked = GetRequest {
                store: *store,
                epoch: entry.epoch,
                block: entry.block,
                client: entry.client,
                nonce: entry.nonce,
            };
            request.has_text(&asked.text())
        }
    }
}

/// What a call is answered besides its attestation: a get the block's content.
pub(crate) fn content_for(
    alloc: Global,
    contents: &[Content],
    entry: &Entry<'_>,
) -> Result<Bytes, OutOfMemory>
    ensures { IfOk result (λ content. content ≡ content_for contents.now (entry_view entry.now).kind entry.now.block) }
{
    match entry.kind {
        Kind::Put => Ok(Bytes::from_vec(Vec::new(alloc))),
        Kind::Get => Ok(Bytes::from_vec(Vec::from_slice(
            alloc,
            content_at(contents, entry.block),
        )?)),
    }
}
