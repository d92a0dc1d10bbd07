//! What a new call's entry is booked as.
ghost use Rattle.std.specs.Prelude.{[], ◌≡◌, ◌+◌, ◌<◌, ◌≤◌, ◌^◌, length, IfOk};
ghost use Rattle.cp_statements.specs.Entry.{entry_text, EntryFits};
ghost use Rattle.cp_statements.specs.View.{entry_view, attestation_view};
ghost use Rattle.cp_tips.specs.View.{tip_view};
ghost use Rattle.cp_core.specs.Calls.{attested};
ghost use Rattle.cp_pages.specs.Pages.{pages_for};
ghost use Rattle.cp_shard.specs.Booked.{tip_by, key_by};

use crate::key::Key;
use cp_bytes::{Bytes, OutOfMemory, head};
use cp_pages::PAGE;
use cp_statements::{Attestation, Entry};
use cp_tips::Tip;
use std::alloc::Global;

/// The entry's text.
pub fn text_of(alloc: Global, entry: &Entry) -> Result<Bytes, OutOfMemory>
    ensures { IfOk result (λ text. text ≡ entry_text (entry_view entry.now)) }
{
    let mut text = Vec::new(alloc);
    entry.write_into(&mut text)?;
    Ok(Bytes::from_vec(text))
}

/// What is signed of an entry, whose text this is, with the chain's head before it.
#[tactic(auto, unfolding(cp_core::specs::Calls::attested))]
pub fn attest(store: &[u8; 32], prev: &[u8; 32], entry: &Entry, text: &[u8]) -> Attestation
    requires text { text.now ≡ entry_text (entry_view entry.now) }
    requires epoch { 1 ≤ entry.now.epoch }
    requires signature { length entry.now.signature.now < 2 ^ 32 }
    requires get { (entry_view entry.now).kind ≡ 2 → entry.now.signature.now ≡ [] }
    ensures attested { attestation_view result ≡ attested store.now prev.now
        (entry_view entry.now) }
    ensures kind { result.kind ≡ entry.now.kind }
    ensures block { result.block ≡ entry.now.block }
    ensures version { result.version ≡ entry.now.version }
    ensures content { result.content ≡ entry.now.content }
    ensures fits { EntryFits (entry_view entry.now) }
{
    Attestation {
        store: *store,
        kind: entry.kind,
        epoch: entry.epoch,
        block: entry.block,
        position: entry.position,
        client: entry.client,
        nonce: entry.nonce,
        version: entry.version,
        content: entry.content,
        prev: *prev,
        head: head(prev, text),
    }
}

/// The tip of the block after the entry that was attested.
pub fn tip_by(attestation: &Attestation) -> Tip
    requires { attestation.now.position + 1 < 2 ^ 64 }
    ensures { tip_view result ≡ tip_by (attestation_view attestation.now) }
{
    Tip {
        count: attestation.position + 1,
        version: attestation.version,
        content: attestation.content,
        head: attestation.head,
    }
}

/// The key of the call whose entry was attested.
pub fn key_by(attestation: &Attestation) -> Key
    ensures { result ≡ key_by (attestation_view attestation.now) }
{
    Key {
        block: attestation.block,
        client: attestation.client,
        nonce: attestation.nonce,
    }
}

/// The number of pages that a content takes.
pub fn pages_of(content: &[u8]) -> u32
    requires { length content.now ≤ 65536 }
    ensures { result ≡ pages_for (length content.now) }
{
    content.len().div_ceil(PAGE) as u32
}
