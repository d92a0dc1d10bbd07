//! The families list of an epoch, and who may write by it.
ghost use Rattle.std.specs.Prelude.{◌≡◌, IfOk};
ghost use Rattle.cp_core.specs.Calls.{unsigned_by, unwritten, writers_key};
ghost use Rattle.cp_statements.specs.View.{put_request_view};
ghost use Rattle.cp_core.specs.Life.{list_text};
ghost use Rattle.cp_core.specs.Store.{SpellsFamilies};

use crate::running::epoch_now;
use crate::{Answer, CallRefusal, Item, OutOfMemory, Request};
use cp_families::{ListText, SharedList, family_of};
use cp_statements::PutRequest;
use lms_tree::{PublicKey, verify};
use std::alloc::Global;

/// The list that these bytes spell, to be shared.
pub(crate) fn shared(alloc: Global, text: Vec<u8>) -> Result<SharedList, OutOfMemory>
    requires { SpellsFamilies text.items }
    ensures { IfOk result (λ list. list ≡ text.items) }
{
    match ListText::read(text) {
        Ok(list) => SharedList::new(alloc, list),
        // All bytes that come here spell a list.
        Err(_) => Err(OutOfMemory),
    }
}

/// The text of the families list of this epoch, from 1, in a shard with this first list.
pub(crate) fn list_at<'a>(first: &'a SharedList, items: &'a [Item], epoch: u64) -> &'a SharedList
    ensures { result.now ≡ list_text first.now items.now epoch }
{
    let mut list = first;
    let mut through = 1;
    for item in items {
        if let Item::Frozen { next, .. } = item {
            through += 1;
            if through == epoch {
                list = next;
            }
        }
    }
    list
}

/// The key of the one who may write the request's block as its client, in the shard's epoch.
fn writers_key(first: &SharedList, items: &[Item], request: &PutRequest) -> Option<PublicKey>
    ensures { result ≡ writers_key first.now items.now (put_request_view request.now) }
{
    let families = list_at(first, items, epoch_now(items)).families();
    families.key_of(family_of(request.block), request.client)
}

/// The refusal of a put that this key, if there is one, did not sign.
fn unsigned_by(request: &PutRequest, signature: &[u8], key: Option<PublicKey>) -> Option<Answer>
    ensures { result ≡ unsigned_by (put_request_view request.now) signature.now key }
{
    let Some(key) = key else {
        return Some(Answer::CallRefused(CallRefusal::NotAWriter {
            family: family_of(request.block),
            client: request.client,
        }));
    };
    if verify(&key, &request.text(), signature) {
        None
    } else {
        Some(Answer::CallRefused(CallRefusal::BadSignature))
    }
}

/// The refusal of a put that no writer of the shard's epoch signed, if it is one.
#[tactic(auto, unfolding(crate::specs::Calls::unwritten))]
pub(crate) fn unwritten(first: &SharedList, items: &[Item], request: &Request) -> Option<Answer>
    ensures { result ≡ unwritten first.now items.now request.now }
{
    match request {
        Request::Put {
            request,
            signature,
            ..
        } => {
            let key = writers_key(first, items, request);
            unsigned_by(request, signature.as_slice(), key)
        }
        Request::Get(_) => None,
    }
}
