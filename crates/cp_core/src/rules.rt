//! The rules of a call, up to the leaf.
ghost use Rattle.std.specs.Prelude.{◌≡◌, ◌<◌, Option, Some, None, Ok, cond, length, get_or, IfOk};
ghost use Rattle.cp_statements.specs.Entry.{entry_of, entry_text};
ghost use Rattle.cp_statements.specs.View.{entry_view};
ghost use Rattle.cp_core.specs.declared.answer.Answer.TheVariants.{CallRefused};
ghost use Rattle.cp_core.specs.declared.call_refusal.CallRefusal.TheVariants.{NonceUsed};
ghost use Rattle.cp_core.specs.Calls.{again_entry, content_for, first_refused, is_overtaken, is_stale, latest_of, settled, text_again};
ghost use Rattle.cp_core.specs.Life.{RowItem, row_item};
ghost use Rattle.cp_core.specs.Requests.{RequestFits, block_of};
ghost use Rattle.cp_core.specs.Running.{IsFoundAt, IsRowAt, Stands};

use crate::entries::{answers, attested, content_for};
use crate::pages::{pages_free, pages_of};
use crate::running::{epoch_now, tip_of};
use crate::search::found;
use crate::writers::unwritten;
use crate::{Answer, Booked, CallRefusal, Content, Item, OutOfMemory, Request};
use cp_families::SharedList;
use cp_statements::{Entry, Kind};
use std::alloc::Global;

/// The latest version of the block, where the request puts another one than the next.
fn stale(items: &[Item], request: &Request) -> Option<u64>
    requires { Stands items.now }
    ensures { result ≡ cond (is_stale items.now request.now) (Some (latest_of items.now (block_of request.now)).version) None }
{
    let Request::Put { request, .. } = request else {
        return None;
    };
    let latest = tip_of(items, request.block).version;
    if u128::from(latest) + 1 == u128::from(request.version) {
        None
    } else {
        Some(latest)
    }
}

/// The refusal of a call that was not made before, if any rule before the leaf refuses it.
#[tactic(auto, unfolding(crate::specs::Calls::first_refused))]
fn first_refused(pages: u32, items: &[Item], request: &Request) -> Option<Answer>
    requires stands { Stands items.now }
    requires fits { RequestFits request.now }
    ensures { result ≡ first_refused pages items.now request.now }
{
    if let Some(latest) = stale(items, request) {
        return Some(Answer::CallRefused(CallRefusal::StaleVersion { latest }));
    }
    let need = pages_of(request);
    let free = pages_free(pages, items);
    if free < need {
        Some(Answer::CallRefused(CallRefusal::PoolFull { free, need }))
    } else {
        None
    }
}

/// The answer that the row at this place, which spells this entry, was given.
fn booked_again(
    alloc: Global,
    store: &[u8; 32],
    items: &[Item],
    contents: &[Content],
    at: usize,
    leaf: u32,
    entry: &Entry<'_>,
    text: &[u8],
) -> Result<Booked, OutOfMemory>
    requires stands { Stands items.now }
    requires row { IsRowAt items.now at leaf text.now }
    requires spells { entry_of text.now ≡ Ok (entry_view entry.now) }
    ensures { IfOk result (λ booking. booking ≡ record { leaf = leaf; text = text_again store.now items.now (entry_view entry.now); content = content_for contents.now (entry_view entry.now).kind entry.now.block }) }
{
    let prev = tip_of(&items[..at], entry.block).head;
    let signed = attested(store, &prev, entry, text).text();
    let content = content_for(alloc, contents, entry)?;
    Ok(Booked::new(leaf, signed, content))
}

/// The latest version of the block, where the entry is a get of an older one.
fn overtaken(items: &[Item], entry: &Entry<'_>) -> Option<u64>
    requires { Stands items.now }
    ensures { let e = entry_view entry.now in
        result ≡ cond (is_overtaken items.now e) (Some (latest_of items.now e.block).version) None }
{
    let latest = tip_of(items, entry.block).version;
    match entry.kind {
        Kind::Put => None,
        Kind::Get => {
            if entry.version == latest {
                None
            } else {
                Some(latest)
            }
        }
    }
}

/// The answer to a call whose client and nonce the row at this place has.
#[tactic(auto, unfolding(crate::specs::Calls::again_entry))]
fn again(
    alloc: Global,
    store: &[u8; 32],
    items: &[Item],
    contents: &[Content],
    request: &Request,
    at: usize,
    leaf: u32,
    text: &[u8],
) -> Result<Answer, OutOfMemory>
    requires stands { Stands items.now }
    requires row { IsRowAt items.now at leaf text.now }
    ensures { IfOk result (λ answer. answer ≡ again_entry store.now items.now contents.now request.now leaf (entry_of text.now)) }
{
    let Ok(entry) = Entry::read(text) else {
        return Ok(nonce_used(0));
    };
    if !answers(store, &entry, request) {
        return Ok(nonce_used(entry.position));
    }
    if let Some(latest) = overtaken(items, &entry) {
        return Ok(Answer::CallRefused(CallRefusal::Overtaken { latest }));
    }
    let booked = booked_again(alloc, store, items, contents, at, leaf, &entry, text)?;
    Ok(Answer::Booked(booked))
}

/// The refusal of a call whose client and nonce the entry at this position used.
fn nonce_used(position: u64) -> Answer
    ensures { result ≡ CallRefused (NonceUsed position) }
{
    Answer::CallRefused(CallRefusal::NonceUsed { position })
}

/// What the rules before the leaf answer; nothing where the call is to have a new entry.
#[tactic(auto, unfolding(crate::specs::Calls::settled))]
pub(crate) fn settled(
    alloc: Global,
    store: &[u8; 32],
    pages: u32,
    first: &SharedList,
    items: &[Item],
    contents: &[Content],
    request: &Request,
) -> Result<Option<Answer>, OutOfMemory>
    requires stands { Stands items.now }
    requires fits { RequestFits request.now }
    ensures { IfOk result (λ answer. answer
        ≡ settled store.now pages first.now items.now contents.now request.now) }
{
    let current = epoch_now(items);
    if request.epoch() != current {
        return Ok(Some(Answer::CallRefused(CallRefusal::WrongEpoch { current })));
    }
    if let Some(refusal) = unwritten(first, items, request) {
        return Ok(Some(refusal));
    }
    let Some(at) = found(items, request, current) else {
        return Ok(first_refused(pages, items, request));
    };
    match &items[at] {
        Item::Row { leaf, entry, .. } => Ok(Some(again(
            alloc,
            store,
            items,
            contents,
            request,
            at,
            *leaf,
            entry.as_slice(),
        )?)),
        // No freeze is a call.
        Item::Frozen { .. } => Ok(None),
    }
}
