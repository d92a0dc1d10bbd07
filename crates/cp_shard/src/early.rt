//! The calls that need no new entry.
ghost use Rattle.std.specs.Prelude.{ℕ, ◌≡◌, ◌+◌, ◌==◌, [], IfOk};
ghost use Rattle.std.specs.List.{slice_get};
ghost use Rattle.cp_tips.specs.View.{tip_view};
ghost use Rattle.cp_core.specs.Calls.{content_at};
ghost use Rattle.cp_core.specs.declared.request.Request.TheVariants as ask;
ghost use Rattle.cp_pages.specs.Pages.{IsLive, content_of};
ghost use Rattle.cp_shard.specs.Kept.{tip_of};
ghost use Rattle.cp_shard.specs.Places.{IsCallOf};
ghost use Rattle.cp_shard.specs.Steps.{early, said, IsSaid};

use crate::call::Call;
use crate::key::Key;
use crate::shard::Shard;
use crate::standing::tip_in;
use cp_bytes::{Bytes, OutOfMemory};
use cp_core::{Booked, CallRefusal};
use cp_pages::{Pool, Run};
use cp_statements::{GetRequest, PutRequest};
use cp_tips::Tip;
use std::alloc::Global;

// The call at a place, if there is one.
fn call_in(calls: &[Call], place: usize) -> Option<Call>
    ensures { result ≡ slice_get calls.now place }
{
    calls.get(place).copied()
}

// Whether a version is the one after the latest.
fn is_next(version: u64, latest: u64) -> bool
    ensures { result ≡ (version == latest + 1) }
{
    version > latest && version - latest == 1
}

// A copy of what a live run reads as.
fn copy_of(alloc: Global, pool: &Pool, run: &Run) -> Result<Bytes, OutOfMemory>
    requires { IsLive pool.now run.now }
    ensures { IfOk result (λ content. content ≡ content_of pool.now run.now) }
{
    let mut content = vec![in alloc; 0; run.len()]?;
    pool.read(run, &mut content);
    Ok(Bytes::from_vec(content))
}

impl Shard {
    // The call of this epoch that has the key.
    fn call_at(&self, key: Key) -> Option<Call>
        ensures { IsCallOf self.now.store self.now.items key result }
    {
        match self.places.get(&key) {
            None => None,
            Some(place) => call_in(&self.calls, *place),
        }
    }

    // The block's tip.
    pub(crate) fn tip(&self, block: u64) -> Tip
        ensures { tip_view result ≡ tip_of self.now.items block }
    {
        tip_in(&self.standings, block)
    }

    // A copy of the block's latest content; empty where none was put.
    pub(crate) fn content(&self, alloc: Global, block: u64) -> Result<Bytes, OutOfMemory>
        ensures { IfOk result (λ content. content ≡ content_at self.now.contents block) }
    {
        match self.standings.get(&block) {
            Some(standing) => match &standing.run {
                Some(run) => {
                    let content = copy_of(alloc, &self.pool, run)?;
                    Ok(content)
                }
                None => Ok(Bytes::from_vec(Vec::new(alloc))),
            },
            None => Ok(Bytes::from_vec(Vec::new(alloc))),
        }
    }

    // What a put is answered that needs no new entry; `None` where it needs one.
    pub(crate) fn early_put(
        &self,
        alloc: Global,
        request: &PutRequest,
    ) -> Result<Option<Booked>, CallRefusal>
        ensures { early self.now.store self.now.items self.now.contents (ask.Put request.now [] [])
            ≡ said result }
    {
        if request.epoch != self.epoch {
            return Err(CallRefusal::WrongEpoch {
                current: self.epoch,
            });
        }
        let key = Key {
            block: request.block,
            client: request.client,
            nonce: request.nonce,
        };
        match self.call_at(key) {
            Some(call) => {
                if !call.is_put(request) {
                    return Err(CallRefusal::NonceUsed {
                        position: call.attestation.position,
                    });
                }
                let none = Bytes::from_vec(Vec::new(alloc));
                let text = call.attestation.text();
                Ok(Some(Booked::new(call.leaf, text, none)))
            }
            None => {
                let tip = self.tip(request.block);
                if !is_next(request.version, tip.version) {
                    return Err(CallRefusal::StaleVersion {
                        latest: tip.version,
                    });
                }
                Ok(None)
            }
        }
    }
    // What a get is answered that needs no new entry; `None` where it needs one. Memory is wanted for
    // a content alone.
    pub(crate) fn early_get(
        &self,
        alloc: Global,
        request: &GetRequest,
    ) -> Result<Option<Booked>, CallRefusal>
        ensures { IsSaid (early self.now.store self.now.items self.now.contents
            (ask.Get request.now)) result }
    {
        if request.epoch != self.epoch {
            return Err(CallRefusal::WrongEpoch {
                current: self.epoch,
            });
        }
        let key = Key {
            block: request.block,
            client: request.client,
            nonce: request.nonce,
        };
        match self.call_at(key) {
            Some(call) => {
                if !call.is_get(request) {
                    return Err(CallRefusal::NonceUsed {
                        position: call.attestation.position,
                    });
                }
                let latest = self.tip(request.block).version;
                if call.attestation.version != latest {
                    return Err(CallRefusal::Overtaken { latest });
                }
                let Ok(content) = self.content(alloc, request.block) else {
                    return Err(CallRefusal::OutOfMemory);
                };
                let text = call.attestation.text();
                Ok(Some(Booked::new(call.leaf, text, content)))
            }
            None => Ok(None),
        }
    }
}
