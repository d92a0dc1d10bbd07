//! A store by sixteen shards and a closer.
ghost use Rattle.std.specs.Prelude.{◌≡◌, ◌<◌, ◌≤◌, ◌+◌, ◌^◌, map, IfOk, OnOk, OnErr};
ghost use Rattle.cp_core.specs.Machine.{Admissible, SpellsNext};
ghost use Rattle.cp_core.specs.Store.{SpellsFamilies};
ghost use Rattle.cp_core.specs.Leaves.{numbers_below};
ghost use Rattle.cp_core.specs.declared.event.Event.TheVariants.{Call};
ghost use Rattle.cp_core.specs.declared.phase.Phase.TheVariants.{Running};
ghost use Rattle.cp_core.specs.declared.request.Request.TheVariants.{Get, Put};
ghost use Rattle.cp_store.specs.Alike.{Alike, IsAfter, IsAnswer};
ghost use Rattle.cp_store.specs.Closes.{Closes};
ghost use Rattle.cp_store.specs.Running.{made_with};
ghost use Rattle.cp_store.specs.Shards.{blank_shard};

use crate::answering::{answered, verified};
use crate::closing::finish;
use crate::{Answer, CloseRefusal, OutOfMemory, Request, SealedText};
use cp_bytes::Bytes;
use cp_closer::{Closer, Phase};
use cp_core::Counter;
use cp_families::{ListText, SharedList};
use cp_shard::Shard;
use cp_statements::{GetRequest, PutRequest};
use std::alloc::Global;
use std::marker::Model;

// A store by sixteen shards and a closer, between closings.
#[derive(Drop)]
pub(crate) struct Sharded {
    // SHA-256 of the store's key.
    pub(crate) store: [u8; 32],
    // The families list of epoch 1.
    pub(crate) families: SharedList,
    // The number of leaves for attestations.
    pub(crate) attestations: u64,
    // The number of leaves for closings.
    pub(crate) closings: u32,
    // The number of pages of each shard.
    pub(crate) pages: u32,
    // The shards.
    pub(crate) shards: Vec<Shard>,
    // The leaves for attestations, as they are drawn.
    pub(crate) leaves: Counter,
    // The closer, which has taken what the shards handed over of the epochs before.
    pub(crate) closer: Closer,
}

impl Model for Sharded {
    ghost use Rattle.cp_core.specs.View.{Standing};

    ghost Value = { Standing };

    ghost use Rattle.cp_store.specs.Inside.{standing_of, IsSharded};

    ghost view = { standing_of };

    ghost invariant = { IsSharded };
}

// The list that the bytes spell, to be shared.
fn shared(alloc: Global, text: Vec<u8>) -> Result<SharedList, OutOfMemory>
    requires { SpellsFamilies text.items }
    ensures { IfOk result (λ list. list ≡ text.items) }
{
    let Ok(list) = ListText::read(text) else {
        unreachable!();
    };
    SharedList::new(alloc, list)
}

// The list that is named for the next epoch, if one is, to be shared.
fn shared_next(alloc: Global, next: Option<Bytes>) -> Result<Option<SharedList>, OutOfMemory>
    requires { SpellsNext next }
    ensures { IfOk result (λ list. list ≡ next) }
{
    match next {
        None => Ok(None),
        Some(text) => {
            let list = shared(alloc, text.into_vec())?;
            Ok(Some(list))
        }
    }
}

// The number of shards.
const SHARDS: u32 = 16;

// Sixteen shards without an item, with this families list in epoch 1.
fn blank_shards(
    alloc: Global,
    store: [u8; 32],
    pages: u32,
    closings: u32,
    first: &SharedList,
) -> Result<Vec<Shard>, OutOfMemory>
    ensures { IfOk result (λ shards. shards.items
        ≡ map (blank_shard store pages closings first.now) (numbers_below 16)) }
{
    let mut shards = Vec::new(alloc);
    for index in 0..SHARDS {
        let first = first.share()?;
        shards.push(Shard::new(alloc, store, index, pages, closings, first)?)?;
    }
    Ok(shards)
}

impl Sharded {
    // A store before any event.
    pub(crate) fn open(
        alloc: Global,
        store: [u8; 32],
        families: Vec<u8>,
        attestations: u64,
        closings: u64,
        pages: u32,
    ) -> Result<Sharded, OutOfMemory>
        requires families { SpellsFamilies families.items }
        requires leaves { attestations + closings < 2 ^ 32 }
        requires few { attestations ≤ 2 ^ 27 }
        ensures { IfOk result (λ s. s
            ≡ made_with store families.items attestations closings pages) }
    {
        let closings = closings as u32;
        let families = shared(alloc, families)?;
        let shards = blank_shards(alloc, store, pages, closings, &families)?;
        let leaves = attestations as u32 + closings;
        let closer = Closer::new(alloc, store, leaves, closings, families.share()?);
        Ok(Sharded {
            store,
            families,
            attestations,
            closings,
            pages,
            shards,
            leaves: Counter::new(),
            closer,
        })
    }

    // A get at the block's shard.
    fn get(&mut self, alloc: Global, pass: u32, request: &GetRequest) -> Result<Answer, OutOfMemory>
        requires { Admissible self.old.store (Call pass (Get request.now)) }
        ensures answer { IfOk result (IsAnswer self.old (Call pass (Get request.now))) }
        ensures after { OnOk result (IsAfter self.old (Call pass (Get request.now)) self.new) }
        ensures unchanged { OnErr result (Alike self.new.state self.old.state) }
        ensures store { self.new.store ≡ self.old.store }
    {
        let limit = self.attestations;
        let shard = (request.block % 16) as usize;
        let outcome = self.shards[shard].get(alloc, &mut self.leaves, limit, pass, request);
        answered(outcome)
    }

    // A put at the block's shard.
    fn put(
        &mut self,
        alloc: Global,
        pass: u32,
        request: &PutRequest,
        signature: &[u8],
        content: &[u8],
    ) -> Result<Answer, OutOfMemory>
        requires { Admissible self.old.store
            (Call pass (Put request.now signature.now content.now)) }
        ensures answer { IfOk result
            (IsAnswer self.old (Call pass (Put request.now signature.now content.now))) }
        ensures after { OnOk result
            (IsAfter self.old (Call pass (Put request.now signature.now content.now)) self.new) }
        ensures unchanged { OnErr result (Alike self.new.state self.old.state) }
        ensures store { self.new.store ≡ self.old.store }
    {
        let limit = self.attestations;
        let shard = (request.block % 16) as usize;
        let text = request.text();
        let put = match verified(&self.shards[shard], &self.store, request, &text, signature) {
            Ok(put) => put,
            Err(refusal) => return Ok(Answer::CallRefused(refusal)),
        };
        let outcome = self.shards[shard].put(alloc, &mut self.leaves, limit, pass, &put, content);
        answered(outcome)
    }

    // A call at the block's shard.
    pub(crate) fn call(
        &mut self,
        alloc: Global,
        pass: u32,
        request: Request,
    ) -> Result<Answer, OutOfMemory>
        requires { Admissible self.old.store (Call pass request) }
        ensures answer { IfOk result (IsAnswer self.old (Call pass request)) }
        ensures after { OnOk result (IsAfter self.old (Call pass request) self.new) }
        ensures unchanged { OnErr result (Alike self.new.state self.old.state) }
        ensures store { self.new.store ≡ self.old.store }
    {
        match &request {
            Request::Put {
                request,
                signature,
                content,
            } => self.put(
                alloc,
                pass,
                request,
                signature.as_slice(),
                content.as_slice(),
            ),
            Request::Get(request) => self.get(alloc, pass, request),
        }
    }

    // The epoch that is closed next.
    pub(crate) fn epoch(&self) -> u64
        ensures running { self.now.state.phase ≡ Running result }
        ensures some { 1 ≤ result }
    {
        let Phase::Running { epoch } = self.closer.phase() else {
            unreachable!();
        };
        epoch
    }

    // A closing, over the frozen parts of all shards, with this families list for the next epoch, or with
    // the epoch's own.
    pub(crate) fn close(
        self,
        alloc: Global,
        next: Option<Bytes>,
    ) -> Result<(Sharded, Result<SealedText, CloseRefusal>), OutOfMemory>
        requires { SpellsNext next }
        ensures { IfOk result (λ done. Closes self done.0 next done.1) }
    {
        let epoch = self.epoch();
        let next = shared_next(alloc, next)?;
        let Sharded {
            store,
            families,
            attestations,
            closings,
            pages,
            mut shards,
            leaves,
            mut closer,
        } = self;
        let begun = closer.begin(epoch, next);
        if let Err(refusal) = begun {
            let same = Sharded {
                store,
                families,
                attestations,
                closings,
                pages,
                shards,
                leaves,
                closer,
            };
            return Ok((same, Err(refusal)));
        }
        let sealed = finish(alloc, &mut shards, &mut closer, epoch)?;
        let next = Sharded {
            store,
            families,
            attestations,
            closings,
            pages,
            shards,
            leaves,
            closer,
        };
        Ok((next, Ok(sealed)))
    }
}
