//! Gets.
ghost use Rattle.std.specs.Prelude.{ℕ, ◌≡◌, ◌≤◌, ◌^◌, ◌++◌, Ok, length, IfOk, IfErr, OnErr};
ghost use Rattle.cp_core.specs.Calls.{added, answer_in};
ghost use Rattle.cp_core.specs.Life.{shard_of};
ghost use Rattle.cp_core.specs.declared.answer.Answer.TheVariants as spoken;
ghost use Rattle.cp_core.specs.declared.request.Request.TheVariants as ask;
ghost use Rattle.cp_shard.specs.Steps.{AddsBelow, AddsNewLeaf, drawn, early, MayHaveBooking, OnMemory, Refuses, step_of};

use crate::booking::{attest, text_of};
use crate::shard::Shard;
use cp_core::{Booked, CallRefusal, LeafSource};
use cp_statements::{Entry, GetRequest, Kind};
use std::alloc::Global;

impl Shard {
    /// Gets the latest content of a block: books an entry of its chain, or answers a get that is there
    /// already as the first time. A block that was never written has version 0, a hash of zeros and an
    /// empty content. `pass` is the number of the one who calls, and `limit` the number of leaves that
    /// there are to draw.
    ///
    /// # Errors
    ///
    /// As [`CallRefusal`] lists them, in that order, but no `StaleVersion` and no `PoolFull`; nothing
    /// changes then. All memory is taken before the leaf is drawn. It is wanted where the call is to be
    /// booked, or was booked before.
    pub fn get<L: LeafSource>(
        &mut self,
        alloc: Global,
        leaves: &mut L,
        limit: u64,
        pass: u32,
        request: &GetRequest,
    ) -> Result<Booked, CallRefusal>
        requires store { request.now.store ≡ self.old.store }
        requires shard { shard_of request.now.block ≡ self.old.index }
        requires limit { limit ≤ 2 ^ 32 }

        // The answer, the item that is added and the leaf that is drawn are the step's, and all else stays.
        // The added row's leaf is below the limit and wasn't given before.
        ensures answer { IfOk result (λ b.
            answer_in (step_of self.old pass (ask.Get request.now) (Ok b.leaf)) ≡ spoken.Booked b) }
        ensures items { IfOk result (λ b. self.new ≡ record self.old {
          items = self.old.items
              ++ added (step_of self.old pass (ask.Get request.now) (Ok b.leaf));
        }) }
        ensures below { IfOk result (λ b.
            AddsBelow (step_of self.old pass (ask.Get request.now) (Ok b.leaf)) limit) }
        ensures once { IfOk result (λ b.
            AddsNewLeaf (step_of self.old pass (ask.Get request.now) (Ok b.leaf))
            (L.given leaves.old)) }
        ensures given { IfOk result (λ b. L.given leaves.new
            ≡ L.given leaves.old
            ++ drawn (step_of self.old pass (ask.Get request.now) (Ok b.leaf)) b.leaf) }

        // A refusal is the step's, or want of memory where there would be a booking, and changes nothing.
        ensures refused { IfErr result
            (Refuses (step_of self.old pass (ask.Get request.now)) limit
            (L.found leaves.new)) }
        ensures memory { IfErr result
            (OnMemory (MayHaveBooking
            (early self.old.store self.old.items self.old.contents
            (ask.Get request.now)))) }
        ensures unchanged { OnErr result (self.new ≡ self.old) }
        ensures none_given { OnErr result (L.given leaves.new ≡ L.given leaves.old) }
        ensures found { L.found leaves.old ≤ L.found leaves.new }
        ensures fixed { L.fixed leaves.new ≡ L.fixed leaves.old }
    {
        match self.early_get(alloc, request) {
            Err(refusal) => return Err(refusal),
            Ok(Some(booked)) => return Ok(booked),
            Ok(None) => {}
        }
        let tip = self.tip(request.block);
        let entry = Entry {
            kind: Kind::Get,
            epoch: request.epoch,
            block: request.block,
            position: tip.count,
            client: request.client,
            nonce: request.nonce,
            version: tip.version,
            content: tip.content,
            signature: &[],
        };
        let Ok(text) = text_of(alloc, &entry) else {
            return Err(CallRefusal::OutOfMemory);
        };
        let Ok(content) = self.content(alloc, request.block) else {
            return Err(CallRefusal::OutOfMemory);
        };
        let attestation = attest(&self.store, &tip.head, &entry, text.as_slice());
        match self.append_get(leaves, limit, pass, text, attestation) {
            Err(refusal) => Err(refusal),
            Ok(leaf) => Ok(Booked::new(leaf, attestation.text(), content)),
        }
    }
}
