//! Puts.
ghost use Rattle.std.specs.Prelude.{ℕ, ◌≡◌, ◌≤◌, ◌^◌, ◌++◌, Ok, None, length, IfOk, IfErr, OnErr};
ghost use Rattle.sha2.specs.Sha256.{sha256};
ghost use Rattle.cp_core.specs.Calls.{added, answer_in, content_at};
ghost use Rattle.cp_core.specs.Life.{shard_of};
ghost use Rattle.cp_core.specs.declared.answer.Answer.TheVariants as spoken;
ghost use Rattle.cp_shard.specs.Steps.{AddsBelow, AddsNewLeaf, contents_after, drawn, early, IsByWriter, OnMemory, put_of, Refuses, step_of};

use crate::booking::{attest, text_of};
use crate::shard::Shard;
use cp_bytes::Bytes;
use cp_core::{Booked, CallRefusal, LeafSource};
use cp_families::VerifiedPut;
use cp_statements::{Entry, Kind};
use std::alloc::Global;

impl Shard {
    /// Puts a content: books an entry of the chain of its block, or answers a put that is there already
    /// as the first time. `pass` is the number of the one who calls, and `limit` the number of leaves
    /// that there are to draw.
    ///
    /// # Errors
    ///
    /// As [`CallRefusal`] lists them, in that order; nothing changes then. All memory is taken before
    /// the content's pages, and these before the leaf is drawn; the pages of the content before it are
    /// given back behind it. Memory is wanted at a new entry alone.
    pub fn put<L: LeafSource>(
        &mut self,
        alloc: Global,
        leaves: &mut L,
        limit: u64,
        pass: u32,
        put: &VerifiedPut,
        content: &[u8],
    ) -> Result<Booked, CallRefusal>
        requires store { put.now.request.store ≡ self.old.store }
        requires shard { shard_of put.now.request.block ≡ self.old.index }
        requires hash { sha256 content.now ≡ put.now.request.content }
        requires len { length content.now ≤ 65536 }
        requires written { IsByWriter self.old put.now }
        requires limit { limit ≤ 2 ^ 32 }

        // The answer, the item that is added, the contents and the leaf that is drawn are the step's. The
        // added row's leaf is below the limit and wasn't given before.
        ensures answer { IfOk result (λ b.
            answer_in (step_of self.old pass (put_of put.now content.now) (Ok b.leaf))
            ≡ spoken.Booked b) }
        ensures items { IfOk result (λ b. self.new.items
            ≡ self.old.items
            ++ added (step_of self.old pass (put_of put.now content.now) (Ok b.leaf))) }
        ensures contents { IfOk result (λ b. (block : ℕ) → content_at self.new.contents block
            ≡ content_at
            (contents_after (step_of self.old pass (put_of put.now content.now) (Ok b.leaf))
            (put_of put.now content.now) self.old.contents)
            block) }
        ensures below { IfOk result (λ b.
            AddsBelow (step_of self.old pass (put_of put.now content.now) (Ok b.leaf)) limit) }
        ensures once { IfOk result (λ b.
            AddsNewLeaf (step_of self.old pass (put_of put.now content.now) (Ok b.leaf))
            (L.given leaves.old)) }
        ensures given { IfOk result (λ b. L.given leaves.new
            ≡ L.given leaves.old
            ++ drawn (step_of self.old pass (put_of put.now content.now) (Ok b.leaf)) b.leaf) }

        // What the shard was made with stays.
        ensures store { self.new.store ≡ self.old.store }
        ensures index { self.new.index ≡ self.old.index }
        ensures pages { self.new.pages ≡ self.old.pages }
        ensures closings { self.new.closings ≡ self.old.closings }
        ensures first { self.new.first ≡ self.old.first }

        // A refusal is the step's, or want of memory at a new entry, and changes nothing.
        ensures refused { IfErr result
            (Refuses (step_of self.old pass (put_of put.now content.now)) limit
            (L.found leaves.new)) }
        ensures memory { IfErr result
            (OnMemory (early self.old.store self.old.items self.old.contents
            (put_of put.now content.now) ≡ None)) }
        ensures unchanged { OnErr result (self.new ≡ self.old) }
        ensures none_given { OnErr result (L.given leaves.new ≡ L.given leaves.old) }
        ensures found { L.found leaves.old ≤ L.found leaves.new }
        ensures fixed { L.fixed leaves.new ≡ L.fixed leaves.old }
    {
        let request = put.request();
        match self.early_put(alloc, request) {
            Err(refusal) => return Err(refusal),
            Ok(Some(booked)) => return Ok(booked),
            Ok(None) => {}
        }
        let tip = self.tip(request.block);
        let entry = Entry {
            kind: Kind::Put,
            epoch: request.epoch,
            block: request.block,
            position: tip.count,
            client: request.client,
            nonce: request.nonce,
            version: request.version,
            content: request.content,
            signature: put.signature(),
        };
        let Ok(text) = text_of(alloc, &entry) else {
            return Err(CallRefusal::OutOfMemory);
        };
        let attestation = attest(&self.store, &tip.head, &entry, text.as_slice());
        match self.append_put(leaves, limit, pass, text, attestation, content) {
            Err(refusal) => Err(refusal),
            Ok(leaf) => {
                let none = Bytes::from_vec(Vec::new(alloc));
                let signed = attestation.text();
                Ok(Booked::new(leaf, signed, none))
            }
        }
    }
}
