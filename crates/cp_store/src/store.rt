//! The store.
ghost use Rattle.std.specs.Prelude.{◌≡◌, ◌<◌, ◌≤◌, ◌+◌, ◌^◌, IfOk, OnOk, OnErr};
ghost use Rattle.cp_core.specs.Machine.{Admissible, SpellsNext};
ghost use Rattle.cp_core.specs.Store.{SpellsFamilies};
ghost use Rattle.cp_core.specs.declared.event.Event.TheVariants.{Call};
ghost use Rattle.cp_core.specs.declared.phase.Phase.TheVariants.{Running};
ghost use Rattle.cp_store.specs.Alike.{Alike, IsAfter, IsAnswer};
ghost use Rattle.cp_store.specs.Closes.{Closes};
ghost use Rattle.cp_store.specs.Running.{made_with};

use crate::plain::Plain;
use crate::sharded::Sharded;
use crate::{Answer, By, CloseRefusal, OutOfMemory, Request, SealedText};
use cp_bytes::Bytes;
use std::alloc::Global;
use std::marker::Model;

// What serves the store.
#[derive(Drop)]
enum Body {
    Core(Plain),
    Shards(Sharded),
}

/// A store in one thread, between closings. Contracts see what it was made with and how it stands.
#[derive(Drop)]
pub struct Store {
    body: Body,
}

impl Model for Store {
    ghost use Rattle.cp_core.specs.View.{Standing};

    ghost Value = { Standing };

    ghost use Rattle.cp_store.specs.Bodies.{standing_in};

    ghost view = { λ s. standing_in s.body };
}

impl Store {
    /// A store before any call, in epoch 1. `store` is SHA-256 of its key, `families` the text of the
    /// families list of epoch 1, the key has `attestations` leaves for attestations and after them `closings` for
    /// closings, and each shard has `pages` pages of 1,024 bytes.
    pub fn open(
        alloc: Global,
        by: By,
        store: [u8; 32],
        families: Vec<u8>,
        attestations: u64,
        closings: u64,
        pages: u32,
    ) -> Result<Store, OutOfMemory>
        requires families { SpellsFamilies families.items }
        requires leaves { attestations + closings < 2 ^ 32 }
        requires few { attestations ≤ 2 ^ 27 }
        ensures { IfOk result (λ s. s
            ≡ made_with store families.items attestations closings pages) }
    {
        let body = match by {
            By::Core => Body::Core(Plain::open(
                alloc,
                store,
                families,
                attestations,
                closings,
                pages,
            )?),
            By::Shards => Body::Shards(Sharded::open(
                alloc,
                store,
                families,
                attestations,
                closings,
                pages,
            )?),
        };
        Ok(Store { body })
    }

    /// The epoch that is closed next: no closing has begun. It takes no memory.
    pub fn epoch(&self) -> u64
        ensures running { self.now.state.phase ≡ Running result }
        ensures some { 1 ≤ result }
    {
        match &self.body {
            Body::Core(plain) => plain.epoch(),
            Body::Shards(sharded) => sharded.epoch(),
        }
    }

    /// A call by the one with this number: what the step's definition answers. Where memory is wanted
    /// the store stands as before.
    pub fn call(
        &mut self,
        alloc: Global,
        pass: u32,
        request: Request,
    ) -> Result<Answer, OutOfMemory>
        requires { Admissible self.old.store (Call pass request) }
        ensures answer { IfOk result (IsAnswer self.old (Call pass request)) }
        ensures after { OnOk result (IsAfter self.old (Call pass request) self.new) }
        ensures unchanged { OnErr result (Alike self.new.state self.old.state) }
        ensures store { self.new.store ≡ self.old.store }
    {
        match &mut self.body {
            Body::Core(plain) => plain.call(alloc, pass, request),
            Body::Shards(sharded) => sharded.call(alloc, pass, request),
        }
    }

    /// Closes the epoch: it begins with `next`, the text of the next epoch's families list, or with the
    /// epoch's own where none is named, the sixteen shards end the epoch, it is sealed and published. It
    /// gives the store back with what was sealed, or with the refusal where all leaves for closings are
    /// used, which changes nothing. Where memory is wanted the store is gone.
    pub fn close(
        self,
        alloc: Global,
        next: Option<Bytes>,
    ) -> Result<(Store, Result<SealedText, CloseRefusal>), OutOfMemory>
        requires { SpellsNext next }
        ensures closes { IfOk result (λ done. Closes self done.0 next done.1) }
        ensures store { IfOk result (λ done. done.0.store ≡ self.store) }
    {
        match self.body {
            Body::Core(plain) => {
                let (plain, done) = plain.close(alloc, next)?;
                let body = Body::Core(plain);
                Ok((Store { body }, done))
            }
            Body::Shards(sharded) => {
                let (sharded, done) = sharded.close(alloc, next)?;
                let body = Body::Shards(sharded);
                Ok((Store { body }, done))
            }
        }
    }
}
