//! The plain store.
ghost use Rattle.std.specs.Prelude.{◌≡◌, ◌+◌, ◌≤◌, ◌^◌, IfOk, OnErr};
ghost use Rattle.cp_core.specs.Honest.{Honest};
ghost use Rattle.cp_core.specs.Kept.{Keeps};
ghost use Rattle.cp_core.specs.Machine.{Admissible, step};
ghost use Rattle.cp_core.specs.Store.{SpellsFamilies};
ghost use Rattle.cp_core.specs.View.{opened};

use crate::machine::Machine;
use crate::{Answer, Chronicle, Event, OutOfMemory};
use std::alloc::Global;
use std::marker::Model;

/// The pages of a shard where no other number is asked for.
const PAGES: u32 = 65_536;

/// The store as a plain machine: lists that are searched. Whatever events it has taken, in whatever
/// order, its life is honest.
#[derive(Drop)]
pub struct Core {
    machine: Machine,
}

// Clauses see what it was made with and how it stands.
impl Model for Core {
    ghost use Rattle.cp_core.specs.View.{Standing, state_view, store_view};
    ghost use Rattle.cp_core.specs.Kept.{Keeps};
    ghost use Rattle.cp_core.specs.Store.{StoreFits};

    ghost Value = { Standing };

    ghost view = { λ c. record { store = store_view c.machine; state = state_view c.machine } };

    ghost invariant = { λ c. StoreFits (store_view c.machine) × Keeps (store_view c.machine) (state_view c.machine) };
}

impl Core {
    /// A store with 65,536 pages in each shard, before any event.
    ///
    /// `store` is SHA-256 of its key, `families` the text of its first families list, which is that of
    /// epoch 1, and the key has `attestations` leaves for attestations and after them `closings` for
    /// closings, at most 2^32 together. `OutOfMemory` where its lists can't be had.
    pub fn new(
        alloc: Global,
        store: [u8; 32],
        families: Vec<u8>,
        attestations: u64,
        closings: u64,
    ) -> Result<Core, OutOfMemory>
        requires families { SpellsFamilies families.items }
        requires leaves { attestations + closings ≤ 2 ^ 32 }
        ensures { IfOk result (λ core. core ≡ opened (record {
          id = store;
          families = families.items;
          attestations = attestations;
          closings = closings;
          pages = 65536;
        })) }
    {
        Core::with_pages(alloc, store, families, attestations, closings, PAGES)
    }

    /// A store with this number of pages of 1,024 bytes in each shard, before any event.
    pub fn with_pages(
        alloc: Global,
        store: [u8; 32],
        families: Vec<u8>,
        attestations: u64,
        closings: u64,
        pages: u32,
    ) -> Result<Core, OutOfMemory>
        requires families { SpellsFamilies families.items }
        requires leaves { attestations + closings ≤ 2 ^ 32 }
        ensures { IfOk result (λ core. core ≡ opened (record {
          id = store;
          families = families.items;
          attestations = attestations;
          closings = closings;
          pages = pages;
        })) }
    {
        let machine = Machine::opened(alloc, &store, families, attestations, closings, pages)?;
        Ok(Core { machine })
    }

    /// Takes an event: answers it and changes the state by the step's definition. Where memory is
    /// wanted, all stays as it was. The event is admissible: a call names this store, fits its fields
    /// and, at a put, has the content of its hash; a list for the next epoch spells families, a shard is
    /// below 16, an epoch at least 1.
    pub fn step(&mut self, alloc: Global, event: Event) -> Result<Answer, OutOfMemory>
        requires { Admissible self.old.store event }
        ensures stepped { IfOk result (λ answer. (answer, self.new.state) ≡ step self.old.store self.old.state event) }
        ensures unchanged { OnErr result (self.new.state ≡ self.old.state) }
        ensures store { self.new.store ≡ self.old.store }
    {
        self.machine.step(alloc, event)
    }

    /// The life so far: the items of each shard, and the seals. It is honest.
    pub fn life(&self) -> &Chronicle
        ensures life { result.now ≡ self.now.state.life }
        ensures honest { Honest self.now.store result.now }
        ensures keeps { Keeps self.now.store self.now.state }
    {
        &self.machine.life
    }
}
