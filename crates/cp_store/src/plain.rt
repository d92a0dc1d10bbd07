//! A store by the plain machine.
ghost use Rattle.std.specs.Prelude.{◌≡◌, ◌<◌, ◌≤◌, ◌+◌, ◌^◌, length, IfOk, OnOk, OnErr};
ghost use Rattle.cp_chain.specs.Log.{log_text};
ghost use Rattle.cp_closer.specs.Laws.{log_at};
ghost use Rattle.cp_core.specs.Kept.{Keeps};
ghost use Rattle.cp_core.specs.Machine.{Admissible, SpellsNext, run_from, step};
ghost use Rattle.cp_core.specs.Store.{SpellsFamilies};
ghost use Rattle.cp_core.specs.declared.event.Event.TheVariants.{Call};
ghost use Rattle.cp_core.specs.declared.phase.Phase.TheVariants.{Running};
ghost use Rattle.cp_store.specs.Closes.{Closes, IsLastSeal, freezes_below};
ghost use Rattle.cp_store.specs.Running.{HasFewLeaves, made_with};

use crate::log::log;
use crate::{Answer, CloseRefusal, OutOfMemory, Request, SealedText};
use cp_bytes::Bytes;
use cp_core::{Core, Event};
use std::alloc::Global;
use std::marker::Model;

// A store by the plain machine, between closings.
#[derive(Drop)]
pub(crate) struct Plain {
    core: Core,
}

impl Model for Plain {
    ghost use Rattle.cp_core.specs.View.{Standing};

    ghost Value = { Standing };

    ghost use Rattle.cp_store.specs.Running.{IsOpen};

    ghost view = { λ p. p.core };

    ghost invariant = { λ p. IsOpen p.core };
}

// All shards end the epoch, one after another.
fn freeze_all(alloc: Global, core: &mut Core) -> Result<(), OutOfMemory>
    ensures store { core.new.store ≡ core.old.store }
    ensures frozen { OnOk result
        (core.new.state ≡ run_from core.old.store core.old.state (freezes_below 16)) }
{
    for shard in 0..16 {
        core.step(alloc, Event::Freeze { shard })?;
    }
    Ok(())
}

// A closing's text, which has 156 bytes.
fn closing_text(text: &[u8]) -> [u8; 156]
    requires { length text.now ≡ 156 }
    ensures { result ≡ text.now }
{
    let mut bytes = [0; 156];
    bytes.copy_from_slice(text);
    bytes
}

// The texts of the epoch, the last one that is closed.
fn sealed(alloc: Global, core: &Core, epoch: u64) -> Result<SealedText, OutOfMemory>
    requires closed { core.now.state.phase ≡ Running (epoch + 1) }
    requires some { 1 ≤ epoch }
    requires few { HasFewLeaves core.now.store }
    ensures seal { IfOk result (IsLastSeal core.now epoch) }
    ensures log { IfOk result (λ sealed. sealed.log ≡ log_text (log_at core.now.state.life epoch)) }
{
    let life = core.life();
    let seals = life.seals.as_slice();
    let log = log(alloc, life.shards.as_slice(), epoch)?;
    let seal = &seals[(epoch - 1) as usize];
    let table = seal.table.copy(alloc)?;
    Ok(SealedText {
        leaf: seal.leaf,
        text: closing_text(seal.text.as_slice()),
        table,
        log: Bytes::from_vec(log),
    })
}

impl Plain {
    // A store before any event.
    pub(crate) fn open(
        alloc: Global,
        store: [u8; 32],
        families: Vec<u8>,
        attestations: u64,
        closings: u64,
        pages: u32,
    ) -> Result<Plain, OutOfMemory>
        requires families { SpellsFamilies families.items }
        requires leaves { attestations + closings < 2 ^ 32 }
        requires few { attestations ≤ 2 ^ 27 }
        ensures { IfOk result (λ p. p
            ≡ made_with store families.items attestations closings pages) }
    {
        let core = Core::with_pages(alloc, store, families, attestations, closings, pages)?;
        Ok(Plain { core })
    }

    // The epoch that is closed next.
    pub(crate) fn epoch(&self) -> u64
        ensures running { self.now.state.phase ≡ Running result }
        ensures some { 1 ≤ result }
        ensures keeps { Keeps self.now.store self.now.state }
    {
        self.core.life().seals.as_slice().len() as u64 + 1
    }

    // A call.
    pub(crate) fn call(
        &mut self,
        alloc: Global,
        pass: u32,
        request: Request,
    ) -> Result<Answer, OutOfMemory>
        requires { Admissible self.old.store (Call pass request) }
        ensures stepped { IfOk result
            (λ answer. (answer, self.new.state) ≡ step self.old.store self.old.state
            (Call pass request)) }
        ensures unchanged { OnErr result (self.new.state ≡ self.old.state) }
        ensures store { self.new.store ≡ self.old.store }
    {
        self.core.step(alloc, Event::Call { pass, request })
    }

    // A closing, event by event, with this families list for the next epoch, or with the epoch's own.
    pub(crate) fn close(
        self,
        alloc: Global,
        next: Option<Bytes>,
    ) -> Result<(Plain, Result<SealedText, CloseRefusal>), OutOfMemory>
        requires { SpellsNext next }
        ensures { IfOk result (λ done. Closes self done.0 next done.1) }
    {
        let epoch = self.epoch();
        let Plain { mut core } = self;
        if let Answer::CloseRefused(refusal) = core.step(alloc, Event::Begin { next })? {
            return Ok((Plain { core }, Err(refusal)));
        }
        freeze_all(alloc, &mut core)?;
        core.step(alloc, Event::Seal)?;
        core.step(alloc, Event::Publish)?;
        let sealed = sealed(alloc, &core, epoch)?;
        Ok((Plain { core }, Ok(sealed)))
    }
}
