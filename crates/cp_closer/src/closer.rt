//! The closer.
ghost use Rattle.std.specs.Prelude.{◌≡◌, ◌≤◌, ◌++◌, OnOk, OnErr, Some, length, vec_len, vec_capacity};
ghost use Rattle.cp_core.specs.Frozen.{part_view};
ghost use Rattle.cp_core.specs.Machine.{next_or};
ghost use Rattle.cp_core.specs.Sealing.{link_after};
ghost use Rattle.cp_core.specs.Store.{SpellsFamilies};
ghost use Rattle.cp_closer.specs.Closer.{opening, begin_with, begin_answer, after_begin, IsNextPart, after_take, IsFull, after_seal, IsSealed, after_publish, epoch_of};
ghost use Rattle.cp_closer.specs.Kept.{SealsFit, NextFits};
ghost use Rattle.cp_closer.specs.Pendings.{seals_of, HasRoom};

use crate::log::log;
use crate::pending::{Heading, Pending};
use crate::tips::note_parts;
use crate::{CloseRefusal, FrozenPart, OutOfMemory, Phase, SealItem, SealedText, Seals};
use cp_bytes::digest;
use cp_families::SharedList;
use cp_tips::Tip;
use std::alloc::Global;
use std::array;
use std::collections::BTreeMap;
use std::marker::Model;

/// Closes the epochs of a store, one after another (this project's own).
#[derive(Drop)]
pub struct Closer {
    store: [u8; 32],
    leaves: u32,
    closings: u32,
    phase: Phase,
    /// The epoch's families list.
    list: SharedList,
    /// The next epoch's; none where that has this one's.
    next: Option<SharedList>,
    tips: BTreeMap<u64, Tip>,
    parts: [FrozenPart; 16],
    seals: Vec<SealItem>,
    pending: Option<Pending>,
}

impl Model for Closer {
    ghost use Rattle.cp_closer.specs.Closer.{CloserState};

    ghost Value = { CloserState };

    ghost use Rattle.cp_closer.specs.Inside.{closer_view, IsRight};

    ghost view = { closer_view };

    ghost invariant = { IsRight };
}

impl Closer {
    /// A closer in epoch 1, whose families list is `first`. `store` is SHA-256 of the store's key,
    /// `leaves` the number of all its leaves, and the last `closings` of them, no more than all, are for
    /// closings. It takes no memory.
    pub fn new(
        alloc: Global,
        store: [u8; 32],
        leaves: u32,
        closings: u32,
        first: SharedList,
    ) -> Closer
        requires { closings ≤ leaves }
        ensures { result ≡ opening store leaves closings first }
    {
        Closer {
            store,
            leaves,
            closings,
            phase: Phase::Running { epoch: 1 },
            list: first,
            next: None,
            tips: BTreeMap::new(alloc),
            parts: no_parts(alloc),
            seals: Vec::new(alloc),
            pending: None,
        }
    }

    /// Where the closing stands.
    pub fn phase(&self) -> Phase
        ensures { result ≡ self.now.phase }
    {
        self.phase
    }

    /// The families list of the epoch.
    pub fn list(&self) -> &SharedList
        ensures list { result.now ≡ self.now.list }
        ensures reads { SpellsFamilies result.now }
    {
        let _bytes = self.list.as_slice();
        &self.list
    }

    /// The families list of the next epoch, once the closing of this one has begun; before that the
    /// epoch's own.
    pub fn next(&self) -> &SharedList
        ensures next { result.now ≡ self.now.next }
        ensures reads { SpellsFamilies result.now }
    {
        let next = next_or(&self.next, &self.list);
        let _bytes = next.as_slice();
        next
    }

    /// Begins the closing of `epoch`, with this families list for the next epoch, or with the epoch's own
    /// where none is named. Where it has begun with the same list, nothing changes; lists are the same by
    /// their bytes.
    ///
    /// `WrongEpoch` comes where another epoch is to be closed. In `Running`, `ClosingsOver` comes where
    /// all leaves for closings are used. In the other phases, `OtherList` comes where the closing has
    /// begun with another list. It takes no memory.
    pub fn begin(&mut self, epoch: u64, next: Option<SharedList>) -> Result<(), CloseRefusal>
        ensures answer { result ≡ begin_answer self.old epoch next }
        ensures after { self.new ≡ after_begin self.old next result }
    {
        let current = epoch_of(self.phase);
        if epoch != current {
            return Err(CloseRefusal::WrongEpoch { current });
        }
        let Phase::Running { epoch } = self.phase else {
            return begin_again(&next, &self.next, &self.list);
        };
        if epoch - 1 == u64::from(self.closings) {
            return Err(CloseRefusal::ClosingsOver {
                sealed: epoch - 1,
                limit: u64::from(self.closings),
            });
        }
        self.next = next;
        self.phase = Phase::Half { epoch, taken: 0 };
        Ok(())
    }

    /// Takes the part of the next shard, in `Half`: the part is of its epoch and of the shard `taken`. The
    /// sixteenth makes it `Full`. It takes no memory.
    pub fn take(&mut self, part: FrozenPart)
        requires { IsNextPart self.old (part_view part) }
        ensures { self.new ≡ after_take self.old (part_view part) }
    {
        let epoch = part.epoch;
        let shard = part.shard;
        self.parts[shard as usize] = part;
        self.phase = if shard == 15 {
            Phase::Full { epoch }
        } else {
            Phase::Half {
                epoch,
                taken: shard + 1,
            }
        };
    }

    /// Makes, in `Full`, the closing's text, the table and the log of the epoch, under its families list,
    /// and keeps the seal. Where memory is wanted it stays `Full`, and a later call gives the same.
    pub fn seal(&mut self, alloc: Global) -> Result<(), OutOfMemory>
        requires { IsFull self.old.phase }
        ensures sealed { OnOk result (self.new ≡ after_seal self.old) }
        ensures unchanged { OnErr result (self.new ≡ self.old) }
    {
        let epoch = epoch_of(self.phase);
        let heading = Heading {
            store: self.store,
            leaf: self.leaves - self.closings + (epoch - 1) as u32,
            epoch,
            link: link(&self.seals),
        };
        self.seals.reserve(1)?;
        let families = Vec::from_slice(alloc, self.list.as_slice())?;
        let log = log(alloc, epoch, &self.parts)?;
        note_parts(&mut self.tips, &self.parts)?;
        let pending = Pending::new(alloc, heading, &self.tips, log, families)?;
        self.pending = Some(pending);
        self.parts = no_parts(alloc);
        self.phase = Phase::Sealed { epoch };
        Ok(())
    }

    /// What was sealed, in `Sealed`.
    pub fn sealed(&self) -> &SealedText
        requires { IsSealed self.now.phase }
        ensures { self.now.sealed ≡ Some result.now }
    {
        match &self.pending {
            Some(pending) => &pending.sealed,
            None => unreachable!(),
        }
    }

    /// Goes on from `Sealed` to the next epoch, whose list is the one that the closing began with. It
    /// takes no memory.
    pub fn published(&mut self)
        requires { IsSealed self.old.phase }
        ensures { self.new ≡ after_publish self.old }
    {
        let epoch = epoch_of(self.phase);
        if let Some(pending) = self.pending.take() {
            let _pushed = self.seals.push(pending.into_item());
        }
        if let Some(next) = self.next.take() {
            self.list = next;
        }
        self.phase = Phase::Running { epoch: epoch + 1 };
    }

    /// Hands out all seals, in order. It takes no memory.
    pub fn into_seals(self) -> Seals
        ensures { result ≡ self.seals }
    {
        let Closer { seals, pending, .. } = self;
        Seals::from_vec(with_pending(seals, pending))
    }

    /// There are no more leaves for closings than leaves. The epoch is one that can be closed, or the first
    /// that can't, and each epoch before it has a seal, and it too once it is sealed. Where no closing has
    /// begun, the list for the next epoch is this one's. This is a law of every closer, and the call does
    /// nothing.
    pub fn stands_rightly(&self)
        ensures within { self.now.closings ≤ self.now.leaves }
        ensures seals { SealsFit self.now.closings (length self.now.seals) self.now.phase }
        ensures next { NextFits self.now.list self.now.next self.now.phase }
    {
        let _ = &self.phase;
    }
}

// The seals with the one that isn't published, for which there is room.
fn with_pending(mut seals: Vec<SealItem>, pending: Option<Pending>) -> Vec<SealItem>
    requires { HasRoom pending (vec_len seals) (vec_capacity seals) }
    ensures { result.items ≡ seals.items ++ seals_of pending }
{
    if let Some(pending) = pending {
        let _pushed = seals.push(pending.into_item());
    }
    seals
}

// The epoch that is being closed.
fn epoch_of(phase: Phase) -> u64
    ensures { result ≡ epoch_of phase }
{
    match phase {
        Phase::Running { epoch }
        | Phase::Half { epoch, .. }
        | Phase::Full { epoch }
        | Phase::Sealed { epoch } => epoch,
    }
}

// The list that is named, or else this one.
fn next_or<'a>(next: &'a Option<SharedList>, now: &'a SharedList) -> &'a SharedList
    ensures { result.now ≡ next_or next.now now.now }
{
    match next {
        Some(next) => next,
        None => now,
    }
}

// Whether an order for a closing that has begun names the list that it began with; an order or a closing
// without a list has this one.
fn begin_again(
    asked: &Option<SharedList>,
    begun: &Option<SharedList>,
    list: &SharedList,
) -> Result<(), CloseRefusal>
    ensures { result ≡ begin_with (next_or asked.now list.now) (next_or begun.now list.now) }
{
    if next_or(asked, list).as_slice() == next_or(begun, list).as_slice() {
        Ok(())
    } else {
        Err(CloseRefusal::OtherList)
    }
}

// The digest of the last seal's text, or zeros.
fn link(seals: &[SealItem]) -> [u8; 32]
    ensures { result ≡ link_after seals.now }
{
    match seals.last() {
        Some(seal) => digest(seal.text.as_slice()),
        None => [0; 32],
    }
}

// Sixteen places for parts.
fn no_parts(alloc: Global) -> [FrozenPart; 16] {
    array::from_fn(|_| FrozenPart {
        shard: 0,
        epoch: 0,
        blocks: Vec::new(alloc),
    })
}
