//! The plain store's fields, and its steps one by one.
ghost use Rattle.std.specs.Prelude.{◌≡◌, ◌<◌, ◌≤◌, ◌+◌, ◌^◌, [], length, get_or, replicate, OnOk, OnErr, IfOk};
ghost use Rattle.cp_core.specs.Calls.{booked, new_row, settled};
ghost use Rattle.cp_core.specs.Kept.{Keeps};
ghost use Rattle.cp_core.specs.Life.{items_of, row_item};
ghost use Rattle.cp_core.specs.Machine.{Admissible, after_freeze, appended, SpellsNext, opening, next_or, step, with_content};
ghost use Rattle.cp_core.specs.Requests.{RequestFits, block_of};
ghost use Rattle.cp_core.specs.Store.{SpellsFamilies, StoreFits};
ghost use Rattle.cp_core.specs.View.{state_view, store_view};
ghost use Rattle.cp_core.specs.declared.event.Event.TheVariants.{Begin, Call, Freeze, Publish, Read, Seal};

use crate::booking::{NewCall, new_call};
use crate::rules::settled;
use crate::sealing::seal_at;
use crate::writers::shared;
use crate::{
    Answer, CallRefusal, Chronicle, CloseRefusal, Content, Event, Item, Items, LeavesOver,
    OutOfMemory, Phase, Request, Seals, Shards,
};
use cp_bytes::Bytes;
use cp_families::SharedList;
use std::alloc::Global;

/// The plain store: what it was made with, and how it stands.
#[derive(Drop)]
pub struct Machine {
    /// SHA-256 of the store's key.
    pub(crate) store: [u8; 32],
    /// The text of its first families list, which is that of epoch 1.
    pub(crate) families: SharedList,
    /// The number of leaves for attestations.
    pub(crate) attestations: u64,
    /// The number of leaves for closings.
    pub(crate) closings: u64,
    /// The number of pages of each shard.
    pub(crate) pages: u32,
    /// What happened so far.
    pub(crate) life: Chronicle,
    /// The contents that were put, oldest first.
    pub(crate) contents: Vec<Content>,
    /// Where the closing of an epoch stands.
    pub(crate) phase: Phase,
    /// The number of closings that are published.
    pub(crate) published: u64,
    /// The text of the families list that freezes bring; before a closing begins that of its epoch.
    pub(crate) kept: SharedList,
    /// The number of leaves that are drawn for attestations.
    pub(crate) drawn: u64,
}

/// The number of shards.
const SHARDS: u64 = 16;

/// The phase after this shard, of the sixteen, froze the epoch.
fn after_freeze(epoch: u64, shard: u32) -> Phase
    requires { shard < 16 }
    ensures { result ≡ after_freeze epoch shard }
{
    if shard == 15 {
        Phase::Full { epoch }
    } else {
        Phase::Half {
            epoch,
            taken: shard + 1,
        }
    }
}

/// Sixteen shards without an item.
fn empty_shards(alloc: Global) -> Result<Vec<Items>, OutOfMemory>
    ensures { IfOk result (λ shards. shards.items ≡ replicate 16 []) }
{
    let mut shards = Vec::new(alloc);
    for _ in 0..SHARDS as usize {
        shards.push(Items::new(alloc))?;
    }
    Ok(shards)
}

impl Machine {
    /// A store before any event.
    pub(crate) fn opened(
        alloc: Global,
        store: &[u8; 32],
        families: Vec<u8>,
        attestations: u64,
        closings: u64,
        pages: u32,
    ) -> Result<Machine, OutOfMemory>
        requires families { SpellsFamilies families.items }
        requires leaves { attestations + closings ≤ 2 ^ 32 }
        ensures store { IfOk result (λ machine. store_view machine ≡ record { id = store.now; families = families.items; attestations = attestations; closings = closings; pages = pages }) }
        ensures state { IfOk result (λ machine.
            state_view machine ≡ opening (store_view machine)) }
        ensures fits { IfOk result (λ machine. StoreFits (store_view machine)) }
    {
        let shards = empty_shards(alloc)?;
        let life = Chronicle {
            shards: Shards::from_vec(shards),
            seals: Seals::new(alloc),
        };
        let families = shared(alloc, families)?;
        let kept = families.share()?;
        let store = *store;
        Ok(Machine {
            store,
            families,
            attestations,
            closings,
            pages,
            life,
            contents: Vec::new(alloc),
            phase: Phase::Running { epoch: 1 },
            published: 0,
            kept,
            drawn: 0,
        })
    }

    /// The items of the block's shard.
    fn items_of(&self, block: u64) -> &[Item]
        requires { length self.now.life.shards ≡ 16 }
        ensures { result.now ≡ items_of self.now.life block }
    {
        self.life.shards.as_slice()[(block % SHARDS) as usize].as_slice()
    }

    /// The items of the first shard.
    pub(crate) fn first_items(&self) -> &[Item]
        requires { length self.now.life.shards ≡ 16 }
        ensures { result.now ≡ get_or self.now.life.shards 0 [] }
    {
        self.life.shards.as_slice()[0].as_slice()
    }

    /// What the rules before the leaf answer to a call; nothing where it is to have a new entry.
    fn settle(&self, alloc: Global, request: &Request) -> Result<Option<Answer>, OutOfMemory>
        requires keeps { Keeps (store_view self.now) (state_view self.now) }
        requires fits { RequestFits request.now }
        ensures { let items = items_of self.now.life (block_of request.now) in
            IfOk result (λ answer. answer ≡ settled self.now.store self.now.pages
            self.now.families items self.now.contents.items request.now) }
    {
        let items = self.items_of(request.block());
        settled(
            alloc,
            &self.store,
            self.pages,
            &self.families,
            items,
            self.contents.as_slice(),
            request,
        )
    }

    /// What a new call appends and is answered.
    fn book(
        &self,
        alloc: Global,
        pass: u32,
        request: &Request,
        leaf: u32,
    ) -> Result<NewCall, OutOfMemory>
        requires keeps { Keeps (store_view self.now) (state_view self.now) }
        requires fits { RequestFits request.now }
        ensures booked { IfOk result (λ new. new.booked ≡ booked self.now.store (items_of self.now.life (block_of request.now)) self.now.contents.items request.now leaf) }
        ensures row { IfOk result (λ new. new.row ≡ row_item (new_row (items_of self.now.life (block_of request.now)) pass request.now leaf)) }
    {
        let items = self.items_of(request.block());
        new_call(
            alloc,
            &self.store,
            items,
            self.contents.as_slice(),
            pass,
            request,
            leaf,
        )
    }

    /// Appends a new call's row, takes its leaf and keeps its content.
    fn append(
        &mut self,
        shard: usize,
        row: Item,
        content: Option<Content>,
    ) -> Result<(), OutOfMemory>
        requires shard { shard < length self.old.life.shards }
        requires drawn { self.old.drawn + 1 < 2 ^ 64 }
        ensures life { OnOk result (self.new.life ≡ appended self.old.life shard row) }
        ensures contents { OnOk result (self.new.contents.items ≡ with_content self.old.contents.items content) }
        ensures drawn { OnOk result (self.new.drawn ≡ self.old.drawn + 1) }
        ensures phase { OnOk result (self.new.phase ≡ self.old.phase) }
        ensures published { OnOk result (self.new.published ≡ self.old.published) }
        ensures kept { OnOk result (self.new.kept ≡ self.old.kept) }
        ensures unchanged { OnErr result (state_view self.new ≡ state_view self.old) }
        ensures store { store_view self.new ≡ store_view self.old }
    {
        self.contents.reserve(1)?;
        self.life.shards.push(shard, row)?;
        self.drawn += 1;
        if let Some(content) = content {
            // There is room for it.
            self.contents.push(content)?;
        }
        Ok(())
    }

    /// A call at the block's shard.
    pub(crate) fn call(
        &mut self,
        alloc: Global,
        pass: u32,
        request: Request,
    ) -> Result<Answer, OutOfMemory>
        requires keeps { Keeps (store_view self.old) (state_view self.old) }
        requires fits { StoreFits (store_view self.old) }
        requires request { RequestFits request }
        ensures stepped { IfOk result (λ answer. (answer, state_view self.new) ≡ step (store_view self.old) (state_view self.old) (Call pass request)) }
        ensures unchanged { OnErr result (state_view self.new ≡ state_view self.old) }
        ensures store { store_view self.new ≡ store_view self.old }
    {
        if let Some(answer) = self.settle(alloc, &request)? {
            return Ok(answer);
        }
        if self.drawn >= self.attestations {
            return Ok(Answer::CallRefused(CallRefusal::LeavesOver(LeavesOver {
                drawn: self.drawn,
                limit: self.attestations,
            })));
        }
        let NewCall { booked, row } = self.book(alloc, pass, &request, self.drawn as u32)?;
        let shard = (request.block() % SHARDS) as usize;
        self.append(shard, row, request.into_content())?;
        Ok(Answer::Booked(booked))
    }

    /// The list that a closing brings for the next epoch, where this text names one. Where none does, it
    /// is the kept one, which is the epoch's until a closing begins.
    fn next_list(&self, alloc: Global, next: Option<Bytes>) -> Result<SharedList, OutOfMemory>
        requires { SpellsNext next }
        ensures { IfOk result (λ list. list ≡ next_or next self.now.kept) }
    {
        match next {
            Some(text) => shared(alloc, text.into_vec()),
            None => self.kept.share(),
        }
    }

    /// The closing of the epoch begins, with this text of the next epoch's families list.
    pub(crate) fn begin(
        &mut self,
        alloc: Global,
        next: Option<Bytes>,
    ) -> Result<Answer, OutOfMemory>
        requires keeps { Keeps (store_view self.old) (state_view self.old) }
        requires next { SpellsNext next }
        ensures stepped { IfOk result (λ answer. (answer, state_view self.new)
            ≡ step (store_view self.old) (state_view self.old) (Begin next)) }
        ensures unchanged { OnErr result (state_view self.new ≡ state_view self.old) }
        ensures store { store_view self.new ≡ store_view self.old }
    {
        let Phase::Running { epoch } = self.phase else {
            return Ok(Answer::NotNow { phase: self.phase });
        };
        let sealed = epoch - 1;
        if sealed == self.closings {
            return Ok(Answer::CloseRefused(CloseRefusal::ClosingsOver {
                sealed,
                limit: self.closings,
            }));
        }
        self.kept = self.next_list(alloc, next)?;
        self.phase = Phase::Half { epoch, taken: 0 };
        Ok(Answer::Done)
    }

    /// A shard ends the epoch.
    pub(crate) fn freeze(&mut self, shard: u32) -> Result<Answer, OutOfMemory>
        requires keeps { Keeps (store_view self.old) (state_view self.old) }
        requires shard { shard < 16 }
        ensures stepped { IfOk result (λ answer. (answer, state_view self.new) ≡ step (store_view self.old) (state_view self.old) (Freeze shard)) }
        ensures unchanged { OnErr result (state_view self.new ≡ state_view self.old) }
        ensures store { store_view self.new ≡ store_view self.old }
    {
        let Phase::Half { epoch, taken } = self.phase else {
            return Ok(Answer::NotNow { phase: self.phase });
        };
        if shard != taken {
            return Ok(Answer::NotNow { phase: self.phase });
        }
        let next = self.kept.share()?;
        self.life
            .shards
            .push(shard as usize, Item::Frozen { epoch, next })?;
        self.phase = after_freeze(epoch, shard);
        Ok(Answer::Done)
    }

    /// The closing's text is made.
    pub(crate) fn seal(&mut self, alloc: Global) -> Result<Answer, OutOfMemory>
        requires keeps { Keeps (store_view self.old) (state_view self.old) }
        requires fits { StoreFits (store_view self.old) }
        ensures stepped { IfOk result (λ answer. (answer, state_view self.new) ≡ step (store_view self.old) (state_view self.old) Seal) }
        ensures unchanged { OnErr result (state_view self.new ≡ state_view self.old) }
        ensures store { store_view self.new ≡ store_view self.old }
    {
        let Phase::Full { epoch } = self.phase else {
            return Ok(Answer::NotNow { phase: self.phase });
        };
        let seal = seal_at(alloc, self, epoch)?;
        self.life.seals.push(seal)?;
        self.phase = Phase::Sealed { epoch };
        Ok(Answer::Done)
    }

    /// The closing is published.
    pub(crate) fn publish(&mut self) -> Answer
        requires keeps { Keeps (store_view self.old) (state_view self.old) }
        requires fits { StoreFits (store_view self.old) }
        ensures stepped { (result, state_view self.new) ≡ step (store_view self.old) (state_view self.old) Publish }
        ensures store { store_view self.new ≡ store_view self.old }
    {
        let Phase::Sealed { epoch } = self.phase else {
            return Answer::NotNow { phase: self.phase };
        };
        self.published = epoch;
        self.phase = Phase::Running { epoch: epoch + 1 };
        Answer::Done
    }

    /// The text of an epoch is asked for.
    pub(crate) fn read(&self, epoch: u64) -> Answer
        ensures { (result, state_view self.now) ≡ step (store_view self.now) (state_view self.now) (Read epoch) }
    {
        if epoch <= self.published {
            Answer::Text(epoch)
        } else {
            Answer::NotClosed {
                count: self.published,
            }
        }
    }

    /// The event, in whatever phase.
    pub(crate) fn step(&mut self, alloc: Global, event: Event) -> Result<Answer, OutOfMemory>
        requires keeps { Keeps (store_view self.old) (state_view self.old) }
        requires fits { StoreFits (store_view self.old) }
        requires admissible { Admissible (store_view self.old) event }
        ensures stepped { IfOk result (λ answer. (answer, state_view self.new) ≡ step (store_view self.old) (state_view self.old) event) }
        ensures unchanged { OnErr result (state_view self.new ≡ state_view self.old) }
        ensures store { store_view self.new ≡ store_view self.old }
    {
        match event {
            Event::Call { pass, request } => self.call(alloc, pass, request),
            Event::Begin { next } => self.begin(alloc, next),
            Event::Freeze { shard } => self.freeze(shard),
            Event::Seal => self.seal(alloc),
            Event::Publish => Ok(self.publish()),
            Event::Read { epoch } => Ok(self.read(epoch)),
        }
    }
}
