//! A shard of a store.
ghost use Rattle.std.specs.Prelude.{ℕ, ◌≡◌, ◌≤◌, ◌<◌, ◌^◌, [], ◌∷◌, ◌++◌, length, get_or, IfOk};
ghost use Rattle.cp_core.specs.Calls.{epoch_now};
ghost use Rattle.cp_core.specs.Frozen.{frozen_part, part_view};
ghost use Rattle.cp_core.specs.Life.{list_text};
ghost use Rattle.cp_core.specs.Store.{list_at};
ghost use Rattle.cp_families.specs.Families.{key_of};
ghost use Rattle.cp_core.specs.declared.item.Item.TheVariants.{Frozen};

use crate::call::Call;
use crate::gathering::gather;
use crate::key::Key;
use crate::row_tip::RowTip;
use crate::standing::Standing;
use cp_bytes::OutOfMemory;
use cp_core::{FrozenPart, Item, Items};
use cp_families::SharedList;
use cp_pages::Pool;
use lms_tree::PublicKey;
use std::alloc::Global;
use std::collections::BTreeMap;
use std::marker::Model;

/// One of the sixteen shards of a store (this project's own): its items, how each block stands, each
/// block's latest content, and the calls of the epoch that it is in. Contracts see its items and
/// contents.
#[derive(Drop)]
pub struct Shard {
    // SHA-256 of the store's key.
    pub(crate) store: [u8; 32],
    // Which of the sixteen it is.
    pub(crate) index: u32,
    // The pages of the pool.
    pub(crate) pages: u32,
    // How many freezes there is room for.
    pub(crate) closings: u32,
    // The families list of epoch 1.
    pub(crate) first: SharedList,
    // The epoch that it is in.
    pub(crate) epoch: u64,
    // The items, oldest first, with room for the freezes to come.
    pub(crate) items: Vec<Item>,
    // The block of each row among them, and its tip after the row.
    pub(crate) row_tips: Vec<RowTip>,
    // The number of the rows before each freeze, with room for the freezes to come.
    pub(crate) row_counts: Vec<usize>,
    // This epoch's calls, oldest first.
    pub(crate) calls: Vec<Call>,
    // Where each of them stands among them.
    pub(crate) places: BTreeMap<Key, usize>,
    // Each block's tip and the run of its latest content.
    pub(crate) standings: BTreeMap<u64, Standing>,
    // The contents.
    pub(crate) pool: Pool,
}

impl Model for Shard {
    ghost use Rattle.cp_shard.specs.Model.{ShardModel};

    ghost Value = { ShardModel };

    ghost use Rattle.std.specs.Vec.{vec_capacity};
    ghost use Rattle.cp_shard.specs.Contents.{contents_of, put_blocks};
    ghost use Rattle.cp_shard.specs.Standings.{run_at, content_in};
    ghost use Rattle.cp_shard.specs.Kept.{ShardKeeps};
    ghost use Rattle.cp_shard.specs.Gathered.{KeepsRows};

    ghost view = { λ s. record { store = s.store; index = s.index; pages = s.pages; closings = s.closings; first = s.first; items = s.items.items; contents = contents_of (put_blocks s.items.items) (λ b. content_in s.pool (run_at s.standings b)) } };

    ghost invariant = { λ s. ShardKeeps s.store s.index s.pages s.closings s.epoch (vec_capacity s.items) s.items.items s.calls.items s.standings s.places s.pool × KeepsRows s.items.items s.row_tips.items s.row_counts.items s.closings (vec_capacity s.row_counts) };
}

impl Shard {
    /// A shard in epoch 1, whose families list is `first`, with no item, with so many free pages of
    /// 1,024 bytes each, and with room for the items of `closings` freezes, which each later growth keeps.
    pub fn new(
        alloc: Global,
        store: [u8; 32],
        index: u32,
        pages: u32,
        closings: u32,
        first: SharedList,
    ) -> Result<Shard, OutOfMemory>
        ensures { IfOk result (λ s. s ≡ record {
          store = store;
          index = index;
          pages = pages;
          closings = closings;
          first = first;
          items = [];
          contents = [];
        }) }
    {
        let items = Vec::with_capacity(alloc, closings as usize)?;
        let row_counts = Vec::with_capacity(alloc, closings as usize)?;
        let pool = Pool::new(alloc, pages)?;
        Ok(Shard {
            store,
            index,
            pages,
            closings,
            first,
            epoch: 1,
            items,
            row_tips: Vec::new(alloc),
            row_counts,
            calls: Vec::new(alloc),
            places: BTreeMap::new(alloc),
            standings: BTreeMap::new(alloc),
            pool,
        })
    }

    /// The epoch that the shard is in: 1 and the number of its freezes.
    pub fn current(&self) -> u64
        ensures { result ≡ epoch_now self.now.items }
    {
        self.epoch
    }

    /// The number of items.
    pub fn items(&self) -> u64
        ensures { result ≡ length self.now.items }
    {
        self.items.len() as u64
    }

    /// Hands the items out. It takes no memory.
    pub fn into_items(self) -> Items
        ensures { result ≡ self.items }
    {
        Items::from_vec(self.items)
    }

    /// Ends the epoch and starts the next one, whose families list is `next`. It takes no memory.
    pub fn freeze(&mut self, next: SharedList)
        requires { epoch_now self.old.items ≤ self.old.closings }
        ensures { self.new ≡ record self.old {
          items = self.old.items ++ Frozen (epoch_now self.old.items) next ∷ [];
        } }
    {
        // The share holds a list that reads; asked, it says so to the proof.
        let _ = next.as_slice();
        let epoch = self.epoch;
        self.items.push_reserved(Item::Frozen { epoch, next });
        self.row_counts.push_reserved(self.row_tips.len());
        self.places.clear();
        self.calls.clear();
        self.epoch += 1;
    }

    // The families list of the epoch that the shard is in. It lies in the last freeze's item, of which
    // no share is kept: a further share may be refused.
    fn list(&self) -> &SharedList
        ensures { result.now
            ≡ list_text self.now.first self.now.items (epoch_now self.now.items) }
    {
        let freezes = self.row_counts.len();
        if freezes == 0 {
            return &self.first;
        }
        let last = freezes - 1;
        match &self.items[self.row_counts[last] + last] {
            Item::Frozen { next, .. } => next,
            Item::Row { .. } => unreachable!(),
        }
    }

    /// The key of the client in the family, by the families list of the epoch that the shard is in; none
    /// exactly where that list has no such row. It takes no memory.
    pub fn key_of(&self, family: u32, client: u32) -> Option<PublicKey>
        ensures { result
            ≡ key_of (list_at self.now.first self.now.items (epoch_now self.now.items))
            family client }
    {
        self.list().families().key_of(family, client)
    }

    /// A copy of the entries of an epoch that has ended, with the tips of their blocks at its end. No
    /// item of another epoch is looked at.
    pub fn frozen(&self, alloc: Global, epoch: u64) -> Result<FrozenPart, OutOfMemory>
        requires { epoch < epoch_now self.now.items }
        ensures { IfOk result (λ part.
            part_view part ≡ frozen_part self.now.index self.now.items epoch) }
    {
        let before = epoch.saturating_sub(1);
        let start = rows_through(&self.row_counts, before);
        let end = rows_through(&self.row_counts, epoch);
        let freezes = before as usize;
        let blocks = gather(alloc, &self.items, &self.row_tips, start, end, freezes)?;
        Ok(FrozenPart {
            shard: self.index,
            epoch,
            blocks,
        })
    }
}

// The number of the rows up to the end of an epoch that has ended; none came before the first one.
fn rows_through(row_counts: &[usize], epoch: u64) -> usize
    requires { epoch ≤ length row_counts.now }
    ensures { result ≡ get_or (0 ∷ row_counts.now) epoch 0 }
{
    if epoch == 0 {
        0
    } else {
        row_counts[(epoch - 1) as usize]
    }
}
