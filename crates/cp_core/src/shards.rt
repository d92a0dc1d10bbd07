//! The lives of all shards.
ghost use Rattle.std.specs.Prelude.{◌≡◌, ◌++◌, ◌∷◌, [], ◌<◌, length, get_or, set, replicate, OnOk, OnErr, IfOk};

use crate::{Item, Items, OutOfMemory};
use std::alloc::Global;
use std::marker::Model;

/// The items of each shard, which contracts see as a list of lists.
#[derive(Drop)]
pub struct Shards {
    shards: Vec<Items>,
}

impl Model for Shards {
    ghost use Rattle.std.specs.Prelude.{List};
    ghost use Rattle.cp_core.specs.declared.item.Item.{Item};

    ghost Value = { List (List Item) };

    ghost view = { λ a. a.shards.items };
}

impl Shards {
    /// Takes over the vector. It takes no memory.
    pub fn from_vec(shards: Vec<Items>) -> Shards
        ensures { result ≡ shards.items }
    {
        Shards { shards }
    }

    /// The items of each shard.
    pub fn as_slice(&self) -> &[Items]
        ensures { result.now ≡ self.now }
    {
        self.shards.as_slice()
    }

    /// Gives the vector back. It takes no memory.
    pub fn into_vec(self) -> Vec<Items>
        ensures { result.items ≡ self }
    {
        self.shards
    }

    /// Appends an item to a shard. Where memory is wanted, all stay as they were.
    pub fn push(&mut self, shard: usize, item: Item) -> Result<(), OutOfMemory>
        requires { shard < length self.old }
        ensures pushed { OnOk result (self.new ≡ set self.old shard (get_or self.old shard [] ++ item ∷ [])) }
        ensures unchanged { OnErr result (self.new ≡ self.old) }
    {
        self.shards[shard].push(item)
    }
}
