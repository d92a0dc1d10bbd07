//! A shard to be asked.
ghost use Rattle.std.specs.Prelude.{◌≡◌, IfSome};
ghost use Rattle.cp_shard.specs.Steps.{IsByWriter};

use cp_bytes::digest;
use cp_core::Counter;
use cp_families::{ListText, SharedList, VerifiedPut, family_of, verify_put};
use cp_shard::Shard;
use cp_statements::{Envelope, GetRequest, PutRequest};
use std::alloc::Global;

/// The shard's index.
const INDEX: u64 = 5;

/// The leaves that there are to draw.
const LIMIT: u64 = 4_294_967_296;

/// The store's id.
pub const STORE: [u8; 32] = [7; 32];

/// The number of the `n`-th of the shard's blocks.
pub fn block_at(n: u64) -> u64 {
    n.wrapping_mul(16).wrapping_add(INDEX)
}

/// Shard 5 of a store, with a counter for its leaves.
#[derive(Drop)]
pub struct Store {
    shard: Shard,
    leaves: Counter,
    id: [u8; 32],
    ghost same_id: { shard.store ≡ id },
    ghost same_index: { shard.index ≡ 5 },
}

impl Store {
    /// One with no item, with so many pages and this families list; none where memory is wanted or the
    /// bytes spell no list.
    pub fn new(alloc: Global, pages: u32, list: &[u8]) -> Option<Store> {
        let list = ListText::read(Vec::from_slice(alloc, list).ok()?).ok()?;
        let first = SharedList::new(alloc, list).ok()?;
        let shard = Shard::new(alloc, STORE, 5, pages, 4, first).ok()?;
        Some(Store {
            shard,
            leaves: Counter::new(),
            id: STORE,
        })
    }

    /// The number of its items.
    pub fn items(&self) -> u64 {
        self.shard.items()
    }

    /// Whether client 2 is answered a get of the block.
    pub fn get(&mut self, alloc: Global, block: u64, nonce: u64) -> bool {
        if block % 16 != INDEX {
            return false;
        }
        let request = GetRequest {
            store: self.id,
            epoch: self.shard.current(),
            block,
            client: 2,
            nonce,
        };
        match self.shard.get(alloc, &mut self.leaves, LIMIT, 0, &request) {
            Ok(_booked) => true,
            Err(_refusal) => false,
        }
    }

    /// The put of the envelope, where a writer of the shard's list signed it.
    pub fn verified<'a>(&self, envelope: &Envelope<'a>) -> Option<VerifiedPut<'a>>
        ensures { IfSome result (IsByWriter self.now.shard) }
    {
        let asked = PutRequest::read(envelope.text).ok()?;
        let key = self.shard.key_of(family_of(asked.block), asked.client)?;
        let put = verify_put(&self.id, &key, envelope).ok()?;
        let request = put.request();
        if request.block != asked.block || request.client != asked.client {
            return None;
        }
        Some(put)
    }

    /// Whether the put of this content is answered.
    pub fn put(&mut self, alloc: Global, put: &VerifiedPut, content: &[u8]) -> bool
        requires { IsByWriter self.old.shard put.now }
    {
        let request = put.request();
        let right = request.store == self.id
            && request.block % 16 == INDEX
            && digest(content) == request.content
            && content.len() <= 65536;
        if !right {
            return false;
        }
        match self
            .shard
            .put(alloc, &mut self.leaves, LIMIT, 0, put, content)
        {
            Ok(_booked) => true,
            Err(_refusal) => false,
        }
    }
}
