//! A leaf for a new call, with all that could still refuse it.
ghost use Rattle.std.specs.Prelude.{ℕ, ◌≡◌, ◌≤◌, ◌<◌, ◌^◌, ◌++◌, ◌∷◌, [], cond, length, None, Some, IfOk, IfErr, OnOk, OnErr};
ghost use Rattle.std.specs.BTreeMap as tree;
ghost use Rattle.cp_pages.specs.Pages.{IsPlaced, pages_for, free_pages};
ghost use Rattle.cp_shard.specs.Places.{key_cmp};
ghost use Rattle.cp_shard.specs.Refusals.{IsLate};
ghost use Rattle.cp_shard.specs.Steps.{IsNewLeaf};
ghost use Rattle.cp_shard.specs.declared.key.Key.{Key};

use crate::key::Key;
use cp_core::{CallRefusal, LeafSource};
use cp_pages::{Pool, Run};
use std::collections::BTreeMap;
use std::collections::btree_map::Entry;

// Draws a leaf. A refusal draws none.
fn draw_leaf<L: LeafSource>(leaves: &mut L, limit: u64) -> Result<u32, CallRefusal>
    requires { limit ≤ 2 ^ 32 }
    ensures below { IfOk result (λ leaf. leaf < limit) }
    ensures once { IfOk result (IsNewLeaf (L.given leaves.old)) }
    ensures given { IfOk result (λ leaf. L.given leaves.new ≡ L.given leaves.old ++ leaf ∷ []) }
    ensures none_given { OnErr result (L.given leaves.new ≡ L.given leaves.old) }
    ensures found { L.found leaves.old ≤ L.found leaves.new }
    ensures fixed { L.fixed leaves.new ≡ L.fixed leaves.old }
    ensures late { IfErr result (IsLate 0 0 limit (L.found leaves.new)) }
{
    match leaves.draw(limit) {
        Ok(leaf) => Ok(leaf as u32),
        Err(over) => Err(CallRefusal::LeavesOver(over)),
    }
}

/// Draws a leaf, and keeps where the call stands with it. A refusal leaves the places as they
/// were.
pub fn draw<L: LeafSource>(
    places: &mut BTreeMap<Key, usize>,
    key: Key,
    place: usize,
    leaves: &mut L,
    limit: u64,
) -> Result<u32, CallRefusal>
    requires new { tree.get key_cmp places.old key ≡ None }
    requires limit { limit ≤ 2 ^ 32 }
    ensures places { OnOk result
        ((k : Key) → tree.get key_cmp places.new k ≡ cond (tree.is_at (key_cmp key) k) (Some place)
        (tree.get key_cmp places.old k)) }
    ensures below { IfOk result (λ leaf. leaf < limit) }
    ensures once { IfOk result (IsNewLeaf (L.given leaves.old)) }
    ensures given { IfOk result (λ leaf. L.given leaves.new ≡ L.given leaves.old ++ leaf ∷ []) }
    ensures unchanged { OnErr result
        ((k : Key) → tree.get key_cmp places.new k ≡ tree.get key_cmp places.old k) }
    ensures none_given { OnErr result (L.given leaves.new ≡ L.given leaves.old) }
    ensures found { L.found leaves.old ≤ L.found leaves.new }
    ensures fixed { L.fixed leaves.new ≡ L.fixed leaves.old }
    ensures late { IfErr result (IsLate 0 0 limit (L.found leaves.new)) }
{
    match places.entry(key) {
        Err(_) => Err(CallRefusal::OutOfMemory),
        Ok(Entry::Occupied(_)) => unreachable!(),
        Ok(Entry::Vacant(held)) => match draw_leaf(leaves, limit) {
            Err(refusal) => Err(refusal),
            Ok(leaf) => {
                held.insert(place);
                Ok(leaf)
            }
        },
    }
}

// Places a content and draws a leaf. A refusal gives the pages back, and leaves the pool as it was.
fn place_leaf<L: LeafSource>(
    pool: &mut Pool,
    content: &[u8],
    leaves: &mut L,
    limit: u64,
) -> Result<(u32, Run), CallRefusal>
    requires limit { limit ≤ 2 ^ 32 }
    requires len { length content.now ≤ 2 ^ 32 }
    ensures below { IfOk result (λ r. r.0 < limit) }
    ensures once { IfOk result (λ r. IsNewLeaf (L.given leaves.old) r.0) }
    ensures given { IfOk result (λ r. L.given leaves.new ≡ L.given leaves.old ++ r.0 ∷ []) }
    ensures placed { IfOk result (λ r. IsPlaced pool.old pool.new content.now r.1) }
    ensures fits { OnOk result (pages_for (length content.now) ≤ free_pages pool.old) }
    ensures pool { OnErr result (pool.new ≡ pool.old) }
    ensures none_given { OnErr result (L.given leaves.new ≡ L.given leaves.old) }
    ensures found { L.found leaves.old ≤ L.found leaves.new }
    ensures fixed { L.fixed leaves.new ≡ L.fixed leaves.old }
    ensures late { IfErr result
        (IsLate (free_pages pool.old) (pages_for (length content.now)) limit (L.found leaves.new)) }
{
    match pool.place(content) {
        Err(full) => Err(CallRefusal::PoolFull {
            free: full.free,
            need: full.need,
        }),
        Ok(run) => match draw_leaf(leaves, limit) {
            Err(refusal) => {
                pool.give_back(run);
                Err(refusal)
            }
            Ok(leaf) => Ok((leaf, run)),
        },
    }
}

/// Makes room for where the call stands, places a put's content, draws a leaf, and keeps the place. A
/// refusal gives the pages back, and leaves the places and the pool as they were.
pub fn place_and_draw<L: LeafSource>(
    pool: &mut Pool,
    content: &[u8],
    places: &mut BTreeMap<Key, usize>,
    key: Key,
    place: usize,
    leaves: &mut L,
    limit: u64,
) -> Result<(u32, Run), CallRefusal>
    requires new { tree.get key_cmp places.old key ≡ None }
    requires limit { limit ≤ 2 ^ 32 }
    requires len { length content.now ≤ 2 ^ 32 }
    ensures places { OnOk result
        ((k : Key) → tree.get key_cmp places.new k ≡ cond (tree.is_at (key_cmp key) k) (Some place)
        (tree.get key_cmp places.old k)) }
    ensures below { IfOk result (λ r. r.0 < limit) }
    ensures once { IfOk result (λ r. IsNewLeaf (L.given leaves.old) r.0) }
    ensures given { IfOk result (λ r. L.given leaves.new ≡ L.given leaves.old ++ r.0 ∷ []) }
    ensures placed { IfOk result (λ r. IsPlaced pool.old pool.new content.now r.1) }
    ensures fits { OnOk result (pages_for (length content.now) ≤ free_pages pool.old) }
    ensures unchanged { OnErr result
        ((k : Key) → tree.get key_cmp places.new k ≡ tree.get key_cmp places.old k) }
    ensures pool { OnErr result (pool.new ≡ pool.old) }
    ensures none_given { OnErr result (L.given leaves.new ≡ L.given leaves.old) }
    ensures found { L.found leaves.old ≤ L.found leaves.new }
    ensures fixed { L.fixed leaves.new ≡ L.fixed leaves.old }
    ensures late { IfErr result
        (IsLate (free_pages pool.old) (pages_for (length content.now)) limit (L.found leaves.new)) }
{
    match places.entry(key) {
        Err(_) => Err(CallRefusal::OutOfMemory),
        Ok(Entry::Occupied(_)) => unreachable!(),
        Ok(Entry::Vacant(held)) => match place_leaf(pool, content, leaves, limit) {
            Err(refusal) => Err(refusal),
            Ok(drawn) => {
                held.insert(place);
                Ok(drawn)
            }
        },
    }
}
