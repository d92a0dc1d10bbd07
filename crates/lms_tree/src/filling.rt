//! Filling the array of a tree's nodes, from the leaves upwards (RFC 8554, 5.3 and Appendix C).
ghost use Rattle.std.specs.Prelude.{◌≡◌, ℕ, ◌+◌, ◌-◌, ◌*◌, ◌/◌, ◌%◌, ◌^◌, ◌<◌, ◌≤◌, List, [], length, slice_index_or};
ghost use Rattle.lms_ots.specs.Signing.{one_time_key};
ghost use Rattle.lms_tree.specs.Parameters.{levels_of};
ghost use Rattle.lms_tree.specs.Tree.{leaf_node};
ghost use Rattle.lms_tree.specs.Kept.{HoldsLeaves, HoldsNodes, IsFilledFrom};

use crate::height::Height;
use crate::nodes::{inner_node, leaf_node};
use lms_ots::{OtsType, ots_publics};
use std::thread;
use std::thread::Threads;

// The nodes over the one-time public keys of the four leaves from `i` on.
#[tactic(auto, using(crate::proofs::Heights::heights))]
fn four_leaves(t: OtsType, height: Height, id: &[u8; 16], seed: &[u8; 32], i: u32) -> [[u8; 32]; 4]
    requires { i + 4 ≤ 2 ^ levels_of height }
    ensures { (j : ℕ) → j < 4 → slice_index_or result j []
        ≡ leaf_node id.now (2 ^ levels_of height + (i + j)) (one_time_key t id.now (i + j) seed.now) }
{
    let keys = ots_publics(t, id, i, seed);
    let r = height.leaves() + i;
    [
        leaf_node(id, r, &keys[0]),
        leaf_node(id, r + 1, &keys[1]),
        leaf_node(id, r + 2, &keys[2]),
        leaf_node(id, r + 3, &keys[3]),
    ]
}

// Writes four nodes from `i` on.
fn put_four(nodes: &mut [[u8; 32]], i: usize, four: &[[u8; 32]; 4])
    requires { i + 4 ≤ length nodes.old }
    ensures four { (j : ℕ) (d : List ℕ) → j < 4 → slice_index_or nodes.new (i + j) d ≡ slice_index_or four.now j [] }
    ensures before { (k : ℕ) (d : List ℕ) → k < i → slice_index_or nodes.new k d ≡ slice_index_or nodes.old k d }
{
    nodes[i] = four[0];
    nodes[i + 1] = four[1];
    nodes[i + 2] = four[2];
    nodes[i + 3] = four[3];
}

// Fills in the leaves from `first` on, four at a time.
#[tactic(auto, using(crate::proofs::Heights::heights))]
fn fill_from(
    t: OtsType,
    height: Height,
    id: &[u8; 16],
    seed: &[u8; 32],
    first: usize,
    nodes: &mut [[u8; 32]],
)
    requires within { first + length nodes.old ≤ 2 ^ levels_of height }
    requires fours { length nodes.old % 4 ≡ 0 }
    ensures { (k : ℕ) (d : List ℕ) → k < length nodes.old → slice_index_or nodes.new k d
        ≡ leaf_node id.now (2 ^ levels_of height + (first + k)) (one_time_key t id.now (first + k) seed.now) }
{
    'groups: for group in 0..nodes.len() / 4 {
        let at = 4 * group;
        let four = four_leaves(t, height, id, seed, (first + at) as u32);
        put_four(nodes, at, &four);
    }
}

// Fills in the leaves.
#[tactic(auto, using(crate::proofs::Heights::heights))]
fn fill_leaves(t: OtsType, height: Height, id: &[u8; 16], seed: &[u8; 32], nodes: &mut [[u8; 32]])
    requires { length nodes.old ≡ 2 ^ levels_of height }
    ensures { HoldsLeaves (record { height = height; ots = t; id = id.now; seed = seed.now }) nodes.new }
{
    fill_from(t, height, id, seed, 0, nodes);
}

// Fills in the leaves, in at most `workers` threads, each of which takes whole groups of four.
#[tactic(auto, using(crate::proofs::Heights::heights))]
fn fill_leaves_by<R: Threads + Sync>(
    rt: &R,
    workers: usize,
    t: OtsType,
    height: Height,
    id: &[u8; 16],
    seed: &[u8; 32],
    nodes: &mut [[u8; 32]],
)
    requires some { 0 < workers }
    requires long { length nodes.old ≡ 2 ^ levels_of height }
    ensures { HoldsLeaves (record { height = height; ots = t; id = id.now; seed = seed.now }) nodes.new }
{
    let groups = (nodes.len() / 4).div_ceil(workers);
    thread::for_each_chunk_mut(
        rt,
        nodes,
        4 * groups,
        &|first, part| fill_from(t, height, id, seed, first, part),
    );
}

// Fills in the nodes above the leaves.
#[tactic(auto, using(crate::proofs::Heights::heights))]
fn fill_inner(t: OtsType, height: Height, id: &[u8; 16], seed: &[u8; 32], nodes: &mut [[u8; 32]])
    requires long { length nodes.old ≡ 2 * 2 ^ levels_of height }
    requires leaves { IsFilledFrom (record { height = height; ots = t; id = id.now; seed = seed.now })
        (2 ^ levels_of height) nodes.old }
    ensures { HoldsNodes (record { height = height; ots = t; id = id.now; seed = seed.now }) nodes.new }
{
    let mut r = height.leaves();
    while r > 1 {
        r -= 1;
        let at = r as usize;
        let parent = inner_node(id, r, &nodes[2 * at], &nodes[2 * at + 1]);
        nodes[at] = parent;
    }
}

// Fills in all nodes, each at its number.
#[tactic(auto, using(crate::proofs::Heights::heights))]
pub(crate) fn fill(
    t: OtsType,
    height: Height,
    id: &[u8; 16],
    seed: &[u8; 32],
    nodes: &mut [[u8; 32]],
)
    requires { length nodes.old ≡ 2 * 2 ^ levels_of height }
    ensures { HoldsNodes (record { height = height; ots = t; id = id.now; seed = seed.now }) nodes.new }
{
    fill_leaves(t, height, id, seed, &mut nodes[height.leaves() as usize..]);
    fill_inner(t, height, id, seed, nodes);
}

// Fills in all nodes, each at its number, the leaves in at most `workers` threads.
#[tactic(auto, using(crate::proofs::Heights::heights))]
pub(crate) fn fill_by<R: Threads + Sync>(
    rt: &R,
    workers: usize,
    t: OtsType,
    height: Height,
    id: &[u8; 16],
    seed: &[u8; 32],
    nodes: &mut [[u8; 32]],
)
    requires some { 0 < workers }
    requires long { length nodes.old ≡ 2 * 2 ^ levels_of height }
    ensures { HoldsNodes (record { height = height; ots = t; id = id.now; seed = seed.now }) nodes.new }
{
    fill_leaves_by(
        rt,
        workers,
        t,
        height,
        id,
        seed,
        &mut nodes[height.leaves() as usize..],
    );
    fill_inner(t, height, id, seed, nodes);
}
