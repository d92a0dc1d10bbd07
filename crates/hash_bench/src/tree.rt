//! A tree over one-time keys that are made by the plain bodies, written out after RFC 8554, 5.3 and 5.4.
ghost use Rattle.std.specs.Prelude.{◌<◌};

use crate::task::{ID, SEED};
use lms_ots::{OtsType, plain, tagged};
use lms_tree::Height;
use sha2::{Digest, Sha256};
use std::alloc::Global;
use std::thread;
use std::thread::Threads;

/// All nodes of a tree, each at its number.
#[derive(Drop)]
pub struct Tree {
    ots: OtsType,
    nodes: Vec<[u8; 32]>,
}

fn leaf_node(number: u32, key: &[u8; 32]) -> [u8; 32] {
    let mut hasher = Sha256::new_with_prefix(&tagged(&ID, number, 0x8282));
    hasher.update(key);
    hasher.finalize()
}

fn inner_node(number: u32, left: &[u8; 32], right: &[u8; 32]) -> [u8; 32] {
    let mut hasher = Sha256::new_with_prefix(&tagged(&ID, number, 0x8383));
    hasher.update(left);
    hasher.update(right);
    hasher.finalize()
}

impl Tree {
    /// The tree whose leaves so many workers make, or nothing where memory is wanted.
    pub fn make_by<R: Threads + Sync>(
        rt: &R,
        alloc: Global,
        workers: usize,
        height: Height,
        ots: OtsType,
    ) -> Option<Tree>
        requires { 0 < workers }
    {
        let leaves = height.leaves();
        let mut nodes = vec![in alloc; [0u8; 32]; 2 * leaves as usize].ok()?;
        thread::for_each_mut(
            rt,
            nodes.as_mut_slice(),
            workers,
            &|number, node| {
                if let Ok(number) = u32::try_from(number)
                    && number >= leaves
                {
                    let key = plain::ots_public(ots, &ID, number - leaves, &SEED);
                    *node = leaf_node(number, &key);
                }
            },
        );
        let mut tree = Tree { ots, nodes };
        tree.join(leaves);
        Some(tree)
    }

    /// The node of this number, or zeros where there is none.
    pub fn node(&self, number: u32) -> [u8; 32] {
        match self.nodes.get(number as usize) {
            Some(node) => *node,
            None => [0; 32],
        }
    }

    // Computes the nodes above the leaves.
    fn join(&mut self, leaves: u32) {
        for number in (1..leaves).rev() {
            let left = self.node(number.wrapping_mul(2));
            let right = self.node(number.wrapping_mul(2).wrapping_add(1));
            if let Some(node) = self.nodes.get_mut(number as usize) {
                *node = inner_node(number, &left, &right);
            }
        }
    }

    /// Writes the one-time signature of a text by a leaf.
    pub fn sign(&self, leaf: u32, text: &[u8], out: &mut [u8]) {
        if out.len() == self.ots.sig_len() {
            plain::ots_sign(self.ots, &ID, leaf, &SEED, text, out);
        }
    }

    /// Whether a leaf's one-time signature leads to the root, by the path that the tree has.
    pub fn verify(&self, leaves: u32, leaf: u32, text: &[u8], sig: &[u8]) -> bool {
        let Some(key) = plain::ots_candidate(self.ots, &ID, leaf, text, sig) else {
            return false;
        };
        let mut number = leaves.wrapping_add(leaf);
        let mut node = leaf_node(number, &key);
        for _ in 0..32 {
            if number <= 1 {
                break;
            }
            let other = self.node(number ^ 1);
            let parent = if number % 2 == 1 {
                inner_node(number / 2, &other, &node)
            } else {
                inner_node(number / 2, &node, &other)
            };
            node = parent;
            number /= 2;
        }
        node == self.node(1)
    }
}
