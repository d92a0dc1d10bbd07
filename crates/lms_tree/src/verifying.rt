//! Whether a signature verifies (RFC 8554, 5.4.2).
ghost use Rattle.std.specs.Prelude.{◌≡◌, ◌+◌, ◌*◌, ◌^◌, ◌<◌, ◌≤◌, ◌↔◌, length, IsTrue};
ghost use Rattle.std.specs.Option.{SomeIff};
ghost use Rattle.lms_ots.specs.Parameters.{sig_len_of};
ghost use Rattle.lms_ots.specs.Ots.{IsOtsSignature};
ghost use Rattle.lms_tree.specs.Tree.{parent, climb};
ghost use Rattle.lms_tree.specs.Verifying.{root_candidate, leaf_of, ots_sig, verifies};

use crate::fields::number_at;
use crate::nodes::{inner_node, leaf_node};
use crate::public_key::PublicKey;
use lms_ots::{OtsType, ots_candidate};

// The parent of the node `r` and its sibling.
fn parent(id: &[u8; 16], r: u32, node: &[u8; 32], sibling: &[u8]) -> [u8; 32]
    ensures { result ≡ parent id.now r node.now sibling.now }
{
    if r % 2 == 1 {
        inner_node(id, r / 2, sibling, node)
    } else {
        inner_node(id, r / 2, node, sibling)
    }
}

// The node `height` levels above the node `r`.
#[tactic(auto, unfolding(crate::specs::Tree::climb, crate::specs::Tree::above))]
fn climb(id: &[u8; 16], path: &[u8], r: u32, node: [u8; 32], height: u32) -> [u8; 32]
    requires { 32 * height ≤ length path.now }
    ensures { result ≡ climb id.now path.now r node height }
{
    let mut number = r;
    let mut node = node;
    for i in 0..height {
        let at = 32 * i as usize;
        node = parent(id, number, &node, &path[at..at + 32]);
        number /= 2;
    }
    node
}

// Tc, the candidate for the root, unless the one-time signature has another type.
#[tactic(auto, unfolding(crate::specs::Verifying::root_candidate))]
fn root_candidate(
    t: OtsType,
    height: u32,
    id: &[u8; 16],
    text: &[u8],
    sig: &[u8],
) -> Option<[u8; 32]>
    requires long { length sig.now ≡ 8 + sig_len_of t + 32 * height }
    requires bound { height ≤ 25 }
    requires leaf { leaf_of sig.now < 2 ^ height }
    ensures { SomeIff result (IsOtsSignature t (ots_sig t sig.now))
        (root_candidate t height id.now text.now sig.now) }
{
    let ots_end = 4 + t.sig_len();
    let leaf = number_at(sig, 0);
    let key = ots_candidate(t, id, leaf, text, &sig[4..ots_end])?;
    let r = (1 << height) + leaf;
    Some(climb(id, &sig[ots_end + 4..], r, leaf_node(id, r, &key), height))
}

/// Whether the signature of `text` verifies under the key: its length is exact, both codes are the
/// key's, its leaf is one of the tree's, and the way up from the leaf ends in the key's root
/// (RFC 8554, 5.4.2, algorithm 6). No memory is taken.
pub fn verify(key: &PublicKey, text: &[u8], sig: &[u8]) -> bool
    ensures { result ≡ verifies key.now text.now sig.now }
{
    let t = key.ots();
    let height = key.height();
    if sig.len() != 8 + t.sig_len() + 32 * height as usize {
        return false;
    }
    if number_at(sig, 4 + t.sig_len()) != key.lms_code() {
        return false;
    }
    if number_at(sig, 0) >= 1 << height {
        return false;
    }
    match root_candidate(t, height, key.id(), text, sig) {
        Some(root) => root.as_slice() == key.root().as_slice(),
        None => false,
    }
}
