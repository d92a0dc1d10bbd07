//! The way from the leaf up to the root, by the key (RFC 8554, 5.3) and by the signature (5.4.2).
ghost use Rattle.std.specs.Prelude.{◌≡◌, ◌+◌, ◌*◌, ◌-◌, ◌<◌, ◌≤◌, length};
ghost use Rattle.lms_tree.specs.Parameters.{levels_of};
ghost use Rattle.lms_tree.specs.Tree.{sibling};
ghost use Rattle.lms_forge.specs.Form.{HasForm};
ghost use Rattle.lms_forge.specs.Witness.{shown_public, twin_nodes};

use crate::fields::{array32, leaf_of, path_of};
use crate::texts::{inner_unless_same, parent_text};
use cp_bytes::digest;
use lms_tree::{PrivateKey, leaf_node};

// The number of the node that has the same parent.
fn sibling(r: u32) -> u32
    requires { r < 65536 }
    ensures { result ≡ sibling r }
{
    if r % 2 == 1 { r - 1 } else { r + 1 }
}

// The texts of the highest inner node on the way whose texts differ, where `candidate` is the
// signature's one-time public key.
#[tactic(auto, using(lms_tree::proofs::Heights::heights))]
pub(crate) fn twin_nodes(
    key: &PrivateKey,
    text: &[u8],
    sig: &[u8],
    candidate: &[u8; 32],
) -> Option<([u8; 86], [u8; 86])>
    requires form { HasForm key.now sig.now }
    requires candidate { candidate.now ≡ shown_public key.now text.now sig.now }
    ensures { result ≡ twin_nodes key.now text.now sig.now }
{
    let id = key.id();
    let path = path_of(key.ots(), sig);
    let mut r = key.leaves() + leaf_of(sig);
    let mut node = leaf_node(&id, r, candidate);
    let mut seen = None;
    'levels: for n in 0..key.height().levels() {
        let own = parent_text(&id, r, &key.node(r), &key.node(sibling(r)));
        let shown = parent_text(&id, r, &node, &array32(path, 32 * n as usize));
        node = digest(&shown);
        seen = inner_unless_same(own, shown, seen);
        r /= 2;
    }
    seen
}
