//! The hashes of nodes (RFC 8554, 5.3).
ghost use Rattle.std.specs.Prelude.{◌≡◌};
ghost use Rattle.lms_tree.specs.Tree.{leaf_node, inner_node};

use lms_ots::tagged;
use sha2::{Digest, Sha256};

/// D_LEAF (RFC 8554, 5.3).
pub const D_LEAF: u16 = 0x8282;

/// D_INTR (RFC 8554, 5.3).
pub const D_INTR: u16 = 0x8383;

/// The node `r` over a leaf's one-time public key (RFC 8554, 5.3).
pub fn leaf_node(id: &[u8; 16], r: u32, key: &[u8; 32]) -> [u8; 32]
    ensures { result ≡ leaf_node id.now r key.now }
{
    let mut hasher = Sha256::new_with_prefix(&tagged(id, r, D_LEAF));
    hasher.update(key);
    hasher.finalize()
}

/// The node `r` over its two children (RFC 8554, 5.3).
pub fn inner_node(id: &[u8; 16], r: u32, left: &[u8], right: &[u8]) -> [u8; 32]
    ensures { result ≡ inner_node id.now r left.now right.now }
{
    let mut hasher = Sha256::new_with_prefix(&tagged(id, r, D_INTR));
    hasher.update(left);
    hasher.update(right);
    hasher.finalize()
}
