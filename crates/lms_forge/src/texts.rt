//! Two texts of one digest, and the texts of a tree's nodes (RFC 8554, 5.3).
ghost use Rattle.std.specs.Prelude.{◌≡◌, ◌++◌, IfOk};
ghost use Rattle.lms_ots.specs.Ots.{tagged};
ghost use Rattle.lms_tree.specs.Tree.{inner_text, leaf_text, parent_text};
ghost use Rattle.lms_forge.specs.Difference.{unless_same};

use crate::witness::Witness;
use cp_bytes::{Bytes, OutOfMemory, put};
use lms_ots::tagged;
use lms_tree::{D_INTR, D_LEAF};
use std::alloc::Global;

// The witness of the two texts.
pub(crate) fn twins(alloc: Global, first: &[u8], second: &[u8]) -> Result<Witness, OutOfMemory>
    ensures { IfOk result (λ w. w ≡ Witness.Twins first.now second.now) }
{
    let first = Bytes::from_vec(Vec::from_slice(alloc, first)?);
    let second = Bytes::from_vec(Vec::from_slice(alloc, second)?);
    Ok(Witness::Twins { first, second })
}

// The two texts of an inner node where they differ, and otherwise what was found below.
pub(crate) fn inner_unless_same(
    first: [u8; 86],
    second: [u8; 86],
    otherwise: Option<([u8; 86], [u8; 86])>,
) -> Option<([u8; 86], [u8; 86])>
    ensures { result ≡ unless_same first second otherwise }
{
    if first.as_slice() == second.as_slice() {
        otherwise
    } else {
        Some((first, second))
    }
}

// The two texts of a step where they differ, and otherwise what was found below.
pub(crate) fn step_unless_same(
    first: [u8; 55],
    second: [u8; 55],
    otherwise: Option<([u8; 55], [u8; 55])>,
) -> Option<([u8; 55], [u8; 55])>
    ensures { result ≡ unless_same first second otherwise }
{
    if first.as_slice() == second.as_slice() {
        otherwise
    } else {
        Some((first, second))
    }
}

// The text of the node `r` over its children.
fn inner_text(id: &[u8; 16], r: u32, left: &[u8; 32], right: &[u8; 32]) -> [u8; 86]
    ensures { result ≡ inner_text id.now r left.now right.now }
{
    let mut out = [0u8; 86];
    put(&mut out, 0, &tagged(id, r, D_INTR));
    put(&mut out, 22, left);
    put(&mut out, 54, right);
    out
}

// The text of the parent of the node `r` and its sibling.
pub(crate) fn parent_text(id: &[u8; 16], r: u32, node: &[u8; 32], sibling: &[u8; 32]) -> [u8; 86]
    ensures { result ≡ parent_text id.now r node.now sibling.now }
{
    if r % 2 == 1 {
        inner_text(id, r / 2, sibling, node)
    } else {
        inner_text(id, r / 2, node, sibling)
    }
}

// The text of the node `r` of a leaf over its one-time public key.
pub(crate) fn leaf_text(id: &[u8; 16], r: u32, key: &[u8; 32]) -> [u8; 54]
    ensures { result ≡ leaf_text id.now r key.now }
{
    let mut out = [0u8; 54];
    put(&mut out, 0, &tagged(id, r, D_LEAF));
    put(&mut out, 22, key);
    out
}
