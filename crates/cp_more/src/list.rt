//! The list of what a key signed.
ghost use Rattle.std.specs.Prelude.{◌≡◌, ◌<◌, [], IfOk, Some, None};
ghost use Rattle.lms_tree.specs.Secret.{leaves_of};
ghost use Rattle.cp_more.specs.PairView.{pair_view};
ghost use Rattle.cp_more.specs.Listing.{AddsPair, Lists};

use crate::signed_pair::{SignedPair, take_pair};
use cp_bytes::{Cut, OutOfMemory};
use lms_forge::{AddRefusal, Signed};
use std::alloc::Global;

// Why a list isn't taken.
#[derive(Clone, Copy)]
pub(crate) enum ListRefusal {
    // An envelope doesn't read or isn't by a leaf of the key, the first at this offset.
    Malformed { at: u64 },
    // This leaf has two texts, of which the second comes before that of any other such leaf.
    LeafUsed { leaf: u32 },
    // Memory is wanted.
    OutOfMemory,
}

// Adds a pair, unless a leaf was found to have two texts; that leaf, or the pair's where it is the
// first.
fn keep(
    alloc: Global,
    signed: &mut Signed<'_>,
    pair: SignedPair<'_>,
    used: Option<u32>,
) -> Result<Option<u32>, OutOfMemory>
    requires { pair.leaf < leaves_of signed.old.key }
    ensures { AddsPair signed.old signed.new (pair_view pair.entry) used result }
{
    if used.is_some() {
        return Ok(used);
    }
    match signed.add(alloc, pair.leaf, pair.text) {
        Ok(()) => Ok(None),
        Err(AddRefusal::LeafUsed { leaf }) => Ok(Some(leaf)),
        Err(AddRefusal::OutOfMemory) => Err(OutOfMemory),
    }
}

// Adds the pairs that the bytes are. The whole list is read, and then a leaf that it gives two
// texts is refused.
pub(crate) fn add_all(
    alloc: Global,
    signed: &mut Signed<'_>,
    leaves: u32,
    bytes: &[u8],
) -> Result<(), ListRefusal>
    requires empty { signed.old.texts ≡ [] }
    requires leaves { leaves ≡ leaves_of signed.old.key }
    ensures { Lists signed.old signed.new bytes.now result }
{
    let mut cut = Cut::new(bytes);
    let mut used = None;
    while !cut.rest().is_empty() {
        let pair = match take_pair(&mut cut, leaves) {
            Ok(pair) => pair,
            Err(short) => return Err(ListRefusal::Malformed { at: short.at }),
        };
        used = match keep(alloc, signed, pair, used) {
            Ok(used) => used,
            Err(_) => return Err(ListRefusal::OutOfMemory),
        };
    }
    match used {
        Some(leaf) => Err(ListRefusal::LeafUsed { leaf }),
        None => Ok(()),
    }
}
