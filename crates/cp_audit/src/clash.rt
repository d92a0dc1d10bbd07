//! Guilt that two signed texts show together: one leaf, or one position of a block, with two texts.
ghost use Rattle.std.specs.Prelude.{ℕ, ◌≡◌, ◌++◌, List, [], map, option_map, slice_index, None, IfOk, OnOk};
ghost use Rattle.std.specs.BTreeMap.{IsEmpty};
ghost use Rattle.std.specs.Ordering.{nat_cmp};
ghost use Rattle.sha2.specs.Sha256.{sha256};
ghost use Rattle.lms_tree.specs.Verifying.{leaf_of};
ghost use Rattle.cp_statements.specs.Envelope as spec;
ghost use Rattle.cp_statements.specs.View.{envelope_view};
ghost use Rattle.cp_evidence.specs.Evidence.Evidence.{K1, K2};
ghost use Rattle.cp_evidence.specs.Material.{closing_envelopes};
ghost use Rattle.cp_evidence.specs.Verdict.{clash, same_leaf, same_place};
ghost use Rattle.cp_audit.specs.Firsts.{FindsLeafClash, FindsOther, FindsPair, KeepsMoreLeaves, KeepsNext, KeepsWhereNone, leaf_clash, place_key};
ghost use Rattle.cp_audit.specs.Given.{given_view};
ghost use Rattle.cp_audit.specs.Rows.{Writes, leaf_clash_found, one_leaf_found, one_place_found, place_clash_in};

use crate::given::GivenEpoch;
use cp_bytes::OutOfMemory;
use cp_evidence::{Before, Store, Two, write_k1, write_k2};
use cp_statements::Envelope;
use std::alloc::Global;
use std::collections::BTreeMap;

// A position of a block's chain.
#[derive(Clone, Copy, Debug, PartialEq, Eq, PartialOrd, Ord)]
pub(crate) struct Place {
    block: u64,
    position: u64,
}

// One leaf with two texts, among the given closings and then these envelopes.
pub(crate) fn one_leaf(
    alloc: Global,
    o: &GivenEpoch,
    xs: &[Envelope],
) -> Result<Option<Vec<u8>>, OutOfMemory>
    ensures { Writes (one_leaf_found (given_view o.now) (map envelope_view xs.now)) result }
{
    let Some(two) = any_leaf_clash(alloc, o, xs)? else {
        return Ok(None);
    };
    let mut out = Vec::new(alloc);
    write_k2(&two.x, &two.y, &mut out)?;
    Ok(Some(out))
}

// One position of a block with two texts, among the attestations of the store.
pub(crate) fn one_place(
    alloc: Global,
    store: &Store,
    xs: &[Envelope],
) -> Result<Option<Vec<u8>>, OutOfMemory>
    ensures { Writes (one_place_found (sha256 store.now.key) (map envelope_view xs.now)) result }
{
    let Some(two) = place_clash(alloc, store, xs)? else {
        return Ok(None);
    };
    let mut out = Vec::new(alloc);
    write_k1(&two.x, &two.y, &mut out)?;
    Ok(Some(out))
}

// The first envelope, of the given closings and then these, that has the leaf of an earlier one and
// another text, and that earlier one.
fn any_leaf_clash<'a>(
    alloc: Global,
    o: &GivenEpoch<'a>,
    xs: &[Envelope<'a>],
) -> Result<Option<Two<'a>>, OutOfMemory>
    ensures { FindsPair (leaf_clash_found (given_view o.now) (map envelope_view xs.now)) result }
{
    let mut firsts = BTreeMap::new(alloc);
    match given_clash(&mut firsts, o)? {
        Some(two) => Ok(Some(two)),
        None => leaf_clash(&mut firsts, xs),
    }
}

// Likewise among the given closings.
fn given_clash<'a>(
    firsts: &mut BTreeMap<u32, Envelope<'a>>,
    o: &GivenEpoch<'a>,
) -> Result<Option<Two<'a>>, OutOfMemory>
    requires { IsEmpty firsts.old }
    ensures found { FindsPair (leaf_clash [] (closing_envelopes (given_view o.now))) result }
    ensures kept { KeepsWhereNone (closing_envelopes (given_view o.now)) firsts.new result }
{
    match &o.before {
        Before::Nothing => leaf_clash(firsts, &[o.closing.envelope]),
        Before::Closing(before) => leaf_clash(firsts, &[before.envelope, o.closing.envelope]),
    }
}

// The first envelope that has the leaf of an earlier one and another text, and that earlier one.
// The map keeps the first envelope of each leaf.
fn leaf_clash<'a>(
    firsts: &mut BTreeMap<u32, Envelope<'a>>,
    xs: &[Envelope<'a>],
) -> Result<Option<Two<'a>>, OutOfMemory>
    ensures found { FindsLeafClash firsts.old (map envelope_view xs.now) result }
    ensures kept { KeepsMoreLeaves firsts.old firsts.new (map envelope_view xs.now) result }
{
    for x in xs {
        if let Some(first) = other_text(firsts, Some(leaf(x)), x)? {
            return Ok(Some(Two { x: first, y: *x }));
        }
    }
    Ok(None)
}

// The first attestation of the store that has the block and position of an earlier one and another
// text, and that earlier one.
fn place_clash<'a>(
    alloc: Global,
    store: &Store,
    xs: &[Envelope<'a>],
) -> Result<Option<Two<'a>>, OutOfMemory>
    ensures { FindsPair (place_clash_in (sha256 store.now.key) (map envelope_view xs.now)) result }
{
    let mut firsts = BTreeMap::new(alloc);
    for x in xs {
        if let Some(first) = other_text(&mut firsts, place_of(store, x), x)? {
            return Ok(Some(Two { x: first, y: *x }));
        }
    }
    Ok(None)
}

// The envelope that is kept of the key, where it has another text; an envelope whose key is new is
// kept.
fn other_text<'a, K: Ord + Drop>(
    firsts: &mut BTreeMap<K, Envelope<'a>>,
    key: Option<K>,
    x: &Envelope<'a>,
) -> Result<Option<Envelope<'a>>, OutOfMemory>
    ensures found { FindsOther K.cmp firsts.old key (envelope_view x.now) result }
    ensures kept { KeepsNext K.cmp firsts.old firsts.new key (envelope_view x.now) result }
{
    let Some(key) = key else {
        return Ok(None);
    };
    if let Some(first) = firsts.get(&key) {
        return Ok(if first.text == x.text {
            None
        } else {
            Some(*first)
        });
    }
    firsts.insert(key, *x)?;
    Ok(None)
}

// The leaf that the signature names; one of fewer than four bytes is read as if zeros followed.
fn leaf(x: &Envelope) -> u32
    ensures { result ≡ leaf_of x.now.signature.now }
{
    u32::from_be_bytes([
        byte_or_zero(x.signature, 0),
        byte_or_zero(x.signature, 1),
        byte_or_zero(x.signature, 2),
        byte_or_zero(x.signature, 3),
    ])
}

fn byte_or_zero(bytes: &[u8], at: usize) -> u8
    ensures { result ≡ slice_index bytes.now at }
{
    bytes.get(at).copied().unwrap_or(0)
}

// Where the attestation stands; none where it is no attestation of the store.
fn place_of(store: &Store, x: &Envelope) -> Option<Place>
    ensures { result ≡ place_key (sha256 store.now.key) (envelope_view x.now) }
{
    let a = store.attestation(x.text)?;
    Some(Place {
        block: a.block,
        position: a.position,
    })
}
