//! The witness: the first of five kinds that is found (this project's own).
ghost use Rattle.std.specs.Prelude.{◌≡◌, ◌≢◌, ◌+◌, ◌*◌, ◌<◌, ◌++◌, None, IfOk, Some};
ghost use Rattle.std.specs.Option.{option_copied};
ghost use Rattle.lms_ots.specs.Parameters.{chains_of, sig_len_of};
ghost use Rattle.lms_ots.specs.Ots.{message_text};
ghost use Rattle.lms_forge.specs.Difference.{unless_same};
ghost use Rattle.lms_forge.specs.Form.{HasForm};
ghost use Rattle.lms_tree.specs.Verifying.{leaf_of};
ghost use Rattle.lms_forge.specs.Witness.{as_twins, from_keys, from_leaves, from_messages, low_chain, of_chain, own_key_text, shown_key_text, shown_public, twin_leaves, twin_messages, twin_nodes, witness_of};

use crate::OutOfMemory;
use crate::digits::{low_chain, own_hash, shown_digits, shown_hash, shown_randomizer};
use crate::fields::{leaf_of, one_time};
use crate::keys::{own_key_text, shown_key_text};
use crate::nodes::twin_nodes;
use crate::steps::twin_steps;
use crate::texts::{leaf_text, twins};
use crate::witness::Witness;
use cp_bytes::{Bytes, digest};
use lms_ots::{D_MESG, tagged, y_at};
use lms_tree::PrivateKey;
use std::alloc::Global;

// The witness of the two texts, where they differ.
fn differ(alloc: Global, first: &[u8], second: &[u8]) -> Result<Option<Witness>, OutOfMemory>
    ensures { IfOk result (λ o. o ≡ as_twins (unless_same first.now second.now None)) }
{
    if first == second {
        return Ok(None);
    }
    Ok(Some(twins(alloc, first, second)?))
}

// 1. The inner nodes.
fn nodes_differ(
    alloc: Global,
    key: &PrivateKey,
    text: &[u8],
    sig: &[u8],
    candidate: &[u8; 32],
) -> Result<Option<Witness>, OutOfMemory>
    requires form { HasForm key.now sig.now }
    requires candidate { candidate.now ≡ shown_public key.now text.now sig.now }
    ensures { IfOk result (λ o. o ≡ as_twins (twin_nodes key.now text.now sig.now)) }
{
    match &twin_nodes(key, text, sig, candidate) {
        Some(two) => Ok(Some(twins(alloc, &two.0, &two.1)?)),
        None => Ok(None),
    }
}

// The text that is hashed to Q.
fn message_text(
    alloc: Global,
    id: &[u8; 16],
    leaf: u32,
    randomizer: &[u8; 32],
    text: &[u8],
) -> Result<Vec<u8>, OutOfMemory>
    ensures { IfOk result (λ m. m.items ≡ message_text id.now leaf randomizer.now text.now) }
{
    let mut out = Vec::from_slice(alloc, &tagged(id, leaf, D_MESG))?;
    out.extend_from_slice(randomizer)?;
    out.extend_from_slice(text)?;
    Ok(out)
}

// 3. The message texts.
#[tactic(auto, unfolding(crate::specs::Witness::twin_messages))]
fn messages_meet(
    alloc: Global,
    key: &PrivateKey,
    signed: Option<&Bytes>,
    text: &[u8],
    sig: &[u8],
) -> Result<Option<Witness>, OutOfMemory>
    requires { HasForm key.now sig.now }
    ensures { IfOk result (λ o. o ≡
        as_twins (twin_messages key.now (option_copied signed.entry) text.now sig.now)) }
{
    let Some(signed) = signed else {
        return Ok(None);
    };
    let leaf = leaf_of(sig);
    let own = own_hash(key, leaf, signed.as_slice());
    if own.as_slice() != shown_hash(key, text, sig).as_slice() {
        return Ok(None);
    }
    let id = key.id();
    let first = message_text(alloc, &id, leaf, &key.randomizer(leaf), signed.as_slice())?;
    let second = message_text(alloc, &id, leaf, &shown_randomizer(key, sig), text)?;
    Ok(Some(Witness::Twins {
        first: Bytes::from_vec(first),
        second: Bytes::from_vec(second),
    }))
}

// 4 and 5. The steps of the least chain whose digit is below the revealed one, and its value.
#[tactic(auto, using(lms_ots::proofs::Types::types))]
fn of_chain(
    alloc: Global,
    key: &PrivateKey,
    signed: Option<&Bytes>,
    text: &[u8],
    sig: &[u8],
) -> Result<Witness, OutOfMemory>
    requires form { HasForm key.now sig.now }
    requires some { low_chain key.now (option_copied signed) text.now sig.now < chains_of key.now.ots }
    ensures { IfOk result (λ w. let o = option_copied signed.entry in
        w ≡ of_chain key.now o text.now sig.now (low_chain key.now o text.now sig.now)) }
{
    let leaf = leaf_of(sig);
    let (i, step, revealed) = low_chain(key, signed, text, sig);
    let value = y_at(one_time(key.ots(), sig), i);
    match &twin_steps(key, leaf, i as u16, step, value, revealed) {
        Some(two) => twins(alloc, &two.0, &two.1),
        None => Ok(Witness::Low {
            leaf,
            chain: i as u16,
            step,
            revealed,
            value,
        }),
    }
}

// From 3 on.
fn from_messages(
    alloc: Global,
    key: &PrivateKey,
    signed: Option<&Bytes>,
    text: &[u8],
    sig: &[u8],
) -> Result<Witness, OutOfMemory>
    requires form { HasForm key.now sig.now }
    requires new { option_copied signed ≢ Some text.now }
    ensures { IfOk result (λ w. w ≡
        from_messages key.now (option_copied signed.entry) text.now sig.now) }
{
    match messages_meet(alloc, key, signed, text, sig)? {
        Some(found) => Ok(found),
        None => of_chain(alloc, key, signed, text, sig),
    }
}

// From 2 on.
fn from_keys(
    alloc: Global,
    key: &PrivateKey,
    signed: Option<&Bytes>,
    text: &[u8],
    sig: &[u8],
    own_keys: &[u8],
    shown_keys: &[u8],
) -> Result<Witness, OutOfMemory>
    requires form { HasForm key.now sig.now }
    requires new { option_copied signed ≢ Some text.now }
    requires own { own_keys.now ≡ own_key_text key.now (leaf_of sig.now) }
    requires shown { shown_keys.now ≡ shown_key_text key.now text.now sig.now }
    ensures { IfOk result (λ w. w ≡
        from_keys key.now (option_copied signed.entry) text.now sig.now) }
{
    match differ(alloc, own_keys, shown_keys)? {
        Some(found) => Ok(found),
        None => from_messages(alloc, key, signed, text, sig),
    }
}

// The texts of the leaf's node over the digests of the texts of its keys.
fn leaves_differ(
    alloc: Global,
    key: &PrivateKey,
    text: &[u8],
    sig: &[u8],
    own_keys: &[u8],
    shown_keys: &[u8],
) -> Result<Option<Witness>, OutOfMemory>
    requires form { HasForm key.now sig.now }
    requires own { own_keys.now ≡ own_key_text key.now (leaf_of sig.now) }
    requires shown { shown_keys.now ≡ shown_key_text key.now text.now sig.now }
    ensures { IfOk result (λ o. o ≡ as_twins (twin_leaves key.now text.now sig.now)) }
{
    let id = key.id();
    let r = key.leaves() + leaf_of(sig);
    let own = leaf_text(&id, r, &digest(own_keys));
    let shown = leaf_text(&id, r, &digest(shown_keys));
    differ(alloc, &own, &shown)
}

// From the leaf's node on.
fn from_leaves(
    alloc: Global,
    key: &PrivateKey,
    signed: Option<&Bytes>,
    text: &[u8],
    sig: &[u8],
    own_keys: &[u8],
    shown_keys: &[u8],
) -> Result<Witness, OutOfMemory>
    requires form { HasForm key.now sig.now }
    requires new { option_copied signed ≢ Some text.now }
    requires own { own_keys.now ≡ own_key_text key.now (leaf_of sig.now) }
    requires shown { shown_keys.now ≡ shown_key_text key.now text.now sig.now }
    ensures { IfOk result (λ w. w ≡
        from_leaves key.now (option_copied signed.entry) text.now sig.now) }
{
    match leaves_differ(alloc, key, text, sig, own_keys, shown_keys)? {
        Some(found) => Ok(found),
        None => from_keys(alloc, key, signed, text, sig, own_keys, shown_keys),
    }
}

// From the root on.
fn from_nodes(
    alloc: Global,
    key: &PrivateKey,
    signed: Option<&Bytes>,
    text: &[u8],
    sig: &[u8],
    own_keys: &[u8],
    shown_keys: &[u8],
) -> Result<Witness, OutOfMemory>
    requires form { HasForm key.now sig.now }
    requires new { option_copied signed ≢ Some text.now }
    requires own { own_keys.now ≡ own_key_text key.now (leaf_of sig.now) }
    requires shown { shown_keys.now ≡ shown_key_text key.now text.now sig.now }
    ensures { IfOk result (λ w. w ≡
        witness_of key.now (option_copied signed.entry) text.now sig.now) }
{
    match nodes_differ(alloc, key, text, sig, &digest(shown_keys))? {
        Some(found) => Ok(found),
        None => from_leaves(alloc, key, signed, text, sig, own_keys, shown_keys),
    }
}

// The signature's text that is hashed to Kc.
#[tactic(auto, unfolding(crate::specs::Witness::shown_key_text))]
fn shown_keys_of(
    alloc: Global,
    key: &PrivateKey,
    text: &[u8],
    sig: &[u8],
) -> Result<Vec<u8>, OutOfMemory>
    requires { HasForm key.now sig.now }
    ensures { IfOk result (λ out. out.items ≡ shown_key_text key.now text.now sig.now) }
{
    let t = key.ots();
    let s = shown_digits(key, text, sig);
    shown_key_text(alloc, t, &key.id(), leaf_of(sig), &s, one_time(t, sig))
}

// The witness of a signature of the key's form, whose pair is new.
pub(crate) fn witness(
    alloc: Global,
    key: &PrivateKey,
    signed: Option<&Bytes>,
    text: &[u8],
    sig: &[u8],
) -> Result<Witness, OutOfMemory>
    requires form { HasForm key.now sig.now }
    requires new { option_copied signed ≢ Some text.now }
    ensures { IfOk result (λ w. w ≡
        witness_of key.now (option_copied signed.entry) text.now sig.now) }
{
    let own_keys = own_key_text(alloc, key, leaf_of(sig))?;
    let shown_keys = shown_keys_of(alloc, key, text, sig)?;
    from_nodes(alloc, key, signed, text, sig, &own_keys, &shown_keys)
}
