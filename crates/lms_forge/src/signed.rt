//! What a key signed.
ghost use Rattle.std.specs.Prelude.{◌≡◌, ◌↔◌, [], ◌<◌, ◌+◌, length, IsTrue, Some};
ghost use Rattle.std.specs.Option.{option_copied};
ghost use Rattle.lms_tree.specs.Secret.{leaves_of, public_of};
ghost use Rattle.lms_tree.specs.Verifying.{verifies};
ghost use Rattle.lms_forge.specs.Form.{HasForm};

use crate::fields::leaf_of;
use crate::finding::witness;
use crate::witness::{AddRefusal, ForgeryRefusal, Witness};
use cp_bytes::Bytes;
use lms_tree::{PrivateKey, verify};
use std::alloc::Global;
use std::collections::BTreeMap;
use std::marker::Model;

/// A key and the pairs of a leaf and a text that it signed (this project's own). Contracts see the key
/// and the list of pairs by their leaves.
#[derive(Drop)]
pub struct Signed<'a> {
    key: &'a PrivateKey,
    texts: BTreeMap<u32, Bytes>,
}

impl<'a> Model for Signed<'a> {
    ghost use Rattle.lms_forge.specs.Pairs.{Pairs};

    ghost Value = { Pairs };

    ghost view = { λ s. record { key = s.key.now; texts = s.texts.entries } };
}

impl<'a> Signed<'a> {
    ghost use Rattle.lms_forge.specs.Forgery.{Adds, Answers};

    /// No pair yet. It takes no memory.
    pub fn new(alloc: Global, key: &'a PrivateKey) -> Signed<'a>
        ensures { result ≡ record { key = key.now; texts = [] } }
    {
        Signed {
            key,
            texts: BTreeMap::new(alloc),
        }
    }

    /// Adds a pair, of a leaf of the key. `LeafUsed` comes exactly where the leaf has another text,
    /// and then, as where memory is wanted, nothing changes; nor does it where the same pair comes
    /// again.
    pub fn add(&mut self, alloc: Global, leaf: u32, text: &[u8]) -> Result<(), AddRefusal>
        requires { leaf < leaves_of self.old.key }
        ensures { Adds self.old self.new leaf text.now result }
    {
        if let Some(other) = self.texts.get(&leaf) {
            if other.as_slice() == text {
                return Ok(());
            }
            return Err(AddRefusal::LeafUsed { leaf });
        }
        let Ok(text) = Vec::from_slice(alloc, text) else {
            return Err(AddRefusal::OutOfMemory);
        };
        match self.texts.insert(leaf, Bytes::from_vec(text)) {
            Ok(_) => Ok(()),
            Err(_) => Err(AddRefusal::OutOfMemory),
        }
    }

    /// What must have failed where the signature of `text` verifies under the key's `public()` and its
    /// pair wasn't added: the first witness of five kinds, which is a true one. `Invalid` comes
    /// exactly where it doesn't verify, and `Known` exactly where it does and the pair of its leaf and
    /// the text was added.
    pub fn forgery(&self, alloc: Global, text: &[u8], sig: &[u8]) -> Result<Witness, ForgeryRefusal>
        ensures { Answers self.now text.now sig.now result }
    {
        if !verifies(self.key, text, sig) {
            return Err(ForgeryRefusal::Invalid);
        }
        let signed = self.texts.get(&leaf_of(sig));
        if holds(signed, text) {
            return Err(ForgeryRefusal::Known);
        }
        match witness(alloc, self.key, signed, text, sig) {
            Ok(found) => Ok(found),
            Err(_) => Err(ForgeryRefusal::OutOfMemory),
        }
    }
}

// Whether the signature verifies under the public key; it then has the key's form.
fn verifies(key: &PrivateKey, text: &[u8], sig: &[u8]) -> bool
    ensures value { result ≡ verifies (public_of key.now) text.now sig.now }
    ensures id { length key.now.id ≡ 16 }
    ensures form { IsTrue result → HasForm key.now sig.now }
{
    let _id = key.id();
    verify(&key.public(), text, sig)
}

// Whether the leaf signed this text.
fn holds(signed: Option<&Bytes>, text: &[u8]) -> bool
    ensures { IsTrue result ↔ option_copied signed.entry ≡ Some text.now }
{
    match signed {
        Some(known) => known.as_slice() == text,
        None => false,
    }
}
