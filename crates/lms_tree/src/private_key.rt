//! Private keys.
ghost use Rattle.std.specs.Prelude.{◌≡◌, ◌+◌, ◌-◌, ◌*◌, ◌^◌, ◌<◌, ◌≤◌, length, IfOk, IsTrue};
ghost use Rattle.lms_tree.specs.Verifying.{leaf_of, verifies};

use crate::filling::{fill, fill_by};
use crate::height::Height;
use crate::public_key::PublicKey;
use crate::signing::{put_head, put_path};
use cp_bytes::OutOfMemory;
use lms_ots::{OtsType, RANDOMIZER, chain, secret_start};
use std::alloc::Global;
use std::marker::Model;
use std::thread::Threads;

/// A private key: a secret seed, the identifier I, the two types, and all nodes of the tree, which
/// are computed once. Contracts see the seed, the identifier and the types. Which leaves have signed
/// isn't kept here: whoever holds the key sees to it that each leaf signs one text only (RFC 8554,
/// 5.2).
#[derive(Drop)]
pub struct PrivateKey {
    seed: [u8; 32],
    id: [u8; 16],
    height: Height,
    ots: OtsType,
    nodes: Vec<[u8; 32]>,
}

impl Model for PrivateKey {
    ghost use Rattle.lms_tree.specs.Secret.{Secret};

    ghost Value = { Secret };

    ghost use Rattle.lms_tree.specs.Inside.{secret_of, IsWhole};

    ghost view = { secret_of };

    ghost invariant = { IsWhole };
}

impl PrivateKey {
    ghost use Rattle.lms_ots.specs.Ots.{chain};
    ghost use Rattle.lms_ots.specs.Signing.{randomizer_of, secret_start};
    ghost use Rattle.lms_tree.specs.Secret.{leaves_of, node, public_of, signature, signature_len};

    /// The key of a seed and an identifier. All nodes of the tree are computed: for each leaf each
    /// chain in its whole length, from the secret values of RFC 8554, Appendix A. It takes 64 bytes
    /// for each leaf, at once; `OutOfMemory` comes where they can't be had.
    pub fn make(
        alloc: Global,
        secret: [u8; 32],
        id: [u8; 16],
        height: Height,
        ots: OtsType,
    ) -> Result<PrivateKey, OutOfMemory>
        ensures { IfOk result (λ key. key ≡ record { height = height; ots = ots; id = id; seed = secret }) }
    {
        let mut nodes = vec![in alloc; [0u8; 32]; 2 * height.leaves() as usize]?;
        fill(ots, height, &id, &secret, nodes.as_mut_slice());
        Ok(PrivateKey {
            seed: secret,
            id,
            height,
            ots,
            nodes,
        })
    }

    /// The same key as by `make`, with its leaves computed in at most `workers` threads, which have
    /// ended when it returns.
    pub fn make_by<R: Threads + Sync>(
        rt: &R,
        alloc: Global,
        workers: usize,
        secret: [u8; 32],
        id: [u8; 16],
        height: Height,
        ots: OtsType,
    ) -> Result<PrivateKey, OutOfMemory>
        requires { 0 < workers }
        ensures { IfOk result (λ key. key ≡ record { height = height; ots = ots; id = id; seed = secret }) }
    {
        let mut nodes = vec![in alloc; [0u8; 32]; 2 * height.leaves() as usize]?;
        fill_by(rt, workers, ots, height, &id, &secret, nodes.as_mut_slice());
        Ok(PrivateKey {
            seed: secret,
            id,
            height,
            ots,
            nodes,
        })
    }

    /// The public key. Its root is the node 1 of the tree (RFC 8554, 5.3).
    #[tactic(auto, unfolding(crate::specs::Secret::public_of))]
    pub fn public(&self) -> PublicKey
        ensures { result ≡ public_of self.now }
    {
        PublicKey::new(self.height.lms(), self.ots, self.id, self.nodes[1])
    }

    /// The number of leaves, each of which may sign one text.
    pub fn leaves(&self) -> u32
        ensures { result ≡ leaves_of self.now }
    {
        self.height.leaves()
    }

    /// The length of a signature in bytes (RFC 8554, 5.4).
    pub fn sig_len(&self) -> usize
        ensures { result ≡ signature_len self.now }
    {
        8 + self.ots.sig_len() + 32 * self.height.levels() as usize
    }

    /// The height of the tree (RFC 8554, 5.1).
    pub fn height(&self) -> Height
        ensures { result ≡ self.now.height }
    {
        self.height
    }

    /// The one-time type (RFC 8554, 4.1).
    pub fn ots(&self) -> OtsType
        ensures { result ≡ self.now.ots }
    {
        self.ots
    }

    /// I, the identifier of 16 bytes (RFC 8554, 5.3).
    pub fn id(&self) -> [u8; 16]
        ensures value { result ≡ self.now.id }
        ensures long { length self.now.id ≡ 16 }
    {
        self.id
    }

    /// T[r], the node `r` of the tree, of which 1 is the root and the leaves' nodes are the last half
    /// (RFC 8554, 5.3).
    #[tactic(auto, using(crate::proofs::Heights::heights))]
    pub fn node(&self, r: u32) -> [u8; 32]
        requires some { 0 < r }
        requires within { r < 2 * leaves_of self.now }
        ensures { result ≡ node self.now r }
    {
        self.nodes[r as usize]
    }

    /// The value of chain `i` of this leaf before its step `at`: the secret start after the steps 0
    /// to `at - 1` (RFC 8554, 4.3 and Appendix A). Whoever has it can go on to every later step, so it
    /// is secret until a signature shows it.
    pub fn chain_value(&self, leaf: u32, i: u16, at: u8) -> [u8; 32]
        ensures { result ≡
            chain self.now.id leaf i 0 at (secret_start self.now.id leaf i self.now.seed) }
    {
        chain(
            &self.id,
            leaf,
            i,
            0,
            at,
            secret_start(&self.id, leaf, i, &self.seed),
        )
    }

    /// C, the randomizer that this leaf signs with (RFC 8554, 4.5). It is no secret.
    pub fn randomizer(&self, leaf: u32) -> [u8; 32]
        ensures { result ≡ randomizer_of self.now.id leaf self.now.seed }
    {
        secret_start(&self.id, leaf, RANDOMIZER, &self.seed)
    }

    /// Writes the signature of `text` by this leaf into `out`, which has the length of a signature.
    /// It is a function of key, leaf and text, names the leaf, and verifies under `public()`. The
    /// path is read from the kept nodes (RFC 8554, 5.4.1). No memory is taken.
    #[tactic(auto, using(std::proofs::lemmas::Slice::overwrites), unfolding(crate::specs::Secret::signature, crate::specs::Secret::signature_head))]
    pub fn sign_into(&self, leaf: u32, text: &[u8], out: &mut [u8])
        requires leaf { leaf < leaves_of self.now }
        requires room { length out.old ≡ signature_len self.now }
        ensures bytes { out.new ≡ signature self.now leaf text.now }
        ensures leaf { leaf_of out.new ≡ leaf }
        ensures verifies { IsTrue (verifies (public_of self.now) text.now out.new) }
    {
        put_head(self.ots, self.height, &self.id, leaf, &self.seed, text, out);
        let path = 8 + self.ots.sig_len();
        put_path(self.height, self.nodes.as_slice(), leaf, &mut out[path..]);
    }
}
