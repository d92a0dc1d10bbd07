//! An operator's private key.
ghost use Rattle.std.specs.Prelude.{◌≡◌, ◌+◌, ◌<◌, ◌≤◌, ◌++◌, length, take, IfOk};
ghost use Rattle.std.specs.Int.{w32, to_be_bytes};
ghost use Rattle.sha2.specs.Sha256.{sha256};
ghost use Rattle.lms_tree.specs.Parameters.{levels_of};
ghost use Rattle.lms_tree.specs.Secret.{leaves_of, signature, signature_len};
ghost use Rattle.lms_hss.specs.Hss.{joined};

use cp_bytes::{OutOfMemory, put};
use lms_ots::OtsType;
use lms_tree::{Height, PrivateKey};
use sha2::{Digest, Sha256};
use std::alloc::Global;
use std::marker::Model;
use std::thread::Threads;

/// An operator's private key: a secret seed, the identifier I of the top tree, the heights of the top
/// tree and of each life's tree, their one-time type, and the top tree with all its nodes. Contracts
/// see all but the nodes.
#[derive(Drop)]
pub struct HssPrivate {
    tree: PrivateKey,
    seed: [u8; 32],
    id: [u8; 16],
    height: Height,
    bottom: Height,
    ots: OtsType,
}

impl Model for HssPrivate {
    ghost use Rattle.lms_hss.specs.Lives.{HssSecret};

    ghost Value = { HssSecret };

    ghost use Rattle.lms_hss.specs.Inside.{secret_of, IsWhole};

    ghost view = { secret_of };

    ghost invariant = { IsWhole };
}

// The SHA-256 of the tag, the identifier, a life's number and the seed.
fn derived(tag: &[u8; 4], id: &[u8; 16], a: u32, seed: &[u8; 32]) -> [u8; 32]
    ensures { result ≡ sha256 (tag.now ++ id.now ++ to_be_bytes w32 a ++ seed.now) }
{
    let mut hasher = Sha256::new_with_prefix(tag);
    hasher.update(id);
    hasher.update(&a.to_be_bytes());
    hasher.update(seed);
    hasher.finalize()
}

// The seed and the identifier of a life.
#[derive(Clone, Copy)]
struct LifeSecret {
    seed: [u8; 32],
    id: [u8; 16],
}

// The first 16 bytes.
fn first_half(hash: &[u8; 32]) -> [u8; 16]
    ensures { result ≡ take 16 hash.now }
{
    let mut out = [0u8; 16];
    out.copy_from_slice(&hash[..16]);
    out
}

// Writes the tree's signature of a life's key from 4 on.
#[tactic(auto, using(std::proofs::lemmas::Slice::overwrites))]
fn put_signed(tree: &PrivateKey, a: u32, life: &[u8; 56], out: &mut [u8])
    requires leaf { a < leaves_of tree.now }
    requires room { 4 + signature_len tree.now ≤ length out.old }
    ensures { take (4 + signature_len tree.now) out.new ≡
        take 4 out.old ++ signature tree.now a life.now }
{
    tree.sign_into(a, life, &mut out[4..4 + tree.sig_len()]);
}

// Writes the certificate of a life's key.
fn put_certificate(tree: &PrivateKey, a: u32, life: &[u8; 56], out: &mut [u8])
    requires leaf { a < leaves_of tree.now }
    requires room { length out.old ≡ 60 + signature_len tree.now }
    ensures { out.new ≡ joined (signature tree.now a life.now) life.now }
{
    put(out, 0, &1u32.to_be_bytes());
    put_signed(tree, a, life, out);
    put(out, 4 + tree.sig_len(), life);
}

impl HssPrivate {
    ghost use Rattle.lms_hss.specs.Lives.{lives_of, life_of, life_id, life_seed, life_seed_file, hss_public, certificate};

    /// The key of a seed and an identifier, with the heights of the top tree and of each life's tree.
    /// All nodes of the top tree are computed; `OutOfMemory` comes where its 64 bytes for each leaf
    /// can't be had.
    pub fn make(
        alloc: Global,
        secret: [u8; 32],
        id: [u8; 16],
        top: Height,
        bottom: Height,
        ots: OtsType,
    ) -> Result<HssPrivate, OutOfMemory>
        requires { levels_of top ≤ 10 }
        ensures { IfOk result (λ key. key ≡
            record { top = top; bottom = bottom; ots = ots; id = id; seed = secret }) }
    {
        let tree = PrivateKey::make(alloc, secret, id, top, ots)?;
        Ok(HssPrivate {
            tree,
            seed: secret,
            id,
            height: top,
            bottom,
            ots,
        })
    }

    /// The same key as by `make`, with the top tree's leaves computed in at most `workers` threads, which
    /// have ended when it returns.
    pub fn make_by<R: Threads + Sync>(
        rt: &R,
        alloc: Global,
        workers: usize,
        secret: [u8; 32],
        id: [u8; 16],
        top: Height,
        bottom: Height,
        ots: OtsType,
    ) -> Result<HssPrivate, OutOfMemory>
        requires some { 0 < workers }
        requires top { levels_of top ≤ 10 }
        ensures { IfOk result (λ key. key ≡
            record { top = top; bottom = bottom; ots = ots; id = id; seed = secret }) }
    {
        let tree = PrivateKey::make_by(rt, alloc, workers, secret, id, top, ots)?;
        Ok(HssPrivate {
            tree,
            seed: secret,
            id,
            height: top,
            bottom,
            ots,
        })
    }

    /// The 60 bytes of the public key: the number 2 in four bytes, big endian, and the top tree's
    /// public key (RFC 8554, 6.1). No memory is taken.
    pub fn public(&self) -> [u8; 60]
        ensures { result ≡ hss_public self.now }
    {
        let mut out = [0u8; 60];
        put(&mut out, 0, &2u32.to_be_bytes());
        put(&mut out, 4, &self.tree.public().bytes());
        out
    }

    // The seed and the identifier of life `a`.
    #[tactic(auto, unfolding(crate::specs::Lives::life_seed, crate::specs::Lives::life_id))]
    fn life_secret(&self, a: u32) -> LifeSecret
        ensures seed { result.seed ≡ life_seed self.now a }
        ensures id { result.id ≡ life_id self.now a }
    {
        let seed = derived(b"CPhs", &self.id, a, &self.seed);
        let id = first_half(&derived(b"CPhi", &self.id, a, &self.seed));
        LifeSecret { seed, id }
    }

    /// The seed file of life `a`, of which alone the life's key is made: its seed of 32 bytes and its
    /// identifier of 16. No memory is taken.
    pub fn life_seed(&self, a: u32) -> [u8; 48]
        requires { a < lives_of self.now }
        ensures { result ≡ life_seed_file self.now a }
    {
        let LifeSecret { seed, id } = self.life_secret(a);
        let mut out = [0u8; 48];
        put(&mut out, 0, &seed);
        put(&mut out, 32, &id);
        out
    }

    /// The key of life `a`: its seed is the SHA-256 of "CPhs", I, the number of the life in four
    /// bytes, big endian, and the seed, and its identifier the first 16 bytes of the same with "CPhi"
    /// (this project's own). All nodes of its tree are computed.
    pub fn life(&self, alloc: Global, a: u32) -> Result<PrivateKey, OutOfMemory>
        requires { a < lives_of self.now }
        ensures { IfOk result (λ key. key ≡ life_of self.now a) }
    {
        let LifeSecret { seed, id } = self.life_secret(a);
        PrivateKey::make(alloc, seed, id, self.bottom, self.ots)
    }

    /// The same key as by `life`, with its leaves computed in at most `workers` threads, which have
    /// ended when it returns.
    pub fn life_by<R: Threads + Sync>(
        &self,
        rt: &R,
        alloc: Global,
        workers: usize,
        a: u32,
    ) -> Result<PrivateKey, OutOfMemory>
        requires some { 0 < workers }
        requires life { a < lives_of self.now }
        ensures { IfOk result (λ key. key ≡ life_of self.now a) }
    {
        let LifeSecret { seed, id } = self.life_secret(a);
        PrivateKey::make_by(rt, alloc, workers, seed, id, self.bottom, self.ots)
    }

    /// The certificate of life `a`, a function of the key and `a`: the number 1 in four bytes, big
    /// endian, the top tree's signature by its leaf `a` of the life's public key, and that key: what
    /// stands in front of the life's own signature in one of two levels (RFC 8554, 6.2). The life's
    /// tree is computed for it.
    #[tactic(auto, unfolding(crate::specs::Lives::certificate))]
    pub fn certificate(&self, alloc: Global, a: u32) -> Result<Vec<u8>, OutOfMemory>
        requires { a < lives_of self.now }
        ensures { IfOk result (λ bytes. bytes.items ≡ certificate self.now a) }
    {
        let life = self.life(alloc, a)?.public().bytes();
        let mut out = vec![in alloc; 0u8; 60 + self.tree.sig_len()]?;
        put_certificate(&self.tree, a, &life, out.as_mut_slice());
        Ok(out)
    }

    /// The same certificate as by `certificate`, with the leaves of the life's tree computed in at most
    /// `workers` threads, which have ended when it returns.
    #[tactic(auto, unfolding(crate::specs::Lives::certificate))]
    pub fn certificate_by<R: Threads + Sync>(
        &self,
        rt: &R,
        alloc: Global,
        workers: usize,
        a: u32,
    ) -> Result<Vec<u8>, OutOfMemory>
        requires some { 0 < workers }
        requires life { a < lives_of self.now }
        ensures { IfOk result (λ bytes. bytes.items ≡ certificate self.now a) }
    {
        let life = self.life_by(rt, alloc, workers, a)?.public().bytes();
        let mut out = vec![in alloc; 0u8; 60 + self.tree.sig_len()]?;
        put_certificate(&self.tree, a, &life, out.as_mut_slice());
        Ok(out)
    }
}
