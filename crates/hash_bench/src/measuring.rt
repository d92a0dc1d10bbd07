//! The measurements. Each prints nanoseconds and some bytes of the result.
ghost use Rattle.std.specs.Prelude.{◌≡◌, ◌<◌, length};
ghost use Rattle.lms_tree.specs.Secret.{leaves_of, signature_len};

use crate::steps::{ends_by_lanes, ends_one_by_one};
use crate::task::{Body, ID, SEED, front};
use crate::tree::Tree;
use lms_ots::OtsType;
use lms_tree::{Height, PrivateKey, PublicKey, verify};
use std::io;
use std::time::Instant;

/// So many chains of 255 steps, by lanes the multiple of four below.
pub fn measure_steps(rt: &HostRuntime, chains: u32, body: Body) -> io::Result<()> {
    let begun = Instant::now(rt)?;
    let all = match body {
        Body::Lanes => ends_by_lanes(chains / 4),
        Body::Plain => ends_one_by_one(chains),
    };
    let time = begun.elapsed(rt)?.as_nanos();
    println!(rt; "step {time} {:016x}", front(&all))
}

/// Prints the time since `begun`, in which a key with this root was made.
pub fn print_make(rt: &HostRuntime, begun: Instant, root: Option<[u8; 32]>) -> io::Result<()> {
    let time = begun.elapsed(rt)?.as_nanos();
    match root {
        Some(root) => println!(rt; "make {time} {:016x}", front(&root)),
        None => println!(rt; "out of memory"),
    }
}

// The text that a leaf signs in a round.
fn text_of(round: u16, leaf: u32) -> [u8; 4] {
    let [.., high, low] = leaf.to_be_bytes();
    let [first, second] = round.to_be_bytes();
    [first, second, high, low]
}

// What signing and verifying took, in nanoseconds, and whether all signatures verified.
#[derive(Drop)]
struct Times {
    signing: u128,
    verifying: u128,
    good: bool,
}

impl Times {
    fn new() -> Times {
        Times {
            signing: 0,
            verifying: 0,
            good: true,
        }
    }

    fn add(&mut self, signing: u128, both: u128, good: bool) {
        self.signing = self.signing.saturating_add(signing);
        self.verifying = self.verifying.saturating_add(both.saturating_sub(signing));
        self.good &= good;
    }

    // Prints the times, and eight bytes of the last signature's first chain.
    fn print(&self, rt: &HostRuntime, chains: &[u8]) -> io::Result<()> {
        if !self.good {
            return println!(rt; "a signature does not verify");
        }
        let bytes = match chains {
            [a, b, c, d, e, f, g, h, ..] => u64::from_be_bytes([*a, *b, *c, *d, *e, *f, *g, *h]),
            _ => 0,
        };
        println!(rt;
            "sign {} verify {} {bytes:016x}",
            self.signing, self.verifying
        )
    }
}

// Each leaf signs once by four lanes, and each signature is verified.
fn lanes_round(
    rt: &HostRuntime,
    key: &PrivateKey,
    round: u16,
    sig: &mut [u8],
    times: &mut Times,
) -> io::Result<()>
    requires { length sig.old ≡ signature_len key.now }
{
    let public = key.public();
    for leaf in 0..key.leaves() {
        let text = text_of(round, leaf);
        let begun = Instant::now(rt)?;
        key.sign_into(leaf, &text, sig);
        let signing = begun.elapsed(rt)?.as_nanos();
        let good = verify(&public, &text, sig);
        times.add(signing, begun.elapsed(rt)?.as_nanos(), good);
    }
    Ok(())
}

/// Each leaf of a key of height 5 signs in each of so many rounds, by four lanes, and each signature
/// is verified.
pub fn measure_lanes(rt: &HostRuntime, ots: OtsType, rounds: u16) -> io::Result<()> {
    let Ok(key) = PrivateKey::make(rt.alloc(), SEED, ID, Height::H5, ots) else {
        return println!(rt; "out of memory");
    };
    let mut sig = vec![in rt.alloc(); 0u8; key.sig_len()]?;
    let mut times = Times::new();
    for round in 0..rounds {
        lanes_round(rt, &key, round, sig.as_mut_slice(), &mut times)?;
    }
    times.print(rt, &sig.as_slice()[40..])
}

// Each leaf signs once by the plain body, and each signature is verified.
fn plain_round(
    rt: &HostRuntime,
    tree: &Tree,
    round: u16,
    sig: &mut [u8],
    times: &mut Times,
) -> io::Result<()> {
    for leaf in 0..32 {
        let text = text_of(round, leaf);
        let begun = Instant::now(rt)?;
        tree.sign(leaf, &text, sig);
        let signing = begun.elapsed(rt)?.as_nanos();
        let good = tree.verify(32, leaf, &text, sig);
        times.add(signing, begun.elapsed(rt)?.as_nanos(), good);
    }
    Ok(())
}

/// The same by the plain bodies, over a tree of height 5.
pub fn measure_plain(rt: &HostRuntime, tree: &Tree, ots: OtsType, rounds: u16) -> io::Result<()> {
    let mut sig = vec![in rt.alloc(); 0u8; ots.sig_len()]?;
    let mut times = Times::new();
    for round in 0..rounds {
        plain_round(rt, tree, round, sig.as_mut_slice(), &mut times)?;
    }
    times.print(rt, &sig.as_slice()[36..])
}
