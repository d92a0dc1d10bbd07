//! SHA-256 of one or two texts, and the hashes of a block's chain.
ghost use Rattle.std.specs.Prelude.{◌≡◌, ◌++◌};
ghost use Rattle.sha2.specs.Sha256.{sha256};
ghost use Rattle.cp_bytes.specs.Hashes.{genesis, head};

use sha2::{Digest, Sha256};

/// SHA-256 of `a` (FIPS 180-4).
pub fn digest(a: &[u8]) -> [u8; 32]
    ensures { result ≡ sha256 a.now }
{
    Sha256::digest(a)
}

/// SHA-256 of `a` followed by `b` (FIPS 180-4).
pub fn digest2(a: &[u8], b: &[u8]) -> [u8; 32]
    ensures { result ≡ sha256 (a.now ++ b.now) }
{
    let mut hasher = Sha256::new_with_prefix(a);
    hasher.update(b);
    hasher.finalize()
}

/// The head of the chain of `block` before its first entry: SHA-256 of "CPg0" and the block's
/// number in eight bytes, big endian (this project's own).
#[tactic(auto, unfolding(crate::specs::Hashes::genesis))]
pub fn genesis(block: u64) -> [u8; 32]
    ensures { result ≡ genesis block }
{
    digest2(b"CPg0", &block.to_be_bytes())
}

/// The head of a chain after one more entry: SHA-256 of "CPch", the head before and the entry's
/// text (this project's own).
#[tactic(auto, unfolding(crate::specs::Hashes::head))]
pub fn head(prev: &[u8; 32], entry: &[u8]) -> [u8; 32]
    ensures { result ≡ head prev.now entry.now }
{
    let mut hasher = Sha256::new_with_prefix(b"CPch");
    hasher.update(prev);
    hasher.update(entry);
    hasher.finalize()
}
