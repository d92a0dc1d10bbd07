//! The head of a chain after an entry that isn't written out.
ghost use Rattle.std.specs.Prelude.{◌≡◌};
ghost use Rattle.cp_bytes.specs.Hashes.{head};
ghost use Rattle.cp_statements.specs.Entry.{entry_text};
ghost use Rattle.cp_statements.specs.View.{entry_view};

use cp_statements::{Entry, Kind};
use sha2::{Digest, Sha256};

// The head of a chain after the entry. Its text is hashed piece by piece, which takes no memory.
#[tactic(auto, unfolding(cp_bytes::specs::Hashes::head, cp_statements::specs::Entry::entry_text))]
pub(crate) fn head_after(prev: &[u8; 32], entry: &Entry<'_>) -> [u8; 32]
    ensures { result ≡ head prev.now (entry_text (entry_view entry.now)) }
{
    let mut hasher = Sha256::new_with_prefix(b"CPch");
    hasher.update(prev);
    hasher.update(&entry.fields_text());
    match entry.kind {
        Kind::Put => {
            // Four bytes hold the length of each signature that fits.
            let [_, _, _, _, a, b, c, d] = (entry.signature.len() as u64).to_be_bytes();
            hasher.update(&[a, b, c, d]);
            hasher.update(entry.signature);
            hasher.finalize()
        }
        Kind::Get => hasher.finalize(),
    }
}
