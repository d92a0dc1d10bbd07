//! Appending a write to a log.
ghost use Rattle.std.specs.Prelude.{◌≡◌, ℕ, ◌+◌, ◌-◌, ◌<◌, ◌≤◌, ◌++◌, ◌∷◌, [], length, IsOk, All, vec_len, vec_capacity};
ghost use Rattle.cp_outside.specs.Entries.{IsWithin, writes_in};

use crate::entries::Entry;
use crate::failures::Failed;

// Appends a write to the others, where the vectors have the room for it.
pub(crate) fn append(
    entries: &mut Vec<Entry>,
    bytes: &mut Vec<u8>,
    name: &str,
    content: &[u8],
) -> Result<(), Failed>
    requires entry_room { vec_len entries.old < vec_capacity entries.old }
    requires byte_room { vec_len bytes.old + length name.now + length content.now ≤ vec_capacity bytes.old }
    requires within { All (IsWithin (vec_len bytes.old)) entries.old.items }
    ensures succeeds { IsOk result }
    ensures bytes { bytes.new.items ≡ bytes.old.items ++ name.now ++ content.now }
    ensures writes { writes_in bytes.new.items entries.new.items
        ≡ writes_in bytes.old.items entries.old.items ++ record { name = name.now; content = content.now } ∷ [] }
    ensures within { All (IsWithin (vec_len bytes.new)) entries.new.items }
    ensures lengths { (vec_len entries.new ≡ vec_len entries.old + 1) × (vec_len bytes.new ≡ vec_len bytes.old + length name.now + length content.now) }
    ensures capacities { (vec_capacity entries.old ≤ vec_capacity entries.new) × (vec_capacity bytes.old ≤ vec_capacity bytes.new) }
{
    let start = bytes.len();
    let middle = start + name.len();
    let end = middle + content.len();
    if bytes.extend_from_slice(name.as_bytes()).is_err()
        || bytes.extend_from_slice(content).is_err()
    {
        return Err(Failed);
    }
    match entries.push(Entry { start, middle, end }) {
        Ok(()) => Ok(()),
        Err(_) => Err(Failed),
    }
}
