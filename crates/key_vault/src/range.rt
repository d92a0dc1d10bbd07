//! Ranges of leaves that were reserved.
ghost use Rattle.std.specs.Prelude.{◌≡◌, ◌+◌, ◌<◌, ◌≤◌, ◌↔◌, IsTrue, MatchOption};

use std::marker::Model;

/// Leaves of a key that were reserved and not yet taken, from the least one on. It has the id of its
/// key, as the vault that it is of. Only `Vault::reserve` hands one out.
#[derive(Drop)]
pub struct LeafRange {
    key: [u8; 32],
    next: u64,
    end: u64,
}

impl Model for LeafRange {
    ghost use Rattle.key_vault.specs.Ranges.{Range};

    ghost Value = { Range };

    ghost view = { λ a. record { key = a.key; from = a.next; to = a.end } };
}

impl LeafRange {
    // The leaves of the key with this id, from `from` on and below `to`.
    pub(crate) fn new(key: [u8; 32], from: u64, to: u64) -> LeafRange
        ensures { result ≡ record { key = key; from = from; to = to } }
    {
        LeafRange {
            key,
            next: from,
            end: to,
        }
    }

    /// Whether no leaf is left.
    pub fn is_empty(&self) -> bool
        ensures { IsTrue result ↔ (self.now.to ≤ self.now.from) }
    {
        self.next >= self.end
    }

    /// The least leaf that is left. `None` comes exactly where none is left.
    pub fn take(&mut self) -> Option<u64>
        ensures { MatchOption result
            ((self.old.to ≤ self.old.from) × (self.new ≡ self.old))
            (λ leaf. (leaf ≡ self.old.from) × (leaf < self.old.to) × (self.new ≡ record self.old { from = leaf + 1 })) }
    {
        if self.next >= self.end {
            return None;
        }
        let leaf = self.next;
        self.next = leaf + 1;
        Some(leaf)
    }
}
