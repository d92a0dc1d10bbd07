//! Bytes that are read from the front.
ghost use Rattle.std.specs.Prelude.{◌≡◌, ◌≤◌, ◌++◌, List, ℕ, drop, length, take, min, vec_len};

use std::marker::Model;

// Bytes of which those at the front were read already.
#[derive(Drop)]
pub(crate) struct Supply {
    bytes: Vec<u8>,
    at: usize,
}

impl Model for Supply {
    ghost Value = { List ℕ };

    ghost view = { λ s. drop s.at s.bytes.items };

    ghost invariant = { λ s. s.at ≤ vec_len s.bytes };
}

impl Supply {
    // All of these bytes.
    pub(crate) fn new(bytes: Vec<u8>) -> Supply
        ensures { result ≡ bytes.items }
    {
        Supply { bytes, at: 0 }
    }

    // Moves the next bytes to the front of `into`, as many as there are and fit, and says how many.
    pub(crate) fn take(&mut self, into: &mut [u8]) -> usize
        ensures count { result ≡ min (length into.new) (length self.old) }
        ensures moved { self.old ≡ take result into.new ++ self.new }
    {
        let count = copy_front(&self.bytes[self.at..], into);
        self.at += count;
        count
    }
}

// Copies the first bytes to the front of `into`, as many as there are and fit, and says how many.
pub(crate) fn copy_front(bytes: &[u8], into: &mut [u8]) -> usize
    ensures count { result ≡ min (length into.new) (length bytes.now) }
    ensures copied { take result into.new ≡ take result bytes.now }
{
    let count = into.len().min(bytes.len());
    into[..count].copy_from_slice(&bytes[..count]);
    count
}
