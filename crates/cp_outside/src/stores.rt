//! Bytes in a room of their own.
ghost use Rattle.std.specs.Prelude.{◌≡◌, ◌↔◌, ◌≤◌, ◌<◌, ◌+◌, ◌++◌, [], IfOk, IsErr, MatchResult, length, vec_len, vec_capacity};

use crate::failures::{Failed, OutOfMemory};
use std::alloc::Global;
use std::marker::Model;

// Bytes in a room that is taken when it is made and never grows.
#[derive(Drop)]
pub(crate) struct Store {
    bytes: Vec<u8>,
    room: u64,
}

impl Model for Store {
    ghost use Rattle.std.specs.Prelude.{◌≤◌, vec_len, vec_capacity};
    ghost use Rattle.cp_outside.specs.Forms.{Kept};

    ghost Value = { Kept };

    ghost view = { λ s. record { bytes = s.bytes.items; room = s.room } };

    ghost invariant = { λ s. (vec_len s.bytes ≤ s.room) × (s.room ≤ vec_capacity s.bytes) };
}

impl Store {
    // An empty room.
    pub(crate) fn new(alloc: Global, room: u64) -> Result<Store, OutOfMemory>
        ensures { IfOk result (λ s. s ≡ record { bytes = []; room = room }) }
    {
        Ok(Store {
            bytes: Vec::with_capacity(alloc, room as usize)?,
            room,
        })
    }

    pub(crate) fn as_slice(&self) -> &[u8]
        ensures { result.now ≡ self.now.bytes }
    {
        self.bytes.as_slice()
    }

    // Appends a piece, exactly where the room has place for it.
    pub(crate) fn append(&mut self, piece: &[u8]) -> Result<(), Failed>
        ensures full { IsErr result ↔ (self.old.room < length self.old.bytes + length piece.now) }
        ensures kept { MatchResult result
            (λ _. self.new ≡ record self.old { bytes = self.old.bytes ++ piece.now })
            (λ _. self.new ≡ self.old) }
    {
        if piece.len() as u64 > self.room - self.bytes.len() as u64 {
            return Err(Failed);
        }
        match self.bytes.extend_from_slice(piece) {
            Ok(()) => Ok(()),
            Err(_) => Err(Failed),
        }
    }
}
