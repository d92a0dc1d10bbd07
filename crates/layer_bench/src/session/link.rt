//! A connection in memory that counts.
ghost use Rattle.std.specs.Prelude.{None};

use cp_outside::{Endpoint, Failed, Link, Sink, Source};

// The room into which a session reads.
const ROOM: usize = 147_456;

/// A connection that gives its bytes in pieces, drops what is written to it, and counts both.
#[derive(Drop)]
pub struct Counting<'a> {
    left: &'a [u8],
    piece: usize,
    /// The bytes that were read.
    pub read: u64,
    /// The bytes that were written.
    pub written: u64,
    /// The bytes that the session moved to the front of its room: those that stood there at a read
    /// before which requests were answered.
    pub moved: u64,
    // How many bytes stand in the room if none was answered since the last read.
    held: usize,
}

impl<'a> Counting<'a> {
    pub fn new(bytes: &'a [u8], piece: usize) -> Counting<'a> {
        Counting {
            left: bytes,
            piece: if piece == 0 { ROOM } else { piece },
            read: 0,
            written: 0,
            moved: 0,
            held: 0,
        }
    }
}

impl Endpoint for Counting<'_> {
    ghost left = { λ _. None };

    ghost held = { λ _. None };

    ghost read_faults = { λ _. 0 };

    ghost write_faults = { λ _. 0 };
}

impl Source for Counting<'_> {
    fn read(&mut self, into: &mut [u8]) -> Result<usize, Failed> {
        let n = into.len().min(self.piece).min(self.left.len());
        into[..n].copy_from_slice(&self.left[..n]);
        self.left = &self.left[n..];
        self.read = self.read.saturating_add(n as u64);
        let standing = ROOM.saturating_sub(into.len());
        if standing < self.held {
            self.moved = self.moved.saturating_add(standing as u64);
        }
        self.held = standing.saturating_add(n);
        Ok(n)
    }
}

impl Sink for Counting<'_> {
    fn write(&mut self, bytes: &[u8]) -> Result<usize, Failed> {
        self.written = self.written.saturating_add(bytes.len() as u64);
        Ok(bytes.len())
    }
}

impl Link for Counting<'_> {}
