//! A connection whose bytes come in pieces.
ghost use Rattle.std.specs.Prelude.{None};

use cp_outside::{Endpoint, Failed, Link, MemLink, Sink, Source};

/// A connection in memory, a read of which gives at most so many bytes.
#[derive(Drop)]
pub struct Pieces {
    pub link: MemLink,
    pub most: usize,
}

impl Endpoint for Pieces {
    ghost left = { λ _. None };

    ghost held = { λ _. None };

    ghost read_faults = { λ s. s.link.read_faults };

    ghost write_faults = { λ s. s.link.write_faults };
}

impl Source for Pieces {
    fn read(&mut self, into: &mut [u8]) -> Result<usize, Failed> {
        let count = into.len().min(self.most);
        self.link.read(&mut into[..count])
    }
}

impl Sink for Pieces {
    fn write(&mut self, bytes: &[u8]) -> Result<usize, Failed> {
        self.link.write(bytes)
    }
}

impl Link for Pieces {}
