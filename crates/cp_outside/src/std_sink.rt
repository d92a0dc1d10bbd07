//! A sink over a writer of std.
ghost use Rattle.std.specs.Prelude.{None};

use crate::endpoints::Endpoint;
use crate::failures::Failed;
use crate::sinks::Sink;
use std::io::Write;

/// A sink over a writer of std, as over standard output. It tells nothing of the bytes that it holds.
#[derive(Drop)]
pub struct StdSink<W: Write + Drop> {
    inner: W,
    faults: u64,
}

impl<W: Write + Drop> StdSink<W> {
    /// Over this writer, with no fault so far.
    pub fn new(inner: W) -> StdSink<W> {
        StdSink { inner, faults: 0 }
    }
}

impl<W: Write + Drop> Endpoint for StdSink<W> {
    ghost left = { λ _. None };

    ghost held = { λ _. None };

    ghost read_faults = { λ _. 0 };

    ghost write_faults = { λ s. s.faults };
}

impl<W: Write + Drop> Sink for StdSink<W> {
    // A writer that takes nothing of a piece would never take it all: that is a fault too.
    fn write(&mut self, bytes: &[u8]) -> Result<usize, Failed> {
        match self.inner.write(bytes) {
            Ok(count) => {
                if count > 0 || bytes.is_empty() {
                    return Ok(count);
                }
            }
            Err(_) => {}
        }
        self.faults = self.faults.saturating_add(1);
        Err(Failed)
    }
}
