//! Standard output whose first bytes are kept, so that what went wrong can be said again on
//! standard error.
use cp_outside::{Endpoint, Failed, Sink};

// The most bytes that are kept.
const ROOM: usize = 256;

/// A sink, and the first bytes that went to it.
#[derive(Drop)]
pub struct KeptLine<S: Sink + Drop> {
    sink: S,
    bytes: [u8; ROOM],
    length: usize,
}

impl<S: Sink + Drop> KeptLine<S> {
    /// Over this sink, with no byte yet.
    pub fn new(sink: S) -> KeptLine<S> {
        KeptLine {
            sink,
            bytes: [0; ROOM],
            length: 0,
        }
    }

    /// The first bytes that went to the sink, as text.
    pub fn text(&self) -> &str {
        str::from_utf8(&self.bytes[..self.length.min(ROOM)]).unwrap_or("")
    }
}

impl<S: Sink + Drop> Endpoint for KeptLine<S> {
    ghost left = { λ s. S.left s.sink };

    ghost held = { λ s. S.held s.sink };

    ghost read_faults = { λ s. S.read_faults s.sink };

    ghost write_faults = { λ s. S.write_faults s.sink };
}

impl<S: Sink + Drop> Sink for KeptLine<S> {
    fn write(&mut self, bytes: &[u8]) -> Result<usize, Failed> {
        match self.sink.write(bytes) {
            Ok(count) => {
                let start = self.length.min(ROOM);
                let kept = count.min(ROOM - start);
                self.bytes[start..start + kept].copy_from_slice(&bytes[..kept]);
                self.length = start + kept;
                Ok(count)
            }
            Err(failed) => Err(failed),
        }
    }
}
