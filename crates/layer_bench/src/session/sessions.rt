//! Connections that are served.
use crate::session::desk::Prompt;
use crate::session::link::Counting;
use cp_session::serve_connection;
use std::alloc::{AllocError, Global};
use std::sync::Wait;

/// How many requests a connection sends: one fewer than a session takes.
pub const REQUESTS: u32 = 9_999;

/// The request that a connection sends again and again: a head, as a client writes it.
pub const REQUEST: &[u8; 110] =
    b"GET /v1/epoch/1/closing HTTP/1.1\r\nHost: store.example:8080\r\nUser-Agent: client/1.0\r\nAccept: */*\r\nX-N: 1234\r\n\r\n";

/// All requests of a connection.
pub fn requests(alloc: Global) -> Result<Vec<u8>, AllocError> {
    let mut bytes = Vec::new(alloc);
    for _ in 0..REQUESTS {
        bytes.extend_from_slice(REQUEST)?;
    }
    Ok(bytes)
}

/// What serving connections came to.
#[derive(Clone, Copy)]
pub struct Counts {
    pub answered: u64,
    pub read: u64,
    pub written: u64,
    pub moved: u64,
}

impl Counts {
    fn new() -> Counts {
        Counts {
            answered: 0,
            read: 0,
            written: 0,
            moved: 0,
        }
    }

    // Adds those of another connection.
    fn add(&mut self, other: &Counts) {
        self.answered = self.answered.saturating_add(other.answered);
        self.read = self.read.saturating_add(other.read);
        self.written = self.written.saturating_add(other.written);
        self.moved = self.moved.saturating_add(other.moved);
    }
}

// Serves one connection that sends these bytes in pieces. A session that doesn't end well answers no
// request here.
fn serve<R: Wait>(rt: &R, alloc: Global, input: &[u8], piece: usize) -> Counts {
    let mut link = Counting::new(input, piece);
    let answered = serve_connection(rt, alloc, &mut link, &mut Prompt).unwrap_or(0);
    Counts {
        answered: u64::from(answered),
        read: link.read,
        written: link.written,
        moved: link.moved,
    }
}

/// Serves so many connections, each of which sends these bytes in pieces.
pub fn serve_all<R: Wait>(
    rt: &R,
    alloc: Global,
    input: &[u8],
    connections: u32,
    piece: usize,
) -> Counts {
    let mut counts = Counts::new();
    for _ in 0..connections {
        counts.add(&serve(rt, alloc, input, piece));
    }
    counts
}
