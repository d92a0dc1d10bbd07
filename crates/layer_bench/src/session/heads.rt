//! Heads that `httparse` reads alone.
use crate::session::sessions::REQUEST;
use httparse::{EMPTY_HEADER, Request, Status};

// Whether a text is a whole head.
fn is_head(text: &[u8]) -> bool {
    let mut fields = [EMPTY_HEADER; 64];
    let mut request = Request::new(&mut fields);
    match request.parse(text) {
        Ok(Status::Complete(_)) => true,
        _ => false,
    }
}

/// How many of the requests are whole heads.
pub fn read_heads(input: &[u8]) -> u64 {
    let mut count = 0u64;
    for text in input.chunks(REQUEST.len()) {
        if is_head(text) {
            count = count.saturating_add(1);
        }
    }
    count
}
