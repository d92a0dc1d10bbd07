//! Heads of HTTP/1.1 requests and whole responses: what a connection sends and gets, in this
//! project's profile of RFC 9112. Nothing here reads or writes a connection, and nothing but
//! `response` takes memory.
#![tactic(auto)]

mod allows;
mod fields;
mod head_reads;
mod heads;
mod reading;
mod responses;
mod short_texts;

pub use allows::Allow;
pub use head_reads::HeadRead;
pub use heads::Head;
pub use reading::{HEAD_LIMIT, head_end, parse_head, read_head};
pub use responses::{response, response_head};
pub use short_texts::ShortText;

/// There is no memory left for what was asked: std's `AllocError`, under the name that the crates
/// of this project use.
pub use std::alloc::AllocError as OutOfMemory;
