//! Bytes: fields from the front of a text, owned bytes, and the hashes of a block's chain.
#![tactic(auto)]

pub mod buffer;
pub mod cut;
pub mod hashes;
pub mod owned;

pub use buffer::put;
pub use cut::{Cut, Short};
pub use hashes::{digest, digest2, genesis, head};
pub use owned::Bytes;
pub use std::alloc::AllocError as OutOfMemory;
