//! A shard: the blocks whose numbers leave one remainder modulo 16, with the entries of their chains,
//! how each block stands, its latest content in a pool of pages, and an index of the epoch's calls, by
//! which a repeat is answered as the first time. A call takes time that grows with the logarithms of
//! the number of blocks and of the epoch's calls, and no list is walked. Once an epoch has ended, its
//! entries are copied block by block, with the tips that the blocks had then, and the copy looks at the
//! rows of that epoch alone.
#![tactic(auto)]

mod appending;
mod booking;
mod call;
mod drawing;
mod early;
mod gathering;
mod get;
mod key;
pub mod laws;
mod put;
mod room;
mod row_tip;
mod shard;
mod standing;

pub use cp_bytes::OutOfMemory;
pub use shard::Shard;
