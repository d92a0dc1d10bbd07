//! A pool of pages for the contents of a shard's blocks. It takes all its memory when it is made; a
//! content then takes as many whole pages as it needs, and gives them back when it is replaced.
//!
//! A pool is seen as a list with one place for each page: `Some` where a live run begins, with the
//! run's pages and the bytes that were placed, and `None` elsewhere.
#![tactic(auto)]

pub use pool::{PAGE, Pool};
pub use pool_full::PoolFull;
pub use run::Run;
pub use std::alloc::AllocError as OutOfMemory;

mod chain;
mod pool;
mod pool_full;
mod run;
