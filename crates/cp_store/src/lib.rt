//! A store in one thread, by the plain machine or by sixteen shards and a closer: both answer each call
//! and close each epoch by the definitions' step.
#![tactic(auto)]

mod answering;
mod by;
mod closing;
pub mod laws;
mod log;
mod plain;
mod segment;
mod sharded;
mod store;

pub use by::By;
pub use cp_closer::SealedText;
pub use cp_core::{Answer, CloseRefusal, OutOfMemory, Request};
pub use store::Store;
