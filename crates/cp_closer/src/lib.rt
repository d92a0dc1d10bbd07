//! The closer of a store: it takes the frozen parts of an epoch's sixteen shards, and makes of them the
//! epoch's closing text, its table and its log.
//!
//! A closer is seen as a record: the phase of the closing, the families lists of the epoch and of the next
//! one, the tip of each block by the parts that were taken, the parts of the epoch that is being closed,
//! and all seals.
#![tactic(auto)]

pub use closer::Closer;
pub use cp_core::{CloseRefusal, FrozenBlock, FrozenPart, OutOfMemory, Phase, SealItem, Seals};
pub use sealed_text::SealedText;
pub use writing::{add_text, start_log, start_segment};

mod closer;
pub mod laws;
mod log;
mod pending;
mod sealed_text;
mod tips;
mod writing;
