//! Tips: how each block stands at an epoch's end, and the tables that a store signs of them.
#![tactic(auto)]

mod blocks;
pub mod laws;
mod regress;
mod rows;
mod table;
pub mod tip;
mod writing;

pub use cp_bytes::OutOfMemory;
pub use regress::first_regress;
pub use table::TableText;
pub use tip::Tip;
pub use writing::build;
