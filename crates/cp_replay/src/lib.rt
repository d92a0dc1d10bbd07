//! A script's calls and closings, run through a store: what it prints, and the files that it
//! leaves.
#![tactic(auto)]

mod epoch_files;
mod line;
mod printing;
mod reading;
mod replayed;
mod replaying;
mod running;
mod script;
mod script_refusal;
mod signing;
mod words;
mod writer;
mod writer_list;
mod writers;

pub use cp_bytes::OutOfMemory;
pub use cp_store::By;
pub use epoch_files::EpochFiles;
pub use line::Line;
pub use replayed::Replayed;
pub use replaying::replay;
pub use script::Script;
pub use script_refusal::ScriptRefusal;
