//! The commands of the program `cloudproof`, over any folder, vault's disk and sink.
#![tactic(auto)]

mod accepting;
mod asking;
mod audit_sources;
mod auditing;
mod drawing;
mod file_write;
mod judging;
mod keygen;
mod replaying;
mod running;
mod verifying;

pub use running::run;
