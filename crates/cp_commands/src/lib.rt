//! The commands of the program `cloudproof`, as the words of its command line spell them.
#![tactic(auto)]

mod audit_words;
mod by;
mod certify_words;
mod client_words;
mod command;
mod more_words;
mod replay_words;

pub use audit_words::AuditWords;
pub use by::By;
pub use certify_words::CertifyWords;
pub use client_words::{AcceptWords, CallWords, GetWords, PutWords};
pub use command::Command;
pub use more_words::ForgeryWords;
pub use replay_words::ReplayWords;
