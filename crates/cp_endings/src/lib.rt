//! How the commands of the program `cloudproof` end: each one's status and printed lines; and what
//! reading their input files gives: the bytes, or how the command ends without them.
#![tactic(auto)]

mod audit_ending;
mod audit_printing;
mod client_ending;
mod client_printing;
mod ending;
mod epoch_part;
mod guilt;
mod inputs;
mod limits;
mod more_ending;
mod more_printing;
mod printing;
mod three;

pub use audit_ending::AuditEnding;
pub use client_ending::ClientEnding;
pub use ending::Ending;
pub use epoch_part::EpochPart;
pub use guilt::Guilt;
pub use inputs::input;
pub use limits::{EVIDENCE_LIMIT, REPLY_LIMIT, SIGNATURE_LIMIT, SIGNED_TEXT_LIMIT};
pub use more_ending::MoreEnding;
pub use printing::report;
pub use three::{Input, ThreeFiles, three_inputs};
