//! Segments of a block's chain: the texts that it gained in an epoch. Whether such a segment leads
//! from tip to tip, whether it is legal or which rule it breaks first, and whether an attestation
//! stands in it.
#![tactic(auto)]

pub mod broken;
mod call;
pub mod fault;
pub mod first;
pub mod frame;
mod head;
pub mod indexed;
pub mod laws;
pub mod log;
mod put;
pub mod rule;
pub mod segment;
pub mod standing;

pub use broken::breaks;
pub use fault::Fault;
pub use first::first_fault;
pub use frame::Frame;
pub use indexed::first_fault_by_index;
pub use log::{LogPart, LogParts, LogText};
pub use rule::Rule;
pub use segment::{Segment, Texts};
pub use standing::{reaches, says_the_same, stands};
