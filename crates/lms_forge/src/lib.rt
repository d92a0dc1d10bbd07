//! From an LMS signature that the holder of a key didn't make, what must have failed: two texts with
//! one digest, or a value of a one-time chain that the key hasn't shown.
#![tactic(auto)]

mod digits;
mod fields;
mod finding;
mod keys;
mod laws;
mod nodes;
mod signed;
mod steps;
mod texts;
mod witness;

pub use laws::{checksum_dominates, forgeries_have_witnesses};
pub use lms_tree::OutOfMemory;
pub use signed::Signed;
pub use witness::{AddRefusal, ForgeryRefusal, Witness};
