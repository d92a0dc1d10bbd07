//! HSS signatures of two levels over SHA-256 (RFC 8554, section 6): one operator's key for many lives
//! of a store. Each life has a bottom tree of its own, whose public key the top tree signs. The
//! standard's other numbers of levels, 1 and 3 to 8, are left out.
#![tactic(auto)]

mod fault;
mod joining;
mod laws;
mod private;
mod public;
mod verifying;

pub use cp_bytes::OutOfMemory;
pub use fault::HssFault;
pub use joining::hss_signature;
pub use laws::{joined_verifies, lives_verify, lives_verify_joined, tests_are_the_statements};
pub use private::HssPrivate;
pub use public::HssPublic;
pub use verifying::{certified_life, hss_verify};
