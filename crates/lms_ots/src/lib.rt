//! LM-OTS one-time signatures over SHA-256 (RFC 8554, section 4): keys, signatures and the candidate
//! that a verifier computes, for all four widths. No call takes memory.
#![tactic(auto)]

mod chains;
mod digits;
mod lanes;
mod ots_type;
pub mod plain;
mod signing;
mod verifying;

pub use chains::{chain, step_text, tagged};
pub use digits::{cksm, coef};
pub use lanes::{ots_candidate, ots_public, ots_publics, ots_sign};
pub use ots_type::OtsType;
pub use signing::{RANDOMIZER, secret_start, what_is_signed_leads_to_its_key};
pub use verifying::{D_MESG, D_PBLC, max_digit, message_hash, with_cksm, y_at};
