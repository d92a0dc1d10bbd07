//! SHA-256 (FIPS 180-4) of four messages of the same length at a time, each in its lane of std's
//! vectors. Messages of 55 bytes have a call of their own: a step of a one-time chain (RFC 8554)
//! hashes such a message, and one of 55 bytes is the longest that is padded to a single block.
#![tactic(auto)]

mod blocks;
mod constants;
mod functions;
mod messages;
mod rounds;
mod words;

pub use blocks::digests_of_55;
pub use messages::digests_of_four;
