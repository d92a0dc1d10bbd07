//! The key of a call.

/// What tells a call from the others of its epoch (this project's own). The order is by block, then
/// client, then nonce.
#[derive(Clone, Copy, Debug, PartialEq, Eq, PartialOrd, Ord)]
pub struct Key {
    /// The block's number.
    pub block: u64,
    /// The number of the client that calls.
    pub client: u32,
    /// The client's own number for this call.
    pub nonce: u64,
}
