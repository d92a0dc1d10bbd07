//! The fields in which an answer may be of another call.

/// A field of a call, in the order in which an answer is compared with what was asked. `Version` and
/// `Hash`, the content's hash, are compared at a put.
#[derive(Clone, Copy, Debug, PartialEq, Eq)]
pub enum Field {
    Store,
    Kind,
    Epoch,
    Block,
    Client,
    Nonce,
    Version,
    Hash,
}
