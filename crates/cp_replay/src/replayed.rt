//! What a replay printed, and its files.

use crate::EpochFiles;
use cp_bytes::Bytes;

/// What a replay printed, and the files that it leaves (this project's own).
#[derive(Debug, Drop)]
pub struct Replayed {
    /// The store's key.
    pub key: [u8; 56],
    /// The printed lines, each with its end.
    pub text: Bytes,
    /// The envelopes of the attestations of all calls that were answered with one, in order.
    pub handins: Bytes,
    /// The files of the closed epochs, from epoch 1 on.
    pub epochs: Vec<EpochFiles>,
}
