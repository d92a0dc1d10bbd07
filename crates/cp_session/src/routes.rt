//! What a request is for.
use crate::part_names::PartName;

/// What a request is for, as its path names it.
#[derive(Clone, Copy, Debug, PartialEq, Eq)]
pub enum Route {
    /// `GET /v1/key`: the store's key.
    Key,
    /// `POST /v1/put`: a put.
    Put,
    /// `POST /v1/get`: a get.
    Get,
    /// `POST /v1/close`: a close order.
    Close,
    /// `GET /v1/epoch/E/P`: the part P of the epoch E, which is at least 1.
    Part { epoch: u64, part: PartName },
    /// `POST /v1/handin`: envelopes for the auditor.
    HandIn,
    /// `GET /v1/verdict/E`: the audit's verdict on the epoch E, which is at least 1.
    Verdict { epoch: u64 },
}
