//! What stands where a request is due.
use crate::rejections::Rejection;
use crate::requests::Request;

/// What stands at the front of the bytes where a request is due.
#[derive(Clone, Copy, Debug)]
pub(crate) enum Front {
    /// No request is whole yet.
    Waiting,
    /// What stands there is rejected, whatever comes behind it.
    Rejected(Rejection),
    /// A whole request that a route takes.
    Asked(Request),
}
