//! Where a request lies.
use crate::routes::Route;

/// A request that a route takes, and where it lies at the front of the bytes.
#[derive(Clone, Copy, Debug)]
pub(crate) struct Request {
    /// What it is for.
    pub(crate) route: Route,
    /// Where the body begins that the desk gets, in bytes from the front.
    pub(crate) start: usize,
    /// Where the body and the request end, in bytes from the front.
    pub(crate) stop: usize,
    /// Whether the request asks for the end of the connection.
    pub(crate) close: bool,
}
