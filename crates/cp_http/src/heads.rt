//! What a head says.

/// What the head of a request says, borrowed from its bytes.
#[derive(Clone, Copy, Debug)]
pub struct Head<'a> {
    /// The method, as it is written: methods are told apart by case.
    pub method: &'a str,
    /// The request target, as it is written.
    pub path: &'a str,
    /// The number of bytes of the body, where a Content-Length field gives it.
    pub content_length: Option<u64>,
    /// Whether a Connection field has `close` among its parts.
    pub close: bool,
}
