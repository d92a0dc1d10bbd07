//! Which method an `Allow` field names.

/// What the `Allow` field of a response says (RFC 9110, section 10.2.1): the one method that a path
/// has, on a 405 response.
#[derive(Clone, Copy, Debug, PartialEq, Eq)]
pub enum Allow {
    /// The response has no such field.
    Nothing,
    /// `Allow: GET`
    Get,
    /// `Allow: POST`
    Post,
}
