//! Requests that no desk gets to see.
ghost use Rattle.std.specs.Prelude.{◌≡◌};
ghost use Rattle.cp_http.specs.Statuses.{IsStatus};

use cp_http::Allow;

/// Why a request is rejected before its body is read. No desk sees such a request or gives such an
/// answer, and its response is the connection's last.
#[derive(Clone, Copy, Debug, PartialEq, Eq)]
pub enum Rejection {
    /// What stands there is no head.
    BadHead,
    /// The head doesn't end within its limit.
    HeadTooLong,
    /// The path is no route's.
    NoRoute,
    /// The path has another method, which the response allows.
    MethodNotAllowed(Allow),
    /// A POST without Content-Length.
    NoLength,
    /// The body is longer than 131,072 bytes.
    BodyTooLong,
}

impl Rejection {
    ghost use Rattle.cp_session.specs.Rejections.{status_of, allow_in, body_of};

    /// The status of the response that tells it.
    pub fn status(self) -> u16
        ensures value { result ≡ status_of self }
        ensures known { IsStatus result }
    {
        match self {
            Rejection::BadHead | Rejection::NoLength => 400,
            Rejection::NoRoute => 404,
            Rejection::MethodNotAllowed(_) => 405,
            Rejection::HeadTooLong | Rejection::BodyTooLong => 413,
        }
    }

    /// What the response allows.
    pub fn allow(self) -> Allow
        ensures { result ≡ allow_in self }
    {
        match self {
            Rejection::MethodNotAllowed(allow) => allow,
            _ => Allow::Nothing,
        }
    }

    /// The body of the response: the rejection's name on a line, or nothing for another method.
    pub fn body(self) -> &'static [u8]
        ensures { result.now ≡ body_of self }
    {
        match self {
            Rejection::BadHead => b"BadHead\n",
            Rejection::HeadTooLong => b"HeadTooLong\n",
            Rejection::NoRoute => b"NoRoute\n",
            Rejection::MethodNotAllowed(_) => b"",
            Rejection::NoLength => b"NoLength\n",
            Rejection::BodyTooLong => b"BodyTooLong\n",
        }
    }
}
