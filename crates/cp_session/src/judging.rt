//! What a head asks for.
ghost use Rattle.std.specs.Prelude.{◌≡◌, ◌≢◌, ◌↔◌, ◌<◌, ◌≤◌, List, length, codes, IsTrue, MatchResult, unwrap_or, Ok, Err};
ghost use Rattle.cp_http.specs.Reading.{head_content};
ghost use Rattle.cp_http.specs.Heads.{EndsAfter, window, HasHead};
ghost use Rattle.cp_session.specs.Routes.{takes_body, method_of, allow_of};
ghost use Rattle.cp_session.specs.Fronts.{IsChecked, HasHeadOf, IsRejected};

use crate::finding::find_route;
use crate::rejections::Rejection;
use crate::requests::Request;
use crate::routes::Route;
use cp_http::{Allow, Head, parse_head};

const BODY_LIMIT: u64 = 131_072;

// Whether a route is asked by POST.
fn takes_body(route: Route) -> bool
    ensures { result ≡ takes_body route }
{
    match route {
        Route::Put | Route::Get | Route::Close | Route::HandIn => true,
        Route::Key | Route::Part { .. } | Route::Verdict { .. } => false,
    }
}

// A route's method.
fn method_of(route: Route) -> &'static str
    ensures { result.now ≡ method_of route }
{
    if takes_body(route) { "POST" } else { "GET" }
}

// What a response says of a route's method.
fn allow_of(route: Route) -> Allow
    ensures { result ≡ allow_of route }
{
    if takes_body(route) {
        Allow::Post
    } else {
        Allow::Get
    }
}

// The route that a head asks for.
fn check_head(head: &Head<'_>) -> Result<Route, Rejection>
    ensures { IsChecked (head_content head.now) result }
{
    let Some(route) = find_route(head.path) else {
        return Err(Rejection::NoRoute);
    };
    if head.method != method_of(route) {
        return Err(Rejection::MethodNotAllowed(allow_of(route)));
    }
    if takes_body(route) && head.content_length.is_none() {
        return Err(Rejection::NoLength);
    }
    if head.content_length.unwrap_or(0) > BODY_LIMIT {
        return Err(Rejection::BodyTooLong);
    }
    Ok(route)
}

// The request that begins with a head of so many bytes.
#[tactic(auto, using(crate::proofs::FrontLemmas::heads))]
fn request_behind(bytes: &[u8], head: &Head<'_>, end: usize) -> Result<Request, Rejection>
    requires { HasHead bytes.now end (head_content head.now) }
    ensures { MatchResult result (λ r. HasHeadOf bytes.now r) (λ rejection. IsRejected bytes.now rejection) }
{
    match check_head(head) {
        Err(rejection) => Err(rejection),
        Ok(route) => {
            let body = head.content_length.unwrap_or(0) as usize;
            let stop = end + body;
            let start = if takes_body(route) { end } else { stop };
            Ok(Request {
                route,
                start,
                stop,
                close: head.close,
            })
        }
    }
}

// The request at the front of the bytes, whose head ends there.
pub(crate) fn request_of(bytes: &[u8], end: usize) -> Result<Request, Rejection>
    requires { EndsAfter (window bytes.now) end }
    ensures { MatchResult result (λ r. HasHeadOf bytes.now r) (λ rejection. IsRejected bytes.now rejection) }
{
    match parse_head(&bytes[..end]) {
        Some(head) => request_behind(bytes, &head, end),
        None => Err(Rejection::BadHead),
    }
}
