//! Which route a path names.
ghost use Rattle.std.specs.Prelude.{◌≡◌, ◌≢◌, ◌↔◌, ◌<◌, ◌≤◌, ◌^◌, ◌++◌, ℕ, List, IsTrue, decimal, codes, MatchOption};
ghost use Rattle.cp_session.specs.Routes.{IsRoute, IsNoRoute, IsEpoch, IsNoPlainPath, IsPartPath, IsVerdictPath, part_end};

use crate::part_names::PartName;
use crate::routes::Route;
use cp_http::ShortText;

// What stands behind a prefix.
fn after<'a>(text: &'a str, prefix: &str) -> Option<&'a str>
    ensures { MatchOption result ((rest : List ℕ) → text.now ≢ prefix.now ++ rest) (λ rest. text.now ≡ prefix.now ++ rest.now) }
{
    text.strip_prefix(prefix)
}

// What stands before a suffix.
fn before<'a>(text: &'a str, suffix: &str) -> Option<&'a str>
    ensures { MatchOption result ((rest : List ℕ) → text.now ≢ rest ++ suffix.now) (λ rest. text.now ≡ rest.now ++ suffix.now) }
{
    text.strip_suffix(suffix)
}

// Whether a text is the number in decimal digits.
fn is_decimal(text: &str, number: u64) -> bool
    ensures { IsTrue result ↔ (text.now ≡ decimal number) }
{
    let mut digits = ShortText::new();
    digits.push_decimal(number);
    digits.as_slice() == text.as_bytes()
}

// The epoch that a text is, without a sign or leading zeros.
#[tactic(auto, using(crate::proofs::RouteLemmas::epochs))]
fn epoch_of(text: &str) -> Option<u64>
    ensures { MatchOption result ((e : ℕ) → IsEpoch e → text.now ≢ decimal e) (λ e. IsEpoch e × (text.now ≡ decimal e)) }
{
    match text.parse::<u64>() {
        Ok(epoch) => {
            if epoch == 0 {
                return None;
            }
            if !is_decimal(text, epoch) {
                return None;
            }
            Some(epoch)
        }
        Err(_) => None,
    }
}

// What stands behind the epoch's slash in the path of a part.
fn part_end(part: PartName) -> &'static str
    ensures { result.now ≡ part_end part }
{
    match part {
        PartName::Closing => "/closing",
        PartName::Table => "/table",
        PartName::Log => "/log",
        PartName::Families => "/families",
    }
}

// The epoch in the path of this part.
fn part_epoch(path: &str, part: PartName) -> Option<u64>
    ensures { MatchOption result ((e : ℕ) → ¬ IsPartPath path.now part e) (λ e. IsPartPath path.now part e) }
{
    let Some(text) = after(path, "/v1/epoch/") else {
        return None;
    };
    let Some(number) = before(text, part_end(part)) else {
        return None;
    };
    let Some(epoch) = epoch_of(number) else {
        return None;
    };
    Some(epoch)
}

// The epoch in the path of a verdict.
fn verdict_epoch(path: &str) -> Option<u64>
    ensures { MatchOption result ((e : ℕ) → ¬ IsVerdictPath path.now e) (λ e. IsVerdictPath path.now e) }
{
    let Some(number) = after(path, "/v1/verdict/") else {
        return None;
    };
    let Some(epoch) = epoch_of(number) else {
        return None;
    };
    Some(epoch)
}

// Whether a path is this one.
fn is_path(path: &str, text: &str) -> bool
    ensures { IsTrue result ↔ (path.now ≡ text.now) }
{
    path == text
}

// The route of a path without an epoch.
#[tactic(auto, unfolding(crate::specs::Routes::IsRoute))]
fn plain_route(path: &str) -> Option<Route>
    ensures { MatchOption result (IsNoPlainPath path.now) (λ route. IsRoute path.now route) }
{
    if is_path(path, "/v1/key") {
        return Some(Route::Key);
    }
    if is_path(path, "/v1/put") {
        return Some(Route::Put);
    }
    if is_path(path, "/v1/get") {
        return Some(Route::Get);
    }
    if is_path(path, "/v1/close") {
        return Some(Route::Close);
    }
    if is_path(path, "/v1/handin") {
        return Some(Route::HandIn);
    }
    None
}

// The route that a path names.
#[tactic(auto, using(crate::proofs::RouteLemmas::routes), unfolding(crate::specs::Routes::IsRoute))]
pub(crate) fn find_route(path: &str) -> Option<Route>
    ensures { MatchOption result (IsNoRoute path.now) (λ route. IsRoute path.now route) }
{
    if let Some(route) = plain_route(path) {
        return Some(route);
    }
    if let Some(epoch) = verdict_epoch(path) {
        return Some(Route::Verdict { epoch });
    }
    if let Some(epoch) = part_epoch(path, PartName::Closing) {
        return Some(Route::Part {
            epoch,
            part: PartName::Closing,
        });
    }
    if let Some(epoch) = part_epoch(path, PartName::Table) {
        return Some(Route::Part {
            epoch,
            part: PartName::Table,
        });
    }
    if let Some(epoch) = part_epoch(path, PartName::Log) {
        return Some(Route::Part {
            epoch,
            part: PartName::Log,
        });
    }
    if let Some(epoch) = part_epoch(path, PartName::Families) {
        return Some(Route::Part {
            epoch,
            part: PartName::Families,
        });
    }
    None
}
