//! Waiting for a whole request.
ghost use Rattle.std.specs.Prelude.{◌≡◌, ◌<◌, ◌≤◌, ◌-◌, ℕ, List, length, IfOk, OnErr, Ok, true, false};
ghost use Rattle.std.specs.Io.KnownBytes.{IsAtEnd};
ghost use Rattle.cp_outside.specs.Causes.{HasCause};
ghost use Rattle.cp_http.specs.Heads.{IsPartial};
ghost use Rattle.cp_session.specs.Fronts.{FrontIs, HasHeadOf};
ghost use Rattle.cp_session.specs.Traffic.{Grows, IsAwaited};

use crate::fronts::Front;
use crate::inboxes::Inbox;
use crate::judging::request_of;
use crate::rejections::Rejection;
use crate::requests::Request;
use cp_http::{HEAD_LIMIT, head_end};
use cp_outside::{Failed, Source};

/// What waiting for a head came to.
#[derive(Clone, Copy, Debug)]
pub(crate) enum Awaited {
    /// The head at the front ends after so many bytes.
    Head { end: usize },
    /// The head at the front is too long.
    TooLong,
    /// The input ended before the head did.
    Cut,
}

// Reads until a head is whole at the front, or is too long, or the input is at its end. Each byte is
// looked at once.
#[tactic(auto, using(crate::proofs::TrafficLemmas::hearing))]
fn await_head<C: Source>(conn: &mut C, inbox: &mut Inbox) -> Result<Awaited, Failed>
    ensures grows { Grows inbox.old inbox.new (C.left conn.old) (C.left conn.new) }
    ensures awaited { IfOk result (IsAwaited inbox.new (C.left conn.new)) }
    ensures err { OnErr result (IsPartial inbox.new) }
    ensures cause { HasCause (C.read_faults conn.old) (C.read_faults conn.new) result }
    ensures held { C.held conn.new ≡ C.held conn.old }
    ensures write_faults { C.write_faults conn.new ≡ C.write_faults conn.old }
{
    let mut from = 0;
    loop {
        if let Some(end) = head_end(inbox.as_slice(), from) {
            return Ok(Awaited::Head { end });
        }
        let len = inbox.len();
        if len >= HEAD_LIMIT {
            return Ok(Awaited::TooLong);
        }
        if !inbox.read_from(conn)? {
            return Ok(Awaited::Cut);
        }
        from = len.saturating_sub(3);
    }
}

// Reads until so many bytes are there, or the input is at its end. Whether they are there.
#[tactic(auto, using(crate::proofs::TrafficLemmas::hearing))]
fn await_bytes<C: Source>(conn: &mut C, inbox: &mut Inbox, stop: usize) -> Result<bool, Failed>
    requires { stop ≤ 147456 }
    ensures grows { Grows inbox.old inbox.new (C.left conn.old) (C.left conn.new) }
    ensures whole { result ≡ Ok true → stop ≤ length inbox.new }
    ensures cut { result ≡ Ok false → (length inbox.new < stop) × IsAtEnd (C.left conn.new) }
    ensures err { OnErr result (length inbox.new < stop) }
    ensures cause { HasCause (C.read_faults conn.old) (C.read_faults conn.new) result }
    ensures held { C.held conn.new ≡ C.held conn.old }
    ensures write_faults { C.write_faults conn.new ≡ C.write_faults conn.old }
{
    while inbox.len() < stop {
        if !inbox.read_from(conn)? {
            return Ok(false);
        }
    }
    Ok(true)
}

// What stands at the front once this request is whole, or the input is at its end.
fn await_request<C: Source>(
    conn: &mut C,
    inbox: &mut Inbox,
    request: Request,
) -> Result<Front, Failed>
    requires { HasHeadOf inbox.old request }
    ensures grows { Grows inbox.old inbox.new (C.left conn.old) (C.left conn.new) }
    ensures front { IfOk result (FrontIs inbox.new) }
    ensures end { result ≡ Ok Front.Waiting → IsAtEnd (C.left conn.new) }
    ensures err { OnErr result (FrontIs inbox.new Front.Waiting) }
    ensures cause { HasCause (C.read_faults conn.old) (C.read_faults conn.new) result }
    ensures held { C.held conn.new ≡ C.held conn.old }
    ensures write_faults { C.write_faults conn.new ≡ C.write_faults conn.old }
{
    match await_bytes(conn, inbox, request.stop) {
        Ok(whole) => {
            if whole {
                Ok(Front::Asked(request))
            } else {
                Ok(Front::Waiting)
            }
        }
        Err(failed) => Err(failed),
    }
}

// What stands at the front, once there is more to say than that it waits, or the input is at its end.
#[tactic(auto, using(crate::proofs::TrafficLemmas::hearing))]
pub(crate) fn next_front<C: Source>(conn: &mut C, inbox: &mut Inbox) -> Result<Front, Failed>
    ensures grows { Grows inbox.old inbox.new (C.left conn.old) (C.left conn.new) }
    ensures front { IfOk result (FrontIs inbox.new) }
    ensures end { result ≡ Ok Front.Waiting → IsAtEnd (C.left conn.new) }
    ensures err { OnErr result (FrontIs inbox.new Front.Waiting) }
    ensures cause { HasCause (C.read_faults conn.old) (C.read_faults conn.new) result }
    ensures held { C.held conn.new ≡ C.held conn.old }
    ensures write_faults { C.write_faults conn.new ≡ C.write_faults conn.old }
{
    match await_head(conn, inbox)? {
        Awaited::Cut => Ok(Front::Waiting),
        Awaited::TooLong => Ok(Front::Rejected(Rejection::HeadTooLong)),
        Awaited::Head { end } => match request_of(inbox.as_slice(), end) {
            Err(rejection) => Ok(Front::Rejected(rejection)),
            Ok(request) => await_request(conn, inbox, request),
        },
    }
}
