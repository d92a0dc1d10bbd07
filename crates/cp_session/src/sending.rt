//! Responses to a connection. None of them takes memory.
ghost use Rattle.std.specs.Prelude.{◌≡◌, ◌<◌, ◌≤◌, ◌++◌, [], ℕ, List, length, true, codes, Result};
ghost use Rattle.cp_outside.specs.Causes.{HasCause};
ghost use Rattle.cp_http.specs.Statuses.{IsStatus};
ghost use Rattle.cp_http.specs.Responses.{response};
ghost use Rattle.cp_session.specs.Replies.{reply_of, IsSized};
ghost use Rattle.cp_session.specs.Responses.{reply_response, rejection_response};
ghost use Rattle.cp_session.specs.Traffic.{Sends};

use crate::refusals::Refusal;
use crate::rejections::Rejection;
use cp_http::{Allow, response_head};
use cp_outside::{Failed, Sink, put_all};

// Writes a response: its head from here, and its body from where it lies.
#[tactic(auto, using(crate::proofs::TrafficLemmas::sending))]
fn send<C: Sink>(
    conn: &mut C,
    status: u16,
    allow: Allow,
    body: &[u8],
    last: bool,
) -> Result<(), Failed>
    requires { IsStatus status }
    ensures bytes { Sends (C.held conn.old) (C.held conn.new) result (response status allow body.now last) }
    ensures cause { HasCause (C.write_faults conn.old) (C.write_faults conn.new) result }
    ensures left { C.left conn.new ≡ C.left conn.old }
    ensures read_faults { C.read_faults conn.new ≡ C.read_faults conn.old }
{
    let head = response_head(status, allow, body.len() as u64, last);
    let Ok(()) = put_all(conn, head.as_slice()) else {
        return Err(Failed);
    };
    match put_all(conn, body) {
        Ok(()) => Ok(()),
        Err(_) => Err(Failed),
    }
}

// Writes the response that tells a desk's reply.
#[tactic(auto, unfolding(crate::specs::Responses::reply_response))]
pub(crate) fn send_reply<C: Sink>(
    conn: &mut C,
    outcome: Result<(), Refusal>,
    body: &[u8],
    last: bool,
) -> Result<(), Failed>
    // The reply has the machine's values.
    ensures sized { IsSized (reply_of outcome body.now) }
    ensures bytes { Sends (C.held conn.old) (C.held conn.new) result (reply_response (reply_of outcome body.now) last) }
    ensures cause { HasCause (C.write_faults conn.old) (C.write_faults conn.new) result }
    ensures left { C.left conn.new ≡ C.left conn.old }
    ensures read_faults { C.read_faults conn.new ≡ C.read_faults conn.old }
{
    match outcome {
        Ok(()) => send(conn, 200, Allow::Nothing, body, last),
        Err(refusal) => {
            let mut text = refusal.text();
            text.push(b"\n");
            send(
                conn,
                refusal.status(),
                Allow::Nothing,
                text.as_slice(),
                last,
            )
        }
    }
}

// Writes the response that tells a rejection, which is the last.
pub(crate) fn send_rejection<C: Sink>(conn: &mut C, rejection: Rejection) -> Result<(), Failed>
    ensures bytes { Sends (C.held conn.old) (C.held conn.new) result (rejection_response rejection) }
    ensures cause { HasCause (C.write_faults conn.old) (C.write_faults conn.new) result }
    ensures left { C.left conn.new ≡ C.left conn.old }
    ensures read_faults { C.read_faults conn.new ≡ C.read_faults conn.old }
{
    send(
        conn,
        rejection.status(),
        rejection.allow(),
        rejection.body(),
        true,
    )
}
