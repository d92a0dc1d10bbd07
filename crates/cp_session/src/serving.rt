//! Serving a connection.
ghost use Rattle.std.specs.Prelude.{◌≡◌, ◌||◌, ◌==◌, ◌<◌, ◌≤◌, ℕ, List, length, Ok, Err};
ghost use Rattle.cp_outside.specs.Causes.{Rose};
ghost use Rattle.cp_session.specs.Replies.{reply_of};
ghost use Rattle.cp_session.specs.Endings.{IsServed};

use crate::awaiting::next_front;
use crate::desks::Desk;
use crate::fronts::Front;
use crate::inboxes::Inbox;
use crate::refusals::Refusal;
use crate::routes::Route;
use crate::sending::{send_rejection, send_reply};
use crate::session_ends::SessionEnd;
use cp_outside::Link;
use std::alloc::Global;
use std::sync::Wait;

const REQUESTS: u32 = 10_000;

// Whether a response is the last.
fn is_last(close: bool, left: u32) -> bool
    ensures { result ≡ (close || left == 0) }
{
    close || left == 0
}

// Asks the desk. Then `reply` holds its reply alone.
fn ask<R: Wait, K: Desk>(
    rt: &R,
    alloc: Global,
    desk: &mut K,
    route: Route,
    body: &[u8],
    reply: &mut Vec<u8>,
) -> Result<(), Refusal>
    ensures { K.replies desk.old route body.now (reply_of result reply.new.items) desk.new }
{
    reply.clear();
    match desk.ask(rt, alloc, route, body, reply) {
        Ok(()) => Ok(()),
        Err(refusal) => Err(refusal),
    }
}

/// Serves a connection to the clean end of its input or to its last response, and answers how many
/// requests it answered. It waits where the desk or the connection does.
///
/// Requests are cut from the front of what is read, in pieces of any size and at most 10,000 of them,
/// and the response to each is written before the next is looked at. The room for the longest request
/// is taken before the first read; behind it nothing here takes memory, and where the desk wants some,
/// its refusal is a response like any other.
pub fn serve_connection<R: Wait, C: Link, K: Desk>(
    rt: &R,
    alloc: Global,
    conn: &mut C,
    desk: &mut K,
) -> Result<u32, SessionEnd>
    ensures served { IsServed K.replies desk.old desk.new (C.left conn.old) (C.left conn.new) (C.held conn.old) (C.held conn.new) result }

    // A fault comes only where its count rose, and no count falls.
    ensures read_fault { result ≡ Err SessionEnd.ReadFault → Rose (C.read_faults conn.old) (C.read_faults conn.new) }
    ensures write_fault { result ≡ Err SessionEnd.WriteFault → Rose (C.write_faults conn.old) (C.write_faults conn.new) }
    ensures read_faults { C.read_faults conn.old ≤ C.read_faults conn.new }
    ensures write_faults { C.write_faults conn.old ≤ C.write_faults conn.new }
{
    let Ok(mut inbox) = Inbox::new(alloc) else {
        return Err(SessionEnd::OutOfMemory);
    };
    let mut reply = Vec::new(alloc);
    let mut taken = 0u64;
    let mut left = REQUESTS;
    loop {
        left -= 1;
        let Ok(front) = next_front(conn, &mut inbox) else {
            return Err(SessionEnd::ReadFault);
        };
        match front {
            Front::Waiting => {
                if inbox.is_empty() {
                    return Ok(REQUESTS - left - 1);
                }
                return Err(SessionEnd::Truncated {
                    taken: taken + inbox.len() as u64,
                });
            }
            Front::Rejected(rejection) => {
                let Ok(()) = send_rejection(conn, rejection) else {
                    return Err(SessionEnd::WriteFault);
                };
                return Ok(REQUESTS - left);
            }
            Front::Asked(request) => {
                let last = is_last(request.close, left);
                let outcome = ask(
                    rt,
                    alloc,
                    desk,
                    request.route,
                    &inbox.as_slice()[request.start..request.stop],
                    &mut reply,
                );
                let Ok(()) = send_reply(conn, outcome, reply.as_slice(), last) else {
                    return Err(SessionEnd::WriteFault);
                };
                if last {
                    return Ok(REQUESTS - left);
                }
                taken += request.stop as u64;
                inbox.drop_front(request.stop);
            }
        }
    }
}
