//! Who replies to requests.
ghost use Rattle.std.specs.Prelude.{◌≡◌, ℕ, List, Result, OnOk, OnErr, drop, take, length};

use crate::refusals::Refusal;
use crate::routes::Route;
use std::alloc::Global;
use std::sync::Wait;

/// Who replies to the requests that a route takes.
pub trait Desk {
    ghost use Rattle.cp_session.specs.declared.routes.Route.{Route};
    ghost use Rattle.cp_session.specs.declared.refusals.Refusal.{Refusal};
    ghost use Rattle.cp_session.specs.Replies.{reply_of};

    /// A desk may give this reply to a request for the route with the body, and be that desk then.
    ghost replies: { Self → Route → List ℕ → Result (List ℕ) Refusal → Self → Type 0 };

    /// Replies to one request: it appends the body of a 200 response to `out`, or refuses and leaves
    /// `out` as it is. It may wait.
    fn ask<R: Wait>(
        &mut self,
        rt: &R,
        alloc: Global,
        route: Route,
        body: &[u8],
        out: &mut Vec<u8>,
    ) -> Result<(), Refusal>
        ensures replies { replies self.old route body.now (reply_of result (drop (length out.old.items) out.new.items)) self.new }
        ensures ok { OnOk result (take (length out.old.items) out.new.items ≡ out.old.items) }
        ensures err { OnErr result (out.new.items ≡ out.old.items) };
}
