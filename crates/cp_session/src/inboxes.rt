//! Bytes that were read and not answered.
ghost use Rattle.std.specs.Prelude.{◌≡◌, ◌↔◌, IsTrue, ◌<◌, ◌≤◌, ◌-◌, ◌+◌, ◌++◌, [], ℕ, List, length, take, drop, slice_range, IfOk, OnErr, Ok, true, false, vec_len, MatchResult};
ghost use Rattle.std.specs.Io.KnownBytes.{IsAtEnd, ReadConsumes, Consumes};
ghost use Rattle.cp_outside.specs.Causes.{HasCause};
ghost use Rattle.cp_session.specs.Traffic.{Grows};

use cp_http::OutOfMemory;
use cp_outside::{Failed, Source};
use std::alloc::Global;
use std::marker::Model;

const ROOM: usize = 147_456;

/// The bytes that were read from a connection and not answered, at most as many as the longest
/// request has: 16,384 of its head and 131,072 of its body. All of the room is taken when it is made.
#[derive(Drop)]
pub(crate) struct Inbox {
    room: Vec<u8>,
    start: usize,
    stop: usize,
}

impl Model for Inbox {
    ghost Value = { List ℕ };

    ghost view = { λ inbox. slice_range inbox.room.items inbox.start inbox.stop };

    ghost invariant = { λ inbox. (vec_len inbox.room ≡ 147456) × (inbox.start ≤ inbox.stop) × (inbox.stop ≤ 147456) };
}

// Moves the bytes from `start` to `stop` to the front of the room.
#[tactic(auto, using(crate::proofs::InboxLemmas::moves))]
fn move_to_front(room: &mut [u8], start: usize, stop: usize)
    requires ordered { start ≤ stop }
    requires within { stop ≤ length room.old }
    ensures { take (stop - start) room.new ≡ slice_range room.old start stop }
{
    if start > 0 {
        room.copy_within(start..stop, 0);
    }
}

// Reads into the room behind the first `from` bytes of it.
fn read_behind<C: Source>(conn: &mut C, room: &mut [u8], from: usize) -> Result<usize, Failed>
    requires { from ≤ length room.old }
    ensures bound { IfOk result (λ n. from + n ≤ length room.old) }
    ensures kept { take from room.new ≡ take from room.old }
    ensures bytes { ReadConsumes (C.left conn.old) (C.left conn.new) result (drop from room.new) }
    ensures cause { HasCause (C.read_faults conn.old) (C.read_faults conn.new) result }
    ensures held { C.held conn.new ≡ C.held conn.old }
    ensures write_faults { C.write_faults conn.new ≡ C.write_faults conn.old }
{
    conn.read(&mut room[from..])
}

// Moves the bytes from `start` to `stop` to the front of the room, and reads behind them.
fn refill<C: Source>(
    conn: &mut C,
    room: &mut [u8],
    start: usize,
    stop: usize,
) -> Result<usize, Failed>
    requires ordered { start ≤ stop }
    requires free { stop - start < length room.old }
    requires within { stop ≤ length room.old }
    ensures bound { IfOk result (λ n. stop - start + n ≤ length room.old) }
    ensures grows { IfOk result (λ n. Grows (slice_range room.old start stop) (take (stop - start + n) room.new) (C.left conn.old) (C.left conn.new)) }
    ensures end { result ≡ Ok 0 → IsAtEnd (C.left conn.new) }
    ensures kept { OnErr result (take (stop - start) room.new ≡ slice_range room.old start stop) }
    ensures none { OnErr result (Consumes (C.left conn.old) (C.left conn.new) []) }
    ensures cause { HasCause (C.read_faults conn.old) (C.read_faults conn.new) result }
    ensures held { C.held conn.new ≡ C.held conn.old }
    ensures write_faults { C.write_faults conn.new ≡ C.write_faults conn.old }
{
    move_to_front(room, start, stop);
    match read_behind(conn, room, stop - start) {
        Ok(n) => Ok(n),
        Err(failed) => Err(failed),
    }
}

impl Inbox {
    /// An empty inbox, with all of its room.
    pub(crate) fn new(alloc: Global) -> Result<Inbox, OutOfMemory>
        ensures { IfOk result (λ inbox. inbox ≡ []) }
    {
        let room = vec![in alloc; 0; ROOM]?;
        Ok(Inbox {
            room,
            start: 0,
            stop: 0,
        })
    }

    /// The bytes.
    pub(crate) fn as_slice(&self) -> &[u8]
        ensures { result.now ≡ self.now }
    {
        &self.room[self.start..self.stop]
    }

    /// How many bytes it holds.
    #[tactic(auto, using(crate::proofs::InboxLemmas::rooms))]
    pub(crate) fn len(&self) -> usize
        ensures value { result ≡ length self.now }
        ensures bound { result ≤ 147456 }
    {
        self.stop - self.start
    }

    /// Whether it holds nothing.
    pub(crate) fn is_empty(&self) -> bool
        ensures { IsTrue result ↔ (self.now ≡ []) }
    {
        self.len() == 0
    }

    /// Reads more, as much as the connection gives at once and the room takes. Whether there was any.
    #[tactic(auto, using(crate::proofs::InboxLemmas::received))]
    pub(crate) fn read_from<C: Source>(&mut self, conn: &mut C) -> Result<bool, Failed>
        requires { length self.old < 147456 }
        ensures grows { Grows self.old self.new (C.left conn.old) (C.left conn.new) }
        ensures more { result ≡ Ok true → length self.old < length self.new }
        ensures end { result ≡ Ok false → IsAtEnd (C.left conn.new) × (self.new ≡ self.old) }
        ensures err { OnErr result (self.new ≡ self.old) }
        ensures bound { length self.new ≤ 147456 }
        ensures cause { HasCause (C.read_faults conn.old) (C.read_faults conn.new) result }
        ensures held { C.held conn.new ≡ C.held conn.old }
        ensures write_faults { C.write_faults conn.new ≡ C.write_faults conn.old }
    {
        let held = self.stop - self.start;
        match refill(conn, self.room.as_mut_slice(), self.start, self.stop) {
            Ok(n) => {
                self.start = 0;
                self.stop = held + n;
                Ok(n > 0)
            }
            Err(failed) => {
                self.start = 0;
                self.stop = held;
                Err(failed)
            }
        }
    }

    /// Takes the first bytes off.
    #[tactic(auto, using(crate::proofs::InboxLemmas::drops))]
    pub(crate) fn drop_front(&mut self, n: usize)
        requires { n ≤ length self.old }
        ensures value { self.new ≡ drop n self.old }
        ensures bound { length self.old ≤ 147456 }
    {
        self.start += n;
    }
}
