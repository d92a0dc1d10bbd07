//! A door in memory.
ghost use Rattle.std.specs.Prelude.{◌≡◌, ◌↔◌, ◌<◌, ◌+◌, ◌∷◌, ◌++◌, [], Some, None, Ok, Err, IfOk, IsErr};
ghost use Rattle.cp_outside.specs.Causes.{HasCause};
ghost use Rattle.cp_outside.specs.Forms.{DoorAccepts};
ghost use Rattle.cp_outside.specs.Schedules.{IsDue};

use crate::doors::Door;
use crate::failures::{Failed, OutOfMemory};
use crate::links::Link;
use crate::schedules::{Schedule, count_fault};
use std::alloc::Global;
use std::marker::Model;

/// A door in memory: it hands out the connections that it was made with, and keeps those that ended
/// in a room that is taken when it is made.
#[derive(Drop)]
pub struct MemDoor<C: Link + Drop> {
    // the last to come first
    coming: Vec<C>,
    ended: Vec<C>,
    handed_out: u64,
    schedule: Schedule,
    faults: u64,
}

impl<C: Link + Drop> Model for MemDoor<C> {
    ghost use Rattle.std.specs.Prelude.{◌+◌, ◌≤◌, reverse, vec_len, vec_capacity};
    ghost use Rattle.cp_outside.specs.Forms.{DoorState};

    ghost Value = { DoorState C };

    ghost view = { λ s. record {
      coming = reverse s.coming.items;
      ended = s.ended.items;
      handed_out = s.handed_out;
      plan = s.schedule;
      faults = s.faults;
    } };

    // each connection that is not here yet has its place among the ended ones
    ghost invariant = { λ s. vec_len s.coming + s.handed_out + vec_len s.ended ≤ vec_capacity s.ended };
}

impl<C: Link + Drop> MemDoor<C> {
    /// A door to which these connections come, the first of the list first. Its calls of `accept` are
    /// numbered from 0, and those with the listed numbers fail.
    pub fn new(
        alloc: Global,
        mut coming: Vec<C>,
        failing: Vec<u64>,
    ) -> Result<MemDoor<C>, OutOfMemory>
        ensures { IfOk result (λ door. door ≡ record {
          coming = coming.items;
          ended = [];
          handed_out = 0;
          plan = record { failing = failing.items; calls = 0 };
          faults = 0;
        }) }
    {
        let ended = Vec::with_capacity(alloc, coming.len())?;
        coming.reverse();
        Ok(MemDoor {
            coming,
            ended,
            handed_out: 0,
            schedule: Schedule::new(failing),
            faults: 0,
        })
    }

    /// The connections that ended, in the order in which they did.
    pub fn ended(&self) -> &[C]
        ensures { result.now ≡ self.now.ended }
    {
        self.ended.as_slice()
    }
}

impl<C: Link + Drop> Door for MemDoor<C> {
    type Conn = C;

    ghost coming = { λ s. Some s.coming };

    ghost ended = { λ s. Some s.ended };

    ghost handed_out = { λ s. s.handed_out };

    ghost faults = { λ s. s.faults };

    /// Hands out the first of the connections to come. It fails exactly where its number is listed.
    fn accept(&mut self) -> Result<Option<C>, Failed>
        ensures fails { IsErr result ↔ IsDue self.old.plan }
        ensures cause { HasCause self.old.faults self.new.faults result }
        ensures accepts { DoorAccepts self.old self.new result }
    {
        if self.schedule.count() {
            count_fault(&mut self.faults);
            return Err(Failed);
        }
        match self.coming.pop() {
            Some(conn) => {
                self.handed_out += 1;
                Ok(Some(conn))
            }
            None => Ok(None),
        }
    }

    fn end(&mut self, conn: C)
        requires handed_out { 0 < self.old.handed_out }
        ensures ended { self.new ≡ record self.old {
          ended = self.old.ended ++ conn ∷ [];
          handed_out = self.new.handed_out;
        } }
        ensures handed_out { self.new.handed_out + 1 ≡ self.old.handed_out }
    {
        self.handed_out -= 1;
        // its place was taken when the door was made
        let _ = self.ended.push(conn);
    }
}
