//! A connection in memory.
ghost use Rattle.std.specs.Prelude.{◌≡◌, ◌↔◌, ◌⊎◌, ◌<◌, ◌+◌, ◌++◌, [], Some, IfOk, IsErr, MatchResult, length, min, take};
ghost use Rattle.cp_outside.specs.Causes.{HasCause};
ghost use Rattle.cp_outside.specs.Forms.{LinkReads, LinkWrites};
ghost use Rattle.cp_outside.specs.Schedules.{IsDue};

use crate::endpoints::Endpoint;
use crate::failures::{Failed, OutOfMemory};
use crate::links::Link;
use crate::schedules::{Schedule, count_fault};
use crate::sinks::Sink;
use crate::sources::Source;
use crate::stores::Store;
use crate::supplies::Supply;
use std::alloc::Global;
use std::marker::Model;

/// A connection in memory: it gives the bytes that it was made with, and holds what is written in a
/// room that is taken when it is made.
#[derive(Drop)]
pub struct MemLink {
    supply: Supply,
    store: Store,
    schedule: Schedule,
    read_faults: u64,
    write_faults: u64,
}

impl Model for MemLink {
    ghost use Rattle.cp_outside.specs.Forms.{LinkState};

    ghost Value = { LinkState };

    ghost view = { λ s. record {
      left = s.supply;
      held = s.store.bytes;
      room = s.store.room;
      plan = s.schedule;
      read_faults = s.read_faults;
      write_faults = s.write_faults;
    } };
}

impl MemLink {
    /// A connection that gives these bytes and holds nothing, with room for so many. Its calls of `read`
    /// and `write` are numbered together from 0, and those with the listed numbers fail.
    pub fn new(
        alloc: Global,
        bytes: Vec<u8>,
        room: u64,
        failing: Vec<u64>,
    ) -> Result<MemLink, OutOfMemory>
        ensures { IfOk result (λ link. link ≡ record {
          left = bytes.items;
          held = [];
          room = room;
          plan = record { failing = failing.items; calls = 0 };
          read_faults = 0;
          write_faults = 0;
        }) }
    {
        Ok(MemLink {
            store: Store::new(alloc, room)?,
            supply: Supply::new(bytes),
            schedule: Schedule::new(failing),
            read_faults: 0,
            write_faults: 0,
        })
    }

    /// The bytes held: what was written to the connection.
    pub fn held(&self) -> &[u8]
        ensures { result.now ≡ self.now.held }
    {
        self.store.as_slice()
    }
}

impl Endpoint for MemLink {
    ghost left = { λ s. Some s.left };

    ghost held = { λ s. Some s.held };

    ghost read_faults = { λ s. s.read_faults };

    ghost write_faults = { λ s. s.write_faults };
}

impl Source for MemLink {
    /// Moves as many bytes as are left and fit. It fails exactly where its number is listed.
    fn read(&mut self, into: &mut [u8]) -> Result<usize, Failed>
        ensures fails { IsErr result ↔ IsDue self.old.plan }
        ensures cause { HasCause self.old.read_faults self.new.read_faults result }
        ensures reads { LinkReads self.old self.new into.new result }
    {
        if self.schedule.count() {
            count_fault(&mut self.read_faults);
            return Err(Failed);
        }
        Ok(self.supply.take(into))
    }
}

impl Sink for MemLink {
    /// Takes the whole piece. It fails exactly where its number is listed or the room left is too small.
    fn write(&mut self, bytes: &[u8]) -> Result<usize, Failed>
        ensures fails { IsErr result
            ↔ (IsDue self.old.plan ⊎ (self.old.room < length self.old.held + length bytes.now)) }
        ensures cause { HasCause self.old.write_faults self.new.write_faults result }
        ensures writes { LinkWrites self.old self.new bytes.now result }
    {
        if self.schedule.count() || self.store.append(bytes).is_err() {
            count_fault(&mut self.write_faults);
            return Err(Failed);
        }
        Ok(bytes.len())
    }
}

impl Link for MemLink {}
