//! A sink in memory.
ghost use Rattle.std.specs.Prelude.{◌≡◌, ◌↔◌, ◌⊎◌, ◌<◌, ◌+◌, ◌++◌, [], None, Some, IfOk, IsErr, MatchResult, length};
ghost use Rattle.cp_outside.specs.Causes.{HasCause};
ghost use Rattle.cp_outside.specs.Forms.{SinkWrites};
ghost use Rattle.cp_outside.specs.Schedules.{IsDue};

use crate::endpoints::Endpoint;
use crate::failures::{Failed, OutOfMemory};
use crate::schedules::{Schedule, count_fault};
use crate::sinks::Sink;
use crate::stores::Store;
use std::alloc::Global;
use std::marker::Model;

/// A sink in memory, with a room that is taken when it is made.
#[derive(Drop)]
pub struct VecSink {
    store: Store,
    schedule: Schedule,
    faults: u64,
}

impl Model for VecSink {
    ghost use Rattle.cp_outside.specs.Forms.{SinkState};

    ghost Value = { SinkState };

    ghost view = { λ s. record { held = s.store.bytes; room = s.store.room; plan = s.schedule; faults = s.faults } };
}

impl VecSink {
    /// A sink that holds nothing, with room for so many bytes. Its calls of `write` are numbered from 0,
    /// and those with the listed numbers fail.
    pub fn new(alloc: Global, room: u64, failing: Vec<u64>) -> Result<VecSink, OutOfMemory>
        ensures { IfOk result (λ sink. sink ≡ record {
          held = [];
          room = room;
          plan = record { failing = failing.items; calls = 0 };
          faults = 0;
        }) }
    {
        Ok(VecSink {
            store: Store::new(alloc, room)?,
            schedule: Schedule::new(failing),
            faults: 0,
        })
    }

    /// The bytes held.
    pub fn bytes(&self) -> &[u8]
        ensures { result.now ≡ self.now.held }
    {
        self.store.as_slice()
    }
}

impl Endpoint for VecSink {
    ghost left = { λ _. None };

    ghost held = { λ s. Some s.held };

    ghost read_faults = { λ _. 0 };

    ghost write_faults = { λ s. s.faults };
}

impl Sink for VecSink {
    /// Takes the whole piece. It fails exactly where its number is listed or the room left is too small.
    fn write(&mut self, bytes: &[u8]) -> Result<usize, Failed>
        ensures fails { IsErr result
            ↔ (IsDue self.old.plan ⊎ (self.old.room < length self.old.held + length bytes.now)) }
        ensures cause { HasCause self.old.faults self.new.faults result }
        ensures writes { SinkWrites self.old self.new bytes.now result }
    {
        if self.schedule.count() || self.store.append(bytes).is_err() {
            count_fault(&mut self.faults);
            return Err(Failed);
        }
        Ok(bytes.len())
    }
}
