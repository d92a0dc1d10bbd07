//! A source in memory.
ghost use Rattle.std.specs.Prelude.{◌≡◌, ◌↔◌, ◌++◌, None, Some, IsErr, MatchResult, length, min, take};
ghost use Rattle.cp_outside.specs.Causes.{HasCause};
ghost use Rattle.cp_outside.specs.Forms.{SourceReads};
ghost use Rattle.cp_outside.specs.Schedules.{IsDue};

use crate::endpoints::Endpoint;
use crate::failures::Failed;
use crate::schedules::{Schedule, count_fault};
use crate::sources::Source;
use crate::supplies::Supply;
use std::marker::Model;

/// A source in memory.
#[derive(Drop)]
pub struct BytesSource {
    supply: Supply,
    schedule: Schedule,
    faults: u64,
}

impl Model for BytesSource {
    ghost use Rattle.cp_outside.specs.Forms.{SourceState};

    ghost Value = { SourceState };

    ghost view = { λ s. record { left = s.supply; plan = s.schedule; faults = s.faults } };
}

impl BytesSource {
    /// A source of these bytes. Its calls of `read` are numbered from 0, and those with the listed
    /// numbers fail.
    pub fn new(bytes: Vec<u8>, failing: Vec<u64>) -> BytesSource
        ensures { result ≡ record {
          left = bytes.items;
          plan = record { failing = failing.items; calls = 0 };
          faults = 0;
        } }
    {
        BytesSource {
            supply: Supply::new(bytes),
            schedule: Schedule::new(failing),
            faults: 0,
        }
    }
}

impl Endpoint for BytesSource {
    ghost left = { λ s. Some s.left };

    ghost held = { λ _. None };

    ghost read_faults = { λ s. s.faults };

    ghost write_faults = { λ _. 0 };
}

impl Source for BytesSource {
    /// Moves as many bytes as are left and fit. It fails exactly where its number is listed.
    fn read(&mut self, into: &mut [u8]) -> Result<usize, Failed>
        ensures fails { IsErr result ↔ IsDue self.old.plan }
        ensures cause { HasCause self.old.faults self.new.faults result }
        ensures reads { SourceReads self.old self.new into.new result }
    {
        if self.schedule.count() {
            count_fault(&mut self.faults);
            return Err(Failed);
        }
        Ok(self.supply.take(into))
    }
}
