//! Which calls of a form in memory fail.
ghost use Rattle.std.specs.Prelude.{◌≡◌, ◌↔◌, ◌≤◌, IsTrue, Contains};
ghost use Rattle.cp_outside.specs.Causes.{one_more};
ghost use Rattle.cp_outside.specs.Schedules.{IsDue, after_call};

use std::marker::Model;

// Counts the calls of a form in memory and knows by their numbers which are to fail.
#[derive(Drop)]
pub(crate) struct Schedule {
    failing: Vec<u64>,
    calls: u64,
}

impl Model for Schedule {
    ghost use Rattle.cp_outside.specs.Schedules.{CallPlan};

    ghost Value = { CallPlan };

    ghost view = { λ s. record { failing = s.failing.items; calls = s.calls } };
}

impl Schedule {
    // No call so far; those with the listed numbers are to fail.
    pub(crate) fn new(failing: Vec<u64>) -> Schedule
        ensures { result ≡ record { failing = failing.items; calls = 0 } }
    {
        Schedule { failing, calls: 0 }
    }

    // Counts a call, and says whether it is to fail.
    pub(crate) fn count(&mut self) -> bool
        ensures due { IsTrue result ↔ IsDue self.old }
        ensures counted { self.new ≡ after_call self.old }
    {
        let due = is_listed(self.failing.as_slice(), self.calls);
        self.calls = self.calls.saturating_add(1);
        due
    }
}

fn is_listed(failing: &[u64], call: u64) -> bool
    ensures { IsTrue result ↔ Contains failing.now call }
{
    failing.contains(&call)
}

// Counts one fault more.
pub(crate) fn count_fault(faults: &mut u64)
    ensures value { faults.new ≡ one_more faults.old }
    ensures never_falls { faults.old ≤ faults.new }
{
    *faults = faults.saturating_add(1);
}
