//! Which calls of a disk in memory fail.
ghost use Rattle.std.specs.Prelude.{◌≡◌, ◌↔◌, ◌⊎◌, ◌≤◌, ◌+◌, ◌-◌, ◌^◌, min, false, None, Some, IsTrue, Contains};
ghost use Rattle.cp_outside.specs.Causes.{Rose};
ghost use Rattle.cp_outside.specs.MemDisks.{one_less};

// The numbers of the calls that are to fail, how many calls were made, after how many further ones
// every call fails, and how many have failed.
#[derive(Drop)]
pub struct CallPlan {
    failing: Vec<u64>,
    count: u64,
    further: Option<u64>,
    faults: u64,
}

impl CallPlan {
    // No call so far.
    pub(crate) fn new(failing: Vec<u64>) -> CallPlan
        ensures failing { result.failing.items ≡ failing.items }
        ensures rest { (result.count ≡ 0) × (result.further ≡ None) × (result.faults ≡ 0) }
    {
        CallPlan {
            failing,
            count: 0,
            further: None,
            faults: 0,
        }
    }

    // Every call after so many further ones fails.
    pub(crate) fn stop_after(&mut self, calls: u64)
        ensures { self.new ≡ record self.old { further = Some calls } }
    {
        self.further = Some(calls);
    }

    // Counts a call, which fails where its number is listed, the form was stopped or it doesn't fit.
    pub(crate) fn fails(&mut self, fits: bool) -> bool
        ensures fails { IsTrue result ↔ (Contains self.old.failing.items self.old.count ⊎ ((self.old.further ≡ Some 0) ⊎ (fits ≡ false))) }
        ensures never_falls { self.old.faults ≤ self.new.faults }
        ensures cause { IsTrue result → Rose self.old.faults self.new.faults }
        ensures failing { self.new.failing.items ≡ self.old.failing.items }
        ensures count { self.new.count ≡ min (self.old.count + 1) (2 ^ 64 - 1) }
        ensures further { self.new.further ≡ one_less self.old.further }
    {
        let listed = self.failing.contains(&self.count);
        let stopped = matches!(self.further, Some(0));
        self.count = self.count.saturating_add(1);
        if let Some(further) = self.further {
            self.further = Some(further.saturating_sub(1));
        }
        let fails = listed || stopped || !fits;
        if fails {
            self.faults = self.faults.saturating_add(1);
        }
        fails
    }
}
