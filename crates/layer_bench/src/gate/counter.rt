//! What stands at each place.
use cp_gate::StandsFor;

/// A count of turns. Its history is empty, so that a turn costs what the gate costs.
#[derive(Drop)]
pub struct Counter {
    turns: u64,
}

impl Counter {
    pub fn new() -> Counter {
        Counter { turns: 0 }
    }

    /// Counts one turn more.
    pub fn add(&mut self) {
        self.turns = self.turns.wrapping_add(1);
    }

    pub fn turns(&self) -> u64 {
        self.turns
    }
}

impl StandsFor for Counter {
    ghost use Rattle.std.specs.Prelude.{[], None};

    type Key = ();

    type Item = ();

    ghost fits = { λ _ _ _. Unit {0} };

    ghost history = { λ _ _ _. [] };

    ghost names = { λ _ _. None };

    fn items(&self) -> u64 {
        0
    }
}
