//! The numbers of leaves for one thread.
ghost use Rattle.std.specs.Prelude.{◌≡◌, ◌+◌, ◌<◌, ◌≤◌, ◌==◌, ◌++◌, ◌∷◌, [], ℕ, List, false, IfOk, IfErr, MatchResult};
ghost use Rattle.std.specs.List.{list_any};
ghost use Rattle.cp_core.specs.Leaves.{counted, numbers_below};

use crate::{LeafSource, LeavesOver};
use std::marker::Model;

/// The numbers from 0 on, in order: the leaf source of one thread, which never waits. Contracts see how
/// many it gave.
#[derive(Debug, Drop)]
pub struct Counter {
    next: u64,
}

impl Model for Counter {
    ghost use Rattle.std.specs.Prelude.{ℕ};

    ghost Value = { ℕ };

    ghost view = { λ c. c.next };
}

impl Counter {
    /// No number was given.
    pub fn new() -> Counter
        ensures { result ≡ 0 }
    {
        Counter { next: 0 }
    }
}

impl LeafSource for Counter {
    type Fixed = ();

    ghost fixed = { λ _. tt };

    ghost given = { numbers_below };

    ghost found = { λ n. n };

    /// Gives the next number, exactly as long as it is below `limit`.
    fn draw(&mut self, limit: u64) -> Result<u64, LeavesOver>
        ensures counts { result ≡ counted self.old limit }
        ensures next { MatchResult result (λ _. self.new ≡ self.old + 1) (λ _. self.new ≡ self.old) }
        ensures below { IfOk result (λ leaf. leaf < limit) }
        ensures once { IfOk result (λ leaf. list_any (λ x. x == leaf) (numbers_below self.old) ≡ false) }
        ensures given { MatchResult result
            (λ leaf. numbers_below self.new ≡ numbers_below self.old ++ leaf ∷ [])
            (λ _. numbers_below self.new ≡ numbers_below self.old) }
        ensures over { IfErr result (λ over. (over.limit ≡ limit) × (limit ≤ over.drawn) × (self.new ≡ over.drawn)) }
        ensures found { self.old ≤ self.new }
        ensures fixed { tt {0} ≡ tt {0} }
    {
        let leaf = self.next;
        if leaf >= limit {
            return Err(LeavesOver { drawn: leaf, limit });
        }
        self.next = leaf + 1;
        Ok(leaf)
    }
}
