//! Where the numbers of leaves come from.
ghost use Rattle.std.specs.Prelude.{◌≡◌, ◌<◌, ◌≤◌, ◌==◌, ◌++◌, ◌∷◌, [], ℕ, List, false, IfOk, IfErr, MatchResult};
ghost use Rattle.std.specs.List.{list_any};

use crate::LeavesOver;

/// Where the numbers of leaves come from, each once. A source may wait.
pub trait LeafSource {
    /// What a source is made with and no draw changes, as the counter that it draws from.
    type Fixed;

    /// That of this source.
    ghost fixed: { Self → Self.Fixed };

    /// The numbers that it gave, in order.
    ghost given: { Self → List ℕ };

    /// How many numbers it last found drawn, by itself and by all others. It never falls.
    ghost found: { Self → ℕ };

    /// Gives a number below `limit` that it did not give before.
    ///
    /// # Errors
    ///
    /// `LeavesOver` only where the found number is then `drawn`, and at least the limit. No number is
    /// given then.
    fn draw(&mut self, limit: u64) -> Result<u64, LeavesOver>
        ensures below { IfOk result (λ leaf. leaf < limit) }
        ensures once { IfOk result (λ leaf. list_any (λ x. x == leaf) (Self.given self.old) ≡ false) }
        ensures given { MatchResult result
            (λ leaf. Self.given self.new ≡ Self.given self.old ++ leaf ∷ [])
            (λ _. Self.given self.new ≡ Self.given self.old) }
        ensures over { IfErr result (λ over. (over.limit ≡ limit) × (limit ≤ over.drawn) × (Self.found self.new ≡ over.drawn)) }
        ensures found { Self.found self.old ≤ Self.found self.new }
        ensures fixed { Self.fixed self.new ≡ Self.fixed self.old };
}
