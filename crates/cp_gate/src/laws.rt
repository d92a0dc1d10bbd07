//! What follows for the items that name a seat.
ghost use Rattle.std.specs.Prelude.{◌≡◌, ◌≢◌, ℕ, List, ◌++◌, drop, length};
ghost use Rattle.cp_gate.specs.Histories.{OthersAdd, SeatAdds, items_of};

use crate::stands_for::StandsFor;

/// A law. What others add leaves the items that name a seat as they are. What the seat adds goes behind them, and leaves the items that name any other seat.
///
/// So of what a seat has seen, the items that name it are those from the start and then its own, in the order in which it added them.
pub fn own_items<T: StandsFor>()
    ensures others { (key : T.Key) (k : ℕ) (xs ys : List T.Item) → OthersAdd (T.names key) k xs ys → items_of (T.names key) k ys ≡ items_of (T.names key) k xs }
    ensures own { (key : T.Key) (k : ℕ) (xs ys : List T.Item) → SeatAdds (T.names key) k xs ys → items_of (T.names key) k ys ≡ items_of (T.names key) k xs ++ items_of (T.names key) k (drop (length xs) ys) }
    ensures apart { (key : T.Key) (j k : ℕ) (xs ys : List T.Item) → j ≢ k → SeatAdds (T.names key) k xs ys → items_of (T.names key) j ys ≡ items_of (T.names key) j xs }
{}
