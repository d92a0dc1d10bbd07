//! What a value stands for.
ghost use Rattle.std.specs.Prelude.{◌≡◌, ℕ, List, Option, length};

/// A value that stands for a history, under a key that its gate has.
///
/// A key is plain data. What it has for contracts alone, as which counter a seat in the value draws from, is a `Snapshot` and takes no bytes. Neither the value nor its items need be `Drop`, and a value may own seats of other tables.
pub trait StandsFor {
    /// What the values of one gate have in common. It never changes.
    type Key: Drop;

    /// An item of a history. Proofs alone speak of it, so that a value may keep its items in any form.
    type Item;

    // Whether the value may stand at the place: of the key, the place and the value.
    ghost fits: { Self.Key → ℕ → Self → Type 0 };

    // The history that the value stands for there, oldest item first.
    ghost history: { Self.Key → ℕ → Self → List Self.Item };

    // The number of the seat that an item names, if it names one.
    ghost names: { Self.Key → Self.Item → Option ℕ };

    /// The number of items in the history.
    fn items(&self) -> u64
        ensures { (key : Self.Key) (place : ℕ) → fits key place self.now → length (history key place self.now) ≡ result };
}
