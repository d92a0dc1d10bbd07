//! What is known of one end of a connection.
ghost use Rattle.std.specs.Prelude.{ℕ, List, Option};

/// What is known of one end of a connection: the bytes that are still to be read from it, the bytes
/// that were written to it, and how often each direction has failed.
///
/// Something that is only read from tells no bytes held and counts no fault of writing, and something
/// that is only written to the other way round.
pub trait Endpoint {
    /// The bytes left to be read, in order; `None` where they are not told.
    ghost left: { Self → Option (List ℕ) };

    /// The bytes held, in the order in which they were written; `None` where they are not told.
    ghost held: { Self → Option (List ℕ) };

    /// How many reads have failed so far.
    ghost read_faults: { Self → ℕ };

    /// How many writes have failed so far.
    ghost write_faults: { Self → ℕ };
}
