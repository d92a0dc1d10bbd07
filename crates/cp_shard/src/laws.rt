//! What is true of every shard.
ghost use Rattle.std.specs.Prelude.{ℕ, ◌≤◌};
ghost use Rattle.cp_chain.specs.Each.{Each};
ghost use Rattle.cp_core.specs.Honest.{IsItemOf};
ghost use Rattle.cp_core.specs.Calls.{content_at, latest_of};
ghost use Rattle.cp_core.specs.Life.{freezes};
ghost use Rattle.cp_core.specs.Kept.{IsContentOf};
ghost use Rattle.cp_shard.specs.Laws.{BookingsAttest, LeavesDiffer, RowsAreShort, StepsStayHonest};

use crate::shard::Shard;

impl Shard {
    /// The items of each shard stand rightly behind one another: each row spells an entry of a block of
    /// the shard, in the epoch after the freezes and at the position after the block's rows, and the
    /// freezes carry 1, 2 and so on, with lists that spell families. Each block's latest content has the
    /// hash of its latest put, or is empty where none was. There are no more freezes than the shard has
    /// room for. This is a law of every shard, and the call does nothing.
    pub fn stands_rightly(&self)
        ensures items { Each (IsItemOf self.now.index) self.now.items }
        ensures contents { (block : ℕ) →
            IsContentOf (latest_of self.now.items block) (content_at self.now.contents block) }
        ensures froze { freezes self.now.items ≤ self.now.closings }
    {
        let _ = &self.epoch;
    }
}

/// A shard that is honest under its store's writers stays so by each call that it books, and by each
/// freeze with a list that spells families.
pub fn steps_stay_honest()
    ensures { StepsStayHonest }
{}

/// Each row of an honest shard has a text whose length fits four bytes: a put's signature verifies, so it
/// is as long as a signature of its key.
pub fn rows_are_short()
    ensures { RowsAreShort }
{}

/// What an honest shard answers a call with a booking reads as an attestation, and its content is the
/// attested one: none at a put, and at a get that with the attested hash, which is empty at version 0.
/// That a row signs it is the plain store's law `bookings_are_signed`.
pub fn bookings_attest()
    ensures { BookingsAttest }
{}

/// The leaves of a life's rows differ where each leaf is that of at most one row of all shards together.
/// So it is where each row's leaf was drawn from one counter, by the count that its close answers.
pub fn leaves_differ()
    ensures { LeavesDiffer }
{}
