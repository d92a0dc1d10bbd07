//! The laws of the plain store.
ghost use Rattle.cp_core.specs.Laws.{AlwaysHonest, BookedIsSigned, BookingsAreSigned, ContentIsAttested, EachEventKeeps, FrozenStays, OpensHonest, SealsAreRight, WriterIsSigned};

/// Whatever comes, in whatever order: after every list of admissible events the store's life is honest,
/// and keeps the further facts by which each next event leaves it so.
pub fn always_honest()
    ensures every_list { AlwaysHonest }
    ensures each_event { EachEventKeeps }
    ensures opening { OpensHonest }
{}

/// A put's request is signed by a writer exactly where the entry that it would make has one.
pub fn writer_is_signed()
    ensures { WriterIsSigned }
{}

/// What a call is booked was signed in the life after it, reads as an attestation, and brings no content
/// at a put, and at a get the content with the attested hash, which is empty at version 0.
pub fn content_is_attested()
    ensures signed { BookedIsSigned }
    ensures content { ContentIsAttested }
{}

/// What one honest shard answers a call with a booking is signed by a row of its items after the call:
/// the one that the call made, now or before.
pub fn bookings_are_signed()
    ensures { BookingsAreSigned }
{}

/// The seal of an epoch that all sixteen shards have frozen with one list for the next is right behind
/// the seals before, whatever leaves the shards' rows have.
pub fn seals_are_right()
    ensures { SealsAreRight }
{}

/// Of an epoch that a shard has frozen nothing changes as its life goes on: neither what it hands over,
/// nor a block's tip at the epoch's end, nor the families list.
pub fn frozen_stays()
    ensures { FrozenStays }
{}
