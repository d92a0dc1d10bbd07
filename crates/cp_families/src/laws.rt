//! The laws that tie a families list's text to its reading, and those on the check of a put.
ghost use Rattle.cp_families.specs.Laws.{FamiliesAreExact, FamiliesLength};
ghost use Rattle.cp_families.specs.Refusals.{BadSignatureExactly, LetInExactly, MalformedExactly, NotAWriterExactly, WrongStoreExactly};

/// What is spelled is read, what is read was spelled so, and one list has one spelling, of eight bytes
/// and 64 for each row.
pub fn families_are_exact()
    ensures exact { FamiliesAreExact }
    ensures length { FamiliesLength }
{}

/// The check of a put: each of its refusals comes exactly where its words say, and the put is let in
/// exactly where an authorized writer's key verifies it. So of several causes the first in the order
/// of `PutFault` is named.
pub fn put_is_checked()
    ensures malformed { MalformedExactly }
    ensures wrong_store { WrongStoreExactly }
    ensures not_a_writer { NotAWriterExactly }
    ensures bad_signature { BadSignatureExactly }
    ensures let_in { LetInExactly }
{}
