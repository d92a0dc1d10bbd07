//! What fixes a session.
ghost use Rattle.cp_session.specs.Laws.{SessionIsFixed};
ghost use Rattle.cp_session.specs.Gets.{RepliesAreFixed};

/// The bytes that a connection sent fix what its desk is asked and how its session ends; with the
/// desk's replies they fix what the connection gets.
pub fn session_is_fixed()
    ensures { SessionIsFixed }
{}

/// The bytes that a connection gets fix the replies to it, whatever it sent: each body, and each
/// refusal with its numbers. Where a write failed, they fix those whose responses were written whole.
pub fn replies_are_fixed()
    ensures { RepliesAreFixed }
{}
