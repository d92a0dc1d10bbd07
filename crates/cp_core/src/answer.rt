//! What the plain store answers to an event.

use crate::{Booked, CallRefusal, CloseRefusal, Phase};

/// The answer to an event (this project's own).
#[derive(Debug, Drop)]
pub enum Answer {
    /// The call has an entry: a new one, or at a repeat the one that it made.
    Booked(Booked),
    /// The call is refused.
    CallRefused(CallRefusal),
    /// The closing does not begin.
    CloseRefused(CloseRefusal),
    /// The step of a closing is done.
    Done,
    /// The text of this epoch is published.
    Text(u64),
    /// The epoch is not published: `count` epochs are.
    NotClosed { count: u64 },
    /// The event does not belong in this phase, and nothing changed.
    NotNow { phase: Phase },
}
