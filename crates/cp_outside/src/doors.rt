//! Where connections come in.
ghost use Rattle.std.specs.Prelude.{◌≡◌, ◌<◌, ◌+◌, ℕ, List, ◌++◌, ◌∷◌, [], Option};
ghost use Rattle.std.specs.Option.{option_map};
ghost use Rattle.cp_outside.specs.Causes.{HasCause};
ghost use Rattle.cp_outside.specs.Doors.{HandsOut, CountsHandedOut};

use crate::failures::Failed;
use crate::links::Link;

/// Where connections come in. It hands them out one by one, and takes back those that are over.
pub trait Door {
    /// A connection as this door hands it out.
    type Conn: Link;

    /// The connections to come, in order; `None` where they are not told.
    ghost coming: { Self → Option (List Self.Conn) };

    /// The connections that are over, in the order in which they ended; `None` where they are not told.
    ghost ended: { Self → Option (List Self.Conn) };

    /// How many connections are handed out and have not been taken back.
    ghost handed_out: { Self → ℕ };

    /// How many calls have failed so far.
    ghost faults: { Self → ℕ };

    /// Hands out the first of the connections to come, as it stands there. `None` comes only where none
    /// is to come. After `None` and `Failed` both lists are as before.
    fn accept(&mut self) -> Result<Option<Self::Conn>, Failed>
        ensures coming { HandsOut (coming self.old) (coming self.new) result }
        ensures ended { ended self.new ≡ ended self.old }
        ensures handed_out { CountsHandedOut (handed_out self.old) (handed_out self.new) result }
        ensures cause { HasCause (faults self.old) (faults self.new) result };

    /// Takes back a connection that is over, behind those that ended before. As many can be taken back
    /// as were handed out.
    fn end(&mut self, conn: Self::Conn)
        requires handed_out { 0 < handed_out self.old }
        ensures coming { coming self.new ≡ coming self.old }
        ensures ended { ended self.new ≡ option_map (λ conns. conns ++ conn ∷ []) (ended self.old) }
        ensures handed_out { handed_out self.new + 1 ≡ handed_out self.old }
        ensures faults { faults self.new ≡ faults self.old };
}
