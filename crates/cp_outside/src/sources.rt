//! Where bytes come from.
ghost use Rattle.std.specs.Prelude.{◌≡◌, ◌≤◌, length, IfOk};
ghost use Rattle.std.specs.Io.KnownBytes.{ReadConsumes};
ghost use Rattle.cp_outside.specs.Causes.{HasCause};

use crate::endpoints::Endpoint;
use crate::failures::Failed;

/// Where bytes come from, in pieces of any size.
pub trait Source: Endpoint {
    /// Moves the next bytes to the front of `into` and answers how many they are. 0 comes only at the
    /// end of the bytes, or where `into` is empty. After `Failed` the bytes left are as before, and
    /// `into` may hold anything.
    fn read(&mut self, into: &mut [u8]) -> Result<usize, Failed>
        ensures bound { IfOk result (λ n. n ≤ length into.new) }
        ensures bytes { ReadConsumes (Self.left self.old) (Self.left self.new) result into.new }
        ensures cause { HasCause (Self.read_faults self.old) (Self.read_faults self.new) result }

        // The other direction stays as it is.
        ensures held { Self.held self.new ≡ Self.held self.old }
        ensures write_faults { Self.write_faults self.new ≡ Self.write_faults self.old };
}
