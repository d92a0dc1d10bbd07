//! Where bytes go.
ghost use Rattle.std.specs.Prelude.{◌≡◌, ◌<◌, ◌≤◌, length, IfOk, MatchResult};
ghost use Rattle.std.specs.Io.KnownBytes.{Appends, WriteAppends};
ghost use Rattle.cp_outside.specs.Causes.{HasCause, AppendsPart};

use crate::endpoints::Endpoint;
use crate::failures::Failed;

/// Where bytes go, in pieces of any size.
pub trait Sink: Endpoint {
    /// Appends the first bytes of a piece to those held and answers how many they are: at least one
    /// where the piece is not empty. After `Failed` the bytes held are as before.
    fn write(&mut self, bytes: &[u8]) -> Result<usize, Failed>
        ensures bound { IfOk result (λ n. n ≤ length bytes.now) }
        ensures some { IfOk result (λ n. 0 < length bytes.now → 0 < n) }
        ensures bytes { WriteAppends (Self.held self.old) (Self.held self.new) result bytes.now }
        ensures cause { HasCause (Self.write_faults self.old) (Self.write_faults self.new) result }

        // The other direction stays as it is.
        ensures left { Self.left self.new ≡ Self.left self.old }
        ensures read_faults { Self.read_faults self.new ≡ Self.read_faults self.old };
}

/// Writes all of the bytes, in as many pieces as the sink takes them. After `Failed` a prefix of them
/// was written, which is not the whole.
pub fn put_all<S: Sink>(sink: &mut S, bytes: &[u8]) -> Result<(), Failed>
    ensures bytes { MatchResult result
        (λ _. Appends (S.held sink.old) (S.held sink.new) bytes.now)
        (λ _. AppendsPart (S.held sink.old) (S.held sink.new) bytes.now) }
    ensures cause { HasCause (S.write_faults sink.old) (S.write_faults sink.new) result }

    // The other direction stays as it is.
    ensures left { S.left sink.new ≡ S.left sink.old }
    ensures read_faults { S.read_faults sink.new ≡ S.read_faults sink.old }
{
    let mut at = 0;
    while at < bytes.len() {
        at += sink.write(&bytes[at..])?;
    }
    Ok(())
}
