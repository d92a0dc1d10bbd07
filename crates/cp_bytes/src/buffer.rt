//! Filling a buffer piece by piece.
ghost use Rattle.std.specs.Prelude.{◌≡◌, ◌+◌, ◌≤◌, ◌++◌, length, take, drop};

/// Writes `piece` into `out` from the offset `at` on, which then ends what stands in front of it.
/// The bytes behind it stay as they were.
#[tactic(auto, using(std::proofs::lemmas::Slice::overwrites))]
pub fn put(out: &mut [u8], at: usize, piece: &[u8])
    requires { at + length piece.now ≤ length out.old }
    ensures written { take (at + length piece.now) out.new ≡ take at out.old ++ piece.now }
    ensures behind { drop (at + length piece.now) out.new ≡ drop (at + length piece.now) out.old }
{
    out[at..at + piece.len()].copy_from_slice(piece);
}
