//! Texts that are put together from their fields.
ghost use Rattle.std.specs.Prelude.{◌≡◌, length, flat_map};

use cp_bytes::put;

/// The pieces, one after another.
pub(crate) fn joined<const N: usize>(pieces: &[&[u8]]) -> [u8; N]
    requires { length (flat_map (λ piece. piece.now) pieces.now) ≡ N }
    ensures { result ≡ flat_map (λ piece. piece.now) pieces.now }
{
    let mut text = [0u8; N];
    let mut at = 0;
    for piece in pieces {
        put(&mut text, at, piece);
        at += piece.len();
    }
    text
}
