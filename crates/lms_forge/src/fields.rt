//! The parts of a signature (RFC 8554, 5.4).
ghost use Rattle.std.specs.Prelude.{◌≡◌, ◌+◌, ◌*◌, ◌≤◌, length, take, drop};
ghost use Rattle.lms_ots.specs.Parameters.{sig_len_of};
ghost use Rattle.lms_tree.specs.Verifying.{leaf_of, ots_sig, path_of};

use lms_ots::OtsType;

// q, the leaf.
pub(crate) fn leaf_of(sig: &[u8]) -> u32
    requires { 4 ≤ length sig.now }
    ensures { result ≡ leaf_of sig.now }
{
    u32::from_be_bytes([sig[0], sig[1], sig[2], sig[3]])
}

// The one-time signature.
pub(crate) fn one_time(t: OtsType, sig: &[u8]) -> &[u8]
    requires { 4 + sig_len_of t ≤ length sig.now }
    ensures value { result.now ≡ ots_sig t sig.now }
    ensures long { length result.now ≡ sig_len_of t }
{
    &sig[4..4 + t.sig_len()]
}

// The path.
pub(crate) fn path_of(t: OtsType, sig: &[u8]) -> &[u8]
    requires { 8 + sig_len_of t ≤ length sig.now }
    ensures { result.now ≡ path_of t sig.now }
{
    &sig[8 + t.sig_len()..]
}

// The 32 bytes from `at` on.
pub(crate) fn array32(bytes: &[u8], at: usize) -> [u8; 32]
    requires { at + 32 ≤ length bytes.now }
    ensures { result ≡ take 32 (drop at bytes.now) }
{
    let mut out = [0u8; 32];
    out.copy_from_slice(&bytes[at..at + 32]);
    out
}
