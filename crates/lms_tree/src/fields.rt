//! The fields of fixed place in keys and signatures.
ghost use Rattle.std.specs.Prelude.{◌≡◌, ◌+◌, ◌≤◌, length, take, drop};
ghost use Rattle.lms_tree.specs.PublicKey.{number_at};

// The number of the four bytes from `at` on, big endian.
pub(crate) fn number_at(bytes: &[u8], at: usize) -> u32
    requires { at + 4 ≤ length bytes.now }
    ensures { result ≡ number_at bytes.now at }
{
    let part = &bytes[at..at + 4];
    u32::from_be_bytes([part[0], part[1], part[2], part[3]])
}

// The `N` bytes from `at` on.
pub(crate) fn array_at<const N: usize>(bytes: &[u8], at: usize) -> [u8; N]
    requires { at + N ≤ length bytes.now }
    ensures { result ≡ take N (drop at bytes.now) }
{
    let mut out = [0u8; N];
    out.copy_from_slice(&bytes[at..at + N]);
    out
}
