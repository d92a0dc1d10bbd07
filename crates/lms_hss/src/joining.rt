//! A signature of two levels, put together.
ghost use Rattle.std.specs.Prelude.{◌≡◌, ◌++◌, is_ok, if◌then◌else◌};

use cp_bytes::OutOfMemory;

/// Appends the certificate of a life and the signature under the life's key to `out`, which is left
/// as it was where memory is wanting (RFC 8554, 6.2).
pub fn hss_signature(certificate: &[u8], sig: &[u8], out: &mut Vec<u8>) -> Result<(), OutOfMemory>
    ensures { out.new.items ≡ (if is_ok result
        then out.old.items ++ certificate.now ++ sig.now else out.old.items) }
{
    out.reserve(certificate.len() + sig.len())?;
    out.extend_from_slice(certificate)?;
    out.extend_from_slice(sig)?;
    Ok(())
}
