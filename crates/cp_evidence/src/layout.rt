//! How evidence is laid out: "CPEV", the kind as one byte, numbers, parts, and a segment's bytes.
ghost use Rattle.std.specs.Prelude.{◌≡◌, ◌∷◌, ◌++◌, OnOk, OnErr, length, take, codes, flat_map};
ghost use Rattle.std.specs.Int.{w64, to_be_bytes};
ghost use Rattle.cp_bytes.specs.Fields.{part};
ghost use Rattle.cp_evidence.specs.Written.{laid_out};

use cp_bytes::OutOfMemory;

// Appends evidence of the kind with these numbers and parts, and the bytes behind them, a segment's
// or none. Where memory is wanted, `out` stays as it was.
pub(crate) fn append(
    out: &mut Vec<u8>,
    kind: u8,
    numbers: &[u64],
    parts: &[&[u8]],
    segment: &[u8],
) -> Result<(), OutOfMemory>
    ensures written { OnOk result (out.new.items ≡ out.old.items ++ laid_out kind (flat_map (to_be_bytes w64) numbers.now) (flat_map (λ p. part p.now) parts.now) segment.now) }
    ensures unchanged { OnErr result (out.new.items ≡ out.old.items) }
{
    let start = out.len();
    let written = push_all(out, kind, numbers, parts, segment);
    if written.is_err() {
        out.truncate(start);
    }
    written
}

// The same, but where memory is wanted a beginning of it may stand behind what was there.
fn push_all(
    out: &mut Vec<u8>,
    kind: u8,
    numbers: &[u64],
    parts: &[&[u8]],
    segment: &[u8],
) -> Result<(), OutOfMemory>
    ensures written { OnOk result (out.new.items ≡ out.old.items ++ laid_out kind (flat_map (to_be_bytes w64) numbers.now) (flat_map (λ p. part p.now) parts.now) segment.now) }
    ensures kept { take (length out.old.items) out.new.items ≡ out.old.items }
{
    out.extend_from_slice(&[b'C', b'P', b'E', b'V', kind])?;
    push_numbers(out, numbers)?;
    push_parts(out, parts)?;
    out.extend_from_slice(segment)
}

// Each number as eight bytes, big endian.
fn push_numbers(out: &mut Vec<u8>, numbers: &[u64]) -> Result<(), OutOfMemory>
    ensures written { OnOk result (out.new.items ≡ out.old.items ++ flat_map (to_be_bytes w64) numbers.now) }
    ensures kept { take (length out.old.items) out.new.items ≡ out.old.items }
{
    for number in numbers {
        out.extend_from_slice(&number.to_be_bytes())?;
    }
    Ok(())
}

// Each part behind its length.
fn push_parts(out: &mut Vec<u8>, parts: &[&[u8]]) -> Result<(), OutOfMemory>
    ensures written { OnOk result (out.new.items ≡ out.old.items ++ flat_map (λ p. part p.now) parts.now) }
    ensures kept { take (length out.old.items) out.new.items ≡ out.old.items }
{
    for part in parts {
        push_part(out, part)?;
    }
    Ok(())
}

// The length as four bytes, big endian, which hold the length of each part that fits, and the part.
fn push_part(out: &mut Vec<u8>, bytes: &[u8]) -> Result<(), OutOfMemory>
    ensures written { OnOk result (out.new.items ≡ out.old.items ++ part bytes.now) }
    ensures kept { take (length out.old.items) out.new.items ≡ out.old.items }
{
    let [_, _, _, _, a, b, c, d] = (bytes.len() as u64).to_be_bytes();
    out.extend_from_slice(&[a, b, c, d])?;
    out.extend_from_slice(bytes)
}
