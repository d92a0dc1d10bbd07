//! The rows of a list, as they are read.
ghost use Rattle.std.specs.Prelude.{◌≡◌, map, None, Some, IfOk, IfSome, IsTrue, MatchOption};
ghost use Rattle.cp_families.specs.Families.{family_rows_at, key_of};
ghost use Rattle.lms_tree.specs.PublicKey.{key_reads};
ghost use Rattle.cp_families.specs.Rows.{row_of, IsListed};
ghost use Rattle.cp_statements.specs.Reading.{ReadsOn};

use crate::row::take_row;
use cp_bytes::Cut;
use cp_statements::Malformed;

// So many rows, each of which comes after the one before it.
pub(crate) fn take_rows<'a>(cut: &mut Cut<'a>, count: u32) -> Result<&'a [[u8; 64]], Malformed>
    ensures reads { ReadsOn (λ rows. map row_of rows.now) cut.old cut.new result (family_rows_at count None cut.old.rest) }
    ensures listed { IfOk result (λ rows. IsListed (map row_of rows.now)) }
{
    let bytes = cut.rest();
    let mut before = None;
    for _ in 0..count {
        before = Some(take_row(cut, before)?);
    }
    let (rows, _) = bytes.as_chunks::<64>();
    Ok(&rows[..count as usize])
}

// The key of the client in the family, which a bisection finds.
pub(crate) fn find_key(rows: &[[u8; 64]], family: u32, client: u32) -> Option<&[u8]>
    requires { IsListed (map row_of rows.now) }
    ensures found { MatchOption result (key_of (map row_of rows.now) family client ≡ None) (λ key. key_of (map row_of rows.now) family client ≡ Some key.now) }
    ensures reads { IfSome result (λ key. IsTrue (key_reads key.now)) }
{
    match rows.binary_search_by_key(&(family, client), place_of) {
        Ok(at) => Some(&rows[at][8..]),
        Err(_) => None,
    }
}

// The family and the client of a row.
fn place_of(row: &[u8; 64]) -> (u32, u32)
    ensures { (result.0 ≡ (row_of row.now).family) × (result.1 ≡ (row_of row.now).client) }
{
    (
        u32::from_be_bytes([row[0], row[1], row[2], row[3]]),
        u32::from_be_bytes([row[4], row[5], row[6], row[7]]),
    )
}
