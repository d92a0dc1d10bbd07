//! One row of a families list, as it is read.
ghost use Rattle.std.specs.Prelude.{◌≡◌};
ghost use Rattle.cp_families.specs.Families.{family_row_at, comes_after};
ghost use Rattle.cp_statements.specs.Reading.{ReadsOn};
ghost use Rattle.cp_families.specs.View.{row_view, row_before};

use cp_bytes::Cut;
use cp_statements::Malformed;
use lms_tree::PublicKey;

// A client and its key in a family.
#[derive(Clone, Copy)]
pub(crate) struct Row<'a> {
    pub(crate) family: u32,
    pub(crate) client: u32,
    pub(crate) key: &'a [u8],
}

// The row at the front, behind the row before. One that doesn't come after that is refused at its
// first byte, and a key that doesn't read at the key's.
#[tactic(auto, unfolding(crate::specs::Families::family_row_at))]
pub(crate) fn take_row<'a>(cut: &mut Cut<'a>, before: Option<Row<'a>>) -> Result<Row<'a>, Malformed>
    ensures { ReadsOn row_view cut.old cut.new result (family_row_at (row_before before.entry) cut.old.rest) }
{
    let at = cut.at();
    let family = cut.be_u32()?;
    let client = cut.be_u32()?;
    if !comes_after(before, family, client) {
        return Err(Malformed { at });
    }
    let key_at = cut.at();
    let key = cut.take(56)?;
    if PublicKey::read(key).is_err() {
        return Err(Malformed { at: key_at });
    }
    Ok(Row {
        family,
        client,
        key,
    })
}

// Whether family and client come after those of the row before.
fn comes_after(before: Option<Row<'_>>, family: u32, client: u32) -> bool
    ensures { result ≡ comes_after (row_before before.entry) family client }
{
    match before {
        None => true,
        Some(row) => row.family < family || row.family == family && row.client < client,
    }
}
