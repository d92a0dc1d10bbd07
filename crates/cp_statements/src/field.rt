//! Fields that not all bytes spell.
ghost use Rattle.cp_bytes.specs.Fields.{field_at};
ghost use Rattle.cp_bytes.specs.Fields.Field.{Tag, Epoch};
ghost use Rattle.cp_statements.specs.Reading.{ReadsField};

use crate::Malformed;
use cp_bytes::Cut;

/// The four bytes that a text begins with. Other bytes are refused at the tag's offset, as are fewer.
#[tactic(auto, unfolding(cp_bytes::specs::Fields::field_at))]
pub fn take_tag(cut: &mut Cut, tag: &[u8; 4]) -> Result<(), Malformed>
    ensures { ReadsField (λ _. tt) cut.old cut.new result (field_at (Tag tag.now) cut.old.rest) }
{
    if !cut.rest().starts_with(tag) {
        return Err(Malformed { at: cut.at() });
    }
    cut.take(4)?;
    Ok(())
}

/// The next eight bytes as an epoch, big endian. Epochs begin at 1: eight zero bytes are refused at
/// their own offset, as are fewer than eight bytes.
#[tactic(auto, unfolding(cp_bytes::specs::Fields::field_at))]
pub fn take_epoch(cut: &mut Cut) -> Result<u64, Malformed>
    ensures { ReadsField (λ x. x) cut.old cut.new result (field_at Epoch cut.old.rest) }
{
    if let [0, 0, 0, 0, 0, 0, 0, 0, ..] = cut.rest() {
        return Err(Malformed { at: cut.at() });
    }
    Ok(cut.be_u64()?)
}
