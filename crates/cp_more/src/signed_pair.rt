//! An envelope of a list that a key signed.
ghost use Rattle.std.specs.Prelude.{◌≡◌};
ghost use Rattle.cp_bytes.specs.Reading.{ReadsOn};
ghost use Rattle.cp_more.specs.Pairs.{pair_at};
ghost use Rattle.cp_more.specs.PairView.{pair_view};

use cp_bytes::{Cut, Short};
use cp_statements::Envelope;

// The leaf and the text of an envelope.
#[derive(Clone, Copy)]
pub(crate) struct SignedPair<'a> {
    pub(crate) leaf: u32,
    pub(crate) text: &'a [u8],
}

// The pair of the envelope at the front of what is left, which is by one of the leaves.
#[tactic(auto, unfolding(crate::specs::Pairs::pair_at))]
pub(crate) fn take_pair<'a>(cut: &mut Cut<'a>, leaves: u32) -> Result<SignedPair<'a>, Short>
    ensures { ReadsOn pair_view cut.old cut.new result (pair_at leaves cut.old.rest) }
{
    let at = cut.at();
    let envelope = Envelope::take(cut)?;
    let Some(leaf) = envelope.leaf() else {
        return Err(Short { at });
    };
    if leaf >= leaves {
        return Err(Short { at });
    }
    Ok(SignedPair {
        leaf,
        text: envelope.text,
    })
}
