//! Evidence, as its bytes spell it.
ghost use Rattle.std.specs.Prelude.{◌≡◌};
ghost use Rattle.cp_evidence.specs.Evidence.{evidence_of, kind_of, parts_at};

use crate::{BrokenRule, ClosingTable, Lost, Two, WentBack};
use cp_bytes::Cut;
use cp_statements::{Envelope, Malformed, take_tag};

/// Evidence against a store, of one of ten kinds (this project's own). It borrows the bytes that it
/// was read from.
#[derive(Drop)]
pub enum Evidence<'a> {
    /// Kind 1: two attestations of one position of a block.
    K1(Two<'a>),
    /// Kind 2: two texts under one leaf.
    K2(Two<'a>),
    /// Kind 3: two closings of one epoch.
    K3(Two<'a>),
    /// Kind 4: a table that isn't well formed for its closing.
    K4(ClosingTable<'a>),
    /// Kind 5: a closing, and the closing before that its link isn't to; in epoch 1 an empty envelope,
    /// and a link that isn't zero.
    K5(Two<'a>),
    /// Kind 6: a block that went back.
    K6(WentBack<'a>),
    /// Kind 7: a segment that breaks a rule.
    K7(BrokenRule<'a>),
    /// Kind 8: an attestation that doesn't stand in its block's segment.
    K8(Lost<'a>),
    /// Kind 9: a get attestation with a wrong head.
    K9(Envelope<'a>),
    /// Kind 10: a signed text that is no statement of the store.
    K10(Envelope<'a>),
}

impl<'a> Evidence<'a> {
    ghost use Rattle.std.specs.Prelude.{◌-◌, ◌≤◌, length};
    ghost use Rattle.cp_statements.specs.Reading.{Reads, ReadsOn};
    ghost use Rattle.cp_evidence.specs.View.{evidence_view};

    // The parts of this kind, whose byte stands at the offset `at`.
    #[tactic(auto, unfolding(crate::specs::Evidence::parts_at))]
    fn take_parts(kind: u8, at: u64, cut: &mut Cut<'a>) -> Result<Evidence<'a>, Malformed>
        requires { at ≤ cut.old.total }
        ensures { ReadsOn evidence_view cut.old cut.new result (parts_at kind cut.old.rest (cut.old.total - at)) }
    {
        let evidence = match kind {
            1 => Evidence::K1(Two::take(cut)?),
            2 => Evidence::K2(Two::take(cut)?),
            3 => Evidence::K3(Two::take(cut)?),
            4 => Evidence::K4(ClosingTable::take(cut)?),
            5 => Evidence::K5(Two::take(cut)?),
            6 => Evidence::K6(WentBack::take(cut)?),
            7 => Evidence::K7(BrokenRule::take(cut)?),
            8 => Evidence::K8(Lost::take(cut)?),
            9 => Evidence::K9(Envelope::take(cut)?),
            10 => Evidence::K10(Envelope::take(cut)?),
            _ => return Err(Malformed { at }),
        };
        Ok(evidence)
    }

    /// The evidence that all of the bytes spell: "CPEV", the kind as one byte, which is one of 1 to 10,
    /// its numbers of eight bytes, big endian, and its parts, each behind its length of four bytes; a
    /// segment stands last, with no length before it. A rule's number outside 1 to 9 is refused at its
    /// first byte. It takes no memory.
    #[tactic(auto, unfolding(crate::specs::Evidence::evidence_of))]
    pub fn read(bytes: &'a [u8]) -> Result<Evidence<'a>, Malformed>
        ensures { Reads evidence_view result (evidence_of bytes.now) }
    {
        let mut cut = Cut::new(bytes);
        take_tag(&mut cut, b"CPEV")?;
        let at = cut.at();
        let kind = cut.byte()?;
        let evidence = Evidence::take_parts(kind, at, &mut cut)?;
        cut.end()?;
        Ok(evidence)
    }

    /// The kind, a number of 1 to 10.
    pub fn kind(&self) -> u8
        ensures { result ≡ kind_of (evidence_view self.now) }
    {
        match self {
            Evidence::K1(_) => 1,
            Evidence::K2(_) => 2,
            Evidence::K3(_) => 3,
            Evidence::K4(_) => 4,
            Evidence::K5(_) => 5,
            Evidence::K6(_) => 6,
            Evidence::K7(_) => 7,
            Evidence::K8(_) => 8,
            Evidence::K9(_) => 9,
            Evidence::K10(_) => 10,
        }
    }
}
