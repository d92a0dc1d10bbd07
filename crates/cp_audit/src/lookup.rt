//! Looking a block's segment up in a log.
ghost use Rattle.std.specs.Prelude.{◌≡◌, true, map, None, Some, MatchOption};
ghost use Rattle.std.specs.Prelude.{Contains};
ghost use Rattle.cp_chain.specs.Log.{parts_ascend};
ghost use Rattle.cp_evidence.specs.Material.{part_of};
ghost use Rattle.cp_audit.specs.LogParts.{Have, IsPartOf, Lack};
ghost use Rattle.cp_audit.specs.Parts.{part_view};

use crate::part::Part;

// The segment of the block, which a bisection finds.
pub(crate) fn part_at<'b, 'a>(parts: &'b [Part<'a>], block: u64) -> Option<&'b Part<'a>>
    requires { parts_ascend None (map part_view parts.now) ≡ true }
    ensures found { MatchOption result (Lack parts.now block) (λ p. Have parts.now block p.now) }
    ensures member { MatchOption result (Unit {0}) (λ part. IsPartOf parts.now block part.now) }
{
    match parts.binary_search_by_key(&block, block_of) {
        Ok(at) => Some(&parts[at]),
        Err(_) => None,
    }
}

// The block of a part.
fn block_of(part: &Part) -> u64
    ensures { result ≡ (part_view part.now).block }
{
    part.frame.block
}
