//! The judge.
ghost use Rattle.std.specs.Prelude.{◌≡◌, ◌↔◌};
ghost use Rattle.cp_evidence.specs.Conditions.{tried, Convicts};
ghost use Rattle.cp_evidence.specs.View.{evidence_view};
ghost use Rattle.cp_judge.specs.Judging.{judgement_of, IsGuilty};

use crate::closings::try_k5;
use crate::envelopes::{try_k1, try_k2, try_k3, try_k9, try_k10};
use crate::judgement::Judgement;
use crate::tables::{try_k4, try_k6, try_k7, try_k8};
use cp_evidence::{Evidence, Store};
use lms_tree::PublicKey;

/// What the bytes of `evidence` are under the store's key of 56 bytes, from these bytes alone: the
/// key reads, then the bytes spell evidence, then each condition of its kind holds. It takes no
/// memory, verifies each signature once, and copies no part.
#[tactic(auto, using(crate::proofs::Guilt::guilt))]
pub fn judge(key: &[u8], evidence: &[u8]) -> Judgement
    ensures judged { result ≡ judgement_of key.now evidence.now }
    ensures convicts { IsGuilty result ↔ Convicts key.now evidence.now }
{
    let Ok(key) = PublicKey::read(key) else {
        return Judgement::BadKey;
    };
    let evidence = match Evidence::read(evidence) {
        Ok(evidence) => evidence,
        Err(malformed) => return Judgement::Malformed { at: malformed.at },
    };
    let store = Store::new(key);
    let kind = evidence.kind();
    match try_all(&store, &evidence) {
        Ok(()) => Judgement::Guilty { kind },
        Err(condition) => Judgement::NotEvidence { kind, condition },
    }
}

// All conditions hold, or the number of the first one that fails.
fn try_all(store: &Store, evidence: &Evidence) -> Result<(), u8>
    ensures { result ≡ tried store.now.key (evidence_view evidence.now) }
{
    match evidence {
        Evidence::K1(e) => try_k1(store, e),
        Evidence::K2(e) => try_k2(store, e),
        Evidence::K3(e) => try_k3(store, e),
        Evidence::K4(e) => try_k4(store, e),
        Evidence::K5(e) => try_k5(store, e),
        Evidence::K6(e) => try_k6(store, e),
        Evidence::K7(e) => try_k7(store, e),
        Evidence::K8(e) => try_k8(store, e),
        Evidence::K9(x) => try_k9(store, x),
        Evidence::K10(x) => try_k10(store, x),
    }
}
