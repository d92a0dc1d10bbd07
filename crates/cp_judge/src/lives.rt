//! The judge under an operator's key.
ghost use Rattle.std.specs.Prelude.{◌≡◌, ◌↔◌, IsTrue};
ghost use Rattle.cp_evidence.specs.Conditions.{Convicts};
ghost use Rattle.cp_judge.specs.Lives.{life_judgement_of, IsLifeGuilty};
ghost use Rattle.lms_hss.specs.Hss.{certifies, life_key};

use crate::judgement::Judgement;
use crate::judging::judge;
use lms_hss::{HssPublic, certified_life};

/// What bytes are against a life of a store, under its operator's key.
#[derive(Clone, Copy, Debug, PartialEq, Eq)]
pub enum LifeJudgement {
    /// The key's bytes are no public key of two levels.
    BadKey,
    /// The certificate isn't one under the key.
    BadCertificate,
    /// What the evidence is under the key of the life that the certificate is for.
    Judged(Judgement),
}

/// What the bytes of `evidence` are against the life that `certificate` is for, under the
/// operator's key of 60 bytes, from these bytes alone (RFC 8554, section 6, for the key and the
/// certificate): the key reads, then the certificate is one under it, and then the evidence is
/// judged under the life's key. It takes no memory.
#[tactic(auto, using(crate::proofs::LifeGuilt::lives))]
pub fn judge_life(key: &[u8], certificate: &[u8], evidence: &[u8]) -> LifeJudgement
    ensures judged { result ≡ life_judgement_of key.now certificate.now evidence.now }
    ensures convicts { IsLifeGuilty result ↔ (IsTrue (certifies key.now certificate.now)
        × Convicts (life_key key.now certificate.now) evidence.now) }
{
    let Ok(key) = HssPublic::read(key) else {
        return LifeJudgement::BadKey;
    };
    match certified_life(&key, certificate) {
        Some(life) => LifeJudgement::Judged(judge(&life.bytes(), evidence)),
        None => LifeJudgement::BadCertificate,
    }
}
