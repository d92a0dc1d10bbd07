//! The command `judge-life`.
ghost use Rattle.std.specs.Prelude.{◌≡◌, ◌≤◌};
ghost use Rattle.cp_endings.specs.Folders.{files_of};
ghost use Rattle.cp_endings.specs.ThreeInputs.{three_view};
ghost use Rattle.cp_endings.specs.View.{ending_view};
ghost use Rattle.cp_more.specs.LifeJudging.{JudgeLifeEnds, life_judged_of};

use cp_endings::{EVIDENCE_LIMIT, Ending, Input, MoreEnding, ThreeFiles, three_inputs};
use cp_judge::{LifeJudgement, judge_life};
use cp_outside::Folder;
use std::alloc::Global;

// The most bytes of an operator's key file.
const HSS_KEY_LIMIT: u64 = 60;

// The most bytes of a certificate file: 16 KiB.
const CERTIFICATE_LIMIT: u64 = 16_384;

// What the evidence is against the life that the certificate is for.
fn judged<'a>(files: &ThreeFiles) -> Ending<'a>
    ensures { ending_view result ≡ life_judged_of (three_view files.now) }
{
    let judgement = judge_life(
        files.first.as_slice(),
        files.second.as_slice(),
        files.third.as_slice(),
    );
    match judgement {
        LifeJudgement::BadKey => Ending::BadKey,
        LifeJudgement::BadCertificate => Ending::More(MoreEnding::BadCertificate),
        LifeJudgement::Judged(judgement) => Ending::Judged(judgement),
    }
}

/// Does what the words of `judge-life` say, up to the printed line: whether the evidence convicts
/// the life that the certificate is for, under the operator's key. No file is written.
pub fn run_judge_life<'a, F: Folder>(
    alloc: Global,
    files: &mut F,
    key: &'a str,
    certificate: &'a str,
    evidence: &'a str,
) -> Ending<'a>
    ensures ends { JudgeLifeEnds key.entry.now certificate.entry.now evidence.entry.now
        (files_of F.Folder files.old)
        (files_of F.Folder files.new) (ending_view result) }
    ensures tells { F.tells files.new ≡ F.tells files.old }
    ensures read_count { F.read_faults files.old ≤ F.read_faults files.new }
    ensures unwritten { F.write_faults files.new ≡ F.write_faults files.old }
{
    let key = Input {
        name: key,
        limit: HSS_KEY_LIMIT,
    };
    let certificate = Input {
        name: certificate,
        limit: CERTIFICATE_LIMIT,
    };
    let evidence = Input {
        name: evidence,
        limit: EVIDENCE_LIMIT,
    };
    let inputs = match three_inputs(alloc, files, key, certificate, evidence) {
        Ok(inputs) => inputs,
        Err(ending) => return ending,
    };
    judged(&inputs)
}
