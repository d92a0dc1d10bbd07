//! The command `audit`.
ghost use Rattle.std.specs.Prelude.{◌≡◌, ◌≤◌, Ok};
ghost use Rattle.cp_evidence.specs.Evidence as spec;
ghost use Rattle.cp_evidence.specs.Evidence.{evidence_of};
ghost use Rattle.cp_tool.specs.AuditAnswers.{Answers, WritesEvidence};
ghost use Rattle.cp_tool.specs.AuditInputs.{sources_view};
ghost use Rattle.cp_tool.specs.AuditRuns.{AuditEnds};
ghost use Rattle.cp_commands.specs.View.{audit_words_view};
ghost use Rattle.cp_endings.specs.Folders.{files_of};
ghost use Rattle.cp_endings.specs.View.{ending_view};

use crate::audit_sources::Sources;
use cp_audit::{AuditRefusal, Material, Verdict, audit};
use cp_commands::AuditWords;
use cp_endings::{AuditEnding, Ending, Guilt};
use cp_evidence::Evidence;
use cp_outside::Folder;
use lms_tree::PublicKey;
use std::alloc::Global;

// The verdict on the material and what was handed in, or how the command ends without one.
fn verdict<'a>(alloc: Global, sources: &Sources, epoch: u64) -> Result<Verdict, Ending<'a>>
    ensures { Answers (sources_view epoch sources.now) result }
{
    let Ok(key) = PublicKey::read(sources.key.as_slice()) else {
        return Err(Ending::BadKey);
    };
    let material = Material {
        key,
        epoch,
        families: sources.families.as_slice(),
        before: sources.before.as_slice(),
        closing: sources.closing.as_slice(),
        table_before: sources.table_before.as_slice(),
        table: sources.table.as_slice(),
        log: sources.log.as_slice(),
    };
    match audit(alloc, &material, sources.hand_ins.as_slice()) {
        Ok(verdict) => Ok(verdict),
        Err(AuditRefusal::NotGiven { what }) => Err(Ending::Audited(AuditEnding::NotGiven(what))),
        Err(AuditRefusal::Malformed { at }) => {
            Err(Ending::Audited(AuditEnding::Malformed { at }))
        }
        Err(AuditRefusal::OutOfMemory) => Err(Ending::NoMemory),
    }
}

// Writes the evidence, which spells what is named.
fn write_evidence<'a, F: Folder>(files: &mut F, out: &'a str, evidence: &[u8]) -> Ending<'a>
    ensures writes { (e : spec.Evidence) → evidence_of evidence.now ≡ Ok e → WritesEvidence e evidence.now out.entry.now
        (files_of F.Folder files.old)
        (files_of F.Folder files.new) (ending_view result) }
    ensures tells { F.tells files.new ≡ F.tells files.old }
    ensures unread { F.read_faults files.new ≡ F.read_faults files.old }
    ensures write_count { F.write_faults files.old ≤ F.write_faults files.new }
{
    let Ok(read) = Evidence::read(evidence) else {
        return Ending::NoMemory;
    };
    let guilt = Guilt::of(&read);
    match files.write(out, evidence) {
        Ok(()) => Ending::Audited(AuditEnding::Guilty(guilt)),
        Err(_) => Ending::Fault,
    }
}

// Judges an epoch's material and what was handed in, and writes evidence where the store is guilty.
#[tactic(auto, using(crate::proofs::AuditingLemmas::audit_ends))]
pub(crate) fn run_audit<'a, F: Folder>(
    alloc: Global,
    files: &mut F,
    words: AuditWords<'a>,
) -> Ending<'a>
    ensures ends { AuditEnds (audit_words_view words.entry)
        (files_of F.Folder files.old)
        (files_of F.Folder files.new) (ending_view result) }
    ensures tells { F.tells files.new ≡ F.tells files.old }
    ensures read_count { F.read_faults files.old ≤ F.read_faults files.new }
    ensures write_count { F.write_faults files.old ≤ F.write_faults files.new }
{
    let sources = match Sources::read(alloc, files, words) {
        Ok(sources) => sources,
        Err(ending) => return ending,
    };
    match verdict(alloc, &sources, words.epoch) {
        Ok(
            Verdict::Clean {
                entries,
                handed,
                aside,
            },
        ) => Ending::Audited(AuditEnding::Clean {
            entries,
            handed,
            aside,
        }),
        Ok(Verdict::Guilty { evidence }) => write_evidence(files, words.out, evidence.as_slice()),
        Err(ending) => ending,
    }
}
