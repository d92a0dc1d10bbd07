//! The command `judge`.
ghost use Rattle.std.specs.Prelude.{◌≡◌, ◌≤◌};
ghost use Rattle.cp_tool.specs.Runs.{JudgeEnds, files_of};
ghost use Rattle.cp_endings.specs.View.{ending_view};

use cp_endings::{Ending, input};
use cp_judge::{Judgement, judge};
use cp_outside::Folder;
use std::alloc::Global;

/// The most bytes of a key file.
pub(crate) const KEY_LIMIT: u64 = 56;

/// The most bytes of an evidence file: 512 MiB.
const EVIDENCE_LIMIT: u64 = 536_870_912;

// Whether the evidence convicts the store of the key.
pub(crate) fn run_judge<'a, F: Folder>(
    alloc: Global,
    files: &mut F,
    key: &'a str,
    evidence: &'a str,
) -> Ending<'a>
    ensures ends { JudgeEnds key.entry.now evidence.entry.now
        (files_of F.Folder files.old)
        (files_of F.Folder files.new) (ending_view result) }
    ensures tells { F.tells files.new ≡ F.tells files.old }
    ensures read_count { F.read_faults files.old ≤ F.read_faults files.new }
    ensures unwritten { F.write_faults files.new ≡ F.write_faults files.old }
{
    let key = match input(alloc, files, key, KEY_LIMIT) {
        Ok(key) => key,
        Err(ending) => return ending,
    };
    let evidence = match input(alloc, files, evidence, EVIDENCE_LIMIT) {
        Ok(evidence) => evidence,
        Err(ending) => return ending,
    };
    Ending::Judged(judge(key.as_slice(), evidence.as_slice()))
}
