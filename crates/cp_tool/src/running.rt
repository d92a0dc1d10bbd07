//! The commands of the program, over any folder, vault's disk and sink.
ghost use Rattle.std.specs.Prelude.{◌≡◌, ◌≢◌, ◌⊎◌, ◌≤◌, ℕ, List, Some, None, map, string_bytes, length, IsTrue};
ghost use Rattle.cp_outside.specs.Causes.{Rose};
ghost use Rattle.cp_tool.specs.AuditRuns.{files_in, sources_of};
ghost use Rattle.cp_tool.specs.AuditStatus.{StatusOfFiles};
ghost use Rattle.cp_commands.specs.AuditWords.{AuditWords};
ghost use Rattle.cp_commands.specs.Commands.{command_of};
ghost use Rattle.cp_commands.specs.Commands.Command.{Audit, Certify, Forgery, Judge, JudgeLife, Verify};
ghost use Rattle.cp_commands.specs.MoreWords.{CertifyWords, ForgeryWords};
ghost use Rattle.cp_more.specs.MoreStatus.{CertifyStatus, ForgeryStatus, JudgeLifeStatus};
ghost use Rattle.cp_more.specs.Seeds.{secret_in};
ghost use Rattle.cp_endings.specs.Endings.{Outcome};
ghost use Rattle.cp_tool.specs.PutRuns.{CommandEnds, IsAskPut};
ghost use Rattle.cp_endings.specs.Reports.{Reports};
ghost use Rattle.cp_tool.specs.Outputs.{IsOutput};
ghost use Rattle.cp_endings.specs.Folders.{files_of};
ghost use Rattle.cp_tool.specs.Statuses.{JudgeStatus, VerifyStatus};
ghost use Rattle.cp_endings.specs.View.{ending_view};

use crate::accepting::run_accept;
use crate::asking::{run_ask_get, run_ask_put};
use crate::auditing::run_audit;
use crate::judging::run_judge;
use crate::keygen::run_keygen;
use crate::replaying::run_replay;
use crate::verifying::run_verify;
use cp_commands::Command;
use cp_endings::{Ending, report};
use cp_more::{run_certify, run_forgery, run_judge_life};
use cp_outside::{Disk, Folder, Sink};
use std::alloc::Global;
use std::thread::Threads;

// Does what the words say, up to the printed line.
fn done<'a, R: Threads + Sync, F: Folder, K: Disk>(
    rt: &R,
    alloc: Global,
    words: &'a [String],
    files: &mut F,
    vault: &mut K,
) -> Ending<'a>
    ensures ends { CommandEnds K.Disk (command_of (map string_bytes words.entry.now))
        (files_of F.Folder files.old) (files_of F.Folder files.new) vault.old vault.new (ending_view result) }
    ensures tells { F.tells files.new ≡ F.tells files.old }
    ensures read_count { F.read_faults files.old ≤ F.read_faults files.new }
    ensures write_count { F.write_faults files.old ≤ F.write_faults files.new }
    ensures vault_count { K.faults vault.old ≤ K.faults vault.new }
{
    match Command::read(words) {
        None => Ending::Usage,
        Some(Command::Judge { key, evidence }) => run_judge(alloc, files, key, evidence),
        Some(
            Command::Verify {
                key,
                text,
                signature,
            },
        ) => run_verify(alloc, files, key, text, signature),
        Some(
            Command::Keygen {
                seed,
                height,
                ots,
                out,
            },
        ) => run_keygen(rt, alloc, files, seed, height, ots, out),
        Some(Command::AskPut(words)) => run_ask_put(rt, alloc, files, vault, words),
        Some(Command::AskGet(words)) => run_ask_get(alloc, files, words),
        Some(Command::Accept(words)) => run_accept(alloc, files, words),
        Some(Command::Audit(words)) => run_audit(alloc, files, words),
        Some(Command::Replay(words)) => run_replay(rt, alloc, files, words),
        Some(Command::Certify(words)) => run_certify(rt, alloc, files, words),
        Some(
            Command::JudgeLife {
                key,
                certificate,
                evidence,
            },
        ) => run_judge_life(alloc, files, key, certificate, evidence),
        Some(Command::Forgery(words)) => run_forgery(rt, alloc, files, words),
    }
}

/// Does what the words after the program's name say: reads the command's files in the folder, writes
/// what it makes there, prints its line to `out`, and answers its status: 0 done or yes, 1 no, 2 the
/// words are no command's, 3 a refused input, 4 a fault of the folder, the disk or the sink, 5 want of
/// memory. `vault` is the disk of the vault of the client's own key, which `ask-put` alone touches.
/// Every command returns.
#[tactic(auto, using(crate::proofs::StatusLemmas::statuses))]
pub fn run<R: Threads + Sync, F: Folder, K: Disk, S: Sink>(
    rt: &R,
    alloc: Global,
    words: &[String],
    files: &mut F,
    vault: &mut K,
    out: &mut S,
) -> u8
    // How the command ended, its printed line, and its status.
    ensures ends { (ending : Outcome) × CommandEnds K.Disk (command_of (map string_bytes words.now))
        (files_of F.Folder files.old) (files_of F.Folder files.new) vault.old vault.new ending
        × Reports (S.held out.old) (S.held out.new) (S.write_faults out.old) (S.write_faults out.new) ending result }

    // 2 comes exactly where the words are no command's, unless the line can't be written.
    ensures usage { result ≡ 2 → command_of (map string_bytes words.now) ≡ None }
    ensures no_command { command_of (map string_bytes words.now) ≡ None → (result ≡ 2) ⊎ ((result ≡ 4) × Rose (S.write_faults out.old) (S.write_faults out.new)) }

    // The folder tells its files afterwards as before, so that what one command left is what the next one
    // finds.
    ensures tells { F.tells files.new ≡ F.tells files.old }

    // No command but `ask-put` touches the vault's disk.
    ensures untouched { IsAskPut (command_of (map string_bytes words.now)) ⊎ (vault.new ≡ vault.old) }

    // `judge` over files that are told and within their limits: 0 comes exactly where the evidence
    // convicts, 1 exactly where the key reads and it doesn't, and 3 exactly where the key doesn't read.
    ensures judge { (key evidence key_bytes evidence_bytes : List ℕ)
        → command_of (map string_bytes words.now) ≡ Some (Judge key evidence) → IsTrue (F.tells files.old)
        → F.file files.old key ≡ Some key_bytes → length key_bytes ≤ 56
        → F.file files.old evidence ≡ Some evidence_bytes → length evidence_bytes ≤ 536870912
        → JudgeStatus key_bytes evidence_bytes result }

    // `verify` over files that are told and within their limits: 0 comes exactly where the signature
    // verifies, 1 exactly where the key reads and it doesn't, and 3 exactly where the key doesn't read.
    ensures verify { (key text signature key_bytes text_bytes signature_bytes : List ℕ)
        → command_of (map string_bytes words.now) ≡ Some (Verify key text signature) → IsTrue (F.tells files.old)
        → F.file files.old key ≡ Some key_bytes → length key_bytes ≤ 56
        → F.file files.old text ≡ Some text_bytes → length text_bytes ≤ 1048576
        → F.file files.old signature ≡ Some signature_bytes → length signature_bytes ≤ 16384
        → VerifyStatus key_bytes text_bytes signature_bytes result }

    // `audit` over files that are told: 0 comes exactly where the material is given, the hand-ins read and
    // the epoch is clean, as it is of an honest store, 1 exactly where they are given and read and it isn't,
    // and 3 exactly where a file isn't there or is over its limit, or they aren't given or don't read. With
    // 1 the evidence that was written convicts, and `judge` takes it, by its length.
    ensures audit { (wanted : AuditWords) → command_of (map string_bytes words.now) ≡ Some (Audit wanted)
        → IsTrue (F.tells files.old)
        → StatusOfFiles (sources_of wanted (files_in (F.file files.old) wanted)) (F.file files.new wanted.out) result }

    // `certify` over a seed file that is told: 0 comes exactly where it has 48 bytes, and 3 exactly where it
    // hasn't. With 0 the operator's key, the life's certificate and the life's seed were written in turn,
    // and no other file changed.
    ensures certify { (wanted : CertifyWords) (seed : List ℕ) → command_of (map string_bytes words.now) ≡ Some (Certify wanted)
        → IsTrue (F.tells files.old) → F.file files.old wanted.seed ≡ Some seed
        → CertifyStatus wanted seed (files_of F.Folder files.old) (files_of F.Folder files.new) result }

    // `judge-life` over files that are told and within their limits: 0 comes exactly where the certificate
    // is one under the operator's key and the evidence convicts the life that it is for, 1 exactly where it
    // is one and the evidence doesn't, and 3 exactly where it isn't one.
    ensures judge_life { (key certificate evidence key_bytes certificate_bytes evidence_bytes : List ℕ)
        → command_of (map string_bytes words.now) ≡ Some (JudgeLife key certificate evidence) → IsTrue (F.tells files.old)
        → F.file files.old key ≡ Some key_bytes → length key_bytes ≤ 60
        → F.file files.old certificate ≡ Some certificate_bytes → length certificate_bytes ≤ 16384
        → F.file files.old evidence ≡ Some evidence_bytes → length evidence_bytes ≤ 536870912
        → JudgeLifeStatus key_bytes certificate_bytes evidence_bytes result }

    // `forgery` over files that are told and within their limits: 0 comes exactly where the list is one of
    // what the key signed and the signature of the text verifies and isn't of a pair of the list, 1 exactly
    // where it is a list and the signature isn't such a one, and 3 exactly where it is none.
    ensures forgery { (wanted : ForgeryWords) (seed signed text signature : List ℕ)
        → command_of (map string_bytes words.now) ≡ Some (Forgery wanted) → IsTrue (F.tells files.old)
        → F.file files.old wanted.seed ≡ Some seed → length seed ≡ 48
        → F.file files.old wanted.signed ≡ Some signed → length signed ≤ 67108864
        → F.file files.old wanted.text ≡ Some text → length text ≤ 1048576
        → F.file files.old wanted.signature ≡ Some signature → length signature ≤ 16384
        → ForgeryStatus (secret_in wanted.height wanted.ots seed) signed text signature result }

    // 4 comes only where a count rose.
    ensures fault { result ≡ 4 → Rose (F.read_faults files.old) (F.read_faults files.new)
        ⊎ Rose (F.write_faults files.old) (F.write_faults files.new)
        ⊎ Rose (K.faults vault.old) (K.faults vault.new)
        ⊎ Rose (S.write_faults out.old) (S.write_faults out.new) }

    // No count falls: of the folder's failed reads and failed writes, of the disk's and of the sink's.
    ensures read_count { F.read_faults files.old ≤ F.read_faults files.new }
    ensures write_count { F.write_faults files.old ≤ F.write_faults files.new }
    ensures vault_count { K.faults vault.old ≤ K.faults vault.new }
    ensures sink_count { S.write_faults out.old ≤ S.write_faults out.new }

    // Where a read failed the status is 4, no leaf was taken and no file was written: the disk and all
    // files are as before.
    ensures failed_read { F.read_faults files.new ≢ F.read_faults files.old
        → (result ≡ 4) × (vault.new ≡ vault.old) × ((name : List ℕ) → F.file files.new name ≡ F.file files.old name) }

    // Only a command's outputs change: the files that its words name for what it writes, or a replay's.
    ensures only_outputs { (name : List ℕ) → ¬ IsOutput (command_of (map string_bytes words.now)) name
        → F.file files.new name ≡ F.file files.old name }
{
    let ending = done(rt, alloc, words, files, vault);
    report(out, &ending)
}
