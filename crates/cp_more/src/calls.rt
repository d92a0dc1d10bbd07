//! The commands by themselves, each with its words, its printed line and its status.
ghost use Rattle.std.specs.Prelude.{◌≡◌, ◌≤◌, map, string_bytes};
ghost use Rattle.cp_commands.specs.Commands.{command_of};
ghost use Rattle.cp_endings.specs.Endings.{Outcome};
ghost use Rattle.cp_endings.specs.Folders.{files_of};
ghost use Rattle.cp_endings.specs.Reports.{ReportsTo};
ghost use Rattle.cp_endings.specs.View.{ending_view};
ghost use Rattle.cp_more.specs.Calls.{CertifyCall, ForgeryCall, JudgeLifeCall};

use crate::certifying::run_certify;
use crate::forging::run_forgery;
use crate::life_judging::run_judge_life;
use cp_commands::Command;
use cp_endings::{Ending, report};
use cp_outside::{Folder, Sink};
use std::alloc::Global;
use std::thread::Threads;

// What `certify` does, up to the printed line.
fn certified<'a, R: Threads + Sync, F: Folder>(
    rt: &R,
    alloc: Global,
    words: &'a [String],
    files: &mut F,
) -> Ending<'a>
    ensures ends { CertifyCall (command_of (map string_bytes words.entry.now))
        (files_of F.Folder files.old) (files_of F.Folder files.new) (ending_view result) }
    ensures tells { F.tells files.new ≡ F.tells files.old }
{
    match Command::read(words) {
        Some(Command::Certify(words)) => run_certify(rt, alloc, files, words),
        _ => Ending::Usage,
    }
}

// What `judge-life` does, up to the printed line.
fn life_judged<'a, F: Folder>(alloc: Global, words: &'a [String], files: &mut F) -> Ending<'a>
    ensures ends { JudgeLifeCall (command_of (map string_bytes words.entry.now))
        (files_of F.Folder files.old) (files_of F.Folder files.new) (ending_view result) }
    ensures tells { F.tells files.new ≡ F.tells files.old }
{
    match Command::read(words) {
        Some(
            Command::JudgeLife {
                key,
                certificate,
                evidence,
            },
        ) => run_judge_life(alloc, files, key, certificate, evidence),
        _ => Ending::Usage,
    }
}

// What `forgery` does, up to the printed line.
fn forged<'a, R: Threads + Sync, F: Folder>(
    rt: &R,
    alloc: Global,
    words: &'a [String],
    files: &mut F,
) -> Ending<'a>
    ensures ends { ForgeryCall (command_of (map string_bytes words.entry.now))
        (files_of F.Folder files.old) (files_of F.Folder files.new) (ending_view result) }
    ensures tells { F.tells files.new ≡ F.tells files.old }
{
    match Command::read(words) {
        Some(Command::Forgery(words)) => run_forgery(rt, alloc, files, words),
        _ => Ending::Usage,
    }
}

/// The command `certify`: does what the words say, of which `certify` is the first, prints its line
/// to `out`, and answers its status: 0 written, 2 other words, 3 a refused input, 4 a fault of the
/// folder or the sink, 5 want of memory.
pub fn certify<R: Threads + Sync, F: Folder, S: Sink>(
    rt: &R,
    alloc: Global,
    words: &[String],
    files: &mut F,
    out: &mut S,
) -> u8
    ensures ends { (ending : Outcome) × CertifyCall (command_of (map string_bytes words.now))
        (files_of F.Folder files.old) (files_of F.Folder files.new) ending
        × ReportsTo S.Endpoint out.old out.new ending result }
    ensures tells { F.tells files.new ≡ F.tells files.old }
    ensures sink_count { S.write_faults out.old ≤ S.write_faults out.new }
{
    let ending = certified(rt, alloc, words, files);
    report(out, &ending)
}

/// The command `judge-life`: does what the words say, of which `judge-life` is the first, prints
/// its line to `out`, and answers its status: 0 guilty, 1 not, 2 other words, 3 a refused input, a
/// bad key or a bad certificate, 4 a fault of the folder or the sink, 5 want of memory.
pub fn judge_life<R: Threads + Sync, F: Folder, S: Sink>(
    _rt: &R,
    alloc: Global,
    words: &[String],
    files: &mut F,
    out: &mut S,
) -> u8
    ensures ends { (ending : Outcome) × JudgeLifeCall (command_of (map string_bytes words.now))
        (files_of F.Folder files.old) (files_of F.Folder files.new) ending
        × ReportsTo S.Endpoint out.old out.new ending result }
    ensures tells { F.tells files.new ≡ F.tells files.old }
    ensures sink_count { S.write_faults out.old ≤ S.write_faults out.new }
{
    let ending = life_judged(alloc, words, files);
    report(out, &ending)
}

/// The command `forgery`: does what the words say, of which `forgery` is the first, prints its line
/// to `out`, and answers its status: 0 a witness, 1 none, 2 other words, 3 a refused input or list,
/// 4 a fault of the folder or the sink, 5 want of memory.
pub fn forgery<R: Threads + Sync, F: Folder, S: Sink>(
    rt: &R,
    alloc: Global,
    words: &[String],
    files: &mut F,
    out: &mut S,
) -> u8
    ensures ends { (ending : Outcome) × ForgeryCall (command_of (map string_bytes words.now))
        (files_of F.Folder files.old) (files_of F.Folder files.new) ending
        × ReportsTo S.Endpoint out.old out.new ending result }
    ensures tells { F.tells files.new ≡ F.tells files.old }
    ensures sink_count { S.write_faults out.old ≤ S.write_faults out.new }
{
    let ending = forged(rt, alloc, words, files);
    report(out, &ending)
}
