//! The command `replay`.
ghost use Rattle.std.specs.Prelude.{◌≡◌, ◌≤◌, ℕ, List, length};
ghost use Rattle.cp_endings.specs.Folders.{files_of};
ghost use Rattle.cp_tool.specs.ReplayFiles.{IsReplayFile};
ghost use Rattle.cp_tool.specs.ReplayInputs.{GivesReplay, MakesReplay, WritesReplay};
ghost use Rattle.cp_tool.specs.ReplayRuns.{ReplayEnds};
ghost use Rattle.cp_commands.specs.View.{replay_words_view};
ghost use Rattle.cp_endings.specs.View.{ending_view};

use crate::file_write::{FileWrite, write_files};
use cp_commands::{By, ReplayWords};
use cp_endings::{Ending, input};
use cp_more::{SEED_LENGTH, part, workers};
use cp_outside::Folder;
use cp_replay::{By as ServedBy, Replayed, Script, ScriptRefusal, replay};
use std::alloc::Global;
use std::thread::Threads;

/// The most bytes of a script: 1 MiB.
const SCRIPT_LIMIT: u64 = 1_048_576;

// The replay of the script with the seed file's bytes, or how the command ends without one.
fn replayed<'a, R: Threads + Sync>(
    rt: &R,
    alloc: Global,
    words: &ReplayWords<'_>,
    seed: &[u8],
    script: &[u8],
) -> Result<Replayed, Ending<'a>>
    requires { length seed.now ≤ 48 }
    ensures { GivesReplay (replay_words_view words.now) seed.now script.now result }
{
    if seed.len() < SEED_LENGTH as usize {
        return Err(Ending::ShortSeed);
    }
    let script = match Script::read(alloc, script) {
        Ok(script) => script,
        Err(ScriptRefusal::Malformed { at }) => return Err(Ending::Malformed { at }),
        Err(ScriptRefusal::OutOfMemory) => return Err(Ending::NoMemory),
    };
    let seed = part::<48>(seed, 0);
    let by = match words.by {
        By::Core => ServedBy::Core,
        By::Shards => ServedBy::Shards,
    };
    match replay(
        rt,
        alloc,
        workers(rt),
        words.height,
        words.ots,
        &seed,
        words.pages,
        by,
        &script,
    ) {
        Ok(done) => Ok(done),
        Err(_) => Err(Ending::NoMemory),
    }
}

// The replay of the script's file with the seed's file, or how the command ends without one.
fn made<'a, R: Threads + Sync, F: Folder>(
    rt: &R,
    alloc: Global,
    files: &mut F,
    words: &ReplayWords<'a>,
) -> Result<Replayed, Ending<'a>>
    ensures made { MakesReplay (replay_words_view words.now)
        (files_of F.Folder files.old)
        (files_of F.Folder files.new) result }
    ensures tells { F.tells files.new ≡ F.tells files.old }
    ensures read_count { F.read_faults files.old ≤ F.read_faults files.new }
    ensures unwritten { F.write_faults files.new ≡ F.write_faults files.old }
    ensures kept { (other : List ℕ) → F.file files.new other ≡ F.file files.old other }
{
    let seed = match input(alloc, files, words.seed, SEED_LENGTH) {
        Ok(seed) => seed,
        Err(ending) => return Err(ending),
    };
    let script = match input(alloc, files, words.script, SCRIPT_LIMIT) {
        Ok(script) => script,
        Err(ending) => return Err(ending),
    };
    replayed(rt, alloc, words, seed.as_slice(), script.as_slice())
}

// Writes the files that a replay leaves.
fn write_replay<'a, F: Folder>(
    alloc: Global,
    files: &mut F,
    done: &Replayed,
) -> Result<(), Ending<'a>>
    ensures writes { WritesReplay done.now
        (files_of F.Folder files.old)
        (files_of F.Folder files.new) result }
    ensures tells { F.tells files.new ≡ F.tells files.old }
    ensures unread { F.read_faults files.new ≡ F.read_faults files.old }
    ensures write_count { F.write_faults files.old ≤ F.write_faults files.new }
    ensures others { (name : List ℕ) → ¬ IsReplayFile name → F.file files.new name ≡ F.file files.old name }
{
    let Ok(writes) = FileWrite::all(alloc, done) else {
        return Err(Ending::NoMemory);
    };
    match write_files(files, writes.as_slice()) {
        Ok(()) => Ok(()),
        Err(_) => Err(Ending::Fault),
    }
}

// Runs a script through a new store, and writes the files that it leaves.
pub(crate) fn run_replay<'a, R: Threads + Sync, F: Folder>(
    rt: &R,
    alloc: Global,
    files: &mut F,
    words: ReplayWords<'a>,
) -> Ending<'a>
    ensures ends { ReplayEnds (replay_words_view words.entry)
        (files_of F.Folder files.old)
        (files_of F.Folder files.new) (ending_view result) }
    ensures tells { F.tells files.new ≡ F.tells files.old }
    ensures read_count { F.read_faults files.old ≤ F.read_faults files.new }
    ensures write_count { F.write_faults files.old ≤ F.write_faults files.new }
{
    let done = match made(rt, alloc, files, &words) {
        Ok(done) => done,
        Err(ending) => return ending,
    };
    match write_replay(alloc, files, &done) {
        Ok(()) => Ending::Replayed(done.text),
        Err(ending) => ending,
    }
}
