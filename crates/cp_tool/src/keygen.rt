//! The command `keygen`.
ghost use Rattle.std.specs.Prelude.{◌≡◌, ◌≤◌, length};
ghost use Rattle.lms_tree.specs.Secret.{public_of};
ghost use Rattle.cp_tool.specs.Inputs.{MakesKey};
ghost use Rattle.cp_tool.specs.Runs.{KeygenEnds, files_of};
ghost use Rattle.cp_more.specs.Seeds.{secret_in};
ghost use Rattle.cp_endings.specs.View.{ending_view};

use cp_endings::{Ending, input};
use cp_more::{SEED_LENGTH, part, workers};
use cp_outside::Folder;
use lms_ots::OtsType;
use lms_tree::{Height, PrivateKey};
use std::alloc::Global;
use std::thread::Threads;

// The public key of the seed file's bytes.
fn public_key<'a, R: Threads + Sync>(
    rt: &R,
    alloc: Global,
    seed: &[u8],
    height: Height,
    ots: OtsType,
) -> Result<[u8; 56], Ending<'a>>
    requires { length seed.now ≤ 48 }
    ensures { MakesKey height ots seed.now result }
{
    if seed.len() < SEED_LENGTH as usize {
        return Err(Ending::ShortSeed);
    }
    match PrivateKey::make_by(
        rt,
        alloc,
        workers(rt),
        part::<32>(seed, 0),
        part::<16>(seed, 32),
        height,
        ots,
    ) {
        Ok(key) => Ok(key.public().bytes()),
        Err(_) => Err(Ending::NoMemory),
    }
}

// Writes the public key of the seed file.
pub(crate) fn run_keygen<'a, R: Threads + Sync, F: Folder>(
    rt: &R,
    alloc: Global,
    files: &mut F,
    seed: &'a str,
    height: Height,
    ots: OtsType,
    out: &'a str,
) -> Ending<'a>
    ensures ends { KeygenEnds seed.entry.now height ots out.entry.now
        (files_of F.Folder files.old)
        (files_of F.Folder files.new) (ending_view result) }
    ensures tells { F.tells files.new ≡ F.tells files.old }
    ensures read_count { F.read_faults files.old ≤ F.read_faults files.new }
    ensures write_count { F.write_faults files.old ≤ F.write_faults files.new }
{
    let seed = match input(alloc, files, seed, SEED_LENGTH) {
        Ok(seed) => seed,
        Err(ending) => return ending,
    };
    let key = match public_key(rt, alloc, seed.as_slice(), height, ots) {
        Ok(key) => key,
        Err(ending) => return ending,
    };
    match files.write(out, &key) {
        Ok(()) => Ending::Key(key),
        Err(_) => Ending::Fault,
    }
}
