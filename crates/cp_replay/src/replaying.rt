//! A whole replay.
ghost use Rattle.std.specs.Prelude.{◌≡◌, ◌+◌, ◌<◌, ◌≤◌, ℕ, length, take, drop, IfOk};
ghost use Rattle.std.specs.List.{AllByRecursion};
ghost use Rattle.lms_tree.specs.Secret.{leaves_of};
ghost use Rattle.cp_replay.specs.Follows.{CanSign, Follows, FollowsAll, HasLeaves};
ghost use Rattle.cp_replay.specs.Keys.{closings_in, store_secret, writer_secret};
ghost use Rattle.cp_replay.specs.Replay.{at_first, making, replayed, store_by};
ghost use Rattle.cp_replay.specs.Script.{LineFits, ScriptFits, most_lines};
ghost use Rattle.cp_replay.specs.View.{replayed_view};

use crate::replayed::Replayed;
use crate::running::ReplayRun;
use crate::writer_list::WriterList;
use crate::{Line, OutOfMemory, Script};
use cp_bytes::{Bytes, digest, digest2};
use cp_store::{By, Store};
use lms_ots::OtsType;
use lms_tree::{Height, PrivateKey};
use std::alloc::Global;
use std::thread::Threads;

// The bytes from `at` on.
fn part<const N: usize>(bytes: &[u8], at: usize) -> [u8; N]
    requires { at + N ≤ length bytes.now }
    ensures { result ≡ take N (drop at bytes.now) }
{
    let mut out = [0u8; N];
    out.copy_from_slice(&bytes[at..at + N]);
    out
}

// The store's key.
fn store_key<R: Threads + Sync>(
    rt: &R,
    alloc: Global,
    workers: usize,
    height: Height,
    ots: OtsType,
    seed: &[u8; 48],
) -> Result<PrivateKey, OutOfMemory>
    requires { 0 < workers }
    ensures { IfOk result (λ key. key ≡ store_secret height ots seed.now) }
{
    PrivateKey::make_by(
        rt,
        alloc,
        workers,
        part::<32>(seed, 0),
        part::<16>(seed, 32),
        height,
        ots,
    )
}

// The writer's key.
fn writer_key<R: Threads + Sync>(
    rt: &R,
    alloc: Global,
    workers: usize,
    seed: &[u8; 48],
) -> Result<PrivateKey, OutOfMemory>
    requires { 0 < workers }
    ensures { IfOk result (λ key. key ≡ writer_secret seed.now) }
{
    let secret = digest2(b"CPrw", seed);
    let id = digest2(b"CPri", seed);
    PrivateKey::make_by(
        rt,
        alloc,
        workers,
        secret,
        part::<16>(&id, 0),
        Height::H10,
        OtsType::W4,
    )
}

// How many of the leaves are for closings.
fn closings_in(leaves: u32) -> u32
    ensures { result ≡ closings_in leaves }
{
    if leaves / 16 < 4 { 4 } else { leaves / 16 }
}

// A replay before its first line.
#[tactic(auto, using(crate::proofs::Opening::opening_facts), unfolding(crate::specs::Replay::store_by))]
fn opened(
    alloc: Global,
    key: &PrivateKey,
    writer: &PrivateKey,
    pages: u32,
    by: By,
    script: &Script,
) -> Result<ReplayRun, OutOfMemory>
    requires { ScriptFits script.now }
    ensures store { IfOk result (λ run. run.store.store
        ≡ store_by key.now writer.now pages script.now) }
    ensures follows { IfOk result (λ run. Follows run.store.store run (at_first run.store.store)) }
    ensures leaves { IfOk result (λ run. HasLeaves run.store.store key.now) }
{
    let id = digest(&key.public().bytes());
    let list = WriterList::of_script(alloc, script, writer.public().bytes())?;
    let families = list.copy(alloc)?;
    let leaves = key.leaves();
    let closings = closings_in(leaves);
    let store = Store::open(
        alloc,
        by,
        id,
        families,
        u64::from(leaves - closings),
        u64::from(closings),
        pages,
    )?;
    Ok(ReplayRun {
        store,
        id,
        list,
        named: 1,
        text: Vec::new(alloc),
        handins: Vec::new(alloc),
        epochs: Vec::new(alloc),
    })
}

// All lines, one after another.
fn run_all(
    alloc: Global,
    run: ReplayRun,
    key: &PrivateKey,
    writer: &PrivateKey,
    lines: &[Line],
) -> Result<ReplayRun, OutOfMemory>
    requires follows { Follows run.store.store run (at_first run.store.store) }
    requires leaves { HasLeaves run.store.store key.now }
    requires signs { (number : ℕ) → number < length lines.now → CanSign writer.now number }
    requires fits { AllByRecursion LineFits lines.now }
    requires few { length lines.now ≤ most_lines }
    ensures { IfOk result (FollowsAll key.now writer.now lines.now run) }
{
    let mut now = run;
    let mut number = 0u32;
    for line in lines {
        now = now.line(alloc, key, writer, number, line)?;
        number += 1;
    }
    Ok(now)
}

/// Runs the script through a new store: its lines, in one thread, one after another, by the store's
/// step. Before them the leaves of the two keys are computed, in at most `workers` threads.
///
/// The store's key has this height and one-time type, SEED and I in `seed`, its shards have `pages`
/// pages of 1,024 bytes each. Puts and gets name epoch 1 at first, the epoch of the last `at` line
/// after it, and the new current epoch after each closing that succeeded; a `close` is always of the
/// current epoch. Puts are signed by one writer's key (height 10, width 4, SEED is SHA-256 of "CPrw"
/// and the seed file, I the first 16 bytes of SHA-256 of "CPri" and it), the i-th line, from 0, with
/// leaf i. The first families list has it for each client of a put in the family of its block; a
/// `close without` takes all rows of its client out of the next epoch's. It answers want of memory
/// alone.
pub fn replay<R: Threads + Sync>(
    rt: &R,
    alloc: Global,
    workers: usize,
    height: Height,
    ots: OtsType,
    seed: &[u8; 48],
    pages: u32,
    by: By,
    script: &Script,
) -> Result<Replayed, OutOfMemory>
    requires { 0 < workers }
    ensures { IfOk result (λ done. replayed_view done
        ≡ replayed (making height ots seed.now pages) script.now) }
{
    let key = store_key(rt, alloc, workers, height, ots, seed)?;
    let writer = writer_key(rt, alloc, workers, seed)?;
    let lines = script.lines();
    let run = opened(alloc, &key, &writer, pages, by, script)?;
    let run = run_all(alloc, run, &key, &writer, lines)?;
    let public = key.public().bytes();
    Ok(Replayed {
        key: public,
        text: Bytes::from_vec(run.text),
        handins: Bytes::from_vec(run.handins),
        epochs: run.epochs,
    })
}
