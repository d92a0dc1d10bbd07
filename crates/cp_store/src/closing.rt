//! The closing of an epoch by shards and a closer.
ghost use Rattle.std.specs.Prelude.{◌≡◌, ◌≤◌, IfOk, OnOk};
ghost use Rattle.cp_closer.specs.Closer.{IsNextPart};
ghost use Rattle.cp_core.specs.Calls.{epoch_now};
ghost use Rattle.cp_store.specs.Freezes.{AreFrozenTo, Finishes, FreezesAll, IsTaken, frozen_shard, part_with};

use crate::{OutOfMemory, SealedText};
use cp_closer::Closer;
use cp_shard::Shard;
use std::alloc::Global;

// The shard ends the epoch, and the closer's list is the next one's; the shard hands its part over.
fn freeze_one(
    alloc: Global,
    shard: &mut Shard,
    closer: &mut Closer,
    epoch: u64,
) -> Result<(), OutOfMemory>
    requires now { epoch_now shard.old.items ≡ epoch }
    requires room { epoch_now shard.old.items ≤ shard.old.closings }
    requires next { IsNextPart closer.old (part_with shard.old epoch closer.old.next) }
    ensures shard { OnOk result (shard.new ≡ frozen_shard shard.old epoch closer.old.next) }
    ensures closer { OnOk result (IsTaken closer.old closer.new shard.old epoch) }
{
    let next = closer.next().share()?;
    shard.freeze(next);
    let part = shard.frozen(alloc, epoch)?;
    closer.take(part);
    Ok(())
}

// All shards end the epoch, one after another.
fn freeze_all(
    alloc: Global,
    shards: &mut Vec<Shard>,
    closer: &mut Closer,
    epoch: u64,
) -> Result<(), OutOfMemory>
    requires { AreFrozenTo shards.old.items closer.old epoch 0 }
    ensures { OnOk result
        (FreezesAll shards.old.items closer.old shards.new.items closer.new epoch) }
{
    for shard in 0..16 {
        freeze_one(alloc, &mut shards[shard], closer, epoch)?;
    }
    Ok(())
}

// What was sealed, once more.
fn copy_of(alloc: Global, sealed: &SealedText) -> Result<SealedText, OutOfMemory>
    ensures { IfOk result (λ text. text ≡ sealed.now) }
{
    let table = sealed.table.copy(alloc)?;
    let log = sealed.log.copy(alloc)?;
    Ok(SealedText {
        leaf: sealed.leaf,
        text: sealed.text,
        table,
        log,
    })
}

// The rest of a closing that has begun: all shards end the epoch, it is sealed, and published.
pub(crate) fn finish(
    alloc: Global,
    shards: &mut Vec<Shard>,
    closer: &mut Closer,
    epoch: u64,
) -> Result<SealedText, OutOfMemory>
    requires { AreFrozenTo shards.old.items closer.old epoch 0 }
    ensures { IfOk result (Finishes shards.old.items closer.old shards.new.items closer.new epoch) }
{
    freeze_all(alloc, shards, closer, epoch)?;
    closer.seal(alloc)?;
    let sealed = copy_of(alloc, closer.sealed())?;
    closer.published();
    Ok(sealed)
}
