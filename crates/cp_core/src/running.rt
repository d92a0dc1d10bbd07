//! How a block stands among its shard's items.
ghost use Rattle.std.specs.Prelude.{◌≡◌, ◌+◌, ◌<◌, ◌^◌, ◌∷◌, []};
ghost use Rattle.cp_statements.specs.View.{entry_view};
ghost use Rattle.cp_tips.specs.View.{tip_view};
ghost use Rattle.cp_core.specs.Calls.{epoch_now};
ghost use Rattle.cp_core.specs.Life.{cut, freezes};
ghost use Rattle.cp_core.specs.Running.{Stands, tip_of, tip_with, tip_with_item};

use crate::Item;
use cp_bytes::head;
use cp_statements::{Entry, Kind};
use cp_tips::Tip;

/// The tip with one more entry of the block, and its text.
#[tactic(auto, unfolding(crate::specs::Running::tip_with))]
fn tip_with(tip: &Tip, entry: &Entry<'_>, text: &[u8]) -> Tip
    requires { tip.now.count + 1 < 2 ^ 64 }
    ensures { tip_view result ≡ tip_with (tip_view tip.now) (entry_view entry.now) text.now }
{
    let (version, content) = match entry.kind {
        Kind::Put => (entry.version, entry.content),
        Kind::Get => (tip.version, tip.content),
    };
    Tip {
        count: tip.count + 1,
        version,
        content,
        head: head(&tip.head, text),
    }
}

/// The tip with one more item of the shard, where that is a row of the block of an epoch up to
/// `through`.
#[tactic(auto, unfolding(crate::specs::Running::tip_with_item))]
fn tip_with_item(block: u64, through: u64, tip: Tip, item: &Item) -> Tip
    requires { tip.count + 1 < 2 ^ 64 }
    ensures { tip_view result ≡ tip_with_item block through (tip_view tip) item.now }
{
    let Item::Row { entry: text, .. } = item else {
        return tip;
    };
    let text = text.as_slice();
    match Entry::read(text) {
        Ok(entry) if entry.block == block && entry.epoch <= through => tip_with(&tip, &entry, text),
        _ => tip,
    }
}

/// The block's tip at the end of the epoch `through`.
pub(crate) fn tip_at(items: &[Item], block: u64, through: u64) -> Tip
    ensures { tip_view result ≡ cut items.now block through }
{
    let mut tip = Tip::fresh(block);
    for item in items {
        tip = tip_with_item(block, through, tip, item);
    }
    tip
}

/// The block's tip now.
pub(crate) fn tip_of(items: &[Item], block: u64) -> Tip
    requires { Stands items.now }
    ensures { tip_view result ≡ tip_of items.now block }
{
    tip_at(items, block, epoch_now(items))
}

/// 1 at a freeze, 0 at a row.
fn freezes_in(item: &Item) -> u64
    ensures { result ≡ freezes (item.now ∷ []) }
{
    match item {
        Item::Row { .. } => 0,
        Item::Frozen { .. } => 1,
    }
}

/// The epoch that the shard is in.
pub(crate) fn epoch_now(items: &[Item]) -> u64
    ensures { result ≡ epoch_now items.now }
{
    let mut epoch = 1;
    for item in items {
        epoch += freezes_in(item);
    }
    epoch
}
