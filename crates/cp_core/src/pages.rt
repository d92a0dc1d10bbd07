//! The pages of a shard that are free.
ghost use Rattle.std.specs.Prelude.{◌≡◌, ◌+◌, ◌<◌, ◌≤◌, drop, length};
ghost use Rattle.std.specs.List.{list_any};
ghost use Rattle.cp_core.specs.Calls.{pages_free, pages_taken, puts_block};
ghost use Rattle.cp_core.specs.Life.{rows_in};
ghost use Rattle.cp_core.specs.Requests.{pages_of};
ghost use Rattle.cp_core.specs.Running.{item_puts_block};

use crate::{Item, Request};
use cp_statements::{Entry, Kind};

/// The bytes of a page.
const PAGE: usize = 1024;

/// The pages that the content of a call needs.
pub(crate) fn pages_of(request: &Request) -> u32
    requires { pages_of request.now ≤ 64 }
    ensures { result ≡ pages_of request.now }
{
    match request {
        Request::Put { content, .. } => content.as_slice().len().div_ceil(PAGE) as u32,
        Request::Get(_) => 0,
    }
}

/// Whether the item is a put of the block.
fn puts_block(item: &Item, block: u64) -> bool
    ensures { result ≡ item_puts_block block item.now }
{
    let Item::Row { entry, .. } = item else {
        return false;
    };
    match Entry::read(entry.as_slice()) {
        Ok(entry) => entry.kind == Kind::Put && entry.block == block,
        Err(_) => false,
    }
}

/// Whether any of the items is a put of the block.
fn any_puts_block(items: &[Item], block: u64) -> bool
    ensures { result ≡ list_any (puts_block block) (rows_in items.now) }
{
    for item in items {
        if puts_block(item, block) {
            return true;
        }
    }
    false
}

/// The pages of an item that is the last put of its block; 0 for all others.
fn pages_at(items: &[Item], i: usize) -> u32
    requires { i < length items.now }
    ensures { pages_taken (rows_in (drop i items.now)) ≡ result + pages_taken (rows_in (drop (i + 1) items.now)) }
{
    let Item::Row { pages, entry, .. } = &items[i] else {
        return 0;
    };
    match Entry::read(entry.as_slice()) {
        Ok(entry) if entry.kind == Kind::Put && !any_puts_block(&items[i + 1..], entry.block) =>
            *pages,
        _ => 0,
    }
}

/// How many of so many pages no block's last put holds.
pub(crate) fn pages_free(pages: u32, items: &[Item]) -> u32
    ensures { result ≡ pages_free pages items.now }
{
    let mut free = pages;
    for i in 0..items.len() {
        free = free.saturating_sub(pages_at(items, i));
    }
    free
}
