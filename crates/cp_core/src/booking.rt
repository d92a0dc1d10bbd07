//! What a new call appends and is answered.
ghost use Rattle.std.specs.Prelude.{◌≡◌, ◌≤◌, IfOk};
ghost use Rattle.cp_statements.specs.Entry.{entry_text};
ghost use Rattle.cp_statements.specs.View.{entry_view};
ghost use Rattle.cp_core.specs.Calls.{booked, new_row};
ghost use Rattle.cp_core.specs.Life.{row_item};
ghost use Rattle.cp_core.specs.Requests.{pages_of};
ghost use Rattle.cp_core.specs.Running.{Stands};

use crate::entries::{attested, content_for, new_entry};
use crate::pages::pages_of;
use crate::running::tip_of;
use crate::{Booked, Content, Item, OutOfMemory, Request};
use cp_bytes::Bytes;
use cp_statements::Entry;
use std::alloc::Global;

/// A new call's answer and its row.
#[derive(Drop)]
pub(crate) struct NewCall {
    /// What it is answered.
    pub(crate) booked: Booked,
    /// What the shard appends.
    pub(crate) row: Item,
}

/// The entry's text.
fn text_of(alloc: Global, entry: &Entry<'_>) -> Result<Bytes, OutOfMemory>
    ensures { IfOk result (λ text. text ≡ entry_text (entry_view entry.now)) }
{
    let mut text = Vec::new(alloc);
    entry.write_into(&mut text)?;
    Ok(Bytes::from_vec(text))
}

/// What a call that no rule refused appends and is answered, with this leaf.
pub(crate) fn new_call(
    alloc: Global,
    store: &[u8; 32],
    items: &[Item],
    contents: &[Content],
    pass: u32,
    request: &Request,
    leaf: u32,
) -> Result<NewCall, OutOfMemory>
    requires stands { Stands items.now }
    requires pages { pages_of request.now ≤ 64 }
    ensures booked { IfOk result (λ new. new.booked ≡ booked store.now items.now contents.now request.now leaf) }
    ensures row { IfOk result (λ new. new.row ≡ row_item (new_row items.now pass request.now leaf)) }
{
    let entry = new_entry(items, request);
    let text = text_of(alloc, &entry)?;
    let prev = tip_of(items, request.block()).head;
    let signed = attested(store, &prev, &entry, text.as_slice()).text();
    let content = content_for(alloc, contents, &entry)?;
    let pages = pages_of(request);
    Ok(NewCall {
        booked: Booked::new(leaf, signed, content),
        row: Item::Row {
            pass,
            leaf,
            pages,
            entry: text,
        },
    })
}
