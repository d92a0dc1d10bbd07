//! Looking for the row that a call made before.
ghost use Rattle.std.specs.Prelude.{◌≡◌};
ghost use Rattle.cp_core.specs.Calls.{epoch_now};
ghost use Rattle.cp_core.specs.Running.{IsFoundAt, item_is_call};

use crate::{Item, Request};
use cp_statements::Entry;

/// Whether the item is an entry of the request's block, client and nonce, in this epoch.
fn is_call(item: &Item, request: &Request, epoch: u64) -> bool
    ensures { result ≡ item_is_call request.now epoch item.now }
{
    let Item::Row { entry, .. } = item else {
        return false;
    };
    match Entry::read(entry.as_slice()) {
        Ok(entry) => entry.block == request.block()
            && entry.epoch == epoch
            && entry.client == request.client()
            && entry.nonce == request.nonce(),
        Err(_) => false,
    }
}

/// The place of the row of this epoch that has the call's client and nonce.
pub(crate) fn found(items: &[Item], request: &Request, epoch: u64) -> Option<usize>
    requires { epoch ≡ epoch_now items.now }
    ensures { IsFoundAt items.now request.now result }
{
    for i in 0..items.len() {
        if is_call(&items[i], request, epoch) {
            return Some(i);
        }
    }
    None
}
