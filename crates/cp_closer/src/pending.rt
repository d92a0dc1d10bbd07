//! A seal that isn't published yet.
ghost use Rattle.std.specs.Prelude.{◌≡◌, ◌<◌, ◌^◌, IfOk, sum_by};
ghost use Rattle.cp_closer.specs.Pendings.{item_of, IsPending};

use crate::SealedText;
use crate::tips::total;
use cp_bytes::{Bytes, OutOfMemory, digest};
use cp_core::SealItem;
use cp_statements::Closing;
use cp_tips::{Tip, build};
use std::alloc::Global;
use std::collections::BTreeMap;

/// What a closing says besides its tips, and the leaf that signs it.
#[derive(Clone, Copy, Debug)]
pub(crate) struct Heading {
    pub store: [u8; 32],
    pub leaf: u32,
    pub epoch: u64,
    pub link: [u8; 32],
}

/// The texts of a sealed epoch, with what else its seal takes, so that publishing needs no memory.
#[derive(Debug, Drop)]
pub(crate) struct Pending {
    pub epoch: u64,
    pub sealed: SealedText,
    /// The closing's text once more.
    pub text: Bytes,
    pub families: Bytes,
}

impl Pending {
    /// What is sealed of these tips.
    pub fn new(
        alloc: Global,
        heading: Heading,
        tips: &BTreeMap<u64, Tip>,
        log: Vec<u8>,
        families: Vec<u8>,
    ) -> Result<Pending, OutOfMemory>
        requires { sum_by (λ e. e.1.count) tips.now.entries < 2 ^ 64 }
        ensures { IfOk result (IsPending heading tips.now.entries log.items families.items) }
    {
        let Heading {
            store,
            leaf,
            epoch,
            link,
        } = heading;
        let table = build(alloc, tips)?;
        let closing = Closing {
            store,
            epoch,
            link,
            families: digest(&families),
            table: digest(&table),
            rows: tips.len() as u64,
            entries: total(tips),
        };
        let text = closing.text();
        let again = Vec::from_slice(alloc, &text)?;
        Ok(Pending {
            epoch,
            sealed: SealedText {
                leaf,
                text,
                table: Bytes::from_vec(table),
                log: Bytes::from_vec(log),
            },
            text: Bytes::from_vec(again),
            families: Bytes::from_vec(families),
        })
    }

    /// The seal.
    pub fn into_item(self) -> SealItem
        ensures { result ≡ item_of self }
    {
        let Pending {
            epoch,
            sealed,
            text,
            families,
        } = self;
        let SealedText {
            leaf,
            text: _,
            table,
            log: _log,
        } = sealed;
        SealItem {
            epoch,
            leaf,
            text,
            table,
            families,
        }
    }
}
