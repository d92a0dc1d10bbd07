//! Whether an epoch's material is given.
ghost use Rattle.std.specs.Prelude.{◌≡◌};
ghost use Rattle.cp_audit.specs.Given.{Gives, GivesLogOf, parts_read};
ghost use Rattle.cp_audit.specs.View.{material_view};
ghost use Rattle.cp_evidence.specs.View.{before_view, signed_closing_view};

use crate::closings::{closing_before, closing_in};
use crate::frames::{Frames, table_in};
use crate::given_log::given_log;
use crate::part::Part;
use crate::tables::{is_formed, is_formed_before, went_back};
use crate::{AuditRefusal, Material, What};
use cp_bytes::digest;
use cp_evidence::{Before, SignedClosing, Store};
use cp_families::Families;
use std::alloc::Global;

// The parts of given material.
#[derive(Drop)]
pub(crate) struct GivenEpoch<'a> {
    pub(crate) store: Store,
    pub(crate) epoch: u64,
    pub(crate) families_text: &'a [u8],
    pub(crate) families: Families<'a>,
    pub(crate) before: Before<'a>,
    pub(crate) closing: SignedClosing<'a>,
    pub(crate) table_before: &'a [u8],
    pub(crate) table: &'a [u8],
    // Only where both tables are well formed and no block went back.
    pub(crate) log: Option<Vec<Part<'a>>>,
}

impl<'a> GivenEpoch<'a> {
    // The parts of the log; none where it isn't read.
    pub(crate) fn parts(&self) -> &[Part<'a>]
        ensures { result.now ≡ parts_read self.now.log }
    {
        match &self.log {
            Some(parts) => parts.as_slice(),
            None => &[],
        }
    }
}

// The parts of the material, or the first that isn't given.
#[tactic(auto, unfolding(cp_evidence::specs::Material::given_of))]
pub(crate) fn given<'a>(alloc: Global, m: &Material<'a>) -> Result<GivenEpoch<'a>, AuditRefusal>
    ensures { Gives (material_view m.now) result }
{
    let store = Store::new(m.key);
    let Ok(families) = Families::read(m.families) else {
        return Err(AuditRefusal::NotGiven {
            what: What::Families,
        });
    };
    let Some(before) = closing_before(&store, m.epoch, m.before) else {
        return Err(AuditRefusal::NotGiven {
            what: What::ClosingBefore,
        });
    };
    let Some(closing) = closing_in(&store, 0, m.epoch, m.closing) else {
        return Err(AuditRefusal::NotGiven {
            what: What::Closing,
        });
    };
    if digest(m.families) != closing.closing.families {
        return Err(AuditRefusal::NotGiven {
            what: What::Closing,
        });
    }
    if !before.names_table(m.table_before) {
        return Err(AuditRefusal::NotGiven {
            what: What::TableBefore,
        });
    }
    if digest(m.table) != closing.closing.table {
        return Err(AuditRefusal::NotGiven { what: What::Table });
    }
    let log = match log_where_read(alloc, &store, &families, m, &before, &closing) {
        Ok(log) => log,
        Err(refusal) => return Err(refusal),
    };
    Ok(GivenEpoch {
        store,
        epoch: m.epoch,
        families_text: m.families,
        families,
        before,
        closing,
        table_before: m.table_before,
        table: m.table,
        log,
    })
}

// The log, where both tables are well formed for their closings and no block went back.
fn log_where_read<'a>(
    alloc: Global,
    store: &Store,
    families: &Families<'a>,
    m: &Material<'a>,
    before: &Before<'a>,
    closing: &SignedClosing<'a>,
) -> Result<Option<Vec<Part<'a>>>, AuditRefusal>
    ensures { GivesLogOf store.now families.now m.now before.now closing.now result }
{
    if !is_formed_before(m.table_before, before) {
        return Ok(None);
    }
    if !is_formed(m.table, &closing.closing) {
        return Ok(None);
    }
    let frames = Frames {
        store: store.id,
        families: families.copy(),
        epoch: m.epoch,
        before: table_in(m.table_before),
        after: table_in(m.table),
    };
    if went_back(&frames.before, &frames.after).is_some() {
        return Ok(None);
    }
    match given_log(alloc, &frames, m.log) {
        Ok(parts) => Ok(Some(parts)),
        Err(refusal) => Err(refusal),
    }
}
