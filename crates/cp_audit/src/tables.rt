//! The tables of an epoch's material.
ghost use Rattle.std.specs.Prelude.{◌≡◌, true};
ghost use Rattle.cp_statements.specs.View.{closing_view};
ghost use Rattle.cp_tips.specs.Table.{ascends};
ghost use Rattle.cp_evidence.specs.Material.{before_in, is_formed, is_formed_before, least_regressed};
ghost use Rattle.cp_evidence.specs.View.{before_view};

use cp_evidence::Before;
use cp_statements::Closing;
use cp_tips::{TableText, first_regress};

// Whether the bytes are a table that is well formed for the closing.
pub(crate) fn is_formed(bytes: &[u8], closing: &Closing) -> bool
    ensures { result ≡ is_formed bytes.now (closing_view closing.now) }
{
    match TableText::read(bytes) {
        Ok(table) => table.well_formed(closing.rows, closing.entries),
        Err(_) => false,
    }
}

// Whether the table before is well formed for the closing before; in epoch 1 there are no bytes.
pub(crate) fn is_formed_before(bytes: &[u8], before: &Before) -> bool
    ensures { result ≡ is_formed_before bytes.now (before_in (before_view before.now)) }
{
    match before {
        Before::Nothing => bytes.is_empty(),
        Before::Closing(signed) => is_formed(bytes, &signed.closing),
    }
}

// The least block that went back between two tables that ascend.
pub(crate) fn went_back(before: &TableText, after: &TableText) -> Option<u64>
    requires before { ascends before.now ≡ true }
    requires after { ascends after.now ≡ true }
    ensures { result ≡ least_regressed before.now after.now }
{
    first_regress(before, after)
}
