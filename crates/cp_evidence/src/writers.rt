//! Evidence, written. Each writer appends one kind's evidence, and where memory is wanted `out` stays
//! as it was. Texts, signatures and parts are to have fewer than 2^32 bytes each: four bytes hold
//! their lengths, and longer ones are read otherwise than they were meant.
ghost use Rattle.std.specs.Prelude.{◌≡◌, ◌++◌, OnOk, OnErr};
ghost use Rattle.cp_statements.specs.View.{envelope_view};
ghost use Rattle.cp_evidence.specs.Evidence.Evidence.{K1, K2, K3, K4, K5, K6, K9, K10};
ghost use Rattle.cp_evidence.specs.View.{two_by, table_by, given_by};
ghost use Rattle.cp_evidence.specs.Written.{broken_rule_bytes, lost_bytes, two_bytes, Appends, AppendsBrokenRule, AppendsLost};

use crate::layout::append;
use cp_bytes::OutOfMemory;
use cp_statements::Envelope;

/// Kind 1: two attestations of one position of a block.
/// Appends it to `out`; `OutOfMemory` leaves `out` as it was.
#[tactic(auto, unfolding(crate::specs::Evidence::evidence_text))]
pub fn write_k1(x: &Envelope, y: &Envelope, out: &mut Vec<u8>) -> Result<(), OutOfMemory>
    ensures written { OnOk result (Appends out.old.items out.new.items (K1 (two_by x.now y.now))) }
    ensures unchanged { OnErr result (out.new.items ≡ out.old.items) }
{
    append_two(1, x, y, out)
}

/// Kind 2: two texts under one leaf.
/// Appends it to `out`; `OutOfMemory` leaves `out` as it was.
#[tactic(auto, unfolding(crate::specs::Evidence::evidence_text))]
pub fn write_k2(x: &Envelope, y: &Envelope, out: &mut Vec<u8>) -> Result<(), OutOfMemory>
    ensures written { OnOk result (Appends out.old.items out.new.items (K2 (two_by x.now y.now))) }
    ensures unchanged { OnErr result (out.new.items ≡ out.old.items) }
{
    append_two(2, x, y, out)
}

/// Kind 3: two closings of one epoch.
/// Appends it to `out`; `OutOfMemory` leaves `out` as it was.
#[tactic(auto, unfolding(crate::specs::Evidence::evidence_text))]
pub fn write_k3(x: &Envelope, y: &Envelope, out: &mut Vec<u8>) -> Result<(), OutOfMemory>
    ensures written { OnOk result (Appends out.old.items out.new.items (K3 (two_by x.now y.now))) }
    ensures unchanged { OnErr result (out.new.items ≡ out.old.items) }
{
    append_two(3, x, y, out)
}

/// Kind 4: the closing `x` and its table `t`, which isn't well formed.
/// Appends it to `out`; `OutOfMemory` leaves `out` as it was.
#[tactic(auto, unfolding(crate::specs::Evidence::evidence_text, crate::specs::Evidence::closing_table_text, cp_statements::specs::Envelope::envelope_text))]
pub fn write_k4(x: &Envelope, t: &[u8], out: &mut Vec<u8>) -> Result<(), OutOfMemory>
    ensures written { OnOk result (Appends out.old.items out.new.items
        (K4 (table_by x.now t.now))) }
    ensures unchanged { OnErr result (out.new.items ≡ out.old.items) }
{
    append(out, 4, &[], &[x.text, x.signature, t], &[])
}

/// Kind 5: the closing `x`, whose link isn't to `y`, the closing before.
/// Appends it to `out`; `OutOfMemory` leaves `out` as it was.
#[tactic(auto, unfolding(crate::specs::Evidence::evidence_text))]
pub fn write_k5(x: &Envelope, y: &Envelope, out: &mut Vec<u8>) -> Result<(), OutOfMemory>
    ensures written { OnOk result (Appends out.old.items out.new.items (K5 (two_by x.now y.now))) }
    ensures unchanged { OnErr result (out.new.items ≡ out.old.items) }
{
    append_two(5, x, y, out)
}

/// Kind 6: the block went back from the table `s` of the closing `y` to the table `t` of `x`.
/// Appends it to `out`; `OutOfMemory` leaves `out` as it was.
#[tactic(auto, unfolding(crate::specs::Evidence::evidence_text, crate::specs::Evidence::went_back_text, crate::specs::Evidence::given_text, cp_statements::specs::Envelope::envelope_text))]
pub fn write_k6<'a>(
    block: u64,
    x: &Envelope<'a>,
    y: &Envelope<'a>,
    t: &'a [u8],
    s: &'a [u8],
    out: &mut Vec<u8>,
) -> Result<(), OutOfMemory>
    ensures written { OnOk result (Appends out.old.items out.new.items
        (K6 (record { block = block; given = given_by x.now y.now t.now s.now }))) }
    ensures unchanged { OnErr result (out.new.items ≡ out.old.items) }
{
    append(
        out,
        6,
        &[block],
        &[x.text, x.signature, y.text, y.signature, t, s],
        &[],
    )
}

/// Kind 7: the segment `g` of the block breaks the rule, a number of 1 to 9, at these places, under
/// the families list `f` and in the frame of the closings and tables. `g` is to be a segment's bytes,
/// its number of texts in front. Another number or other bytes are appended as they are, and are read
/// otherwise or not at all.
/// Appends it to `out`; `OutOfMemory` leaves `out` as it was.
#[tactic(auto, unfolding(crate::specs::Evidence::evidence_text, crate::specs::Evidence::broken_rule_text, crate::specs::Evidence::given_text, cp_statements::specs::Envelope::envelope_text))]
pub fn write_k7<'a>(
    block: u64,
    rule: u64,
    place: u64,
    other: u64,
    x: &Envelope<'a>,
    y: &Envelope<'a>,
    t: &'a [u8],
    s: &'a [u8],
    f: &'a [u8],
    g: &'a [u8],
    out: &mut Vec<u8>,
) -> Result<(), OutOfMemory>
    ensures laid { OnOk result (out.new.items ≡ out.old.items ++ broken_rule_bytes
        block rule place other (given_by x.now y.now t.now s.now) f.now g.now) }
    ensures written { OnOk result (AppendsBrokenRule out.old.items out.new.items
        block rule place other (given_by x.now y.now t.now s.now) f.now g.now) }
    ensures unchanged { OnErr result (out.new.items ≡ out.old.items) }
{
    append(
        out,
        7,
        &[block, rule, place, other],
        &[x.text, x.signature, y.text, y.signature, t, s, f],
        g,
    )
}

/// Kind 8: the attestation `a` is outside the counts of its block, or doesn't stand in the segment `g`.
/// `g` is to be a segment's bytes, its number of texts in front; other bytes are appended as they are,
/// and are read otherwise or not at all.
/// Appends it to `out`; `OutOfMemory` leaves `out` as it was.
#[tactic(auto, unfolding(crate::specs::Evidence::evidence_text, crate::specs::Evidence::lost_text, crate::specs::Evidence::given_text, cp_statements::specs::Envelope::envelope_text))]
pub fn write_k8<'a>(
    x: &Envelope<'a>,
    y: &Envelope<'a>,
    t: &'a [u8],
    s: &'a [u8],
    a: &Envelope<'a>,
    g: &'a [u8],
    out: &mut Vec<u8>,
) -> Result<(), OutOfMemory>
    ensures laid { OnOk result (out.new.items ≡ out.old.items ++ lost_bytes
        (given_by x.now y.now t.now s.now) (envelope_view a.now) g.now) }
    ensures written { OnOk result (AppendsLost out.old.items out.new.items
        (given_by x.now y.now t.now s.now) (envelope_view a.now) g.now) }
    ensures unchanged { OnErr result (out.new.items ≡ out.old.items) }
{
    append(
        out,
        8,
        &[],
        &[
            x.text,
            x.signature,
            y.text,
            y.signature,
            t,
            s,
            a.text,
            a.signature,
        ],
        g,
    )
}

/// Kind 9: the get attestation `a`, whose head is wrong.
/// Appends it to `out`; `OutOfMemory` leaves `out` as it was.
#[tactic(auto, unfolding(crate::specs::Evidence::evidence_text, cp_statements::specs::Envelope::envelope_text))]
pub fn write_k9(a: &Envelope, out: &mut Vec<u8>) -> Result<(), OutOfMemory>
    ensures written { OnOk result (Appends out.old.items out.new.items (K9 (envelope_view a.now))) }
    ensures unchanged { OnErr result (out.new.items ≡ out.old.items) }
{
    append(out, 9, &[], &[a.text, a.signature], &[])
}

/// Kind 10: the signed text `x`, which is no statement of the store.
/// Appends it to `out`; `OutOfMemory` leaves `out` as it was.
#[tactic(auto, unfolding(crate::specs::Evidence::evidence_text, cp_statements::specs::Envelope::envelope_text))]
pub fn write_k10(x: &Envelope, out: &mut Vec<u8>) -> Result<(), OutOfMemory>
    ensures written { OnOk result (Appends out.old.items out.new.items
        (K10 (envelope_view x.now))) }
    ensures unchanged { OnErr result (out.new.items ≡ out.old.items) }
{
    append(out, 10, &[], &[x.text, x.signature], &[])
}

// Appends evidence of a kind that is two signed texts.
#[tactic(auto, unfolding(crate::specs::Evidence::two_text, cp_statements::specs::Envelope::envelope_text))]
fn append_two(kind: u8, x: &Envelope, y: &Envelope, out: &mut Vec<u8>) -> Result<(), OutOfMemory>
    ensures written { OnOk result (out.new.items
        ≡ out.old.items ++ two_bytes kind (two_by x.now y.now)) }
    ensures unchanged { OnErr result (out.new.items ≡ out.old.items) }
{
    append(
        out,
        kind,
        &[],
        &[x.text, x.signature, y.text, y.signature],
        &[],
    )
}
