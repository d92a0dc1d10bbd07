//! The first fault of a segment, by an index of its calls.
ghost use Rattle.std.specs.Prelude.{◌≡◌, ◌↔◌, cond, option_map, IfOk, IfSome, IsNone, None, Some};
ghost use Rattle.std.specs.BTreeMap.{get, is_at};
ghost use Rattle.cp_chain.specs.Index.{call_cmp};
ghost use Rattle.cp_chain.specs.Legal.{Legal};
ghost use Rattle.cp_chain.specs.Rules.{IsFirstFault, first_fault};
ghost use Rattle.cp_chain.specs.View.{fault_view, frame_view};
ghost use Rattle.cp_chain.specs.declared.indexed.Call.{Call};

use crate::first::{end_fault, sound_entry};
use crate::put::Put;
use crate::{Fault, Frame, Rule, Segment};
use cp_bytes::OutOfMemory;
use std::alloc::Global;
use std::collections::BTreeMap;

/// What tells a call from the others of a segment, by client and then nonce.
#[derive(Clone, Copy, Debug, PartialEq, Eq, PartialOrd, Ord)]
struct Call {
    client: u32,
    nonce: u64,
}

/// The first fault of the segment, as `first_fault` answers it: at the least place, there of the least
/// rule, there with the least other place. There is none exactly where the segment is legal.
///
/// It keeps the calls that it passed over in an index, each with its place. A segment of n texts costs
/// at most n signatures and n look-ups of log n steps, in whatever order its nonces come.
/// `OutOfMemory` comes only where the index's memory can't be had.
pub fn first_fault_by_index(
    alloc: Global,
    frame: &Frame,
    segment: &Segment,
) -> Result<Option<Fault>, OutOfMemory>
    ensures fault { IfOk result (λ found. option_map fault_view found ≡ first_fault (frame_view frame.now) segment.now) }
    ensures none { IfOk result (λ found. IsNone found ↔ Legal (frame_view frame.now) segment.now) }
    ensures least { IfOk result (λ found. IfSome found (λ fault. IsFirstFault (frame_view frame.now) segment.now (fault_view fault))) }
{
    find_by_index(alloc, frame, segment)
}

/// The first fault, text after text.
fn find_by_index(
    alloc: Global,
    frame: &Frame,
    segment: &Segment,
) -> Result<Option<Fault>, OutOfMemory>
    ensures { IfOk result (λ found. option_map fault_view found ≡ first_fault (frame_view frame.now) segment.now) }
{
    let end = u64::from(segment.count());
    let mut calls = BTreeMap::new(alloc);
    let mut put = Put::at(&frame.before);
    let mut place = 0;
    for text in segment.texts() {
        let entry = match sound_entry(frame, &put, place, text) {
            Ok(entry) => entry,
            Err(fault) => return Ok(Some(fault)),
        };
        let call = Call {
            client: entry.client,
            nonce: entry.nonce,
        };
        if let Some(other) = earlier_place(&mut calls, call, place)? {
            return Ok(Some(Fault {
                rule: Rule::Repeat,
                place,
                other,
            }));
        }
        put = put.behind_entry(&entry);
        place += 1;
    }
    Ok(end_fault(frame, &put, end))
}

/// The place that is kept of the call; a new call is kept with this place.
fn earlier_place(
    calls: &mut BTreeMap<Call, u64>,
    call: Call,
    place: u64,
) -> Result<Option<u64>, OutOfMemory>
    ensures found { IfOk result (λ earlier. earlier ≡ get call_cmp calls.old call) }
    ensures kept { IfOk result (λ earlier. earlier ≡ None → (k : Call) → get call_cmp calls.new k ≡ cond (is_at (call_cmp call) k) (Some place) (get call_cmp calls.old k)) }
{
    if let Some(earlier) = calls.get(&call) {
        return Ok(Some(*earlier));
    }
    calls.insert(call, place)?;
    Ok(None)
}
