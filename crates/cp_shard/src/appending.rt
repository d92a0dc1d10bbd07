//! How a shard appends the entry of a new call.
ghost use Rattle.std.specs.Prelude.{ℕ, ◌≡◌, ◌≤◌, ◌<◌, ◌^◌, ◌==◌, [], ◌∷◌, ◌++◌, cond, length, IfOk, IfErr, OnOk, OnErr};
ghost use Rattle.sha2.specs.Sha256.{sha256};
ghost use Rattle.cp_core.specs.Calls.{content_at, pages_free};
ghost use Rattle.cp_core.specs.declared.item.Item.TheVariants.{Row};
ghost use Rattle.cp_pages.specs.Pages.{pages_for};
ghost use Rattle.cp_statements.specs.View.{attestation_view};
ghost use Rattle.cp_shard.specs.Kept.{IsNext};
ghost use Rattle.cp_shard.specs.Refusals.{IsLate};
ghost use Rattle.cp_shard.specs.Steps.{IsNewLeaf};

use crate::booking::{key_by, pages_of, tip_by};
use crate::call::Call;
use crate::drawing::{draw, place_and_draw};
use crate::room::{make_room, release};
use crate::row_tip::RowTip;
use crate::shard::Shard;
use crate::standing::{set_run, set_tip};
use cp_bytes::Bytes;
use cp_core::{CallRefusal, Item, LeafSource};
use cp_statements::Attestation;

impl Shard {
    // Appends a get's entry, where there is memory and a leaf for it; a refusal changes nothing.
    pub(crate) fn append_get<L: LeafSource>(
        &mut self,
        leaves: &mut L,
        limit: u64,
        pass: u32,
        text: Bytes,
        attestation: Attestation,
    ) -> Result<u32, CallRefusal>
        requires next { IsNext self.old.store self.old.index self.old.items
            (attestation_view attestation) text }
        requires get { (attestation_view attestation).kind ≡ 2 }
        requires limit { limit ≤ 2 ^ 32 }
        ensures appended { IfOk result
            (λ leaf. self.new ≡ record self.old
            { items = self.old.items ++ Row pass leaf 0 text ∷ [] }) }
        ensures below { IfOk result (λ leaf. leaf < limit) }
        ensures once { IfOk result (IsNewLeaf (L.given leaves.old)) }
        ensures given { IfOk result (λ leaf. L.given leaves.new ≡ L.given leaves.old ++ leaf ∷ []) }
        ensures unchanged { OnErr result (self.new ≡ self.old) }
        ensures none_given { OnErr result (L.given leaves.new ≡ L.given leaves.old) }
        ensures found { L.found leaves.old ≤ L.found leaves.new }
        ensures fixed { L.fixed leaves.new ≡ L.fixed leaves.old }
        ensures late { IfErr result (IsLate 0 0 limit (L.found leaves.new)) }
    {
        let block = attestation.block;
        let freezes_left = self.closings as u64 - (self.epoch - 1);
        let Ok(()) = make_room(
            &mut self.items,
            freezes_left as usize + 1,
            &mut self.row_tips,
            &mut self.calls,
            &mut self.standings,
            block,
        ) else {
            return Err(CallRefusal::OutOfMemory);
        };
        let place = self.calls.len();
        let key = key_by(&attestation);
        let leaf = match draw(&mut self.places, key, place, leaves, limit) {
            Ok(leaf) => leaf,
            Err(refusal) => return Err(refusal),
        };
        let tip = tip_by(&attestation);
        set_tip(&mut self.standings, block, tip);
        self.calls.push_reserved(Call { leaf, attestation });
        self.items.push_reserved(Item::Row {
            pass,
            leaf,
            pages: 0,
            entry: text,
        });
        self.row_tips.push_reserved(RowTip { block, tip });
        Ok(leaf)
    }

    // Appends a put's entry, where there is memory, and room and a leaf for it; a refusal changes
    // nothing. The content before it gives its pages back.
    pub(crate) fn append_put<L: LeafSource>(
        &mut self,
        leaves: &mut L,
        limit: u64,
        pass: u32,
        text: Bytes,
        attestation: Attestation,
        content: &[u8],
    ) -> Result<u32, CallRefusal>
        requires next { IsNext self.old.store self.old.index self.old.items
            (attestation_view attestation) text }
        requires put { (attestation_view attestation).kind ≡ 1 }
        requires version { 1 ≤ attestation.version }
        requires hash { sha256 content.now ≡ attestation.content }
        requires len { length content.now ≤ 65536 }
        requires limit { limit ≤ 2 ^ 32 }
        ensures items { IfOk result
            (λ leaf. self.new.items ≡ self.old.items ++ Row pass leaf
            (pages_for (length content.now)) text ∷ []) }
        ensures contents { OnOk result
            ((b : ℕ) → content_at self.new.contents b ≡ cond (attestation.block == b) content.now
            (content_at self.old.contents b)) }
        ensures fits { OnOk result
            (pages_for (length content.now) ≤ pages_free self.old.pages self.old.items) }
        ensures store { self.new.store ≡ self.old.store }
        ensures index { self.new.index ≡ self.old.index }
        ensures pages { self.new.pages ≡ self.old.pages }
        ensures closings { self.new.closings ≡ self.old.closings }
        ensures first { self.new.first ≡ self.old.first }
        ensures below { IfOk result (λ leaf. leaf < limit) }
        ensures once { IfOk result (IsNewLeaf (L.given leaves.old)) }
        ensures given { IfOk result (λ leaf. L.given leaves.new ≡ L.given leaves.old ++ leaf ∷ []) }
        ensures unchanged { OnErr result (self.new ≡ self.old) }
        ensures none_given { OnErr result (L.given leaves.new ≡ L.given leaves.old) }
        ensures found { L.found leaves.old ≤ L.found leaves.new }
        ensures fixed { L.fixed leaves.new ≡ L.fixed leaves.old }
        ensures late { IfErr result
            (IsLate (pages_free self.old.pages self.old.items)
            (pages_for (length content.now)) limit (L.found leaves.new)) }
    {
        let block = attestation.block;
        let freezes_left = self.closings as u64 - (self.epoch - 1);
        let Ok(()) = make_room(
            &mut self.items,
            freezes_left as usize + 1,
            &mut self.row_tips,
            &mut self.calls,
            &mut self.standings,
            block,
        ) else {
            return Err(CallRefusal::OutOfMemory);
        };
        let (leaf, run) = match place_and_draw(
            &mut self.pool,
            content,
            &mut self.places,
            key_by(&attestation),
            self.calls.len(),
            leaves,
            limit,
        ) {
            Ok(drawn) => drawn,
            Err(refusal) => return Err(refusal),
        };
        let tip = tip_by(&attestation);
        set_tip(&mut self.standings, block, tip);
        let old = set_run(&mut self.standings, block, run);
        self.calls.push_reserved(Call { leaf, attestation });
        self.items.push_reserved(Item::Row {
            pass,
            leaf,
            pages: pages_of(content),
            entry: text,
        });
        self.row_tips.push_reserved(RowTip { block, tip });
        release(&mut self.pool, old);
        Ok(leaf)
    }
}
