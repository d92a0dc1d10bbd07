//! The board, which publishes.
ghost use Rattle.std.specs.Prelude.{◌≡◌, ◌⊎◌, ◌<◌, ◌≤◌, ◌++◌, ◌∷◌, [], All, IsTrue, IfOk, MatchResult, length, take};
ghost use Rattle.cp_bulletin.specs.Texts.{texts_of, arc_contents, StartsWith};
ghost use Rattle.cp_bulletin.specs.Models.{IsReaderOf};

use crate::OutOfMemory;
use crate::epoch_text::EpochText;
use crate::published::Published;
use crate::reader::Reader;
use crate::rule::{See, SeenIsPublished, View};
use core::mem::replace_with;
use left_right::writer::Writer;
use std::alloc::Global;
use std::marker::Model;
use std::sync::{Arc, Wait};

/// Publishes texts. It is not `Drop`: end it by `close`.
///
/// Contracts see the published texts, that of epoch 1 first, and the text that the last `publish` was given and refused, if it was kept.
pub struct Board {
    writer: Writer<Published, Arc<EpochText>, View, SeenIsPublished>,
}

impl Model for Board {
    ghost use Rattle.std.specs.Prelude.{◌≤◌, length, drop};
    ghost use Rattle.cp_bulletin.specs.Texts.{texts_of};
    ghost use Rattle.cp_bulletin.specs.Models.{BoardModel};

    ghost Value = { BoardModel };

    ghost view = { λ s. record { texts = texts_of s.writer.desk.shown.value.texts.items; refused = texts_of (drop s.writer.behind s.writer.log.items) } };

    ghost invariant = { λ s. length (drop s.writer.behind s.writer.log.items) ≤ 1 };
}

// Whether the texts are the list's and no more, where the first `met` are known to be.
fn are_alike(list: &[Arc<EpochText>], texts: &[Arc<EpochText>], met: usize) -> bool
    requires { (met ≤ length list.now) × StartsWith (texts_of texts.now) (take met (texts_of list.now)) }
    ensures { IsTrue result → texts_of list.now ≡ texts_of texts.now }
{
    list.len() == texts.len() && begins(list, texts, met)
}

// Whether the texts start with the list, where the first `met` are known to.
fn begins(list: &[Arc<EpochText>], texts: &[Arc<EpochText>], met: usize) -> bool
    requires { (met ≤ length list.now) × StartsWith (texts_of texts.now) (take met (texts_of list.now)) }
    ensures { IsTrue result → StartsWith (texts_of texts.now) (texts_of list.now) }
{
    if texts.len() < list.len() {
        return false;
    }
    for i in met..list.len() {
        if !list[i].says_as(&texts[i]) {
            return false;
        }
    }
    true
}

impl Board {
    /// A board with no texts, and so many readers, which have seen none.
    pub fn new<R: Wait>(
        rt: &R,
        alloc: Global,
        readers: u32,
    ) -> Result<(Board, Vec<Reader>), OutOfMemory>
        requires { 0 < readers }
        ensures board { IfOk result (λ r. (r.0.texts ≡ []) × (r.0.refused ≡ [])) }
        ensures readers { IfOk result (λ r. (length r.1.items ≡ readers)
            × All (λ s. (s.texts ≡ []) × (s.met ≡ [])) r.1.items) }
    {
        let mut all = Vec::with_capacity(alloc, readers as usize)?;
        let writer = Writer::new(
            alloc,
            Published {
                texts: Vec::new(alloc),
            },
            Published {
                texts: Vec::new(alloc),
            },
            readers as usize,
        )?;
        for _ in 0..readers {
            match writer.factory().reader() {
                Ok(place) => all.push_reserved(Reader {
                    place,
                    list: Vec::new(alloc),
                    met: 0,
                }),
                Err(_) => {
                    writer.take(rt);
                    return Err(OutOfMemory);
                }
            }
        }
        Ok((Board { writer }, all))
    }

    /// Publishes the text of the next epoch. The reader has then all texts, and the answer shares this one.
    ///
    /// All memory is taken before the text is published. Where the last call was refused and kept its text, this one has to say the same.
    ///
    /// # Errors
    ///
    /// `OutOfMemory`: nothing was published, and the reader may have more of what was published before.
    pub fn publish<R: Wait>(
        &mut self,
        rt: &R,
        reader: &mut Reader,
        text: Arc<EpochText>,
    ) -> Result<Arc<EpochText>, OutOfMemory>
        requires reader { IsReaderOf self.old reader.old }
        requires text { (self.old.refused ≡ []) ⊎ (self.old.refused ≡ arc_contents text ∷ []) }
        ensures reader { IsReaderOf self.new reader.new }
        ensures grows { StartsWith reader.new.texts reader.old.texts }
        ensures published { MatchResult result
            (λ t. (self.new.texts ≡ self.old.texts ++ arc_contents text ∷ []) × (self.new.refused ≡ [])
            × (reader.new.texts ≡ self.new.texts) × (arc_contents t ≡ arc_contents text))
            (λ _. (self.new.texts ≡ self.old.texts)
            × ((self.new.refused ≡ self.old.refused) ⊎ (self.new.refused ≡ arc_contents text ∷ []))) }
    {
        self.catch_up(rt, reader)?;
        reader.reserve_one()?;
        let answer = Arc::try_clone(&text)?;
        let own = Arc::try_clone(&text)?;
        self.append(text)?;
        self.show(rt)?;
        self.follow(rt, reader, own);
        Ok(answer)
    }

    /// Tells that the published texts start with the reader's.
    pub fn meet<R: Wait>(&self, rt: &R, reader: &mut Reader)
        requires { IsReaderOf self.now reader.old }
        ensures texts { StartsWith self.now.texts reader.new.texts }
        ensures same { reader.new ≡ record reader.old { met = reader.old.texts } }
    {
        for _ in rt.forever() {
            let shown = self.writer.published().texts.as_slice();
            if begins(reader.list.as_slice(), shown, reader.met) {
                reader.mark_met();
                return;
            }
        }
        unreachable!()
    }

    /// Has the reader see all published texts.
    ///
    /// # Errors
    ///
    /// `OutOfMemory`: the reader may have more of them than before.
    pub fn catch_up<R: Wait>(&self, rt: &R, reader: &mut Reader) -> Result<(), OutOfMemory>
        requires { IsReaderOf self.now reader.old }
        ensures reader { IsReaderOf self.now reader.new }
        ensures grows { StartsWith reader.new.texts reader.old.texts }
        ensures all { IfOk result (λ _. reader.new.texts ≡ self.now.texts) }
    {
        for _ in rt.forever() {
            reader.refresh()?;
            let shown = self.writer.published().texts.as_slice();
            if are_alike(reader.list.as_slice(), shown, reader.met) {
                reader.mark_met();
                return Ok(());
            }
        }
        unreachable!()
    }

    /// Closes the board. It waits for reads that are under way. Its readers keep their texts.
    pub fn close<R: Wait>(self, rt: &R) {
        let Board { writer } = self;
        writer.take(rt);
    }

    // Keeps the text for the next `show`, if it isn't kept already.
    fn append(&mut self, text: Arc<EpochText>) -> Result<(), OutOfMemory>
        requires { (self.old.refused ≡ []) ⊎ (self.old.refused ≡ arc_contents text ∷ []) }
        ensures { (self.new.texts ≡ self.old.texts)
            × MatchResult result (λ _. self.new.refused ≡ arc_contents text ∷ []) (λ _. self.new.refused ≡ self.old.refused) }
    {
        if self.writer.has_pending_operations() {
            return Ok(());
        }
        match self.writer.append(text) {
            Ok(()) => Ok(()),
            Err(_) => Err(OutOfMemory),
        }
    }

    // Shows readers the text that is kept.
    fn show<R: Wait>(&mut self, rt: &R) -> Result<(), OutOfMemory>
        ensures { MatchResult result (λ _. (self.new.texts ≡ self.old.texts ++ self.old.refused) × (self.new.refused ≡ [])) (λ _. self.new ≡ self.old) }
    {
        replace_with(self, rt, |board: Board, rt| board.showing(rt))
    }

    fn showing<R: Wait>(self, rt: &R) -> (Board, Result<(), OutOfMemory>)
        ensures { MatchResult result.1 (λ _. (result.0.texts ≡ self.texts ++ self.refused) × (result.0.refused ≡ [])) (λ _. result.0 ≡ self) }
    {
        let Board { writer } = self;
        let (writer, done) = writer.publish_as::<See, R>(rt);
        (Board { writer }, done)
    }

    // Reads until the reader finds the text that was published, for which it has room.
    fn follow<R: Wait>(&self, rt: &R, reader: &mut Reader, text: Arc<EpochText>)
        requires { (self.now.texts ≡ reader.old.texts ++ arc_contents text ∷ []) × (length reader.old.texts < reader.old.room) }
        ensures { (reader.new.texts ≡ self.now.texts) × (reader.new.met ≡ self.now.texts) }
    {
        let mut text = text;
        for _ in rt.forever() {
            match reader.take_in(text) {
                None => {
                    reader.mark_met();
                    return;
                }
                Some(back) => text = back,
            }
        }
        unreachable!()
    }
}
