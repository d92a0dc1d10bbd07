//! A reader, which never waits.
ghost use Rattle.std.specs.Prelude.{◌≡◌, ◌≤◌, ◌<◌, ◌-◌, ℕ, IfOk, IfErr, MatchOption, IsTrue, length, slice_get, Some, Err, [], ◌∷◌, ◌++◌};
ghost use Rattle.cp_bulletin.specs.Texts.{texts_of, arc_contents, contents_of, StartsWith};
ghost use Rattle.cp_bulletin.specs.declared.epoch_refusal.EpochRefusal.TheVariants.{NotClosed};

use crate::OutOfMemory;
use crate::epoch_refusal::EpochRefusal;
use crate::epoch_text::EpochText;
use crate::published::Published;
use crate::rule::{See, SeenIsPublished, View};
use core::mem::replace_with;
use left_right::reader;
use std::marker::Model;
use std::sync::Arc;

/// Reads what a board publishes, and keeps the texts that it has seen.
///
/// Contracts see its texts, that of epoch 1 first, those at their front that it has met on its board, and how many it has room for.
#[derive(Drop)]
pub struct Reader {
    pub(crate) place: reader::Reader<Published, View, SeenIsPublished>,
    pub(crate) list: Vec<Arc<EpochText>>,
    pub(crate) met: usize,
}

impl Model for Reader {
    ghost use Rattle.std.specs.Prelude.{◌≤◌, length, take, vec_capacity};
    ghost use Rattle.cp_bulletin.specs.Texts.{texts_of, StartsWith};
    ghost use Rattle.cp_bulletin.specs.Models.{ReaderModel};

    ghost Value = { ReaderModel };

    ghost view = { λ s. record { texts = texts_of s.list.items; met = take s.met (texts_of s.list.items); room = vec_capacity s.list } };

    ghost invariant = { λ s. StartsWith s.place.place.me.0.client.seen (texts_of s.list.items) × (s.met ≤ length s.list.items) };
}

// Adds to the list what the texts have more.
fn adopt(list: &mut Vec<Arc<EpochText>>, texts: &[Arc<EpochText>]) -> Result<(), OutOfMemory>
    requires { StartsWith (texts_of texts.now) (texts_of list.old.items) }
    ensures all { IfOk result (λ _. texts_of list.new.items ≡ texts_of texts.now) }
    ensures grows { StartsWith (texts_of list.new.items) (texts_of list.old.items)
        × StartsWith (texts_of texts.now) (texts_of list.new.items) }
{
    for i in list.len()..texts.len() {
        list.push(Arc::try_clone(&texts[i])?)?;
    }
    Ok(())
}

// Whether the texts go on from the list by this one.
fn comes_next(list: &Vec<Arc<EpochText>>, texts: &[Arc<EpochText>], text: &EpochText) -> bool
    requires { StartsWith (texts_of texts.now) (texts_of list.now.items) }
    ensures { IsTrue result → StartsWith (texts_of texts.now) (texts_of list.now.items ++ contents_of text.now ∷ []) }
{
    let next = list.len();
    next < texts.len() && text.says_as(&texts[next])
}

impl Reader {
    /// The text of an epoch, counted from 1. The reader reads what is published, adds what is new to its texts, and answers from these. Where the board is gone it answers from the texts that it has. It never waits.
    ///
    /// # Errors
    ///
    /// `NotClosed` where the reader then has `count` texts and `count` is below the epoch's number. `OutOfMemory` where there is no memory for what is new.
    pub fn epoch(&mut self, epoch: u64) -> Result<Arc<EpochText>, EpochRefusal>
        requires { 1 ≤ epoch }
        ensures grows { StartsWith self.new.texts self.old.texts }
        ensures met { self.new.met ≡ self.old.met }
        ensures text { IfOk result (λ t. slice_get self.new.texts (epoch - 1) ≡ Some (arc_contents t)) }
        ensures not_closed { IfErr result (λ e. (c : ℕ) → e ≡ NotClosed c → (c ≡ length self.new.texts) × (c < epoch)) }
    {
        let done = self.refresh();
        if done.is_err() && (self.list.len() as u64) < epoch {
            return Err(EpochRefusal::OutOfMemory);
        }
        self.listed(epoch)
    }

    /// The text of an epoch, counted from 1, among those that the reader has. It looks at no board.
    ///
    /// # Errors
    ///
    /// `NotClosed` where the reader has `count` texts and `count` is below the epoch's number. `OutOfMemory` where there is no memory for the answer.
    pub fn listed(&self, epoch: u64) -> Result<Arc<EpochText>, EpochRefusal>
        requires { 1 ≤ epoch }
        ensures text { IfOk result (λ t. slice_get self.now.texts (epoch - 1) ≡ Some (arc_contents t)) }
        ensures not_closed { IfErr result (λ e. (c : ℕ) → e ≡ NotClosed c → (c ≡ length self.now.texts) × (c < epoch)) }
        ensures closed { length self.now.texts < epoch → result ≡ Err (NotClosed (length self.now.texts)) }
    {
        let count = self.list.len() as u64;
        if epoch > count {
            return Err(EpochRefusal::NotClosed { count });
        }
        match Arc::try_clone(&self.list[(epoch - 1) as usize]) {
            Ok(text) => Ok(text),
            Err(_) => Err(EpochRefusal::OutOfMemory),
        }
    }

    // Reads what is published, and adds what is new.
    pub(crate) fn refresh(&mut self) -> Result<(), OutOfMemory>
        ensures grows { StartsWith self.new.texts self.old.texts }
        ensures met { self.new.met ≡ self.old.met }
    {
        replace_with(self, (), |reader: Reader, _: ()| reader.read())
    }

    fn read(self) -> (Reader, Result<(), OutOfMemory>)
        ensures grows { StartsWith result.0.texts self.texts }
        ensures met { result.0.met ≡ self.met }
    {
        let Reader {
            place,
            mut list,
            met,
        } = self;
        match place.enter_as::<See>() {
            Ok(reading) => {
                let done = adopt(&mut list, reading.get().texts.as_slice());
                let place = reading.leave();
                (Reader { place, list, met }, done)
            }
            Err(place) => (Reader { place, list, met }, Ok(())),
        }
    }

    // Room for one text more.
    pub(crate) fn reserve_one(&mut self) -> Result<(), OutOfMemory>
        ensures same { (self.new.texts ≡ self.old.texts) × (self.new.met ≡ self.old.met) }
        ensures room { IfOk result (λ _. length self.new.texts < self.new.room) }
    {
        self.list.reserve(1)
    }

    // Reads what is published, and adds the text where it is the one that is new. If not, it comes back.
    pub(crate) fn take_in(&mut self, text: Arc<EpochText>) -> Option<Arc<EpochText>>
        requires { length self.old.texts < self.old.room }
        ensures { MatchOption result (self.new.texts ≡ self.old.texts ++ arc_contents text ∷ []) (λ back. (self.new ≡ self.old) × (back ≡ text)) }
    {
        replace_with(self, text, |reader: Reader, text: Arc<EpochText>| {
            reader.read_one(text)
        })
    }

    fn read_one(self, text: Arc<EpochText>) -> (Reader, Option<Arc<EpochText>>)
        requires { length self.texts < self.room }
        ensures { MatchOption result.1 (result.0.texts ≡ self.texts ++ arc_contents text ∷ []) (λ back. (result.0 ≡ self) × (back ≡ text)) }
    {
        let Reader {
            place,
            mut list,
            met,
        } = self;
        match place.enter_as::<See>() {
            Ok(reading) => {
                let is_new = comes_next(&list, reading.get().texts.as_slice(), &text);
                let place = reading.leave();
                if is_new {
                    list.push_reserved(text);
                    return (Reader { place, list, met }, None);
                }
                (Reader { place, list, met }, Some(text))
            }
            Err(place) => (Reader { place, list, met }, Some(text)),
        }
    }

    // Notes that all its texts were found on the board.
    pub(crate) fn mark_met(&mut self)
        ensures { self.new ≡ record self.old { met = self.old.texts } }
    {
        self.met = self.list.len();
    }
}
