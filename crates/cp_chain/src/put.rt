//! The latest put of a block.
ghost use Rattle.std.specs.Prelude.{◌≡◌, take, unwrap_or};
ghost use Rattle.cp_statements.specs.View.{entry_view};
ghost use Rattle.cp_tips.specs.View.{tip_view};
ghost use Rattle.cp_chain.specs.Legal.{put_at, put_by, put_in, put_read, same_put, latest};
ghost use Rattle.cp_chain.specs.View.{put_view};

use crate::Segment;
use cp_statements::{Entry, Kind};
use cp_tips::Tip;

/// A version and its content's hash.
#[derive(Clone, Copy)]
pub(crate) struct Put {
    pub(crate) version: u64,
    pub(crate) content: [u8; 32],
}

impl Put {
    /// The one that a tip has.
    pub(crate) fn at(tip: &Tip) -> Put
        ensures { put_view result ≡ put_at (tip_view tip.now) }
    {
        Put {
            version: tip.version,
            content: tip.content,
        }
    }

    /// The one that an entry has.
    pub(crate) fn by(entry: &Entry) -> Put
        ensures { put_view result ≡ put_by (entry_view entry.now) }
    {
        Put {
            version: entry.version,
            content: entry.content,
        }
    }

    /// Whether both are the same.
    pub(crate) fn is(&self, other: &Put) -> bool
        ensures { result ≡ same_put (put_view self.now) (put_view other.now) }
    {
        self.version == other.version && self.content == other.content
    }

    /// The latest put behind one more entry: its own where it is a put's.
    pub(crate) fn behind_entry(self, entry: &Entry) -> Put
        ensures { put_view result ≡ unwrap_or (put_read (Ok (entry_view entry.now))) (put_view self) }
    {
        match entry.kind {
            Kind::Put => Put::by(entry),
            Kind::Get => self,
        }
    }

    /// The latest put behind one more text: that of its entry, where it is one.
    pub(crate) fn behind(self, text: &[u8]) -> Put
        ensures { put_view result ≡ unwrap_or (put_in text.now) (put_view self) }
    {
        match Entry::read(text) {
            Ok(entry) => self.behind_entry(&entry),
            Err(_) => self,
        }
    }

    /// The latest put behind the first `n` texts of a segment.
    pub(crate) fn latest(before: &Tip, segment: &Segment, n: u64) -> Put
        ensures { put_view result ≡ latest (put_at (tip_view before.now)) (take n segment.now) }
    {
        let mut latest = Put::at(before);
        for text in segment.texts().take(n as usize) {
            latest = latest.behind(text);
        }
        latest
    }
}
