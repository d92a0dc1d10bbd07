//! What the store signs of an epoch.
ghost use Rattle.std.specs.Prelude.{◌≡◌};
ghost use Rattle.cp_statements.specs.Closing.{closing_of, closing_text};
ghost use Rattle.cp_statements.specs.Reading.{Reads};
ghost use Rattle.cp_statements.specs.View.{closing_view};

use crate::pieces::joined;
use crate::{Malformed, take_epoch, take_tag};
use cp_bytes::Cut;

/// The text that the store signs of each closed epoch (this project's own).
#[derive(Clone, Copy, Debug, PartialEq, Eq)]
pub struct Closing {
    /// SHA-256 of the store's key.
    pub store: [u8; 32],
    /// The epoch that was closed. At least 1 in a text: epoch 0 has a text that no reader takes.
    pub epoch: u64,
    /// SHA-256 of the closing text of the epoch before; 32 zero bytes in epoch 1.
    pub link: [u8; 32],
    /// SHA-256 of the families text.
    pub families: [u8; 32],
    /// SHA-256 of the table text.
    pub table: [u8; 32],
    /// The number of rows of the table.
    pub rows: u64,
    /// The number of entries of all blocks up to the epoch's end.
    pub entries: u64,
}

impl Closing {
    /// The closing that all of the bytes spell.
    #[tactic(auto, unfolding(crate::specs::Closing::closing_of, cp_bytes::specs::Fields::read_fields, cp_bytes::specs::Fields::fields_at))]
    pub fn read(bytes: &[u8]) -> Result<Closing, Malformed>
        ensures { Reads closing_view result (closing_of bytes.now) }
    {
        let mut cut = Cut::new(bytes);
        take_tag(&mut cut, b"CPc1")?;
        let store = cut.array32()?;
        let epoch = take_epoch(&mut cut)?;
        let link = cut.array32()?;
        let families = cut.array32()?;
        let table = cut.array32()?;
        let rows = cut.be_u64()?;
        let entries = cut.be_u64()?;
        cut.end()?;
        Ok(Closing {
            store,
            epoch,
            link,
            families,
            table,
            rows,
            entries,
        })
    }

    /// Its text of 156 bytes.
    #[tactic(auto, unfolding(crate::specs::Closing::closing_text, cp_bytes::specs::Fields::spell))]
    pub fn text(&self) -> [u8; 156]
        ensures { result ≡ closing_text (closing_view self.now) }
    {
        joined(&[
            b"CPc1",
            &self.store,
            &self.epoch.to_be_bytes(),
            &self.link,
            &self.families,
            &self.table,
            &self.rows.to_be_bytes(),
            &self.entries.to_be_bytes(),
        ])
    }
}
