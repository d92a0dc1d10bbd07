//! An order to close an epoch that hands in the next epoch's families list.
ghost use Rattle.std.specs.Prelude.{◌≡◌};
ghost use Rattle.cp_statements.specs.CloseOrder2.{close_order2_of, close_order2_text};
ghost use Rattle.cp_statements.specs.Reading.{Reads};
ghost use Rattle.cp_statements.specs.View.{close_order2_view};

use crate::pieces::joined;
use crate::{Malformed, take_epoch, take_tag};
use cp_bytes::Cut;

/// The text by which an epoch is ordered to be closed, with the families list that holds from the next
/// epoch on (this project's own).
#[derive(Clone, Copy, Debug, PartialEq, Eq)]
pub struct CloseOrder2 {
    /// SHA-256 of the store's key.
    pub store: [u8; 32],
    /// The epoch to close. At least 1 in a text: epoch 0 has a text that no reader takes.
    pub epoch: u64,
    /// SHA-256 of the text of the next epoch's families list.
    pub families: [u8; 32],
}

impl CloseOrder2 {
    /// The close order that all of the bytes spell.
    #[tactic(auto, unfolding(crate::specs::CloseOrder2::close_order2_of, cp_bytes::specs::Fields::read_fields, cp_bytes::specs::Fields::fields_at))]
    pub fn read(bytes: &[u8]) -> Result<CloseOrder2, Malformed>
        ensures { Reads close_order2_view result (close_order2_of bytes.now) }
    {
        let mut cut = Cut::new(bytes);
        take_tag(&mut cut, b"CPo2")?;
        let store = cut.array32()?;
        let epoch = take_epoch(&mut cut)?;
        let families = cut.array32()?;
        cut.end()?;
        Ok(CloseOrder2 {
            store,
            epoch,
            families,
        })
    }

    /// Its text of 76 bytes.
    #[tactic(auto, unfolding(crate::specs::CloseOrder2::close_order2_text, cp_bytes::specs::Fields::spell))]
    pub fn text(&self) -> [u8; 76]
        ensures { result ≡ close_order2_text (close_order2_view self.now) }
    {
        joined(&[
            b"CPo2",
            &self.store,
            &self.epoch.to_be_bytes(),
            &self.families,
        ])
    }
}
