//! An order to close an epoch.
ghost use Rattle.std.specs.Prelude.{◌≡◌};
ghost use Rattle.cp_statements.specs.CloseOrder.{close_order_of, close_order_text};
ghost use Rattle.cp_statements.specs.Reading.{Reads};
ghost use Rattle.cp_statements.specs.View.{close_order_view};

use crate::pieces::joined;
use crate::{Malformed, take_epoch, take_tag};
use cp_bytes::Cut;

/// The text by which an epoch is ordered to be closed (this project's own).
#[derive(Clone, Copy, Debug, PartialEq, Eq)]
pub struct CloseOrder {
    /// SHA-256 of the store's key.
    pub store: [u8; 32],
    /// The epoch to close. At least 1 in a text: epoch 0 has a text that no reader takes.
    pub epoch: u64,
}

impl CloseOrder {
    /// The close order that all of the bytes spell.
    #[tactic(auto, unfolding(crate::specs::CloseOrder::close_order_of, cp_bytes::specs::Fields::read_fields, cp_bytes::specs::Fields::fields_at))]
    pub fn read(bytes: &[u8]) -> Result<CloseOrder, Malformed>
        ensures { Reads close_order_view result (close_order_of bytes.now) }
    {
        let mut cut = Cut::new(bytes);
        take_tag(&mut cut, b"CPo1")?;
        let store = cut.array32()?;
        let epoch = take_epoch(&mut cut)?;
        cut.end()?;
        Ok(CloseOrder { store, epoch })
    }

    /// Its text of 44 bytes.
    #[tactic(auto, unfolding(crate::specs::CloseOrder::close_order_text, cp_bytes::specs::Fields::spell))]
    pub fn text(&self) -> [u8; 44]
        ensures { result ≡ close_order_text (close_order_view self.now) }
    {
        joined(&[b"CPo1", &self.store, &self.epoch.to_be_bytes()])
    }
}
