//! What is published.
use crate::contents::Contents;
use crate::epoch_text::EpochText;
use left_right::Absorb;
use std::alloc::AllocError;
use std::sync::Arc;

/// The published texts, that of epoch 1 first.
#[derive(Drop)]
pub struct Published {
    pub texts: Vec<Arc<EpochText>>,
}

impl Absorb<Arc<EpochText>> for Published {
    ghost use Rattle.std.specs.Prelude.{[], ◌∷◌, ◌++◌};
    ghost use Rattle.cp_bulletin.specs.Texts.{texts_of, arc_contents};

    // A clause reads an array as a list, of any length.
    type State = [Contents; 0];

    ghost state = { λ s. texts_of s.texts.items };

    ghost applied = { λ xs a. xs ++ arc_contents a ∷ [] };

    fn absorb_first(
        &mut self,
        operation: &Arc<EpochText>,
        _other: &Published,
    ) -> Result<(), AllocError> {
        self.texts.reserve(1)?;
        self.texts.push_reserved(Arc::try_clone(operation)?);
        Ok(())
    }
}
