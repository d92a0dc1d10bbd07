//! Puts and gets.
ghost use Rattle.std.specs.Prelude.{◌≡◌};
ghost use Rattle.cp_bytes.specs.Fields.{field_at};
ghost use Rattle.cp_bytes.specs.Fields.Field.{Kind as KindField};
ghost use Rattle.cp_statements.specs.Reading.{ReadsField};
ghost use Rattle.cp_statements.specs.View.{kind_byte};

use crate::Malformed;
use cp_bytes::Cut;

/// What an entry of a chain records. In the texts it is one byte.
#[derive(Clone, Copy, Debug, PartialEq, Eq)]
pub enum Kind {
    /// A writer's put: byte 1.
    Put,
    /// A get that was answered: byte 2.
    Get,
}

impl Kind {
    /// The byte that stands for it in the texts.
    pub fn byte(self) -> u8
        ensures { result ≡ kind_byte self }
    {
        match self {
            Kind::Put => 1,
            Kind::Get => 2,
        }
    }

    /// The kind that the next byte stands for. A byte but 1 and 2 is refused at its own offset, as is
    /// the end of the text.
    #[tactic(auto, unfolding(cp_bytes::specs::Fields::field_at))]
    pub fn take(cut: &mut Cut) -> Result<Kind, Malformed>
        ensures { ReadsField kind_byte cut.old cut.new result (field_at KindField cut.old.rest) }
    {
        let kind = match cut.rest() {
            [1, ..] => Kind::Put,
            [2, ..] => Kind::Get,
            _ => return Err(Malformed { at: cut.at() }),
        };
        cut.byte()?;
        Ok(kind)
    }
}
