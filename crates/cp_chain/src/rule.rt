//! The rules of a segment.
ghost use Rattle.std.specs.Prelude.{◌≡◌, option_map};
ghost use Rattle.cp_chain.specs.Rules.{number_of, rule_of};
ghost use Rattle.cp_chain.specs.View.{rule_view};

/// A rule that each text of a legal segment keeps, or the segment as a whole (this project's own).
#[derive(Clone, Copy, Debug, PartialEq, Eq)]
pub enum Rule {
    /// 1: the text is an entry.
    Text,
    /// 2: it is of the segment's block.
    Block,
    /// 3: it is of the segment's epoch.
    Epoch,
    /// 4: its position is its place behind the entries before the segment.
    Position,
    /// 5: a get has the version and the content hash of the latest put before it.
    Latest,
    /// 6: a put has the version after that of the latest put before it.
    Version,
    /// 7: an authorized writer signed the put request that a put answers.
    Writer,
    /// 8: no entry before it in the segment has its client and nonce.
    Repeat,
    /// 9: the latest put at the segment's end is that of the tip after it.
    LastTip,
}

impl Rule {
    /// Its number, from 1 to 9. Of two rules that are broken at one place the lesser comes first.
    pub fn number(self) -> u8
        ensures { result ≡ number_of (rule_view self) }
    {
        match self {
            Rule::Text => 1,
            Rule::Block => 2,
            Rule::Epoch => 3,
            Rule::Position => 4,
            Rule::Latest => 5,
            Rule::Version => 6,
            Rule::Writer => 7,
            Rule::Repeat => 8,
            Rule::LastTip => 9,
        }
    }

    /// The rule of this number; none exactly where it isn't from 1 to 9.
    pub fn of(number: u64) -> Option<Rule>
        ensures { option_map rule_view result ≡ rule_of number }
    {
        match number {
            1 => Some(Rule::Text),
            2 => Some(Rule::Block),
            3 => Some(Rule::Epoch),
            4 => Some(Rule::Position),
            5 => Some(Rule::Latest),
            6 => Some(Rule::Version),
            7 => Some(Rule::Writer),
            8 => Some(Rule::Repeat),
            9 => Some(Rule::LastTip),
            _ => None,
        }
    }
}
