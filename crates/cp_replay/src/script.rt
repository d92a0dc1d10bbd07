//! Scripts.
ghost use Rattle.std.specs.Prelude.{◌≡◌, ◌++◌, ◌∷◌, [], Ok, OnOk, IfOk, IfErr};
ghost use Rattle.cp_replay.specs.Script.{ScriptFits, script_of};
ghost use Rattle.cp_replay.specs.View.{IsWhyRefused};

use crate::reading::take_line;
use crate::{Line, OutOfMemory, ScriptRefusal};
use std::alloc::Global;
use std::marker::Model;

// The most lines of a script.
const MOST_LINES: usize = 1000;

// Appends a line.
fn add(lines: &mut Vec<Line>, line: Line) -> Result<(), OutOfMemory>
    ensures { OnOk result (lines.new.items ≡ lines.old.items ++ line ∷ []) }
{
    lines.push(line)?;
    Ok(())
}

/// The lines of a script, at most 1,000, which contracts see as a list.
#[derive(Debug, Drop)]
pub struct Script {
    lines: Vec<Line>,
}

impl Model for Script {
    ghost use Rattle.std.specs.Prelude.{List};
    ghost use Rattle.cp_replay.specs.Script.{ScriptFits};
    ghost use Rattle.cp_replay.specs.declared.line.Line.{Line};

    ghost Value = { List Line };

    ghost view = { λ s. s.lines.items };

    ghost invariant = { λ s. ScriptFits s.lines.items };
}

impl Script {
    /// The script that all of the bytes spell: at most 1,000 lines, each ended by a line feed, its
    /// words parted by one space (this project's own):
    /// `put CLIENT BLOCK NONCE VERSION CONTENT`, `get CLIENT BLOCK NONCE`, `close`,
    /// `close without CLIENT`, `at EPOCH`. Numbers are decimal in the range of their field (a client
    /// has four bytes, the others eight, and an epoch is at least 1), without a sign and without
    /// leading zeros. CONTENT is 1 to 65,536 printable ASCII characters without space.
    ///
    /// `Malformed` names the offset of the first byte of the first line that is none of these; a
    /// thousand-and-first line is such a line, as are bytes behind the last line feed.
    #[tactic(auto, using(crate::proofs::Lines::lines), unfolding(crate::specs::Script::script_of))]
    pub fn read(alloc: Global, bytes: &[u8]) -> Result<Script, ScriptRefusal>
        ensures read { IfOk result (λ script. script_of bytes.now ≡ Ok script) }
        ensures refused { IfErr result (λ refusal. IsWhyRefused bytes.now refusal) }
    {
        let mut lines = Vec::new(alloc);
        let mut rest = bytes;
        while !rest.is_empty() {
            let at = (bytes.len() - rest.len()) as u64;
            if lines.len() == MOST_LINES {
                return Err(ScriptRefusal::Malformed { at });
            }
            let Some(line) = take_line(alloc, &mut rest)? else {
                return Err(ScriptRefusal::Malformed { at });
            };
            add(&mut lines, line)?;
        }
        Ok(Script { lines })
    }

    /// The lines.
    pub fn lines(&self) -> &[Line]
        ensures lines { result.now ≡ self.now }
        ensures fits { ScriptFits self.now }
    {
        self.lines.as_slice()
    }
}
