//! Why bytes aren't read as a script.

use cp_bytes::OutOfMemory;

/// Why bytes aren't read as a script.
#[derive(Clone, Copy, Debug, PartialEq, Eq)]
pub enum ScriptRefusal {
    /// The line whose first byte stands at the offset `at` is no line of a script.
    Malformed { at: u64 },
    /// Memory is wanted.
    OutOfMemory,
}

impl From<OutOfMemory> for ScriptRefusal {
    ghost use Rattle.std.specs.Prelude.{◌≡◌};
    ghost use Rattle.cp_replay.specs.declared.script_refusal.ScriptRefusal.TheVariants.{OutOfMemory as wants_memory};

    ghost from_gives = { λ _ result. result ≡ wants_memory };

    fn from(_error: OutOfMemory) -> ScriptRefusal {
        ScriptRefusal::OutOfMemory
    }
}
