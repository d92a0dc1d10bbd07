//! Finding a file in a log.
ghost use Rattle.std.specs.Prelude.{◌≡◌, None, length, IfSome, All};
ghost use Rattle.std.specs.Option.{option_map};
ghost use Rattle.cp_outside.specs.Entries.{IsWithin, content_in, writes_in};
ghost use Rattle.cp_outside.specs.MemFolders.{file_after};

use crate::entries::Entry;

// The last entry of a name.
#[tactic(auto, unfolding(crate::specs::MemFolders::file_after))]
pub(crate) fn find(entries: &[Entry], bytes: &[u8], name: &str) -> Option<Entry>
    requires { All (IsWithin (length bytes.now)) entries.now }
    ensures content { option_map (content_in bytes.now) result
        ≡ file_after None (writes_in bytes.now entries.now) name.now }
    ensures within { IfSome result (IsWithin (length bytes.now)) }
{
    let mut found = None;
    for entry in entries {
        if &bytes[entry.start..entry.middle] == name.as_bytes() {
            found = Some(*entry);
        }
    }
    found
}
