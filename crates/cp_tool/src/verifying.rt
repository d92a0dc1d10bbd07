//! The command `verify`.
ghost use Rattle.std.specs.Prelude.{◌≡◌, ◌≤◌};
ghost use Rattle.cp_tool.specs.Runs.{VerifyEnds, files_of, verified};
ghost use Rattle.cp_endings.specs.View.{ending_view};

use crate::judging::KEY_LIMIT;
use cp_endings::{Ending, input};
use cp_outside::Folder;
use lms_tree::{PublicKey, verify};
use std::alloc::Global;

/// The most bytes of a text file: 1 MiB.
const TEXT_LIMIT: u64 = 1_048_576;

/// The most bytes of a signature file: 16 KiB.
const SIGNATURE_LIMIT: u64 = 16_384;

// What the three files are.
fn verified<'a>(key: &[u8], text: &[u8], signature: &[u8]) -> Ending<'a>
    ensures { ending_view result ≡ verified key.now text.now signature.now }
{
    let Ok(key) = PublicKey::read(key) else {
        return Ending::BadKey;
    };
    if verify(&key, text, signature) {
        Ending::Valid
    } else {
        Ending::Invalid
    }
}

// Whether the signature of the text verifies under the key.
pub(crate) fn run_verify<'a, F: Folder>(
    alloc: Global,
    files: &mut F,
    key: &'a str,
    text: &'a str,
    signature: &'a str,
) -> Ending<'a>
    ensures ends { VerifyEnds key.entry.now text.entry.now signature.entry.now
        (files_of F.Folder files.old)
        (files_of F.Folder files.new) (ending_view result) }
    ensures tells { F.tells files.new ≡ F.tells files.old }
    ensures read_count { F.read_faults files.old ≤ F.read_faults files.new }
    ensures unwritten { F.write_faults files.new ≡ F.write_faults files.old }
{
    let key = match input(alloc, files, key, KEY_LIMIT) {
        Ok(key) => key,
        Err(ending) => return ending,
    };
    let text = match input(alloc, files, text, TEXT_LIMIT) {
        Ok(text) => text,
        Err(ending) => return ending,
    };
    let signature = match input(alloc, files, signature, SIGNATURE_LIMIT) {
        Ok(signature) => signature,
        Err(ending) => return ending,
    };
    verified(key.as_slice(), text.as_slice(), signature.as_slice())
}
