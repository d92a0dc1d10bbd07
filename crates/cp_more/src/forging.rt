//! The command `forgery`.
ghost use Rattle.std.specs.Prelude.{◌≡◌, ◌⊎◌, ◌≤◌, length};
ghost use Rattle.cp_commands.specs.View.{forgery_words_view};
ghost use Rattle.cp_endings.specs.Endings.{no_memory};
ghost use Rattle.cp_endings.specs.Folders.{files_of};
ghost use Rattle.cp_endings.specs.ThreeInputs.{three_view};
ghost use Rattle.cp_endings.specs.View.{ending_view};
ghost use Rattle.cp_more.specs.Forging.{EndsAs, ForgeryEnds, forgery_in, of_list, witnessed};

use crate::list::{ListRefusal, add_all};
use crate::seeds::{SEED_LENGTH, part, workers};
use cp_commands::ForgeryWords;
use cp_endings::{
    Ending, Input, MoreEnding, SIGNATURE_LIMIT, SIGNED_TEXT_LIMIT, ThreeFiles, input, three_inputs,
};
use cp_outside::Folder;
use lms_forge::{ForgeryRefusal, Signed, Witness};
use lms_tree::PrivateKey;
use std::alloc::Global;
use std::thread::Threads;

// The most bytes of a list of envelopes: 64 MiB.
const SIGNED_LIMIT: u64 = 67_108_864;

// What is printed of a witness.
fn witnessed<'a>(witness: Witness) -> Ending<'a>
    ensures { ending_view result ≡ witnessed witness }
{
    match witness {
        Witness::Twins { .. } => Ending::More(MoreEnding::Twins),
        Witness::Low {
            leaf,
            chain,
            step,
            revealed,
            ..
        } => Ending::More(MoreEnding::Low {
            leaf,
            chain,
            step,
            revealed,
        }),
    }
}

// What the signature of the text is beside what the key signed.
fn found<'a>(alloc: Global, key: &PrivateKey, files: &ThreeFiles) -> Ending<'a>
    ensures { EndsAs (ending_view result) (of_list key.now (three_view files.now)) }
{
    let mut signed = Signed::new(alloc, key);
    match add_all(alloc, &mut signed, key.leaves(), files.first.as_slice()) {
        Ok(()) => {}
        Err(ListRefusal::Malformed { at }) => return Ending::Malformed { at },
        Err(ListRefusal::LeafUsed { leaf }) => return Ending::More(MoreEnding::LeafUsed { leaf }),
        Err(ListRefusal::OutOfMemory) => return Ending::NoMemory,
    }
    match signed.forgery(alloc, files.second.as_slice(), files.third.as_slice()) {
        Ok(witness) => witnessed(witness),
        Err(ForgeryRefusal::Invalid) => Ending::More(MoreEnding::NotForgedInvalid),
        Err(ForgeryRefusal::Known) => Ending::More(MoreEnding::NotForgedKnown),
        Err(ForgeryRefusal::OutOfMemory) => Ending::NoMemory,
    }
}

// The same of the key of a seed file.
fn forged<'a, R: Threads + Sync>(
    rt: &R,
    alloc: Global,
    words: &ForgeryWords<'_>,
    seed: &[u8],
    files: &ThreeFiles,
) -> Ending<'a>
    requires { length seed.now ≤ 48 }
    ensures { EndsAs (ending_view result)
        (forgery_in (forgery_words_view words.now) seed.now (three_view files.now)) }
{
    if seed.len() < SEED_LENGTH as usize {
        return Ending::ShortSeed;
    }
    match PrivateKey::make_by(
        rt,
        alloc,
        workers(rt),
        part::<32>(seed, 0),
        part::<16>(seed, 32),
        words.height,
        words.ots,
    ) {
        Ok(key) => found(alloc, &key, files),
        Err(_) => Ending::NoMemory,
    }
}

/// Does what the words of `forgery` say, up to the printed line: what must have failed where the
/// signature of the text verifies under the key of the seed and isn't one of those that the key
/// made. No file is written.
pub fn run_forgery<'a, R: Threads + Sync, F: Folder>(
    rt: &R,
    alloc: Global,
    files: &mut F,
    words: ForgeryWords<'a>,
) -> Ending<'a>
    ensures ends { ForgeryEnds (forgery_words_view words.entry)
        (files_of F.Folder files.old)
        (files_of F.Folder files.new) (ending_view result) }
    ensures tells { F.tells files.new ≡ F.tells files.old }
    ensures read_count { F.read_faults files.old ≤ F.read_faults files.new }
    ensures unwritten { F.write_faults files.new ≡ F.write_faults files.old }
{
    let seed = match input(alloc, files, words.seed, SEED_LENGTH) {
        Ok(seed) => seed,
        Err(ending) => return ending,
    };
    let signed = Input {
        name: words.signed,
        limit: SIGNED_LIMIT,
    };
    let text = Input {
        name: words.text,
        limit: SIGNED_TEXT_LIMIT,
    };
    let signature = Input {
        name: words.signature,
        limit: SIGNATURE_LIMIT,
    };
    let inputs = match three_inputs(alloc, files, signed, text, signature) {
        Ok(inputs) => inputs,
        Err(ending) => return ending,
    };
    forged(rt, alloc, &words, seed.as_slice(), &inputs)
}
