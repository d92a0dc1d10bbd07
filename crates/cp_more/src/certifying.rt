//! The command `certify`.
ghost use Rattle.std.specs.Prelude.{◌≡◌, ◌≢◌, ◌≤◌, ℕ, List, length};
ghost use Rattle.cp_commands.specs.View.{certify_words_view};
ghost use Rattle.cp_endings.specs.Folders.{files_of};
ghost use Rattle.cp_endings.specs.View.{ending_view};
ghost use Rattle.cp_more.specs.Certifying.{CertifyEnds, KeepsButLife, WritesLife};
ghost use Rattle.cp_more.specs.CertifyingCode.{MakesLife, made_view};

use crate::seeds::{SEED_LENGTH, part, workers};
use cp_commands::CertifyWords;
use cp_endings::{Ending, MoreEnding, input};
use cp_outside::Folder;
use lms_hss::HssPrivate;
use std::alloc::Global;
use std::thread::Threads;

// What is written of a life: the operator's key, the life's certificate and its seed.
#[derive(Drop)]
struct Made {
    key: [u8; 60],
    certificate: Vec<u8>,
    seed: [u8; 48],
}

// What the operator's seed makes of a life.
fn make_life<'a, R: Threads + Sync>(
    rt: &R,
    alloc: Global,
    words: &CertifyWords<'_>,
    seed: &[u8],
) -> Result<Made, Ending<'a>>
    requires { length seed.now ≤ 48 }
    ensures { MakesLife (certify_words_view words.now) seed.now result }
{
    if seed.len() < SEED_LENGTH as usize {
        return Err(Ending::ShortSeed);
    }
    let operator = match HssPrivate::make_by(
        rt,
        alloc,
        workers(rt),
        part::<32>(seed, 0),
        part::<16>(seed, 32),
        words.top,
        words.height,
        words.ots,
    ) {
        Ok(operator) => operator,
        Err(_) => return Err(Ending::NoMemory),
    };
    match operator.certificate_by(rt, alloc, workers(rt), words.life) {
        Ok(certificate) => Ok(Made {
            key: operator.public(),
            certificate,
            seed: operator.life_seed(words.life),
        }),
        Err(_) => Err(Ending::NoMemory),
    }
}

// Writes the three files, one after another.
fn write_life<'a, F: Folder>(files: &mut F, words: &CertifyWords<'_>, made: &Made) -> Ending<'a>
    ensures ends { WritesLife (certify_words_view words.now) (made_view made.now)
        (files_of F.Folder files.old)
        (files_of F.Folder files.new) (ending_view result) }
    ensures others { KeepsButLife (certify_words_view words.now)
        (files_of F.Folder files.old)
        (files_of F.Folder files.new) }
    ensures tells { F.tells files.new ≡ F.tells files.old }
    ensures unread { F.read_faults files.new ≡ F.read_faults files.old }
    ensures write_count { F.write_faults files.old ≤ F.write_faults files.new }
{
    match files.write(words.key, &made.key) {
        Ok(()) => {}
        Err(_) => return Ending::Fault,
    }
    match files.write(words.certificate, made.certificate.as_slice()) {
        Ok(()) => {}
        Err(_) => return Ending::Fault,
    }
    match files.write(words.out, &made.seed) {
        Ok(()) => Ending::More(MoreEnding::Certified { life: words.life }),
        Err(_) => Ending::Fault,
    }
}

/// Does what the words of `certify` say, up to the printed line: writes the operator's key, the
/// life's certificate and the life's seed. The trees of the operator and of the life are made by
/// all processors. The operator's seed is written nowhere.
pub fn run_certify<'a, R: Threads + Sync, F: Folder>(
    rt: &R,
    alloc: Global,
    files: &mut F,
    words: CertifyWords<'a>,
) -> Ending<'a>
    ensures ends { CertifyEnds (certify_words_view words.entry)
        (files_of F.Folder files.old)
        (files_of F.Folder files.new) (ending_view result) }
    ensures tells { F.tells files.new ≡ F.tells files.old }
    ensures read_count { F.read_faults files.old ≤ F.read_faults files.new }
    ensures write_count { F.write_faults files.old ≤ F.write_faults files.new }
{
    let seed = match input(alloc, files, words.seed, SEED_LENGTH) {
        Ok(seed) => seed,
        Err(ending) => return ending,
    };
    let made = match make_life(rt, alloc, &words, seed.as_slice()) {
        Ok(made) => made,
        Err(ending) => return ending,
    };
    write_life(files, &words, &made)
}
