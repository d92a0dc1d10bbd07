//! Steps of closings through the plain machine.
ghost use Rattle.std.specs.Prelude.{IfSome};
ghost use Rattle.cp_core.specs.Machine.{Admissible};
ghost use Rattle.cp_core.specs.Store.{Store};

use cp_core::{Core, Event};
use cp_families::Families;
use std::alloc::{AllocError, Global};

// A families list without a row.
const FAMILIES: [u8; 8] = *b"CPf1\0\0\0\0";

// The step that a word with a number behind it says.
fn numbered_step(word: &str, number: &str) -> Option<Event>
    ensures { IfSome result (λ event. (s : Store) → Admissible s event) }
{
    match word {
        "freeze" => {
            let shard = number.parse::<u32>().ok()?;
            if shard < 16 {
                return Some(Event::Freeze { shard });
            }
            None
        }
        "read" => {
            let epoch = number.parse::<u64>().ok()?;
            if epoch >= 1 {
                return Some(Event::Read { epoch });
            }
            None
        }
        _ => None,
    }
}

// The step that a line says.
fn step_of(line: &str) -> Option<Event>
    ensures { IfSome result (λ event. (s : Store) → Admissible s event) }
{
    match line {
        "begin" => Some(Event::Begin { next: None }),
        "seal" => Some(Event::Seal),
        "publish" => Some(Event::Publish),
        _ => {
            let (word, number) = line.split_once(' ')?;
            numbered_step(word, number)
        }
    }
}

// The answer to a line, as a line says it.
fn answer(alloc: Global, core: &mut Core, line: &str) -> Result<String, AllocError> {
    let Some(event) = step_of(line) else {
        return String::from_str(alloc, "no step\n");
    };
    let answer = core.step(alloc, event)?;
    format!(in alloc; "{answer:?}\n")
}

/// What a store with 28 leaves for attestations and 4 for closings answers to the lines.
pub fn answers(alloc: Global, lines: &str) -> Result<String, AllocError> {
    let mut answers = String::new(alloc);
    if Families::read(&FAMILIES).is_err() {
        return Ok(answers);
    }
    let families = Vec::from_slice(alloc, &FAMILIES)?;
    let mut core = Core::new(alloc, [7; 32], families, 28, 4)?;
    for line in lines.lines() {
        let answer = answer(alloc, &mut core, line)?;
        answers.push_str(answer.as_str())?;
    }
    Ok(answers)
}
