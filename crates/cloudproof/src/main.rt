//! The program `cloudproof`: the words after its name, the current folder, the file `leaves.vault`
//! there and standard output, handed to `run`. What no contract says stands here alone: `--help`
//! and `--version`, and what goes to standard error.
#![tactic(auto)]

mod kept_line;
mod usage;

use crate::kept_line::KeptLine;
use crate::usage::{HELP, VERSION, usage_of};
use cp_outside::{DirFolder, FileDisk, Sink, StdSink, put_all};
use cp_tool::run;
use std::process::ExitCode;
use std::{env, io};

// The words after the program's name.
fn words_of(rt: &HostRuntime) -> io::Result<Vec<String>> {
    let mut words = Vec::new(rt.alloc());
    for word in env::args(rt)?.skip(1) {
        words.push(word)?;
    }
    Ok(words)
}

// The text for the only word, where it asks for the program's help or its version.
fn told(words: &[String]) -> Option<&'static str> {
    match words {
        [word] if word.as_str() == "--help" => Some(HELP),
        [word] if word.as_str() == "--version" => Some(VERSION),
        _ => None,
    }
}

// Prints a text, and answers the status, or 4 where it can't be written.
fn printed<S: Sink>(out: &mut S, text: &str, status: u8) -> u8 {
    match put_all(out, text.as_bytes()) {
        Ok(()) => status,
        Err(_) => 4,
    }
}

// Says on standard error what was wrong: the usage of the command that the first word names, or of
// all, or else the printed line.
fn explain(rt: &HostRuntime, words: &[String], line: &str, status: u8) {
    let _said = match words {
        [name, ..] if status == 2 => match usage_of(name.as_str()) {
            Some(usage) => eprintln!(rt; "usage: cloudproof {usage}"),
            None => eprint!(rt; "{HELP}"),
        },
        [] if status == 2 => eprint!(rt; "{HELP}"),
        _ if status >= 3 => eprint!(rt; "cloudproof: {line}"),
        _ => Ok(()),
    };
}

fn main(rt: HostRuntime) -> ExitCode {
    let mut out = KeptLine::new(StdSink::new(io::writer(&rt)));
    let words = match words_of(&rt) {
        Ok(words) => words,
        Err(error) if error.kind() == io::ErrorKind::OutOfMemory => {
            let _unprinted = put_all(&mut out, b"no memory\n");
            return ExitCode::from(5);
        }
        // Words that can't be read aren't a command's.
        Err(_) => Vec::new(rt.alloc()),
    };
    if let Some(text) = told(words.as_slice()) {
        return ExitCode::from(printed(&mut out, text, 0));
    }
    let mut files = DirFolder::new(&rt);
    let mut vault = FileDisk::new(&rt, "leaves.vault");
    let status = run(
        &rt,
        rt.alloc(),
        words.as_slice(),
        &mut files,
        &mut vault,
        &mut out,
    );
    explain(&rt, words.as_slice(), out.text(), status);
    ExitCode::from(status)
}
