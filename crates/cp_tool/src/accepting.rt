//! The command `accept`.
ghost use Rattle.std.specs.Prelude.{◌≡◌, ◌≢◌, ◌≤◌, ◌-◌, ℕ, List, length, take};
ghost use Rattle.cp_bytes.specs.Fields.{IsBytes};
ghost use Rattle.cp_client.specs.View.{accepted_view};
ghost use Rattle.cp_tool.specs.ClientInputs.{GivesAccepted, WritesEnds};
ghost use Rattle.cp_endings.specs.ThreeInputs.{three_view};
ghost use Rattle.cp_tool.specs.ClientRuns.{AcceptEnds, acceptance_of};
ghost use Rattle.cp_commands.specs.View.{accept_words_view};
ghost use Rattle.cp_tool.specs.Runs.{files_of};
ghost use Rattle.cp_endings.specs.View.{ending_view};

use crate::judging::KEY_LIMIT;
use cp_client::{Accepted, Asked, ClientRefusal, accept};
use cp_commands::AcceptWords;
use cp_endings::{ClientEnding, Ending, Input, ThreeFiles, three_inputs};
use cp_outside::Folder;
use lms_tree::PublicKey;
use std::alloc::Global;

/// The most bytes of a request, and of a reply: 128 KiB.
const TEXT_LIMIT: u64 = 131_072;

// What is accepted of the store's key, the request and the reply.
#[tactic(auto, unfolding(crate::specs::ClientRuns::acceptance_of))]
fn accepted_in<'a, 'b>(files: &'a ThreeFiles) -> Result<Accepted<'a>, Ending<'b>>
    ensures { GivesAccepted result (acceptance_of (three_view files.now)) }
{
    let Ok(key) = PublicKey::read(files.first.as_slice()) else {
        return Err(Ending::BadKey);
    };
    let asked = match Asked::read(files.second.as_slice()) {
        Ok(asked) => asked,
        Err(malformed) => {
            let at = malformed.at;
            return Err(Ending::Client(ClientEnding::Refused(ClientRefusal::Malformed { at })));
        }
    };
    match accept(&key, &asked, files.third.as_slice()) {
        Ok(accepted) => Ok(accepted),
        Err(refusal) => Err(Ending::Client(ClientEnding::Refused(refusal))),
    }
}

// The bytes of the envelope at the front of a reply with this content behind it.
fn envelope_in<'a>(reply: &'a [u8], content: &[u8]) -> &'a [u8]
    ensures front { result.now ≡ take (length reply.now - length content.now) reply.now }
    ensures bytes { IsBytes reply.now }
{
    &reply[..reply.len().saturating_sub(content.len())]
}

// Writes the envelope, and then the content.
fn put_accepted<'a, F: Folder>(
    files: &mut F,
    envelope: &[u8],
    accepted: &Accepted<'_>,
    words: &AcceptWords<'_>,
) -> Ending<'a>
    ensures ends { WritesEnds (accept_words_view words.now) envelope.now (accepted_view accepted.now)
        (files_of F.Folder files.old)
        (files_of F.Folder files.new) (ending_view result) }
    ensures others { (name : List ℕ) → name ≢ words.now.out.now → name ≢ words.now.content.now → F.file files.new name ≡ F.file files.old name }
    ensures tells { F.tells files.new ≡ F.tells files.old }
    ensures unread { F.read_faults files.new ≡ F.read_faults files.old }
    ensures write_count { F.write_faults files.old ≤ F.write_faults files.new }
{
    match files.write(words.out, envelope) {
        Ok(()) => match files.write(words.content, accepted.content) {
            Ok(()) => Ending::Client(ClientEnding::Accepted(accepted.attestation)),
            Err(_) => Ending::Fault,
        },
        Err(_) => Ending::Fault,
    }
}

// Judges what the store answered, and keeps its envelope and its content.
pub(crate) fn run_accept<'a, F: Folder>(
    alloc: Global,
    files: &mut F,
    words: AcceptWords<'a>,
) -> Ending<'a>
    ensures ends { AcceptEnds (accept_words_view words.entry)
        (files_of F.Folder files.old)
        (files_of F.Folder files.new) (ending_view result) }
    ensures tells { F.tells files.new ≡ F.tells files.old }
    ensures read_count { F.read_faults files.old ≤ F.read_faults files.new }
    ensures write_count { F.write_faults files.old ≤ F.write_faults files.new }
{
    let store = Input {
        name: words.store,
        limit: KEY_LIMIT,
    };
    let request = Input {
        name: words.request,
        limit: TEXT_LIMIT,
    };
    let reply = Input {
        name: words.reply,
        limit: TEXT_LIMIT,
    };
    let inputs = match three_inputs(alloc, files, store, request, reply) {
        Ok(inputs) => inputs,
        Err(ending) => return ending,
    };
    let accepted = match accepted_in(&inputs) {
        Ok(accepted) => accepted,
        Err(ending) => return ending,
    };
    let envelope = envelope_in(inputs.third.as_slice(), accepted.content);
    put_accepted(files, envelope, &accepted, &words)
}
