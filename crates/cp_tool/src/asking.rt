//! The commands `ask-put` and `ask-get`.
ghost use Rattle.std.specs.Prelude.{◌≡◌, ◌≢◌, ◌+◌, ◌<◌, ◌≤◌, ℕ, List, Ok, false, MatchOption, IfSome, IsTrue, length};
ghost use Rattle.sha2.specs.Sha256.{sha256};
ghost use Rattle.lms_tree.specs.PublicKey.{key_reads};
ghost use Rattle.lms_tree.specs.Secret.{leaves_of, public_of};
ghost use Rattle.cp_statements.specs.GetRequest.{get_request_text};
ghost use Rattle.cp_statements.specs.View.{put_request_view};
ghost use Rattle.cp_tool.specs.ClientInputs.{JudgesPut};
ghost use Rattle.cp_endings.specs.ThreeInputs.{three_view};
ghost use Rattle.cp_tool.specs.ClientRuns.{AskGetEnds, get_request};
ghost use Rattle.cp_commands.specs.View.{call_words_view, get_words_view, put_words_view};
ghost use Rattle.cp_tool.specs.PutRuns.{AskPutEnds, LeafEnds};
ghost use Rattle.cp_tool.specs.Runs.{files_of, KeepsOthers};
ghost use Rattle.cp_more.specs.Seeds.{secret_in};
ghost use Rattle.cp_endings.specs.View.{ending_view};

use crate::drawing::{DrawnLeaf, draw_leaf};
use crate::judging::KEY_LIMIT;
use cp_bytes::digest;
use cp_client::ask_put;
use cp_commands::{CallWords, GetWords, PutWords};
use cp_endings::{ClientEnding, Ending, Input, ThreeFiles, input, three_inputs};
use cp_more::{SEED_LENGTH, part, workers};
use cp_outside::{Disk, Folder};
use cp_statements::{GetRequest, PutRequest};
use lms_ots::OtsType;
use lms_tree::{Height, PrivateKey, PublicKey};
use std::alloc::Global;
use std::thread::Threads;

/// The most bytes of a content: 64 KiB.
const CONTENT_LIMIT: u64 = 65_536;

// The store's id, where the seed has its length and the store's key reads.
fn judged<'a>(files: &ThreeFiles) -> Result<[u8; 32], Ending<'a>>
    ensures { JudgesPut (three_view files.now) result }
{
    if files.first.len() < SEED_LENGTH as usize {
        return Err(Ending::ShortSeed);
    }
    match PublicKey::read(files.second.as_slice()) {
        Ok(_) => Ok(digest(files.second.as_slice())),
        Err(_) => Err(Ending::BadKey),
    }
}

// The writer's key; none where memory is wanted.
fn writers_key<R: Threads + Sync>(
    rt: &R,
    alloc: Global,
    seed: &[u8],
    height: Height,
    ots: OtsType,
) -> Option<PrivateKey>
    requires { 48 ≤ length seed.now }
    ensures { IfSome result (λ key. key ≡ secret_in height ots seed.now) }
{
    PrivateKey::make_by(
        rt,
        alloc,
        workers(rt),
        part::<32>(seed, 0),
        part::<16>(seed, 32),
        height,
        ots,
    )
    .ok()
}

// The request of a put of this content.
fn put_request(words: &PutWords<'_>, store: [u8; 32], content: &[u8]) -> PutRequest
    ensures { put_request_view result ≡ record {
      store = store;
      epoch = words.now.call.epoch;
      block = words.now.call.block;
      client = words.now.call.client;
      nonce = words.now.call.nonce;
      version = words.now.version;
      content = sha256 content.now;
    } }
{
    PutRequest {
        store,
        epoch: words.call.epoch,
        block: words.call.block,
        client: words.call.client,
        nonce: words.call.nonce,
        version: words.version,
        content: digest(content),
    }
}

// Writes the put body, signed by the leaf that was drawn.
fn put_asked<'a, F: Folder>(
    alloc: Global,
    files: &mut F,
    key: &PrivateKey,
    drawn: DrawnLeaf,
    request: &PutRequest,
    content: &[u8],
    out: &str,
) -> Ending<'a>
    requires hash { request.now.content ≡ sha256 content.now }
    requires one { (drawn.range.from ≡ drawn.leaf) × (drawn.range.to ≡ drawn.leaf + 1) × (drawn.leaf < leaves_of key.now) }
    requires key { drawn.range.key ≡ sha256 (public_of key.now) }
    ensures ends { LeafEnds (record { secret = key.now; request = put_request_view request.now; content = content.now }) (Ok drawn.leaf) out.now
        (files_of F.Folder files.old)
        (files_of F.Folder files.new) (ending_view result) }
    ensures others { (other : List ℕ) → other ≢ out.now → F.file files.new other ≡ F.file files.old other }
    ensures tells { F.tells files.new ≡ F.tells files.old }
    ensures unread { F.read_faults files.new ≡ F.read_faults files.old }
    ensures write_count { F.write_faults files.old ≤ F.write_faults files.new }
{
    let DrawnLeaf { leaf, mut range } = drawn;
    let body = match ask_put(alloc, key, &mut range, request, content) {
        Ok(body) => body,
        Err(_) => return Ending::NoMemory,
    };
    match files.write(out, body.as_slice()) {
        Ok(()) => Ending::Client(ClientEnding::AskedPut { leaf }),
        Err(_) => Ending::Fault,
    }
}

// Writes a put body. All memory but that of the body itself is taken before a leaf is reserved.
pub(crate) fn run_ask_put<'a, R: Threads + Sync, F: Folder, K: Disk>(
    rt: &R,
    alloc: Global,
    files: &mut F,
    vault: &mut K,
    words: PutWords<'a>,
) -> Ending<'a>
    ensures ends { AskPutEnds K.Disk (put_words_view words.entry)
        (files_of F.Folder files.old)
        (files_of F.Folder files.new) vault.old vault.new (ending_view result) }
    ensures tells { F.tells files.new ≡ F.tells files.old }
    ensures read_count { F.read_faults files.old ≤ F.read_faults files.new }
    ensures write_count { F.write_faults files.old ≤ F.write_faults files.new }
    ensures vault_count { K.faults vault.old ≤ K.faults vault.new }
{
    let seed = Input {
        name: words.seed,
        limit: SEED_LENGTH,
    };
    let store = Input {
        name: words.store,
        limit: KEY_LIMIT,
    };
    let content = Input {
        name: words.content,
        limit: CONTENT_LIMIT,
    };
    let inputs = match three_inputs(alloc, files, seed, store, content) {
        Ok(inputs) => inputs,
        Err(ending) => return ending,
    };
    let store = match judged(&inputs) {
        Ok(store) => store,
        Err(ending) => return ending,
    };
    let Some(key) = writers_key(rt, alloc, inputs.first.as_slice(), words.height, words.ots) else {
        return Ending::NoMemory;
    };
    let id = digest(&key.public().bytes());
    let drawn = match draw_leaf(vault, id, u64::from(key.leaves())) {
        Ok(drawn) => drawn,
        Err(ending) => return ending,
    };
    let content = inputs.third.as_slice();
    let request = put_request(&words, store, content);
    put_asked(alloc, files, &key, drawn, &request, content, words.out)
}

// The get request's text, where the store's key reads.
fn get_text(store: &[u8], call: &CallWords) -> Option<[u8; 64]>
    ensures { MatchOption result (key_reads store.now ≡ false)
        (λ text. IsTrue (key_reads store.now) × (text ≡ get_request_text (get_request (call_words_view call.now) store.now))) }
{
    if PublicKey::read(store).is_err() {
        return None;
    }
    let request = GetRequest {
        store: digest(store),
        epoch: call.epoch,
        block: call.block,
        client: call.client,
        nonce: call.nonce,
    };
    Some(request.text())
}

// Writes a get request.
pub(crate) fn run_ask_get<'a, F: Folder>(
    alloc: Global,
    files: &mut F,
    words: GetWords<'a>,
) -> Ending<'a>
    ensures ends { AskGetEnds (get_words_view words.entry)
        (files_of F.Folder files.old)
        (files_of F.Folder files.new) (ending_view result) }
    ensures tells { F.tells files.new ≡ F.tells files.old }
    ensures read_count { F.read_faults files.old ≤ F.read_faults files.new }
    ensures write_count { F.write_faults files.old ≤ F.write_faults files.new }
{
    let store = match input(alloc, files, words.store, KEY_LIMIT) {
        Ok(store) => store,
        Err(ending) => return ending,
    };
    let Some(text) = get_text(store.as_slice(), &words.call) else {
        return Ending::BadKey;
    };
    match files.write(words.out, &text) {
        Ok(()) => Ending::Client(ClientEnding::AskedGet),
        Err(_) => Ending::Fault,
    }
}
