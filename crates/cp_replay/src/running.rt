//! A replay as it runs, line by line.
ghost use Rattle.std.specs.Prelude.{◌≡◌, ◌++◌, ◌∷◌, ◌<◌, [], IfOk, OnOk};
ghost use Rattle.lms_tree.specs.Secret.{leaves_of};
ghost use Rattle.cp_core.specs.Machine.{Admissible, SpellsNext, next_or};
ghost use Rattle.cp_core.specs.declared.event.Event.TheVariants.{Call};
ghost use Rattle.cp_replay.specs.Follows.{CanSign, Following, FollowsOn, HasLeaves, sealed_files};
ghost use Rattle.cp_replay.specs.Replay.{after_call, after_close, after_line};
ghost use Rattle.cp_replay.specs.Script.{LineFits};

use crate::printing::{print_at, print_call, print_closed, print_refused};
use crate::signing::{put_envelope, put_handed, signed_put};
use crate::writer_list::WriterList;
use crate::{EpochFiles, Line, OutOfMemory};
use cp_bytes::{Bytes, digest};
use cp_core::Request;
use cp_statements::{GetRequest, Kind, PutRequest};
use cp_store::{SealedText, Store};
use lms_tree::PrivateKey;
use std::alloc::Global;

// How far a replay has come.
#[derive(Drop)]
pub(crate) struct ReplayRun {
    /// The running store.
    pub store: Store,
    /// SHA-256 of its key.
    pub id: [u8; 32],
    /// The families list of its epoch.
    pub list: WriterList,
    /// The epoch that puts and gets name.
    pub named: u64,
    /// What is printed.
    pub text: Vec<u8>,
    /// The envelopes of the attestations.
    pub handins: Vec<u8>,
    /// The files of the closed epochs.
    pub epochs: Vec<EpochFiles>,
}

// The files of an epoch that was sealed.
fn epoch_files(
    alloc: Global,
    key: &PrivateKey,
    families: Vec<u8>,
    sealed: SealedText,
) -> Result<EpochFiles, OutOfMemory>
    requires { sealed.leaf < leaves_of key.now }
    ensures { IfOk result (λ files. files ≡ sealed_files key.now families.items sealed) }
{
    let mut closing = Vec::new(alloc);
    put_envelope(alloc, &mut closing, key, sealed.leaf, &sealed.text)?;
    Ok(EpochFiles {
        families: Bytes::from_vec(families),
        closing: Bytes::from_vec(closing),
        table: sealed.table,
        log: sealed.log,
    })
}

// The text of the list that is named for the next epoch, if one is.
fn next_text(alloc: Global, next: &Option<WriterList>) -> Result<Option<Bytes>, OutOfMemory>
    ensures text { IfOk result (λ text. text ≡ next.now) }
    ensures spells { IfOk result SpellsNext }
{
    match next {
        None => Ok(None),
        Some(list) => {
            let text = list.copy(alloc)?;
            Ok(Some(Bytes::from_vec(text)))
        }
    }
}

// The list that is named for the next epoch, or else this one.
fn next_or(next: Option<WriterList>, list: WriterList) -> WriterList
    ensures { result ≡ next_or next list }
{
    match next {
        Some(next) => next,
        None => list,
    }
}

// Appends the files of one more epoch.
fn add_files(epochs: &mut Vec<EpochFiles>, files: EpochFiles) -> Result<(), OutOfMemory>
    ensures { OnOk result (epochs.new.items ≡ epochs.old.items ++ files ∷ []) }
{
    epochs.push(files)?;
    Ok(())
}

impl ReplayRun {
    // A call.
    fn call(
        self,
        alloc: Global,
        key: &PrivateKey,
        kind: Kind,
        request: Request,
    ) -> Result<ReplayRun, OutOfMemory>
        requires follows { Following self.store.store self }
        requires leaves { HasLeaves self.store.store key.now }
        requires admissible { Admissible self.store.store (Call 0 request) }
        ensures { IfOk result (λ new. FollowsOn self new
            (λ p. after_call key.now self.store.store p kind request)) }
    {
        let mut run = self;
        let answer = run.store.call(alloc, 0, request)?;
        print_call(&mut run.text, kind, &answer)?;
        put_handed(alloc, &mut run.handins, key, &answer)?;
        Ok(run)
    }

    // A closing, with this families list for the next epoch, or with the epoch's own.
    fn close(
        self,
        alloc: Global,
        key: &PrivateKey,
        next: Option<WriterList>,
    ) -> Result<ReplayRun, OutOfMemory>
        requires follows { Following self.store.store self }
        requires leaves { HasLeaves self.store.store key.now }
        ensures { IfOk result (λ new. FollowsOn self new
            (λ p. after_close key.now self.store.store p next)) }
    {
        let families = self.list.copy(alloc)?;
        let next_families = next_text(alloc, &next)?;
        let ReplayRun {
            store,
            id,
            list,
            named,
            mut text,
            handins,
            mut epochs,
        } = self;
        let (store, done) = store.close(alloc, next_families)?;
        match done {
            Err(why) => {
                print_refused(&mut text, why)?;
                Ok(ReplayRun {
                    store,
                    id,
                    list,
                    named,
                    text,
                    handins,
                    epochs,
                })
            }
            Ok(sealed) => {
                print_closed(&mut text, &sealed.text)?;
                let files = epoch_files(alloc, key, families, sealed)?;
                add_files(&mut epochs, files)?;
                let named = store.epoch();
                Ok(ReplayRun {
                    store,
                    id,
                    list: next_or(next, list),
                    named,
                    text,
                    handins,
                    epochs,
                })
            }
        }
    }

    // The line with this number, from 0.
    pub(crate) fn line(
        self,
        alloc: Global,
        key: &PrivateKey,
        writer: &PrivateKey,
        number: u32,
        line: &Line,
    ) -> Result<ReplayRun, OutOfMemory>
        requires follows { Following self.store.store self }
        requires leaves { HasLeaves self.store.store key.now }
        requires signs { CanSign writer.now number }
        requires fits { LineFits line.now }
        ensures { IfOk result (λ new. FollowsOn self new
            (λ p. after_line key.now writer.now self.store.store number p line.now)) }
    {
        match line {
            Line::Put {
                client,
                block,
                nonce,
                version,
                content,
            } => {
                let store = self.id;
                let hash = digest(content.as_slice());
                let asked = PutRequest {
                    store,
                    epoch: self.named,
                    block: *block,
                    client: *client,
                    nonce: *nonce,
                    version: *version,
                    content: hash,
                };
                let request = signed_put(alloc, writer, number, asked, content.as_slice())?;
                let run = self.call(alloc, key, Kind::Put, request)?;
                Ok(run)
            }
            Line::Get {
                client,
                block,
                nonce,
            } => {
                let store = self.id;
                let asked = GetRequest {
                    store,
                    epoch: self.named,
                    block: *block,
                    client: *client,
                    nonce: *nonce,
                };
                let run = self.call(alloc, key, Kind::Get, Request::Get(asked))?;
                Ok(run)
            }
            Line::Close => {
                let run = self.close(alloc, key, None)?;
                Ok(run)
            }
            Line::CloseWithout { client } => {
                let next = self.list.without(alloc, *client)?;
                let run = self.close(alloc, key, Some(next))?;
                Ok(run)
            }
            Line::At { epoch } => {
                let mut run = self;
                print_at(&mut run.text, *epoch)?;
                run.named = *epoch;
                Ok(run)
            }
        }
    }
}
