//! What goes into a shard and what comes out.
ghost use Rattle.std.specs.Prelude.{◌≡◌, None, Some, IfErr, IfOk, OnErr};
ghost use Rattle.cp_statements.specs.PutRequest.{PutRequestFits, put_request_text};
ghost use Rattle.cp_statements.specs.View.{put_request_view};
ghost use Rattle.cp_store.specs.Served.{IsWritten, RefusesPut, answered};

use crate::{Answer, OutOfMemory};
use cp_core::{Booked, CallRefusal};
use cp_families::{VerifiedPut, family_of, verify_put};
use cp_shard::Shard;
use cp_statements::{Envelope, PutRequest};

// The put with its signature, where a writer of the shard's epoch made it in that epoch, or else the
// refusal that the shard's first rules give.
pub(crate) fn verified<'a>(
    shard: &Shard,
    store: &[u8; 32],
    request: &PutRequest,
    text: &'a [u8; 104],
    signature: &'a [u8],
) -> Result<VerifiedPut<'a>, CallRefusal>
    requires names { request.now.store ≡ store.now }
    requires fits { PutRequestFits (put_request_view request.now) }
    requires text { text.now ≡ put_request_text (put_request_view request.now) }
    ensures written { IfOk result (IsWritten shard.now request.now signature.now) }
    ensures refused { IfErr result (RefusesPut shard.now request.now signature.now) }
{
    let current = shard.current();
    if request.epoch != current {
        return Err(CallRefusal::WrongEpoch { current });
    }
    let family = family_of(request.block);
    let client = request.client;
    let Some(key) = shard.key_of(family, client) else {
        return Err(CallRefusal::NotAWriter { family, client });
    };
    match verify_put(store, &key, &Envelope { text, signature }) {
        Ok(put) => Ok(put),
        // The text is the request's, which names the store.
        Err(_) => Err(CallRefusal::BadSignature),
    }
}

// The answer to a call that a shard served.
pub(crate) fn answered(outcome: Result<Booked, CallRefusal>) -> Result<Answer, OutOfMemory>
    ensures said { IfOk result (λ answer. answered outcome ≡ Some answer) }
    ensures memory { OnErr result (answered outcome ≡ None) }
{
    match outcome {
        Ok(booked) => Ok(Answer::Booked(booked)),
        Err(CallRefusal::OutOfMemory) => Err(OutOfMemory),
        Err(refusal) => Ok(Answer::CallRefused(refusal)),
    }
}
