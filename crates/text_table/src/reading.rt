//! Where reading refuses the bytes of a text.

use crate::form::Form;
use cp_chain::{LogText, Segment};
use cp_client::Asked;
use cp_evidence::Evidence;
use cp_families::Families;
use cp_replay::{Script, ScriptRefusal};
use cp_statements::{
    Attestation, CloseOrder, Closing, Entry, Envelope, GetRequest, Malformed, PutRequest,
};
use cp_tips::TableText;
use std::alloc::{AllocError, Global};

// Why the bytes aren't a script.
fn script_refusal(alloc: Global, bytes: &[u8]) -> Result<Option<Malformed>, AllocError> {
    match Script::read(alloc, bytes) {
        Ok(_) => Ok(None),
        Err(ScriptRefusal::Malformed { at }) => Ok(Some(Malformed { at })),
        Err(ScriptRefusal::OutOfMemory) => Err(AllocError),
    }
}

// Why the bytes aren't a text of the form; none where it isn't one that is read.
fn refusal(alloc: Global, form: Form, bytes: &[u8]) -> Result<Option<Malformed>, AllocError> {
    Ok(match form {
        Form::PutRequest => PutRequest::read(bytes).err(),
        Form::GetRequest => GetRequest::read(bytes).err(),
        Form::CloseOrder => CloseOrder::read(bytes).err(),
        Form::Entry => Entry::read(bytes).err(),
        Form::Attestation => Attestation::read(bytes).err(),
        Form::Closing => Closing::read(bytes).err(),
        Form::Envelope => Envelope::read(bytes).err(),
        Form::Table => TableText::read(bytes).err(),
        Form::Families => Families::read(bytes).err(),
        Form::Segment => Segment::read(bytes).err(),
        Form::Log => LogText::read(bytes).err(),
        Form::Evidence => Evidence::read(bytes).err(),
        Form::Asked => Asked::read(bytes).err(),
        Form::Script => return script_refusal(alloc, bytes),
        Form::Chain | Form::Digests | Form::Signature => None,
    })
}

/// `reads`, or the place of the first fault.
pub fn answer_to_text(alloc: Global, form: Form, bytes: &[u8]) -> Result<String, AllocError> {
    match refusal(alloc, form, bytes)? {
        None => String::from_str(alloc, "reads"),
        Some(Malformed { at }) => format!(in alloc; "malformed {at}"),
    }
}
