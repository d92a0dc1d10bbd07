//! The forms of rows.

/// What the bytes of a row are.
#[derive(Clone, Copy)]
pub enum Form {
    PutRequest,
    GetRequest,
    CloseOrder,
    Entry,
    Attestation,
    Closing,
    Envelope,
    Table,
    Families,
    Segment,
    Log,
    Evidence,
    /// What a client asks: a get request or a put body.
    Asked,
    Script,
    /// A segment behind its frame: `legal`, or the rule that it breaks first, and where (`chain`).
    Chain,
    /// Four messages of 55 bytes, joined, or one for four lanes: their SHA-256 digests (`lanes`).
    Digests,
    /// A key's seed, a leaf and a text: the public key and the signature's SHA-256 (`signing`).
    Signature,
}

impl Form {
    /// The form that the word names.
    pub fn named(word: &str) -> Option<Form> {
        match word {
            "put-request" => Some(Form::PutRequest),
            "get-request" => Some(Form::GetRequest),
            "close-order" => Some(Form::CloseOrder),
            "entry" => Some(Form::Entry),
            "attestation" => Some(Form::Attestation),
            "closing" => Some(Form::Closing),
            "envelope" => Some(Form::Envelope),
            "table" => Some(Form::Table),
            "families" => Some(Form::Families),
            "segment" => Some(Form::Segment),
            "log" => Some(Form::Log),
            "evidence" => Some(Form::Evidence),
            "asked" => Some(Form::Asked),
            "script" => Some(Form::Script),
            "chain" => Some(Form::Chain),
            "digests" => Some(Form::Digests),
            "signature" => Some(Form::Signature),
            _ => None,
        }
    }
}
