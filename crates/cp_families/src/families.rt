//! A families list.
ghost use Rattle.std.specs.Prelude.{◌≡◌};
ghost use Rattle.cp_families.specs.Writers.{family_of};

use crate::lists::{find_key, take_rows};
use crate::{PutFault, VerifiedPut};
use cp_bytes::Cut;
use cp_statements::{Entry, Envelope, Malformed, PutRequest, take_tag};
use lms_tree::{PublicKey, verify};
use std::marker::Model;

/// The family of a block: its number divided by 2^32 (this project's own).
pub fn family_of(block: u64) -> u32
    ensures { result ≡ family_of block }
{
    (block >> 32) as u32
}

/// The rows of a families list, each a family, a client and the client's key, strictly ascending by
/// family and client. It borrows the bytes that it was read from; contracts see the list of rows.
#[derive(Drop)]
pub struct Families<'a> {
    rows: &'a [[u8; 64]],
}

impl<'a> Model for Families<'a> {
    ghost use Rattle.std.specs.Prelude.{List, map};
    ghost use Rattle.cp_families.specs.Families.{FamilyRow};
    ghost use Rattle.cp_families.specs.Rows.{row_of, IsListed};

    ghost Value = { List FamilyRow };

    ghost view = { λ f. map row_of f.rows.now };

    ghost invariant = { λ f. IsListed (map row_of f.rows.now) };
}

impl<'a> Families<'a> {
    ghost use Rattle.std.specs.Prelude.{Option, Some, None, Ok, IfOk, IsOk, true};
    ghost use Rattle.cp_statements.specs.Reading.{Reads};
    ghost use Rattle.cp_statements.specs.View.{put_request_view, entry_view, envelope_view};
    ghost use Rattle.cp_families.specs.Families.{families_of, key_of};
    ghost use Rattle.cp_families.specs.Writers.{signed_request, writer};
    ghost use Rattle.cp_families.specs.Checking.{check_put_of};

    /// The list that all of the bytes spell: "CPf1", the number of rows in four bytes, big endian, and
    /// rows of 64 bytes, each a family and a client in four bytes, big endian, and an LMS public key of
    /// 56. A row that doesn't come strictly after the one before by family and client is refused at
    /// its first byte, and a key that doesn't read at the key's. It takes no memory.
    #[tactic(auto, unfolding(crate::specs::Families::families_of))]
    pub fn read(bytes: &'a [u8]) -> Result<Families<'a>, Malformed>
        ensures { Reads (λ f. f) result (families_of bytes.now) }
    {
        let mut cut = Cut::new(bytes);
        take_tag(&mut cut, b"CPf1")?;
        let count = cut.be_u32()?;
        let rows = take_rows(&mut cut, count)?;
        cut.end()?;
        Ok(Families { rows })
    }

    // The list that a text which reads spells: its rows are taken where they lie.
    pub(crate) fn in_text(text: &'a [u8]) -> Families<'a>
        requires { IsOk (families_of text.now) }
        ensures { families_of text.now ≡ Ok result }
    {
        let (_, behind) = text.split_at(8);
        let (rows, _) = behind.as_chunks::<64>();
        Families { rows }
    }

    /// The same list once more, which borrows the same bytes.
    pub fn copy(&self) -> Families<'a>
        ensures { result ≡ self.now }
    {
        Families { rows: self.rows }
    }

    /// The key of the client in the family; none exactly where the list has no such row. It is found
    /// by bisection.
    pub fn key_of(&self, family: u32, client: u32) -> Option<PublicKey>
        ensures { result ≡ key_of self.now family client }
    {
        match find_key(self.rows, family, client) {
            Some(key) => PublicKey::read(key).ok(),
            None => None,
        }
    }

    /// Whether the signature is on the request, by the key that the list has for the family of the
    /// request's block and its client.
    pub fn is_signed(&self, request: &PutRequest, signature: &[u8]) -> bool
        ensures { result ≡ signed_request self.now (put_request_view request.now) signature.now }
    {
        match self.key_of(family_of(request.block), request.client) {
            Some(key) => verify(&key, &request.text(), signature),
            None => false,
        }
    }

    /// Whether an authorized writer made the put entry: the list has a key for the block's family and
    /// the client, and it verifies the entry's signature on the put request rebuilt from the entry and
    /// the store's id.
    #[tactic(auto, unfolding(crate::specs::Writers::writer))]
    pub fn is_writer(&self, store: &[u8; 32], entry: &Entry<'_>) -> bool
        ensures { result ≡ writer self.now store.now (entry_view entry.now) }
    {
        let request = PutRequest {
            store: *store,
            epoch: entry.epoch,
            block: entry.block,
            client: entry.client,
            nonce: entry.nonce,
            version: entry.version,
            content: entry.content,
        };
        self.is_signed(&request, entry.signature)
    }

    /// The put that the envelope holds, where an authorized writer signed it for this store. The
    /// refusals come exactly, in the order of `PutFault`. It takes no memory.
    #[tactic(auto, unfolding(crate::specs::Checking::check_put_of))]
    pub fn check_put<'b>(
        &self,
        store: &[u8; 32],
        envelope: &Envelope<'b>,
    ) -> Result<VerifiedPut<'b>, PutFault>
        ensures answer { result ≡ check_put_of self.now store.now (envelope_view envelope.now) }
        ensures signed { IfOk result (λ p. signed_request self.now p.request p.signature ≡ true) }
    {
        let request = PutRequest::read(envelope.text)?;
        if request.store != *store {
            return Err(PutFault::WrongStore);
        }
        let family = family_of(request.block);
        let client = request.client;
        let Some(key) = self.key_of(family, client) else {
            return Err(PutFault::NotAWriter { family, client });
        };
        if !verify(&key, &request.text(), envelope.signature) {
            return Err(PutFault::BadSignature);
        }
        Ok(VerifiedPut::new(request, envelope.signature, key))
    }
}
