//! The laws that tie each form's text to its reading, and the forms to one another.
ghost use Rattle.cp_statements.specs.Attestation.{AttestationFits, attestation_of, attestation_text};
ghost use Rattle.cp_statements.specs.CloseOrder.{CloseOrderFits, close_order_of, close_order_text};
ghost use Rattle.cp_statements.specs.CloseOrder2.{CloseOrder2Fits, close_order2_of, close_order2_text};
ghost use Rattle.cp_statements.specs.Closing.{ClosingFits, closing_of, closing_text};
ghost use Rattle.cp_statements.specs.Entry.{EntryFits, entry_of, entry_text};
ghost use Rattle.cp_statements.specs.Envelope.{EnvelopeFits, envelope_of, envelope_text};
ghost use Rattle.cp_statements.specs.GetRequest.{GetRequestFits, get_request_of, get_request_text};
ghost use Rattle.cp_statements.specs.Laws.{EntryLengths, FormsAreApart, HasLength, IsExact, KindsAreApart};
ghost use Rattle.cp_statements.specs.PutRequest.{PutRequestFits, put_request_of, put_request_text};

/// Of each form: what is spelled is read, what is read was spelled so, and one value has one spelling.
pub fn texts_are_exact()
    ensures put_request { IsExact put_request_of put_request_text PutRequestFits }
    ensures get_request { IsExact get_request_of get_request_text GetRequestFits }
    ensures close_order { IsExact close_order_of close_order_text CloseOrderFits }
    ensures close_order2 { IsExact close_order2_of close_order2_text CloseOrder2Fits }
    ensures entry { IsExact entry_of entry_text EntryFits }
    ensures attestation { IsExact attestation_of attestation_text AttestationFits }
    ensures closing { IsExact closing_of closing_text ClosingFits }
    ensures envelope { IsExact envelope_of envelope_text EnvelopeFits }
{}

/// No bytes spell two kinds of statement: none are both an attestation and a closing.
pub fn kinds_are_apart()
    ensures { KindsAreApart }
{}

/// No bytes are a text of two of the forms that begin with a tag.
pub fn forms_are_apart()
    ensures { FormsAreApart }
{}

/// How many bytes each form has.
pub fn lengths()
    ensures put_request { HasLength put_request_text PutRequestFits 104 }
    ensures get_request { HasLength get_request_text GetRequestFits 64 }
    ensures close_order { HasLength close_order_text CloseOrderFits 44 }
    ensures close_order2 { HasLength close_order2_text CloseOrder2Fits 76 }
    ensures entry { EntryLengths }
    ensures attestation { HasLength attestation_text AttestationFits 177 }
    ensures closing { HasLength closing_text ClosingFits 156 }
{}
