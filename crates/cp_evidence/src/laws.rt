//! What holds of the definitions alone. The laws are the contract of a function with an empty body.
ghost use Rattle.cp_statements.specs.Laws.{IsExact};
ghost use Rattle.cp_evidence.specs.Evidence.{EvidenceFits, evidence_of, evidence_text};
ghost use Rattle.cp_evidence.specs.HandIns.{HandInsFit, hand_ins_of, hand_ins_text};

/// Evidence of every kind, and hand-ins: what is spelled is read, what is read was spelled so, and one
/// value has one spelling.
pub fn texts_are_exact()
    ensures evidence { IsExact evidence_of evidence_text EvidenceFits }
    ensures hand_ins { IsExact hand_ins_of hand_ins_text HandInsFit }
{}
