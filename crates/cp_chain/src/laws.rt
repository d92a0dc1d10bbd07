//! The laws on segments and logs.
ghost use Rattle.cp_chain.specs.Laws.{FirstFaultIsLeast, GrowsByOne, HeadByLast, LatestAtOther, LatestAtPut, LegalIsUnbroken, NoFaultIsLegal, NoTextKeeps, OneSegmentReaches, OneWayToAHead};
ghost use Rattle.cp_chain.specs.Log.{LogFits, log_of, log_text};
ghost use Rattle.cp_chain.specs.Segment.{SegmentFits, segment_of, segment_text};
ghost use Rattle.cp_statements.specs.Laws.{IsExact};

/// What is carried from text to text is what the last one makes of it. Behind none, head and latest put
/// are those from before. The head behind a text is the digest of "CPch", the head behind all before it
/// and the text. The latest put is the text's own where it is a put's entry, otherwise that of all
/// before it.
pub fn last_text_decides()
    ensures none { NoTextKeeps }
    ensures head { HeadByLast }
    ensures put { LatestAtPut }
    ensures other { LatestAtOther }
{}

/// A segment grows by a text exactly where that text may come next.
pub fn grows_by_one()
    ensures { GrowsByOne }
{}

/// A segment is legal exactly where no rule is broken at any place.
pub fn legal_is_unbroken()
    ensures { LegalIsUnbroken }
{}

/// The first fault: there is none exactly where the segment is legal, and otherwise it is broken and
/// comes first of all that are, by its place, then its rule, then its other place.
pub fn first_fault_is_least()
    ensures none { NoFaultIsLegal }
    ensures least { FirstFaultIsLeast }
{}

/// Two segments that lead to one head, as long as each other, are one, where no two different texts
/// that are hashed on the way have one digest. So one segment at most reaches from tip to tip.
pub fn same_segments()
    ensures heads { OneWayToAHead }
    ensures reaching { OneSegmentReaches }
{}

/// Segments and logs: what is spelled is read, what is read was spelled so, and one value has one
/// spelling.
pub fn texts_are_exact()
    ensures segment { IsExact segment_of segment_text SegmentFits }
    ensures log { IsExact log_of log_text LogFits }
{}
