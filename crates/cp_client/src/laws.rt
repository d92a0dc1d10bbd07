//! The laws on what is asked, and on what was served.
ghost use Rattle.cp_client.specs.Laws.{AskedIsExact, ServedIsLatest};

/// What is spelled is read, what is read was spelled so, and each question has one spelling.
pub fn asked_is_exact()
    ensures { AskedIsExact }
{}

/// Where a client accepted a get's answer above version 0, its envelope was handed in and the verdict on
/// its epoch is clean, any content with the digest of the latest put at the get's place is the content
/// that was served, unless the two are different contents with one digest. The premises are what `accept`
/// answers and what the audit answers.
pub fn served_is_latest()
    ensures { ServedIsLatest }
{}
