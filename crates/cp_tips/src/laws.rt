//! The laws that tie a table's text to its reading.
ghost use Rattle.cp_tips.specs.Laws.{TablesAreExact, TableLength};

/// What is spelled is read, what is read was spelled so, and one list of rows has one spelling, of four
/// bytes and 88 for each row.
pub fn tables_are_exact()
    ensures exact { TablesAreExact }
    ensures length { TableLength }
{}
