//! The parts of an epoch.

/// A part of a closed epoch, which a client can ask for by its name.
#[derive(Clone, Copy, Debug, PartialEq, Eq)]
pub enum PartName {
    /// `closing`: the closing's envelope.
    Closing,
    /// `table`: the text of the table.
    Table,
    /// `log`: the text of the log.
    Log,
    /// `families`: the families list.
    Families,
}
