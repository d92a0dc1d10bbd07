//! What is missing of an epoch's material.

/// The part of the material that isn't given (this project's own).
#[derive(Clone, Copy, Debug, PartialEq, Eq)]
pub enum What {
    /// The bytes spell no families list.
    Families,
    /// There is no envelope that verifies and holds a closing of the epoch before; in epoch 1 there
    /// are bytes.
    ClosingBefore,
    /// There is no envelope that verifies and holds a closing of the epoch that names the families
    /// list's digest.
    Closing,
    /// The bytes haven't the digest that the closing before names; in epoch 1 there are some.
    TableBefore,
    /// The bytes haven't the digest that the closing names.
    Table,
    /// The bytes spell no log of the epoch.
    LogText,
    /// The least block whose segment in the log doesn't reach, or that has none though its count
    /// rose.
    Log(u64),
}
